//! What bytes are put into, one behind the other.

ghost use Rattle.std.specs.Prelude.{◌≡◌, ℕ, List, Option, None, OnOk, OnErr};
ghost use Rattle.std.specs.Io.KnownBytes.{append_known};
ghost use Rattle.ym_folder.specs.WriteBehind.{GrowsByPrefix};

use std::fs::File;
use std::io;
use std::io::Write;

/// What takes bytes, one behind the other: a file that is open to be written.
pub trait Append {
    /// The bytes that it took, where they are known: those of a file of the system are not.
    ghost taken: { Self → Option (List ℕ) };

    /// Puts bytes behind those that it took. Where that fails a front of them may have been taken.
    fn append(&mut self, bytes: &[u8]) -> io::Result<()>
        ensures all { OnOk result (taken self.new ≡ append_known (taken self.old) bytes.now) }
        ensures prefix { OnErr result (GrowsByPrefix (taken self.old) (taken self.new) bytes.now) };
}

/// A file of the system.
impl Append for File {
    ghost taken = { λ _. None };

    fn append(&mut self, bytes: &[u8]) -> io::Result<()> {
        self.write_all(bytes)
    }
}

/// Empties a file. A device, as a terminal or `/dev/null`, has nothing to be cut.
pub(crate) fn empty(file: &File) -> io::Result<()> {
    if file.metadata()?.is_file() {
        file.set_len(0)?;
    }
    Ok(())
}
