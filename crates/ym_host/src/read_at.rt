//! Files that are read from any place.

ghost use Rattle.std.specs.Prelude.{ℕ, List, Option, None, OnOk};
ghost use Rattle.ym_host.specs.ReadAhead.{StandsIn};

use std::fs::File;
use std::io;
use std::os::unix::fs::FileExt;

/// A file that is open to be read, from any place.
pub trait ReadAt {
    /// Its bytes, where they are known: those of a file of the system are not.
    ghost bytes: { Self → Option (List ℕ) };

    /// Reads the bytes from place `at` on, as many as `into` has room for. Where that fails it is
    /// not said what `into` holds.
    fn read_at(&self, at: u64, into: &mut [u8]) -> io::Result<()>
        ensures { OnOk result (StandsIn into.new at (bytes self.now)) };
}

/// A file of the system.
impl ReadAt for File {
    ghost bytes = { λ _. None };

    fn read_at(&self, at: u64, into: &mut [u8]) -> io::Result<()> {
        self.read_exact_at(into, at)
    }
}
