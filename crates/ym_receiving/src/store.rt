//! A sink that says which files it has stored, and can let go of the one that is open.

ghost use Rattle.std.specs.Prelude.{◌≡◌, ℕ, List, Option, option_map};
ghost use Rattle.ym_receiving.specs.Receiving.{Closes};

use ym_file::{Sink, SinkFault};
use ym_folder::{DirSink, Folder};
use ym_header::Header;

/// A sink whose files have names, and which can be closed.
pub trait Store: Sink {
    /// The name of what was removed for the open file, where something was.
    ghost replaced: { Self → Option (List ℕ) };

    /// The headers of the files that were committed, in order.
    fn headers(&self) -> &[Header]
        ensures { result.now ≡ (Self.kept self.now).headers };

    /// The name of the part of an earlier run that was removed for the open file, where one was.
    fn replaced(&self) -> Option<&str>
        ensures { option_map (λ name. name.now) result ≡ Self.replaced self.now };

    /// Lets go of the file that is open, if there is one. It never answers [`SinkFault::Memory`].
    fn close(&mut self) -> Result<(), SinkFault>
        ensures { Closes (Self.kept self.old) (Self.failures self.old) result
            (Self.kept self.new) (Self.failures self.new) };
}

impl<D: Folder + Drop> Store for DirSink<D> {
    ghost replaced = { λ s. s.replaced };

    fn headers(&self) -> &[Header] {
        DirSink::headers(self)
    }

    fn replaced(&self) -> Option<&str> {
        DirSink::replaced(self)
    }

    fn close(&mut self) -> Result<(), SinkFault> {
        DirSink::close(self)
    }
}
