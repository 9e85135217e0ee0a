//! A batch, as its sender counts it.

/// A batch of files, as far as a sender's history depends on it.
pub trait BatchShape {
    ghost use Rattle.std.specs.Prelude.{List, ℕ, ◌≡◌, ◌<◌, length};
    ghost use Rattle.ym_core.specs.Position.{count_at};

    /// How many data blocks each file is sent in.
    ghost counts: { Self → List ℕ };

    /// How many files it has.
    fn files(&self) -> usize
        ensures { result ≡ length (counts self.now) };

    /// How many data blocks file number `file` is sent in, counted from 0.
    fn blocks(&self, file: usize) -> u64
        requires { file < length (counts self.now) }
        ensures { result ≡ count_at (counts self.now) file };
}
