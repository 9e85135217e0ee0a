//! What a port has learned of its line.

ghost use Rattle.std.specs.Prelude.{◌≡◌, Bool, Option, ℕ};

use ym_link::Port;

/// A port that tells what its end has learned of its line.
pub trait Learned: Port {
    /// Whether what was written came back.
    ghost echoes: { Self → Bool };

    /// How many milliseconds the slowest answer of late took.
    ghost slowest_answer: { Self → Option ℕ };

    /// Whether what this end wrote came back to it: the line echoes, most often a shell at its
    /// other end.
    fn has_echo(&self) -> bool
        ensures { result ≡ echoes self.now };

    /// How many milliseconds the slowest answer of late took; nothing where none was seen.
    fn slowest(&self) -> Option<u64>
        ensures { result ≡ slowest_answer self.now };
}
