//! What was written last.

ghost use Rattle.std.specs.Prelude.{◌≡◌, ◌≤◌, [], length, take};
ghost use Rattle.ym_port.specs.declared.written.TheConstants.{LONGEST_FRAME};

use std::marker::Model;

/// The bytes of the longest frame.
pub const LONGEST_FRAME: usize = 1029;

/// The frame that was written last, or the front of it where it is longer than any frame is.
/// Contracts see it as the list of its bytes.
#[derive(Drop)]
pub struct Written {
    bytes: [u8; LONGEST_FRAME],
    length: usize,
}

impl Model for Written {
    ghost use Rattle.std.specs.Prelude.{List, ℕ, take, ◌≤◌};
    ghost use Rattle.ym_port.specs.declared.written.TheConstants.{LONGEST_FRAME};

    ghost Value = { List ℕ };

    ghost view = { λ w. take w.length w.bytes };

    ghost invariant = { λ w. w.length ≤ LONGEST_FRAME };
}

impl Written {
    /// Nothing was written.
    pub fn new() -> Written
        ensures { result ≡ [] }
    {
        Written {
            bytes: [0; LONGEST_FRAME],
            length: 0,
        }
    }

    /// Its bytes.
    #[inline]
    pub fn as_slice(&self) -> &[u8]
        ensures { result.now ≡ self.now }
    {
        &self.bytes[..self.length]
    }

    /// Takes what was written in place of what was written before.
    #[inline]
    pub fn keep(&mut self, bytes: &[u8])
        ensures { self.new ≡ take LONGEST_FRAME bytes.now }
    {
        // most often what a receiver writes
        if bytes.len() == 1 {
            self.bytes[0] = bytes[0];
            self.length = 1;
            return;
        }
        let length = bytes.len().min(LONGEST_FRAME);
        self.bytes[..length].copy_from_slice(&bytes[..length]);
        self.length = length;
    }
}
