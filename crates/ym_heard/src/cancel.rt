//! CAN CAN among what came, and block 0 that comes in place of a repeat.

ghost use Rattle.std.specs.Prelude.{◌≡◌, ◌≤◌, length};
ghost use Rattle.ym_heard.specs.Cancel as table;

use crate::ear::{ACK, CAN, NAK, START};

/// How many CAN in a row came last.
#[derive(Clone, Copy)]
pub enum Cans {
    /// None.
    Zero,
    /// One.
    One,
    /// Two came at some time.
    Two,
}

impl Cans {
    /// After one more byte: bytes that are no control byte stand for nothing.
    fn after(self, byte: u8) -> Cans
        ensures { result ≡ table.after byte self }
    {
        match (self, byte) {
            (Cans::Two, _) => Cans::Two,
            (Cans::One, CAN) => Cans::Two,
            (Cans::Zero, CAN) => Cans::One,
            (_, ACK | NAK | START) => Cans::Zero,
            (cans, _) => cans,
        }
    }
}

/// Whether CAN CAN stands among the bytes that are to be heard: then a reply before it is none.
pub fn cancels(bytes: &[u8]) -> bool
    ensures { result ≡ table.cancels bytes.now }
{
    let mut cans = Cans::Zero;
    for byte in bytes {
        cans = cans.after(*byte);
    }
    match cans {
        Cans::Two => true,
        Cans::Zero | Cans::One => false,
    }
}

/// What tells the block 0 that a receiver took from another one: its length and its check.
#[derive(Clone, Copy)]
pub struct Opening {
    /// How many bytes the frame has.
    pub length: usize,
    /// The first byte of its check.
    pub high: u8,
    /// The second byte of its check.
    pub low: u8,
}

impl Opening {
    /// That of this frame.
    pub fn of(frame: &[u8]) -> Opening
        requires { 2 ≤ length frame.now }
        ensures { result ≡ table.opening_of frame.now }
    {
        Opening {
            length: frame.len(),
            high: frame[frame.len() - 2],
            low: frame[frame.len() - 1],
        }
    }

    /// Whether this frame, which stands where only a repeat of it can, is one. If not, the ends
    /// are out of step.
    pub fn is_repeated_by(self, frame: &[u8]) -> bool
        requires { 2 ≤ length frame.now }
        ensures { result ≡ table.is_repeated_by frame.now self }
    {
        let other = Opening::of(frame);
        self.length == other.length && self.high == other.high && self.low == other.low
    }
}
