//! A case that a peer is tried by.

use crate::parcel::Parcel;
use crate::spot::Spot;
use crate::twist::Twist;
use std::fmt;

/// A case that a peer is tried by.
#[derive(Clone, Copy, PartialEq, Eq)]
pub enum Case {
    /// A session in which nothing goes wrong.
    Plain,
    /// The usual file is sent, and this becomes of one frame.
    Frame(Spot, Twist),
    /// This is sent, by this end or by the peer, and nothing goes wrong.
    Sends(Parcel),
    /// What the peer sends is received, and this becomes of the answer to one frame.
    Answer(Spot, Twist),
    /// What the peer sends is received, and the bytes of this frame are looked at.
    Bytes(Spot),
}

impl fmt::Display for Case {
    ghost use Rattle.std.specs.Prelude.{Some};
    ghost use Rattle.ym_judge.specs.JudgeText.{case_text};

    ghost output = { λ case. Some (case_text case) };

    fn fmt<W: fmt::Write>(&self, f: &mut fmt::Formatter<W>) -> fmt::Result {
        match *self {
            Case::Plain => write!(f, "plain"),
            Case::Frame(spot, twist) => write!(f, "{spot}: {twist}"),
            Case::Sends(parcel) => write!(f, "{parcel}"),
            Case::Answer(spot, twist) => write!(f, "answer to {spot}: {twist}"),
            Case::Bytes(spot) => write!(f, "{spot}: its bytes"),
        }
    }
}
