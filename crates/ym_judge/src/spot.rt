//! The positions of a session at which a case does something.

ghost use Rattle.std.specs.Prelude.{◌≡◌, Some};
ghost use Rattle.ym_judge.specs.Cases.{spot_at};
ghost use Rattle.ym_judge.specs.JudgeText.{spot_text};

use crate::act::Act;
use std::fmt;

/// A place of a session: what is sent there, or that nothing was sent yet.
#[derive(Clone, Copy, PartialEq, Eq)]
pub enum Spot {
    /// Nothing was sent yet.
    Start,
    /// The block 0 of a file.
    Header,
    /// Its first data block.
    First,
    /// Its second one.
    Second,
    /// Its EOT.
    Eot,
    /// The same once more.
    EotAgain,
    /// The end block.
    End,
}

/// The place of what a sender does, behind so many EOTs of the file.
pub fn spot_of(act: Act, eots: u8) -> Option<Spot>
    ensures { result ≡ spot_at act eots }
{
    match act {
        Act::Nothing => Some(Spot::Start),
        Act::Header => Some(Spot::Header),
        Act::Block(1) => Some(Spot::First),
        Act::Block(2) => Some(Spot::Second),
        Act::Eot => {
            if eots == 0 {
                Some(Spot::Eot)
            } else {
                Some(Spot::EotAgain)
            }
        }
        Act::End => Some(Spot::End),
        Act::Block(_)
        | Act::Cancel
        | Act::Noise
        | Act::Answer(_)
        | Act::Answers(_, _)
        | Act::Form(_) => None,
    }
}

impl Spot {
    /// What it is, in words.
    fn text(self) -> &'static str
        ensures { result.now ≡ spot_text self }
    {
        match self {
            Spot::Start => "start",
            Spot::Header => "block 0",
            Spot::First => "data block 1",
            Spot::Second => "data block 2",
            Spot::Eot => "EOT",
            Spot::EotAgain => "second EOT",
            Spot::End => "end block",
        }
    }
}

impl fmt::Display for Spot {
    ghost output = { λ spot. Some (spot_text spot) };

    fn fmt<W: fmt::Write>(&self, f: &mut fmt::Formatter<W>) -> fmt::Result {
        f.write_str(self.text())
    }
}
