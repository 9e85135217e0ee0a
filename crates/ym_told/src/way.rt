//! The ways of a line.

ghost use Rattle.std.specs.Prelude.{◌≡◌};
ghost use Rattle.ym_told.specs.BothStand.{other_way};

use std::fmt;

/// A way of a line.
#[derive(Clone, Copy, PartialEq, Eq)]
pub enum Direction {
    /// From the sender of the files to their receiver.
    There,
    /// From the receiver to the sender.
    Back,
}

impl Direction {
    /// The other way.
    pub fn other(self) -> Direction
        ensures { result ≡ other_way self }
    {
        match self {
            Direction::There => Direction::Back,
            Direction::Back => Direction::There,
        }
    }
}

impl fmt::Display for Direction {
    ghost use Rattle.std.specs.Prelude.{Some};
    ghost use Rattle.ym_told.specs.LineWords.{way_words};

    ghost output = { λ way. Some (way_words way) };

    fn fmt<W: fmt::Write>(&self, f: &mut fmt::Formatter<W>) -> fmt::Result {
        match self {
            Direction::There => f.write_str("> "),
            Direction::Back => f.write_str("< "),
        }
    }
}
