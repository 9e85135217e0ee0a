//! What a sender tells of its files by what it sends.

ghost use Rattle.std.specs.Prelude.{◌≡◌};
ghost use Rattle.ym_judge.specs.Claiming.{claims_behind, no_claims};

use crate::act::Act;

/// What a sender tells of its files: it goes on to the next one, or to the end, where it takes
/// those before for done.
#[derive(Clone, Copy)]
pub struct Claims {
    /// How many files it has begun.
    pub begun: usize,
    /// How many it takes for done.
    pub told: usize,
    /// Whether it has ended the data of the file that it began last.
    pub ended: bool,
}

impl Claims {
    /// It has sent nothing.
    pub fn new() -> Claims
        ensures { result ≡ no_claims }
    {
        Claims {
            begun: 0,
            told: 0,
            ended: true,
        }
    }

    /// What it tells behind this.
    pub fn behind(self, act: Act) -> Claims
        ensures { result ≡ claims_behind act self }
    {
        match (act, self.ended) {
            (Act::Header, true) => Claims {
                begun: self.begun.saturating_add(1),
                told: self.begun,
                ended: false,
            },
            (Act::Eot, _) => Claims {
                ended: true,
                ..self
            },
            (Act::End, _) => Claims {
                told: self.begun,
                ..self
            },
            _ => self,
        }
    }
}
