//! What a case has shown so far.

ghost use Rattle.std.specs.Prelude.{◌≡◌, ◌↔◌, ◌⊎◌, true};
ghost use Rattle.ym_judge.specs.Noted.{asks_both, fits_behind, no_notes, notes_behind};
ghost use Rattle.ym_judge.specs.Noted.{has_taken_back};

use crate::act::Act;
use ym_frame::Reply;

/// One step of a session.
#[derive(Clone, Copy)]
pub struct Passage {
    /// What the reference does.
    pub asked: Act,
    /// What the peer did.
    pub did: Act,
    /// After how many tenths of a second.
    pub tenths: u64,
    /// They are the same.
    pub fits: bool,
    /// It is the step of the case.
    pub here: bool,
}

/// What a case has shown so far.
#[derive(Clone, Copy)]
pub struct Notes {
    /// The step that tells most: the first that does not fit, else the last of the case.
    pub shown: Passage,
    /// All steps fit.
    pub fits: bool,
    /// The step of the case was there.
    pub tried: bool,
    /// The peer wrote something.
    pub answered: bool,
    /// It cancelled right behind an ACK.
    pub takes_back: bool,
}

/// Whether who did this has taken an ACK back.
fn has_taken_back(did: Act) -> bool
    ensures { result ≡ has_taken_back did }
{
    matches!(
        did,
        Act::Answers(Reply::Ack | Reply::AckStart, Reply::Cancel)
    )
}

impl Notes {
    /// Nothing was seen.
    pub fn new() -> Notes
        ensures { result ≡ no_notes }
    {
        let shown = Passage {
            asked: Act::Nothing,
            did: Act::Nothing,
            tenths: 0,
            fits: true,
            here: false,
        };
        Notes {
            shown,
            fits: true,
            tried: false,
            answered: false,
            takes_back: false,
        }
    }

    /// The same behind one step more.
    pub fn behind(self, turn: Passage) -> Notes
        ensures { result ≡ notes_behind turn self }
    {
        let shown = if self.fits && (turn.here || !turn.fits) {
            turn
        } else {
            self.shown
        };
        Notes {
            shown,
            fits: self.fits && turn.fits,
            tried: self.tried || turn.here,
            answered: self.answered || turn.did != Act::Nothing,
            takes_back: self.takes_back || has_taken_back(turn.did),
        }
    }
}

/// Which of the reference's receivers the peer may be.
#[derive(Clone, Copy)]
pub struct Fits {
    /// The one that wants to hear an EOT twice.
    pub twice: bool,
    /// The one that acknowledges the first.
    pub once: bool,
}

impl Fits {
    /// The same behind a step at which it did what these do.
    pub fn behind(self, twice: bool, once: bool) -> Fits
        ensures { result ≡ fits_behind twice once self }
    {
        Fits {
            twice: self.twice && twice,
            once: self.once && once,
        }
    }

    /// Whether it may be any.
    pub fn any(self) -> bool
        ensures { (result ≡ true) ↔ ((self.twice ≡ true) ⊎ (self.once ≡ true)) }
    {
        self.twice || self.once
    }
}

/// What a receiver does that gives these two answers.
pub fn asked_of_receiver(first: Reply, second: Reply) -> Act
    ensures { result ≡ asks_both first second }
{
    match (first, second) {
        (Reply::Silence, Reply::Silence) => Act::Nothing,
        (_, Reply::Silence) => Act::Answer(first),
        (Reply::Silence, _) => Act::Answer(second),
        _ => Act::Answers(first, second),
    }
}
