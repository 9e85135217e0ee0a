//! What a case has shown.

ghost use Rattle.std.specs.Prelude.{◌≡◌, false};
ghost use Rattle.ym_judging.specs.JudgedSteps.{IsFound, IsStep, evidence_of};

use ym_judge::{Case, Evidence, Notes, Parcel, Tried};

/// What a case has shown.
#[derive(Clone, Copy)]
pub struct Outcome {
    /// What was seen.
    pub notes: Notes,
    /// What was sent to the peer, if it receives.
    pub sent: Option<Parcel>,
    /// How many files are done by what the peer wrote.
    pub told: usize,
    /// How many are there by what was delivered.
    pub held: usize,
    /// Each file that is stored is the one that was sent.
    pub is_exact: bool,
    /// Who is there and does what the reference does says nothing in this case.
    pub is_mute: bool,
    /// The session came to the end that it has with the reference.
    pub is_finished: bool,
    /// A read of the line failed.
    pub has_failed: bool,
}

impl Outcome {
    /// Nobody was there.
    pub fn unanswered() -> Outcome
        ensures answered { result.notes.answered ≡ false }
        ensures failed { result.has_failed ≡ false }
    {
        Outcome {
            notes: Notes::new(),
            sent: None,
            told: 0,
            held: 0,
            is_exact: true,
            is_mute: false,
            is_finished: false,
            has_failed: false,
        }
    }

    /// The evidence of the case.
    pub fn evidence(&self) -> Evidence
        ensures { result ≡ evidence_of self.now }
    {
        Evidence {
            tried: self.notes.tried,
            answered: self.notes.answered || self.is_mute,
            fits: self.notes.fits,
            told: self.told,
            held: self.held,
            exact: self.is_exact,
        }
    }

    /// What the report says of the case.
    pub fn tried(&self, case: Case) -> Tried
        ensures case { result.case ≡ case }
        ensures step { IsStep self.now.notes.shown result }
        ensures finished { result.finished ≡ self.now.is_finished }
        ensures takes_back { result.takes_back ≡ self.now.notes.takes_back }
        ensures found { IsFound self.now result.finding }
    {
        let shown = self.notes.shown;
        Tried {
            case,
            asked: shown.asked,
            did: shown.did,
            tenths: shown.tenths,
            finding: self.evidence().finding(),
            finished: self.is_finished,
            takes_back: self.notes.takes_back,
        }
    }
}
