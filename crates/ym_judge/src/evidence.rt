//! What was seen of a case, and what that shows.

ghost use Rattle.std.specs.Prelude.{◌≡◌, ◌↔◌, ◌≢◌, true, false};
ghost use Rattle.ym_judge.specs.Judging.{IsLoss, Conforms};

use crate::finding::Finding;

/// What was seen of a case.
#[derive(Clone, Copy)]
pub struct Evidence {
    /// The session came to the place of the case.
    pub tried: bool,
    /// The peer wrote something.
    pub answered: bool,
    /// At each step it did what the reference does.
    pub fits: bool,
    /// How many files are done by what the peer wrote: by its acknowledgements, or since it goes
    /// on to another file or to the end.
    pub told: usize,
    /// How many files the reference has, or had stored, by what was delivered.
    pub held: usize,
    /// Each file that is stored is the one that was sent.
    pub exact: bool,
}

impl Evidence {
    /// Whether data is lost: a file counts as done that is not there, or another one is stored.
    fn is_loss(self) -> bool
        ensures { (result ≡ true) ↔ IsLoss self }
    {
        self.held < self.told || !self.exact
    }

    /// What the evidence shows.
    pub fn finding(self) -> Finding
        ensures silent { (result ≡ Finding.NoAnswer) ↔ (self.answered ≡ false) }
        ensures loses { (result ≡ Finding.Loses) ↔ ((self.answered ≡ true) × IsLoss self) }
        ensures conforms { (result ≡ Finding.Conforms) ↔ Conforms self }
        ensures untried { result ≡ Finding.NotTried → self.tried ≡ false }
    {
        if !self.answered {
            return Finding::NoAnswer;
        }
        if self.is_loss() {
            return Finding::Loses;
        }
        match (self.tried, self.fits) {
            (false, _) => Finding::NotTried,
            (true, true) => Finding::Conforms,
            (true, false) => Finding::Differs,
        }
    }
}
