//! How long answers take on this line.

ghost use Rattle.std.specs.Prelude.{◌≡◌};
ghost use Rattle.ym_timing.specs.Pace as table;

use crate::role::Role;
use ym_heard::{FIRST_FRAME, FIRST_REPLY, LONGEST, MARGIN, WITHIN};

/// How much is known of it.
#[derive(Clone, Copy)]
pub enum Trust {
    /// Nothing was seen.
    Unknown,
    /// An answer came while several were awaited, and was taken for that of the oldest write.
    Doubtful,
    /// An answer came while one was awaited.
    Sure,
}

/// How long the slowest answer of late took.
#[derive(Clone, Copy)]
pub struct Pace {
    /// So many milliseconds.
    pub slowest: u64,
    /// How much that is worth.
    pub trust: Trust,
}

impl Pace {
    /// Nothing is known.
    pub fn new() -> Pace
        ensures { result ≡ table.new_pace }
    {
        Pace {
            slowest: 0,
            trust: Trust::Unknown,
        }
    }

    /// When an answer is overdue: behind the slowest of late, half of it, and a margin.
    pub fn bound(self) -> u64
        ensures { result ≡ table.bound self }
    {
        self.slowest
            .saturating_add(self.slowest / 2)
            .saturating_add(MARGIN)
    }

    /// Takes an answer that came while several were awaited.
    pub fn doubtful(self, took: u64) -> Pace
        ensures { result ≡ table.doubtful took self }
    {
        match self.trust {
            Trust::Sure if took <= self.slowest => self,
            _ => Pace {
                slowest: took,
                trust: Trust::Doubtful,
            },
        }
    }

    /// Takes an answer that came while one was awaited.
    pub fn sure(self, took: u64) -> Pace
        ensures { result ≡ table.sure took self }
    {
        match self.trust {
            Trust::Sure if took < self.slowest => Pace {
                slowest: self.slowest - (self.slowest - took) / 4,
                trust: Trust::Sure,
            },
            _ => Pace {
                slowest: took,
                trust: Trust::Sure,
            },
        }
    }

    /// Takes an answer that came while several were awaited, where no other came behind it: that of
    /// the last write, or that of the first, where the peer never saw the others.
    pub fn last_sample(self, took: u64) -> Pace
        ensures { result ≡ table.last_sample took self }
    {
        match self.trust {
            Trust::Doubtful if took < self.slowest => Pace {
                slowest: self.slowest - (self.slowest - took) / 4,
                trust: Trust::Doubtful,
            },
            _ => self.sure(took),
        }
    }

    /// The same as `sure` in place.
    #[inline(always)]
    pub(crate) fn led(&mut self, took: u64)
        ensures { self.new ≡ table.sure took self.old }
    {
        match self.trust {
            Trust::Sure if took < self.slowest => {
                self.slowest -= (self.slowest - took) / 4;
            }
            _ => {
                self.slowest = took;
                self.trust = Trust::Sure;
            }
        }
    }

    /// How long a reply is waited for, or a frame: as long as at first, and longer where answers
    /// take longer.
    pub fn wait(self, role: Role) -> u64
        ensures { result ≡ table.wait role self }
    {
        let first = match role {
            Role::Sender => FIRST_REPLY,
            Role::Receiver => FIRST_FRAME,
        };
        match self.trust {
            Trust::Unknown => first,
            _ => self.bound().max(first).min(LONGEST),
        }
    }

    /// How long more of a delivery is waited for. A sender that knows its line waits no longer
    /// than until an answer is overdue: so it asks again while its peer still listens.
    pub fn within(self, role: Role) -> u64
        ensures { result ≡ table.within role self }
    {
        match (role, self.trust) {
            (Role::Sender, Trust::Sure) => self.bound().min(WITHIN),
            _ => WITHIN,
        }
    }
}
