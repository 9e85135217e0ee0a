//! The writes whose answers may still be under way.

ghost use Rattle.std.specs.Prelude.{◌≡◌};
ghost use Rattle.ym_timing.specs.Out as table;

/// Of how many writes an answer may come.
#[derive(Clone, Copy)]
pub enum Owed {
    /// None was made.
    Nothing,
    /// The last one.
    One,
    /// The last one, which the peer asked for when the one before was overdue: only what was stuck
    /// in the line may come beside it.
    Late,
    /// The last one, and hardly the one before: a first block 0 that most likely was damaged.
    Likely,
    /// Each of several.
    Several,
}

/// The writes whose answers did not come.
#[derive(Clone, Copy)]
pub struct Out {
    /// Of how many an answer may come.
    pub owed: Owed,
    /// How many copies there are; 255 stands for more.
    pub copies: u8,
    /// When the first was written.
    pub first_at: u64,
    /// When the last was written.
    pub last_at: u64,
    /// The longest time between two of them.
    pub gap: u64,
}

impl Out {
    /// Nothing was written.
    pub fn new() -> Out
        ensures { result ≡ table.new_out }
    {
        Out {
            owed: Owed::Nothing,
            copies: 0,
            first_at: 0,
            last_at: 0,
            gap: 0,
        }
    }

    /// One write, and nothing else is awaited.
    pub fn one(now: u64) -> Out
        ensures { result ≡ table.one now }
    {
        Out {
            owed: Owed::One,
            copies: 1,
            first_at: now,
            last_at: now,
            gap: 0,
        }
    }

    /// The same written again, where the peer asked when the answer was overdue.
    pub fn late(now: u64) -> Out
        ensures { result ≡ table.late now }
    {
        Out {
            owed: Owed::Late,
            copies: 1,
            first_at: now,
            last_at: now,
            gap: 0,
        }
    }

    /// The same written again, where the answer may still come, or where the one before most likely
    /// was damaged.
    pub fn again(self, is_likely: bool, now: u64) -> Out
        ensures { result ≡ table.again is_likely now self }
    {
        Out {
            owed: if is_likely {
                Owed::Likely
            } else {
                Owed::Several
            },
            copies: self.copies.saturating_add(1),
            first_at: self.first_at,
            last_at: now,
            gap: self.gap.max(now.saturating_sub(self.last_at)),
        }
    }

    /// The same as `one` in place.
    #[inline(always)]
    pub(crate) fn led(&mut self, now: u64)
        ensures { self.new ≡ table.one now }
    {
        self.owed = Owed::One;
        self.copies = 1;
        self.first_at = now;
        self.last_at = now;
        self.gap = 0;
    }
}
