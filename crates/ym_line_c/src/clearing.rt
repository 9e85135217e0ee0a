//! How far a line is clear, as plain numbers.

ghost use Rattle.std.specs.Prelude.{◌≡◌};
ghost use Rattle.ym_line_c.specs.Line.{purge_of};

use crate::codes::{code_of_flag, code_of_heed, code_of_need, flag_of, heed_of, need_of};
use ym_timing::Purge;

/// How far a line is clear.
#[repr(C)]
pub struct YmClearing {
    /// Since when nothing came that counts.
    pub from: u64,
    /// When the last answer came.
    pub answered_at: u64,
    /// When it has cleared in any case.
    pub end_at: u64,
    /// 0: it has not to clear; 1: noise may be on it; 2: what was stuck; any other: several
    /// answers.
    pub need: u8,
    /// How many answers may come yet.
    pub owed: u8,
    /// Whether anything came.
    pub has_brought: u8,
    /// 0: no byte came; 1: CAN came last; 2: ACK did; any other: other bytes came.
    pub heed: u8,
}

impl YmClearing {
    /// What these numbers stand for.
    pub fn load(&self) -> Purge
        ensures { result ≡ purge_of self.now }
    {
        Purge {
            need: need_of(self.need),
            from: self.from,
            owed: self.owed,
            answered_at: self.answered_at,
            end_at: self.end_at,
            has_brought: flag_of(self.has_brought),
            heed: heed_of(self.heed),
        }
    }

    /// Keeps how far it is.
    pub fn keep(&mut self, purge: Purge)
        ensures { purge_of self.new ≡ purge }
    {
        self.from = purge.from;
        self.answered_at = purge.answered_at;
        self.end_at = purge.end_at;
        self.need = code_of_need(purge.need);
        self.owed = purge.owed;
        self.has_brought = code_of_flag(purge.has_brought);
        self.heed = code_of_heed(purge.heed);
    }
}
