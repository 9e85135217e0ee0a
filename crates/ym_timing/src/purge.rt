//! When a line has to clear before a write, and when it is clear.

ghost use Rattle.std.specs.Prelude.{◌≡◌, false};
ghost use Rattle.ym_timing.specs.Clears as table;

use crate::out::Owed;
use crate::pace::Trust;
use crate::role::Role;
use crate::timing::Timing;
use ym_heard::{
    ACK, APART, CAN, FAR, HALVINGS, HELD_UP, Kind, LONGEST, MOMENT, RECEIVER_QUIET, SENDER_QUIET,
    Sent,
};

/// Why a line has to clear.
#[derive(Clone, Copy)]
pub enum Need {
    /// It has not.
    Nothing,
    /// Noise, or what came while the end itself was held up, may be on it; or a copy is put off.
    Quiet,
    /// What was stuck in it may be on it.
    Late,
    /// The answers to several writes may be on it.
    Several,
}

/// How much of CAN CAN was dropped.
#[derive(Clone, Copy)]
pub enum Heed {
    /// No byte came.
    Open,
    /// CAN came last, where CAN CAN may stand.
    Can,
    /// ACK came last to a sender.
    Ack,
    /// Other bytes came.
    Other,
}

/// How far a line is clear.
#[derive(Clone, Copy)]
pub struct Purge {
    /// Why it has to.
    pub need: Need,
    /// Since when nothing came that counts.
    pub from: u64,
    /// How many answers may come yet.
    pub owed: u8,
    /// When the last one came.
    pub answered_at: u64,
    /// When it has cleared in any case.
    pub end_at: u64,
    /// Whether anything came.
    pub has_brought: bool,
    /// How much of CAN CAN came.
    pub heed: Heed,
}

/// Half of it so many times.
fn halved(quiet: u64, times: u8) -> u64
    ensures { result ≡ table.halved quiet times }
{
    match times {
        0 => quiet,
        1 => quiet / 2,
        2 => quiet / 4,
        3 => quiet / 8,
        _ => quiet / 16,
    }
}

/// How long a line is quiet before it is clear.
fn quiet_of(role: Role) -> u64
    ensures { result ≡ table.quiet_of role }
{
    match role {
        Role::Sender => SENDER_QUIET,
        Role::Receiver => RECEIVER_QUIET,
    }
}

impl Heed {
    /// After one more byte: to a sender CAN CAN is that wherever it stands, and a receiver knows
    /// it at the front alone.
    fn after(self, role: Role, byte: u8) -> Heed
        ensures { result ≡ table.heeds role byte self }
    {
        match (self, role) {
            (Heed::Open, _) | (Heed::Ack | Heed::Other, Role::Sender) if byte == CAN => Heed::Can,
            (_, Role::Sender) if byte == ACK => Heed::Ack,
            _ => Heed::Other,
        }
    }

    /// Whether the byte before was no ACK.
    fn is_apart(self) -> bool
        ensures { result ≡ table.is_apart self }
    {
        match self {
            Heed::Ack => false,
            _ => true,
        }
    }

    /// Whether one more byte makes it CAN CAN.
    fn ends(self, byte: u8) -> bool
        ensures { result ≡ table.ends byte self }
    {
        match self {
            Heed::Can => byte == CAN,
            Heed::Open | Heed::Ack | Heed::Other => false,
        }
    }
}

impl Timing {
    /// Whether what was heard was waited for, as the next write shows: for a sender another frame,
    /// for a receiver any one.
    pub(crate) fn is_taken(&self, next: Sent) -> bool
        ensures { result ≡ table.is_taken next self.now }
    {
        let is_any = 0 < self.heard.count;
        match self.role {
            Role::Sender => is_any && !self.sent.is(next),
            Role::Receiver => is_any && !self.heard.is_noise() && !self.heard.is_quiet,
        }
    }

    /// Whether this end was itself held up since it heard what it answers now.
    fn was_held_up(&self, now: u64) -> bool
        ensures { result ≡ table.was_held_up now self.now }
    {
        let is_late = self.heard.last.saturating_add(HELD_UP) <= now;
        0 < self.heard.count && !self.heard.is_quiet && is_late
    }

    /// Whether what was heard is another frame than the one before.
    pub(crate) fn is_new_frame(&self) -> bool
        ensures { result ≡ table.is_new_frame self.now }
    {
        let prefix = self.prefix;
        !(prefix.is_there && prefix.first == self.heard.first && prefix.second == self.heard.second)
    }

    /// Whether a frame came to a receiver once more, so soon behind its last write that it answers
    /// no more than the one before that: both were on their way at once.
    fn has_crossed(&self) -> bool
        ensures { result ≡ table.has_crossed self.now }
    {
        let slowest = self.pace.slowest;
        let soon = self.out.last_at.saturating_add(slowest / 2);
        match (self.role, self.pace.trust) {
            (Role::Receiver, Trust::Sure) if FAR <= slowest => {
                !self.is_new_frame() && self.heard.since < soon
            }
            _ => false,
        }
    }

    /// Whether a copy that was asked for is put off, so that not each one comes as long behind an
    /// ask: a peer that asks again and again may drop what comes just then. Whoever has
    /// acknowledged the end block may be gone, and its ACK comes once.
    #[inline(never)] // inlined it takes three times as much on a small board
    fn is_put_off(&self) -> bool
        ensures { result ≡ table.is_put_off self.now }
    {
        let is_third = match self.out.copies {
            3 | 6 | 9 => self.heard.is_late,
            _ => false,
        };
        match (self.role, self.out.owed, self.sent.kind) {
            (_, _, Kind::End) => false,
            (Role::Sender, Owed::Several, _) => is_third && FAR <= self.pace.slowest,
            _ => false,
        }
    }

    /// Why the line has to clear before this.
    fn need(&self, next: Sent, now: u64) -> Need
        ensures { result ≡ table.need_of next now self.now }
    {
        let is_taken = self.is_taken(next);
        let is_unsure = self.heard.is_noise() || self.was_held_up(now) || self.is_put_off();
        match self.out.owed {
            Owed::Several if is_taken && !self.has_crossed() => Need::Several,
            _ if is_unsure => Need::Quiet,
            Owed::Late if is_taken => Need::Late,
            _ => Need::Nothing,
        }
    }

    /// Since when it counts: where answers may come yet, since the last one; the asks of a sender's
    /// peer behind it lengthen nothing.
    fn counted_from(&self, need: Need) -> u64
        ensures { result ≡ table.counted_from need self.now }
    {
        match (self.role, need) {
            (Role::Sender, Need::Late | Need::Several) => self.heard.answered_at,
            _ => self.heard.last,
        }
    }

    /// The start: why the line has to clear before these bytes are written, if it has to.
    #[inline(always)]
    pub fn purge(&self, bytes: &[u8], now: u64) -> Purge
        ensures { result ≡ table.purge bytes.now now self.now }
    {
        let need = self.need(self.sent.named(bytes), now);
        Purge {
            need,
            from: if self.was_held_up(now) {
                now
            } else {
                self.counted_from(need)
            },
            owed: self.out.copies.saturating_sub(self.heard.answers.max(1)),
            answered_at: self.heard.last,
            end_at: now.saturating_add(LONGEST),
            has_brought: 1 < self.heard.answers,
            heed: if self.heard.is_ack {
                Heed::Ack
            } else {
                Heed::Open
            },
        }
    }

    /// How much later an EOT may be answered than a block: a peer that never refused one stores the
    /// file first. `rb` takes a second.
    fn stores_for(&self) -> u64
        ensures { result ≡ table.stores_for self.now }
    {
        match (self.role, self.sent.kind) {
            (Role::Sender, Kind::Eot) if !self.is_refused => SENDER_QUIET,
            _ => 0,
        }
    }

    /// So many times as far apart as the writes, and a jitter.
    fn apart_until(&self, many: u8, from: u64) -> u64
        ensures { result ≡ table.apart_until many from self.now }
    {
        let gaps = self.out.gap.saturating_mul(u64::from(many));
        from.saturating_add(gaps).saturating_add(APART)
    }

    /// When several answers have come, of so many: no later than they may, or no farther apart
    /// than the writes. A peer may have dropped copies between two that it answers.
    fn several_until(&self, many: u8, from: u64) -> u64
        ensures { result ≡ table.several_until many from self.now }
    {
        let apart = self.apart_until(many, from);
        let late = match self.pace.trust {
            Trust::Unknown => self.apart_until(1, from),
            Trust::Doubtful | Trust::Sure => {
                let overdue_at = self.out.last_at.saturating_add(self.pace.bound());
                overdue_at.saturating_add(self.stores_for())
            }
        };
        from.saturating_add(quiet_of(self.role))
            .max(apart.min(late))
    }

    /// When what was stuck has come: soon behind the first of it. The time is halved where it was
    /// in vain, so that it does not meet a peer's own wait again and again.
    fn late_until(&self, from: u64) -> u64
        ensures { result ≡ table.late_until from self.now }
    {
        let soon = self.pace.slowest.saturating_add(2 * MOMENT);
        let quiet = halved(soon.min(quiet_of(self.role)), self.vain);
        from.saturating_add(quiet.max(MOMENT))
    }

    /// Whether the last answer has come whole, as far as this can be told: a data block's is ACK
    /// alone, and behind block 0's ACK comes C.
    fn is_whole(&self, heed: Heed) -> bool
        ensures { result ≡ table.is_whole heed self.now }
    {
        match (self.role, self.sent.kind) {
            (Role::Sender, Kind::Data) => true,
            (Role::Sender, Kind::Opening | Kind::Empty) => heed.is_apart(),
            _ => false,
        }
    }

    /// Whether each copy of a block was answered.
    fn is_answered(&self, purge: Purge) -> bool
        ensures { result ≡ table.is_answered purge self.now }
    {
        self.is_whole(purge.heed) && purge.owed == 0
    }

    /// Until when what comes is dropped; 0 where nothing is to be.
    pub fn clear_at(&self, purge: Purge) -> u64
        ensures { result ≡ table.clear_at purge self.now }
    {
        let until = match purge.need {
            _ if self.has_cancel => 0,
            Need::Nothing => 0,
            Need::Quiet => purge.from.saturating_add(quiet_of(self.role)),
            Need::Late => self.late_until(purge.from),
            Need::Several if self.is_answered(purge) => 0,
            Need::Several => self.several_until(purge.owed.max(1), purge.from),
        };
        until.min(purge.end_at)
    }
}

impl Purge {
    /// A byte came that counts, or that does not. An ACK answers one copy more where it came later
    /// than the one before, or not right behind it: else a line may have doubled that one.
    fn brings(self, counts: bool, answers: bool, now: u64) -> Purge
        ensures { result ≡ table.brings counts answers now self }
    {
        let is_next = answers && (self.answered_at < now || self.heed.is_apart());
        Purge {
            need: self.need,
            from: if counts { now } else { self.from },
            owed: if is_next {
                self.owed.saturating_sub(1)
            } else {
                self.owed
            },
            answered_at: if answers { now } else { self.answered_at },
            end_at: self.end_at,
            has_brought: true,
            heed: self.heed,
        }
    }

    /// Takes a byte that its end heeds.
    fn heeds(self, role: Role, byte: u8) -> Purge
        ensures { result ≡ table.heeds_in role byte self }
    {
        Purge {
            need: self.need,
            from: self.from,
            owed: self.owed,
            answered_at: self.answered_at,
            end_at: self.end_at,
            has_brought: self.has_brought,
            heed: self.heed.after(role, byte),
        }
    }

    /// Whether each byte counts: where noise is let pass, and at a receiver.
    fn counts_all(self, role: Role) -> bool
        ensures { result ≡ table.counts_all role self.need }
    {
        match (role, self.need) {
            (Role::Receiver, _) | (_, Need::Quiet) => true,
            _ => false,
        }
    }
}

impl Timing {
    /// Takes a byte that is dropped while the line clears, where this was written last.
    pub fn dropped(&mut self, purge: Purge, byte: u8, written: &[u8], now: u64) -> Purge
        ensures new { self.new ≡ table.after_dropped purge byte written.now now self.old }
        ensures purge { result ≡ table.dropped purge byte written.now now self.old }
    {
        let is_heard = match self.role {
            Role::Sender => {
                let listened = self.ear.listen(byte, written, now);
                self.ear = listened.ear;
                listened.is_heard
            }
            Role::Receiver => true,
        };
        let is_answer = is_heard && byte == ACK;
        let counts = is_answer || purge.counts_all(self.role);
        let brought = purge.brings(counts, is_answer, now);
        if !is_heard {
            return brought;
        }
        self.has_cancel = self.has_cancel || purge.heed.ends(byte);
        brought.heeds(self.role, byte)
    }

    /// Whether CAN CAN, which came while the line cleared, is to be heard now; it is so once.
    pub fn hears_cancel(&mut self) -> bool
        ensures new { self.new ≡ record self.old { has_cancel = false } }
        ensures result { result ≡ self.old.has_cancel }
    {
        let was = self.has_cancel;
        self.has_cancel = false;
        was
    }
}

/// How often in a row a line was let clear in vain, after one more time.
pub(crate) fn vain_after(vain: u8, purge: Purge) -> u8
    ensures { result ≡ table.vain_after vain purge }
{
    match purge.need {
        Need::Nothing | Need::Quiet => vain,
        Need::Late | Need::Several if purge.has_brought => 0,
        Need::Late | Need::Several => { if vain < HALVINGS { vain + 1 } else { HALVINGS } }
    }
}
