//! What a write makes of the machine: whose answers may be under way from then on, and what was
//! learned of the line.

ghost use Rattle.std.specs.Prelude.{◌≡◌};
ghost use Rattle.ym_timing.specs.Out.{is_one};
ghost use Rattle.ym_timing.specs.Writing as table;

use crate::arrivals::Arrivals;
use crate::out::{Out, Owed};
use crate::pace::{Pace, Trust};
use crate::purge::{Need, Purge, vain_after};
use crate::role::Role;
use crate::timing::{Prefix, Timing};
use ym_heard::{FRAGMENT, Kind, LIKELY, NAK, PATIENCE, SENDER_QUIET, SHAKEN, SOON, Sent, UNASKED};

/// Whether it was let clear because answers were awaited, and nothing came.
fn was_vain(purge: Purge) -> bool
    ensures { result ≡ table.was_vain purge }
{
    match purge.need {
        Need::Nothing | Need::Quiet => false,
        Need::Late | Need::Several => !purge.has_brought,
    }
}

/// Whether the line had to clear.
fn has_cleared(purge: Purge) -> bool
    ensures { result ≡ table.has_cleared purge }
{
    match purge.need {
        Need::Nothing => false,
        Need::Quiet | Need::Late | Need::Several => true,
    }
}

impl Timing {
    /// Whether the answer led on, so that its time says how long answers take.
    fn leads_on(&self, is_taken: bool) -> bool
        ensures { result ≡ table.leads_on is_taken self.now }
    {
        let is_other = match self.role {
            Role::Sender => true,
            Role::Receiver => self.is_new_frame(),
        };
        let is_out = match self.out.owed {
            Owed::Nothing => false,
            Owed::One | Owed::Late | Owed::Likely | Owed::Several => true,
        };
        is_taken && is_other && is_out
    }

    /// How long the answer to what was written then took. Where a sender's clock told no more than
    /// the first part of its wait, and the answer came behind that, it stands still: then it may
    /// have taken the whole wait.
    fn took(&self, written_at: u64) -> u64
        ensures { result ≡ table.took written_at self.now }
    {
        let took = self.heard.since.saturating_sub(written_at);
        let is_still = self.heard.is_late && took <= PATIENCE;
        match self.role {
            Role::Sender if is_still => self.pace.wait(self.role),
            _ => took,
        }
    }

    /// Whether an answer says more of the peer than of the line. Behind an EOT a file is stored:
    /// `rb` waits a second before its ACK, and another one before its C.
    fn has_stored(&self) -> bool
        ensures { result ≡ table.has_stored self.now }
    {
        let acked = self.hold.at.saturating_sub(self.out.first_at);
        match (self.role, self.sent.kind, self.pace.trust) {
            (Role::Sender, Kind::Eot, Trust::Sure) => {
                !self.heard.is_late && acked <= SENDER_QUIET
            }
            _ => false,
        }
    }

    /// Whether a sender let the line clear because answers were awaited, and none came: then the
    /// answer was that of the last write.
    fn was_the_last(&self, purge: Purge) -> bool
        ensures { result ≡ table.was_the_last purge self.now }
    {
        match self.role {
            Role::Sender => was_vain(purge),
            Role::Receiver => false,
        }
    }

    /// What an answer that took so long says of how long answers take.
    fn pace_of(&self, is_last: bool, took: u64) -> Pace
        ensures { result ≡ table.pace_of is_last took self.now }
    {
        match self.out.owed {
            _ if is_last => self.pace.last_sample(took),
            Owed::Likely | Owed::Several => self.pace.doubtful(took),
            _ if self.has_stored() => self.pace,
            _ => self.pace.sure(took),
        }
    }

    /// What an answer says of how long answers take.
    #[inline(always)]
    fn pace_after(&self, purge: Purge) -> Pace
        ensures { result ≡ table.pace_after purge self.now }
    {
        let is_last = self.was_the_last(purge);
        let written_at = if is_last {
            self.out.last_at
        } else {
            self.out.first_at
        };
        self.pace_of(is_last, self.took(written_at))
    }

    /// How soon behind a reply a peer's ask answers the write before.
    fn soon(&self) -> u64
        ensures { result ≡ table.soon self.now }
    {
        match self.pace.trust {
            Trust::Unknown => SOON,
            Trust::Doubtful | Trust::Sure => UNASKED.saturating_sub(self.pace.slowest).max(SOON),
        }
    }

    /// Whether the peer asked so soon behind its reply before.
    fn asked_within(&self, long: u64) -> bool
        ensures { result ≡ table.asked_within long self.now }
    {
        let took = self.heard.since.saturating_sub(self.led_at);
        0 < self.heard.count && self.heard.waits == 0 && took <= long
    }

    /// Whether it is block 0 of a file without bytes, and nothing is known of the line. An end that
    /// started late may hear asks that were unasked as if they were new. Nothing else would show
    /// that the answer to a copy was taken for that of the EOT.
    fn is_unproven(&self) -> bool
        ensures { result ≡ table.is_unproven self.now }
    {
        match (self.pace.trust, self.sent.kind) {
            (Trust::Unknown, Kind::Empty) => true,
            _ => false,
        }
    }

    /// Whether what was heard answers the write before, which is written again: a peer's ask that
    /// came too soon to be unasked, or to a receiver a damaged frame.
    fn is_prompted(&self) -> bool
        ensures { result ≡ table.is_prompted self.now }
    {
        match (self.role, self.out.owed) {
            (Role::Receiver, _) => self.prefix.is_there && FRAGMENT <= self.heard.count,
            (Role::Sender, Owed::One) | (Role::Sender, Owed::Late) => {
                !self.is_unproven() && self.asked_within(self.soon())
            }
            (Role::Sender, _) => false,
        }
    }

    /// Whether the peer asked when the answer to the write before was overdue.
    fn is_late(&self) -> bool
        ensures { result ≡ table.is_late self.now }
    {
        let overdue_at = self.out.last_at.saturating_add(self.pace.bound());
        match (self.role, self.out.owed, self.pace.trust) {
            (Role::Sender, Owed::One, Trust::Sure) | (Role::Sender, Owed::Late, Trust::Sure) => {
                0 < self.heard.count && overdue_at <= self.heard.since
            }
            _ => false,
        }
    }

    /// Whether block 0, written when nothing was known of the line, most likely was damaged.
    fn is_likely(&self) -> bool
        ensures { result ≡ table.is_likely self.now }
    {
        match (self.out.owed, self.pace.trust) {
            (Owed::One, Trust::Unknown) => self.sent.kind.opens() && self.asked_within(LIKELY),
            _ => false,
        }
    }

    /// Whose answers may be under way behind a write.
    #[inline(always)]
    fn out_after(&self, is_taken: bool, now: u64) -> Out
        ensures { result ≡ table.out_after is_taken now self.now }
    {
        match self.out.owed {
            Owed::Nothing => Out::one(now),
            _ if is_taken || self.is_prompted() => Out::one(now),
            _ if self.is_late() => Out::late(now),
            _ => self.out.again(self.is_likely(), now),
        }
    }

    /// Whether one answer is owed.
    #[inline(always)]
    pub(crate) fn is_one_owed(&self) -> bool
        ensures { result ≡ is_one self.now.out.owed }
    {
        match self.out.owed {
            Owed::One => true,
            _ => false,
        }
    }

    /// The frame that a receiver heard last.
    fn prefix_after(&self, is_taken: bool) -> Prefix
        ensures { result ≡ table.prefix_after is_taken self.now }
    {
        match self.role {
            Role::Receiver if is_taken => Prefix {
                is_there: true,
                first: self.heard.first,
                second: self.heard.second,
            },
            _ => self.prefix,
        }
    }

    /// Whether the peer refused what was written last.
    fn is_nak(&self) -> bool
        ensures { result ≡ table.is_nak self.now }
    {
        self.heard.first == NAK
    }

    /// Whether an EOT is refused for the first time, as a receiver does that confirms it twice.
    fn is_first_refusal(&self) -> bool
        ensures { result ≡ table.is_first_refusal self.now }
    {
        match self.sent.kind {
            Kind::Eot => self.is_nak() && !self.is_refused,
            _ => false,
        }
    }

    /// Whether the EOT that is written now was refused before.
    fn is_refused_after(&self, is_repeat: bool) -> bool
        ensures { result ≡ table.is_refused_after is_repeat self.now }
    {
        match (self.role, self.sent.kind) {
            (Role::Sender, Kind::Eot) => is_repeat && (self.is_refused || self.is_nak()),
            _ => self.is_refused,
        }
    }

    /// How shaken the line is behind what a sender writes again.
    fn shaken_by_copy(&self) -> u8
        ensures { result ≡ table.shaken_by_copy self.now }
    {
        match self.role {
            Role::Sender if !self.is_first_refusal() => SHAKEN,
            _ => self.shaken,
        }
    }

    /// How shaken it is behind an answer that led on: one step less behind a data block.
    fn shaken_behind(&self, purge: Purge) -> u8
        ensures { result ≡ table.shaken_behind purge self.now }
    {
        let left = match self.sent.kind {
            Kind::Data => self.shaken.saturating_sub(1),
            _ => self.shaken,
        };
        if has_cleared(purge) && !self.is_one_owed() {
            left.max(1)
        } else {
            left
        }
    }

    /// How shaken the line is behind a write.
    fn shaken_after(&self, is_repeat: bool, purge: Purge) -> u8
        ensures { result ≡ table.shaken_after is_repeat purge self.now }
    {
        if is_repeat {
            self.shaken_by_copy()
        } else {
            self.shaken_behind(purge)
        }
    }

    /// Whether the first ACK of what is written now may be that of a copy of the frame before: of
    /// block 0, where it most likely was damaged or several copies may be answered, or, on a line
    /// that is shaken, of what stands before block 0 or the EOT of an empty file.
    fn is_doubted(&self, next: Sent, is_taken: bool, shaken: u8) -> bool
        ensures { result ≡ table.is_doubted next is_taken shaken self.now }
    {
        let is_empty_file = 0 < shaken && is_of_empty_file(self.sent, next);
        match self.out.owed {
            Owed::Likely => is_taken,
            Owed::Several => is_taken && is_first_block(self.sent, next) || is_empty_file,
            _ => is_empty_file,
        }
    }

    /// Takes that these bytes were written, behind this purge.
    #[inline(always)]
    pub fn wrote(&mut self, bytes: &[u8], purge: Purge, now: u64)
        ensures { self.new ≡ table.wrote bytes.now purge now self.old }
    {
        let next = self.sent.then(bytes);
        let is_repeat = self.sent.is(next);
        let is_taken = self.is_taken(next);
        let shaken = self.shaken_after(is_repeat, purge);
        let is_refused = self.is_refused_after(is_repeat);
        let is_doubted = self.is_doubted(next, is_taken, shaken);
        let pace = if self.leads_on(is_taken) {
            self.pace_after(purge)
        } else {
            self.pace
        };
        let prefix = self.prefix_after(is_taken);
        let hold = self.hold.wrote(next.kind, is_repeat, is_doubted, now);
        self.out = self.out_after(is_taken, now);
        self.pace = pace;
        self.sent = next;
        self.led_at = if 0 < self.heard.count {
            self.heard.last
        } else {
            now
        };
        self.heard = Arrivals::new();
        self.ear = self.ear.wrote();
        self.hold = hold;
        self.echoed = 0;
        self.prefix = prefix;
        self.shaken = shaken;
        self.is_refused = is_refused;
        self.vain = vain_after(self.vain, purge);
    }
}

/// Whether it is block 1 behind block 0.
fn is_first_block(last: Sent, next: Sent) -> bool
    ensures { result ≡ table.is_first_block last next }
{
    match (last.kind, next.kind) {
        (Kind::Opening | Kind::Empty, Kind::Data) => true,
        _ => false,
    }
}

/// Whether it is block 0 of a file that has no bytes, or the EOT behind one.
fn is_of_empty_file(last: Sent, next: Sent) -> bool
    ensures { result ≡ table.is_of_empty_file last next }
{
    match (last.kind, next.kind) {
        (_, Kind::Empty) | (Kind::Opening | Kind::Empty, Kind::Eot) => true,
        _ => false,
    }
}
