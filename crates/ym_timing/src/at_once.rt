//! A write behind an answer on a clean line: nothing has to clear before it, and little changes.

ghost use Rattle.std.specs.Prelude.{◌≡◌, true, false, IsTrue, if◌then◌else◌};
ghost use Rattle.ym_timing.specs.AtOnce as table;
ghost use Rattle.ym_timing.specs.Clears as clears;
ghost use Rattle.ym_timing.specs.Writing.{wrote};
ghost use Rattle.ym_timing.specs.declared.purge.Need.{Need};

use crate::arrivals::Arrivals;
use crate::role::Role;
use crate::timing::Timing;
use ym_heard::{FULL, HELD_UP, Kind, Sent};

impl Timing {
    /// Whether one answer was awaited and came, and nothing else is on the line.
    #[inline(always)]
    fn is_answered_alone(&self, now: u64) -> bool
        ensures result { result ≡ table.is_answered now self.now }
        ensures answered { IsTrue result → table.IsAnswered now self.now }
    {
        let is_some = 0 < self.heard.count && self.heard.count < FULL;
        let is_soon = now < self.heard.last.saturating_add(HELD_UP);
        self.is_one_owed() && is_some && is_soon && self.shaken == 0
    }

    /// Whether a sender goes on to another block.
    #[inline(always)]
    fn follows(&self, next: Sent, now: u64) -> bool
        ensures result { result ≡ table.follows next now self.now }
        ensures follows { IsTrue result → table.Follows next now self.now }
    {
        match (self.role, self.sent.kind, next.kind) {
            (Role::Sender, Kind::Data, Kind::Data) => {
                self.is_answered_alone(now) && !self.sent.is(next) && !self.heard.is_late
            }
            _ => false,
        }
    }

    /// Whether a receiver writes the same reply to another frame.
    #[inline(always)]
    fn repeats(&self, next: Sent, now: u64) -> bool
        ensures result { result ≡ table.repeats next now self.now }
        ensures repeats { IsTrue result → table.Repeats next now self.now }
    {
        match (self.role, self.sent.kind, next.kind) {
            (Role::Receiver, Kind::Eot, Kind::Eot) => {
                let is_other = self.sent.is(next) && self.is_new_frame();
                self.is_answered_alone(now) && !self.heard.is_quiet && is_other
            }
            _ => false,
        }
    }

    /// Takes that it was written behind an answer that leads on.
    #[inline(always)]
    fn lead(&mut self, next: Sent, is_repeat: bool, now: u64)
        ensures { self.new ≡ table.led is_repeat next now self.old }
    {
        let took = self.heard.since.saturating_sub(self.out.first_at);
        self.pace.led(took);
        self.out.led(now);
        self.sent.length = next.length;
        self.sent.first = next.first;
        self.sent.second = next.second;
        self.sent.kind = next.kind;
        self.led_at = self.heard.last;
        self.heard = Arrivals::new();
        self.ear.led();
        self.hold.led(is_repeat, now);
        self.echoed = 0;
    }

    /// Where this is a write behind an answer on a clean line, before which nothing has to clear:
    /// takes that it was made. Where it says no, all is as it was, and the write goes the long way.
    #[inline(always)]
    pub fn wrote_at_once(&mut self, bytes: &[u8], now: u64) -> bool
        ensures result { result ≡ table.goes_at_once bytes.now now self.old }
        ensures clear { IsTrue result
            → (clears.purge bytes.now now self.old).need ≡ Need.Nothing }
        ensures new { self.new ≡ (if result
            then wrote bytes.now (clears.purge bytes.now now self.old) now self.old
            else self.old) }
    {
        let next = self.sent.then(bytes);
        if self.follows(next, now) {
            self.lead(next, false, now);
            return true;
        }
        if self.repeats(next, now) {
            self.prefix.is_there = true;
            self.prefix.first = self.heard.first;
            self.prefix.second = self.heard.second;
            self.lead(next, true, now);
            return true;
        }
        false
    }
}
