//! What an end heard since it wrote.

ghost use Rattle.std.specs.Prelude.{◌≡◌, ◌≤◌};
ghost use Rattle.ym_timing.specs.Arrivals as table;

use ym_heard::{ACK, FULL};

/// What was heard since the last write.
#[derive(Clone, Copy)]
pub struct Arrivals {
    /// How many bytes; [`FULL`] stands for more.
    ///
    /// [`FULL`]: ym_heard::FULL
    pub count: u64,
    /// When the first came.
    pub since: u64,
    /// When the last came.
    pub last: u64,
    /// When the last ACK came to a sender; before there is one, when the first byte did.
    pub answered_at: u64,
    /// The first byte.
    pub first: u8,
    /// The second byte.
    pub second: u8,
    /// How many ACK a sender heard that came not right behind another; 255 stands for more.
    pub answers: u8,
    /// Whether the last byte that a sender heard was ACK.
    pub is_ack: bool,
    /// Whether the last read found the line quiet.
    pub is_quiet: bool,
    /// How many reads waited in vain, or parts of one; 255 stands for more.
    pub waits: u8,
    /// Whether any did before the first byte came.
    pub is_late: bool,
}

impl Arrivals {
    /// Nothing was heard.
    pub fn new() -> Arrivals
        ensures { result ≡ table.new_arrivals }
    {
        Arrivals {
            count: 0,
            since: 0,
            last: 0,
            answered_at: 0,
            first: 0,
            second: 0,
            answers: 0,
            is_ack: false,
            is_quiet: false,
            waits: 0,
            is_late: false,
        }
    }

    /// One more byte.
    pub fn take(self, byte: u8, now: u64) -> Arrivals
        ensures { result ≡ table.take_byte byte now self }
    {
        Arrivals {
            count: if self.count < FULL {
                self.count + 1
            } else {
                FULL
            },
            since: if self.count == 0 { now } else { self.since },
            last: now,
            answered_at: self.answered_at,
            first: if self.count == 0 { byte } else { self.first },
            second: if self.count == 1 { byte } else { self.second },
            answers: self.answers,
            is_ack: self.is_ack,
            is_quiet: false,
            waits: self.waits,
            is_late: if self.count == 0 {
                0 < self.waits
            } else {
                self.is_late
            },
        }
    }

    /// One more byte of a reply.
    pub fn take_reply(self, byte: u8, now: u64) -> Arrivals
        ensures { result ≡ table.take_reply byte now self }
    {
        let heard = self.take(byte, now);
        let is_ack = byte == ACK;
        Arrivals {
            count: heard.count,
            since: heard.since,
            last: heard.last,
            answered_at: if self.count == 0 || is_ack {
                now
            } else {
                self.answered_at
            },
            first: heard.first,
            second: heard.second,
            answers: if is_ack && !self.is_ack {
                self.answers.saturating_add(1)
            } else {
                self.answers
            },
            is_ack,
            is_quiet: heard.is_quiet,
            waits: heard.waits,
            is_late: heard.is_late,
        }
    }

    /// More bytes behind the first two, which tell nothing but that they came.
    #[inline]
    fn take_more(self, bytes: &[u8], now: u64) -> Arrivals
        requires { 2 ≤ self.count }
        ensures { result ≡ table.take_bytes bytes.now now self }
    {
        if bytes.is_empty() {
            return self;
        }
        Arrivals {
            count: self.count.saturating_add(bytes.len() as u64).min(FULL),
            since: self.since,
            last: now,
            answered_at: self.answered_at,
            first: self.first,
            second: self.second,
            answers: self.answers,
            is_ack: self.is_ack,
            is_quiet: false,
            waits: self.waits,
            is_late: self.is_late,
        }
    }

    /// Bytes that came at one moment, as one after another.
    #[inline]
    pub fn take_all(self, bytes: &[u8], now: u64) -> Arrivals
        ensures { result ≡ table.take_bytes bytes.now now self }
    {
        if bytes.is_empty() {
            return self;
        }
        let one = self.take(bytes[0], now);
        if bytes.len() == 1 {
            return one;
        }
        one.take(bytes[1], now).take_more(&bytes[2..], now)
    }

    /// A read, or the first part of one, waited in vain.
    pub fn wait(self, is_quiet: bool) -> Arrivals
        ensures { result ≡ table.waited is_quiet self }
    {
        Arrivals {
            count: self.count,
            since: self.since,
            last: self.last,
            answered_at: self.answered_at,
            first: self.first,
            second: self.second,
            answers: self.answers,
            is_ack: self.is_ack,
            is_quiet,
            waits: self.waits.saturating_add(1),
            is_late: self.is_late,
        }
    }

    /// Whether it is the noise of a whole delivery, and more of it is under way.
    pub fn is_noise(self) -> bool
        ensures { result ≡ table.is_noise self }
    {
        FULL <= self.count && !self.is_quiet
    }
}
