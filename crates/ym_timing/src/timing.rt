//! The machine: what an end and its line have said of late, and when.

ghost use Rattle.std.specs.Prelude.{◌≡◌, ◌≤◌, drop, length};
ghost use Rattle.ym_timing.specs.ByteRows.{heard_of, after_bytes};
ghost use Rattle.ym_timing.specs.Arrivals.{take_bytes};
ghost use Rattle.ym_timing.specs.Timing as table;
ghost use Rattle.ym_timing.specs.declared.role.Role.{Role};

use crate::arrivals::Arrivals;
use crate::out::Out;
use crate::pace::Pace;
use crate::role::Role;
use ym_heard::{ACK, Ear, Hold, Kind, NAK, PATIENCE, Said, Say, Sent, WITHIN};

/// The frame that a receiver heard last.
#[derive(Clone, Copy)]
pub struct Prefix {
    /// Whether it heard any.
    pub is_there: bool,
    /// Its first byte.
    pub first: u8,
    /// Its second byte.
    pub second: u8,
}

/// For what a read waits.
#[derive(Clone, Copy)]
pub enum Expected {
    /// For the first bytes of a delivery.
    Reply,
    /// For more of it.
    Within,
}

/// What a read that waited in vain comes to.
#[derive(Clone, Copy)]
pub enum Vain {
    /// It waits on.
    Again,
    /// An ACK that came before is heard.
    Ack,
    /// Nothing came.
    Quiet,
}

/// What an end and its line have said of late, and when.
#[derive(Clone, Copy)]
pub struct Timing {
    /// Which end it is.
    pub role: Role,
    /// How long answers take.
    pub pace: Pace,
    /// The writes whose answers may be under way.
    pub out: Out,
    /// What was written last.
    pub sent: Sent,
    /// When the last of that was heard which the last write answers.
    pub led_at: u64,
    /// What was heard since.
    pub heard: Arrivals,
    /// What of that which comes is no reply.
    pub ear: Ear,
    /// What is held back of a reply.
    pub hold: Hold,
    /// How many bytes of the last reply came back to a receiver.
    pub echoed: usize,
    /// The frame that a receiver heard last.
    pub prefix: Prefix,
    /// Behind how many data blocks more that are answered the line is calm again: a frame was
    /// written again, or the line had to clear while more than one answer was owed.
    pub shaken: u8,
    /// Whether the EOT that was written last was refused before.
    pub is_refused: bool,
    /// How often in a row a line was let clear and nothing came.
    pub vain: u8,
    /// Whether CAN CAN came while it was.
    pub has_cancel: bool,
}

impl Timing {
    /// An end that said and heard nothing.
    pub fn new(role: Role) -> Timing
        ensures { result ≡ table.new_timing role }
    {
        Timing {
            role,
            pace: Pace::new(),
            out: Out::new(),
            sent: Sent::nothing(),
            led_at: 0,
            heard: Arrivals::new(),
            ear: Ear::new(),
            hold: Hold::new(),
            echoed: 0,
            prefix: Prefix {
                is_there: false,
                first: 0,
                second: 0,
            },
            shaken: 0,
            is_refused: false,
            vain: 0,
            has_cancel: false,
        }
    }

    /// How long behind its start the part of a sender's wait for a reply is over that it is in. A
    /// part that is over has taken its time, whatever a clock says. So an end knows how late an
    /// answer came but for one part, also where its clock stands still or jumps back.
    fn part(&self) -> u64
        ensures { result ≡ table.part self.now }
    {
        (u64::from(self.heard.waits) + 1) * PATIENCE
    }

    /// Whether a sender's wait for a reply is in a part that is not the last one.
    fn is_early(&self, wait: Expected) -> bool
        ensures { result ≡ table.is_early wait self.now }
    {
        match (wait, self.role) {
            (Expected::Reply, Role::Sender) => self.part() < self.pace.wait(self.role),
            _ => false,
        }
    }

    /// Until when a read waits that began then.
    pub fn until(&self, wait: Expected, start: u64) -> u64
        ensures { result ≡ table.until wait start self.now }
    {
        let end = match wait {
            Expected::Within => start.saturating_add(self.pace.within(self.role)),
            Expected::Reply if self.is_early(wait) => start.saturating_add(self.part()),
            Expected::Reply => start.saturating_add(self.pace.wait(self.role)),
        };
        if !self.hold.is_held {
            return end;
        }
        match self.sent.kind {
            Kind::End | Kind::Data => self.hold.at.saturating_add(self.hold.moment()),
            _ => end.max(self.hold.at.saturating_add(WITHIN)),
        }
    }

    /// Takes that a read waited until then, and nothing came.
    pub fn expired(&mut self, wait: Expected, now: u64) -> Vain
        ensures new { self.new ≡ table.after_vain wait now self.old }
        ensures role { self.new.role ≡ self.old.role }
        ensures vain { result ≡ table.vain_of wait self.old }
    {
        match self.sent.kind {
            Kind::End | Kind::Data if self.hold.is_held => {
                self.hold = self.hold.released();
                self.heard = self.heard.take_reply(ACK, now);
                Vain::Ack
            }
            _ if self.is_early(wait) => {
                self.heard = self.heard.wait(false);
                Vain::Again
            }
            _ => {
                self.hold = self.hold.released();
                self.heard = self.heard.wait(true);
                Vain::Quiet
            }
        }
    }

    /// Whether this byte asks for the data behind a block 0 that was written again, and was
    /// acknowledged. `rb` of lrzsz says no C for a block 0 that comes twice, and then NAK. Where it
    /// was written once, NAK behind its ACK is of a receiver of XMODEM.
    #[inline]
    fn is_start(&self, byte: u8) -> bool
        ensures { result ≡ table.is_start byte self.now }
    {
        byte == NAK && 0 < self.heard.answers && 1 < self.out.copies && self.sent.kind.opens()
    }

    /// What of a byte that its ear heard a sender says.
    #[inline]
    fn controlled(&self, byte: u8, now: u64) -> Said
        ensures { result ≡ table.controlled byte now self.now }
    {
        if self.is_start(byte) {
            return Said {
                hold: self.hold,
                say: Say::Start,
            };
        }
        let is_first = self.heard.count == 0;
        self.hold.control(self.sent.kind, byte, is_first, now)
    }

    /// Takes a byte that came to a sender behind this frame.
    #[inline(always)]
    fn reply_byte(&mut self, byte: u8, frame: &[u8], now: u64) -> Say
        ensures new { self.new ≡ table.after_reply byte frame.now now self.old }
        ensures role { self.new.role ≡ self.old.role }
        ensures say { result ≡ table.reply_said byte frame.now now self.old }
    {
        let listened = self.ear.listen(byte, frame, now);
        self.ear = listened.ear;
        if !listened.is_heard {
            return Say::Nothing;
        }
        let said = self.controlled(byte, now);
        self.hold = said.hold;
        match said.say {
            Say::Nothing => {}
            Say::Byte | Say::AckAndByte | Say::Start => {
                self.heard = self.heard.take_reply(byte, now);
            }
        }
        said.say
    }

    /// Whether this byte, which came to a receiver, is one of its reply that comes back; it is
    /// counted then.
    #[inline]
    fn echo(&mut self, byte: u8, reply: &[u8]) -> bool
        ensures new { self.new ≡ table.after_echo byte reply.now self.old }
        ensures result { result ≡ table.is_echo byte reply.now self.old }
    {
        if self.heard.count == 0 && self.echoed < reply.len() && reply[self.echoed] == byte {
            self.echoed += 1;
            return true;
        }
        false
    }

    /// Takes bytes that are no reply that comes back.
    #[inline]
    fn take_all(&mut self, bytes: &[u8], now: u64)
        ensures { self.new ≡ record self.old { heard = take_bytes bytes.now now self.old.heard } }
    {
        self.heard = self.heard.take_all(bytes, now);
    }

    /// Takes a byte that came to a receiver behind this reply: what comes back of the reply
    /// itself, at the front, is no frame.
    fn frame_byte(&mut self, byte: u8, reply: &[u8], now: u64) -> Say
        ensures new { self.new ≡ table.after_frame byte reply.now now self.old }
        ensures role { self.new.role ≡ self.old.role }
        ensures say { result ≡ table.frame_said byte reply.now self.old }
    {
        if self.echo(byte, reply) {
            return Say::Nothing;
        }
        self.heard = self.heard.take(byte, now);
        Say::Byte
    }

    /// Takes all the bytes that came to a receiver at one moment, as one after another, and says
    /// how many at their front are no frame: the others are heard.
    #[inline]
    pub fn frame_bytes(&mut self, bytes: &[u8], reply: &[u8], now: u64) -> usize
        requires { self.old.role ≡ Role.Receiver }
        ensures new { self.new ≡ after_bytes bytes.now reply.now now self.old }
        ensures role { self.new.role ≡ self.old.role }
        ensures within { result ≤ length bytes.now }
        ensures heard { heard_of bytes.now reply.now now self.old ≡ drop result bytes.now }
    {
        for (place, byte) in bytes.iter().enumerate() {
            if !self.echo(*byte, reply) {
                self.take_all(&bytes[place..], now);
                return place;
            }
        }
        bytes.len()
    }

    /// Takes a byte that came, where this was written last, and says what of it is to be heard.
    #[inline(always)]
    pub fn byte(&mut self, byte: u8, written: &[u8], now: u64) -> Say
        ensures new { self.new ≡ table.after_byte byte written.now now self.old }
        ensures role { self.new.role ≡ self.old.role }
        ensures say { result ≡ table.said byte written.now now self.old }
    {
        match self.role {
            Role::Sender => self.reply_byte(byte, written, now),
            Role::Receiver => self.frame_byte(byte, written, now),
        }
    }
}
