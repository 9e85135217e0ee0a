//! What an end knows of its line.

ghost use Rattle.std.specs.Prelude.{true, IsTrue, if◌then◌else◌};
ghost use Rattle.std.specs.Prelude.{◌≡◌, ◌<◌, ◌≤◌, ◌*◌, ◌+◌, ◌-◌, ◌++◌, length, take, drop};
ghost use Rattle.ym_timing.specs.ByteRows.{bytes_of, heard_of};
ghost use Rattle.ym_timing.specs.Clears.{dropped};
ghost use Rattle.ym_timing.specs.Timing.{is_acked, said};
ghost use Rattle.ym_timing.specs.declared.role.Role.{Role};
ghost use Rattle.ym_port.specs.TimedPort.{cancel};
ghost use Rattle.ym_port.specs.declared.line.TheConstants.{PIECE};

use crate::written::Written;
use ym_heard::{Clock, Echo, Kind, START, Say, cancels};
use ym_timing::{Expected, Purge, Role, Timing, Vain};

/// The byte ACK.
pub const ACK: u8 = 0x06;

/// The byte CAN.
pub const CAN: u8 = 0x18;

/// How many bytes a sender reads at once: replies are short.
pub const PIECE: usize = 64;

/// By how many reads a wait is made up at most, and for how many a line is let clear. One that
/// never falls quiet may hand on each byte in a read of its own.
pub const MOST_READS: u32 = 65_536;

/// How many bytes are dropped at once.
pub const CLEAR_PIECE: usize = 256;

/// What an end knows of its line.
#[derive(Drop)]
pub struct Line {
    /// What was said and heard, and when.
    pub timing: Timing,
    /// The clock, which never runs backwards.
    pub clock: Clock,
    /// The frame that was written last.
    pub written: Written,
    /// Whether the line was closed while it was let clear.
    pub is_closed: bool,
    /// Whether what this end wrote came back to it.
    pub has_echo: bool,
}

impl Line {
    ghost use Rattle.ym_port.specs.TimedPort as table;

    /// Nothing was said or heard.
    pub fn new(role: Role) -> Line
        ensures { result ≡ table.new_line role }
    {
        Line {
            timing: Timing::new(role),
            clock: Clock::new(),
            written: Written::new(),
            is_closed: false,
            has_echo: false,
        }
    }

    /// The clock tells this.
    #[inline]
    pub fn look(&mut self, now: u64)
        ensures { self.new ≡ table.looked now self.old }
    {
        let _ = self.clock.read(now);
    }

    /// How many bytes are read at once into so much room: of a reply one byte may make two.
    #[inline]
    pub fn room(&self, length: usize) -> usize
        ensures { result ≡ table.room_for self.now.timing.role length }
    {
        match self.timing.role {
            Role::Sender => (length / 2).min(PIECE),
            Role::Receiver => length,
        }
    }

    /// Takes a byte that came, and says what of it is to be heard.
    #[inline(always)]
    fn byte(&mut self, byte: u8) -> Say
        ensures line { self.new ≡ table.hears_byte byte self.old }
        ensures role { self.new.timing.role ≡ self.old.timing.role }
        ensures say { result ≡ said byte self.old.written self.old.clock.at self.old.timing }
    {
        self.timing
            .byte(byte, self.written.as_slice(), self.clock.at)
    }

    /// Takes what came to a sender, and puts what of it is to be heard at the front of `buf`.
    #[inline(always)]
    fn reply(&mut self, came: &[u8], buf: &mut [u8]) -> usize
        requires room { 2 * length came.now ≤ length buf.old }
        ensures line { self.new ≡ table.takes came.now self.old }
        ensures role { self.new.timing.role ≡ self.old.timing.role }
        ensures within { result ≤ 2 * length came.now }
        ensures sized { length buf.new ≡ length buf.old }
        ensures heard { take result buf.new
            ≡ heard_of came.now self.old.written self.old.clock.at self.old.timing }
    {
        let mut count = 0;
        for byte in came {
            let said = self.byte(*byte);
            count = put(said, *byte, buf, count);
        }
        count
    }

    /// The same of what came to a sender and stands in `buf`.
    #[inline(always)]
    fn reply_at_front(&mut self, buf: &mut [u8], count: usize) -> usize
        requires piece { count ≤ PIECE }
        requires room { 2 * count ≤ length buf.old }
        ensures line { self.new ≡ table.takes (take count buf.old) self.old }
        ensures role { self.new.timing.role ≡ self.old.timing.role }
        ensures within { result ≤ 2 * count }
        ensures sized { length buf.new ≡ length buf.old }
        ensures heard { take result buf.new
            ≡ heard_of (take count buf.old) self.old.written self.old.clock.at self.old.timing }
    {
        let mut came = [0; PIECE];
        came[..count].copy_from_slice(&buf[..count]);
        self.reply(&came[..count], buf)
    }

    /// Takes a byte that came alone to a sender and stands at the front of `buf`, and leaves there
    /// what of it is to be heard. One byte cancels nothing.
    #[inline(always)]
    fn reply_alone(&mut self, buf: &mut [u8]) -> usize
        requires room { 2 ≤ length buf.old }
        requires sender { self.old.timing.role ≡ Role.Sender }
        ensures line { self.new ≡ table.takes (take 1 buf.old) self.old }
        ensures role { self.new.timing.role ≡ self.old.timing.role }
        ensures within { result ≤ length buf.old }
        ensures sized { length buf.new ≡ length buf.old }
        ensures heard { take result buf.new ≡ table.heard_in (take 1 buf.old) self.old }
    {
        let byte = buf[0];
        let said = self.byte(byte);
        put(said, byte, buf, 0)
    }

    /// The same of several bytes, where a reply behind which the peer cancels is none.
    // a reply is most often one byte: kept out of its way
    #[inline(never)]
    fn reply_in(&mut self, buf: &mut [u8], count: usize) -> usize
        requires some { 0 < count }
        requires piece { count ≤ PIECE }
        requires room { 2 * count ≤ length buf.old }
        requires sender { self.old.timing.role ≡ Role.Sender }
        ensures line { self.new ≡ table.takes (take count buf.old) self.old }
        ensures role { self.new.timing.role ≡ self.old.timing.role }
        ensures within { result ≤ length buf.old }
        ensures sized { length buf.new ≡ length buf.old }
        ensures heard { take result buf.new ≡ table.heard_in (take count buf.old) self.old }
    {
        let heard = self.reply_at_front(buf, count);
        if cancels(&buf[..heard]) {
            put_cancel(buf);
            return 2;
        }
        heard
    }

    /// Takes what came to a receiver and stands in `buf`, and leaves what of it is to be heard.
    #[inline]
    fn frame_in(&mut self, buf: &mut [u8], count: usize) -> usize
        requires room { count ≤ length buf.old }
        requires receiver { self.old.timing.role ≡ Role.Receiver }
        ensures line { self.new ≡ table.takes (take count buf.old) self.old }
        ensures role { self.new.timing.role ≡ self.old.timing.role }
        ensures within { result ≤ length buf.old }
        ensures sized { length buf.new ≡ length buf.old }
        ensures heard { take result buf.new ≡ table.heard_in (take count buf.old) self.old }
    {
        let echoed = self
            .timing
            .frame_bytes(&buf[..count], self.written.as_slice(), self.clock.at);
        if 0 < echoed {
            shift(buf, echoed, count);
        }
        count - echoed
    }

    /// Takes what came and stands in `buf`, and leaves there what of it is to be heard.
    #[inline(always)]
    pub fn hear(&mut self, buf: &mut [u8], count: usize) -> usize
        requires some { 0 < count }
        requires room { count ≤ table.room_for self.old.timing.role (length buf.old) }
        ensures line { self.new ≡ table.hears (take count buf.old) self.old }
        ensures role { self.new.timing.role ≡ self.old.timing.role }
        ensures within { result ≤ length buf.old }
        ensures sized { length buf.new ≡ length buf.old }
        ensures heard { take result buf.new ≡ table.heard_in (take count buf.old) self.old }
    {
        let heard = match self.timing.role {
            Role::Sender if count == 1 => self.reply_alone(buf),
            Role::Sender => self.reply_in(buf, count),
            Role::Receiver => self.frame_in(buf, count),
        };
        self.heed_echo();
        heard
    }

    /// Whether what was written last comes back: three bytes of a block, or one of a reply.
    fn comes_back(&self) -> bool
        ensures { result ≡ table.comes_back self.now.timing }
    {
        match (self.timing.role, self.timing.ear.echo) {
            (Role::Sender, Echo::Goes(_)) => true,
            (Role::Sender, _) => false,
            (Role::Receiver, _) => 0 < self.timing.echoed,
        }
    }

    /// Keeps in mind that what was written comes back, where it does.
    #[inline]
    fn heed_echo(&mut self)
        ensures { self.new ≡ table.heeds_echo self.old }
    {
        if self.comes_back() {
            self.has_echo = true;
        }
    }

    /// Takes that a read waited until then, where the clock tells this.
    #[inline]
    pub fn pass(&mut self, until: u64, now: u64)
        ensures { self.new ≡ table.passed until now self.old }
    {
        let _ = self.clock.waited(until, now);
    }

    /// Until when a read waits, of a wait that began then: more of a delivery is waited for since
    /// anything came, also what is not to be heard.
    #[inline]
    pub fn until(&self, wait: Expected, start: u64) -> u64
        ensures { result ≡ table.ends_at wait start self.now }
    {
        match wait {
            Expected::Reply => self.timing.until(wait, start),
            Expected::Within => self.timing.until(wait, self.clock.at),
        }
    }

    /// Whether a wait that began then is over, where what comes is not to be heard: none is longer
    /// than one for a reply, so noise without end holds an end no longer.
    #[cold]
    #[inline(never)]
    pub fn is_over(&self, wait: Expected, start: u64) -> bool
        ensures { result ≡ table.is_over wait start self.now }
    {
        let end = match wait {
            Expected::Reply => self.timing.until(wait, start),
            Expected::Within => start.saturating_add(self.timing.pace.wait(self.timing.role)),
        };
        end <= self.clock.at
    }

    /// Takes that a wait is over, in which nothing came that is to be heard.
    #[cold]
    #[inline(never)]
    pub fn give_up(&mut self, wait: Expected) -> Vain
        ensures line { self.new ≡ table.gives_up wait self.old }
        ensures role { self.new.timing.role ≡ self.old.timing.role }
        ensures vain { result ≡ table.vain_at wait self.old }
    {
        self.timing.expired(wait, self.clock.at)
    }

    /// Whether an ACK is held that is heard when a moment has passed.
    fn is_acked(&self) -> bool
        ensures { result ≡ is_acked self.now.timing }
    {
        match self.timing.sent.kind {
            Kind::End | Kind::Data => self.timing.hold.is_held,
            _ => false,
        }
    }

    /// Takes that the line closed, and says whether an ACK that was held is heard before that: who
    /// acknowledges the end block may leave at once.
    #[cold]
    pub fn close(&mut self, wait: Expected) -> bool
        ensures line { self.new ≡ table.closed wait self.old }
        ensures role { self.new.timing.role ≡ self.old.timing.role }
        ensures last { result ≡ is_acked self.old.timing }
    {
        if !self.is_acked() {
            return false;
        }
        let _ = self.give_up(wait);
        self.is_closed = true;
        true
    }

    /// Whether the line is clear, or will not get clearer.
    #[inline]
    pub fn is_clear(&self, purge: Purge) -> bool
        ensures { result ≡ table.is_clear purge self.now }
    {
        self.is_closed || self.timing.clear_at(purge) <= self.clock.at
    }

    /// Drops a byte that came while the line cleared.
    fn drop_byte(&mut self, purge: Purge, byte: u8) -> Purge
        ensures line { self.new ≡ table.drops_byte purge byte self.old }
        ensures purge { result
            ≡ dropped purge byte self.old.written self.old.clock.at self.old.timing }
    {
        self.timing
            .dropped(purge, byte, self.written.as_slice(), self.clock.at)
    }

    /// Drops bytes that came while the line cleared.
    pub fn drop_all(&mut self, purge: Purge, bytes: &[u8]) -> Purge
        ensures line { self.new ≡ table.after_dropping purge bytes.now self.old }
        ensures purge { result ≡ table.dropping purge bytes.now self.old }
    {
        let mut left = purge;
        for byte in bytes {
            left = self.drop_byte(left, *byte);
        }
        left
    }

    /// Where nothing has to clear before these bytes, and little changes: takes that they are
    /// written. Where it says no, all is as it was.
    #[inline(always)]
    pub fn write_at_once(&mut self, frame: &[u8]) -> bool
        ensures clear { IsTrue result
            → table.is_clear (table.purge_for frame.now self.old) self.old ≡ true }
        ensures line { self.new ≡ (if result
            then table.writes frame.now (table.purge_for frame.now self.old) self.old
            else self.old) }
    {
        if self.timing.wrote_at_once(frame, self.clock.at) {
            self.written.keep(frame);
            return true;
        }
        false
    }

    /// Takes that these bytes are written, behind this purge.
    #[inline(always)]
    pub fn write(&mut self, bytes: &[u8], purge: Purge)
        ensures { self.new ≡ table.writes bytes.now purge self.old }
    {
        self.timing.wrote(bytes, purge, self.clock.at);
        self.written.keep(bytes);
    }
}

/// Puts CAN CAN at the front.
pub fn put_cancel(buf: &mut [u8])
    requires { 2 ≤ length buf.old }
    ensures same { length buf.new ≡ length buf.old }
    ensures put { take 2 buf.new ≡ cancel }
{
    buf[..2].copy_from_slice(&[CAN, CAN]);
}

/// Puts what is to be heard of a byte behind so many others.
#[inline]
fn put(said: Say, byte: u8, buf: &mut [u8], count: usize) -> usize
    requires { count + 2 ≤ length buf.old }
    ensures same { length buf.new ≡ length buf.old }
    ensures within { result ≤ count + 2 }
    ensures heard { take result buf.new ≡ take count buf.old ++ bytes_of said byte }
{
    match said {
        Say::Nothing => count,
        Say::Byte => {
            buf[count] = byte;
            count + 1
        }
        Say::AckAndByte => {
            buf[count] = ACK;
            buf[count + 1] = byte;
            count + 2
        }
        Say::Start => {
            buf[count] = START;
            count + 1
        }
    }
}

/// Moves what stands behind so many bytes to the front.
#[cold]
fn shift(buf: &mut [u8], by: usize, count: usize)
    requires by { by ≤ count }
    requires count { count ≤ length buf.old }
    ensures same { length buf.new ≡ length buf.old }
    ensures prefix { take (count - by) buf.new ≡ drop by (take count buf.old) }
{
    for position in 0..count - by {
        buf[position] = buf[position + by];
    }
}
