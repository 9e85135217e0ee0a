//! A line of which a record is made.

ghost use Rattle.std.specs.Prelude.{◌≡◌, ◌<◌, ◌≤◌, ℕ, [], Ok, OnOk, OnErr, length, take, is_ok};
ghost use Rattle.std.specs.Prelude.{option_map};
ghost use Rattle.ym_file.specs.Counts.{Counted};
ghost use Rattle.ym_link.specs.Port.{seen_of, read_gives};
ghost use Rattle.ym_port.specs.Wire.{Tape, after_read, after_write};
ghost use Rattle.ym_record.specs.RecordGrowth.{GoesOnBy, read_way, written_way};
ghost use Rattle.ym_capture.specs.RecordText.{line_of};

use crate::append::Append;
use crate::recorder::Recorder;
use std::time::{Clock, Duration};
use ym_link::{Got, PortFault};
use ym_port::{Role, Wire};
use ym_told::Direction;

/// After so many microseconds what waits is written before a write of the line too, which may take
/// long.
const LONGEST_WAIT: u64 = 100_000;

/// A line that hands on all that it is asked and told as it is, and has it recorded, with the
/// moments of a clock. What passed is written to the record before a read waits.
#[derive(Drop)]
pub struct RecordedWire<'r, W: Wire + Drop, C: Clock + Drop, A: Append + Drop> {
    wire: W,
    clock: C,
    role: Role,
    /// When it began, in microseconds of the clock.
    start: u64,
    /// When a piece passed last, and had passed when the record was written last, since then.
    last: u64,
    written: u64,
    recorder: &'r mut Recorder<A>,
}

/// A time in microseconds.
fn micros_of(time: Duration) -> u64 {
    time.as_secs()
        .saturating_mul(1_000_000)
        .saturating_add(u64::from(time.subsec_micros()))
}

/// The moment that a clock tells, in microseconds, or this one where it fails.
fn moment_or<C: Clock>(clock: &C, otherwise: u64) -> u64 {
    match clock.monotonic() {
        Ok(time) => micros_of(time),
        Err(_) => otherwise,
    }
}

/// The way in which an end writes.
fn written_way(role: Role) -> Direction
    ensures { result ≡ written_way role }
{
    match role {
        Role::Sender => Direction::There,
        Role::Receiver => Direction::Back,
    }
}

/// The way in which it reads.
fn read_way(role: Role) -> Direction
    ensures { result ≡ read_way role }
{
    written_way(role).other()
}

impl<'r, W: Wire + Drop, C: Clock + Drop, A: Append + Drop> RecordedWire<'r, W, C, A> {
    /// This line, as the end of this role has it, of which a record is made from now on, or none.
    pub fn new(
        wire: W,
        clock: C,
        role: Role,
        recorder: &'r mut Recorder<A>,
    ) -> RecordedWire<'r, W, C, A>
        ensures wire { result.wire ≡ wire }
        ensures role { result.role ≡ role }
    {
        // Where none is made the clock is not asked.
        let start = if recorder.is_kept() {
            moment_or(&clock, 0)
        } else {
            0
        };
        RecordedWire {
            wire,
            clock,
            role,
            start,
            last: 0,
            written: 0,
            recorder,
        }
    }

    /// The line below.
    pub fn wire(&self) -> &W
        ensures { result.now ≡ self.now.wire }
    {
        &self.wire
    }

    /// Writes what waits to the record that is made.
    #[inline(never)] // kept out of the way of a line of which none is made
    fn write_waiting(&mut self)
        ensures wire { self.new.wire ≡ self.old.wire }
        ensures role { self.new.role ≡ self.old.role }
        ensures same { GoesOnBy []
            (option_map A.taken self.old.recorder.now.to) self.old.recorder.now.lines
            (option_map A.taken self.new.recorder.now.to) self.new.recorder.now.lines }
    {
        self.recorder.write_out();
        self.written = self.last;
    }

    /// Writes what waits to the record, where one is made.
    #[inline(always)]
    fn write_out(&mut self)
        ensures wire { self.new.wire ≡ self.old.wire }
        ensures role { self.new.role ≡ self.old.role }
        ensures same { GoesOnBy []
            (option_map A.taken self.old.recorder.now.to) self.old.recorder.now.lines
            (option_map A.taken self.new.recorder.now.to) self.new.recorder.now.lines }
    {
        if self.recorder.is_kept() {
            self.write_waiting();
        }
    }

    /// The same, where the record was written too long ago.
    #[inline(always)]
    fn write_out_late(&mut self)
        ensures wire { self.new.wire ≡ self.old.wire }
        ensures role { self.new.role ≡ self.old.role }
        ensures same { GoesOnBy []
            (option_map A.taken self.old.recorder.now.to) self.old.recorder.now.lines
            (option_map A.taken self.new.recorder.now.to) self.new.recorder.now.lines }
    {
        if self.last.saturating_sub(self.written) > LONGEST_WAIT {
            self.write_out();
        }
    }

    /// Records what has passed now in the record that is made.
    #[inline(never)] // as `write_waiting`
    fn keep_now(&mut self, way: Direction, bytes: &[u8])
        ensures wire { self.new.wire ≡ self.old.wire }
        ensures grown { (micros : ℕ) × GoesOnBy (line_of micros way bytes.now)
            (option_map A.taken self.old.recorder.now.to) self.old.recorder.now.lines
            (option_map A.taken self.new.recorder.now.to) self.new.recorder.now.lines }
    {
        let since = self.start.saturating_add(self.last);
        self.last = moment_or(&self.clock, since).saturating_sub(self.start);
        self.recorder.keep(self.last, way, bytes);
    }

    /// Records what has passed now, where a record is made.
    #[inline(always)]
    fn keep(&mut self, way: Direction, bytes: &[u8])
        ensures wire { self.new.wire ≡ self.old.wire }
        ensures grown { (micros : ℕ) × GoesOnBy (line_of micros way bytes.now)
            (option_map A.taken self.old.recorder.now.to) self.old.recorder.now.lines
            (option_map A.taken self.new.recorder.now.to) self.new.recorder.now.lines }
    {
        if self.recorder.is_kept() {
            self.keep_now(way, bytes);
        }
    }
}

impl<'r, W: Wire + Drop, C: Clock + Drop, A: Append + Drop> Wire for RecordedWire<'r, W, C, A> {
    ghost tells = { λ w t. W.tells w.wire t };

    ghost failures = { λ w. W.failures w.wire };

    #[inline(always)]
    fn moment(&mut self) -> u64 {
        self.wire.moment()
    }

    #[inline(always)]
    fn read(&mut self, millis: u64, buf: &mut [u8]) -> Result<Got, PortFault>
        requires { 0 < length buf.old }
        ensures count { (n : ℕ) → result ≡ Ok (Got.Bytes n) → (0 < n) × (n ≤ length buf.old) }
        ensures told { (u : Tape) → W.tells self.new.wire u → (t : Tape) × W.tells self.old.wire t
            × (seen_of result buf.new ≡ read_gives (length buf.old) t.coming)
            × (u ≡ after_read millis (length buf.old) t) }
        ensures ok { OnOk result (W.failures self.new.wire ≡ W.failures self.old.wire) }
        ensures failed { OnErr result (Counted
            (W.failures self.old.wire) (W.failures self.new.wire)) }
        // What was read stands in the record.
        ensures recorded { (n : ℕ) → result ≡ Ok (Got.Bytes n) → (micros : ℕ)
            × GoesOnBy (line_of micros (read_way self.old.role) (take n buf.new))
            (option_map A.taken self.old.recorder.now.to) self.old.recorder.now.lines
            (option_map A.taken self.new.recorder.now.to) self.new.recorder.now.lines }
    {
        self.write_out();
        let got = self.wire.read(millis, buf);
        if let Ok(Got::Bytes(count)) = got {
            self.keep(read_way(self.role), &buf[..count]);
        }
        got
    }

    #[inline(always)]
    fn write(&mut self, bytes: &[u8]) -> Result<(), PortFault>
        ensures told { (u : Tape) → W.tells self.new.wire u → (t : Tape) × W.tells self.old.wire t
            × (u ≡ after_write (is_ok result) t bytes.now) }
        ensures ok { OnOk result (W.failures self.new.wire ≡ W.failures self.old.wire) }
        ensures failed { OnErr result (Counted
            (W.failures self.old.wire) (W.failures self.new.wire)) }
        // What was written stands in the record.
        ensures recorded { OnOk result ((micros : ℕ)
            × GoesOnBy (line_of micros (written_way self.old.role) bytes.now)
            (option_map A.taken self.old.recorder.now.to) self.old.recorder.now.lines
            (option_map A.taken self.new.recorder.now.to) self.new.recorder.now.lines) }
    {
        self.write_out_late();
        let done = self.wire.write(bytes);
        if done.is_ok() {
            self.keep(written_way(self.role), bytes);
        }
        done
    }
}
