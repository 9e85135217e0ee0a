//! A terminal whose reads end by themselves, as a line with a clock.

ghost use Rattle.std.specs.Prelude.{◌≡◌, ◌<◌, ◌≤◌, ◌+◌, ◌/◌, ℕ, true, false, Ok, OnOk, OnErr, IfOk, length};
ghost use Rattle.ym_file.specs.Counts.{Counted};

use crate::drip::Drip;
use crate::moments::millis_of;
use crate::ticks::{TICK_MS, Tick, Ticks};
use std::io::{ErrorKind, Read, Write};
use std::marker::Model;
use std::time::{Clock, Duration};
use std::{io, thread};
use ym_link::{Got, PortFault};
use ym_port::{Role, Wire};

/// How many reads a wait makes beside those that its ticks take.
const SPARE_READS: u64 = 10;

/// How many milliseconds pass before a call that did not wait, since the line is set so, is made
/// again.
const PAUSE_MS: u64 = 10;

/// The system's error of a terminal that has hung up.
const HANGUP_ERROR: i32 = 5;

/// Why a terminal failed, or why nothing will come from it any more.
#[derive(Clone, Copy)]
pub enum TtyFault {
    /// It hung up.
    HungUp,
    /// Its reads do not end by themselves.
    Endless,
    /// The system refused a call.
    System(io::Error),
}

/// A terminal that was set so that its reads end after a tick where nothing comes
/// (`stty raw -echo clocal min 0 time 1`): what reads it, what writes to it, and a clock. Nobody
/// knows what it tells. Other readers and writers will do as well, such as pipes; a read of theirs
/// that waits on waits as long as nothing comes, and none is made for a wait of a tenth of a
/// second. Where bytes have been coming for ten of its end's first waits with no pause as long as a
/// wait, and nothing was written, it counts as quiet once. A write waits as long as the other end
/// holds it up.
#[derive(Drop)]
pub struct TtyWire<R: Clock + Drop, I: Read + Drop, O: Write + Drop> {
    clock: R,
    reader: I,
    writer: O,
    role: Role,
    /// Whether its reads end by themselves.
    is_terminal: bool,
    ticks: Ticks,
    /// The last moment that the clock told.
    last: u64,
    drip: Drip,
    failed: u64,
    /// Why it failed for the first time, or hung up.
    fault: Option<TtyFault>,
}

impl<R: Clock + Drop, I: Read + Drop, O: Write + Drop> Model for TtyWire<R, I, O> {
    ghost use Rattle.std.specs.Prelude.{ℕ};

    ghost Value = { ℕ };

    ghost view = { λ w. w.failed };
}

/// How many reads a wait of so many milliseconds makes at most.
fn most_reads(millis: u64) -> u64 {
    millis / TICK_MS + SPARE_READS
}

/// What an error of the system means.
fn fault_of(error: io::Error) -> TtyFault {
    match error.raw_os_error() {
        Some(HANGUP_ERROR) => TtyFault::HungUp,
        _ => TtyFault::System(error),
    }
}

/// Waits a moment: somebody else who has the line open has set it not to wait.
fn pause<R: Clock>(clock: &R) {
    thread::sleep(clock, Duration::from_millis(PAUSE_MS));
}

/// Reads once, or for a tick again and again where the line is set not to wait.
fn read_waiting<R: Clock, I: Read>(clock: &R, reader: &mut I, buf: &mut [u8]) -> io::Result<usize>
    ensures { IfOk result (λ count. count ≤ length buf.old) }
{
    for _ in 0..TICK_MS / PAUSE_MS {
        match reader.read(buf) {
            Err(error) if error.kind() == ErrorKind::WouldBlock => pause(clock),
            got => return got,
        }
    }
    Err(io::Error::from(ErrorKind::WouldBlock))
}

impl<R: Clock + Drop, I: Read + Drop, O: Write + Drop> TtyWire<R, I, O> {
    /// A line that this reads and that writes, as this end has it. Whether its reads end by
    /// themselves is found out where it is a terminal.
    pub fn new(clock: R, reader: I, writer: O, is_terminal: bool, role: Role) -> TtyWire<R, I, O>
        ensures { result ≡ 0 }
    {
        TtyWire {
            clock,
            reader,
            writer,
            role,
            is_terminal,
            ticks: Ticks::new(is_terminal),
            last: 0,
            drip: Drip::Nothing,
            failed: 0,
            fault: None,
        }
    }

    /// Why it failed for the first time, or hung up.
    pub fn fault(&self) -> Option<TtyFault> {
        self.fault
    }

    /// Whether a call of it failed. Where it only hung up, none did.
    pub fn has_failed(&self) -> bool
        ensures failed { result ≡ true → 0 < self.now }
        ensures sound { result ≡ false → self.now ≡ 0 }
    {
        self.failed > 0
    }

    /// The moment, in milliseconds: the last one again, where the clock fails.
    fn look(&mut self) -> u64
        ensures { self.new ≡ self.old }
    {
        if let Ok(time) = self.clock.monotonic() {
            self.last = millis_of(time);
        }
        self.last
    }

    /// Keeps why it failed, or hung up, the first time.
    fn keep(&mut self, fault: TtyFault)
        ensures { self.new ≡ self.old }
    {
        if self.fault.is_none() {
            self.fault = Some(fault);
        }
    }

    /// Counts a failure, and keeps why.
    fn fail(&mut self, fault: TtyFault) -> PortFault
        ensures { Counted self.old self.new }
    {
        self.keep(fault);
        self.failed = self.failed.saturating_add(1);
        PortFault
    }

    /// What a read says that the system refused.
    fn refused(&mut self, error: io::Error) -> Result<Got, TtyFault>
        ensures same { self.new ≡ self.old }
        ensures none { (n : ℕ) → result ≡ Ok (Got.Bytes n) → ⊥ }
    {
        match error.kind() {
            ErrorKind::Interrupted | ErrorKind::WouldBlock => Ok(Got::Quiet),
            _ => match fault_of(error) {
                TtyFault::HungUp => Ok(Got::Closed),
                fault => Err(fault),
            },
        }
    }

    /// One read, of a tick at most.
    fn read_tick(&mut self, buf: &mut [u8]) -> Result<Got, TtyFault>
        requires { 0 < length buf.old }
        ensures same { self.new ≡ self.old }
        ensures count { (n : ℕ) → result ≡ Ok (Got.Bytes n) → (0 < n) × (n ≤ length buf.old) }
    {
        let start = self.look();
        let count = match read_waiting(&self.clock, &mut self.reader, buf) {
            Ok(count) => count,
            Err(error) => return self.refused(error),
        };
        let millis = self.look().saturating_sub(start);
        match self.ticks.take(count, millis) {
            Tick::Bytes => Ok(Got::Bytes(count)),
            Tick::Quiet => Ok(Got::Quiet),
            Tick::HungUp => Ok(Got::Closed),
            Tick::Endless => Err(TtyFault::Endless),
        }
    }

    /// Reads what is there into the front of `buf`, or waits for it: so many milliseconds at most,
    /// and then to the end of a tick.
    fn read_ticks(&mut self, millis: u64, buf: &mut [u8]) -> Result<Got, PortFault>
        requires { 0 < length buf.old }
        ensures count { (n : ℕ) → result ≡ Ok (Got.Bytes n) → (0 < n) × (n ≤ length buf.old) }
        ensures ok { OnOk result (self.new ≡ self.old) }
        ensures failed { OnErr result (Counted self.old self.new) }
    {
        let end = self.look().saturating_add(millis);
        for _ in 0..most_reads(millis) {
            match self.read_tick(buf) {
                Ok(Got::Quiet) => {
                    if self.look() >= end {
                        return Ok(Got::Quiet);
                    }
                }
                Ok(Got::Closed) => {
                    self.keep(TtyFault::HungUp);
                    return Ok(Got::Closed);
                }
                Ok(got) => return Ok(got),
                Err(fault) => return Err(self.fail(fault)),
            }
        }
        Ok(Got::Quiet)
    }
}

impl<R: Clock + Drop, I: Read + Drop, O: Write + Drop> TtyWire<R, I, O> {
    /// Writes some of these bytes, and answers how many: none where the call is to be made again.
    fn write_some(&mut self, bytes: &[u8]) -> io::Result<usize>
        ensures same { self.new ≡ self.old }
        ensures count { IfOk result (λ count. count ≤ length bytes.now) }
    {
        match self.writer.write(bytes) {
            Ok(0) => Err(io::Error::from(ErrorKind::WriteZero)),
            Err(error) if error.kind() == ErrorKind::Interrupted => Ok(0),
            Err(error) if error.kind() == ErrorKind::WouldBlock => {
                pause(&self.clock);
                Ok(0)
            }
            written => written,
        }
    }

    /// Writes all these bytes, for as long as the other end holds them up.
    fn write_waiting(&mut self, bytes: &[u8]) -> io::Result<()>
        ensures { self.new ≡ self.old }
    {
        let mut left = bytes;
        for _ in 0..u64::MAX {
            if left.is_empty() {
                return Ok(());
            }
            let count = self.write_some(left)?;
            left = &left[count..];
        }
        Err(io::Error::from(ErrorKind::TimedOut))
    }
}

impl<R: Clock + Drop, I: Read + Drop, O: Write + Drop> Wire for TtyWire<R, I, O> {
    ghost tells = { λ _ _. ⊥ };

    ghost failures = { λ w. w };

    fn moment(&mut self) -> u64 {
        self.look()
    }

    fn read(&mut self, millis: u64, buf: &mut [u8]) -> Result<Got, PortFault> {
        // A pipe's read waits on as long as nothing comes: so short a wait is not worth that.
        if !self.is_terminal && millis <= TICK_MS {
            return Ok(Got::Quiet);
        }
        if self.drip.is_overdue(self.role, self.last) {
            self.drip = Drip::Nothing;
            return Ok(Got::Quiet);
        }
        let got = self.read_ticks(millis, buf)?;
        self.drip = self.drip.after(self.last, got);
        Ok(got)
    }

    fn write(&mut self, bytes: &[u8]) -> Result<(), PortFault> {
        self.drip = Drip::Nothing;
        match self.write_waiting(bytes) {
            Ok(()) => Ok(()),
            Err(error) => Err(self.fail(fault_of(error))),
        }
    }
}
