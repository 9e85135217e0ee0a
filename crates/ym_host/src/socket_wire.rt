//! A TCP connection, as a line with a clock.

ghost use Rattle.std.specs.Prelude.{◌≡◌, ◌<◌, ◌≤◌, ℕ, Ok, OnOk, OnErr, length};
ghost use Rattle.ym_file.specs.Counts.{Counted};

use crate::drip::Drip;
use crate::moments::millis_of;
use crate::ticks::EARLY_MS;
use std::io::{ErrorKind, Read, Write};
use std::marker::Model;
use std::net::TcpStream;
use std::time::{Clock, Duration};
use std::{io, thread};
use ym_link::{Got, PortFault};
use ym_port::{Role, Wire};

/// How many milliseconds pass before a read that ended too early is made again.
const PAUSE_MS: u64 = 10;

/// How many milliseconds a write may make no headway.
const WRITE_MS: u64 = 10_000;

/// A TCP connection whose reads and writes wait no longer than they may.
#[derive(Drop)]
struct TimedStream {
    stream: TcpStream,
    /// How long its reads wait now, in milliseconds; 0 before the first read.
    set_ms: u64,
    /// Whether its writes wait no longer than they may.
    is_write_bounded: bool,
}

/// A TCP connection with a clock. Nobody knows what it tells. Where bytes have been coming for ten
/// of its end's first waits with no pause as long as a wait, and nothing was written, it counts as
/// quiet once: a peer that sends one byte after another holds nothing for longer. A write that
/// makes no headway for ten seconds fails.
#[derive(Drop)]
pub struct SocketWire<R: Clock + Drop> {
    clock: R,
    timed: TimedStream,
    role: Role,
    /// The last moment that the clock told.
    last: u64,
    drip: Drip,
    failed: u64,
    /// Why it failed for the first time.
    fault: Option<io::Error>,
}

impl<R: Clock + Drop> Model for SocketWire<R> {
    ghost use Rattle.std.specs.Prelude.{ℕ};

    ghost Value = { ℕ };

    ghost view = { λ w. w.failed };
}

/// What is left of a wait whose read got nothing, where that is much: a signal interrupted it, or
/// it did not wait, since somebody has set the stream so. That takes a moment. Where the clock
/// fails, nothing is left.
fn left_until<R: Clock>(clock: &R, end: u64) -> Option<u64> {
    let left = match clock.monotonic() {
        Ok(time) => end.saturating_sub(millis_of(time)),
        Err(_) => 0,
    };
    if left <= EARLY_MS {
        return None;
    }
    thread::sleep(clock, Duration::from_millis(PAUSE_MS));
    Some(left - PAUSE_MS)
}

impl TimedStream {
    /// Sets how long reads wait, in milliseconds.
    #[cold]
    fn set_wait(&mut self, wait: u64) -> io::Result<()> {
        self.stream
            .set_read_timeout(Some(Duration::from_millis(wait)))?;
        self.set_ms = wait;
        Ok(())
    }

    /// Sets how long writes wait.
    #[cold]
    fn bound_writes(&mut self) -> io::Result<()> {
        self.stream
            .set_write_timeout(Some(Duration::from_millis(WRITE_MS)))?;
        self.is_write_bounded = true;
        Ok(())
    }
}

impl<R: Clock + Drop> SocketWire<R> {
    /// A line over this connection, as this end has it.
    pub fn new(clock: R, stream: TcpStream, role: Role) -> SocketWire<R>
        ensures { result ≡ 0 }
    {
        // Each block waits for its reply, so none may wait for more bytes; where this cannot be
        // had, the line is slower.
        let _ = stream.set_nodelay(true);
        SocketWire {
            clock,
            timed: TimedStream {
                stream,
                set_ms: 0,
                is_write_bounded: false,
            },
            role,
            last: 0,
            drip: Drip::Nothing,
            failed: 0,
            fault: None,
        }
    }

    /// Why it failed for the first time.
    pub fn fault(&self) -> Option<io::Error> {
        self.fault
    }

    /// Counts a failure, and keeps why the first time.
    #[cold]
    #[inline(never)]
    fn fail(&mut self, error: io::Error) -> PortFault
        ensures { Counted self.old self.new }
    {
        self.fault = Some(self.fault.unwrap_or(error));
        self.failed = self.failed.saturating_add(1);
        PortFault
    }
}

// An error of the system is large. So one is told of where it comes, and what a call of the line
// answers is small: these are made for each block.
impl<R: Clock + Drop> SocketWire<R> {
    /// Has reads wait for so many milliseconds.
    #[cold]
    #[inline(never)]
    fn wait_for(&mut self, wait: u64) -> Result<(), PortFault>
        ensures ok { OnOk result (self.new ≡ self.old) }
        ensures failed { OnErr result (Counted self.old self.new) }
    {
        match self.timed.set_wait(wait) {
            Ok(()) => Ok(()),
            Err(error) => Err(self.fail(error)),
        }
    }

    /// What a read comes to that got no bytes, for this reason.
    #[cold]
    #[inline(never)]
    fn unread(&mut self, error: io::Error) -> Result<Got, PortFault>
        ensures none { (n : ℕ) → result ≡ Ok (Got.Bytes n) → ⊥ }
        ensures ok { OnOk result (self.new ≡ self.old) }
        ensures failed { OnErr result (Counted self.old self.new) }
    {
        match error.kind() {
            ErrorKind::WouldBlock | ErrorKind::TimedOut | ErrorKind::Interrupted => Ok(Got::Quiet),
            // A peer that ends with bytes unread resets the connection: it is closed too.
            ErrorKind::ConnectionReset => Ok(Got::Closed),
            _ => Err(self.fail(error)),
        }
    }

    /// Reads what is there into the front of `buf`, or waits for so many milliseconds, and shorter
    /// where a signal interrupts that.
    #[inline(always)]
    fn read_once(&mut self, millis: u64, buf: &mut [u8]) -> Result<Got, PortFault>
        requires { 0 < length buf.old }
        ensures count { (n : ℕ) → result ≡ Ok (Got.Bytes n) → (0 < n) × (n ≤ length buf.old) }
        ensures ok { OnOk result (self.new ≡ self.old) }
        ensures failed { OnErr result (Counted self.old self.new) }
    {
        let wait = millis.max(1); // none is no limit
        if self.timed.set_ms != wait {
            self.wait_for(wait)?;
        }
        match self.timed.stream.read(buf) {
            Ok(0) => Ok(Got::Closed),
            Ok(n) => Ok(Got::Bytes(n)),
            Err(error) => self.unread(error),
        }
    }

    /// Reads on where a read of so many milliseconds got nothing, until these are over.
    #[cold]
    #[inline(never)]
    fn read_on(&mut self, millis: u64, buf: &mut [u8]) -> Result<Got, PortFault>
        requires { 0 < length buf.old }
        ensures count { (n : ℕ) → result ≡ Ok (Got.Bytes n) → (0 < n) × (n ≤ length buf.old) }
        ensures ok { OnOk result (self.new ≡ self.old) }
        ensures failed { OnErr result (Counted self.old self.new) }
    {
        let end = self.last.saturating_add(millis);
        for _ in 0..millis / PAUSE_MS {
            let left = match left_until(&self.clock, end) {
                Some(left) => left,
                None => return Ok(Got::Quiet),
            };
            match self.read_once(left, buf)? {
                Got::Quiet => {}
                got => return Ok(got),
            }
        }
        Ok(Got::Quiet)
    }

    /// Reads what is there, or waits.
    #[inline(always)]
    fn read_in_time(&mut self, millis: u64, buf: &mut [u8]) -> Result<Got, PortFault>
        requires { 0 < length buf.old }
        ensures count { (n : ℕ) → result ≡ Ok (Got.Bytes n) → (0 < n) × (n ≤ length buf.old) }
        ensures ok { OnOk result (self.new ≡ self.old) }
        ensures failed { OnErr result (Counted self.old self.new) }
    {
        match self.read_once(millis, buf) {
            Ok(Got::Quiet) => self.read_on(millis, buf),
            got => got,
        }
    }

    /// Counts a write that failed. That the peer takes nothing for too long counts as no answer in
    /// time.
    #[cold]
    #[inline(never)]
    fn unwritten(&mut self, error: io::Error) -> PortFault
        ensures { Counted self.old self.new }
    {
        match error.kind() {
            ErrorKind::WouldBlock => self.fail(io::Error::from(ErrorKind::TimedOut)),
            _ => self.fail(error),
        }
    }

    /// Has writes wait no longer than they may, before the first one.
    #[cold]
    #[inline(never)]
    fn bound_writes(&mut self) -> Result<(), PortFault>
        ensures ok { OnOk result (self.new ≡ self.old) }
        ensures failed { OnErr result (Counted self.old self.new) }
    {
        match self.timed.bound_writes() {
            Ok(()) => Ok(()),
            Err(error) => Err(self.unwritten(error)),
        }
    }

    /// Writes all of these bytes, which a write before did not take.
    #[cold]
    #[inline(never)]
    fn write_rest(&mut self, bytes: &[u8]) -> Result<(), PortFault>
        ensures ok { OnOk result (self.new ≡ self.old) }
        ensures failed { OnErr result (Counted self.old self.new) }
    {
        match self.timed.stream.write_all(bytes) {
            Ok(()) => Ok(()),
            Err(error) => Err(self.unwritten(error)),
        }
    }

    /// Writes all the bytes: by one write, where the system takes them so.
    #[inline(always)]
    fn write_in_time(&mut self, bytes: &[u8]) -> Result<(), PortFault>
        ensures ok { OnOk result (self.new ≡ self.old) }
        ensures failed { OnErr result (Counted self.old self.new) }
    {
        if !self.timed.is_write_bounded {
            self.bound_writes()?;
        }
        match self.timed.stream.write(bytes) {
            Ok(count) if count == bytes.len() => Ok(()),
            Ok(count) => self.write_rest(&bytes[count..]),
            Err(error) if error.kind() == ErrorKind::Interrupted => self.write_rest(bytes),
            Err(error) => Err(self.unwritten(error)),
        }
    }
}

impl<R: Clock + Drop> Wire for SocketWire<R> {
    ghost tells = { λ _ _. ⊥ };

    ghost failures = { λ w. w };

    /// The last moment again, where the clock fails.
    #[inline(always)]
    fn moment(&mut self) -> u64 {
        if let Ok(time) = self.clock.monotonic() {
            self.last = millis_of(time);
        }
        self.last
    }

    #[inline(always)]
    fn read(&mut self, millis: u64, buf: &mut [u8]) -> Result<Got, PortFault> {
        if self.drip.is_overdue(self.role, self.last) {
            self.drip = Drip::Nothing;
            return Ok(Got::Quiet);
        }
        let got = self.read_in_time(millis, buf)?;
        self.drip = self.drip.after(self.last, got);
        Ok(got)
    }

    #[inline(always)]
    fn write(&mut self, bytes: &[u8]) -> Result<(), PortFault> {
        self.drip = Drip::Nothing;
        self.write_in_time(bytes)
    }
}
