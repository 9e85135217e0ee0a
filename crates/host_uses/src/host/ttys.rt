//! Terminals whose reads end by themselves, as a reader and a clock that follow a list.

use super::sockets::{reads, takes};
use std::cell::Cell;
use std::io;
use std::io::{Cursor, ErrorKind, Read};
use std::time::{Clock, Duration};
use ym_host::{TtyFault, TtyWire};
use ym_link::{Got, PortFault};
use ym_port::{Role, Wire};

/// What a read of the list comes to, after so many milliseconds.
#[derive(Clone, Copy)]
enum Comes {
    /// A byte.
    Byte(u64),
    /// Nothing.
    Nothing(u64),
    /// An error of the system.
    Error(u64, i32),
}

/// A reader that takes the reads of a list, one after another, and the last one again and again.
/// It moves the clock.
#[derive(Drop)]
struct Listed<'a> {
    reads: &'a [Comes],
    moment: &'a Cell<u64>,
    at: usize,
}

/// The clock that it moves.
#[derive(Clone, Copy)]
struct Hand<'a>(&'a Cell<u64>);

impl Clock for Hand<'_> {
    fn monotonic(&self) -> io::Result<Duration> {
        Ok(Duration::from_millis(self.0.get()))
    }

    fn since_1970(&self) -> io::Result<Duration> {
        Err(io::Error::from(ErrorKind::Unsupported))
    }
}

impl Listed<'_> {
    fn wait(&self, millis: u64) {
        self.moment.set(self.moment.get().saturating_add(millis));
    }
}

impl Read for Listed<'_> {
    fn read(&mut self, buf: &mut [u8]) -> io::Result<usize> {
        let last = self.reads.len().saturating_sub(1);
        let comes = self.reads.get(self.at.min(last)).copied();
        self.at = self.at.saturating_add(1);
        match (comes, buf) {
            (Some(Comes::Byte(millis)), [first, ..]) => {
                self.wait(millis);
                *first = 7;
                Ok(1)
            }
            (Some(Comes::Nothing(millis)), _) => {
                self.wait(millis);
                Ok(0)
            }
            (Some(Comes::Error(millis, number)), _) => {
                self.wait(millis);
                Err(io::Error::from_raw_os_error(number))
            }
            _ => Ok(0),
        }
    }
}

/// A terminal that reads so, and takes 64 bytes.
fn wire<'a>(
    reads: &'a [Comes],
    moment: &'a Cell<u64>,
) -> TtyWire<Hand<'a>, Listed<'a>, Cursor<[u8; 64]>> {
    let reader = Listed {
        reads,
        moment,
        at: 0,
    };
    TtyWire::new(
        Hand(moment),
        reader,
        Cursor::new([0; 64]),
        true,
        Role::Receiver,
    )
}

/// Why it failed, in a word.
fn word(fault: Option<TtyFault>) -> &'static str {
    match fault {
        None => "none",
        Some(TtyFault::HungUp) => "hung up",
        Some(TtyFault::Endless) => "endless",
        Some(TtyFault::System(_)) => "system",
    }
}

/// The reads of a list, what a wait of a second comes to with them, at which moment, and for what
/// reason.
type Waited = (&'static [Comes], Result<Got, PortFault>, u64, &'static str);

/// Whether a wait comes to what it should.
fn comes_to((list, got, at, why): &Waited) -> bool {
    let moment = Cell::new(0);
    let mut wire = wire(*list, &moment);
    let is_got = reads(&mut wire, 1000, &mut [0; 8], *got);
    let is_told = word(wire.fault()) == *why && wire.has_failed() == got.is_err();
    is_got && is_told && moment.get() == *at
}

/// Whether these waits come to what they should.
fn all_come_to(all: &[Waited]) -> bool {
    for it in all {
        if !comes_to(it) {
            return false;
        }
    }
    true
}

/// A read that ends early with nothing.
const EARLY: Comes = Comes::Nothing(0);

/// A read that waits, and gets nothing.
const QUIET: Comes = Comes::Nothing(100);

/// A byte that comes soon, and one that comes late.
const SOON: Comes = Comes::Byte(20);

const LATE: Comes = Comes::Byte(3000);

/// A line that hung up is told from one that only looks so.
static HUNG_UP: [Waited; 3] = [
    (&[EARLY], Ok(Got::Closed), 0, "hung up"),
    (
        &[EARLY, EARLY, EARLY, EARLY, QUIET],
        Ok(Got::Quiet),
        1000,
        "none",
    ),
    (&[Comes::Error(0, 5)], Ok(Got::Closed), 0, "hung up"),
];

/// A line whose reads wait for ever is told from one whose reads are known to end.
static ENDLESS: [Waited; 2] = [
    (&[LATE], Err(PortFault), 3000, "endless"),
    (&[QUIET, LATE], Ok(Got::Bytes(1)), 3100, "none"),
];

/// Reads that get nothing, a byte, or an error.
static OTHERS: [Waited; 4] = [
    (&[QUIET], Ok(Got::Quiet), 1000, "none"),
    (&[QUIET, SOON], Ok(Got::Bytes(1)), 120, "none"),
    // an interrupted read, one that did not wait, and a byte
    (
        &[Comes::Error(7, 4), Comes::Error(7, 11), Comes::Byte(7)],
        Ok(Got::Bytes(1)),
        21,
        "none",
    ),
    // one that failed
    (&[Comes::Error(7, 9)], Err(PortFault), 7, "system"),
];

/// One late byte behind those in time is heard, and two in a row tell that reads wait for ever.
static STALLS: [Comes; 5] = [SOON, LATE, SOON, LATE, LATE];

/// Whether they are told so.
fn tell_stalls() -> bool {
    let moment = Cell::new(0);
    let mut wire = wire(&STALLS, &moment);
    dripped(&mut wire, &mut [0; 8]) == 4 && word(wire.fault()) == "endless"
}

#[test]
fn what_a_wait_comes_to(rt: HostRuntime) {
    assert!(rt; all_come_to(&HUNG_UP));
    assert!(rt; all_come_to(&ENDLESS));
    assert!(rt; tell_stalls());
    assert!(rt; all_come_to(&OTHERS));
}

/// A clock that stands still ends no wait, and the count of reads does.
static STANDS_STILL: [Waited; 1] = [(&[Comes::Error(0, 4)], Ok(Got::Quiet), 0, "none")];

#[test]
fn a_clock_that_stands_still(rt: HostRuntime) {
    assert!(rt; all_come_to(&STANDS_STILL));
}

/// Whether a wait of a second gets a byte.
fn gets_byte<W: Wire>(wire: &mut W, buf: &mut [u8; 8]) -> bool {
    reads(wire, 1000, buf, Ok(Got::Bytes(1)))
}

/// How many reads get a byte before one finds the line quiet.
fn dripped<W: Wire>(wire: &mut W, buf: &mut [u8; 8]) -> u32 {
    for count in 0..1000 {
        if !gets_byte(wire, buf) {
            return count;
        }
    }
    1000
}

/// Whether bytes that drip on a line are heard for so long, from the first on and from a write on.
fn drips_on<W: Wire>(wire: &mut W, buf: &mut [u8; 8]) -> bool {
    dripped(wire, buf) == 35
        && gets_byte(wire, buf)
        && takes(wire, b"bytes")
        && dripped(wire, buf) == 35
}

/// Reads of which each second one gets a byte.
static DRIPS: [Comes; 2] = [Comes::Nothing(100), Comes::Byte(900)];

/// The same, of a terminal that does not fail.
fn drips(moment: &Cell<u64>) -> bool {
    let mut wire = wire(&DRIPS, moment);
    drips_on(&mut wire, &mut [0; 8]) && word(wire.fault()) == "none"
}

/// Bytes that come one after another, with no pause as long as a wait, are heard for 30 seconds at
/// a time by a receiver, or from a write on.
#[test]
fn bytes_that_drip(rt: HostRuntime) {
    let moment = Cell::new(0);
    assert!(rt; drips(&moment));
}
