//! One wait: the reads of the line below that it is made of, and what of them is to be heard.

ghost use Rattle.std.specs.Prelude.{◌≡◌, ◌<◌, ◌≤◌, ℕ, Ok, Some, OnOk, OnErr, length, take};
ghost use Rattle.ym_file.specs.Counts.{Counted};
ghost use Rattle.ym_link.specs.Port.{seen_of};
ghost use Rattle.ym_port.specs.declared.line.TheConstants.{MOST_READS};
ghost use Rattle.ym_port.specs.TimedPort as table;
ghost use Rattle.ym_port.specs.Wire.{Tape, moment_of, after_moment};

use crate::line::{ACK, Line, MOST_READS};
use crate::wire::Wire;
use ym_link::{Got, PortFault};
use ym_timing as timing;
use ym_timing::Vain;

/// A wait, and when it began.
#[derive(Clone, Copy)]
struct Began {
    wait: timing::Expected,
    start: u64,
}

/// Takes that a wait is over.
// here and below: what it answers is built where it is handed on
#[inline(always)]
fn give_up(line: &mut Line, wait: timing::Expected, buf: &mut [u8]) -> Option<Got>
    requires { 0 < length buf.old }
    ensures count { (n : ℕ) → result ≡ Some (Got.Bytes n) → (0 < n) × (n ≤ length buf.old) }
    ensures answer { table.answer_of (Ok result) buf.new
        ≡ table.vain_answers (table.vain_at wait line.old) }
    ensures line { line.new ≡ table.gives_up wait line.old }
    ensures role { line.new.timing.role ≡ line.old.timing.role }
{
    match line.give_up(wait) {
        Vain::Again => None,
        Vain::Ack => {
            buf[0] = ACK;
            Some(Got::Bytes(1))
        }
        Vain::Quiet => Some(Got::Quiet),
    }
}

/// Takes that nothing of what came is to be heard, in a wait that began then.
#[inline(always)]
fn take_unheard(line: &mut Line, began: Began, buf: &mut [u8]) -> Option<Got>
    requires { 0 < length buf.old }
    ensures count { (n : ℕ) → result ≡ Some (Got.Bytes n) → (0 < n) × (n ≤ length buf.old) }
    ensures exact { (t : Tape) → table.unheard began.wait began.start line.old t
        ≡ record { answer = table.answer_of (Ok result) buf.new; line = line.new; tape = t } }
    ensures role { line.new.timing.role ≡ line.old.timing.role }
{
    if line.is_over(began.wait, began.start) {
        give_up(line, began.wait, buf)
    } else {
        None
    }
}

/// Takes what a read brought, in a wait that began then, and answers how much of it is to be
/// heard.
#[inline(always)]
fn take_bytes<W: Wire>(
    wire: &mut W,
    line: &mut Line,
    began: Began,
    buf: &mut [u8],
    count: usize,
) -> Option<Got>
    requires some { 0 < count }
    requires room { count ≤ table.room_for line.old.timing.role (length buf.old) }
    ensures count { (n : ℕ) → result ≡ Some (Got.Bytes n) → (0 < n) × (n ≤ length buf.old) }
    ensures exact { (u : Tape) → W.tells wire.new u → (t : Tape) × W.tells wire.old t
        × (table.brings (take count buf.old) began.wait began.start line.old t
        ≡ record { answer = table.answer_of (Ok result) buf.new; line = line.new; tape = u }) }
    ensures role { line.new.timing.role ≡ line.old.timing.role }
    ensures calm { W.failures wire.new ≡ W.failures wire.old }
{
    let now = wire.moment();
    line.look(now);
    let heard = line.hear(buf, count);
    if 0 < heard {
        return Some(Got::Bytes(heard));
    }
    take_unheard(line, began, buf)
}

/// Takes that a read waited in vain until then.
#[inline(always)]
fn take_quiet<W: Wire>(
    wire: &mut W,
    line: &mut Line,
    wait: timing::Expected,
    until: u64,
    buf: &mut [u8],
) -> Option<Got>
    requires { 0 < length buf.old }
    ensures count { (n : ℕ) → result ≡ Some (Got.Bytes n) → (0 < n) × (n ≤ length buf.old) }
    ensures exact { (u : Tape) → W.tells wire.new u → (t : Tape) × W.tells wire.old t
        × (table.ends wait (table.passed until (moment_of t) line.old) (after_moment t)
        ≡ record { answer = table.answer_of (Ok result) buf.new; line = line.new; tape = u }) }
    ensures role { line.new.timing.role ≡ line.old.timing.role }
    ensures calm { W.failures wire.new ≡ W.failures wire.old }
{
    line.pass(until, wire.moment());
    give_up(line, wait, buf)
}

/// Takes that the line closed.
#[cold]
fn take_closed(line: &mut Line, wait: timing::Expected, buf: &mut [u8]) -> Got
    requires { 0 < length buf.old }
    ensures count { (n : ℕ) → result ≡ Got.Bytes n → (0 < n) × (n ≤ length buf.old) }
    ensures answer { seen_of (Ok result) buf.new ≡ table.closed_answers line.old }
    ensures line { line.new ≡ table.closed wait line.old }
    ensures role { line.new.timing.role ≡ line.old.timing.role }
{
    if line.close(wait) {
        buf[0] = ACK;
        Got::Bytes(1)
    } else {
        Got::Closed
    }
}

/// One read of the line below, of a wait that began then: what it comes to, or nothing where it
/// goes on.
#[inline(always)]
fn read_once<W: Wire>(
    wire: &mut W,
    line: &mut Line,
    wait: timing::Expected,
    start: u64,
    buf: &mut [u8],
) -> Result<Option<Got>, PortFault>
    requires { 0 < table.room_for line.old.timing.role (length buf.old) }
    ensures count { (n : ℕ) → result ≡ Ok (Some (Got.Bytes n)) → (0 < n) × (n ≤ length buf.old) }
    ensures exact { (u : Tape) → W.tells wire.new u → (t : Tape) × W.tells wire.old t
        × (table.step wait start (table.room_for line.old.timing.role (length buf.old)) line.old t
        ≡ record { answer = table.answer_of result buf.new; line = line.new; tape = u }) }
    ensures role { line.new.timing.role ≡ line.old.timing.role }
    ensures ok { OnOk result (W.failures wire.new ≡ W.failures wire.old) }
    ensures failed { OnErr result (Counted (W.failures wire.old) (W.failures wire.new)) }
{
    let until = line.until(wait, start);
    let millis = until.saturating_sub(line.clock.at);
    let room = line.room(buf.len());
    match wire.read(millis, &mut buf[..room]) {
        Ok(Got::Bytes(n)) => Ok(take_bytes(wire, line, Began { wait, start }, buf, n)),
        Ok(Got::Quiet) => Ok(take_quiet(wire, line, wait, until, buf)),
        Ok(Got::Closed) => Ok(Some(take_closed(line, wait, buf))),
        Err(fault) => Err(fault),
    }
}

/// Reads until something is to be heard, or the wait that began then is over.
#[inline(always)]
pub fn read_on<W: Wire>(
    wire: &mut W,
    line: &mut Line,
    wait: timing::Expected,
    start: u64,
    buf: &mut [u8],
) -> Result<Got, PortFault>
    requires { 0 < table.room_for line.old.timing.role (length buf.old) }
    ensures count { (n : ℕ) → result ≡ Ok (Got.Bytes n) → (0 < n) × (n ≤ length buf.old) }
    ensures exact { (u : Tape) → W.tells wire.new u → (t : Tape) × W.tells wire.old t
        × (table.reads MOST_READS wait start
        (table.room_for line.old.timing.role (length buf.old)) line.old t
        ≡ table.gives (seen_of result buf.new) line.new u) }
    ensures ok { OnOk result (W.failures wire.new ≡ W.failures wire.old) }
    ensures failed { OnErr result (Counted (W.failures wire.old) (W.failures wire.new)) }
{
    for _done in 0..MOST_READS {
        match read_once(wire, line, wait, start, buf) {
            Ok(Some(got)) => return Ok(got),
            Ok(None) => {}
            Err(fault) => return Err(fault),
        }
    }
    Ok(Got::Quiet)
}
