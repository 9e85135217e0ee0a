//! Sockets on 127.0.0.1: both ends of one connection, in one test. The calls stand in functions
//! that tell a proof nothing, so that a test costs it little.

ghost use Rattle.std.specs.Prelude.{◌<◌};

use super::folders::same;
use std::alloc::Global;
use std::io::{ErrorKind, Read, Write};
use std::net::{TcpListener, TcpStream};
use std::test::Fail;
use std::time::{Duration, Instant};
use std::{io, thread};
use ym_host::{SocketCarrier, SocketWire};
use ym_line::{Carrier, CarryFault, Way};
use ym_link::{Got, PortFault};
use ym_port::{Role, Wire};

/// Both ends of a new connection.
fn pair(rt: &HostRuntime) -> io::Result<(TcpStream, TcpStream)> {
    let listener = TcpListener::bind(rt, "127.0.0.1:0")?;
    let near = TcpStream::connect(rt, listener.local_addr()?)?;
    let (far, _) = listener.accept()?;
    Ok((near, far))
}

/// A new connection: its near end, and the other one as a line.
fn wire<'r>(rt: &'r HostRuntime) -> Result<(TcpStream, SocketWire<&'r HostRuntime>), Fail> {
    let (near, far) = pair(rt)?;
    Ok((near, SocketWire::new(rt, far, Role::Sender)))
}

/// Whether a read of a line, which waits so many milliseconds, comes to this.
pub(super) fn reads<W: Wire>(
    wire: &mut W,
    millis: u64,
    buf: &mut [u8],
    want: Result<Got, PortFault>,
) -> bool {
    if buf.is_empty() {
        return false;
    }
    wire.read(millis, buf) == want
}

/// Whether it gets this.
fn gets<W: Wire>(wire: &mut W, millis: u64, buf: &mut [u8], want: Got) -> bool {
    reads(wire, millis, buf, Ok(want))
}

/// Whether a line takes these bytes.
pub(super) fn takes<W: Wire>(wire: &mut W, bytes: &[u8]) -> bool {
    wire.write(bytes).is_ok()
}

/// Writes bytes to one end of a connection.
fn write(stream: &mut TcpStream, bytes: &[u8]) -> io::Result<()> {
    stream.write_all(bytes)
}

/// Whether a read of so many milliseconds finds the line quiet, and not before nor much later.
fn is_quiet<W: Wire>(rt: &HostRuntime, wire: &mut W, millis: u64) -> bool {
    let mut buf = [0; 8];
    let Ok(start) = Instant::now(rt) else {
        return false;
    };
    let is_quiet = gets(wire, millis, &mut buf, Got::Quiet);
    let least = u128::from(millis.saturating_sub(10));
    match start.elapsed(rt) {
        Ok(took) => is_quiet && took.as_millis() >= least && took.as_millis() < 60_000,
        Err(_) => false,
    }
}

/// Whether a line reads what was written to it, and then is quiet.
fn reads_what_is_there<W: Wire>(rt: &HostRuntime, near: &mut TcpStream, wire: &mut W) -> bool {
    let mut buf = [0; 8];
    write(near, b"abcdefghij").is_ok()
        && gets(wire, 100, &mut buf, Got::Bytes(8))
        && same(&buf, b"abcdefgh")
        && gets(wire, 100, &mut buf, Got::Bytes(2))
        && buf.starts_with(b"ij")
        && is_quiet(rt, wire, 100)
        && is_quiet(rt, wire, 3000)
        // what is there is read without a wait
        && gets(wire, 0, &mut buf, Got::Quiet)
}

/// Whether a line is closed, and stays so.
fn is_closed<W: Wire>(wire: &mut W) -> bool {
    let mut buf = [0; 8];
    gets(wire, 100, &mut buf, Got::Closed) && gets(wire, 3000, &mut buf, Got::Closed)
}

/// Whether a line reads what was written to it, and is closed with its connection.
fn reads_to_the_end<W: Wire>(rt: &HostRuntime, mut near: TcpStream, wire: &mut W) -> bool {
    let reads = reads_what_is_there(rt, &mut near, wire);
    drop(near);
    reads && is_closed(wire)
}

#[test]
fn a_line_reads_what_is_there(rt: HostRuntime) -> Result<(), Fail> {
    let (near, mut wire) = wire(&rt)?;
    assert!(rt; reads_to_the_end(&rt, near, &mut wire));
    Ok(())
}

/// The moment that the clock of a line tells.
fn moment<W: Wire>(wire: &mut W) -> u64 {
    wire.moment()
}

/// Whether the clock of a line goes on with the host's.
fn goes_on<W: Wire>(rt: &HostRuntime, wire: &mut W) -> bool {
    let before = moment(wire);
    thread::sleep(rt, Duration::from_millis(50));
    let after = moment(wire);
    after >= before.saturating_add(50) && after < before.saturating_add(60_000)
}

/// The clock of a line goes on with the host's.
#[test]
fn a_line_tells_the_moment(rt: HostRuntime) -> Result<(), Fail> {
    let (_near, mut wire) = wire(&rt)?;
    assert!(rt; goes_on(&rt, &mut wire));
    Ok(())
}

/// Whether these bytes come to one end of a connection.
fn comes(stream: &mut TcpStream, want: &[u8; 5]) -> bool {
    let mut buf = [0; 5];
    stream.read_exact(&mut buf).is_ok() && same(&buf, want)
}

/// Whether what a line takes comes to its peer.
fn hands_on<W: Wire>(near: &mut TcpStream, wire: &mut W) -> bool {
    takes(wire, b"abc")
        && takes(wire, b"")
        && takes(wire, b"de")
        && comes(near, b"abcde")
        // a peer that ends with bytes unread is closed as well
        && takes(wire, b"unread")
}

/// The same, and then it is closed with its connection.
fn hands_on_to_the_end<W: Wire>(mut near: TcpStream, wire: &mut W) -> bool {
    let hands_on = hands_on(&mut near, wire);
    drop(near);
    hands_on && gets(wire, 3000, &mut [0; 5], Got::Closed)
}

#[test]
fn a_line_writes(rt: HostRuntime) -> Result<(), Fail> {
    let (near, mut wire) = wire(&rt)?;
    assert!(rt; hands_on_to_the_end(near, &mut wire));
    Ok(())
}

/// Whether a line refuses in the end to take what nobody reads, before it took 65 MB.
fn refuses<W: Wire>(wire: &mut W) -> bool {
    let bytes = [0; 65536];
    for _ in 0..1000 {
        if !takes(wire, &bytes) {
            return true;
        }
    }
    false
}

/// A write to a peer that never reads makes no headway in the end, and tells that it took too long.
#[test]
fn a_write_without_headway_fails(rt: HostRuntime) -> Result<(), Fail> {
    let (_near, mut wire) = wire(&rt)?;
    assert!(rt; wire.fault().is_none());
    assert!(rt; refuses(&mut wire));
    assert!(rt; matches!(wire.fault(), Some(why) if why.kind() == ErrorKind::TimedOut));
    Ok(())
}

/// What carrying these bytes gives.
fn carry<C: Carrier>(
    carrier: &mut C,
    alloc: Global,
    way: Way,
    bytes: &[u8],
) -> Result<bool, CarryFault> {
    let mut into = Vec::new(alloc);
    into.push(9)?;
    carrier.carry(way, bytes, &mut into)?;
    Ok(into.as_slice() == bytes)
}

/// Whether a carrier has handed on these bytes, and no others.
fn carries<C: Carrier>(carrier: &mut C, alloc: Global, way: Way, bytes: &[u8]) -> bool {
    carry(carrier, alloc, way, bytes) == Ok(true)
}

/// Whether a carrier has failed to hand these bytes on.
fn fails<C: Carrier>(carrier: &mut C, alloc: Global, way: Way, bytes: &[u8]) -> bool {
    carry(carrier, alloc, way, bytes) == Err(CarryFault::Device)
}

/// A carrier over a new connection.
fn carrier(rt: &HostRuntime) -> io::Result<SocketCarrier> {
    let (near, far) = pair(rt)?;
    Ok(SocketCarrier::new(near, far))
}

/// Whether a carrier hands on what it is given, either way.
fn passes<C: Carrier>(carrier: &mut C, alloc: Global) -> bool {
    let long = [0x5A; 2048];
    carries(carrier, alloc, Way::There, b"abc")
        && carries(carrier, alloc, Way::Back, b"\x06C")
        && carries(carrier, alloc, Way::There, b"")
        && carries(carrier, alloc, Way::There, &long)
        && carries(carrier, alloc, Way::Back, &long)
        && carries(carrier, alloc, Way::Back, b"")
        && carries(carrier, alloc, Way::There, b"\x04")
}

#[test]
fn a_carrier_passes_bytes_both_ways(rt: HostRuntime) -> Result<(), Fail> {
    let mut carrier = carrier(&rt)?;
    assert!(rt; passes(&mut carrier, rt.alloc()));
    Ok(())
}

/// The other way.
fn other(way: Way) -> Way {
    match way {
        Way::There => Way::Back,
        Way::Back => Way::There,
    }
}

/// A carrier over a connection in which a byte is under way already.
fn strayed(rt: &HostRuntime, way: Way) -> io::Result<SocketCarrier> {
    let (mut near, mut far) = pair(rt)?;
    match way {
        Way::There => write(&mut near, &[0])?,
        Way::Back => write(&mut far, &[0])?,
    }
    Ok(SocketCarrier::new(near, far))
}

/// Whether a carrier fails at the byte that is under way this way.
fn compares<C: Carrier>(carrier: &mut C, alloc: Global, way: Way) -> bool {
    carries(carrier, alloc, other(way), b"abc")
        && fails(carrier, alloc, way, b"abc")
        // and every later one fails, also of no bytes
        && fails(carrier, alloc, way, b"abc")
        && fails(carrier, alloc, way, b"")
        && fails(carrier, alloc, other(way), b"abc")
        && fails(carrier, alloc, other(way), b"")
}

/// The same, of a new connection.
fn finds_stray(rt: &HostRuntime, way: Way) -> bool {
    match strayed(rt, way) {
        Ok(mut carrier) => compares(&mut carrier, rt.alloc(), way),
        Err(_) => false,
    }
}

/// The bytes go by the connection: what is written to it beforehand is in their way.
#[test]
fn a_carrier_compares_what_came(rt: HostRuntime) {
    assert!(rt; finds_stray(&rt, Way::There));
    assert!(rt; finds_stray(&rt, Way::Back));
}

/// Whether a carrier refuses more than a delivery, and all that comes behind it.
fn is_full<C: Carrier>(carrier: &mut C, alloc: Global) -> bool {
    fails(carrier, alloc, Way::There, &[0; 2049]) && fails(carrier, alloc, Way::There, &[0; 2048])
}

#[test]
fn a_carrier_takes_no_more_than_a_delivery(rt: HostRuntime) -> Result<(), Fail> {
    let mut carrier = carrier(&rt)?;
    assert!(rt; is_full(&mut carrier, rt.alloc()));
    Ok(())
}

/// How often one end of a connection takes no more, of a thousand writes, since the other end reads
/// nothing. It ends at the third.
fn refusals(stream: &mut TcpStream) -> u32 {
    let bytes = [0; 65536];
    let mut refused = 0u32;
    for _ in 0..1000 {
        if write(stream, &bytes).is_err() {
            refused = refused.saturating_add(1);
        }
        if refused == 3 {
            return refused;
        }
    }
    refused
}

/// Writes to one end of a connection until it takes no more.
fn is_filled(stream: &mut TcpStream) -> bool {
    let timeout = Some(Duration::from_millis(100));
    stream.set_write_timeout(timeout).is_ok() && refusals(stream) == 3
}

/// A carrier over a connection that takes nothing more this way.
fn filled(rt: &HostRuntime, way: Way) -> Option<SocketCarrier> {
    let Ok((mut near, mut far)) = pair(rt) else {
        return None;
    };
    let is_full = match way {
        Way::There => is_filled(&mut near),
        Way::Back => is_filled(&mut far),
    };
    if is_full {
        Some(SocketCarrier::new(near, far))
    } else {
        None
    }
}

/// Whether a carrier fails to hand on a delivery this way, once it has waited for 9 seconds.
fn waits<C: Carrier>(rt: &HostRuntime, carrier: &mut C, way: Way) -> bool {
    let Ok(start) = Instant::now(rt) else {
        return false;
    };
    let has_failed = fails(carrier, rt.alloc(), way, &[1; 2048]);
    match start.elapsed(rt) {
        Ok(took) => has_failed && took.as_millis() >= 9000,
        Err(_) => false,
    }
}

/// Whether a carry ends this way where there is no room.
fn ends(rt: &HostRuntime, way: Way) -> bool {
    match filled(rt, way) {
        Some(mut carrier) => waits(rt, &mut carrier, way),
        None => false,
    }
}

/// Bytes that the far end never reads leave no room for a delivery, and the carry ends all the
/// same, once it has waited.
#[test]
fn a_carry_without_headway_fails(rt: HostRuntime) {
    assert!(rt; ends(&rt, Way::There));
    assert!(rt; ends(&rt, Way::Back));
}
