//! The ends over sockets, both of one connection in one test.

use std::alloc::Global;
use std::io;
use std::io::{Read, Write};
use std::net::{TcpListener, TcpStream};
use std::test::Fail;
use ym_frame::{Item, encode};
use ym_header::write_end;
use ym_host::{SocketCarrier, SocketWire};
use ym_line::{Carrier, LineFault};
use ym_link::{Port, Receiver, RecvState, receive_over};
use ym_play::{PlayFault, play_script};
use ym_port::{Role, TimedPort, Wire};

/// Both ends of a new connection.
fn pair(rt: &HostRuntime) -> io::Result<(TcpStream, TcpStream)> {
    let listener = TcpListener::bind(rt, "127.0.0.1:0")?;
    let near = TcpStream::connect(rt, listener.local_addr()?)?;
    let (far, _) = listener.accept()?;
    Ok((near, far))
}

/// Whether a receiver over this port, to which the end block comes, finishes.
fn finishes<P: Port>(port: &mut P, alloc: Global) -> bool {
    let mut receiver = Receiver::new(alloc);
    receive_over(port, &mut receiver) == Ok(()) && receiver.state() == RecvState::Finished
}

/// The same, over the program's port of a line.
fn finishes_on<W: Wire + Drop>(wire: W, alloc: Global) -> bool {
    finishes(&mut TimedPort::new(wire, Role::Receiver), alloc)
}

/// Whether bytes are written to one end of a connection.
fn writes(near: &mut TcpStream, bytes: &[u8]) -> bool {
    near.write_all(bytes).is_ok()
}

/// Whether an ACK comes to one end of a connection.
fn is_answered(near: &mut TcpStream) -> bool {
    let mut reply = [0; 1];
    near.read_exact(&mut reply).is_ok() && reply == [0x06]
}

/// Whether a receiver at one end of a connection takes the end block, and answers.
fn takes_the_end(rt: &HostRuntime, near: &mut TcpStream, far: TcpStream) -> bool {
    writes(near, encode(&Item::Block(write_end())).as_bytes())
        && finishes_on(SocketWire::new(rt, far, Role::Receiver), rt.alloc())
        && is_answered(near)
}

#[test]
fn a_receiver_over_a_socket(rt: HostRuntime) -> Result<(), Fail> {
    let (mut near, far) = pair(&rt)?;
    assert!(rt; takes_the_end(&rt, &mut near, far));
    Ok(())
}

/// Whether a session ends in a fault of its carrier.
fn is_carrier_fault<C: Carrier>(alloc: Global, carrier: &mut C) -> bool {
    match play_script(alloc, b"file a -\nok 3\n", carrier) {
        Ok(_) => false,
        Err(fault) => fault == PlayFault::Line(LineFault::Carrier),
    }
}

/// What the session hands on goes by the sockets.
#[test]
fn a_stray_byte_in_the_way(rt: HostRuntime) -> Result<(), Fail> {
    let (mut near, far) = pair(&rt)?;
    assert!(rt; writes(&mut near, &[0]));
    assert!(rt; is_carrier_fault(rt.alloc(), &mut SocketCarrier::new(near, far)));
    Ok(())
}
