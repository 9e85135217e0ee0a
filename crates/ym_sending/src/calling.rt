//! The call of `send`: a connection to whoever listens.

use std::io::Write;
use std::net::{Ipv4Addr, Net, SocketAddr, TcpStream};
use std::time::{Clock, Duration};
use std::{io, thread};
use ym_teller::Teller;
use ym_text::LineMessage;

/// How many milliseconds a sender waits for somebody to answer its call.
const CALL_WAIT_MS: u64 = 10_000;

/// How often a sender calls again where nobody listens yet, and how many milliseconds it waits
/// before: two seconds in all.
const CALLS: u32 = 40;

const CALL_MS: u64 = 50;

/// A connection to whoever listens at this address now.
fn connect_once<R: Net<Stream = TcpStream>>(rt: &R, address: SocketAddr) -> io::Result<TcpStream> {
    let wait = Duration::from_millis(CALL_WAIT_MS);
    let stream = TcpStream::connect_timeout(rt, &address, wait)?;
    // Where nobody listens, the system may by chance connect a socket to itself.
    if stream.local_addr()? == address {
        return Err(io::Error::from(io::ErrorKind::ConnectionRefused));
    }
    Ok(stream)
}

/// The same, where nobody listens yet called again for two seconds: who starts both ends at once
/// need not start the receiver first.
fn connect<R: Net<Stream = TcpStream> + Clock>(rt: &R, port: u16) -> io::Result<TcpStream> {
    let address = SocketAddr::from((Ipv4Addr::LOCALHOST, port));
    for _call in 0..CALLS {
        match connect_once(rt, address) {
            Err(error) if error.kind() == io::ErrorKind::ConnectionRefused => {
                thread::sleep(rt, Duration::from_millis(CALL_MS));
            }
            done => return done,
        }
    }
    connect_once(rt, address)
}

/// The same, with what it does and why it failed told.
pub(crate) fn connect_telling<R: Net<Stream = TcpStream> + Clock, E: Write + Drop>(
    rt: &R,
    port: u16,
    teller: &mut Teller<E>,
) -> io::Result<TcpStream> {
    teller.tell(LineMessage::Connecting(port));
    let connected = connect(rt, port);
    if let Err(error) = &connected {
        teller.tell(LineMessage::of_error(port, error));
    }
    connected
}
