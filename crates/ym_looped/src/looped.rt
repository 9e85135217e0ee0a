//! `loop`: a session over a connection of the program to itself.

ghost use Rattle.std.specs.Prelude.{◌≡◌, IfOk};
ghost use Rattle.ym_answer.specs.Desk.{desk};
ghost use Rattle.ym_looped.specs.Looped.{LoopGives};
ghost use Rattle.ym_answer.specs.Page.{page};

use std::alloc::AllocGlobal;
use std::io;
use std::io::Write;
use std::net::{Ipv4Addr, Net, SocketAddr, TcpListener, TcpStream};
use ym_answer::CommandFault;
use ym_host::SocketCarrier;
use ym_play::session_over;
use ym_streams::{Input, Output, Outputs, Streams};
use ym_teller::Teller;
use ym_text::LineMessage;

/// Listens on 127.0.0.1 at this port, connects to it, and makes a carrier of both ends.
fn carrier_at<R: Net<Listener = TcpListener, Stream = TcpStream>>(
    rt: &R,
    port: u16,
) -> io::Result<SocketCarrier>
    ensures { IfOk result (λ carrier. carrier ≡ 0) }
{
    let address = SocketAddr::from((Ipv4Addr::LOCALHOST, port));
    let listener = TcpListener::bind(rt, address)?;
    let near = TcpStream::connect(rt, address)?;
    let (far, peer) = listener.accept()?;
    // Another program may have connected first.
    if peer != near.local_addr()? {
        return Err(io::Error::from(io::ErrorKind::AddrInUse));
    }
    Ok(SocketCarrier::new(near, far))
}

/// The same, with why there is none told.
fn looped_carrier<R: Net<Listener = TcpListener, Stream = TcpStream>, T: Write + Drop>(
    rt: &R,
    port: u16,
    teller: &mut Teller<T>,
) -> io::Result<SocketCarrier>
    ensures { IfOk result (λ carrier. carrier ≡ 0) }
{
    let made = carrier_at(rt, port);
    if let Err(error) = &made {
        teller.tell(LineMessage::of_error(port, error));
    }
    made
}

/// Plays the script that is read, as [`session_over`] does, over a connection of the program to
/// itself at this port of 127.0.0.1. Where no connection was made, nothing is read or written, and
/// the fault is still to be told.
pub fn looped_session<R, I: Input, O: Output, E: Output, T: Write + Drop>(
    rt: &R,
    port: u16,
    streams: &mut Streams<I, O, E>,
    teller: &mut Teller<T>,
) -> Result<u8, CommandFault>
where
    R: Net<Listener = TcpListener, Stream = TcpStream> + AllocGlobal,
    ensures { LoopGives
        (desk (I.remaining streams.old.input) (I.failures streams.old.input)
        (page (O.contents streams.old.outputs.out) (O.failures streams.old.outputs.out))
        (page (E.contents streams.old.outputs.err) (E.failures streams.old.outputs.err))) result
        (desk (I.remaining streams.new.input) (I.failures streams.new.input)
        (page (O.contents streams.new.outputs.out) (O.failures streams.new.outputs.out))
        (page (E.contents streams.new.outputs.err) (E.failures streams.new.outputs.err))) }
{
    let alloc = rt.alloc();
    let mut carrier = looped_carrier(rt, port, teller)?;
    let Streams { input, outputs } = streams;
    let Outputs { out, err } = outputs;
    Ok(session_over(alloc, input, out, err, &mut carrier))
}
