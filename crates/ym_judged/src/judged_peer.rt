//! The way to a peer that is tried.

ghost use Rattle.std.specs.Prelude.{◌≡◌, IfErr, IfOk, None, false, option_map};
ghost use Rattle.std.specs.IoError.{error_kind};
ghost use Rattle.std.specs.Result.{IsErrAnd};
ghost use Rattle.ym_answer.specs.declared.command_fault.CommandFault.TheVariants.{Device};
ghost use Rattle.ym_judged.specs.Judged.{HasWay, IsMidway, failure_in, is_nobody, is_of_peer};

use crate::judging::PeerOrder;
use std::alloc::{AllocError, Global};
use std::fmt::Display;
use std::fs::{File, Files};
use std::io::{ErrorKind, IsTerminal};
use std::net::{Ipv4Addr, Net, SocketAddr, TcpListener, TcpStream};
use std::time::{Clock, Duration};
use std::{io, thread};
use ym_answer::CommandFault;
use ym_ends::{LineWords, ToldWire, why_closed};
use ym_host::{SocketWire, TtyWire, open_tty};
use ym_judge::{Case, Peer};
use ym_judging::{Outcome, try_receiver, try_sender};
use ym_port::Role;
use ym_streams::Output;
use ym_text::{EndMessage, LineMessage, Reason};
use ym_words::port_number;

/// How often it is looked for a peer, and how many milliseconds pass between: 30 seconds in all.
const LOOKS: u32 = 600;

const LOOK_MS: u64 = 50;

/// The way to a peer.
#[derive(Drop)]
pub(crate) enum Access {
    /// It listens at this port.
    Calling(u16),
    /// It connects to this port.
    Listening(TcpListener, u16),
    /// It is at the other end of this line.
    Serial(File),
}

/// Tells why nothing can be played over a line.
fn refuse_line<T, M: Display + Drop, E: Output>(err: &mut E, why: M) -> Result<T, CommandFault>
    ensures { IsErrAnd result (λ fault. fault ≡ Device) }
{
    err.put_line(why)?;
    Err(CommandFault::Device)
}

/// Where a sender is waited for, or why it cannot be, which is told.
fn listen<R: Net<Listener = TcpListener, Stream = TcpStream>, E: Output>(
    rt: &R,
    port: u16,
    err: &mut E,
) -> Result<Access, CommandFault> {
    match TcpListener::bind(rt, SocketAddr::from((Ipv4Addr::LOCALHOST, port))) {
        Ok(listener) => {
            listener.set_nonblocking(true)?;
            Ok(Access::Listening(listener, port))
        }
        Err(error) => refuse_line(err, LineMessage::of_error(port, &error)),
    }
}

/// The line at this path, or why it cannot be opened, which is told.
fn open<R: Files<File = File>, E: Output>(
    rt: &R,
    path: &str,
    err: &mut E,
) -> Result<Access, CommandFault>
    ensures { IfErr result (λ why. why ≡ Device) }
{
    match open_tty(rt, path) {
        Ok(file) => Ok(Access::Serial(file)),
        Err(fault) => refuse_line(err, why_closed(path, &fault)),
    }
}

/// The way to a peer that its words tell, or why there is none. That is told where the words are
/// right.
pub(crate) fn access_of<R, E>(
    rt: &R,
    asked: PeerOrder<'_>,
    err: &mut E,
) -> Result<Access, CommandFault>
where
    R: Files<File = File> + Net<Listener = TcpListener, Stream = TcpStream>,
    E: Output,
    ensures { HasWay (option_map (λ w. w.now) asked.entry.order.port)
        (option_map (λ w. w.now) asked.entry.order.line) result }
{
    let order = asked.order;
    match (order.port, order.line) {
        (Some(text), None) => match (port_number(text), asked.peer) {
            (Some(port), Peer::Receiver) => Ok(Access::Calling(port)),
            (Some(port), Peer::Sender) => listen(rt, port, err),
            (None, _) => Err(CommandFault::Port),
        },
        (None, Some(path)) => open(rt, path, err),
        _ => Err(CommandFault::Device),
    }
}

/// Sees, where a peer is at a terminal, that it has not hung up: then it is none any more.
pub(crate) fn see_line<E: Output>(access: &Access, err: &mut E) -> Result<(), CommandFault>
    ensures { IfErr result (λ why. IsMidway why) }
{
    match access {
        Access::Serial(terminal) if !terminal.is_terminal() => {
            refuse_line(err, EndMessage::LineHungUp)
        }
        _ => Ok(()),
    }
}

/// Whether such an error says no more than that nobody is there yet.
fn is_nobody(error: &io::Error) -> bool
    ensures { result ≡ is_nobody (error_kind error.now) }
{
    matches!(
        error.kind(),
        ErrorKind::WouldBlock
            | ErrorKind::Interrupted
            | ErrorKind::ConnectionRefused
            | ErrorKind::ConnectionReset
            | ErrorKind::ConnectionAborted
            | ErrorKind::TimedOut
    )
}

/// A connection to whoever listens at this port, when somebody does. Why none can be made is told.
fn call<R: Net<Stream = TcpStream> + Clock, E: Output>(
    rt: &R,
    port: u16,
    err: &mut E,
) -> Result<Option<TcpStream>, CommandFault>
    ensures { IfErr result (λ why. IsMidway why) }
{
    let address = SocketAddr::from((Ipv4Addr::LOCALHOST, port));
    for _ in 0..LOOKS {
        match TcpStream::connect(rt, address) {
            Ok(stream) => return Ok(Some(stream)),
            Err(error) if is_nobody(&error) => {}
            Err(error) => return refuse_line(err, LineMessage::of_error(port, &error)),
        }
        thread::sleep(rt, Duration::from_millis(LOOK_MS));
    }
    Ok(None)
}

/// The connection of whoever connects to this port, when somebody does. Why none can be had is
/// told.
fn take<R: Clock, E: Output>(
    rt: &R,
    listener: &TcpListener,
    port: u16,
    err: &mut E,
) -> Result<Option<TcpStream>, CommandFault>
    ensures { IfErr result (λ why. IsMidway why) }
{
    for _ in 0..LOOKS {
        match listener.accept() {
            Ok((stream, _)) => return Ok(Some(stream)),
            Err(error) if is_nobody(&error) => {}
            Err(error) => return refuse_line(err, LineMessage::of_error(port, &error)),
        }
        thread::sleep(rt, Duration::from_millis(LOOK_MS));
    }
    Ok(None)
}

/// As what the peer is tried.
fn role_beside(peer: Peer) -> Role {
    match peer {
        Peer::Sender => Role::Receiver,
        Peer::Receiver => Role::Sender,
    }
}

/// Whether a call of a line fails so since the peer has closed its end, or takes nothing. A
/// terminal that has hung up looks as one whose peer has closed its end.
fn is_of_peer(why: EndMessage) -> bool
    ensures { result ≡ is_of_peer why }
{
    matches!(
        why,
        EndMessage::LineHungUp
            | EndMessage::LineRefused(Reason::Closed | Reason::Broken | Reason::Late)
    )
}

/// Why the line failed in a case, where a read did, or what the peer did is not why.
fn failure_of(is_read_failed: bool, words: LineWords) -> Option<EndMessage>
    ensures why { result ≡ failure_in is_read_failed words }
    ensures read { result ≡ None → is_read_failed ≡ false }
{
    if is_read_failed || (words.has_failed && !is_of_peer(words.failed)) {
        Some(words.failed)
    } else {
        None
    }
}

/// Plays a case over this line. What comes of it, or why the line failed, which is told.
fn play_over<W: ToldWire, E: Output>(
    alloc: Global,
    wire: &mut W,
    peer: Peer,
    case: Case,
    err: &mut E,
) -> Result<Outcome, CommandFault>
    ensures why { IfErr result (λ why. IsMidway why) }
    ensures sound { IfOk result (λ outcome. outcome.has_failed ≡ false) }
{
    let outcome = match peer {
        Peer::Sender => try_sender(alloc, wire, case)?,
        Peer::Receiver => try_receiver(alloc, wire, case)?,
    };
    match failure_of(outcome.has_failed, wire.words()) {
        None => Ok(outcome),
        Some(why) => refuse_line(err, why),
    }
}

/// Plays a case to the peer, when it is there. What comes of it, or why the line failed, which is
/// told.
pub(crate) fn play_case<R, E>(
    rt: &R,
    alloc: Global,
    access: &Access,
    peer: Peer,
    case: Case,
    err: &mut E,
) -> Result<Outcome, CommandFault>
where
    R: Net<Listener = TcpListener, Stream = TcpStream> + Clock,
    E: Output,
    ensures why { IfErr result (λ why. IsMidway why) }
    ensures sound { IfOk result (λ outcome. outcome.has_failed ≡ false) }
{
    let role = role_beside(peer);
    let stream = match access {
        Access::Calling(port) => call(rt, *port, err)?,
        Access::Listening(listener, port) => take(rt, listener, *port, err)?,
        Access::Serial(terminal) => {
            let mut wire = TtyWire::new(rt, terminal, terminal, true, role);
            return play_over(alloc, &mut wire, peer, case, err);
        }
    };
    match stream {
        Some(stream) => {
            let mut wire = SocketWire::new(rt, stream, role);
            play_over(alloc, &mut wire, peer, case, err)
        }
        None => Ok(Outcome::unanswered()),
    }
}
