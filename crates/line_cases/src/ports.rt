//! Engines over ports that play a script.
//!
//! `send` and `receive` have what comes in the part behind them: `quiet`, `closed`, `fault` or
//! bytes, apart by spaces; `Nx` before one of them stands for N of it. The part behind that has the
//! bytes that are to be written; without it they are told. `both` has these two parts for a sender,
//! and then for a receiver. In front stand, in any order:
//!
//! - `NAME=BYTES`, a file to be sent, and `short` for short blocks alone;
//! - `once`, for a receiver that confirms once;
//! - `peer`, for the calls that promise against any peer;
//! - `write:N`, for a port whose write number N fails.

use super::spelled::{are_spelled, bytes_of, in_digits};
use super::words::{Unread, counted, has, number};
use std::alloc::Global;
use ym_file::{MemSource, Shape, Sink, Source};
use ym_frame::Bytes;
use ym_header::Stamp;
use ym_link::{
    EndFault, Event, Port, Receiver, ReceiverInto, ScriptPort, SendFile, Sender, SenderFrom,
    SourceFile, receive_over, send_over,
};
use ym_pair::{receive_from_any_peer, send_to_any_peer};

/// How an engine returned.
type Answer = Result<(), EndFault>;

// Ends are made and called at ports, sources and sinks of any kind: a call is dear to prove where
// it is made of one kind. These functions tell a proof nothing, and so cost it little.

/// A sender of a batch.
fn sender_from<S: Source + Drop>(
    batch: Vec<SourceFile<S>>,
    shape: Shape,
) -> Result<SenderFrom<S>, Unread> {
    SenderFrom::new(batch, shape).ok().ok_or(Unread)
}

fn run_sender<P: Port, S: Source>(
    port: &mut P,
    sender: &mut SenderFrom<S>,
    to_any_peer: bool,
) -> Answer {
    if to_any_peer {
        send_to_any_peer(port, sender)
    } else {
        send_over(port, sender)
    }
}

fn run_receiver<P: Port, K: Sink>(
    port: &mut P,
    receiver: &mut ReceiverInto<K>,
    from_any_peer: bool,
) -> Answer {
    if from_any_peer {
        receive_from_any_peer(port, receiver)
    } else {
        receive_over(port, receiver)
    }
}

/// Sends and receives by a call for both.
fn run_both<P: Port, S: Source, Q: Port, K: Sink>(
    near: &mut P,
    sender: &mut SenderFrom<S>,
    far: &mut Q,
    receiver: &mut ReceiverInto<K>,
) -> (Answer, Answer) {
    ym_pair::send_and_receive(near, sender, far, receiver)
}

/// Puts behind the text how a sender ended.
fn push_sender<S: Source>(
    text: &mut String,
    answer: Answer,
    sender: &SenderFrom<S>,
) -> Result<(), Unread> {
    let (state, done) = (sender.state(), sender.done());
    write!(text, "  {answer:?} {state:?}, {done} done")?;
    Ok(())
}

/// Puts behind the text how a receiver ended, which keeps so many files.
fn push_receiver<K: Sink>(
    text: &mut String,
    answer: Answer,
    receiver: &ReceiverInto<K>,
    files: usize,
) -> Result<(), Unread> {
    let state = receiver.state();
    write!(text, "  {answer:?} {state:?}, {files} kept")?;
    Ok(())
}

/// The shape of a sender's blocks.
pub fn shape_of(head: &str) -> Shape {
    if has(head, "short") {
        Shape::Short
    } else {
        Shape::Mixed
    }
}

/// The file that a word `NAME=BYTES` spells, whose fill number `fill` fails.
fn file_of(alloc: Global, name: &str, bytes: &str, fill: Option<u64>) -> Result<SendFile, Unread> {
    let source = MemSource::new(bytes_of(alloc, bytes)?, fill);
    Ok(SourceFile::from_source(alloc, name, source, Stamp::Nothing)?)
}

/// The files of a case.
pub fn batch_of(alloc: Global, head: &str) -> Result<Vec<SendFile>, Unread> {
    let fill = number(head, "fill");
    let mut batch = Vec::new(alloc);
    for word in head.split_whitespace() {
        if let Some((name, bytes)) = word.split_once('=') {
            batch.push(file_of(alloc, name, bytes, fill)?)?;
        }
    }
    Ok(batch)
}

/// The sender of a case.
pub fn sender_of(alloc: Global, head: &str) -> Result<Sender, Unread> {
    let batch = batch_of(alloc, head)?;
    sender_from(batch, shape_of(head))
}

/// One thing that comes.
fn event_of(alloc: Global, word: &str) -> Result<Event, Unread> {
    Ok(match word {
        "quiet" => Event::Quiet,
        "closed" => Event::Closed,
        "fault" => Event::Fault,
        _ => Event::Piece(Bytes::new(bytes_of(alloc, word)?)),
    })
}

/// The port of a case, to which these things come.
fn port_of(alloc: Global, head: &str, coming: &str) -> Result<ScriptPort, Unread> {
    let mut events = Vec::new(alloc);
    for word in coming.split_whitespace() {
        let (count, word) = counted(word, 'x');
        for _ in 0..count.unwrap_or(1) {
            events.push(event_of(alloc, word)?)?;
        }
    }
    Ok(ScriptPort::new(alloc, events, number(head, "write")))
}

/// Puts behind the text whether what was written is what was said, or what it is.
fn push_written(
    text: &mut String,
    alloc: Global,
    written: &[u8],
    said: Option<&&str>,
) -> Result<(), Unread> {
    if are_spelled(alloc, written, said)? {
        text.push_str("as said\n")?;
    } else {
        writeln!(text, "wrote {}", in_digits(alloc, written)?)?;
    }
    Ok(())
}

/// Puts behind the text what a port has: its faults, and what was written.
fn push_port(
    text: &mut String,
    alloc: Global,
    port: &ScriptPort,
    said: Option<&&str>,
) -> Result<(), Unread> {
    write!(text, ", {} faults, ", port.failures())?;
    push_written(text, alloc, port.written(), said)
}

/// Puts behind the text the files that a receiver keeps.
fn push_files(text: &mut String, alloc: Global, receiver: &Receiver) -> Result<(), Unread> {
    for file in receiver.files() {
        let bytes = in_digits(alloc, file.bytes())?;
        writeln!(text, "  file {} {bytes}", file.name())?;
    }
    Ok(())
}

/// A sender, and the port that it has. They are one value, since a proof takes long over each that
/// a function drops where it returns.
#[derive(Drop)]
struct Sending {
    port: ScriptPort,
    sender: Sender,
}

/// A receiver, and the port that it has.
#[derive(Drop)]
struct Receiving {
    port: ScriptPort,
    receiver: Receiver,
}

fn sending_of(alloc: Global, head: &str, coming: &str) -> Result<Sending, Unread> {
    let port = port_of(alloc, head, coming)?;
    Ok(Sending {
        port,
        sender: sender_of(alloc, head)?,
    })
}

fn receiver_of(alloc: Global, head: &str) -> Receiver {
    if has(head, "once") {
        Receiver::single(alloc)
    } else {
        Receiver::new(alloc)
    }
}

fn receiving_of(alloc: Global, head: &str, coming: &str) -> Result<Receiving, Unread> {
    Ok(Receiving {
        port: port_of(alloc, head, coming)?,
        receiver: receiver_of(alloc, head),
    })
}

/// Sends what a case has, and tells how it ended.
pub fn send(text: &mut String, alloc: Global, head: &str, parts: &[&str]) -> Result<(), Unread> {
    let coming = parts.first().ok_or(Unread)?;
    let mut end = sending_of(alloc, head, coming)?;
    let answer = run_sender(&mut end.port, &mut end.sender, has(head, "peer"));
    push_sender(text, answer, &end.sender)?;
    push_port(text, alloc, &end.port, parts.get(1))
}

/// Puts behind the text how a receiver ended, what its port has and what it keeps.
fn push_received(
    text: &mut String,
    alloc: Global,
    answer: Answer,
    end: &Receiving,
    said: Option<&&str>,
) -> Result<(), Unread> {
    push_receiver(text, answer, &end.receiver, end.receiver.files().len())?;
    push_port(text, alloc, &end.port, said)?;
    push_files(text, alloc, &end.receiver)
}

/// Receives what a case has, and tells how it ended.
pub fn receive(text: &mut String, alloc: Global, head: &str, parts: &[&str]) -> Result<(), Unread> {
    let coming = parts.first().ok_or(Unread)?;
    let mut end = receiving_of(alloc, head, coming)?;
    let answer = run_receiver(&mut end.port, &mut end.receiver, has(head, "peer"));
    push_received(text, alloc, answer, &end, parts.get(1))
}

/// Lets these two ends run, and puts behind the text how they ended, with what was said of each.
fn push_both(
    text: &mut String,
    alloc: Global,
    near: &mut Sending,
    far: &mut Receiving,
    (said, far_said): (&&str, &&str),
) -> Result<(), Unread> {
    let (sent, received) = run_both(
        &mut near.port,
        &mut near.sender,
        &mut far.port,
        &mut far.receiver,
    );
    push_sender(text, sent, &near.sender)?;
    push_port(text, alloc, &near.port, Some(said))?;
    push_received(text, alloc, received, far, Some(far_said))
}

/// Sends and receives what a case has, by a call for both, and tells how they ended.
pub fn send_and_receive(
    text: &mut String,
    alloc: Global,
    head: &str,
    parts: &[&str],
) -> Result<(), Unread> {
    let [coming, said, far_coming, far_said] = parts else {
        return Err(Unread);
    };
    let mut near = sending_of(alloc, head, coming)?;
    let mut far = receiving_of(alloc, head, far_coming)?;
    push_both(text, alloc, &mut near, &mut far, (said, far_said))
}
