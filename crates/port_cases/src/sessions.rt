//! Ends over a line that does once more what it did.

use crate::Unread;
use crate::recorded::{Recorded, bytes_of};
use std::alloc::Global;
use ym_file::{MemSource, Shape};
use ym_header::Stamp;
use ym_link::{EndFault, Receiver, SendFile, Sender, SourceFile, receive_over, send_over};
use ym_port::{InStep, Role, TimedPort};

/// How an engine returned.
type Answer = Result<(), EndFault>;

/// Whether a word stands there.
fn has(head: &str, wanted: &str) -> bool {
    head.split_whitespace().any(|word| word == wanted)
}

/// The file that a word `NAME=BYTES` spells.
fn file_of(alloc: Global, name: &str, bytes: &str) -> Result<SendFile, Unread> {
    let source = MemSource::new(bytes_of(alloc, bytes)?, None);
    SourceFile::from_source(alloc, name, source, Stamp::Nothing)
        .ok()
        .ok_or(Unread)
}

/// The files of a session.
fn batch_of(alloc: Global, head: &str) -> Result<Vec<SendFile>, Unread> {
    let mut batch = Vec::new(alloc);
    for word in head.split_whitespace() {
        if let Some((name, bytes)) = word.split_once('=') {
            batch.push(file_of(alloc, name, bytes)?)?;
        }
    }
    Ok(batch)
}

/// The shape of a sender's blocks.
fn shape_of(head: &str) -> Shape {
    if has(head, "short") {
        Shape::Short
    } else {
        Shape::Mixed
    }
}

/// The sender of a session.
fn sender_of(alloc: Global, head: &str) -> Result<Sender, Unread> {
    let batch = batch_of(alloc, head)?;
    Sender::new(batch, shape_of(head)).ok().ok_or(Unread)
}

/// Puts behind the text what passed the line: how often it failed, what is left of its record, and
/// what was written.
fn push_line(text: &mut String, alloc: Global, line: &Recorded) -> Result<(), Unread> {
    let written = hex::encode(alloc, line.written())?;
    let (failed, left) = (line.failed(), line.left());
    writeln!(text, ", {failed} faults, {left} left, wrote {written}")?;
    Ok(())
}

fn send(port: &mut TimedPort<Recorded>, sender: &mut Sender) -> Answer {
    send_over(port, sender)
}

fn receive(port: &mut InStep<TimedPort<Recorded>>, receiver: &mut Receiver) -> Answer {
    receive_over(port, receiver)
}

/// Puts behind the text how a sender ended. What this and the calls below take tells a proof
/// nothing, and so costs it little.
fn push_sender(text: &mut String, answer: Answer, sender: &Sender) -> Result<(), Unread> {
    let (state, done) = (sender.state(), sender.done());
    write!(text, "  {answer:?} {state:?}, {done} done")?;
    Ok(())
}

/// Puts behind the text how a receiver ended.
fn push_receiver(text: &mut String, answer: Answer, receiver: &Receiver) -> Result<(), Unread> {
    let (state, files) = (receiver.state(), receiver.files().len());
    write!(text, "  {answer:?} {state:?}, {files} kept")?;
    Ok(())
}

/// Puts behind the text the files that a receiver keeps.
fn push_files(text: &mut String, alloc: Global, receiver: &Receiver) -> Result<(), Unread> {
    for file in receiver.files() {
        let bytes = hex::encode(alloc, file.bytes())?;
        writeln!(text, "  file {} {bytes}", file.name())?;
    }
    Ok(())
}

/// Sends over a line, and puts behind the text how that ended.
fn push_sent(
    text: &mut String,
    alloc: Global,
    line: Recorded,
    sender: &mut Sender,
) -> Result<(), Unread> {
    let mut port = TimedPort::new(line, Role::Sender);
    let answer = send(&mut port, sender);
    push_sender(text, answer, sender)?;
    push_line(text, alloc, port.wire())
}

/// Receives over a line, and puts behind the text how that ended.
fn push_received(
    text: &mut String,
    alloc: Global,
    line: Recorded,
    receiver: &mut Receiver,
) -> Result<(), Unread> {
    let mut port = InStep::new(TimedPort::new(line, Role::Receiver));
    let answer = receive(&mut port, receiver);
    push_receiver(text, answer, receiver)?;
    push_line(text, alloc, port.port.wire())
}

/// The receiver of a session.
fn receiver_of(alloc: Global, head: &str) -> Receiver {
    if has(head, "once") {
        Receiver::single(alloc)
    } else {
        Receiver::new(alloc)
    }
}

/// Sends over a line that did this, and puts behind the text how it ended.
pub fn push_send(text: &mut String, alloc: Global, head: &str, did: &str) -> Result<(), Unread> {
    let mut sender = sender_of(alloc, head)?;
    let line = Recorded::new(alloc, did)?;
    push_sent(text, alloc, line, &mut sender)
}

/// Receives over a line that did this, and puts behind the text how it ended.
pub fn push_receive(text: &mut String, alloc: Global, head: &str, did: &str) -> Result<(), Unread> {
    let line = Recorded::new(alloc, did)?;
    let mut receiver = receiver_of(alloc, head);
    push_received(text, alloc, line, &mut receiver)?;
    push_files(text, alloc, &receiver)
}
