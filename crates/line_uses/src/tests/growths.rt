//! Growths of memory that are refused, each in turn: of an engine over a port, and of a run of
//! rounds.

use super::{opening, play, rounds_of, same, sender_of};
use std::alloc::{AllocError, Global};
use std::test::Fail;
use ym_file::{Sink, Source};
use ym_frame::{Bytes, FrameBuf, encode};
use ym_header::{HeaderFault, Stamp};
use ym_line::{Direct, LineFault, Round, Trace};
use ym_link::{
    EndFault, Event, Port, Received, Receiver, ReceiverInto, RecvState, ScriptPort, SendFile,
    SendState, Sender, SenderFrom, receive_over,
};

// Engines and ends are called at ports, sources and sinks of any kind: a call is dear to prove
// where it is made of one kind. These functions tell a proof nothing, and so cost it little.

/// Receives over a port.
fn receive<P: Port, K: Sink>(port: &mut P, receiver: &mut ReceiverInto<K>) -> Result<(), EndFault> {
    receive_over(port, receiver)
}

/// Whether a sender is in this state.
fn stands<S: Source>(sender: &SenderFrom<S>, state: SendState) -> bool {
    sender.state() == state
}

/// Whether a receiver is in this state.
fn is_left<K: Sink>(receiver: &ReceiverInto<K>, state: RecvState) -> bool {
    receiver.state() == state
}

fn header_of(alloc: Global) -> Result<FrameBuf, HeaderFault> {
    Ok(encode(&opening(alloc, 12)?))
}

/// A port to which these bytes come.
fn port_of(alloc: Global, bytes: &[u8]) -> Result<ScriptPort, AllocError> {
    let mut events = Vec::new(alloc);
    events.push(Event::Piece(Bytes::new(bytes.to_vec(alloc)?)))?;
    Ok(ScriptPort::new(alloc, events, None))
}

/// Whether a receiver that ran into the end of what comes, or found no memory, says so and has
/// written what goes with it.
fn tells_of_refusal(answer: Result<(), EndFault>, port: &ScriptPort) -> bool {
    let (written, failures) = (port.written(), port.failures());
    match answer {
        Err(EndFault::Closed) => written == [0x06, 0x43].as_slice() && failures == 0,
        Err(EndFault::Memory) => written.is_empty() && failures == 0,
        Err(EndFault::Device) => written.is_empty() && failures == 1,
        Ok(()) => false,
    }
}

/// The header, asked for once more where a growth was refused.
fn header_again(alloc: Global) -> Result<FrameBuf, HeaderFault> {
    match header_of(alloc) {
        Ok(header) => Ok(header),
        Err(_) => header_of(alloc),
    }
}

/// The port, asked for once more where a growth was refused.
fn port_again(alloc: Global, bytes: &[u8]) -> Result<ScriptPort, AllocError> {
    match port_of(alloc, bytes) {
        Ok(port) => Ok(port),
        Err(_) => port_of(alloc, bytes),
    }
}

/// The port to which the header comes.
fn header_port(alloc: Global) -> Result<ScriptPort, Fail> {
    let header = header_again(alloc)?;
    Ok(port_again(alloc, header.as_bytes())?)
}

/// Each growth may be refused, as `rt try --test --fail-alloc N` does for the Nth: of the port's
/// record, which is a failure of the port, and of the header, at which the receiver stays as it is
/// and nothing is written. Where a growth before the call is refused, the call is made again.
#[test]
fn of_an_engine(rt: HostRuntime) -> Result<(), Fail> {
    let mut port = header_port(rt.alloc())?;
    let mut receiver = Receiver::new(rt.alloc());
    let answer = receive(&mut port, &mut receiver);
    assert!(rt; tells_of_refusal(answer, &port));
    assert!(rt; is_left(&receiver, RecvState::Running));
    Ok(())
}

/// Two ends, and the line between them.
#[derive(Drop)]
struct Ends {
    sender: Sender,
    receiver: Receiver,
    line: Direct,
}

/// A batch of one file `a.txt` of these bytes.
fn batch_of(alloc: Global, bytes: &[u8]) -> Result<Vec<SendFile>, Fail> {
    let mut batch = Vec::new(alloc);
    batch.push(SendFile::new(alloc, "a.txt", bytes.to_vec(alloc)?, Stamp::Nothing)?)?;
    Ok(batch)
}

/// The ends of a transfer of one file `a.txt` of these bytes.
fn ends_of(alloc: Global, bytes: &[u8]) -> Result<Ends, Fail> {
    let batch = batch_of(alloc, bytes)?;
    Ok(Ends {
        sender: sender_of(batch).ok_or("batch")?,
        receiver: Receiver::new(alloc),
        line: Direct::new(alloc),
    })
}

/// Plays rounds to these ends.
fn play_to(alloc: Global, ends: &mut Ends, rounds: &[Round]) -> Result<Trace, LineFault> {
    let Ends {
        sender,
        receiver,
        line,
    } = ends;
    play(alloc, sender, receiver, line, rounds)
}

/// Whether the file is committed, and nothing else.
fn has_file(files: &[Received], bytes: &[u8]) -> bool {
    match files.first() {
        Some(file) => files.len() == 1 && file.name() == "a.txt" && file.bytes() == bytes,
        None => false,
    }
}

/// Whether a fault is want of memory, the ends run on, and the committed files are none or the
/// whole one.
fn holds(ends: &Ends, fault: LineFault, bytes: &[u8]) -> bool {
    let files = ends.receiver.files();
    let kept = files.is_empty() || has_file(files, bytes);
    same(&fault, &LineFault::Memory) && stands(&ends.sender, SendState::Running) && kept
}

/// Whether a run comes to its end, at once or behind a growth that was refused, as it then says.
fn runs(alloc: Global, ends: &mut Ends, rounds: &[Round], bytes: &[u8]) -> bool {
    match play_to(alloc, ends, rounds) {
        Ok(_) => true,
        Err(fault) => holds(ends, fault, bytes) && play_to(alloc, ends, rounds).is_ok(),
    }
}

/// Whether both ends have finished, and the file is committed.
fn are_done(ends: &Ends, bytes: &[u8]) -> bool {
    stands(&ends.sender, SendState::Finished)
        && is_left(&ends.receiver, RecvState::Finished)
        && has_file(ends.receiver.files(), bytes)
}

/// Whichever growth of a run is refused, it says so, and the ends go on to the end.
#[test]
fn of_a_run(rt: HostRuntime) -> Result<(), Fail> {
    let bytes = [b'A'; 128];
    let rounds = rounds_of(rt.alloc(), 6, true)?;
    let mut ends = ends_of(rt.alloc(), &bytes)?;
    assert!(rt; runs(rt.alloc(), &mut ends, rounds.as_slice(), &bytes));
    assert!(rt; are_done(&ends, &bytes));
    Ok(())
}
