//! Calls that can meet want of memory, each in a test that succeeds where no growth is refused.
//! Where one of the call is, the test answers so in these words, and it holds that nothing else
//! came of it. `tests/memory` refuses each growth in turn.

use super::calls::{played, same};
use super::memory::ONE_FILE;
use std::alloc::Global;
use std::test::Fail;
use ym_file::{Collector, Shape, Sink, Source};
use ym_frame::{Bytes, Item, encode};
use ym_header::{Header, HeaderFault, Stamp, Zero, read, write, write_end};
use ym_line::{Carrier, Delivery, Direct, LineFault, Round, run};
use ym_link::{
    EndFault, Event, Port, Receiver, ReceiverInto, RecvState, ScriptPort, SendFile, SendState,
    Sender, SenderFrom, receive_over,
};
use ym_play::{PlayFault, read_script};

/// What a test answers whose call met want of memory.
const WANT: &str = "want of memory";

/// What it answers where the record of a port met it.
const RECORD: &str = "want of memory of the record";

#[test]
fn a_script_is_played(rt: HostRuntime) -> Result<(), Fail> {
    match played(rt.alloc(), ONE_FILE) {
        Ok((text, status)) => {
            assert!(rt; same(&status, &0));
            assert!(rt; text.as_str().ends_with("\nreceiver files 1 finished\n"));
            Ok(())
        }
        Err(fault) => {
            assert!(rt; same(&fault, &PlayFault::Memory));
            Err(Fail::from(WANT))
        }
    }
}

#[test]
fn a_script_is_read(rt: HostRuntime) -> Result<(), Fail> {
    let script = b"file a 41 1 2\nround hex:00 hex:\nok 3\n";
    match read_script(rt.alloc(), script) {
        Ok(_) => Ok(()),
        Err(fault) => {
            assert!(rt; same(&fault, &PlayFault::Memory));
            Err(Fail::from(WANT))
        }
    }
}

/// A sender of the file a.txt of `A`, 128 times.
fn usual_sender(alloc: Global) -> Result<Sender, Fail> {
    let bytes = vec![in alloc; b'A'; 128]?;
    let mut batch = Vec::new(alloc);
    batch.push(SendFile::new(alloc, "a.txt", bytes, Stamp::Nothing)?)?;
    let sender = Sender::new(batch, Shape::Mixed);
    Ok(sender.ok().ok_or("too many files")?)
}

/// So many whole rounds.
fn whole_rounds(alloc: Global, count: usize) -> Result<Vec<Round>, Fail> {
    let mut rounds = Vec::new(alloc);
    for _ in 0..count {
        rounds.push(Round {
            there: Delivery::Whole,
            back: Delivery::Whole,
        })?;
    }
    Ok(rounds)
}

/// How a run of six whole rounds ended: its fault, how both ends were left, and how many files were
/// committed.
#[derive(Drop)]
struct Run {
    fault: Option<LineFault>,
    send: SendState,
    recv: RecvState,
    files: usize,
    /// Whether the first file, where one was committed, is the whole one.
    is_whole: bool,
}

/// The fault of a run over these rounds, if it had one.
fn fault_of<S: Source, K: Sink, C: Carrier>(
    alloc: Global,
    sender: &mut SenderFrom<S>,
    receiver: &mut ReceiverInto<K>,
    rounds: &[Round],
    line: &mut C,
) -> Option<LineFault> {
    run(alloc, sender, receiver, rounds, line).err()
}

/// Runs a usual sender and a receiver over six whole rounds.
fn run_six(alloc: Global) -> Result<Run, Fail> {
    let mut sender = usual_sender(alloc)?;
    let rounds = whole_rounds(alloc, 6)?;
    let mut receiver = Receiver::new(alloc);
    let mut line = Direct::new(alloc);
    let fault = fault_of(alloc, &mut sender, &mut receiver, &rounds, &mut line);
    Ok(Run {
        fault,
        send: sender.state(),
        recv: receiver.state(),
        files: receiver.files().len(),
        is_whole: holds_whole(&receiver),
    })
}

/// Whether a receiver has committed nothing, or the whole file first.
fn holds_whole(receiver: &Receiver) -> bool {
    match receiver.files().first() {
        Some(file) => file.name() == "a.txt" && file.bytes() == [b'A'; 128].as_slice(),
        None => true,
    }
}

/// Where a growth is refused, the committed files are none or the whole one.
#[test]
fn rounds_are_run(rt: HostRuntime) -> Result<(), Fail> {
    let run = run_six(rt.alloc())?;
    assert!(rt; run.is_whole);
    if run.fault.is_none() {
        assert!(rt; same(&run.send, &SendState::Finished));
        assert!(rt; same(&run.recv, &RecvState::Finished));
        assert!(rt; same(&run.files, &1));
        return Ok(());
    }
    assert!(rt; same(&run.fault, &Some(LineFault::Memory)));
    assert!(rt; same(&run.send, &SendState::Running));
    Err(Fail::from(WANT))
}

/// What is read of the block 0 that a usual sender writes.
fn read_usual(alloc: Global) -> Result<Zero, HeaderFault> {
    let mut body = [0; 128];
    let text = b"a.txt\x0012 14 644 0 3 99";
    body[..text.len()].copy_from_slice(text);
    read(alloc, &body)
}

/// Whether this is the file a.txt of 12 bytes.
fn is_usual(zero: &Zero) -> bool {
    match zero {
        Zero::File(header) => header.name() == "a.txt" && header.length() == 12,
        Zero::End => false,
    }
}

/// What a usual sender writes is read.
#[test]
fn a_header_is_read(rt: HostRuntime) -> Result<(), Fail> {
    match read_usual(rt.alloc()) {
        Ok(zero) => {
            assert!(rt; is_usual(&zero));
            Ok(())
        }
        Err(fault) => {
            assert!(rt; same(&fault, &HeaderFault::Memory));
            Err(Fail::from(WANT))
        }
    }
}

/// Whether a header that is made has its name.
fn has_its_name(alloc: Global) -> Result<bool, HeaderFault> {
    let header = Header::new(alloc, "a.txt", 12, Stamp::TimeMode(12, 420))?;
    Ok(header.name() == "a.txt")
}

#[test]
fn a_header_is_made(rt: HostRuntime) -> Result<(), Fail> {
    match has_its_name(rt.alloc()) {
        Ok(has_it) => {
            assert!(rt; has_it);
            Ok(())
        }
        Err(fault) => {
            assert!(rt; same(&fault, &HeaderFault::Memory));
            Err(Fail::from(WANT))
        }
    }
}

/// Where a growth is refused, a collector has what it had.
#[test]
fn bytes_are_collected(rt: HostRuntime) -> Result<(), Fail> {
    let mut collector = Collector::new(rt.alloc(), 256);
    let mut kept = 0;
    for half in [[b'A'; 128], [b'B'; 128]] {
        match collector.add(&half) {
            Ok(some) => assert!(rt; some),
            Err(_) => {
                assert!(rt; same(&collector.bytes().len(), &kept));
                return Err(Fail::from(WANT));
            }
        }
        kept = collector.bytes().len();
    }
    assert!(rt; collector.is_covered());
    Ok(())
}

/// How a receiver was left, and its port.
#[derive(Drop)]
struct Left {
    answer: Result<(), EndFault>,
    state: RecvState,
    port: ScriptPort,
}

impl Left {
    /// Whether it was left so, with these bytes written and so many failures of its port.
    fn is(
        &self,
        answer: Result<(), EndFault>,
        state: RecvState,
        written: &[u8],
        failures: u64,
    ) -> bool {
        self.answer == answer
            && self.state == state
            && self.port.written() == written
            && self.port.failures() == failures
    }
}

/// What a receiver answers over any port.
fn answer_of<P: Port, K: Sink>(
    port: &mut P,
    receiver: &mut ReceiverInto<K>,
) -> Result<(), EndFault> {
    receive_over(port, receiver)
}

/// What is received of one piece behind a quiet line, or of the piece alone.
fn received(alloc: Global, begins_quiet: bool, piece: &[u8]) -> Result<Left, Fail> {
    let mut events = Vec::new(alloc);
    if begins_quiet {
        events.push(Event::Quiet)?;
    }
    events.push(Event::Piece(Bytes::new(piece.to_vec(alloc)?)))?;
    let mut port = ScriptPort::new(alloc, events, None);
    let mut receiver = Receiver::new(alloc);
    let answer = answer_of(&mut port, &mut receiver);
    Ok(Left {
        answer,
        state: receiver.state(),
        port,
    })
}

/// The block 0 of a usual sender, received.
fn received_header(alloc: Global) -> Result<Left, Fail> {
    let header = Header::new(alloc, "a.txt", 12, Stamp::TimeMode(12, 420))?;
    let frame = encode(&Item::Block(write(&header)));
    received(alloc, false, frame.as_bytes())
}

/// Of the header nothing is written, and the receiver still runs. A port whose record does not grow
/// has failed.
#[test]
fn a_header_is_received(rt: HostRuntime) -> Result<(), Fail> {
    let left = received_header(rt.alloc())?;
    let running = RecvState::Running;
    if left.answer == Err(EndFault::Closed) {
        assert!(rt; left.is(Err(EndFault::Closed), running, &[0x06, 0x43], 0));
        return Ok(());
    }
    if left.answer == Err(EndFault::Memory) {
        assert!(rt; left.is(Err(EndFault::Memory), running, &[], 0));
        return Err(Fail::from(WANT));
    }
    assert!(rt; left.is(Err(EndFault::Device), running, &[], 1));
    Err(Fail::from(RECORD))
}

/// The end block behind a quiet line, received.
fn received_end(alloc: Global) -> Result<Left, Fail> {
    let frame = encode(&Item::Block(write_end()));
    received(alloc, true, frame.as_bytes())
}

/// The first reply that is written makes the record grow.
#[test]
fn an_end_block_is_received(rt: HostRuntime) -> Result<(), Fail> {
    let left = received_end(rt.alloc())?;
    if left.answer.is_ok() {
        assert!(rt; left.is(Ok(()), RecvState::Finished, &[0x43, 0x06], 0));
        return Ok(());
    }
    assert!(rt; left.is(Err(EndFault::Device), RecvState::Running, &[], 1));
    Err(Fail::from(RECORD))
}
