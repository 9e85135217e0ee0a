//! Worked examples: whole transfers with either end alone, and where a receiver may stand.

ghost use Rattle.std.specs.Prelude.{◌≡◌, List, ℕ, ◌∷◌, []};

use std::test::Fail;
use ym_core::{
    Ask, BatchShape, Confirm, Heard, HeardRef, OpenFile, Position, ReceiverCore, RecvState,
    SendState, Stage, Stand, Standing, Step, first_position, heard_in,
};
use ym_frame::{Block, FrameBuf, Item, Reply, encode};
use ym_header::{HeaderFault, HeaderRef, Stamp, write_body, write_end};

/// The frame of block 0 of a file of so many bytes.
fn header_frame(name: &str, length: u64) -> Result<FrameBuf, HeaderFault> {
    let header = HeaderRef::new(name, length, Stamp::Time(8))?;
    let mut body = [0; 1024];
    let size = write_body(&header, &mut body);
    Ok(encode(&Item::Block(Block::new(0, &body[..size]).unwrap())))
}

/// The frame of a short block whose bytes are all the same.
fn block_frame(number: u8, byte: u8) -> FrameBuf {
    encode(&Item::Block(Block::new(number, &[byte; 128]).unwrap()))
}

/// The frame of the end block.
fn end_frame() -> FrameBuf {
    encode(&Item::Block(write_end()))
}

/// What a test keeps of what a step asks.
#[derive(Clone, Copy, PartialEq)]
enum Asked {
    Nothing,
    /// The header's name begins with this byte, and it states this length.
    Begin(u8, u64),
    /// So many bytes, all of them this one.
    Add(u8, usize),
    Commit,
}

/// What is asked, as a test compares it.
fn demand_of(ask: Ask<'_>) -> Asked {
    match ask {
        Ask::Nothing => Asked::Nothing,
        Ask::Begin(header) => {
            let first = header.name().as_bytes().first().copied().unwrap_or(0);
            Asked::Begin(first, header.length())
        }
        Ask::Add(bytes) => {
            let first = bytes.first().copied().unwrap_or(0);
            let alike = bytes.iter().filter(|byte| **byte == first).count();
            Asked::Add(first, alike)
        }
        Ask::Commit => Asked::Commit,
    }
}

/// The receiver behind one delivery whose host does what is asked, the reply, and what was asked.
fn told(core: ReceiverCore, bytes: &[u8]) -> (ReceiverCore, Reply, Asked) {
    let Step { core, reply, ask } = core.hear(&heard_in(bytes));
    (core, reply, demand_of(ask))
}

/// Whether a receiver whose host does what is asked answers each delivery so, and asks this, and
/// has one file in the end.
fn receives_one(deliveries: &[(&[u8], Reply, Asked)]) -> bool {
    let mut core = ReceiverCore::new(Confirm::Twice);
    for (bytes, reply, ask) in deliveries {
        let (behind, replied, done) = told(core, bytes);
        if replied != *reply || done != *ask {
            return false;
        }
        core = behind;
    }
    core.state() == RecvState::Finished && core.files() == 1
}

/// A file of 130 bytes: its second block is cut at the length.
#[test]
fn receiver_of_one_file(rt: HostRuntime) -> Result<(), Fail> {
    let header = header_frame("a.txt", 130)?;
    let (first, second) = (block_frame(1, 0x41), block_frame(2, 0x42));
    let end = end_frame();
    let deliveries: [(&[u8], Reply, Asked); 8] = [
        (b"", Reply::Start, Asked::Nothing),
        (header.as_bytes(), Reply::AckStart, Asked::Begin(b'a', 130)),
        (first.as_bytes(), Reply::Ack, Asked::Add(0x41, 128)),
        (first.as_bytes(), Reply::Ack, Asked::Nothing),
        (second.as_bytes(), Reply::Ack, Asked::Add(0x42, 2)),
        (b"\x04", Reply::Nak, Asked::Nothing),
        (b"\x04", Reply::AckStart, Asked::Commit),
        (end.as_bytes(), Reply::Ack, Asked::Nothing),
    ];
    assert!(rt; receives_one(&deliveries));
    Ok(())
}

/// Whether a receiver that took this header of a file of one byte asks its host to take that byte,
/// and ends where the host fails.
fn ends_at_a_failure(header: &[u8]) -> bool {
    let heard = Heard::Item(Item::Block(Block::new(1, &[0; 128]).unwrap()));
    let (behind, reply, _) = told(ReceiverCore::new(Confirm::Once), header);
    let step = behind.hear(&HeardRef::of(&heard));
    reply == Reply::AckStart
        && demand_of(step.ask) == Asked::Add(0, 1)
        && behind.failed().state() == RecvState::SinkFailed
}

/// A host that fails at what is asked ends the receiver.
#[test]
fn failed_host(rt: HostRuntime) -> Result<(), Fail> {
    let header = header_frame("a", 1)?;
    assert!(rt; ends_at_a_failure(header.as_bytes()));
    Ok(())
}

/// Whether a receiver is made again from where this one stands.
fn is_made_again(stand: Stand) -> bool {
    match ReceiverCore::at(stand) {
        Some(again) => again.stand() == stand,
        None => false,
    }
}

/// A receiver is made again from where it stands, and from nowhere else.
#[test]
fn stands(rt: HostRuntime) {
    let stand = ReceiverCore::new(Confirm::Twice).stand();
    let past = Stand {
        retries: 10,
        ..stand
    };
    let file = OpenFile {
        length: 1,
        taken: 2,
        blocks: 1,
        first_eot: false,
    };
    let covered = Stand {
        stage: Stage::InFile(file),
        ..stand
    };
    assert!(rt; is_made_again(stand));
    assert!(rt; ReceiverCore::at(past).is_none() && ReceiverCore::at(covered).is_none());
}

/// Two files, the first one of two blocks and the second one empty.
struct TwoFiles;

impl BatchShape for TwoFiles {
    ghost counts = { λ _. 2 ∷ 0 ∷ [] };

    fn files(&self) -> usize {
        2
    }

    fn blocks(&self, file: usize) -> u64 {
        if file == 0 { 2 } else { 0 }
    }
}

/// Deliveries to a sender of both files, and the position that each of them has it fill.
static BOTH_FILES: [(&[u8], Option<Position>); 9] = [
    (b"C", Some(Position::Header { file: 0 })),
    (b"\x06C", Some(Position::Block { file: 0, number: 1 })),
    (b"\x06", Some(Position::Block { file: 0, number: 2 })),
    (b"\x15", None),
    (b"\x06", Some(Position::Eot { file: 0 })),
    (b"\x15", None),
    (b"\x06C", Some(Position::Header { file: 1 })),
    (b"\x06C", Some(Position::Eot { file: 1 })),
    (b"\x06C", Some(Position::End)),
];

/// Whether a sender of both files fills these positions, and finishes at an ACK behind them.
fn sends_both(deliveries: &[(&[u8], Option<Position>)]) -> bool {
    let mut standing = Standing::new(first_position(&TwoFiles));
    for (bytes, fills) in deliveries {
        let step = standing.after(&TwoFiles, bytes);
        if step.fills != *fills {
            return false;
        }
        standing = step.standing;
    }
    standing.position.done(2) == 2
        && !standing.settled(&TwoFiles, b"")
        && standing.settled(&TwoFiles, b"\x06")
        && standing.after(&TwoFiles, b"\x06").standing.state == SendState::Finished
}

#[test]
fn sender_of_two_files(rt: HostRuntime) {
    assert!(rt; sends_both(&BOTH_FILES));
}
