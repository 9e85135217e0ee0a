//! The receiver, delivery by delivery.

use super::{is_left, replies};
use std::alloc::Global;
use ym_file::MemSink;
use ym_frame::{Block, Item, Reply};
use ym_header::{Header, HeaderFault, Stamp, write, write_end};
use ym_link::{Confirm, Heard, Received, Receiver, ReceiverInto, RecvState, laws};

/// A delivery, as a table names it. What a table tells is proved once, in the loop over it, and so
/// a long table costs a proof little.
#[derive(Clone, Copy)]
enum Told {
    Bad,
    Eot,
    Cancel,
    /// The block 0 of a file of this name and length.
    Header(&'static str, u64),
    /// A short block of this number whose bytes are all the same.
    Block(u8, u8),
    End,
    /// A block 0 with a name and no length.
    NoLength,
}

/// A delivery, the reply to it, and then the receiver's state and how many files are committed.
type Turn = (Told, Reply, RecvState, usize);

/// The delivery of a block with these 128 bytes.
fn block(number: u8, body: &[u8; 128]) -> Heard {
    match Block::new(number, body) {
        Ok(block) => Heard::Item(Item::Block(block)),
        Err(_) => Heard::Bad,
    }
}

/// The block 0 of a file.
fn header(alloc: Global, name: &str, length: u64) -> Result<Heard, HeaderFault> {
    let header = Header::new(alloc, name, length, Stamp::Nothing)?;
    Ok(Heard::Item(Item::Block(write(&header))))
}

/// A block 0 with a name and no length.
fn no_length() -> Heard {
    let mut body = [0; 128];
    body[0] = b'a';
    block(0, &body)
}

/// The delivery that a table names.
fn heard(alloc: Global, told: Told) -> Result<Heard, HeaderFault> {
    Ok(match told {
        Told::Bad => Heard::Bad,
        Told::Eot => Heard::Item(Item::Eot),
        Told::Cancel => Heard::Item(Item::Cancel),
        Told::Header(name, length) => header(alloc, name, length)?,
        Told::Block(number, byte) => block(number, &[byte; 128]),
        Told::End => Heard::Item(Item::Block(write_end())),
        Told::NoLength => no_length(),
    })
}

/// A receiver that commits a file at its second EOT. It tells a proof nothing of it, and so costs
/// it little, as do the helpers below.
fn new_receiver(alloc: Global) -> Receiver {
    Receiver::new(alloc)
}

/// The files that a receiver has committed.
fn files_of(receiver: &Receiver) -> &[Received] {
    receiver.files()
}

/// Whether a delivery is answered by this reply, and leaves the receiver like this.
fn follows(alloc: Global, receiver: &mut Receiver, turn: Turn) -> bool {
    let (told, reply, state, committed) = turn;
    match heard(alloc, told) {
        Ok(heard) => {
            replies(receiver, &heard, reply)
                && is_left(receiver, state, committed)
                && files_of(receiver).len() == committed
        }
        Err(_) => false,
    }
}

/// Whether each delivery of a table is answered as it says.
fn answers_all(alloc: Global, receiver: &mut Receiver, turns: &[Turn]) -> bool {
    for turn in turns {
        if !follows(alloc, receiver, *turn) {
            return false;
        }
    }
    true
}

/// The same, of tables one after another.
fn answers_tables(alloc: Global, receiver: &mut Receiver, tables: &[&[Turn]]) -> bool {
    for turns in tables {
        if !answers_all(alloc, receiver, turns) {
            return false;
        }
    }
    true
}

/// The same, of a new receiver.
fn plays(alloc: Global, tables: &[&[Turn]]) -> bool {
    let mut receiver = new_receiver(alloc);
    answers_tables(alloc, &mut receiver, tables)
}

static STEPS_AND_REPEATS: [Turn; 10] = [
    (Told::Eot, Reply::Start, RecvState::Running, 0),
    (
        Told::Header("a", 200),
        Reply::AckStart,
        RecvState::Running,
        0,
    ),
    (
        Told::Header("a", 200),
        Reply::AckStart,
        RecvState::Running,
        0,
    ),
    (Told::Block(1, b'A'), Reply::Ack, RecvState::Running, 0),
    (Told::Block(1, b'A'), Reply::Ack, RecvState::Running, 0),
    (Told::Eot, Reply::Nak, RecvState::Running, 0),
    (Told::Block(5, b'A'), Reply::Cancel, RecvState::OutOfStep, 0),
    (
        Told::Header("a", 200),
        Reply::Silence,
        RecvState::OutOfStep,
        0,
    ),
    (Told::Bad, Reply::Silence, RecvState::OutOfStep, 0),
    (Told::End, Reply::Silence, RecvState::OutOfStep, 0),
];

static PAST_THE_LENGTH: [Turn; 5] = [
    (
        Told::Header("a", 100),
        Reply::AckStart,
        RecvState::Running,
        0,
    ),
    (Told::Block(1, b'A'), Reply::Ack, RecvState::Running, 0),
    (Told::Block(2, b'B'), Reply::Ack, RecvState::Running, 0),
    (Told::Eot, Reply::Nak, RecvState::Running, 0),
    (Told::Eot, Reply::AckStart, RecvState::Running, 1),
];

static PAST_THE_END: [Turn; 4] = [
    (Told::End, Reply::Ack, RecvState::Finished, 1),
    (Told::End, Reply::Ack, RecvState::Finished, 1),
    (
        Told::Header("b", 100),
        Reply::Silence,
        RecvState::Finished,
        1,
    ),
    (Told::Cancel, Reply::Silence, RecvState::Finished, 1),
];

/// Whether the first of the committed files has this name, these bytes and no stamp.
fn keeps(receiver: &Receiver, name: &str, bytes: &[u8]) -> bool {
    match files_of(receiver).first() {
        Some(file) => {
            file.name() == name
                && file.length() == bytes.len() as u64
                && file.stamp() == Stamp::Nothing
                && file.bytes() == bytes
        }
        None => false,
    }
}

/// Whether a receiver keeps none of the bytes past the length of its file, and goes on.
fn drops_bytes_past(alloc: Global, receiver: &mut Receiver) -> bool {
    answers_all(alloc, receiver, &PAST_THE_LENGTH)
        && keeps(receiver, "a", &[b'A'; 100])
        && answers_all(alloc, receiver, &PAST_THE_END)
}

#[test]
fn bytes_past_the_length(rt: HostRuntime) {
    let mut receiver = new_receiver(rt.alloc());
    assert!(rt; drops_bytes_past(rt.alloc(), &mut receiver));
}

/// A bad delivery where a header is awaited.
const BAD: Turn = (Told::Bad, Reply::Start, RecvState::Running, 0);

/// The tenth without progress.
const TENTH: Turn = (Told::Bad, Reply::Cancel, RecvState::TooManyErrors, 0);

/// A header that is refused.
static REFUSED: [Turn; 1] = [(
    Told::NoLength,
    Reply::Cancel,
    RecvState::BadHeader(HeaderFault::NoLength),
    0,
)];

/// What happens to a new receiver: steps and repeats, a header that is refused, and ten deliveries
/// without progress.
#[test]
fn a_new_receiver(rt: HostRuntime) {
    assert!(rt; plays(rt.alloc(), &[&STEPS_AND_REPEATS]));
    assert!(rt; plays(rt.alloc(), &[&REFUSED]));
    assert!(rt; plays(rt.alloc(), &[&[BAD; 9], &[TENTH]]));
}

/// A header where one is awaited.
const OPENED: Turn = (
    Told::Header("a", 100),
    Reply::AckStart,
    RecvState::Running,
    0,
);

#[test]
fn progress_sets_the_count_back(rt: HostRuntime) {
    assert!(rt; plays(rt.alloc(), &[&[BAD; 9], &[OPENED], &[BAD; 9], &[TENTH]]));
}

static SINGLE: [Turn; 3] = [
    (Told::Header("a", 0), Reply::AckStart, RecvState::Running, 0),
    (Told::Eot, Reply::AckStart, RecvState::Running, 1),
    (Told::Eot, Reply::AckStart, RecvState::Running, 1),
];

/// A receiver that commits a file at its first EOT.
fn new_single(alloc: Global) -> Receiver {
    Receiver::single(alloc)
}

#[test]
fn single_receiver(rt: HostRuntime) {
    let mut receiver = new_single(rt.alloc());
    assert!(rt; answers_all(rt.alloc(), &mut receiver, &SINGLE));
}

/// Whether a receiver takes an empty file, of which this is the header.
fn takes_empty(receiver: &mut Receiver, opening: &Heard) -> bool {
    let eot = Heard::Item(Item::Eot);
    replies(receiver, opening, Reply::AckStart)
        && replies(receiver, &eot, Reply::Nak)
        && replies(receiver, &eot, Reply::AckStart)
}

/// Whether a receiver takes so many empty files.
fn takes_all_empty(alloc: Global, receiver: &mut Receiver, count: usize) -> bool {
    let Ok(opening) = header(alloc, "a", 0) else {
        return false;
    };
    for _ in 0..count {
        if !takes_empty(receiver, &opening) {
            return false;
        }
    }
    true
}

/// Whether a receiver that has taken so many empty files answers one more header like this.
fn after_empty_files(alloc: Global, count: usize, reply: Reply, state: RecvState) -> bool {
    let mut receiver = new_receiver(alloc);
    takes_all_empty(alloc, &mut receiver, count)
        && follows(
            alloc,
            &mut receiver,
            (Told::Header("a", 0), reply, state, count),
        )
}

#[test]
fn too_many_files(rt: HostRuntime) {
    assert!(rt; after_empty_files(rt.alloc(), 65_534, Reply::AckStart, RecvState::Running));
    assert!(rt; after_empty_files(rt.alloc(), 65_535, Reply::Cancel, RecvState::TooManyFiles));
}

/// A receiver whose sink fails at this call.
fn failing_receiver(alloc: Global, failing: u64) -> Receiver {
    let sink = MemSink::new(alloc, Some(failing));
    ReceiverInto::with_sink(alloc, sink, Confirm::Once)
}

/// Whether the sink of a receiver has no file, also after the receiver.
fn has_no_file(receiver: Receiver) -> bool {
    receiver.sink().files().is_empty() && receiver.into_sink().files().is_empty()
}

/// Whether a receiver whose sink fails at this call answers as a table says, and has no file in the
/// end.
fn fails_with(alloc: Global, failing: u64, turns: &[Turn]) -> bool {
    let mut receiver = failing_receiver(alloc, failing);
    answers_all(alloc, &mut receiver, turns) && has_no_file(receiver)
}

/// A header, a block and an EOT, where each of the three calls of the sink fails.
static FAILURES: [[Turn; 3]; 3] = [
    [
        (
            Told::Header("a", 1),
            Reply::Cancel,
            RecvState::SinkFailed,
            0,
        ),
        (
            Told::Block(1, b'A'),
            Reply::Silence,
            RecvState::SinkFailed,
            0,
        ),
        (Told::Eot, Reply::Silence, RecvState::SinkFailed, 0),
    ],
    [
        (Told::Header("a", 1), Reply::AckStart, RecvState::Running, 0),
        (
            Told::Block(1, b'A'),
            Reply::Cancel,
            RecvState::SinkFailed,
            0,
        ),
        (Told::Eot, Reply::Silence, RecvState::SinkFailed, 0),
    ],
    [
        (Told::Header("a", 1), Reply::AckStart, RecvState::Running, 0),
        (Told::Block(1, b'A'), Reply::Ack, RecvState::Running, 0),
        (Told::Eot, Reply::Cancel, RecvState::SinkFailed, 0),
    ],
];

#[test]
fn failing_sink(rt: HostRuntime) {
    for (call, turns) in (1..).zip(FAILURES.iter()) {
        assert!(rt; fails_with(rt.alloc(), call, turns));
    }
}

#[test]
fn laws_hold() {
    laws::a_block_zero_means_one_thing();
    laws::a_delivery_has_one_step();
    laws::a_planned_file_is_sent();
    laws::a_standing_receiver_follows_the_machine();
}
