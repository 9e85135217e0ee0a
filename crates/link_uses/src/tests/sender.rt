//! The sender's frames over a small batch, failing sources, and a batch that is too large.

use super::{hear, stands};
use std::alloc::Global;
use std::test::Fail;
use ym_file::{MemSource, Shape, Source};
use ym_header::Stamp;
use ym_link::{BatchFault, SendFile, SendState, Sender, SenderFrom, SourceFile};

const C: u8 = 0x43;

const ACK: u8 = 0x06;

const NAK: u8 = 0x15;

const CAN: u8 = 0x18;

/// A sender of this file.
fn sender_of<S: Source + Drop>(
    alloc: Global,
    file: SourceFile<S>,
    shape: Shape,
) -> Result<SenderFrom<S>, Fail> {
    let mut batch = Vec::new(alloc);
    batch.push(file)?;
    Ok(SenderFrom::new(batch, shape).map_err(|_| "batch")?)
}

/// A sender of one file `a` of so many bytes 41, of which fill number `failing` fails.
fn one_file(alloc: Global, length: usize, failing: Option<u64>) -> Result<Sender, Fail> {
    let source = MemSource::new(vec![in alloc; 0x41; length]?, failing);
    let file = SourceFile::from_source(alloc, "a", source, Stamp::Nothing).map_err(|_| "file")?;
    sender_of(alloc, file, Shape::Short)
}

/// A delivery, and then the sender's state, how many files are done, how long the frame to be sent
/// is (0: there is none), and how it begins. What a table tells is proved once, in the loop over
/// it, and so a long table costs a proof little.
type Turn<'a> = (&'a [u8], SendState, usize, usize, &'a [u8]);

/// Whether the frame to be sent has this length, and begins with these bytes.
fn speaks<S: Source>(sender: &SenderFrom<S>, length: usize, start: &[u8]) -> bool {
    match sender.frame() {
        Some(frame) => frame.len() == length && frame.starts_with(start),
        None => length == 0,
    }
}

/// Whether each delivery of a table does what it says.
fn follows<S: Source>(sender: &mut SenderFrom<S>, turns: &[Turn]) -> bool {
    for turn in turns {
        let (bytes, state, done, length, start) = *turn;
        hear(sender, bytes);
        if !stands(sender, state, done) || !speaks(sender, length, start) {
            return false;
        }
    }
    true
}

/// Whether a new sender of one file follows a table.
fn one_file_follows(
    alloc: Global,
    length: usize,
    failing: Option<u64>,
    turns: &[Turn],
) -> Result<bool, Fail> {
    let mut sender = one_file(alloc, length, failing)?;
    Ok(speaks(&sender, 0, &[]) && follows(&mut sender, turns))
}

/// Whether more bytes cannot change what these do.
fn settles<S: Source>(sender: &SenderFrom<S>, bytes: &[u8]) -> bool {
    sender.settled(bytes)
}

static HEADER: [Turn; 1] = [(
    &[C],
    SendState::Running,
    0,
    133,
    b"\x01\x00\xffa\x00130\x00",
)];

static BEHIND_THE_HEADER: [Turn; 8] = [
    (&[ACK, C], SendState::Running, 0, 133, b"\x01\x01\xfeAAA"),
    (&[NAK], SendState::Running, 0, 133, b"\x01\x01\xfeAAA"),
    (
        &[ACK],
        SendState::Running,
        0,
        133,
        b"\x01\x02\xfdAA\x1a\x1a",
    ),
    (&[ACK], SendState::Running, 0, 1, &[0x04]),
    (&[NAK], SendState::Running, 0, 1, &[0x04]),
    (&[ACK], SendState::Running, 1, 0, &[]),
    (&[C], SendState::Running, 1, 133, b"\x01\x00\xff\x00"),
    (&[ACK], SendState::Finished, 1, 0, &[]),
];

/// Whether a sender has all frames of a batch to be sent, one after another.
fn sends_all(sender: &mut Sender) -> bool {
    speaks(sender, 0, &[])
        && follows(sender, &HEADER)
        && !settles(sender, &[ACK])
        && settles(sender, &[ACK, C])
        && follows(sender, &BEHIND_THE_HEADER)
        && settles(sender, &[])
}

#[test]
fn all_frames_of_a_batch(rt: HostRuntime) -> Result<(), Fail> {
    let mut sender = one_file(rt.alloc(), 130, None)?;
    assert!(rt; sends_all(&mut sender));
    Ok(())
}

static FAILED_SOURCE: [Turn; 5] = [
    (
        &[C],
        SendState::Running,
        0,
        133,
        b"\x01\x00\xffa\x00300\x00",
    ),
    (&[ACK, C], SendState::Running, 0, 133, b"\x01\x01\xfe"),
    (&[NAK], SendState::Running, 0, 133, b"\x01\x01\xfe"),
    (&[ACK], SendState::SourceFailed, 0, 2, &[CAN, CAN]),
    (&[], SendState::SourceFailed, 0, 0, &[]),
];

/// A NAK before the first frame.
const MISSED: Turn = (&[NAK], SendState::Running, 0, 0, &[]);

static WITHOUT_PROGRESS: [Turn; 11] = [
    MISSED,
    MISSED,
    MISSED,
    MISSED,
    MISSED,
    MISSED,
    MISSED,
    MISSED,
    MISSED,
    (&[], SendState::NoReply, 0, 2, &[CAN, CAN]),
    (&[C], SendState::NoReply, 0, 0, &[]),
];

static CANCELLED: [Turn; 5] = [
    (&[CAN, 0x00], SendState::Running, 0, 0, &[]),
    (
        &[CAN, C],
        SendState::Running,
        0,
        133,
        b"\x01\x00\xffa\x000\x00",
    ),
    (&[ACK], SendState::Running, 0, 0, &[]),
    (&[C], SendState::Running, 0, 1, &[0x04]),
    (&[ACK, CAN, 0x00, CAN], SendState::Cancelled, 1, 0, &[]),
];

/// How a sender ends: its source fails, ten deliveries bring no progress, or two CAN in a row
/// cancel it.
#[test]
fn each_end(rt: HostRuntime) -> Result<(), Fail> {
    assert!(rt; one_file_follows(rt.alloc(), 300, Some(2), &FAILED_SOURCE)?);
    assert!(rt; one_file_follows(rt.alloc(), 0, None, &WITHOUT_PROGRESS)?);
    assert!(rt; one_file_follows(rt.alloc(), 0, None, &CANCELLED)?);
    Ok(())
}

/// Whether no sender is made of a batch, and so many files are handed back.
fn are_handed_back<S: Source + Drop>(batch: Vec<SourceFile<S>>, count: usize) -> bool {
    match SenderFrom::new(batch, Shape::Mixed) {
        Ok(_) => false,
        Err(BatchFault::TooMany(back)) => back.len() == count,
    }
}

#[test]
fn too_many_files_are_handed_back(rt: HostRuntime) -> Result<(), Fail> {
    let alloc = rt.alloc();
    let mut batch = Vec::new(alloc);
    for _ in 0..65_536 {
        let file = SendFile::new(alloc, "a", Vec::new(alloc), Stamp::Nothing).map_err(|_| "file")?;
        batch.push(file)?;
    }
    assert!(rt; are_handed_back(batch, 65_536));
    Ok(())
}

static IN_MEMORY: [Turn; 2] = [
    (
        &[C],
        SendState::Running,
        0,
        133,
        b"\x01\x00\xffa.txt\x003 0\x00",
    ),
    (
        &[ACK, C],
        SendState::Running,
        0,
        133,
        b"\x01\x01\xfeone\x1a",
    ),
];

/// Whether a file that is in memory has its bytes, and a sender of it follows a table.
fn file_follows(alloc: Global, file: SendFile, bytes: &[u8], turns: &[Turn]) -> Result<bool, Fail> {
    let has_bytes = file.bytes() == bytes;
    let mut sender = sender_of(alloc, file, Shape::Mixed)?;
    Ok(has_bytes && follows(&mut sender, turns))
}

#[test]
fn a_file_in_memory(rt: HostRuntime) -> Result<(), Fail> {
    let alloc = rt.alloc();
    let bytes = b"one".as_slice().to_vec(alloc)?;
    let file = SendFile::new(alloc, "a.txt", bytes, Stamp::Time(0)).map_err(|_| "file")?;
    assert!(rt; file_follows(alloc, file, b"one", &IN_MEMORY)?);
    Ok(())
}
