//! Sizes at which nothing gives up: want of memory is told only where a growth was refused.

use super::{opening, play, rounds_of, same, sender_of};
use std::alloc::{AllocError, Global};
use std::test::Fail;
use ym_file::{Collector, Sink};
use ym_frame::{Block, Item, Reply};
use ym_line::{Direct, Round};
use ym_link::{Heard, Receiver, ReceiverInto, SendFile, Sender};

/// A sender of no file.
fn new_sender(alloc: Global) -> Option<Sender> {
    let batch: Vec<SendFile> = Vec::new(alloc);
    sender_of(batch)
}

/// How many of these rounds are seen on a line.
fn seen(alloc: Global, line: &mut Direct, rounds: &[Round]) -> Result<usize, Fail> {
    let mut sender = new_sender(alloc).ok_or("batch")?;
    let mut receiver = Receiver::new(alloc);
    let trace = play(alloc, &mut sender, &mut receiver, line, rounds)?;
    Ok(trace.rounds.len())
}

/// How many of these rounds are seen, and how many deliveries are handed on in them.
fn counts(alloc: Global, rounds: &[Round]) -> Result<(usize, usize), Fail> {
    let mut line = Direct::new(alloc);
    let count = seen(alloc, &mut line, rounds)?;
    Ok((count, line.handed().len()))
}

#[test]
fn a_run_of_60_001_rounds(rt: HostRuntime) -> Result<(), Fail> {
    let rounds = rounds_of(rt.alloc(), 60_001, false)?;
    assert!(rt; same(&counts(rt.alloc(), rounds.as_slice())?, &(60_001, 120_002)));
    Ok(())
}

/// How many bytes a collector has of a file of this length, of which so many blocks came.
fn collected(alloc: Global, length: u64, blocks: u32) -> Result<usize, AllocError> {
    let mut collector = Collector::new(alloc, length);
    for _ in 0..blocks {
        collector.add(&[b'A'; 1024])?;
    }
    Ok(collector.bytes().len())
}

#[test]
fn a_collector_of_3_000_000_bytes(rt: HostRuntime) -> Result<(), Fail> {
    assert!(rt; collected(rt.alloc(), 3_000_000, 2930)? == 3_000_000);
    Ok(())
}

/// The first block of a file.
fn first_block() -> Result<Heard, Fail> {
    Ok(Heard::Item(Item::Block(Block::new(1, &[7; 1024])?)))
}

/// Whether a delivery is answered by this reply.
fn answers<K: Sink>(
    receiver: &mut ReceiverInto<K>,
    heard: &Heard,
    reply: Reply,
) -> Result<bool, AllocError> {
    Ok(receiver.hear(heard)? == reply)
}

/// Whether a receiver takes the block 0 of a file of this length.
fn takes_opening(alloc: Global, receiver: &mut Receiver, length: u64) -> Result<bool, Fail> {
    let heard = Heard::Item(opening(alloc, length)?);
    Ok(answers(receiver, &heard, Reply::AckStart)?)
}

/// Whether a receiver takes the first block of a file.
fn takes_first(receiver: &mut Receiver) -> Result<bool, Fail> {
    let heard = first_block()?;
    Ok(answers(receiver, &heard, Reply::Ack)?)
}

/// Whether a receiver takes the block 0 of a file of this length, and its first block.
fn takes_both(alloc: Global, receiver: &mut Receiver, length: u64) -> Result<bool, Fail> {
    Ok(takes_opening(alloc, receiver, length)? && takes_first(receiver)?)
}

/// Whether a new receiver takes the block 0 of a file of this length, and its first block.
fn takes_a_block(alloc: Global, length: u64) -> Result<bool, Fail> {
    let mut receiver = Receiver::new(alloc);
    takes_both(alloc, &mut receiver, length)
}

/// Memory is taken for what comes, and never for a length that block 0 states.
#[test]
fn a_stated_length_takes_no_memory(rt: HostRuntime) -> Result<(), Fail> {
    for length in [1 << 40, 9_223_372_036_854_775_807] {
        assert!(rt; takes_a_block(rt.alloc(), length)?, "{length}");
    }
    Ok(())
}
