//! Each module is named after what it tests.

mod files;
mod growths;
mod ports;
mod sizes;

use std::alloc::{AllocError, Global};
use ym_file::{Shape, Sink, Source};
use ym_frame::Item;
use ym_header::{Header, HeaderFault, Stamp, write};
use ym_line::{Carrier, Delivery, LineFault, Round, Trace, run};
use ym_link::{ReceiverInto, SenderFrom, SourceFile};

/// Whether two values are the same.
fn same<T: PartialEq>(left: &T, right: &T) -> bool {
    left == right
}

// Ends are made and rounds are played at sources, sinks and lines of any kind: a call is dear to
// prove where it is made of one kind. These functions tell a proof nothing, and so cost it little.

/// A sender of a batch.
fn sender_of<S: Source + Drop>(batch: Vec<SourceFile<S>>) -> Option<SenderFrom<S>> {
    SenderFrom::new(batch, Shape::Mixed).ok()
}

/// Plays rounds.
fn play<S: Source, K: Sink, C: Carrier>(
    alloc: Global,
    sender: &mut SenderFrom<S>,
    receiver: &mut ReceiverInto<K>,
    line: &mut C,
    rounds: &[Round],
) -> Result<Trace, LineFault> {
    run(alloc, sender, receiver, rounds, line)
}

/// A round that is whole, or in which nothing arrives.
fn round_of(is_whole: bool) -> Round {
    if is_whole {
        Round {
            there: Delivery::Whole,
            back: Delivery::Whole,
        }
    } else {
        Round {
            there: Delivery::Lost,
            back: Delivery::Lost,
        }
    }
}

/// So many rounds that are whole, or in which nothing arrives.
fn rounds_of(alloc: Global, count: u32, is_whole: bool) -> Result<Vec<Round>, AllocError> {
    let mut rounds = Vec::new(alloc);
    for _ in 0..count {
        rounds.push(round_of(is_whole))?;
    }
    Ok(rounds)
}

/// The block 0 of a file `a` of this length.
fn opening(alloc: Global, length: u64) -> Result<Item, HeaderFault> {
    let header = Header::new(alloc, "a", length, Stamp::Nothing)?;
    Ok(Item::Block(write(&header)))
}
