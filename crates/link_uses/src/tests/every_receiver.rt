//! Every single byte, every pair of control bytes and each item, in every state of a receiver of a
//! small batch, against the table.

ghost use Rattle.std.specs.Prelude.{◌≡◌, ◌<◌, ◌≤◌, ◌^◌, ◌-◌};

use super::batch::{data_block, delivery, header_of};
use super::{is_left, receiver_table, replies};
use std::alloc::Global;
use ym_core::{Confirm, Heard, HeardRef, OpenFile, ReceiverCore, RecvState, Stage, Stand, heard};
use ym_file::MemSink;
use ym_frame::{Item, Reply};
use ym_header::{HeaderFault, Zero, read, write, write_end};
use ym_link::{Receiver, ReceiverInto};

/// What a block 0 stands for; where it is no block 0, the answer is not looked at.
fn zero_of(alloc: Global, heard: &Heard) -> Result<Zero, HeaderFault> {
    match heard {
        Heard::Item(Item::Block(block)) => {
            let _size = block.size();
            read(alloc, block.body())
        }
        _ => Ok(Zero::End),
    }
}

/// Where a receiver stands, with what the table asks for.
fn stand_of(core: &ReceiverCore) -> Stand
    ensures stand { result ≡ core.now }
    ensures files { result.files ≤ 65535 }
    ensures runs { result.state ≡ RecvState.Running → result.retries < 10 }
    ensures blocks { (file : OpenFile) → result.stage ≡ Stage.InFile file →
        file.blocks < 2 ^ 64 - 1 }
{
    core.stand()
}

/// A receiver with its files, and one apart from them.
#[derive(Drop)]
struct Both {
    receiver: Receiver,
    core: ReceiverCore,
}

/// A receiver into a sink that does not fail.
fn new_receiver(alloc: Global, confirm: Confirm) -> Receiver {
    ReceiverInto::with_sink(alloc, MemSink::new(alloc, None), confirm)
}

/// Both of them, new.
fn new_receivers(alloc: Global, confirm: Confirm) -> Both {
    Both {
        receiver: new_receiver(alloc, confirm),
        core: ReceiverCore::new(confirm),
    }
}

/// Whether a delivery does to both what the table says.
fn answers_alike(alloc: Global, both: &mut Both, heard: &Heard) -> bool {
    let zero = zero_of(alloc, heard);
    let (stand, reply) = receiver_table::hears(stand_of(&both.core), &zero, heard);
    let step = both.core.hear(&HeardRef::of(heard));
    both.core = step.core;
    step.reply == reply
        && stand_of(&both.core) == stand
        && replies(&mut both.receiver, heard, reply)
        && is_left(&both.receiver, stand.state, stand.files)
}

/// The same, where the delivery could be made.
fn hears_alike(alloc: Global, both: &mut Both, heard: Result<Heard, HeaderFault>) -> bool {
    match heard {
        Ok(heard) => answers_alike(alloc, both, &heard),
        Err(_) => false,
    }
}

/// A delivery of a short block.
fn short(number: u64) -> Heard {
    Heard::Item(Item::Block(data_block(number)))
}

/// A delivery of the block 0 of a file of the batch.
fn opening(alloc: Global, file: usize) -> Result<Heard, HeaderFault> {
    Ok(Heard::Item(Item::Block(write(&header_of(alloc, file)?))))
}

/// The deliveries of the whole batch, with one block past the length of the first file.
fn step(alloc: Global, index: usize) -> Result<Heard, HeaderFault> {
    match index {
        0 => opening(alloc, 0),
        1..=4 => Ok(short(index as u64)),
        7 => opening(alloc, 1),
        10 => Ok(Heard::Item(Item::Block(write_end()))),
        _ => Ok(Heard::Item(Item::Eot)),
    }
}

/// A delivery by its number: the bytes that a sender is tried with, blocks, and what may stand in a
/// block 0.
fn probe(alloc: Global, index: usize) -> Result<Heard, HeaderFault> {
    Ok(match index {
        0..=271 => {
            let (bytes, count) = delivery(index);
            heard(&bytes[..count])
        }
        272..=278 => short(index as u64 - 272),
        279 => short(254),
        280 => short(255),
        281 => return opening(alloc, 0),
        282 => return opening(alloc, 1),
        _ => Heard::Item(Item::Block(write_end())),
    })
}

/// Whether these are the bytes of the first file of the batch.
fn are_first(bytes: &[u8]) -> bool {
    bytes.len() == 300
        && bytes.starts_with(&[b'A'; 128])
        && bytes[128..].starts_with(&[b'B'; 128])
        && bytes.ends_with(&[b'C'; 44])
}

/// Whether the committed files are the first of the batch, as many as the table says.
fn keeps_files(both: &Both) -> bool {
    let files = both.receiver.files();
    for (index, file) in files.iter().enumerate() {
        let is_alike = match index {
            0 => file.name() == "a" && are_first(file.bytes()),
            _ => file.name() == "b" && file.bytes().is_empty(),
        };
        if !is_alike {
            return false;
        }
    }
    files.len() == both.core.files()
}

/// Whether some steps and so many bad deliveries do to both what the table says.
fn steps_alike(alloc: Global, both: &mut Both, steps: usize, retries: usize) -> bool {
    for at in 0..steps {
        if !hears_alike(alloc, both, step(alloc, at)) {
            return false;
        }
    }
    for _ in 0..retries {
        if !answers_alike(alloc, both, &Heard::Bad) {
            return false;
        }
    }
    true
}

/// Whether a delivery, and an end block behind it, do to both what the table says, and leave it the
/// files that it says.
fn ends_alike(alloc: Global, both: &mut Both, index: usize) -> bool {
    hears_alike(alloc, both, probe(alloc, index))
        && hears_alike(alloc, both, step(alloc, 10))
        && keeps_files(both)
}

/// Compares each delivery, and an end block behind it, after some steps and so many bad deliveries.
fn compare_receiver(alloc: Global, confirm: Confirm, steps: usize, retries: usize) -> bool {
    for index in 0..284 {
        let mut both = new_receivers(alloc, confirm);
        if !(steps_alike(alloc, &mut both, steps, retries) && ends_alike(alloc, &mut both, index)) {
            return false;
        }
    }
    true
}

#[test]
fn every_state_of_a_receiver(rt: HostRuntime) {
    for confirm in [Confirm::Twice, Confirm::Once] {
        for steps in 0..=11 {
            for retries in [0, 9, 10] {
                assert!(rt; compare_receiver(rt.alloc(), confirm, steps, retries));
            }
        }
    }
}

/// The replies to the whole batch, step by step.
static REPLIES: [Reply; 11] = [
    Reply::AckStart,
    Reply::Ack,
    Reply::Ack,
    Reply::Ack,
    Reply::Ack,
    Reply::Nak,
    Reply::AckStart,
    Reply::AckStart,
    Reply::Nak,
    Reply::AckStart,
    Reply::Ack,
];

/// Whether a delivery that could be made is answered by this reply.
fn replies_to(receiver: &mut Receiver, heard: Result<Heard, HeaderFault>, reply: Reply) -> bool {
    match heard {
        Ok(heard) => replies(receiver, &heard, reply),
        Err(_) => false,
    }
}

/// Whether each step of the batch is answered by its reply.
fn replies_to_all(alloc: Global, receiver: &mut Receiver) -> bool {
    for (index, reply) in REPLIES.iter().enumerate() {
        if !replies_to(receiver, step(alloc, index), *reply) {
            return false;
        }
    }
    true
}

#[test]
fn replies_to_the_batch(rt: HostRuntime) {
    let mut receiver = new_receiver(rt.alloc(), Confirm::Twice);
    assert!(rt; replies_to_all(rt.alloc(), &mut receiver));
}
