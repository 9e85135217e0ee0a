//! Every single byte and every pair of control bytes, in every state of a sender of a small batch,
//! against the table: where a sender may stand, and then a sender with its files, in the states to
//! which deliveries bring one.

ghost use Rattle.std.specs.Prelude.{◌≡◌, ◌<◌, ◌∷◌, []};

use super::batch::{COUNTS, delivery, file_bytes, frame_of};
use super::{has_frame, hear, sender_table, stands};
use std::alloc::Global;
use std::marker::Model;
use ym_core::{
    BatchShape, Mode, Position, SendState, SendStep, Standing, first_position, next_position,
};
use ym_file::{Shape, Source};
use ym_frame::control_of;
use ym_header::Stamp;
use ym_link::{SendFile, Sender, SenderFrom, SourceFile};

const START: &[u8] = &[0x43];

const ACK: &[u8] = &[0x06];

const ACK_START: &[u8] = &[0x06, 0x43];

/// How many frames the batch has.
const FRAMES: usize = 8;

/// The batch, as a sender counts it.
struct Counted;

impl BatchShape for Counted {
    ghost counts = { λ _. 3 ∷ 0 ∷ [] };

    fn files(&self) -> usize {
        2
    }

    fn blocks(&self, file: usize) -> u64 {
        if file == 0 { 3 } else { 0 }
    }
}

/// Where a sender of the batch stands.
#[derive(Drop)]
struct Stood {
    standing: Standing,
}

impl Model for Stood {
    ghost use Rattle.std.specs.Prelude.{◌≡◌, ◌<◌, ◌∷◌, []};
    ghost use Rattle.ym_core.specs.Position.{IsPosition};
    ghost use Rattle.ym_core.specs.declared.standing.Standing.{Standing};
    ghost use Rattle.ym_core.specs.declared.state.SendState.TheVariants.{Running};

    ghost Value = { Standing };

    ghost view = { λ s. s.standing };

    ghost invariant = { λ s. IsPosition (3 ∷ 0 ∷ []) s.standing.position
        × (s.standing.state ≡ Running → s.standing.retries < 10) };
}

impl Stood {
    /// Waiting at this frame.
    fn at(frame: usize) -> Stood {
        let mut stood = Stood {
            standing: Standing::new(first_position(&Counted)),
        };
        for _ in 0..frame {
            stood.skip();
        }
        stood
    }

    /// Puts it at the next frame of the batch, as if it were new.
    fn skip(&mut self) {
        self.standing = Standing::new(next_position(&Counted, self.standing.position));
    }

    /// Whether a delivery of at most two control bytes does to it what the table says.
    fn hears_alike(&mut self, bytes: &[u8]) -> bool {
        let told = by_table(self.standing, bytes);
        let step = self.standing.after(&Counted, bytes);
        self.standing = step.standing;
        step == told
    }
}

/// What the table says of a delivery of at most two control bytes.
fn by_table(standing: Standing, bytes: &[u8]) -> SendStep
    requires { standing.state ≡ SendState.Running → standing.retries < 10 }
{
    let first = bytes.first().copied().and_then(|byte| control_of(byte));
    let second = bytes.get(1).copied().and_then(|byte| control_of(byte));
    sender_table::hears(&COUNTS, standing, first, second)
}

/// Compares each delivery, and one more behind it, at one frame of the batch: waiting or not, after
/// so many empty deliveries.
fn compare_standing(frame: usize, mode: Mode, retries: usize) -> bool {
    for index in 0..272 {
        let mut stood = Stood::at(frame);
        let mut alike = true;
        if mode == Mode::Sent {
            alike = stood.hears_alike(START);
        }
        for _ in 0..retries {
            alike = alike && stood.hears_alike(&[]);
        }
        let (bytes, count) = delivery(index);
        alike = alike && stood.hears_alike(&bytes[..count]);
        if !alike || !stood.hears_alike(ACK_START) {
            return false;
        }
    }
    true
}

#[test]
fn every_position_to_stand(rt: HostRuntime) {
    for frame in 0..FRAMES {
        for mode in [Mode::Waiting, Mode::Sent] {
            for retries in [0, 9, 10, 11] {
                assert!(rt; compare_standing(frame, mode, retries));
            }
        }
    }
}

/// Puts a file of this name and these bytes behind those of a batch.
fn add_file(alloc: Global, batch: &mut Vec<SendFile>, name: &str, bytes: Vec<u8>) -> Option<()> {
    let file = SendFile::new(alloc, name, bytes, Stamp::Nothing).ok()?;
    batch.push(file).ok()
}

/// A new sender of the batch.
fn new_sender(alloc: Global) -> Option<Sender> {
    let mut batch = Vec::new(alloc);
    add_file(alloc, &mut batch, "a", file_bytes(alloc).ok()?)?;
    add_file(alloc, &mut batch, "b", Vec::new(alloc))?;
    sender_from(batch)
}

/// A sender of a batch, in short blocks.
fn sender_from<S: Source + Drop>(batch: Vec<SourceFile<S>>) -> Option<SenderFrom<S>> {
    SenderFrom::new(batch, Shape::Short).ok()
}

/// A sender that deliveries have brought to a frame. It waits at none that stands behind a data
/// block.
fn sender_at(alloc: Global, frame: usize, mode: Mode) -> Option<Sender> {
    let mut sender = new_sender(alloc)?;
    for before in 0..frame {
        hear(&mut sender, if before == 0 { START } else { ACK_START });
    }
    let last = match (frame, mode) {
        (0, Mode::Waiting) => return Some(sender),
        (0, Mode::Sent) => START,
        (_, Mode::Waiting) => ACK,
        (_, Mode::Sent) => ACK_START,
    };
    hear(&mut sender, last);
    Some(sender)
}

/// Whether a sender has the frame of this position to be sent.
fn sends(alloc: Global, sender: &Sender, position: Position) -> bool {
    match frame_of(alloc, position) {
        Ok(frame) => has_frame(sender, Some(frame.as_bytes())),
        Err(_) => false,
    }
}

/// Whether a sender shows that it stands there.
fn shows(alloc: Global, sender: &Sender, standing: Standing) -> bool {
    let has_spoken = match (standing.state, standing.mode) {
        (SendState::Running, Mode::Sent) => sends(alloc, sender, standing.position),
        _ if standing.cancel_pending => has_frame(sender, Some(&[0x18, 0x18])),
        _ => has_frame(sender, None),
    };
    has_spoken && stands(sender, standing.state, standing.position.done(COUNTS.len()))
}

/// Whether a delivery of at most two control bytes does to a sender that stands there what the
/// table says.
fn hears_alike(alloc: Global, sender: &mut Sender, standing: &mut Standing, bytes: &[u8]) -> bool {
    if standing.state == SendState::Running && standing.retries >= 10 {
        return false;
    }
    *standing = by_table(*standing, bytes).standing;
    hear(sender, bytes);
    shows(alloc, sender, *standing)
}

/// Whether so many empty deliveries, that of this number, and one more behind it, do to a sender
/// that stands there what the table says.
fn ends_alike(
    alloc: Global,
    sender: &mut Sender,
    mut standing: Standing,
    retries: usize,
    index: usize,
) -> bool {
    if !shows(alloc, sender, standing) {
        return false;
    }
    for _ in 0..retries {
        if !hears_alike(alloc, sender, &mut standing, &[]) {
            return false;
        }
    }
    let (bytes, count) = delivery(index);
    hears_alike(alloc, sender, &mut standing, &bytes[..count])
        && hears_alike(alloc, sender, &mut standing, ACK_START)
}

/// Compares each delivery, and one more behind it, at one frame of the batch: waiting or not, after
/// so many empty deliveries.
fn compare_sender(alloc: Global, frame: usize, mode: Mode, retries: usize) -> bool {
    let Stood { standing: waiting } = Stood::at(frame);
    let standing = Standing { mode, ..waiting };
    for index in 0..272 {
        let is_alike = match sender_at(alloc, frame, mode) {
            Some(mut sender) => ends_alike(alloc, &mut sender, standing, retries, index),
            None => false,
        };
        if !is_alike {
            return false;
        }
    }
    true
}

/// A sender waits at no frame that stands behind a data block.
#[test]
fn every_state_of_a_sender(rt: HostRuntime) {
    for frame in 0..FRAMES {
        for mode in [Mode::Waiting, Mode::Sent] {
            if mode == Mode::Waiting && (2..5).contains(&frame) {
                continue;
            }
            for retries in [0, 9, 10, 11] {
                assert!(rt; compare_sender(rt.alloc(), frame, mode, retries));
            }
        }
    }
}
