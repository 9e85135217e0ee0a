//! The reference's sender, which hears what the peer hears.

ghost use Rattle.std.specs.Prelude.{◌≡◌, ◌↔◌, true};

use crate::act::{Act, asked_of_sender};
use std::marker::Model;
use ym_core::{BatchShape, SendState, Standing, first_position};

/// A batch of which is known in how many data blocks each file is sent.
#[derive(Drop)]
struct BlockCounts<'a> {
    /// The data blocks of each file.
    blocks: &'a [u64],
}

impl<'a> BatchShape for BlockCounts<'a> {
    ghost counts = { λ batch. batch.blocks.now };

    fn files(&self) -> usize {
        self.blocks.len()
    }

    fn blocks(&self, file: usize) -> u64 {
        self.blocks[file]
    }
}

/// A sender of the reference, in the middle of a batch.
#[derive(Drop)]
pub struct SenderTwin<'a> {
    blocks: &'a [u64],
    standing: Standing,
}

impl<'a> Model for SenderTwin<'a> {
    ghost use Rattle.ym_judge.specs.TwinSender.{TwinParts, IsTwin};

    ghost Value = { TwinParts };

    ghost view = { λ t. record { blocks = t.blocks.now; standing = t.standing } };

    ghost invariant = { λ t. IsTwin (record { blocks = t.blocks.now; standing = t.standing }) };
}

impl<'a> SenderTwin<'a> {
    ghost use Rattle.ym_judge.specs.TwinSender.{HasEnded, HasFinished, hears_on, new_at};
    ghost use Rattle.ym_judge.specs.Acts.{act_of};

    /// It waits at the first frame of a batch of which each file is sent in so many data blocks.
    pub fn new(blocks: &'a [u64]) -> SenderTwin<'a>
        ensures { result ≡ new_at blocks.entry.now }
    {
        let first = first_position(&BlockCounts { blocks });
        SenderTwin {
            blocks,
            standing: Standing::new(first),
        }
    }

    /// Hears a delivery, as the table says.
    pub fn hear(&mut self, bytes: &[u8])
        ensures { self.new ≡ hears_on self.old bytes.now }
    {
        let batch = BlockCounts {
            blocks: self.blocks,
        };
        self.standing = self.standing.after(&batch, bytes).standing;
    }

    /// What it does now.
    pub fn asked(&self) -> Act
        ensures { result ≡ act_of self.now.standing }
    {
        asked_of_sender(self.standing)
    }

    /// Whether it has ended.
    pub fn has_ended(&self) -> bool
        ensures { (result ≡ true) ↔ HasEnded self.now.standing }
    {
        self.standing.state != SendState::Running
    }

    /// Whether it has ended by the end of the batch.
    pub fn has_finished(&self) -> bool
        ensures { (result ≡ true) ↔ HasFinished self.now.standing }
    {
        self.standing.state == SendState::Finished
    }
}
