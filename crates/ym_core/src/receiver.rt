//! The receiver, apart from what its host does with the files.

ghost use Rattle.std.specs.Prelude.{◌≡◌, ◌↔◌, IsTrue, MatchOption};
ghost use Rattle.std.specs.Option.{SomeIff};
ghost use Rattle.ym_core.specs.Receiver as table;
ghost use Rattle.ym_core.specs.Core.{IsCore, LengthFits, BlocksFit, FilesFit};
ghost use Rattle.ym_core.specs.HeardRef.{owned_heard};
ghost use Rattle.ym_core.specs.Step.{Hears, Moves, IsNext, AddsNone, MayAdd, with_added};
ghost use Rattle.ym_core.specs.declared.delivery.Heard.TheVariants as Heard;
ghost use Rattle.ym_frame.specs.declared.frame.Item.TheVariants as FrameItem;

mod steps;

use crate::ask::Step;
use crate::delivery::HeardRef;
use crate::stage::{OpenFile, Stage};
use crate::stand::Stand;
use crate::state::RecvState;
use std::marker::Model;
use ym_frame::{BlockRef, ItemRef};
use ym_header::MOST_LENGTH;
use ym_machine::{Confirm, GIVE_UP, MOST_FILES};

/// A receiver apart from its files. Contracts see it as the table's.
#[derive(Clone, Copy)]
pub struct ReceiverCore {
    confirm: Confirm,
    stage: Stage,
    files: usize,
    retries: u8,
    state: RecvState,
}

impl Model for ReceiverCore {
    ghost use Rattle.ym_core.specs.Receiver.{Receiver};
    ghost use Rattle.ym_core.specs.Core.{IsCore};

    ghost Value = { Receiver };

    ghost view = { λ r.
        record {
          confirm = r.confirm;
          stage = r.stage;
          files = r.files;
          retries = r.retries;
          state = r.state;
        } };

    ghost inverse = { λ r.
        record {
          confirm = r.confirm;
          stage = r.stage;
          files = r.files;
          retries = r.retries;
          state = r.state;
        } };

    ghost invariant = { λ r.
        IsCore (record {
          confirm = r.confirm;
          stage = r.stage;
          files = r.files;
          retries = r.retries;
          state = r.state;
        }) };
}

/// Whether what is known of a file fits, behind so many deliveries without progress.
fn file_fits(file: OpenFile, retries: u8) -> bool
    ensures { IsTrue result ↔
        (LengthFits (Stage.InFile file) × BlocksFit (Stage.InFile file) retries) }
{
    let OpenFile {
        length,
        taken,
        blocks,
        first_eot,
    } = file;
    // no sum here is above MOST_LENGTH + 265
    let drops = u64::from(retries) + u64::from(if first_eot { GIVE_UP } else { 0 });
    taken <= length
        && length <= MOST_LENGTH
        && (taken == length || blocks <= taken)
        && (!first_eot || taken == length)
        && blocks <= taken + drops
        && (blocks >= 0x40_0000_0000_0000 || taken <= blocks * 1024)
}

/// Whether a receiver may stand there.
fn stage_fits(stage: Stage, files: usize, retries: u8) -> bool
    ensures { IsTrue result ↔ (LengthFits stage × BlocksFit stage retries × FilesFit stage files) }
{
    match stage {
        Stage::AwaitHeader => files <= MOST_FILES,
        Stage::InFile(file) => files < MOST_FILES && file_fits(file, retries),
    }
}

impl ReceiverCore {
    /// A receiver that awaits its first header.
    pub fn new(confirm: Confirm) -> ReceiverCore
        ensures { result ≡ table.new_receiver confirm }
    {
        ReceiverCore {
            confirm,
            stage: Stage::AwaitHeader,
            files: 0,
            retries: 0,
            state: RecvState::Running,
        }
    }

    /// The receiver that stands there, or `None` where no receiver can come to stand.
    pub fn at(stand: Stand) -> Option<ReceiverCore>
        ensures { SomeIff result (IsCore stand) stand }
    {
        let Stand {
            confirm,
            stage,
            files,
            retries,
            state,
        } = stand;
        if !stage_fits(stage, files, retries) || retries > GIVE_UP {
            return None;
        }
        if state == RecvState::Running && retries >= GIVE_UP {
            return None;
        }
        Some(ReceiverCore {
            confirm,
            stage,
            files,
            retries,
            state,
        })
    }

    /// Where it stands.
    pub fn stand(&self) -> Stand
        ensures same { result ≡ self.now }
        ensures core { IsCore self.now }
    {
        let ReceiverCore {
            confirm,
            stage,
            files,
            retries,
            state,
        } = *self;
        Stand {
            confirm,
            stage,
            files,
            retries,
            state,
        }
    }

    /// How it has ended, or that it still runs.
    #[inline(always)]
    pub fn state(&self) -> RecvState
        ensures { result ≡ self.now.state }
    {
        self.state
    }

    /// How many files were committed.
    pub fn files(&self) -> usize
        ensures { result ≡ self.now.files }
    {
        self.files
    }

    /// The step of the table at one delivery: the receiver behind it, the reply, and what the host
    /// has to do first.
    pub fn hear<'a>(self, heard: &HeardRef<'a>) -> Step<'a>
        ensures step { Hears self (owned_heard heard.entry.now) result }
        ensures moves { Moves self result }
        ensures core { IsCore result.core }
    {
        let step = self.answer(heard);
        // what always holds of a receiver is known once a field was read
        let _ = &step.core.stage;
        step
    }

    /// The bytes that a delivery adds to the open file, where it is the file's next block and bytes
    /// are still missing. The step is then to add them, with `Reply::Ack`, and what [`took`] leaves
    /// of the receiver.
    ///
    /// [`took`]: ReceiverCore::took
    #[inline(always)]
    pub fn next_bytes<'a>(&self, heard: &HeardRef<'a>) -> Option<&'a [u8]>
        ensures { MatchOption result (AddsNone self.now (owned_heard heard.entry.now)) (λ bytes.
            IsNext self.now (owned_heard heard.entry.now) bytes.now) }
    {
        match self.state {
            RecvState::Running => match self.stage {
                Stage::InFile(file) => match heard {
                    HeardRef::Item(ItemRef::Block(block)) => self.missing_of(file, block),
                    _ => None,
                },
                Stage::AwaitHeader => None,
            },
            _ => None,
        }
    }

    /// The same of a block, where a file is taken.
    #[inline(always)]
    fn missing_of<'a>(&self, file: OpenFile, block: &BlockRef<'a>) -> Option<&'a [u8]>
        requires running { self.now.state ≡ RecvState.Running }
        requires in_file { self.now.stage ≡ Stage.InFile file }
        ensures { MatchOption result
            (AddsNone self.now (Heard.Item (FrameItem.Block block.entry.now))) (λ bytes.
            IsNext self.now (Heard.Item (FrameItem.Block block.entry.now)) bytes.now) }
    {
        // that the count of blocks is small always holds, which is known once a field was read
        let _ = &self.stage;
        if u64::from(block.number()) != (file.blocks + 1) % 256 || file.taken >= file.length {
            return None;
        }
        let body = block.body();
        let count = (file.length - file.taken).min(body.len() as u64);
        Some(&body[..count as usize])
    }

    /// Takes the step to which [`next_bytes`] gave so many bytes, in place.
    ///
    /// [`next_bytes`]: ReceiverCore::next_bytes
    #[inline(always)]
    pub fn took(&mut self, count: usize)
        requires { MayAdd self.old count }
        ensures added { self.new ≡ with_added self.old count }
        ensures core { IsCore self.new }
    {
        if let Stage::InFile(file) = &mut self.stage {
            file.taken += count as u64;
            file.blocks += 1;
            self.retries = 0;
        }
    }

    /// The receiver where the host could not do what a step asked: it has ended. The reply is then
    /// `Reply::Cancel`.
    pub fn failed(self) -> ReceiverCore
        ensures { result ≡ record self { state = RecvState.SinkFailed } }
    {
        ReceiverCore {
            state: RecvState::SinkFailed,
            ..self
        }
    }
}
