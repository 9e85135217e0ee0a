//! The lines of the receiver's table.

ghost use Rattle.std.specs.Prelude.{◌≡◌, ◌≢◌, ◌≤◌, ◌+◌, ◌⊎◌, Ok, Result, length as list_length};
ghost use Rattle.ym_header.specs.declared.reading.Zero.{Zero};
ghost use Rattle.ym_header.specs.declared.fault.HeaderFault.{HeaderFault};
ghost use Rattle.ym_core.specs.Receiver as table;
ghost use Rattle.ym_core.specs.HeardRef.{owned_heard};
ghost use Rattle.ym_core.specs.Step.{Hears, Moves, IsStep, ReadsAs};

use super::ReceiverCore;
use crate::ask::{Ask, Step};
use crate::delivery::HeardRef;
use crate::stage::{OpenFile, Stage};
use crate::state::RecvState;
use ym_frame::{BlockRef, ItemRef, Reply};
use ym_header::{HeaderRef, ZeroRef, read_borrowed};
use ym_machine::{Confirm, GIVE_UP, MOST_FILES};

impl ReceiverCore {
    /// The table's step.
    pub(super) fn answer<'a>(self, heard: &HeardRef<'a>) -> Step<'a>
        ensures step { Hears self (owned_heard heard.entry.now) result }
        ensures moves { Moves self result }
    {
        match self.state {
            RecvState::Running => match self.stage {
                Stage::AwaitHeader => return self.hear_awaiting(heard),
                Stage::InFile(file) => return self.hear_in_file(file, heard),
            },
            RecvState::Finished => Step {
                core: self,
                reply: finished_reply(heard),
                ask: Ask::Nothing,
            },
            _ => Step {
                core: self,
                reply: Reply::Silence,
                ask: Ask::Nothing,
            },
        }
    }

    /// A step without progress.
    fn stay<'a>(self, reply: Reply) -> Step<'a>
        requires { self.state ≡ RecvState.Running }
        ensures step { IsStep result (table.stays self reply) }
        ensures moves { Moves self result }
    {
        let retries = self.retries + 1;
        if retries < GIVE_UP {
            return Step {
                core: ReceiverCore { retries, ..self },
                reply,
                ask: Ask::Nothing,
            };
        }
        Step {
            core: ReceiverCore {
                retries,
                state: RecvState::TooManyErrors,
                ..self
            },
            reply: Reply::Cancel,
            ask: Ask::Nothing,
        }
    }

    /// The end, with a reply.
    fn end<'a>(self, state: RecvState, reply: Reply) -> Step<'a>
        requires { state ≢ RecvState.Running }
        ensures step { IsStep result (table.ends self state reply) }
        ensures moves { Moves self result }
    {
        Step {
            core: ReceiverCore { state, ..self },
            reply,
            ask: Ask::Nothing,
        }
    }

    /// The end where the host could not do what a step asked, in place.
    #[inline(always)]
    pub fn fail(&mut self)
        ensures { self.new ≡ record self.old { state = RecvState.SinkFailed } }
    {
        self.state = RecvState::SinkFailed;
    }

    /// Hears where a header is awaited.
    fn hear_awaiting<'a>(self, heard: &HeardRef<'a>) -> Step<'a>
        requires running { self.state ≡ RecvState.Running }
        requires awaiting { self.stage ≡ Stage.AwaitHeader }
        ensures step { Hears self (owned_heard heard.entry.now) result }
        ensures moves { Moves self result }
    {
        match heard {
            HeardRef::Item(ItemRef::Block(block)) => {
                if block.number() != 0 {
                    return self.end(RecvState::OutOfStep, Reply::Cancel);
                }
                return self.hear_zero(block.body());
            }
            HeardRef::Item(ItemRef::Eot) => {
                let reply = if self.files > 0 {
                    Reply::AckStart
                } else {
                    Reply::Start
                };
                self.stay(reply)
            }
            HeardRef::Item(ItemRef::Cancel) => self.end(RecvState::Cancelled, Reply::Silence),
            HeardRef::Bad => self.stay(Reply::Start),
        }
    }

    /// Reads the body of a block 0.
    fn hear_zero<'a>(self, body: &'a [u8]) -> Step<'a>
        requires running { self.state ≡ RecvState.Running }
        requires awaiting { self.stage ≡ Stage.AwaitHeader }
        requires sized { (list_length body.now ≡ 128) ⊎ (list_length body.now ≡ 1024) }
        ensures step { (zero : Result Zero HeaderFault) × ReadsAs body.entry.now zero ×
            IsStep result (table.zero_heard self zero) }
        ensures moves { Moves self result }
    {
        match read_borrowed(body) {
            Ok(ZeroRef::File(header)) => return self.begin(header),
            Ok(ZeroRef::End) => self.end(RecvState::Finished, Reply::Ack),
            Err(fault) => self.end(RecvState::BadHeader(fault), Reply::Cancel),
        }
    }

    /// A header opens a file.
    fn begin<'a>(self, header: HeaderRef<'a>) -> Step<'a>
        requires running { self.state ≡ RecvState.Running }
        requires awaiting { self.stage ≡ Stage.AwaitHeader }
        ensures step { IsStep result (table.zero_heard self (Ok (Zero.File header.entry))) }
        ensures moves { Moves self result }
    {
        if self.files >= MOST_FILES {
            return self.end(RecvState::TooManyFiles, Reply::Cancel);
        }
        let file = OpenFile {
            length: header.length(),
            taken: 0,
            blocks: 0,
            first_eot: false,
        };
        Step {
            core: ReceiverCore {
                stage: Stage::InFile(file),
                retries: 0,
                ..self
            },
            reply: Reply::AckStart,
            ask: Ask::Begin(header),
        }
    }

    /// Hears where a file is taken.
    fn hear_in_file<'a>(self, file: OpenFile, heard: &HeardRef<'a>) -> Step<'a>
        requires running { self.state ≡ RecvState.Running }
        requires in_file { self.stage ≡ Stage.InFile file }
        ensures step { IsStep result (table.in_file_hears self file (owned_heard heard.entry.now)) }
        ensures moves { Moves self result }
    {
        match heard {
            HeardRef::Item(ItemRef::Block(block)) => return self.hear_block(file, block),
            HeardRef::Item(ItemRef::Eot) => self.hear_eot(file),
            HeardRef::Item(ItemRef::Cancel) => self.end(RecvState::Cancelled, Reply::Silence),
            HeardRef::Bad => {
                let reply = if file.blocks == 0 {
                    Reply::Start
                } else {
                    Reply::Nak
                };
                self.stay(reply)
            }
        }
    }

    /// A block: the next one, the last one again, or one out of step.
    fn hear_block<'a>(self, file: OpenFile, block: &BlockRef<'a>) -> Step<'a>
        requires running { self.state ≡ RecvState.Running }
        requires in_file { self.stage ≡ Stage.InFile file }
        ensures step { IsStep result (table.block_heard self file block.entry.now.number
            block.entry.now.body) }
        ensures moves { Moves self result }
    {
        // that the count of blocks is small always holds, which is known once a field was read
        let _ = &self.stage;
        let number = u64::from(block.number());
        if number == (file.blocks + 1) % 256 {
            return self.take_block(file, block.body());
        }
        if number != file.blocks % 256 {
            return self.end(RecvState::OutOfStep, Reply::Cancel);
        }
        let reply = if file.blocks == 0 {
            Reply::AckStart
        } else {
            Reply::Ack
        };
        self.stay(reply)
    }

    /// The next block: what is missing of its body is added, and a body past the length is dropped.
    fn take_block<'a>(self, file: OpenFile, body: &'a [u8]) -> Step<'a>
        requires running { self.state ≡ RecvState.Running }
        requires in_file { self.stage ≡ Stage.InFile file }
        requires sized { (list_length body.now ≡ 128) ⊎ (list_length body.now ≡ 1024) }
        ensures step { IsStep result (table.next_block self file body.entry.now) }
        ensures moves { Moves self result }
    {
        // as in `hear_block`
        let _ = &self.stage;
        let blocks = file.blocks + 1;
        if file.taken >= file.length {
            return self.drop_block(file);
        }
        let missing = file.length - file.taken;
        let count = missing.min(body.len() as u64);
        let file = OpenFile {
            taken: file.taken + count,
            blocks,
            ..file
        };
        Step {
            core: ReceiverCore {
                stage: Stage::InFile(file),
                retries: 0,
                ..self
            },
            reply: Reply::Ack,
            ask: Ask::Add(&body[..count as usize]),
        }
    }

    /// A block past the length: it is counted, and its bytes are dropped.
    fn drop_block<'a>(self, file: OpenFile) -> Step<'a>
        requires running { self.state ≡ RecvState.Running }
        requires in_file { self.stage ≡ Stage.InFile file }
        requires covered { file.length ≤ file.taken }
        ensures step { IsStep result (table.stays
            (record self {
              stage = Stage.InFile (record file { blocks = file.blocks + 1 });
            }) Reply.Ack) }
        ensures moves { Moves self result }
    {
        let blocks = file.blocks + 1;
        let stage = Stage::InFile(OpenFile { blocks, ..file });
        let retries = self.retries + 1;
        if retries < GIVE_UP {
            return Step {
                core: ReceiverCore {
                    stage,
                    retries,
                    ..self
                },
                reply: Reply::Ack,
                ask: Ask::Nothing,
            };
        }
        Step {
            core: ReceiverCore {
                stage,
                retries,
                state: RecvState::TooManyErrors,
                ..self
            },
            reply: Reply::Cancel,
            ask: Ask::Nothing,
        }
    }

    /// An EOT: before all bytes of the file have come, the first one behind them, or the one that
    /// commits.
    fn hear_eot<'a>(self, file: OpenFile) -> Step<'a>
        requires running { self.state ≡ RecvState.Running }
        requires in_file { self.stage ≡ Stage.InFile file }
        ensures step { IsStep result (table.eot_heard self file) }
        ensures moves { Moves self result }
    {
        if file.taken < file.length {
            return self.stay(Reply::Nak);
        }
        if self.confirm == Confirm::Twice && !file.first_eot {
            let file = OpenFile {
                first_eot: true,
                ..file
            };
            return Step {
                core: ReceiverCore {
                    stage: Stage::InFile(file),
                    retries: 0,
                    ..self
                },
                reply: Reply::Nak,
                ask: Ask::Nothing,
            };
        }
        Step {
            core: ReceiverCore {
                stage: Stage::AwaitHeader,
                files: self.files + 1,
                retries: 0,
                ..self
            },
            reply: Reply::AckStart,
            ask: Ask::Commit,
        }
    }
}

/// What a finished receiver answers: ACK to the end block, and nothing to all else.
fn finished_reply(heard: &HeardRef<'_>) -> Reply
    ensures { result ≡ table.finished_reply (owned_heard heard.entry.now) }
{
    match heard {
        HeardRef::Item(ItemRef::Block(block)) => {
            if block.number() == 0 && block.body()[0] == 0 {
                Reply::Ack
            } else {
                Reply::Silence
            }
        }
        _ => Reply::Silence,
    }
}
