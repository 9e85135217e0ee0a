//! The reference's receivers, which hear what the peer hears.

ghost use Rattle.std.specs.Prelude.{◌≡◌, ◌↔◌, ◌++◌, IsTrue, true};
ghost use Rattle.ym_core.specs.Receiver.{new_receiver};
ghost use Rattle.ym_frame.specs.Control.{reply_bytes};
ghost use Rattle.ym_judge.specs.Judging.{AnswersSo, HasStopped, most_of};

use ym_core::{ReceiverCore, RecvState, Step, heard_in};
use ym_frame::Reply;
use ym_machine::Confirm;

/// Both receivers of the reference, behind the same deliveries: one that wants to hear an EOT
/// twice, and one that acknowledges the first.
#[derive(Clone, Copy)]
pub struct Twins {
    /// It wants to hear an EOT twice.
    pub twice: ReceiverCore,
    /// It acknowledges the first EOT.
    pub once: ReceiverCore,
}

/// What both answer.
#[derive(Clone, Copy, PartialEq, Eq)]
pub struct Answers {
    /// What the first one does.
    pub twice: Reply,
    /// What the other does.
    pub once: Reply,
}

/// What a receiver makes of a delivery, and what it answers.
fn step_of(core: ReceiverCore, bytes: &[u8]) -> (ReceiverCore, Reply)
    ensures { AnswersSo core bytes.now result.1 result.0 }
{
    let Step { core, reply, .. } = core.hear(&heard_in(bytes));
    (core, reply)
}

/// Whether a receiver has ended, and not by the end of the batch.
fn is_stopped(core: &ReceiverCore) -> bool
    ensures { (result ≡ true) ↔ HasStopped core.now }
{
    core.state() != RecvState::Running && core.state() != RecvState::Finished
}

impl Twins {
    /// Both await their first header.
    pub fn new() -> Twins
        ensures twice { result.twice ≡ new_receiver Confirm.Twice }
        ensures once { result.once ≡ new_receiver Confirm.Once }
    {
        Twins {
            twice: ReceiverCore::new(Confirm::Twice),
            once: ReceiverCore::new(Confirm::Once),
        }
    }

    /// What both make of a delivery, and what they answer: what the table says.
    pub fn hear(self, bytes: &[u8]) -> (Twins, Answers)
        ensures twice { AnswersSo self.twice bytes.now result.1.twice result.0.twice }
        ensures once { AnswersSo self.once bytes.now result.1.once result.0.once }
    {
        let (twice, asked) = step_of(self.twice, bytes);
        let (once, asked_once) = step_of(self.once, bytes);
        let answers = Answers {
            twice: asked,
            once: asked_once,
        };
        (Twins { twice, once }, answers)
    }

    /// How many files are committed by what was delivered: by the one that has more.
    pub fn held(&self) -> usize
        ensures { result ≡ most_of self.now.twice.files self.now.once.files }
    {
        self.twice.files().max(self.once.files())
    }

    /// Whether both have ended, and not by the end of the batch.
    pub fn has_stopped(&self) -> bool
        ensures { (result ≡ true) ↔ (HasStopped self.now.twice × HasStopped self.now.once) }
    {
        is_stopped(&self.twice) && is_stopped(&self.once)
    }
}

/// Whether a peer gave these two answers, and nothing besides.
pub fn gave(first: Reply, second: Reply, bytes: &[u8]) -> bool
    ensures { IsTrue result ↔ (bytes.now ≡ reply_bytes first ++ reply_bytes second) }
{
    match bytes.strip_prefix(first.as_bytes()) {
        Some(rest) => rest == second.as_bytes(),
        None => false,
    }
}
