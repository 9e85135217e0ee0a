//! The lines of both ends, of which a trace has one each. What runs one end alone prints the same.

ghost use Rattle.std.specs.Prelude.{◌≡◌, Some};
ghost use Rattle.ym_line.specs.TraceText.{send_text, recv_text, fault_text, sender_words, receiver_words};

use std::fmt;
use ym_header::HeaderFault;
use ym_link::{RecvState, SendState};

/// How a sender has ended, by its name in a trace.
fn send_word(state: SendState) -> &'static str
    ensures { result.now ≡ send_text state }
{
    match state {
        SendState::Running => "running",
        SendState::Finished => "finished",
        SendState::NoReply => "no-reply",
        SendState::Cancelled => "cancelled",
        SendState::SourceFailed => "source-failed",
    }
}

/// A fault of a header, by its name in a trace.
fn fault_word(fault: HeaderFault) -> &'static str
    ensures { result.now ≡ fault_text fault }
{
    match fault {
        HeaderFault::NameEmpty => "name-empty",
        HeaderFault::NameLong => "name-long",
        HeaderFault::NameUnsafe => "name-unsafe",
        HeaderFault::NoLength => "no-length",
        HeaderFault::LengthLarge => "length-large",
        HeaderFault::Memory => "memory",
    }
}

/// How a receiver has ended, by its name in a trace.
#[derive(Clone, Copy)]
struct RecvWords(RecvState);

impl fmt::Display for RecvWords {
    ghost output = { λ words. Some (recv_text words.0) };

    fn fmt<W: fmt::Write>(&self, f: &mut fmt::Formatter<W>) -> fmt::Result {
        match self.0 {
            RecvState::Running => f.write_str("running"),
            RecvState::Finished => f.write_str("finished"),
            RecvState::TooManyErrors => f.write_str("too-many-errors"),
            RecvState::Cancelled => f.write_str("cancelled"),
            RecvState::OutOfStep => f.write_str("out-of-step"),
            RecvState::BadHeader(fault) => {
                let word = fault_word(fault);
                write!(f, "bad-header {word}")
            }
            RecvState::TooManyFiles => f.write_str("too-many-files"),
            RecvState::SinkFailed => f.write_str("sink-failed"),
        }
    }
}

/// How many files a sender reports as done, and how it has ended: `sender done D STATE`.
#[derive(Clone, Copy)]
pub struct SenderLine {
    /// Files acknowledged.
    pub done: usize,
    /// How the sender has ended.
    pub state: SendState,
}

impl fmt::Display for SenderLine {
    ghost output = { λ line. Some (sender_words line.done line.state) };

    fn fmt<W: fmt::Write>(&self, f: &mut fmt::Formatter<W>) -> fmt::Result {
        let done = self.done;
        let state = send_word(self.state);
        write!(f, "sender done {done} {state}")
    }
}

/// How many files a receiver has committed, and how it has ended: `receiver files M STATE`.
#[derive(Clone, Copy)]
pub struct ReceiverLine {
    /// Files committed.
    pub files: usize,
    /// How the receiver has ended.
    pub state: RecvState,
}

impl fmt::Display for ReceiverLine {
    ghost output = { λ line. Some (receiver_words line.files line.state) };

    fn fmt<W: fmt::Write>(&self, f: &mut fmt::Formatter<W>) -> fmt::Result {
        let files = self.files;
        let state = RecvWords(self.state);
        write!(f, "receiver files {files} {state}")
    }
}
