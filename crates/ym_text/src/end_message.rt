//! What is told of how an end has ended.

ghost use Rattle.std.specs.Prelude.{◌≡◌, Some};
ghost use Rattle.ym_text.specs.Messages.{end_text, words_text, header_text};
ghost use Rattle.ym_text.specs.Messages.{sender_end, receiver_end, out_of_step, header_end};

use crate::came::{Lately, Sight};
use crate::cause::{Cause, Peer};
use crate::reason::Reason;
use std::fmt;
use ym_core::{RecvState, SendState};
use ym_header::HeaderFault;

/// Why an end has ended before its batch was whole. Its `Display` is the line that tells it,
/// without its end.
#[derive(Clone, Copy)]
pub enum EndMessage {
    /// The other end cancelled.
    PeerCancelled,
    /// The other end closed the connection.
    PeerClosed,
    /// The connection failed.
    LineFailed,
    /// The terminal that is the line has hung up.
    LineHungUp,
    /// Its reads do not end by themselves.
    LineEndless,
    /// The system refused a call of it.
    LineRefused(Reason),
    /// A sender heard nothing of use, as often as it may; what came in place of it.
    NoReply(Lately),
    /// A receiver heard nothing of use, as often as it may; what came in place of it.
    NoBlock(Lately),
    /// A file that is sent could not be read, or is another one than it was.
    SourceFailed,
    /// A block came out of turn.
    OutOfStep,
    /// The first block that came is no block 0, as where a sender of XMODEM sends.
    Nameless,
    /// A block 0 was refused.
    BadHeader(HeaderFault),
    /// One was refused that had no room for a length.
    NoRoom,
    /// One more file came than a batch may have.
    TooManyFiles,
}

/// Why a block came out of turn, to a receiver that saw this of the sender.
fn out_of_step(seen: Sight) -> EndMessage
    ensures { result ≡ out_of_step seen }
{
    match seen {
        Sight::Nameless => EndMessage::Nameless,
        _ => EndMessage::OutOfStep,
    }
}

/// Why a block 0 was refused, to a receiver that saw this of it.
fn bad_header(seen: Sight, fault: HeaderFault) -> EndMessage
    ensures { result ≡ header_end seen fault }
{
    match (seen, fault) {
        (Sight::Crammed, HeaderFault::NoLength) => EndMessage::NoRoom,
        _ => EndMessage::BadHeader(fault),
    }
}

impl EndMessage {
    /// Why a sender has ended in this state, where it has not finished, and this came of late.
    pub fn of_sender(state: SendState, lately: Lately) -> Option<EndMessage>
        ensures { result ≡ sender_end lately state }
    {
        match state {
            SendState::Running | SendState::Finished => None,
            SendState::NoReply => Some(EndMessage::NoReply(lately)),
            SendState::Cancelled => Some(EndMessage::PeerCancelled),
            SendState::SourceFailed => Some(EndMessage::SourceFailed),
        }
    }

    /// Why a receiver has ended in this state, where it has not finished, and this came of late. Of
    /// a sink that failed more is told elsewhere.
    pub fn of_receiver(state: RecvState, lately: Lately) -> Option<EndMessage>
        ensures { result ≡ receiver_end lately state }
    {
        match state {
            RecvState::Running | RecvState::Finished | RecvState::SinkFailed => None,
            RecvState::TooManyErrors => Some(EndMessage::NoBlock(lately)),
            RecvState::Cancelled => Some(EndMessage::PeerCancelled),
            RecvState::OutOfStep => Some(out_of_step(lately.seen)),
            RecvState::BadHeader(fault) => Some(bad_header(lately.seen, fault)),
            RecvState::TooManyFiles => Some(EndMessage::TooManyFiles),
        }
    }
}

/// Why a block 0 was refused, in words.
fn header_words(fault: HeaderFault) -> &'static str
    ensures { result.now ≡ header_text fault }
{
    match fault {
        HeaderFault::NameEmpty => "the sender gave a file an empty name",
        HeaderFault::NameLong => "the sender gave a file a name of more than 255 bytes",
        HeaderFault::NameUnsafe => {
            "the sender gave an unsafe name: a path, not UTF-8, or with control characters"
        }
        HeaderFault::NoLength => {
            "the sender gave a file no length: use a sender of YMODEM that gives one"
        }
        HeaderFault::LengthLarge => "the sender gave a file a length above 9223372036854775807",
        HeaderFault::Memory => "out of memory",
    }
}

/// What the line of an end is made of.
#[derive(Clone, Copy)]
pub(crate) enum EndWords {
    /// A text that is the same each time.
    Text(&'static str),
    /// Why the system refused a call.
    Refused(Reason),
    /// Why an end heard nothing of use.
    Unheard(Cause),
}

impl EndMessage {
    /// What its line is made of.
    fn words(self) -> EndWords
        ensures { end_text self ≡ words_text result }
    {
        match self {
            EndMessage::PeerCancelled => EndWords::Text("the other end cancelled (CAN CAN)"),
            EndMessage::PeerClosed => EndWords::Text("the other end closed the connection"),
            EndMessage::LineFailed => EndWords::Text("the connection failed"),
            EndMessage::LineHungUp => EndWords::Text("the line hung up"),
            EndMessage::LineEndless => EndWords::Text(
                "reads of the line do not end by themselves: \
                set it by `stty raw -echo clocal min 0 time 1`",
            ),
            EndMessage::LineRefused(why) => EndWords::Refused(why),
            EndMessage::NoReply(lately) => EndWords::Unheard(Cause::of(Peer::Receiver, lately)),
            EndMessage::NoBlock(lately) => EndWords::Unheard(Cause::of(Peer::Sender, lately)),
            EndMessage::SourceFailed => EndWords::Text(
                "a file could not be read, or has changed since it was looked at",
            ),
            EndMessage::OutOfStep => EndWords::Text(
                "a block came out of turn: the two ends are out of step, send again",
            ),
            EndMessage::Nameless => EndWords::Text(
                "the sender names no file, as XMODEM does: start it as a sender of YMODEM",
            ),
            EndMessage::BadHeader(fault) => EndWords::Text(header_words(fault)),
            EndMessage::NoRoom => EndWords::Text(
                "the name leaves block 0 no room for the length: send the file under a shorter one",
            ),
            EndMessage::TooManyFiles => {
                EndWords::Text("more than 65535 files came: send the rest in another batch")
            }
        }
    }
}

impl fmt::Display for EndMessage {
    ghost output = { λ message. Some (end_text message) };

    fn fmt<W: fmt::Write>(&self, f: &mut fmt::Formatter<W>) -> fmt::Result {
        match self.words() {
            EndWords::Text(text) => f.write_str(text),
            EndWords::Refused(why) => write!(f, "the line failed: {why}"),
            EndWords::Unheard(why) => write!(f, "{why}"),
        }
    }
}
