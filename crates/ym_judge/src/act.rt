//! What an end does in its turn.

ghost use Rattle.std.specs.Prelude.{◌≡◌, MatchOption, None, Some};
ghost use Rattle.ym_core.specs.Hearing.{heard_of};
ghost use Rattle.ym_judge.specs.Acts.{act_at, act_of, act_heard, answer_in, are_cans, prefix_answer};

use std::fmt;
use ym_core::{HeardRef, Mode, Position, SendState, Standing, heard_in};
use ym_form::BlockForm;
use ym_frame::{CAN, ItemRef, Reply};

/// What an end does in its turn.
#[derive(Clone, Copy, PartialEq, Eq)]
pub enum Act {
    /// It writes nothing.
    Nothing,
    /// It sends the block 0 of a file.
    Header,
    /// It sends the data block with this number, modulo 256.
    Block(u8),
    /// It sends an EOT.
    Eot,
    /// It sends the end block.
    End,
    /// It sends CAN CAN.
    Cancel,
    /// It writes what is no frame, or no answer.
    Noise,
    /// It answers so.
    Answer(Reply),
    /// It answers so, and then so.
    Answers(Reply, Reply),
    /// It sends a block 0 or an end block of this form.
    Form(BlockForm),
}

/// The frame of a position.
fn act_at(position: Position) -> Act
    ensures { result ≡ act_at position }
{
    match position {
        Position::Header { .. } => Act::Header,
        Position::Block { number, .. } => Act::Block((number % 256) as u8),
        Position::Eot { .. } => Act::Eot,
        Position::End => Act::End,
    }
}

/// What a sender of the reference does that stands there.
pub fn asked_of_sender(standing: Standing) -> Act
    ensures { result ≡ act_of standing }
{
    match standing.state {
        SendState::Running if standing.mode == Mode::Sent => act_at(standing.position),
        SendState::NoReply | SendState::SourceFailed if standing.cancel_pending => Act::Cancel,
        _ => Act::Nothing,
    }
}

/// What a sender did that wrote these bytes, in the middle of a file or not.
pub fn delivered(in_file: bool, bytes: &[u8]) -> Act
    ensures { result ≡ act_heard in_file bytes.now (heard_of bytes.now) }
{
    match heard_in(bytes) {
        HeardRef::Item(ItemRef::Block(block)) => {
            if in_file || block.number() != 0 {
                Act::Block(block.number())
            } else if block.body()[0] == 0 {
                Act::End
            } else {
                Act::Header
            }
        }
        HeardRef::Item(ItemRef::Eot) => Act::Eot,
        HeardRef::Item(ItemRef::Cancel) => Act::Cancel,
        HeardRef::Bad => {
            if bytes.is_empty() {
                Act::Nothing
            } else {
                Act::Noise
            }
        }
    }
}

/// The answer that stands at the front of these bytes, and what stands behind it.
fn prefix_answer(bytes: &[u8]) -> Option<(Reply, &[u8])>
    ensures { MatchOption result (prefix_answer bytes.entry.now ≡ None) (λ prefix.
        prefix_answer bytes.entry.now ≡ Some (prefix.0, prefix.1.now)) }
{
    match bytes {
        [0x06, 0x43, rest @ ..] => Some((Reply::AckStart, rest)),
        [0x18, 0x18, rest @ ..] => Some((Reply::Cancel, rest)),
        [0x06, rest @ ..] => Some((Reply::Ack, rest)),
        [0x15, rest @ ..] => Some((Reply::Nak, rest)),
        [0x43, rest @ ..] => Some((Reply::Start, rest)),
        _ => None,
    }
}

/// Whether each byte is CAN.
fn are_cans(bytes: &[u8]) -> bool
    ensures { result ≡ are_cans bytes.now }
{
    bytes.iter().all(|byte| *byte == CAN)
}

/// What a receiver did that wrote these bytes. Who cancels behind an answer may say more CAN.
pub fn answered(bytes: &[u8]) -> Act
    ensures { result ≡ answer_in bytes.now }
{
    if bytes.is_empty() {
        return Act::Nothing;
    }
    match prefix_answer(bytes) {
        None => Act::Noise,
        Some((first, [])) => Act::Answer(first),
        Some((first, rest)) => match prefix_answer(rest) {
            Some((second, [])) => Act::Answers(first, second),
            Some((Reply::Cancel, more)) if are_cans(more) => Act::Answers(first, Reply::Cancel),
            _ => Act::Noise,
        },
    }
}

/// An answer, by its name.
#[derive(Clone, Copy)]
struct AnswerWords(Reply);

impl AnswerWords {
    ghost use Rattle.ym_judge.specs.JudgeText.{answer_text};

    /// Its name.
    fn text(self) -> &'static str
        ensures { result.now ≡ answer_text self.0 }
    {
        match self.0 {
            Reply::Silence => "nothing",
            Reply::Start => "C",
            Reply::Ack => "ACK",
            Reply::AckStart => "ACK C",
            Reply::Nak => "NAK",
            Reply::Cancel => "CAN CAN",
        }
    }
}

impl fmt::Display for AnswerWords {
    ghost use Rattle.std.specs.Prelude.{Some};
    ghost use Rattle.ym_judge.specs.JudgeText.{answer_text};

    ghost output = { λ answer. Some (answer_text answer.0) };

    fn fmt<W: fmt::Write>(&self, f: &mut fmt::Formatter<W>) -> fmt::Result {
        f.write_str(self.text())
    }
}

impl fmt::Display for Act {
    ghost use Rattle.std.specs.Prelude.{Some};
    ghost use Rattle.ym_judge.specs.JudgeText.{act_text};

    ghost output = { λ act. Some (act_text act) };

    fn fmt<W: fmt::Write>(&self, f: &mut fmt::Formatter<W>) -> fmt::Result {
        let text = match *self {
            Act::Nothing => "nothing",
            Act::Header => "block 0",
            Act::Block(number) => return write!(f, "data block {number}"),
            Act::Eot => "EOT",
            Act::End => "the end block",
            Act::Cancel => "CAN CAN",
            Act::Noise => "other bytes",
            Act::Answer(reply) => AnswerWords(reply).text(),
            Act::Answers(first, second) => {
                let one = AnswerWords(first);
                let other = AnswerWords(second);
                return write!(f, "{one}, {other}");
            }
            Act::Form(form) => return write!(f, "{form}"),
        };
        f.write_str(text)
    }
}
