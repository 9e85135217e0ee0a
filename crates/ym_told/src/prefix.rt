//! What stands at the front of what is held of a way.

ghost use Rattle.std.specs.Prelude.{◌≡◌, length as list_length};
ghost use Rattle.ym_told.specs.TellPrefix.{may_greet as greets, may_ask as asks, begins_text as starts_text, is_text_behind as goes_on_text, prefix_told, prefix_open, prefix_there as prefix_of_there, prefix_back as prefix_of_back, used_by};

use crate::run::Tail;
use crate::runs::{answer_run_len, is_answer_byte, sent_run_len};
use ym_explain::{AnswerLine, SentLine, SentTold, is_zmodem, tell_answer};
use ym_frame::{Control, Why};

/// So many bytes show where the frame behind a damaged one begins: one less than two long frames.
pub const ENOUGH: usize = 2057;

/// What is told although more may come.
#[derive(Clone, Copy, PartialEq, Eq)]
pub enum Settle {
    /// Nothing: what may go on waits.
    Nothing,
    /// Where a damaged frame ends, by the bytes that are there.
    Damage,
    /// All: nothing more comes.
    All,
}

/// What stands at the front.
#[derive(Clone, Copy)]
pub enum BufferedPrefix {
    /// So many bytes that are no frame and no answer.
    Run(usize),
    /// A header of ZMODEM, of which `**`, CAN and `B` are let go.
    Zmodem,
    /// So many bytes of a frame, and no more of it.
    Cut(usize),
    /// A frame of the sender, whole or damaged.
    Sent(SentTold),
    /// An answer of the receiver, or an echo.
    Answer(AnswerLine),
}

impl BufferedPrefix {
    /// How many bytes it has.
    pub fn used(self) -> usize
        ensures { result ≡ used_by self }
    {
        match self {
            BufferedPrefix::Run(used) | BufferedPrefix::Cut(used) => used,
            BufferedPrefix::Zmodem => 4,
            BufferedPrefix::Sent(told) => told.used,
            BufferedPrefix::Answer(AnswerLine::Cancel) => 2,
            BufferedPrefix::Answer(AnswerLine::Echo { used }) => used,
            BufferedPrefix::Answer(AnswerLine::Answer(_) | AnswerLine::Junk) => 1,
        }
    }
}

/// Whether bytes may go on to a header of ZMODEM, and more may come.
fn may_greet(buffered: &[u8], settle: Settle) -> bool
    ensures { result ≡ greets buffered.now settle }
{
    settle == Settle::Nothing
        && matches!(
            buffered,
            [0x2a]
                | [0x2a, 0x2a]
                | [0x2a, 0x2a, 0x18]
                | [0x2a, 0x2a, 0x18, 0x42]
                | [0x2a, 0x2a, 0x18, 0x42, 0x30]
        )
}

/// The front of what the sender wrote, of which this is told.
pub fn prefix_there(
    buffered: &[u8],
    told: Option<SentTold>,
    settle: Settle,
) -> Option<BufferedPrefix>
    ensures { result ≡ prefix_of_there buffered.now told settle }
{
    if buffered.is_empty() || may_greet(buffered, settle) {
        return None;
    }
    if is_zmodem(buffered) {
        return Some(BufferedPrefix::Zmodem);
    }
    let run = sent_run_len(buffered);
    if run > 0 {
        return Some(BufferedPrefix::Run(run));
    }
    match told {
        None => open_prefix(buffered, settle),
        Some(told) => told_prefix(told, buffered.len(), settle),
    }
}

/// The same where the bytes may go on to a frame. A CAN that does not is none.
fn open_prefix(buffered: &[u8], settle: Settle) -> Option<BufferedPrefix>
    ensures { result ≡ prefix_open buffered.now settle }
{
    match (settle, buffered) {
        (Settle::Nothing | Settle::Damage, _) => None,
        (Settle::All, [0x18, ..]) => Some(BufferedPrefix::Run(1)),
        (Settle::All, _) => Some(BufferedPrefix::Cut(buffered.len())),
    }
}

/// The same where this is told of so many bytes.
fn told_prefix(told: SentTold, count: usize, settle: Settle) -> Option<BufferedPrefix>
    ensures { result ≡ prefix_told told count settle }
{
    match told.line {
        SentLine::Junk => Some(BufferedPrefix::Run(1)),
        SentLine::Frame { .. } => Some(BufferedPrefix::Sent(told)),
        SentLine::Damage { broken, .. } => match broken.why {
            Why::SecondCan => Some(BufferedPrefix::Run(1)),
            Why::FirstByte | Why::Complement | Why::Check | Why::Cut => {
                if settle == Settle::Nothing && count < ENOUGH {
                    None
                } else {
                    Some(BufferedPrefix::Sent(told))
                }
            }
        },
    }
}

/// Whether bytes may ask, or go on as the text that a G before them begins, and more may come: `GC`
/// and `GCC` may begin one.
fn may_ask(tail: Tail, buffered: &[u8], settle: Settle) -> bool
    ensures { result ≡ asks tail buffered.now settle }
{
    settle == Settle::Nothing && tail == Tail::Gs && matches!(buffered, [b'C'] | [b'C', b'C'])
}

/// Whether a text that G begins goes on with these bytes: no answer stands there, or behind the C
/// or two with which they begin.
fn begins_text(buffered: &[u8]) -> bool
    ensures { result ≡ starts_text buffered.now }
{
    match buffered {
        [b'C', b'C', next, ..] | [b'C', next, ..] | [next, ..] => !is_answer_byte(*next),
        [] => false,
    }
}

/// Whether bytes go on as text behind this.
fn is_text_behind(tail: Tail, buffered: &[u8]) -> bool
    ensures { result ≡ goes_on_text tail buffered.now }
{
    match tail {
        Tail::Text => true,
        Tail::Gs => begins_text(buffered),
        Tail::Nothing => false,
    }
}

/// The front of what the receiver wrote, where this came last of a run of it.
pub fn prefix_back(tail: Tail, buffered: &[u8], settle: Settle) -> Option<BufferedPrefix>
    ensures { result ≡ prefix_of_back tail buffered.now settle }
{
    if buffered.is_empty() || may_greet(buffered, settle) || may_ask(tail, buffered, settle) {
        return None;
    }
    if is_zmodem(buffered) {
        return Some(BufferedPrefix::Zmodem);
    }
    let run = answer_run_len(is_text_behind(tail, buffered), buffered);
    if run > 0 {
        return Some(BufferedPrefix::Run(run));
    }
    match tell_answer(buffered) {
        Some(AnswerLine::Junk) => Some(BufferedPrefix::Run(1)),
        Some(line) => Some(BufferedPrefix::Answer(line)),
        None => match (settle, buffered) {
            (Settle::Nothing | Settle::Damage, _) => None,
            (Settle::All, [0x18, ..]) => Some(BufferedPrefix::Answer(AnswerLine::Answer(
                Control::Can,
            ))),
            (Settle::All, _) => Some(BufferedPrefix::Run(1)),
        },
    }
}
