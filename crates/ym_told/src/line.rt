//! The lines that are told.

ghost use Rattle.std.specs.Prelude.{◌≡◌, Some};
ghost use Rattle.ym_told.specs.LineWords.{line_words};
ghost use Rattle.ym_told.specs.LineOf.{line_told, line_sent, line_answered};

use crate::prefix::BufferedPrefix;
use crate::standing::BothStanding;
use crate::words::{control_text, footing_text, kind_text, meaning_text, short_text};
use std::fmt;
use ym_explain::{
    AnswerLine, Footing, FrameKind, Meaning, SentLine, SentTold, follows, meaning_of,
};
use ym_frame::{Broken, Control, Whole};

/// What is told of the front of what an end wrote.
#[derive(Clone, Copy)]
pub enum Telling {
    /// A whole block.
    Block {
        /// Its number.
        number: u8,
        /// How many bytes its frame has.
        used: usize,
        /// What it is to its session.
        kind: FrameKind,
        /// How it follows what was answered.
        footing: Footing,
    },
    /// The end of a file.
    Eot {
        /// What it is to its session.
        kind: FrameKind,
        /// How it follows what was answered.
        footing: Footing,
    },
    /// The sender cancels.
    Cancel,
    /// A damaged frame.
    Damage {
        /// Where and why it is broken.
        broken: Broken,
        /// How many bytes of it there are.
        used: usize,
        /// Whether another begins before its end.
        short: bool,
    },
    /// A frame that ended before its end.
    Cut {
        /// How many bytes of it there are.
        used: usize,
    },
    /// An answer.
    Answer {
        /// Which one.
        control: Control,
        /// What it means to the sender.
        meaning: Meaning,
    },
    /// The receiver cancels.
    ReceiverCancel,
    /// A whole block from the receiver.
    Echo {
        /// How many bytes it has.
        used: usize,
    },
    /// A header with which ZMODEM greets.
    Zmodem,
}

impl fmt::Display for Telling {
    ghost output = { λ line. Some (line_words line) };

    fn fmt<W: fmt::Write>(&self, f: &mut fmt::Formatter<W>) -> fmt::Result {
        let (front, middle, behind) = match *self {
            Telling::Block {
                number,
                used,
                kind,
                footing,
            } => {
                let kind = kind_text(kind);
                let footing = footing_text(footing);
                return write!(f, "block {number}, {used} bytes: {kind}{footing}");
            }
            Telling::Damage {
                broken,
                used,
                short,
            } => {
                let short = short_text(short);
                return write!(f, "damaged, {used} bytes, {broken}{short}");
            }
            Telling::Cut { used } => return write!(f, "cut, {used} bytes of a frame and no more"),
            Telling::Echo { used } => return write!(f, "{used} bytes of the sender's own: an echo"),
            Telling::Eot { kind, footing } => ("EOT: ", kind_text(kind), footing_text(footing)),
            Telling::Answer { control, meaning } => {
                (control_text(control), ": ", meaning_text(meaning))
            }
            Telling::Cancel => ("CAN CAN: the sender cancels", "", ""),
            Telling::ReceiverCancel => ("CAN CAN: the receiver cancels", "", ""),
            Telling::Zmodem => ("a header of ZMODEM", "", ""),
        };
        write!(f, "{front}{middle}{behind}")
    }
}

/// The line that tells a front, where both ends stand so: a run has none of its own. The number is
/// that of a block.
pub fn line_of(standing: &BothStanding, prefix: BufferedPrefix, number: u8) -> Option<Telling>
    ensures { result ≡ line_told standing.now prefix number }
{
    match prefix {
        BufferedPrefix::Run(_) => None,
        BufferedPrefix::Zmodem => Some(Telling::Zmodem),
        BufferedPrefix::Cut(used) => Some(Telling::Cut { used }),
        BufferedPrefix::Sent(told) => sent_line(standing, told, number),
        BufferedPrefix::Answer(line) => answer_line(standing, line),
    }
}

/// The line that tells what the sender wrote.
fn sent_line(standing: &BothStanding, told: SentTold, number: u8) -> Option<Telling>
    ensures { result ≡ line_sent standing.now told number }
{
    let used = told.used;
    match told.line {
        SentLine::Junk => None,
        SentLine::Damage { broken, short } => Some(Telling::Damage {
            broken,
            used,
            short,
        }),
        SentLine::Frame { whole, kind } => {
            let footing = follows(standing.fate, kind);
            Some(match whole {
                Whole::Block(_) => Telling::Block {
                    number,
                    used,
                    kind,
                    footing,
                },
                Whole::Eot => Telling::Eot { kind, footing },
                Whole::Cancel => Telling::Cancel,
            })
        }
    }
}

/// The line that tells what the receiver wrote.
fn answer_line(standing: &BothStanding, line: AnswerLine) -> Option<Telling>
    ensures { result ≡ line_answered standing.now line }
{
    match line {
        AnswerLine::Junk => None,
        AnswerLine::Cancel => Some(Telling::ReceiverCancel),
        AnswerLine::Echo { used } => Some(Telling::Echo { used }),
        AnswerLine::Answer(control) => Some(Telling::Answer {
            control,
            meaning: meaning_of(standing.position, standing.fate, standing.owes(), control),
        }),
    }
}
