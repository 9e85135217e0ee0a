//! Which sign of a session each line is that is told.

ghost use Rattle.std.specs.Prelude.{◌≡◌};
ghost use Rattle.ym_explain.specs.SignOf.{sign_of, answer_sign as sign_of_answer, greets_zmodem};

use crate::answered::AnswerLine;
use crate::sent::SentLine;
use crate::signs::Sign;
use crate::told::SendPosition;
use ym_frame::{Whole, Why};

/// The sign that a line of the sender is, which stood at this position before it. A CAN that stands
/// alone is no frame.
pub fn sent_sign(position: SendPosition, line: SentLine) -> Sign
    ensures { result ≡ sign_of position line }
{
    match line {
        SentLine::Junk => Sign::Junk,
        SentLine::Damage { broken, short } => match broken.why {
            Why::SecondCan => Sign::Junk,
            Why::FirstByte | Why::Complement => Sign::Damage {
                short,
                headed: false,
            },
            Why::Check | Why::Cut => Sign::Damage {
                short,
                headed: true,
            },
        },
        SentLine::Frame { whole, kind } => match whole {
            Whole::Block(_) => Sign::Block { position, kind },
            Whole::Eot => Sign::Eot,
            Whole::Cancel => Sign::SenderCancel,
        },
    }
}

/// The sign that a line of the receiver is; none where it is no answer.
pub fn answer_sign(line: AnswerLine) -> Option<Sign>
    ensures { result ≡ sign_of_answer line }
{
    match line {
        AnswerLine::Answer(control) => Some(Sign::Answer(control)),
        AnswerLine::Cancel => Some(Sign::ReceiverCancel),
        AnswerLine::Echo { .. } => Some(Sign::Echo),
        AnswerLine::Junk => None,
    }
}

/// Whether these bytes begin as a header of ZMODEM in hexadecimal does with which an end greets:
/// `**`, CAN, `B00` of a sender, `B01` of a receiver.
pub fn is_zmodem(bytes: &[u8]) -> bool
    ensures { result ≡ greets_zmodem bytes.now }
{
    matches!(bytes, [0x2a, 0x2a, 0x18, 0x42, 0x30, 0x30 | 0x31, ..])
}
