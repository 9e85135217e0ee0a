//! What the receiver of the files wrote, told from its front on.

ghost use Rattle.std.specs.Prelude.{◌≡◌};
ghost use Rattle.ym_explain.specs.Answered.{answer_of, byte_line};

use ym_frame::{Control, Whole, Why, control_of, whole_at};

/// What stands at the front of what the receiver wrote.
#[derive(Clone, Copy)]
pub enum AnswerLine {
    /// ACK, NAK, C, or a CAN that stands alone: one byte.
    Answer(Control),
    /// CAN CAN: two bytes.
    Cancel,
    /// A whole block, as only a sender writes it.
    Echo {
        /// How many bytes it has: 133 or 1029.
        used: usize,
    },
    /// A byte that is no answer.
    Junk,
}

/// What stands at the front of what the receiver wrote. `None` where the bytes may go on to CAN CAN
/// or to a block.
pub fn tell_answer(bytes: &[u8]) -> Option<AnswerLine>
    ensures { result ≡ answer_of bytes.now }
{
    match bytes {
        [] => None,
        [first, ..] => match whole_at(bytes) {
            Ok(Whole::Block(size)) => Some(AnswerLine::Echo {
                used: size.body_len() + 5,
            }),
            Ok(Whole::Cancel) => Some(AnswerLine::Cancel),
            Ok(Whole::Eot) => Some(told_byte(*first)),
            Err(broken) => match broken.why {
                Why::Cut => None,
                Why::FirstByte | Why::Complement | Why::Check | Why::SecondCan => {
                    Some(told_byte(*first))
                }
            },
        },
    }
}

/// What one byte is that begins neither a block nor CAN CAN.
fn told_byte(byte: u8) -> AnswerLine
    ensures { result ≡ byte_line byte }
{
    match control_of(byte) {
        Some(control) => AnswerLine::Answer(control),
        None => AnswerLine::Junk,
    }
}
