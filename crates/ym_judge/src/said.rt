//! What of a receiver's bytes is an answer.

ghost use Rattle.std.specs.Prelude.{◌≡◌, ◌++◌, OnOk, IfOk};
ghost use Rattle.ym_judge.specs.AnswerBytes.{answers_in, is_said, is_text};

use std::alloc::{AllocError, Global};
use ym_frame::control_of;

/// Whether a byte is a letter of printed text, beside a C.
fn is_text(byte: u8) -> bool
    ensures { result ≡ is_text byte }
{
    matches!(byte, 0x20..=0x42 | 0x44..=0x7e)
}

/// Whether a byte between these two is an answer: a control byte, and no C of a text and no second
/// C of several.
fn is_said(before: u8, byte: u8, after: u8) -> bool
    ensures { result ≡ is_said before byte after }
{
    if byte == b'C' {
        before != b'C' && !is_text(before) && !is_text(after)
    } else {
        control_of(byte).is_some()
    }
}

/// What of these bytes is an answer.
pub fn answer_bytes(alloc: Global, bytes: &[u8]) -> Result<Vec<u8>, AllocError>
    ensures { IfOk result (λ said. said.items ≡ answers_in 0 bytes.now) }
{
    let mut said = Vec::new(alloc);
    let mut before = 0;
    let mut rest = bytes;
    while let Some((byte, more)) = rest.split_first() {
        let after = more.first().copied().unwrap_or(0);
        if is_said(before, *byte, after) {
            said.push(*byte)?;
        }
        before = *byte;
        rest = more;
    }
    Ok(said)
}
