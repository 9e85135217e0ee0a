//! Runs of bytes that are no frame and no answer.

ghost use Rattle.std.specs.Prelude.{◌≡◌, ◌≤◌, ◌<◌, ◌++◌, IfOk, OnOk, length, take, flat_map, string_bytes};
ghost use Rattle.ym_told.specs.Runs.{begins_frame as starts, is_answer_byte as answers, is_printable as prints, sent_run, text_run, other_run, answer_run, is_text as goes_on, escaped, digit as digit_of_value};

use std::alloc::{AllocError, Global};

/// Whether a frame, or a header of ZMODEM, may begin with this byte.
pub(crate) fn begins_frame(byte: u8) -> bool
    ensures { result ≡ starts byte }
{
    matches!(byte, 0x01 | 0x02 | 0x04 | 0x18 | 0x2a)
}

/// Whether an answer, an echo, or a header of ZMODEM may begin with this byte.
pub(crate) fn is_answer_byte(byte: u8) -> bool
    ensures { result ≡ answers byte }
{
    matches!(byte, 0x06 | 0x15 | b'C' | 0x18 | 0x01 | 0x02 | 0x2a)
}

/// Whether the byte is a character of ASCII that is printed.
pub(crate) fn is_printable(byte: u8) -> bool
    ensures { result ≡ prints byte }
{
    matches!(byte, 0x20..=0x7e)
}

/// How many bytes stand at the front with which no frame of the sender begins.
pub(crate) fn sent_run_len(bytes: &[u8]) -> usize
    ensures exact { result ≡ sent_run bytes.now }
    ensures within { result ≤ length bytes.now }
{
    bytes
        .iter()
        .take_while(|byte| !begins_frame(**byte))
        .count()
}

/// How many bytes of printed text stand at the front. A `*` may begin a header of ZMODEM.
fn text_run_len(bytes: &[u8]) -> usize
    ensures exact { result ≡ text_run bytes.now }
    ensures within { result ≤ length bytes.now }
{
    bytes.iter().take_while(|byte| is_text(**byte)).count()
}

/// Whether a byte goes on printed text.
fn is_text(byte: u8) -> bool
    ensures { result ≡ goes_on byte }
{
    is_printable(byte) && byte != b'*'
}

/// How many bytes stand at the front with which no answer begins.
fn other_run_len(bytes: &[u8]) -> usize
    ensures exact { result ≡ other_run bytes.now }
    ensures within { result ≤ length bytes.now }
{
    bytes
        .iter()
        .take_while(|byte| !is_answer_byte(**byte))
        .count()
}

/// How many bytes stand at the front that are no answer. Text goes on: a `C` directly behind
/// printed text is a letter of it.
pub(crate) fn answer_run_len(in_text: bool, bytes: &[u8]) -> usize
    ensures exact { result ≡ answer_run in_text bytes.now }
    ensures within { result ≤ length bytes.now }
{
    if in_text {
        text_run_len(bytes).max(other_run_len(bytes))
    } else {
        other_run_len(bytes)
    }
}

/// So many bytes at the front, or all where there are fewer.
#[tactic(auto, using(std::proofs::lemmas::List::take_min))]
pub(crate) fn prefix_of(bytes: &[u8], most: usize) -> &[u8]
    ensures { result.now ≡ take most bytes.entry.now }
{
    &bytes[..most.min(bytes.len())]
}

/// A text of these bytes that is safe to show: what is not printed stands as `\xHH`.
pub(crate) fn shown(alloc: Global, bytes: &[u8]) -> Result<String, AllocError>
    ensures { IfOk result (λ text. string_bytes text ≡ flat_map escaped bytes.now) }
{
    let mut text = String::new(alloc);
    for byte in bytes {
        push_shown(&mut text, *byte)?;
    }
    Ok(text)
}

/// Adds a byte to the text, so that it is safe to show.
fn push_shown(text: &mut String, byte: u8) -> Result<(), AllocError>
    ensures { OnOk result (string_bytes text.new ≡ string_bytes text.old ++ escaped byte) }
{
    if is_printable(byte) {
        text.push(char::from(byte))?;
    } else {
        text.push_str("\\x")?;
        text.push(digit(byte / 16))?;
        text.push(digit(byte % 16))?;
    }
    Ok(())
}

/// A hexadecimal digit.
fn digit(value: u8) -> char
    requires { value < 16 }
    ensures exact { result ≡ digit_of_value value }
    ensures ascii { result < 128 }
{
    if value < 10 {
        char::from(b'0' + value)
    } else {
        char::from(b'a' + (value - 10))
    }
}
