//! Text that can stand in XML.

ghost use Rattle.std.specs.Prelude.{◌≡◌, ◌<◌, ◌++◌, IfOk, OnOk, codes, flat_map, string_bytes, take};
ghost use Rattle.ym_chart.specs.ChartText.{StandsFor, code, digit as digit_of_value, is_printable as prints, text_of, written};

use crate::parts::prefix_of;
use std::alloc::{AllocError, Global};
use std::fmt;
use std::marker::Model;

/// So many bytes of a text are drawn at most.
pub const MOST_TEXT: usize = 80;

/// Text that can stand in XML. Contracts see it as its bytes.
#[derive(Drop)]
pub(crate) struct Text {
    written: String,
}

impl Model for Text {
    ghost use Rattle.std.specs.Prelude.{List, ℕ, string_bytes};

    ghost Value = { List ℕ };

    ghost view = { λ text. string_bytes text.written };
}

impl Text {
    /// The text of these bytes, cut where it is too long to be drawn.
    pub(crate) fn of(alloc: Global, bytes: &[u8]) -> Result<Text, AllocError>
        ensures { IfOk result (λ text. text ≡ text_of bytes.now) }
    {
        let written = drawn(alloc, bytes)?;
        Ok(Text { written })
    }
}

impl fmt::Display for Text {
    ghost use Rattle.std.specs.Prelude.{Some};

    ghost output = { λ text. Some text };

    fn fmt<W: fmt::Write>(&self, f: &mut fmt::Formatter<W>) -> fmt::Result {
        f.write_str(self.written.as_str())
    }
}

/// These bytes as text of XML, between tags or in an attribute: characters that mean something
/// there are spelled out, and what is not printed in ASCII stands as `\xHH`.
///
/// # Errors
///
/// At want of memory.
pub fn escaped(alloc: Global, bytes: &[u8]) -> Result<String, AllocError>
    ensures exact { IfOk result (λ text. string_bytes text ≡ flat_map written bytes.now) }
    // Nothing in it means more to XML than these bytes.
    ensures means { IfOk result (λ text. StandsFor (string_bytes text) bytes.now) }
{
    spelled(alloc, bytes)
}

/// These bytes, one behind the other, as text of XML.
fn spelled(alloc: Global, bytes: &[u8]) -> Result<String, AllocError>
    ensures { IfOk result (λ text. string_bytes text ≡ flat_map written bytes.now) }
{
    let mut text = String::new(alloc);
    for byte in bytes {
        push_written(&mut text, *byte)?;
    }
    Ok(text)
}

/// What is drawn of these bytes: all of them, or as many as there is room for.
fn drawn(alloc: Global, bytes: &[u8]) -> Result<String, AllocError>
    ensures { IfOk result (λ text. string_bytes text ≡ text_of bytes.now) }
{
    if bytes.len() <= MOST_TEXT {
        spelled(alloc, bytes)
    } else {
        cut(alloc, bytes)
    }
}

/// As many of these bytes as there is room for, with a mark that there are more.
fn cut(alloc: Global, bytes: &[u8]) -> Result<String, AllocError>
    ensures { IfOk result (λ text.
        string_bytes text ≡ flat_map written (take MOST_TEXT bytes.now) ++ codes " ..") }
{
    let mut text = spelled(alloc, prefix_of(bytes, MOST_TEXT))?;
    text.push_str(" ..")?;
    Ok(text)
}

/// Whether the byte is a character of ASCII that is printed.
fn is_printable(byte: u8) -> bool
    ensures { result ≡ prints byte }
{
    matches!(byte, 0x20..=0x7e)
}

/// Puts a byte behind a text of XML.
fn push_written(text: &mut String, byte: u8) -> Result<(), AllocError>
    ensures { OnOk result (string_bytes text.new ≡ string_bytes text.old ++ written byte) }
{
    match byte {
        b'<' => text.push_str("&lt;"),
        b'>' => text.push_str("&gt;"),
        b'&' => text.push_str("&amp;"),
        b'"' => text.push_str("&quot;"),
        _ if is_printable(byte) => text.push(char::from(byte)),
        _ => push_code(text, byte),
    }
}

/// Puts a byte that is not printed behind a text.
fn push_code(text: &mut String, byte: u8) -> Result<(), AllocError>
    ensures { OnOk result (string_bytes text.new ≡ string_bytes text.old ++ code byte) }
{
    text.push_str("\\x")?;
    text.push(digit(byte / 16))?;
    text.push(digit(byte % 16))
}

/// A hexadecimal digit.
fn digit(value: u8) -> char
    requires { value < 16 }
    ensures exact { result ≡ digit_of_value value }
    ensures ascii { result < 128 }
{
    if value < 10 {
        char::from(b'0' + value)
    } else {
        char::from(b'a' + (value - 10))
    }
}
