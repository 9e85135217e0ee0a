//! The text of a record: a line for each piece that passed.

ghost use Rattle.std.specs.Prelude.{◌≡◌, ◌≤◌, ◌++◌, OnOk, length};
ghost use Rattle.hex.specs.Hex.{encode_lower};
ghost use Rattle.ym_capture.specs.RecordText as spec;

use itoa::Buffer;
use std::alloc::AllocError;
use ym_told::Direction;

/// How many bytes are turned into digits at a time.
const PART: usize = 512;

/// How many digits these have.
const DIGITS: usize = 1024;

/// The last decimal digit of a number.
fn last_digit(number: u64) -> u8
    ensures { result ≡ spec.last_digit number }
{
    b'0' + (number % 10) as u8
}

/// The point, and the six digits behind it.
fn fraction(micros: u64) -> [u8; 7]
    ensures { result ≡ spec.fraction micros }
{
    [
        b'.',
        last_digit(micros / 100_000),
        last_digit(micros / 10_000),
        last_digit(micros / 1000),
        last_digit(micros / 100),
        last_digit(micros / 10),
        last_digit(micros),
    ]
}

/// Puts a moment behind a text: seconds, with six digits behind the point.
fn push_moment(text: &mut Vec<u8>, micros: u64) -> Result<(), AllocError>
    ensures { OnOk result (text.new.items ≡ text.old.items ++ spec.moment_text micros) }
{
    let mut buffer = Buffer::new();
    text.extend_from_slice(buffer.format(micros / 1_000_000).as_bytes())?;
    text.extend_from_slice(&fraction(micros))
}

/// What stands between the moment and the bytes.
fn mark(way: Direction) -> [u8; 3]
    ensures { result ≡ spec.mark way }
{
    match way {
        Direction::There => *b" > ",
        Direction::Back => *b" < ",
    }
}

/// Puts the digits of a few bytes behind a text.
fn push_part(text: &mut Vec<u8>, bytes: &[u8]) -> Result<(), AllocError>
    requires { length bytes.now ≤ PART }
    ensures { OnOk result (text.new.items ≡ text.old.items ++ encode_lower bytes.now) }
{
    let mut room = [0u8; DIGITS];
    let digits = &mut room[..2 * bytes.len()];
    match hex::encode_to_slice(bytes, digits) {
        Ok(()) => text.extend_from_slice(digits),
        Err(_) => Err(AllocError),
    }
}

/// Puts the digits of bytes behind a text.
fn push_hex(text: &mut Vec<u8>, bytes: &[u8]) -> Result<(), AllocError>
    ensures { OnOk result (text.new.items ≡ text.old.items ++ encode_lower bytes.now) }
{
    let mut rest = bytes;
    while !rest.is_empty() {
        let (part, more) = rest.split_at(rest.len().min(PART));
        push_part(text, part)?;
        rest = more;
    }
    Ok(())
}

/// Puts the line of a piece behind a text: of these bytes, which passed this way so many
/// microseconds after the record began.
///
/// # Errors
///
/// At want of memory. Then the text may have a front of the line.
pub fn push_line(
    text: &mut Vec<u8>,
    micros: u64,
    way: Direction,
    bytes: &[u8],
) -> Result<(), AllocError>
    ensures { OnOk result (text.new.items ≡ text.old.items ++ spec.line_of micros way bytes.now) }
{
    push_moment(text, micros)?;
    text.extend_from_slice(&mark(way))?;
    push_hex(text, bytes)?;
    text.push(b'\n')?;
    Ok(())
}
