//! A record of a line, character by character: lines of `SECONDS > HEX` for bytes from the sender,
//! and `SECONDS < HEX` for bytes from the receiver.

ghost use Rattle.std.specs.Prelude.{◌≡◌, ◌==◌, if◌then◌else◌};
ghost use Rattle.ym_inspect.specs.Recorded.{after_char, at_start, behind_moment, digit_value, goes_to, half_fault, in_bytes, in_fraction, in_seconds, is_open, with_low};

use crate::fault::RecordFault;
use ym_told::Direction;

/// How much of a line is read.
#[derive(Clone, Copy)]
pub enum InLine {
    /// Nothing.
    Start,
    /// A comment, which goes to the end of the line.
    Comment,
    /// Whole seconds, in microseconds.
    Seconds(u64),
    /// Seconds and a fraction: microseconds, and what a unit of the next digit is worth.
    Fraction(u64, u64),
    /// The seconds and a space.
    Moment(u64),
    /// The way too, and bytes.
    Bytes(u64, Direction),
    /// The first digit of a byte too.
    Half(u64, Direction, u8),
}

/// What a character leaves: how much of a line is read, and the byte that it completes.
#[derive(Clone, Copy)]
pub struct Stepped {
    /// How much of a line is read behind it.
    pub state: InLine,
    /// The byte that it completes.
    pub byte: Option<u8>,
}

/// The value of a hexadecimal digit.
fn digit_of(character: u8) -> Option<u8>
    ensures { result ≡ digit_value character }
{
    match character {
        b'0'..=b'9' => Some(character - b'0'),
        b'a'..=b'f' => Some(character - b'a' + 10),
        b'A'..=b'F' => Some(character - b'A' + 10),
        _ => None,
    }
}

/// Behind a character that completes no byte.
fn pass(state: InLine) -> Result<Stepped, RecordFault>
    ensures { result ≡ goes_to state }
{
    Ok(Stepped { state, byte: None })
}

/// What a character of a record leaves.
pub(crate) fn step(state: InLine, character: u8) -> Result<Stepped, RecordFault>
    ensures { result ≡ after_char state character }
{
    match state {
        InLine::Start => step_start(character),
        InLine::Comment => step_comment(character),
        InLine::Seconds(micros) => step_seconds(micros, character),
        InLine::Fraction(micros, unit) => step_fraction(micros, unit, character),
        InLine::Moment(micros) => step_moment(micros, character),
        InLine::Bytes(at, way) => step_bytes(at, way, character),
        InLine::Half(at, way, high) => step_half(at, way, high, character),
    }
}

/// What the first character of a line leaves.
fn step_start(character: u8) -> Result<Stepped, RecordFault>
    ensures { result ≡ at_start character }
{
    match character {
        b'0'..=b'9' => pass(InLine::Seconds(u64::from(character - b'0') * 1_000_000)),
        b'#' => pass(InLine::Comment),
        b'\n' | b'\r' | b' ' => pass(InLine::Start),
        _ => Err(RecordFault::Seconds),
    }
}

/// What a character of a comment leaves.
fn step_comment(character: u8) -> Result<Stepped, RecordFault>
    ensures { result ≡
        (if character == 10 then goes_to InLine.Start else goes_to InLine.Comment) }
{
    if character == b'\n' {
        pass(InLine::Start)
    } else {
        pass(InLine::Comment)
    }
}

/// What a character leaves behind whole seconds.
fn step_seconds(micros: u64, character: u8) -> Result<Stepped, RecordFault>
    ensures { result ≡ in_seconds micros character }
{
    match character {
        b'0'..=b'9' => {
            let more = u64::from(character - b'0') * 1_000_000;
            pass(InLine::Seconds(micros.saturating_mul(10).saturating_add(more)))
        }
        b'.' => pass(InLine::Fraction(micros, 100_000)),
        b' ' => pass(InLine::Moment(micros)),
        _ => Err(RecordFault::Seconds),
    }
}

/// What a character leaves behind a point, where the next digit is worth so much.
fn step_fraction(micros: u64, unit: u64, character: u8) -> Result<Stepped, RecordFault>
    ensures { result ≡ in_fraction micros unit character }
{
    match character {
        b'0'..=b'9' => {
            let more = unit.saturating_mul(u64::from(character - b'0'));
            pass(InLine::Fraction(micros.saturating_add(more), unit / 10))
        }
        b' ' => pass(InLine::Moment(micros)),
        _ => Err(RecordFault::Seconds),
    }
}

/// What a character leaves behind the seconds and a space.
fn step_moment(micros: u64, character: u8) -> Result<Stepped, RecordFault>
    ensures { result ≡ behind_moment micros character }
{
    match character {
        b' ' => pass(InLine::Moment(micros)),
        b'>' => pass(InLine::Bytes(micros, Direction::There)),
        b'<' => pass(InLine::Bytes(micros, Direction::Back)),
        _ => Err(RecordFault::Way),
    }
}

/// What a character leaves behind whole bytes.
fn step_bytes(at: u64, way: Direction, character: u8) -> Result<Stepped, RecordFault>
    ensures { result ≡ in_bytes at way character }
{
    match character {
        b' ' | b'\r' => pass(InLine::Bytes(at, way)),
        b'\n' => pass(InLine::Start),
        _ => match digit_of(character) {
            Some(high) => pass(InLine::Half(at, way, high)),
            None => Err(RecordFault::Digit),
        },
    }
}

/// What a character leaves behind the first digit of a byte.
fn step_half(at: u64, way: Direction, high: u8, character: u8) -> Result<Stepped, RecordFault>
    ensures { result ≡ with_low at way high character (digit_value character) }
{
    match digit_of(character) {
        Some(low) => Ok(Stepped {
            state: InLine::Bytes(at, way),
            byte: Some(high % 16 * 16 + low % 16),
        }),
        None => Err(fault_in_half(character)),
    }
}

/// Why a character does not complete a byte.
fn fault_in_half(character: u8) -> RecordFault
    ensures { result ≡ half_fault character }
{
    match character {
        b'\n' | b'\r' | b' ' => RecordFault::HalfByte,
        _ => RecordFault::Digit,
    }
}

/// Whether a line has begun that has no end yet. A comment says nothing, with an end or without.
pub(crate) fn is_open(state: InLine) -> bool
    ensures { result ≡ is_open state }
{
    match state {
        InLine::Start | InLine::Comment => false,
        InLine::Seconds(_) | InLine::Fraction(_, _) | InLine::Moment(_) => true,
        InLine::Bytes(_, _) | InLine::Half(_, _, _) => true,
    }
}
