//! The parts of a line that tells a frame or an answer.

ghost use Rattle.std.specs.Prelude.{◌≡◌, ◌≤◌, drop, take, length};
ghost use Rattle.std.specs.Str.{bytes_eq};
ghost use Rattle.ym_chart.specs.LineParts as spec;

use crate::arrow::Kind;
use ym_told::Direction;

/// So many bytes at the front, or all where there are fewer.
#[tactic(auto, using(std::proofs::lemmas::List::take_min))]
pub(crate) fn prefix_of(bytes: &[u8], most: usize) -> &[u8]
    ensures { result.now ≡ take most bytes.entry.now }
{
    &bytes[..most.min(bytes.len())]
}

/// What stands behind so many bytes.
pub(crate) fn behind(bytes: &[u8], count: usize) -> &[u8]
    ensures { result.now ≡ drop count bytes.entry.now }
{
    &bytes[count.min(bytes.len())..]
}

/// How many bytes of a moment stand at the front.
fn moment_len(line: &[u8]) -> usize
    ensures exact { result ≡ spec.moment_len line.now }
    ensures within { result ≤ length line.now }
{
    for (place, byte) in line.iter().enumerate() {
        if !is_of_moment(*byte) {
            return place;
        }
    }
    line.len()
}

/// Whether the byte is a digit or the point.
fn is_of_moment(byte: u8) -> bool
    ensures { result ≡ spec.is_of_moment byte }
{
    matches!(byte, b'0'..=b'9' | b'.')
}

/// The moment at the front of a line.
pub(crate) fn moment_of(line: &[u8]) -> &[u8]
    ensures { result.now ≡ spec.moment_of line.entry.now }
{
    &line[..moment_len(line)]
}

/// What stands behind the moment of a line.
pub(crate) fn undated(line: &[u8]) -> &[u8]
    ensures { result.now ≡ spec.undated line.entry.now }
{
    match moment_len(line) {
        0 => line,
        count => behind(line, count + 1),
    }
}

/// The way that is marked at the front.
pub(crate) fn way_of(undated: &[u8]) -> Option<Direction>
    ensures { result ≡ spec.way_of undated.now }
{
    let mark = prefix_of(undated, 2);
    if is(mark, "> ") {
        return Some(Direction::There);
    }
    if is(mark, "< ") {
        return Some(Direction::Back);
    }
    None
}

/// Whether a line tells of a file: it is indented.
pub(crate) fn is_indented(line: &[u8]) -> bool
    ensures { result ≡ spec.is_indented line.now }
{
    is(prefix_of(line, 2), "  ")
}

/// How many bytes the name at the front has.
fn name_len(words: &[u8]) -> usize
    ensures exact { result ≡ spec.name_len words.now }
    ensures within { result ≤ length words.now }
{
    for (place, byte) in words.iter().enumerate() {
        if *byte == b',' || *byte == b':' {
            return place;
        }
    }
    words.len()
}

/// The name of what is told.
pub(crate) fn name_of(words: &[u8]) -> &[u8]
    ensures { result.now ≡ spec.name_of words.entry.now }
{
    &words[..name_len(words)]
}

/// What is said of it.
pub(crate) fn said_of(words: &[u8]) -> &[u8]
    ensures { result.now ≡ spec.said_of words.entry.now }
{
    behind(words, name_len(words) + 2)
}

/// How many bytes stand before the first colon.
fn head_len(words: &[u8]) -> usize
    ensures exact { result ≡ spec.head_len words.now }
    ensures within { result ≤ length words.now }
{
    for (place, byte) in words.iter().enumerate() {
        if *byte == b':' {
            return place;
        }
    }
    words.len()
}

/// What it means to its session: what stands behind the colon.
fn sense_of(words: &[u8]) -> &[u8]
    ensures { result.now ≡ spec.sense_of words.entry.now }
{
    behind(words, head_len(words) + 2)
}

/// Whether these bytes are this text.
fn is(bytes: &[u8], text: &str) -> bool
    ensures { result ≡ bytes_eq bytes.now text.now }
{
    bytes == text.as_bytes()
}

/// What it is to its session.
pub(crate) fn kind_of(words: &[u8]) -> Kind
    ensures { result ≡ spec.kind_of words.now }
{
    if is(prefix_of(words, 6), "block ") {
        return block_kind(sense_of(words));
    }
    if is(words, "ACK: took it") {
        return Kind::Takes;
    }
    if is_plain(words) {
        return Kind::Plain;
    }
    Kind::Odd
}

/// What a block of this sense is.
fn block_kind(sense: &[u8]) -> Kind
    ensures { result ≡ spec.block_kind sense.now }
{
    if is(sense, "the next") {
        return Kind::Next;
    }
    if is(sense, "begins a file") || is(sense, "ends the batch") {
        return Kind::Plain;
    }
    Kind::Odd
}

/// Whether these words tell what belongs to a session in which nothing is lost. Each first EOT is
/// refused there, and sent once more.
fn is_plain(words: &[u8]) -> bool
    ensures { result ≡ spec.is_plain words.now }
{
    is(words, "C: asks for a file")
        || is(words, "C: asks for what comes next")
        || is(words, "EOT: ends the file")
        || is(words, "EOT: once more, as asked")
        || is(words, "NAK: wants the EOT once more, as of each first one")
}
