//! What stands at the front of what one end has written.

ghost use Rattle.std.specs.Prelude.{◌≡◌, ◌<◌, ◌≤◌, length};
ghost use Rattle.ym_explain.specs.PrefixOf.{IsPassed, IsUpToBlock, ends_at, same_head, has_block as there_is_block};

use ym_frame::{Broken, Whole, Why, whole_at};

/// What stands at the front of some bytes.
#[derive(Clone, Copy)]
pub enum Passed {
    /// A whole frame, whose check fits.
    Frame(Whole),
    /// A frame that began and is broken: where and why.
    Damaged(Broken),
    /// A byte with which no frame begins.
    Junk,
    /// The beginning of a frame, or nothing: what is missing may still come.
    Open,
}

/// What stands at the front of these bytes.
pub fn prefix_of(bytes: &[u8]) -> Passed
    ensures { IsPassed bytes.now result }
{
    match whole_at(bytes) {
        Ok(whole) => Passed::Frame(whole),
        Err(broken) => match broken.why {
            Why::FirstByte => Passed::Junk,
            Why::Cut => Passed::Open,
            Why::Complement | Why::Check | Why::SecondCan => Passed::Damaged(broken),
        },
    }
}

/// Whether these bytes begin with the whole frame of a block.
fn has_block(bytes: &[u8]) -> bool
    ensures { result ≡ there_is_block bytes.now }
{
    matches!(prefix_of(bytes), Passed::Frame(Whole::Block(_)))
}

/// Whether these bytes begin as this frame does, with a number whose complement agrees.
fn begins_again(frame: &[u8], bytes: &[u8]) -> bool
    ensures { result ≡ same_head frame.now bytes.now }
{
    match (frame, bytes) {
        ([first, number, complement, ..], [a, b, c, ..]) => {
            a == first && b == number && c == complement && *complement == 255 - *number
        }
        _ => false,
    }
}

/// Whether a damaged frame is over where these bytes begin.
fn is_over(frame: &[u8], bytes: &[u8]) -> bool
    ensures { result ≡ ends_at frame.now bytes.now }
{
    has_block(bytes) || begins_again(frame, bytes)
}

/// How many of these bytes belong to a damaged frame of `most` bytes at their front: those before
/// the next block that is whole, or before the same block once more, whole or not; at most `most`,
/// and one at least.
pub fn damage_len(bytes: &[u8], most: usize) -> usize
    requires one { 0 < most }
    requires within { most ≤ length bytes.now }
    ensures { IsUpToBlock bytes.now most result }
{
    for position in 1..most {
        if is_over(bytes, &bytes[position..]) {
            return position;
        }
    }
    most
}
