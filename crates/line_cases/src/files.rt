//! Files that are cut into blocks, and collected again.
//!
//! `cut BYTES` has the frames of all its blocks in the part behind it. `blocks LENGTH` counts
//! blocks of either shape. `collect LENGTH` has pieces in the part behind it; `Nx` before one
//! stands for N of it, each with its number in place of `@` and `%`, as `each` puts it. `short`
//! stands for short blocks alone.

use super::ports::shape_of;
use super::spelled::bytes_of;
use super::words::{Unread, counted, numbered};
use std::alloc::{AllocError, Global};
use ym_file::{Collector, Shape, block_at, block_count};
use ym_frame::{Block, Item, Size, encode};
use ym_header::MOST_LENGTH;

/// The second word of a case.
fn second(head: &str) -> Result<&str, Unread> {
    head.split_whitespace().nth(1).ok_or(Unread)
}

/// The frames of a file's blocks, one behind another, and how many blocks are long and how many
/// short.
#[derive(Drop)]
struct Frames {
    bytes: Vec<u8>,
    long: u64,
    short: u64,
}

impl Frames {
    /// Puts the frame of a block behind them.
    fn push(&mut self, block: Block) -> Result<(), AllocError> {
        match block.size() {
            Size::Long => self.long = self.long.saturating_add(1),
            Size::Short => self.short = self.short.saturating_add(1),
        }
        self.bytes
            .extend_from_slice(encode(&Item::Block(block)).as_bytes())
    }
}

/// Puts the frames of a file's blocks behind these.
fn push_frames(frames: &mut Frames, bytes: &[u8], shape: Shape) -> Result<(), Unread> {
    if bytes.len() as u64 > MOST_LENGTH {
        return Err(Unread);
    }
    for k in 0..block_count(bytes.len() as u64, shape) {
        frames.push(block_at(bytes, shape, k + 1))?;
    }
    Ok(())
}

/// Cuts a file, and tells what its blocks are, and whether they are what was said.
fn push_cut(
    text: &mut String,
    alloc: Global,
    bytes: &[u8],
    shape: Shape,
    said: &[u8],
) -> Result<(), Unread> {
    let mut frames = Frames {
        bytes: Vec::new(alloc),
        long: 0,
        short: 0,
    };
    push_frames(&mut frames, bytes, shape)?;
    let (long, short) = (frames.long, frames.short);
    let as_said = frames.bytes.as_slice() == said;
    writeln!(text, "  {long} long, {short} short, as said: {as_said}")?;
    Ok(())
}

/// Cuts the file of a case, and tells what its blocks are.
pub fn cut(text: &mut String, alloc: Global, head: &str, parts: &[&str]) -> Result<(), Unread> {
    let (spelled, said) = (second(head)?, parts.first().ok_or(Unread)?);
    let said = bytes_of(alloc, said)?;
    let bytes = bytes_of(alloc, spelled)?;
    push_cut(
        text,
        alloc,
        bytes.as_slice(),
        shape_of(head),
        said.as_slice(),
    )
}

/// Tells how many blocks a file of this length has.
pub fn count_blocks(text: &mut String, head: &str) -> Result<(), Unread> {
    let length = second(head)?.parse::<u64>().ok().ok_or(Unread)?;
    if length > MOST_LENGTH {
        return Err(Unread);
    }
    let (mixed, short) = (
        block_count(length, Shape::Mixed),
        block_count(length, Shape::Short),
    );
    writeln!(text, "  mixed {mixed}, short {short}")?;
    Ok(())
}

/// A piece with a number.
fn piece_of(alloc: Global, word: &str, number: usize) -> Result<Vec<u8>, Unread> {
    let word = numbered(alloc, word, number)?;
    bytes_of(alloc, word.as_str())
}

/// The pieces of a case.
fn pieces_of(alloc: Global, part: &str) -> Result<Vec<Vec<u8>>, Unread> {
    let mut pieces = Vec::new(alloc);
    for word in part.split_whitespace() {
        let (count, word) = counted(word, 'x');
        for number in 0..count.unwrap_or(1) {
            pieces.push(piece_of(alloc, word, number)?)?;
        }
    }
    Ok(pieces)
}

/// The same collector, which gives itself back while it is not covered.
fn given_back(collector: Collector) -> Collector {
    if collector.is_covered() {
        return collector;
    }
    match collector.into_bytes() {
        Ok(_) => unreachable!(),
        Err(same) => same,
    }
}

/// What a collector has, and whether it is covered.
fn ended(alloc: Global, collector: Collector) -> Result<(Vec<u8>, bool), AllocError> {
    match collector.into_bytes() {
        Ok(bytes) => Ok((bytes, true)),
        Err(same) => Ok((same.bytes().to_vec(alloc)?, false)),
    }
}

/// Whether these bytes are the first so many of the pieces, or all of them where they have fewer.
fn are_first(alloc: Global, bytes: &[u8], pieces: &[Vec<u8>], length: u64) -> Result<bool, Unread> {
    let mut all = Vec::new(alloc);
    for piece in pieces {
        all.extend_from_slice(piece.as_slice())?;
    }
    let most = usize::try_from(length).ok().ok_or(Unread)?;
    Ok(bytes == &all[..most.min(all.len())])
}

/// Adds each piece, and tells how many were taken, and behind how many it was covered.
fn added(collector: Collector, pieces: &[Vec<u8>]) -> Result<(Collector, usize, usize), Unread> {
    let mut collector = collector;
    let (mut taken, mut before) = (0usize, 0usize);
    for piece in pieces {
        before = before.saturating_add(usize::from(!collector.is_covered()));
        taken = taken.saturating_add(usize::from(collector.add(piece.as_slice())?));
        collector = given_back(collector);
    }
    Ok((collector, taken, before))
}

/// Collects pieces of a file of this length, and tells what was taken of them.
fn push_collected(
    text: &mut String,
    alloc: Global,
    length: u64,
    pieces: &[Vec<u8>],
) -> Result<(), Unread> {
    let (collector, taken, before) = added(Collector::new(alloc, length), pieces)?;
    let (bytes, is_covered) = ended(alloc, collector)?;
    let as_came = are_first(alloc, bytes.as_slice(), pieces, length)?;
    let count = bytes.len();
    writeln!(
        text,
        "  took {taken}, open before {before}, covered: {is_covered}, \
        {count} bytes as they came: {as_came}"
    )?;
    Ok(())
}

/// Collects the pieces of a case, and tells what was taken of them.
pub fn collect(text: &mut String, alloc: Global, head: &str, parts: &[&str]) -> Result<(), Unread> {
    let length = second(head)?.parse::<u64>().ok().ok_or(Unread)?;
    let pieces = pieces_of(alloc, parts.first().ok_or(Unread)?)?;
    push_collected(text, alloc, length, pieces.as_slice())
}
