//! Tests of the uses, and of what they stand on. What is called stands in functions without a
//! contract, which tell a proof nothing, so that a test costs it little.

mod check;
mod frame;
mod header;

use super::*;
use std::alloc::{AllocError, Global};
use std::fmt;
use std::test::Fail;
use ym_header::{Stamp, write_body};

/// Whether two values are the same.
fn same<T: PartialEq>(left: &T, right: &T) -> bool {
    left == right
}

/// Whether each of these bytes is this one.
fn are_all(bytes: &[u8], byte: u8) -> bool {
    for it in bytes {
        if *it != byte {
            return false;
        }
    }
    true
}

/// Whether a value is shown as this text.
fn says<D: fmt::Display>(alloc: Global, value: &D, want: &str) -> Result<bool, AllocError> {
    Ok(value.to_string(alloc)?.as_str() == want)
}

/// How many bytes of a piece a reader took, and which item it made.
#[derive(Drop)]
struct Fed {
    used: usize,
    item: Option<Item>,
}

fn feed(reader: &mut FrameReader, piece: &[u8]) -> Fed {
    let fed = reader.feed(piece);
    Fed {
        used: fed.used,
        item: fed.item,
    }
}

/// The bytes of an item's frame.
fn frame_of(alloc: Global, item: &Item) -> Result<Vec<u8>, AllocError> {
    Vec::from_slice(alloc, encode(item).as_bytes())
}

/// The frame of the block 0 that announces `a.txt`, with five bytes.
fn block_zero_frame(alloc: Global) -> Result<Vec<u8>, Fail> {
    let mut body = [0; 1024];
    let size = write_body(&HeaderRef::new("a.txt", 5, Stamp::Nothing)?, &mut body);
    let block = Block::new(0, body.get(..size).ok_or("too long")?)?;
    Ok(frame_of(alloc, &Item::Block(block))?)
}

/// Whether these bytes announce this file.
fn announces(bytes: &[u8], name: &str, length: u64) -> bool {
    match announced(bytes) {
        Some(header) => header.name() == name && header.length() == length,
        None => false,
    }
}

#[test]
fn block_zero(rt: HostRuntime) -> Result<(), Fail> {
    let frame = block_zero_frame(rt.alloc())?;
    assert!(rt; announces(&frame, "a.txt", 5));
    Ok(())
}
