//! Bytes as a table spells them: parts that stand joined by `+`.
//!
//! A part is one of these, or `N*` before it for N times its bytes, or `N/` for its first N bytes:
//!
//! - `C`, `ACK`, `NAK`, `EOT` and `CAN` (CAN CAN), and `-` for no bytes;
//! - `head:NAME:LENGTH`, the frame of a file's block 0, and `end`, that of the end block;
//! - `block:NUMBER:BODY`, the frame of a data block, whose body is padded; it is digits, or `N*`
//!   before them;
//! - hexadecimal digits.

use super::words::{Unread, counted};
use std::alloc::{AllocError, Global};
use ym_frame::{Block, Item, encode};
use ym_header::{Header, Stamp, write, write_end};

/// Control bytes, by their name.
fn control(name: &str) -> Option<&'static [u8]> {
    match name {
        "-" => Some(&[]),
        "C" => Some(&[0x43]),
        "ACK" => Some(&[0x06]),
        "NAK" => Some(&[0x15]),
        "EOT" => Some(&[0x04]),
        "CAN" => Some(&[0x18, 0x18]),
        _ => None,
    }
}

/// The bytes of digits.
fn digits(alloc: Global, text: &str) -> Result<Vec<u8>, Unread> {
    match hex::decode(alloc, text) {
        Ok(bytes) => Ok(bytes),
        Err(_) => Err(Unread),
    }
}

/// Bytes, as digits.
pub fn in_digits(alloc: Global, bytes: &[u8]) -> Result<String, AllocError> {
    hex::encode(alloc, bytes)
}

/// The frame of a block.
fn frame(alloc: Global, block: Block) -> Result<Vec<u8>, Unread> {
    Ok(encode(&Item::Block(block)).as_bytes().to_vec(alloc)?)
}

/// The frame of block 0 of a file `NAME:LENGTH`.
fn head(alloc: Global, text: &str) -> Result<Vec<u8>, Unread> {
    let (name, length) = text.split_once(':').ok_or(Unread)?;
    let length = length.parse::<u64>().ok().ok_or(Unread)?;
    let header = Header::new(alloc, name, length, Stamp::Nothing)?;
    frame(alloc, write(&header))
}

/// The body of a block, with its padding.
fn body(alloc: Global, text: &str) -> Result<Vec<u8>, Unread> {
    let (count, text) = counted(text, '*');
    let once = digits(alloc, text)?;
    let mut all = Vec::new(alloc);
    for _ in 0..count.unwrap_or(1) {
        all.extend_from_slice(once.as_slice())?;
    }
    let length = if all.len() <= 128 { 128 } else { 1024 };
    for _ in all.len()..length {
        all.push(0x1a)?;
    }
    Ok(all)
}

/// The frame of a data block `NUMBER:BODY`.
fn block(alloc: Global, text: &str) -> Result<Vec<u8>, Unread> {
    let (number, text) = text.split_once(':').ok_or(Unread)?;
    let number = number.parse::<u8>().ok().ok_or(Unread)?;
    let body = body(alloc, text)?;
    let block = Block::new(number, body.as_slice()).ok().ok_or(Unread)?;
    frame(alloc, block)
}

/// The bytes of a part without a count.
fn once(alloc: Global, part: &str) -> Result<Vec<u8>, Unread> {
    match part.split_once(':') {
        Some(("head", text)) => head(alloc, text),
        Some(("block", text)) => block(alloc, text),
        Some(_) => Err(Unread),
        None if part == "end" => frame(alloc, write_end()),
        None => match control(part) {
            Some(bytes) => Ok(bytes.to_vec(alloc)?),
            None => digits(alloc, part),
        },
    }
}

/// Puts a part behind the bytes.
fn push_part(all: &mut Vec<u8>, alloc: Global, part: &str) -> Result<(), Unread> {
    let (count, part) = counted(part, '*');
    let (length, part) = counted(part, '/');
    let bytes = once(alloc, part)?;
    let length = length.unwrap_or(bytes.len());
    let bytes = bytes.as_slice().get(..length).ok_or(Unread)?;
    for _ in 0..count.unwrap_or(1) {
        all.extend_from_slice(bytes)?;
    }
    Ok(())
}

/// The bytes that a text spells.
pub fn bytes_of(alloc: Global, text: &str) -> Result<Vec<u8>, Unread> {
    let mut all = Vec::new(alloc);
    for part in text.trim().split('+') {
        push_part(&mut all, alloc, part)?;
    }
    Ok(all)
}

/// Whether a text is there, and spells these bytes.
pub fn are_spelled(alloc: Global, bytes: &[u8], text: Option<&&str>) -> Result<bool, Unread> {
    match text {
        Some(text) => Ok(bytes_of(alloc, text)?.as_slice() == bytes),
        None => Ok(false),
    }
}
