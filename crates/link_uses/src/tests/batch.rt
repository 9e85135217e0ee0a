//! A batch of two files, of three blocks and of none, its frames, and the deliveries that every end
//! is tried with.

ghost use Rattle.std.specs.Prelude.{◌≤◌};

use std::alloc::{AllocError, Global};
use ym_core::Position;
use ym_frame::{Block, FrameBuf, Item, encode};
use ym_header::{Header, HeaderFault, Stamp, write, write_end};

const CONTROLS: [u8; 4] = [0x06, 0x15, 0x43, 0x18];

/// How many data blocks each file of the batch has.
pub const COUNTS: [u64; 2] = [3, 0];

/// Three blocks of one letter each, the last one filled up.
pub fn file_bytes(alloc: Global) -> Result<Vec<u8>, AllocError> {
    let mut bytes = Vec::new(alloc);
    for (letter, count) in [(b'A', 128), (b'B', 128), (b'C', 44)] {
        for _ in 0..count {
            bytes.push(letter)?;
        }
    }
    Ok(bytes)
}

/// Data block `number` of the first file.
pub fn data_block(number: u64) -> Block {
    let mut body = [0x1a; 128];
    match number {
        1 => body.fill(b'A'),
        2 => body.fill(b'B'),
        _ => body[..44].fill(b'C'),
    }
    Block::new((number % 256) as u8, &body).unwrap()
}

/// The header of a file of the batch.
pub fn header_of(alloc: Global, file: usize) -> Result<Header, HeaderFault> {
    let (name, length) = if file == 0 { ("a", 300) } else { ("b", 0) };
    Header::new(alloc, name, length, Stamp::Nothing)
}

/// The frame of a place of the batch.
pub fn frame_of(alloc: Global, position: Position) -> Result<FrameBuf, HeaderFault> {
    let item = match position {
        Position::Header { file } => Item::Block(write(&header_of(alloc, file)?)),
        Position::Block { number, .. } => Item::Block(data_block(number)),
        Position::Eot { .. } => Item::Eot,
        Position::End => Item::Block(write_end()),
    };
    Ok(encode(&item))
}

/// A delivery by its number: each single byte, and from 256 on each pair of control bytes.
pub fn delivery(index: usize) -> ([u8; 2], usize)
    ensures { result.1 ≤ 2 }
{
    if index < 256 {
        return ([index as u8, 0], 1);
    }
    let pair = index % 16;
    ([CONTROLS[pair / 4], CONTROLS[pair % 4]], 2)
}
