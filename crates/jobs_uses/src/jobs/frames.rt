//! The frames of a batch of one file.

use std::alloc::{AllocError, Global};
use std::test::Fail;
use ym_frame::{Block, Item, encode};
use ym_header::{Header, Stamp, write, write_end};

/// The bytes of a block's frame.
fn frame_of(alloc: Global, block: Block) -> Result<Vec<u8>, AllocError> {
    let frame = encode(&Item::Block(block));
    Vec::from_slice(alloc, frame.as_bytes())
}

/// The frames of a file of one block, but its EOTs; and of the end of the batch.
#[derive(Drop)]
pub(super) struct Frames {
    header: Vec<u8>,
    data: Vec<u8>,
    end: Vec<u8>,
}

impl Frames {
    /// Of these two blocks.
    fn of(alloc: Global, header: Block, data: Block) -> Result<Frames, AllocError> {
        Ok(Frames {
            header: frame_of(alloc, header)?,
            data: frame_of(alloc, data)?,
            end: frame_of(alloc, write_end())?,
        })
    }

    /// Of a file of this name, length and stamp.
    pub(super) fn new(
        alloc: Global,
        name: &str,
        length: u64,
        stamp: Stamp,
    ) -> Result<Frames, Fail> {
        let header = Header::new(alloc, name, length, stamp)?;
        let data = Block::new(1, &[b'x'; 128]).ok().ok_or("no block")?;
        Ok(Frames::of(alloc, write(&header), data)?)
    }

    /// Of the file `a` of 128 bytes, with a stamp.
    pub(super) fn usual(alloc: Global) -> Result<Frames, Fail> {
        Frames::new(alloc, "a", 128, Stamp::TimeMode(12, 420))
    }

    /// All of them, with two EOTs.
    pub(super) fn all(&self) -> [&[u8]; 5] {
        let eot = b"\x04".as_slice();
        [&self.header, &self.data, eot, eot, &self.end]
    }

    /// All of them but the last.
    pub(super) fn no_last(&self) -> [&[u8]; 4] {
        let eot = b"\x04".as_slice();
        [&self.header, &self.data, eot, eot]
    }

    /// The first two of them.
    pub(super) fn prefix(&self) -> [&[u8]; 2] {
        [&self.header, &self.data]
    }
}
