//! What stands at the front of some bytes, without a copy: a block's body stays where it is.

ghost use Rattle.std.specs.Prelude.{◌≡◌, ◌⊎◌, length as list_length};
ghost use Rattle.ym_frame.specs.Frame.{verdict_of};
ghost use Rattle.ym_frame.specs.ItemRef.{owned_item, owned_verdict};
ghost use Rattle.ym_frame.specs.WholeFrame.{item_in, IsThere};

use crate::block::Block;
use crate::frame::{Broken, Item, Whole, whole_at};
use std::marker::Model;

/// A block's number, and its body where it stands. Contracts see it as `Block`.
#[derive(Drop)]
pub struct BlockRef<'a> {
    number: u8,
    body: &'a [u8],
}

impl<'a> Model for BlockRef<'a> {
    ghost use Rattle.std.specs.Prelude.{◌≡◌, ◌⊎◌, length};
    ghost use Rattle.ym_frame.specs.Block.{BlockParts};

    ghost Value = { BlockParts };

    ghost view = { λ b. record { number = b.number; body = b.body.now } };

    ghost invariant = { λ b. (length b.body.now ≡ 128) ⊎ (length b.body.now ≡ 1024) };
}

impl<'a> BlockRef<'a> {
    /// The same block, its body where it stands in `block`.
    pub fn of(block: &'a Block) -> BlockRef<'a>
        ensures { result ≡ block.entry.now }
    {
        // the size tells how many bytes the body has
        let _size = block.size();
        BlockRef {
            number: block.number(),
            body: block.body(),
        }
    }

    /// The number, which counts the blocks of a file modulo 256.
    pub fn number(&self) -> u8
        ensures { result ≡ self.now.number }
    {
        self.number
    }

    /// The data bytes, 128 or 1024 of them.
    pub fn body(&self) -> &'a [u8]
        ensures body { result.now ≡ self.now.body }
        ensures sized { (list_length result.now ≡ 128) ⊎ (list_length result.now ≡ 1024) }
    {
        self.body
    }
}

/// What a frame stands for, as `Item` has it, with a block's body where it stands.
#[derive(Drop)]
pub enum ItemRef<'a> {
    /// A data block.
    Block(BlockRef<'a>),
    /// The end of a file's data.
    Eot,
    /// The end of the transfer.
    Cancel,
}

impl<'a> ItemRef<'a> {
    /// The same item, a block's body where it stands in `item`.
    pub fn of(item: &'a Item) -> ItemRef<'a>
        ensures { owned_item result ≡ item.entry.now }
    {
        match item {
            Item::Block(block) => ItemRef::Block(BlockRef::of(block)),
            Item::Eot => ItemRef::Eot,
            Item::Cancel => ItemRef::Cancel,
        }
    }
}

impl Whole {
    /// The item of the whole frame that these bytes begin with, a block's body where it stands in
    /// them.
    pub fn item(self, frame: &[u8]) -> ItemRef<'_>
        requires { IsThere self frame.now }
        ensures { owned_item result ≡ item_in self frame.entry.now }
    {
        match self {
            Whole::Block(size) => ItemRef::Block(BlockRef {
                number: frame[1],
                body: &frame[3..][..size.body_len()],
            }),
            Whole::Eot => ItemRef::Eot,
            Whole::Cancel => ItemRef::Cancel,
        }
    }
}

/// The item of the prefix of `bytes` that is a frame, and the length of that prefix: `decode`
/// without a copy.
///
/// # Errors
///
/// Where and why no prefix is a frame, as `decode` has it.
pub fn verdict(bytes: &[u8]) -> Result<(ItemRef<'_>, usize), Broken>
    ensures { owned_verdict result ≡ verdict_of bytes.entry.now }
{
    let whole = whole_at(bytes)?;
    Ok((whole.item(bytes), whole.len()))
}
