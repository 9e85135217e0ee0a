//! Three uses of `ym_frame` and `ym_header`, as a caller writes them who wants frames and block 0,
//! and neither end of a transfer. None of them takes memory.
#![tactic(auto)]

ghost use Rattle.std.specs.Prelude.{◌≡◌, ◌↔◌, ◌≤◌, ℕ, Ok, IfSome, IsSome, is_some, length};
ghost use Rattle.ym_frame.specs.Block.{BlockParts};
ghost use Rattle.ym_frame.specs.Frame.{verdict_of, IsFrame};
ghost use Rattle.ym_frame.specs.Pieces.{used_by, item_of};
ghost use Rattle.ym_frame.specs.declared.frame.Item.TheVariants as item;
ghost use Rattle.ym_header.specs.Header.{length_limit};
ghost use Rattle.ym_header.specs.HeaderReading.{ReadsHeader};

use ym_frame::{Block, FrameBuf, FrameReader, Item, ItemRef, encode, verdict};
use ym_header::{HeaderRef, ZeroRef, read_borrowed};

/// The file that is announced by the block 0 at the front of these bytes. Its name stays where it
/// is.
pub fn announced(bytes: &[u8]) -> Option<HeaderRef<'_>>
    ensures { IfSome result (λ header. (block : BlockParts) × (len : ℕ) ×
        (verdict_of bytes.entry.now ≡ Ok (item.Block block, len)) × (block.number ≡ 0)
        × ReadsHeader length_limit block.body header) }
{
    let Ok((ItemRef::Block(block), _)) = verdict(bytes) else {
        return None;
    };
    if block.number() != 0 {
        return None;
    }
    match read_borrowed(block.body()) {
        Ok(ZeroRef::File(header)) => Some(header),
        _ => None,
    }
}

/// The frame of a short block with this text in front, and SUB (1A) behind it, or `None` where the
/// text has more than 128 bytes.
pub fn text_block(number: u8, text: &[u8]) -> Option<FrameBuf>
    ensures frame { IfSome result (λ frame. (block : BlockParts) ×
        (block.number ≡ number) × IsFrame (item.Block block) frame) }
    ensures fits { IsSome result ↔ (length text.now ≤ 128) }
{
    let mut body = [0x1A; 128];
    body.get_mut(..text.len())?.copy_from_slice(text);
    let block = Block::new(number, &body).ok()?;
    Some(encode(&Item::Block(block)))
}

/// How many bytes of a piece belong to the frame that a reader is in, and whether it ends there.
pub fn take_piece(reader: &mut FrameReader, piece: &[u8]) -> (usize, bool)
    ensures used { result.0 ≡ used_by reader.old piece.now }
    ensures ended { result.1 ≡ is_some (item_of reader.old piece.now) }
{
    let fed = reader.feed(piece);
    (fed.used, fed.item.is_some())
}

#[cfg(test)]
mod tests;
