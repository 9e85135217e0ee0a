//! The frames of the files that are sent to a receiver.

ghost use Rattle.std.specs.Prelude.{◌≡◌, ◌≤◌, IfOk, option_map};
ghost use Rattle.ym_file.specs.Plan.{count_of, piece_at};
ghost use Rattle.ym_file.specs.declared.plan.Shape.TheVariants.{Mixed};
ghost use Rattle.ym_frame.specs.Frame.{IsFrame};
ghost use Rattle.ym_judging.specs.SentFrames.{IsBlock, IsDataBlock, IsWritten, header_body};
ghost use Rattle.ym_judging.specs.Contents.{content_of};
ghost use Rattle.ym_judging.specs.SentFrames.{sent_of};

use crate::payload::{Payload, content};
use std::alloc::{AllocError, Global};
use ym_file::{Shape, block_at, block_count};
use ym_frame::{Block, Item, encode};
use ym_header::write_end;
use ym_judge::Act;

/// In how many data blocks a file is sent.
fn count_of(file: &Payload) -> u64
    ensures { result ≡ count_of Mixed file.now.length }
{
    block_count(u64::from(file.length), Shape::Mixed)
}

/// In how many data blocks each file is sent.
pub(crate) fn counts_of(alloc: Global, files: &[Payload]) -> Result<Vec<u64>, AllocError> {
    let mut counts = Vec::new(alloc);
    for file in files {
        counts.push(count_of(file))?;
    }
    Ok(counts)
}

/// The frame of an item.
fn frame_of(alloc: Global, item: &Item) -> Result<Vec<u8>, AllocError>
    ensures { IfOk result (λ frame. IsFrame item.now frame.items) }
{
    Vec::from_slice(alloc, encode(item).as_bytes())
}

/// The body of a file's block 0.
fn header_body(alloc: Global, file: &Payload) -> Result<Vec<u8>, AllocError>
    ensures { IfOk result (λ body. body.items ≡ header_body (sent_of file.now)) }
{
    let mut body = Vec::from_slice(alloc, file.name.as_bytes())?;
    body.push(0)?;
    body.extend_from_slice(file.fields.as_bytes())?;
    let size = if file.is_long { 1024 } else { 128 };
    body.resize(size, 0)?;
    Ok(body)
}

/// The frame of a file's block 0.
fn header_frame(alloc: Global, file: &Payload) -> Result<Vec<u8>, AllocError>
    ensures { IfOk result (λ frame. IsBlock 0 (header_body (sent_of file.now)) frame.items) }
{
    let body = header_body(alloc, file)?;
    match Block::new(0, body.as_slice()) {
        Ok(block) => frame_of(alloc, &Item::Block(block)),
        Err(_) => Ok(Vec::new(alloc)),
    }
}

/// The frame of a data block that a file has, counted from 1.
#[tactic(auto, using(crate::proofs::ContentLemmas::content_length))]
fn data_frame(alloc: Global, file: &Payload, number: u8) -> Result<Vec<u8>, AllocError>
    requires counted { 1 ≤ number }
    requires within { number ≤ count_of Mixed file.now.length }
    ensures { IfOk result (λ frame.
        IsBlock number (piece_at Mixed (content_of file.now.length) number) frame.items) }
{
    let bytes = content(alloc, file.length)?;
    let block = block_at(bytes.as_slice(), Shape::Mixed, u64::from(number));
    frame_of(alloc, &Item::Block(block))
}

/// The frame of a file's data block, counted from 1. A block that it has not has none.
fn block_frame(alloc: Global, file: &Payload, number: u8) -> Result<Vec<u8>, AllocError>
    ensures { IfOk result (λ frame. IsDataBlock (sent_of file.now) number frame.items) }
{
    if number == 0 || u64::from(number) > count_of(file) {
        Ok(Vec::new(alloc))
    } else {
        data_frame(alloc, file, number)
    }
}

/// What an end writes that does this with a file, or with none.
pub(crate) fn sent_frame(
    alloc: Global,
    file: Option<&Payload>,
    act: Act,
) -> Result<Vec<u8>, AllocError>
    ensures { IfOk result (λ frame.
        IsWritten (option_map (λ it. sent_of it.now) file.entry) act frame.items) }
{
    match (act, file) {
        (Act::Header, Some(file)) => header_frame(alloc, file),
        (Act::Block(number), Some(file)) => block_frame(alloc, file, number),
        (Act::Eot, _) => frame_of(alloc, &Item::Eot),
        (Act::End, _) => frame_of(alloc, &Item::Block(write_end())),
        (Act::Cancel, _) => frame_of(alloc, &Item::Cancel),
        _ => Ok(Vec::new(alloc)),
    }
}
