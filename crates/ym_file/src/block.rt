//! Data blocks of a file, from its bytes or from a source.

ghost use Rattle.std.specs.Prelude.{◌≡◌, ◌⊎◌, ◌<◌, ◌≤◌, ◌+◌, ◌%◌, ◌^◌, List, ℕ, length as list_length, take, drop, OnOk, IfOk, IfSome};
ghost use Rattle.ym_frame.specs.Seal.{IsBlockFrame};
ghost use Rattle.ym_header.specs.declared.limits.TheConstants.{MOST_LENGTH};
ghost use Rattle.ym_file.specs.Plan.{count_of, padded, piece_at, size_at};
ghost use Rattle.ym_file.specs.Filling.{AskedOnce};

use crate::plan::{Position, Shape, position_of};
use crate::source::{Source, SourceFault};
use ym_frame::{Block, seal_block};

/// What fills the last block.
const PADDING: u8 = 0x1a;

/// Block k, counted from 1, of a file of these bytes. Its number is k modulo 256.
pub fn block_at(bytes: &[u8], shape: Shape, k: u64) -> Block
    requires small { list_length bytes.now ≤ MOST_LENGTH }
    requires from_one { 1 ≤ k }
    requires within { k ≤ count_of shape (list_length bytes.now) }
    ensures number { result.number ≡ k % 256 }
    ensures body { result.body ≡ piece_at shape bytes.now k }
{
    let position = position_of(bytes.len() as u64, shape, k);
    let rest = &bytes[position.start as usize..];
    let filled = position.size.min(rest.len());
    let mut array = [0; 1024];
    let body = &mut array[..position.size];
    body[..filled].copy_from_slice(&rest[..filled]);
    pad(body, filled);
    block_of(k, body)
}

/// Block k, counted from 1, of the file that a source has: what [`block_at`] gives on its bytes.
/// After a failure of the source there is no block.
pub fn block_from<S: Source>(source: &mut S, shape: Shape, k: u64) -> Result<Block, SourceFault>
    requires small { S.size source.old ≤ MOST_LENGTH }
    requires from_one { 1 ≤ k }
    requires within { k ≤ count_of shape (S.size source.old) }
    ensures number { IfOk result (λ block. block.number ≡ k % 256) }
    ensures size { IfOk result (λ block.
        list_length block.body ≡ size_at shape (S.size source.old) k) }
    ensures body { IfOk result (λ block.
        IfSome (S.bytes source.old) (λ all. block.body ≡ piece_at shape all k)) }
    ensures source { AskedOnce S.size S.bytes S.fills S.failures source.old result source.new }
{
    let mut array = [0; 1024];
    let position = position_of(source.length(), shape, k);
    let body = &mut array[..position.size];
    read_body(source, position, body)?;
    Ok(block_of(k, body))
}

/// Writes the frame of block k, counted from 1, of the file that a source has to the front of a
/// buffer, and answers the frame's length, 133 or 1029. The source fills the body right where it
/// stands in the frame. After a failure of the source nothing is said of the buffer's bytes.
#[inline(always)]
pub fn frame_from<S: Source>(
    source: &mut S,
    shape: Shape,
    k: u64,
    buffer: &mut [u8; 1029],
) -> Result<usize, SourceFault>
    requires small { S.size source.old ≤ MOST_LENGTH }
    requires from_one { 1 ≤ k }
    requires within { k ≤ count_of shape (S.size source.old) }
    ensures length { IfOk result (λ len. len ≡ size_at shape (S.size source.old) k + 5) }
    ensures buffer { list_length buffer.new ≡ 1029 }
    ensures frame { IfOk result (λ len.
        (body : List ℕ) × (list_length body ≡ size_at shape (S.size source.old) k) ×
        IsBlockFrame (k % 256) body (take len buffer.new)) }
    ensures body { IfOk result (λ len.
        IfSome (S.bytes source.old) (λ all.
        IsBlockFrame (k % 256) (piece_at shape all k) (take len buffer.new))) }
    ensures source { AskedOnce S.size S.bytes S.fills S.failures source.old result source.new }
{
    let position = position_of(source.length(), shape, k);
    let length = position.size + 5;
    write_frame(source, position, k, &mut buffer[..length])?;
    Ok(length)
}

/// Makes the frame of block k, whose bytes stand at this position, in a slice of the frame's
/// length.
#[inline(always)]
fn write_frame<S: Source>(
    source: &mut S,
    position: Position,
    k: u64,
    frame: &mut [u8],
) -> Result<(), SourceFault>
    requires there { position.start ≤ S.size source.old }
    requires size { list_length frame.old ≡ position.size + 5 }
    requires kind { (position.size ≡ 128) ⊎ (position.size ≡ 1024) }
    ensures frame { OnOk result ((body : List ℕ) × (list_length body ≡ position.size) ×
        IsBlockFrame (k % 256) body frame.new) }
    ensures body { OnOk result (IfSome (S.bytes source.old) (λ all.
        IsBlockFrame (k % 256) (padded position.size (take position.size (drop position.start all)))
        frame.new)) }
    ensures source { AskedOnce S.size S.bytes S.fills S.failures source.old result source.new }
{
    read_body(source, position, &mut frame[3..3 + position.size])?;
    seal_block((k % 256) as u8, frame);
    Ok(())
}

/// Fills the body of the block at this position from a source.
#[inline(always)]
fn read_body<S: Source>(
    source: &mut S,
    position: Position,
    body: &mut [u8],
) -> Result<(), SourceFault>
    requires there { position.start ≤ S.size source.old }
    requires size { list_length body.old ≡ position.size }
    ensures body { OnOk result (IfSome (S.bytes source.old) (λ all.
        body.new ≡ padded position.size (take position.size (drop position.start all)))) }
    ensures source { AskedOnce S.size S.bytes S.fills S.failures source.old result source.new }
{
    let length = source.length();
    let filled = (position.size as u64).min(length - position.start) as usize;
    read_padded(source, position.start, body, filled)?;
    Ok(())
}

/// Fills the first bytes of a body from a place of a source on, and the others with padding.
#[inline(always)]
fn read_padded<S: Source>(
    source: &mut S,
    start: u64,
    body: &mut [u8],
    filled: usize,
) -> Result<(), SourceFault>
    requires within { filled ≤ list_length body.old }
    requires there { start + filled ≤ S.size source.old }
    ensures body { OnOk result (IfSome (S.bytes source.old) (λ all.
        body.new ≡ padded (list_length body.old) (take filled (drop start all)))) }
    ensures source { AskedOnce S.size S.bytes S.fills S.failures source.old result source.new }
{
    source.fill(start, &mut body[..filled])?;
    pad(body, filled);
    Ok(())
}

/// Fills a body with padding behind its first bytes.
fn pad(body: &mut [u8], filled: usize)
    requires { filled ≤ list_length body.old }
    ensures { body.new ≡ padded (list_length body.old) (take filled body.old) }
{
    body[filled..].fill(PADDING);
}

/// The block k of this body.
fn block_of(k: u64, body: &[u8]) -> Block
    requires { (list_length body.now ≡ 128) ⊎ (list_length body.now ≡ 1024) }
    ensures { result ≡ record { number = k % 256; body = body.now } }
{
    Block::new((k % 256) as u8, body).unwrap()
}
