//! The check, and what stands at the front of some bytes.

ghost use Rattle.std.specs.Prelude.{◌≡◌, ◌⊎◌, ◌↔◌, ◌<◌, ◌≤◌, ◌+◌, ◌%◌, take, drop, length as list_length};
ghost use Rattle.ym_frame.specs.Check.{check_of};
ghost use Rattle.ym_frame.specs.Frame.{verdict_of};
ghost use Rattle.ym_frame.specs.Seal.{IsBlockFrame};
ghost use Rattle.ym_c.specs.Fronts.{IsFront};

use crate::sender::seal_frame;
use ym_frame::{Broken, ItemRef, Why, check16, verdict};

/// What stands at the front of some bytes.
#[repr(C)]
pub struct YmFront {
    /// 0: it may go on to a frame; 1: a block; 2: an EOT; 3: CAN CAN; 4: no frame.
    pub kind: u32,
    /// At 1: the block's number.
    pub number: u32,
    /// At 1: how many bytes its body has, which stands behind the first three bytes: 128 or 1024.
    pub size: u64,
    /// How many bytes the frame has; at 0 and 4: where no frame can go on.
    pub length: u64,
}

/// The 16-bit check of these bytes.
#[unsafe(no_mangle)]
pub extern "C" fn ym_check(bytes: &[u8]) -> u32
    ensures { result ≡ check_of bytes.now }
{
    u32::from(check16(bytes))
}

/// Tells what stands at the front of some bytes.
#[unsafe(no_mangle)]
pub extern "C" fn ym_frame_read(bytes: &[u8], front: &mut YmFront)
    ensures { IsFront (verdict_of bytes.now) front.new }
{
    front.number = 0;
    front.size = 0;
    match verdict(bytes) {
        Ok(found) => {
            let (item, len) = found;
            front.length = len as u64;
            match item {
                ItemRef::Block(block) => {
                    front.kind = 1;
                    front.number = u32::from(block.number());
                    front.size = block.body().len() as u64;
                }
                ItemRef::Eot => front.kind = 2,
                ItemRef::Cancel => front.kind = 3,
            }
        }
        Err(Broken { place, why }) => {
            front.kind = if why == Why::Cut { 0 } else { 4 };
            front.length = place as u64;
        }
    }
}

/// Makes the frame of the block of this number, modulo 256, and this body at the front of `frame`,
/// and answers its length; 0 where the body has neither 128 nor 1024 bytes, or the frame has no
/// room.
#[unsafe(no_mangle)]
pub extern "C" fn ym_frame_write(number: u32, body: &[u8], frame: &mut [u8]) -> usize
    ensures made { 0 < result → IsBlockFrame (number % 256) body.now (take result frame.new) }
    ensures behind { drop result frame.new ≡ drop result frame.old }
    ensures room { result ≤ list_length frame.old }
    ensures whether { 0 < result ↔
        (((list_length body.now ≡ 128) ⊎ (list_length body.now ≡ 1024))
        × list_length body.now + 5 ≤ list_length frame.old) }
{
    let size = body.len();
    if (size != 128 && size != 1024) || frame.len() < size + 5 {
        return 0;
    }
    seal_frame(&mut frame[..size + 5], (number % 256) as u8, body);
    size + 5
}
