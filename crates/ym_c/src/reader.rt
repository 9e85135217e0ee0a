//! Frames in pieces: a reader whose bytes stand in C's memory.

ghost use Rattle.std.specs.Prelude.{◌≡◌, ◌≢◌, ◌≤◌, ◌<◌, ◌⊎◌, [], take, length};
ghost use Rattle.ym_frame.specs.Frame.{verdict_of};
ghost use Rattle.ym_frame.specs.Pieces.{Scan, partial, scan_left, item_found, scan_after, item_of};
ghost use Rattle.ym_c.specs.Fronts.{KeepsScan, Takes, IsFound, IsRead, why_code};

use crate::feeding::take_bytes;
use crate::frames::YmFront;
use ym_frame::laws::a_body_stands_behind_three_bytes;
use ym_frame::{Broken, ItemRef, Why, verdict};

/// A reader of frames that come in pieces, and the bytes of the frame that is coming.
#[repr(C)]
pub struct YmReader {
    /// Where why is not 0: the place of the first byte that no frame can have there.
    pub place: u64,
    /// How many bytes are held: 0 behind a whole frame, whose bytes stay until the next are fed.
    pub len: u32,
    /// 0: bytes may go on to a frame; else why no frame can come any more.
    pub why: u32,
    /// The bytes.
    pub held: [u8; 1029],
}

/// The number of the reason why no frame can come any more.
fn code_of_why(why: Why) -> u32
    ensures { result ≡ why_code why }
{
    match why {
        Why::FirstByte => 1,
        Why::Complement => 2,
        Why::Check => 3,
        Why::SecondCan => 4,
        Why::Cut => 5,
    }
}

/// Makes a reader to which nothing came, whatever stood there.
#[unsafe(no_mangle)]
pub extern "C" fn ym_reader_init(reader: &mut YmReader)
    ensures { KeepsScan reader.new (partial []) }
{
    reader.place = 0;
    reader.len = 0;
    reader.why = 0;
}

/// Tells what the bytes held are, and makes the reader new behind a frame.
fn tell(reader: &mut YmReader, front: &mut YmFront)
    requires whole { reader.old.why ≡ 0 }
    requires room { reader.old.len ≤ 1029 }
    ensures scan { KeepsScan reader.new (scan_left
        (verdict_of (take reader.old.len reader.old.held)) (take reader.old.len reader.old.held)) }
    ensures found { IsFound (verdict_of (take reader.old.len reader.old.held))
        front.new reader.new.held }
{
    a_body_stands_behind_three_bytes();
    front.number = 0;
    front.size = 0;
    match verdict(&reader.held[..reader.len as usize]) {
        Ok(found) => {
            let (item, len) = found;
            reader.len = 0;
            front.length = len as u64;
            match item {
                ItemRef::Block(block) => {
                    front.kind = 1;
                    front.number = u32::from(block.number());
                    front.size = block.body().len() as u64;
                }
                ItemRef::Eot => front.kind = 2,
                ItemRef::Cancel => front.kind = 3,
            }
        }
        Err(
            Broken {
                place,
                why: Why::Cut,
            },
        ) => {
            front.kind = 0;
            front.length = place as u64;
        }
        Err(Broken { place, why }) => {
            reader.why = code_of_why(why);
            reader.place = place as u64;
            front.kind = 4;
            front.length = place as u64;
        }
    }
}

/// Takes bytes of a piece, and tells how many, and what they make of the bytes before: up to the
/// end of a frame, or of what can be one; it may take fewer than that, and then tells that a frame
/// may come. Where none can come any more it takes all, until it is made new.
#[unsafe(no_mangle)]
pub extern "C" fn ym_reader_feed(reader: &mut YmReader, bytes: &[u8], front: &mut YmFront) -> usize
    ensures none { (reader.old.why ≢ 0) ⊎ (1029 < reader.old.len) →
        (result ≡ length bytes.now) × (front.new.kind ≡ 4)
        × (front.new.length ≡ reader.old.place) × (reader.new ≡ reader.old) }
    ensures reads { (scan : Scan) → KeepsScan reader.old scan →
        Takes scan bytes.now result
        × KeepsScan reader.new (scan_after scan (take result bytes.now))
        × IsRead scan (take result bytes.now) front.new reader.new.held }
{
    if reader.why != 0 || reader.len > 1029 {
        front.kind = 4;
        front.number = 0;
        front.size = 0;
        front.length = reader.place;
        return bytes.len();
    }
    let used = take_bytes(&mut reader.held, reader.len as usize, bytes);
    reader.len += used as u32;
    tell(reader, front);
    used
}
