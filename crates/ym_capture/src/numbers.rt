//! Numbers in the bytes of a capture.

ghost use Rattle.std.specs.Prelude.{◌≡◌, drop, take, slice_index};
ghost use Rattle.ym_capture.specs.CaptureNumbers.{two as two_of, two_up as two_up_of};
ghost use Rattle.ym_capture.specs.CaptureNumbers.{four as four_of, four_up as four_up_of};
ghost use Rattle.ym_capture.specs.CaptureNumbers.{four_in as four_by, eight as eight_of};

use crate::head::ByteOrder;

/// The bytes behind so many; none where there are fewer.
#[tactic(auto, using(std::proofs::lemmas::List::drop_min))]
pub(crate) fn behind(bytes: &[u8], count: usize) -> &[u8]
    ensures { result.now ≡ drop count bytes.entry.now }
{
    &bytes[count.min(bytes.len())..]
}

/// The first so many bytes; all where there are fewer.
#[tactic(auto, using(std::proofs::lemmas::List::take_min))]
pub(crate) fn prefix(bytes: &[u8], count: usize) -> &[u8]
    ensures { result.now ≡ take count bytes.entry.now }
{
    &bytes[..count.min(bytes.len())]
}

/// The byte at this place, or 0 where there is none.
pub(crate) fn byte_at(bytes: &[u8], place: usize) -> u8
    ensures { result ≡ slice_index bytes.now place }
{
    bytes.get(place).copied().unwrap_or(0)
}

/// A number of two bytes, the higher one first.
#[tactic(auto, unfolding(crate::specs::CaptureNumbers::two))]
pub(crate) fn two(bytes: &[u8]) -> u16
    ensures { result ≡ two_of bytes.now }
{
    u16::from(byte_at(bytes, 0)) * 256 + u16::from(byte_at(bytes, 1))
}

/// The same, the lower one first.
#[tactic(auto, unfolding(crate::specs::CaptureNumbers::two_up))]
fn two_up(bytes: &[u8]) -> u16
    ensures { result ≡ two_up_of bytes.now }
{
    u16::from(byte_at(bytes, 1)) * 256 + u16::from(byte_at(bytes, 0))
}

/// A number of four bytes, the highest one first.
#[tactic(auto, unfolding(crate::specs::CaptureNumbers::four))]
pub(crate) fn four(bytes: &[u8]) -> u32
    ensures { result ≡ four_of bytes.now }
{
    u32::from(two(bytes)) * 65536 + u32::from(two(behind(bytes, 2)))
}

/// The same, the lowest one first.
#[tactic(auto, unfolding(crate::specs::CaptureNumbers::four_up))]
fn four_up(bytes: &[u8]) -> u32
    ensures { result ≡ four_up_of bytes.now }
{
    u32::from(two_up(behind(bytes, 2))) * 65536 + u32::from(two_up(bytes))
}

/// A number of four bytes in this order.
pub(crate) fn four_in(order: ByteOrder, bytes: &[u8]) -> u32
    ensures { result ≡ four_by order bytes.now }
{
    match order {
        ByteOrder::HighFirst => four(bytes),
        ByteOrder::LowFirst => four_up(bytes),
    }
}

/// A number of eight bytes, the highest one first.
#[tactic(auto, unfolding(crate::specs::CaptureNumbers::eight))]
pub(crate) fn eight(bytes: &[u8]) -> u64
    ensures { result ≡ eight_of bytes.now }
{
    u64::from(four(bytes)) * 4_294_967_296 + u64::from(four(behind(bytes, 4)))
}
