//! The bytes of a delivery, in whatever pieces they come.

ghost use Rattle.std.specs.Prelude.{◌≡◌, ◌⊎◌, ◌≤◌, ◌<◌, ◌+◌, ◌++◌, List, ℕ, take, length};
ghost use Rattle.ym_frame.specs.Frame.{verdict_of, block_verdict, IsOpen};
ghost use Rattle.ym_c.specs.Feeding.{Feeds};

use ym_frame::laws::open_bytes_begin_a_frame;

const SOH: u8 = 0x01;

const STX: u8 = 0x02;

const CAN: u8 = 0x18;

/// How many bytes have to come at least before bytes that begin as a block with a body of this size
/// are decided.
fn wanted_of_block(bytes: &[u8], size: usize) -> usize
    requires some { 0 < length bytes.now }
    requires size { (size ≡ 128) ⊎ (size ≡ 1024) }
    ensures wanted { (more : List ℕ) → length more < result →
        IsOpen (block_verdict size (bytes.now ++ more)) }
    ensures some { IsOpen (block_verdict size bytes.now) → 0 < result }
    ensures room { 0 < result → length bytes.now + result ≤ size + 5 }
{
    let len = bytes.len();
    if len < 3 {
        return 3 - len;
    }
    if bytes[2] != 255 - bytes[1] || len >= size + 5 {
        return 0;
    }
    size + 5 - len
}

/// How many bytes have to come at least before these are decided: 0 where they are a frame or can
/// go on to none.
pub fn wanted(bytes: &[u8]) -> usize
    ensures wanted { (more : List ℕ) → length more < result →
        IsOpen (verdict_of (bytes.now ++ more)) }
    ensures some { IsOpen (verdict_of bytes.now) → 0 < result }
    ensures room { 0 < result → length bytes.now + result ≤ 1029 }
{
    open_bytes_begin_a_frame();
    if bytes.is_empty() {
        return 1;
    }
    let first = bytes[0];
    if first == SOH {
        return wanted_of_block(bytes, 128);
    }
    if first == STX {
        return wanted_of_block(bytes, 1024);
    }
    if first == CAN && bytes.len() == 1 {
        return 1;
    }
    0
}

/// Takes bytes of a piece behind the first `len` of a delivery, and answers how many it took.
pub fn take_bytes(held: &mut [u8; 1029], len: usize, piece: &[u8]) -> usize
    requires { len ≤ 1029 }
    ensures feeds { Feeds (take len held.old) piece.now result }
    ensures bytes { take (len + result) held.new ≡ take len held.old ++ take result piece.now }
    ensures room { len + result ≤ 1029 }
    ensures same { length held.new ≡ 1029 }
{
    let used = wanted(&held[..len]).min(piece.len());
    held[len..len + used].copy_from_slice(&piece[..used]);
    used
}
