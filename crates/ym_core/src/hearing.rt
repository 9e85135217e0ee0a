//! How an end hears a delivery.

ghost use Rattle.std.specs.Prelude.{◌≡◌};
ghost use Rattle.ym_core.specs.HeardRef.{owned_heard};
ghost use Rattle.ym_core.specs.Hearing.{heard_of};

use crate::delivery::{Heard, HeardRef};
use ym_frame::{decode, verdict};

/// The item of the prefix of `bytes` that is a frame, else `Heard::Bad`.
pub fn heard(bytes: &[u8]) -> Heard
    ensures { result ≡ heard_of bytes.now }
{
    match decode(bytes) {
        Ok((item, _)) => Heard::Item(item),
        Err(_) => Heard::Bad,
    }
}

/// The same without a copy: a block's body stands in `bytes`.
pub fn heard_in(bytes: &[u8]) -> HeardRef<'_>
    ensures { owned_heard result ≡ heard_of bytes.entry.now }
{
    match verdict(bytes) {
        Ok((item, _)) => HeardRef::Item(item),
        Err(_) => HeardRef::Bad,
    }
}
