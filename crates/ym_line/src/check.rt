//! The checks of a round's deliveries: damage has to show, and has to be short enough.

ghost use Rattle.std.specs.Prelude.{OnOk};
ghost use Rattle.ym_line.specs.Damage.{ShowsThere, ShowsBack, IsShort, IsHeardBad, IsChecked};

use crate::delivery::Delivery;
use crate::fault::LineFault;
use ym_frame::{Reply, controls_within, has_frame};
use ym_link::DELIVERY_LIMIT;

/// Refuses a delivery of round `n` to the receiver whose damage does not show, or which is too
/// long.
pub(crate) fn check_there(delivery: &Delivery, n: usize) -> Result<(), LineFault>
    ensures checked { IsChecked n (ShowsThere delivery.now) (IsShort delivery.now) result }
    ensures bad { OnOk result (IsHeardBad delivery.now) }
{
    let Delivery::Damaged(bytes) = delivery else {
        return Ok(());
    };
    let bytes = bytes.as_slice();
    if has_frame(bytes) {
        return Err(LineFault::NotDamage(n));
    }
    if bytes.len() > DELIVERY_LIMIT {
        return Err(LineFault::TooLong(n));
    }
    Ok(())
}

/// Refuses a delivery of round `n` to the sender whose damage does not show, or which is too long.
pub(crate) fn check_back(delivery: &Delivery, reply: Reply, n: usize) -> Result<(), LineFault>
    ensures { IsChecked n (ShowsBack reply delivery.now) (IsShort delivery.now) result }
{
    let Delivery::Damaged(bytes) = delivery else {
        return Ok(());
    };
    let bytes = bytes.as_slice();
    if !controls_within(bytes, reply.as_bytes()) {
        return Err(LineFault::NotDamage(n));
    }
    if bytes.len() > DELIVERY_LIMIT {
        return Err(LineFault::TooLong(n));
    }
    Ok(())
}
