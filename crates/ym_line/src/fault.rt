//! Why a round was not finished.

ghost use Rattle.std.specs.Prelude.{◌≡◌};
ghost use Rattle.ym_line.specs.LineFault.{fault_of};
ghost use Rattle.ym_line.specs.declared.fault.LineFault.TheVariants.{Memory};

use crate::carrier::CarryFault;
use std::alloc::AllocError;
use thiserror::Error;

/// Why a round was not finished. Rounds are counted from 1.
#[derive(Clone, Copy, Debug, PartialEq, Eq, Error)]
pub enum LineFault {
    /// A delivery that is given as damaged could pass for one that is not: it begins with a frame,
    /// or brings a control byte that the reply does not have.
    #[error("round {0}: not damage")]
    NotDamage(usize),
    /// A damaged delivery has more bytes than [`DELIVERY_LIMIT`](crate::DELIVERY_LIMIT).
    #[error("round {0}: too long")]
    TooLong(usize),
    /// The carrier failed.
    #[error("fault: device")]
    Carrier,
    /// Out of memory.
    #[error("fault: memory")]
    Memory,
}

impl From<CarryFault> for LineFault {
    ghost from_gives = { λ old fault. fault ≡ fault_of old };

    fn from(fault: CarryFault) -> LineFault {
        match fault {
            CarryFault::Device => LineFault::Carrier,
            CarryFault::Memory => LineFault::Memory,
        }
    }
}

impl From<AllocError> for LineFault {
    ghost from_gives = { λ _ fault. fault ≡ Memory };

    fn from(_: AllocError) -> LineFault {
        LineFault::Memory
    }
}
