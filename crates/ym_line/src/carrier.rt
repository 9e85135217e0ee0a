//! What hands bytes on between the two ends.

ghost use Rattle.std.specs.Prelude.{◌≡◌, ◌≢◌, ℕ, List, Option, OnOk, OnErr, Err};
ghost use Rattle.ym_file.specs.Counts.{Counted};
ghost use Rattle.ym_line.specs.Carried.{told_more};
ghost use Rattle.ym_line.specs.declared.delivery.Handed.{Handed};
ghost use Rattle.ym_line.specs.declared.carrier.CarryFault.TheVariants.{Memory};

use crate::delivery::Way;
use std::alloc::{AllocError, AllocFailed};

/// Why a delivery was not handed on.
#[derive(Clone, Copy, Debug, PartialEq, Eq)]
pub enum CarryFault {
    /// The device below failed.
    Device,
    /// Out of memory.
    Memory,
}

impl From<AllocError> for CarryFault {
    ghost from_gives = { λ _ fault. fault ≡ Memory };

    fn from(_: AllocError) -> CarryFault {
        CarryFault::Memory
    }
}

impl<T: Drop> From<AllocFailed<T>> for CarryFault {
    ghost from_gives = { λ _ fault. fault ≡ Memory };

    fn from(_: AllocFailed<T>) -> CarryFault {
        CarryFault::Memory
    }
}

/// A line between two ends, which hands on what it is given, or answers that it could not.
pub trait Carrier {
    /// What was handed on, in order, where the carrier tells it.
    ghost told: { Self → Option (List Handed) };

    /// How often it answered `CarryFault::Device`.
    ghost failures: { Self → ℕ };

    /// Hands bytes on. Success leaves in `into` exactly these bytes, and nothing of what it held
    /// before. A carrier that refuses hands nothing on, and leaves in `into` what it may.
    fn carry(&mut self, way: Way, bytes: &[u8], into: &mut Vec<u8>) -> Result<(), CarryFault>
        ensures arrived { OnOk result (into.new.items ≡ bytes.now) }
        ensures told { OnOk result (told self.new ≡ told_more way bytes.now (told self.old)) }
        ensures refused { OnErr result (told self.new ≡ told self.old) }
        ensures failed { result ≡ Err CarryFault.Device →
            Counted (failures self.old) (failures self.new) }
        ensures not_failed { result ≢ Err CarryFault.Device →
            failures self.new ≡ failures self.old };
}
