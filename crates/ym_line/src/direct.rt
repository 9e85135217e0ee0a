//! A carrier in memory.

ghost use Rattle.std.specs.Prelude.{◌≡◌, ◌≢◌, ◌↔◌, ◌++◌, ◌∷◌, [], None, Some, OnOk, OnErr, Err, IsTrue};
ghost use Rattle.ym_file.specs.Counts.{Counted, fails_next, counted, new_tally};
ghost use Rattle.ym_line.specs.Carried.{handed_on};

use crate::carrier::{Carrier, CarryFault};
use crate::delivery::{Handed, Way};
use std::alloc::Global;
use std::marker::Model;
use ym_frame::Bytes;

/// A carrier in memory, which keeps a record of what it hands on.
#[derive(Drop)]
pub struct Direct {
    alloc: Global,
    deliveries: Vec<Handed>,
    failing: u64,
    failures: u64,
}

impl Model for Direct {
    ghost use Rattle.ym_line.specs.Direct.{DirectParts};

    ghost Value = { DirectParts };

    ghost view = { λ d.
        record {
          handed = d.deliveries.items;
          tally = record { failing = d.failing; failures = d.failures };
        } };
}

impl Direct {
    /// A carrier that never answers `CarryFault::Device`.
    pub fn new(alloc: Global) -> Self
        ensures { result ≡ record { handed = []; tally = new_tally None } }
    {
        Direct::failing(alloc, 0)
    }

    /// A carrier whose carry number `at`, counted from 1, answers `CarryFault::Device`, and no
    /// other does.
    pub fn failing(alloc: Global, at: u64) -> Self
        ensures { result ≡ record { handed = []; tally = new_tally (Some at) } }
    {
        Direct {
            alloc,
            deliveries: Vec::new(alloc),
            failing: at,
            failures: 0,
        }
    }

    /// Every delivery that was handed on, in order.
    pub fn handed(&self) -> &[Handed]
        ensures { result.now ≡ self.now.handed }
    {
        self.deliveries.as_slice()
    }

    /// Counts a carry. Whether it fails.
    fn fails(&mut self) -> bool
        ensures fails { result ≡ fails_next self.old.tally }
        ensures after { self.new ≡
            record { handed = self.old.handed; tally = counted self.old.tally } }
        ensures counted_failure { IsTrue result →
            Counted self.old.tally.failures self.new.tally.failures }
    {
        let fails = self.failing == 1;
        self.failing = self.failing.saturating_sub(1);
        if fails {
            self.failures = self.failures.saturating_add(1);
        }
        fails
    }
}

impl Carrier for Direct {
    ghost told = { λ d. Some d.handed };

    ghost failures = { λ d. d.tally.failures };

    fn carry(&mut self, way: Way, bytes: &[u8], into: &mut Vec<u8>) -> Result<(), CarryFault>
        ensures arrived { OnOk result (into.new.items ≡ bytes.now) }
        ensures done { OnOk result (self.new ≡
            record {
              handed = self.old.handed ++ handed_on way bytes.now ∷ [];
              tally = counted self.old.tally;
            }) }
        ensures refused { OnErr result (self.new ≡
            record { handed = self.old.handed; tally = counted self.old.tally }) }
        ensures fails { (result ≡ Err CarryFault.Device) ↔ IsTrue (fails_next self.old.tally) }
        ensures failed { result ≡ Err CarryFault.Device →
            Counted self.old.tally.failures self.new.tally.failures }
    {
        if self.fails() {
            return Err(CarryFault::Device);
        }
        into.clear();
        into.extend_from_slice(bytes)?;
        let copy = Vec::from_slice(self.alloc, bytes)?;
        self.deliveries.push(Handed {
            way,
            bytes: Bytes::new(copy),
        })?;
        Ok(())
    }
}
