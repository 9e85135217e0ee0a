//! A source in memory.

ghost use Rattle.std.specs.Prelude.{◌≡◌, ◌↔◌, ◌≤◌, ◌+◌, Some, OnOk, OnErr, IsErr, IsTrue, length as list_length, take, drop};
ghost use Rattle.ym_file.specs.Counts.{Counted, fails_next, counted, raised, new_tally};

use crate::countdown::Countdown;
use crate::source::{Source, SourceFault};
use std::marker::Model;

/// A file in memory, which can be made to fail at one fill.
#[derive(Drop)]
pub struct MemSource {
    items: Vec<u8>,
    countdown: Countdown,
    fills: u64,
}

impl Model for MemSource {
    ghost use Rattle.ym_file.specs.MemSource.{MemSourceParts};

    ghost Value = { MemSourceParts };

    ghost view = { λ s. record { bytes = s.items.items; tally = s.countdown; fills = s.fills } };
}

impl MemSource {
    /// A file of these bytes. Fill number `failing`, counted from 1, fails and no other does; 0
    /// names none.
    pub fn new(bytes: Vec<u8>, failing: Option<u64>) -> Self
        ensures { result ≡ record { bytes = bytes.items; tally = new_tally failing; fills = 0 } }
    {
        MemSource {
            items: bytes,
            countdown: Countdown::new(failing),
            fills: 0,
        }
    }

    /// The bytes of the file.
    pub fn bytes(&self) -> &[u8]
        ensures { result.now ≡ self.now.bytes }
    {
        self.items.as_slice()
    }

    /// How often it was asked to fill. At its greatest value the count stays.
    pub fn fills(&self) -> u64
        ensures { result ≡ self.now.fills }
    {
        self.fills
    }
}

impl Source for MemSource {
    ghost size = { λ s. list_length s.bytes };

    ghost bytes = { λ s. Some s.bytes };

    ghost failures = { λ s. s.tally.failures };

    ghost fills = { λ s. s.fills };

    fn length(&self) -> u64 {
        self.items.len() as u64
    }

    fn fill(&mut self, at: u64, into: &mut [u8]) -> Result<(), SourceFault>
        requires { at + list_length into.old ≤ list_length self.old.bytes }
        ensures bytes { OnOk result (into.new ≡
            take (list_length into.old) (drop at self.old.bytes)) }
        ensures after { self.new ≡
            record {
              bytes = self.old.bytes;
              tally = counted self.old.tally;
              fills = raised self.old.fills;
            } }
        ensures fails { IsErr result ↔ IsTrue (fails_next self.old.tally) }
        ensures failed { OnErr result (Counted self.old.tally.failures self.new.tally.failures) }
    {
        self.fills = self.fills.saturating_add(1);
        if self.countdown.fails() {
            return Err(SourceFault);
        }
        let count = into.len();
        into.copy_from_slice(&self.items[at as usize..][..count]);
        Ok(())
    }
}
