//! A line in memory.

ghost use Rattle.std.specs.Prelude.{◌≡◌, ◌++◌, ◌∷◌, [], true, IfSome};
ghost use Rattle.ym_port.specs.declared.deed.Deed.{Deed as Done};

use crate::deed::Deed;
use crate::wire::Wire;
use std::alloc::Global;
use ym_frame::Bytes;
use ym_link::{Event, Got, Port, PortFault, ScriptPort, Wait};

/// A line in memory: it plays moments and events, and keeps what is done with it.
#[derive(Drop)]
pub struct TapeWire {
    alloc: Global,
    moments: Vec<u64>,
    told: usize,
    port: ScriptPort,
    deeds: Vec<Deed>,
    /// Whether there was memory to keep all of them.
    keeps_deeds: bool,
}

impl TapeWire {
    /// A line whose clock tells these moments, and then 0, and to which these events come. Write
    /// number `failing_write`, counted from 1, fails; 0 and `None` name no write.
    pub fn new(
        alloc: Global,
        moments: Vec<u64>,
        events: Vec<Event>,
        failing_write: Option<u64>,
    ) -> TapeWire
        ensures moments { result.moments ≡ moments }
        ensures told { result.told ≡ 0 }
        ensures coming { result.port.coming ≡ events.items }
        ensures deeds { result.deeds.items ≡ [] }
        ensures keeps { result.keeps_deeds ≡ true }
    {
        TapeWire {
            alloc,
            moments,
            told: 0,
            port: ScriptPort::new(alloc, events, failing_write),
            deeds: Vec::new(alloc),
            keeps_deeds: true,
        }
    }

    /// What was done so far, in order; `None` where memory for this record was wanting.
    pub fn deeds(&self) -> Option<&[Deed]>
        ensures { IfSome result (λ deeds. deeds.now ≡ self.now.deeds.items) }
    {
        if self.keeps_deeds {
            Some(self.deeds.as_slice())
        } else {
            None
        }
    }

    /// The bytes written so far.
    pub fn written(&self) -> &[u8]
        ensures { result.now ≡ self.now.port.written }
    {
        self.port.written()
    }

    /// Keeps a deed, while there is memory for it.
    fn keep(&mut self, deed: Deed)
        ensures same { self.new ≡ record self.old {
          deeds = self.new.deeds;
          keeps_deeds = self.new.keeps_deeds;
        } }
        ensures kept { self.new.keeps_deeds ≡ true → (self.old.keeps_deeds ≡ true)
            × (self.new.deeds.items ≡ self.old.deeds.items ++ deed ∷ []) }
    {
        if self.keeps_deeds && self.deeds.push(deed).is_err() {
            self.keeps_deeds = false;
        }
    }

    /// Keeps a write, while there is memory for it.
    fn keep_write(&mut self, bytes: &[u8])
        ensures same { self.new ≡ record self.old {
          deeds = self.new.deeds;
          keeps_deeds = self.new.keeps_deeds;
        } }
        ensures kept { self.new.keeps_deeds ≡ true → (self.old.keeps_deeds ≡ true)
            × (self.new.deeds.items ≡ self.old.deeds.items ++ Deed.Wrote bytes.now ∷ []) }
    {
        match bytes.to_vec(self.alloc) {
            Ok(items) => self.keep(Deed::Wrote(Bytes::new(items))),
            Err(_) => self.keeps_deeds = false,
        }
    }
}

impl Wire for TapeWire {
    ghost use Rattle.std.specs.Prelude.{List, Some, drop};
    ghost use Rattle.ym_link.specs.declared.port.Wait.{Wait as Asked};

    ghost tells = { λ w t. ((v : List Asked) × (w.port.waits ≡ Some v))
        × (w.keeps_deeds ≡ true) × (t ≡ record {
          moments = drop w.told w.moments.items;
          coming = w.port.coming;
          done = w.deeds.items;
        }) };

    ghost failures = { λ w. w.port.tally.failures };

    fn moment(&mut self) -> u64 {
        self.keep(Deed::Looked);
        match self.moments.get(self.told) {
            Some(now) => {
                self.told += 1;
                *now
            }
            None => 0,
        }
    }

    fn read(&mut self, millis: u64, buf: &mut [u8]) -> Result<Got, PortFault> {
        self.keep(Deed::Waited(millis));
        self.port.read(Wait::Reply, buf)
    }

    fn write(&mut self, bytes: &[u8]) -> Result<(), PortFault> {
        self.port.write(bytes)?;
        self.keep_write(bytes);
        Ok(())
    }
}
