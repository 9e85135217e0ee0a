//! A port that plays a list of events, and keeps what is written.

ghost use Rattle.std.specs.Prelude.{◌≡◌, ◌<◌, ◌≤◌, ◌⊎◌, ℕ, List, [], ◌∷◌, ◌++◌, IsTrue, IsErr, OnOk, OnErr, length, Some, None, MatchOption, Ok, is_ok};
ghost use Rattle.ym_file.specs.Counts.{Counted, fails_next};
ghost use Rattle.ym_link.specs.Port.{seen_of, read_gives};
ghost use Rattle.ym_link.specs.declared.port.Wait.{Wait as Asked};

use crate::event::Event;
use crate::event_queue::EventQueue;
use crate::port::{Got, Port, PortFault, Wait};
use std::alloc::Global;
use std::marker::Model;

/// A port that plays a list of events, and keeps what is written.
#[derive(Drop)]
pub struct ScriptPort {
    coming: EventQueue,
    log: Vec<u8>,
    waits: Vec<Wait>,
    /// Whether there was memory to keep all of them.
    keeps_waits: bool,
    failing: u64,
    failed: u64,
    refused: u64,
}

impl Model for ScriptPort {
    ghost use Rattle.ym_link.specs.ScriptPort.{PortParts, kept_waits};

    ghost Value = { PortParts };

    ghost view = { λ p.
        record {
          coming = p.coming;
          written = p.log.items;
          waits = kept_waits p.keeps_waits p.waits.items;
          tally = record { failing = p.failing; failures = p.failed };
          refused = p.refused;
        } };
}

impl ScriptPort {
    ghost use Rattle.ym_link.specs.ScriptPort.{new_port, after_read, after_losing};

    /// A port to which these events come, and then nothing more. Write number `failing_write`,
    /// counted from 1, fails; 0 and `None` name no write.
    pub fn new(alloc: Global, events: Vec<Event>, failing_write: Option<u64>) -> ScriptPort
        ensures { result ≡ new_port events.items failing_write }
    {
        ScriptPort {
            coming: EventQueue::new(events),
            log: Vec::new(alloc),
            waits: Vec::new(alloc),
            keeps_waits: true,
            failing: failing_write.unwrap_or(0),
            failed: 0,
            refused: 0,
        }
    }

    /// The bytes written so far.
    pub fn written(&self) -> &[u8]
        ensures { result.now ≡ self.now.written }
    {
        self.log.as_slice()
    }

    /// The waits that its reads were given so far, in order; `None` where a read found no memory
    /// for its own.
    pub fn waits(&self) -> Option<&[Wait]>
        ensures { MatchOption result (self.now.waits ≡ None) (λ waits.
            self.now.waits ≡ Some waits.now) }
    {
        if self.keeps_waits {
            Some(self.waits.as_slice())
        } else {
            None
        }
    }

    /// Keeps the wait of a read. Where there is no memory for it the read fails, and so does each
    /// later one, for the record has a gap.
    fn keep(&mut self, wait: Wait) -> Result<(), PortFault>
        ensures kept { OnOk result ((v : List Asked) × (self.old.waits ≡ Some v) ×
            (self.new ≡ record self.old { waits = Some (v ++ wait ∷ []) })) }
        ensures lost { OnErr result (self.new ≡ after_losing self.old) }
        ensures failed { OnErr result (Counted self.old.tally.failures self.new.tally.failures) }
    {
        if self.keeps_waits && self.waits.push(wait).is_ok() {
            return Ok(());
        }
        self.keeps_waits = false;
        self.failed = self.failed.saturating_add(1);
        self.refused = self.refused.saturating_add(1);
        Err(PortFault)
    }

    /// Takes the result of a read off the front of the events.
    fn take(&mut self, buf: &mut [u8]) -> Result<Got, PortFault>
        requires { 0 < length buf.old }
        ensures count { (n : ℕ) → result ≡ Ok (Got.Bytes n) → (0 < n) × (n ≤ length buf.old) }
        ensures seen { seen_of result buf.new ≡ read_gives (length buf.old) self.old.coming }
        ensures after { self.new ≡ after_read (is_ok result) (length buf.old) self.old }
        ensures failed { OnErr result (Counted self.old.tally.failures self.new.tally.failures) }
    {
        let answer = self.coming.take(buf);
        if answer.is_err() {
            self.failed = self.failed.saturating_add(1);
        }
        answer
    }

    /// How many calls failed.
    pub fn failures(&self) -> u64
        ensures { result ≡ self.now.tally.failures }
    {
        self.failed
    }

    /// How many of them found no memory for the record.
    pub fn refused_growths(&self) -> u64
        ensures { result ≡ self.now.refused }
    {
        self.refused
    }
}

impl Port for ScriptPort {
    ghost use Rattle.ym_link.specs.ScriptPort.{after_read, after_losing};
    ghost use Rattle.ym_link.specs.ScriptPort.{after_writing, after_failing, after_refusing};

    // Where its record has a gap, a read failed that no event stands for: it tells no more.
    ghost tells = { λ p t. (w : List Asked) × (p.waits ≡ Some w) ×
        (t ≡ record { coming = p.coming; written = p.written }) };

    ghost asked = { λ p w. p.waits ≡ Some w };

    ghost failures = { λ p. p.tally.failures };

    fn read(&mut self, wait: Wait, buf: &mut [u8]) -> Result<Got, PortFault>
        requires { 0 < length buf.old }
        ensures count { (n : ℕ) → result ≡ Ok (Got.Bytes n) → (0 < n) × (n ≤ length buf.old) }
        ensures seen { (w : List Asked) → self.new.waits ≡ Some w →
            seen_of result buf.new ≡ read_gives (length buf.old) self.old.coming }
        ensures after { (w : List Asked) → self.new.waits ≡ Some w →
            (v : List Asked) × (self.old.waits ≡ Some v) × (w ≡ v ++ wait ∷ []) ×
            (self.new ≡
            record (after_read (is_ok result) (length buf.old) self.old) { waits = Some w }) }
        ensures lost { self.new.waits ≡ None → IsErr result × (self.new ≡ after_losing self.old) }
        ensures ok { OnOk result (self.new.tally ≡ self.old.tally) }
        ensures failed { OnErr result (Counted self.old.tally.failures self.new.tally.failures) }
    {
        self.keep(wait)?;
        self.take(buf)
    }

    fn write(&mut self, bytes: &[u8]) -> Result<(), PortFault>
        ensures ok { OnOk result (self.new ≡ after_writing bytes.now self.old) }
        ensures fails { IsTrue (fails_next self.old.tally) →
            IsErr result × (self.new ≡ after_failing self.old) }
        ensures refused { OnErr result (IsTrue (fails_next self.old.tally) ⊎
            (self.new ≡ after_refusing self.old)) }
        ensures failed { OnErr result (Counted self.old.tally.failures self.new.tally.failures) }
    {
        let is_failing = self.failing == 1;
        self.failing = self.failing.saturating_sub(1);
        if is_failing {
            self.failed = self.failed.saturating_add(1);
            return Err(PortFault);
        }
        if self.log.extend_from_slice(bytes).is_err() {
            self.failed = self.failed.saturating_add(1);
            self.refused = self.refused.saturating_add(1);
            return Err(PortFault);
        }
        Ok(())
    }
}
