//! A sink in memory.

ghost use Rattle.std.specs.Prelude.{◌≡◌, ◌≢◌, ◌↔◌, ◌<◌, ◌≤◌, ◌++◌, [], None, Some, OnOk, OnErr, IsTrue, length as list_length};
ghost use Rattle.ym_file.specs.Counts.{Counted, fails_next, new_tally};
ghost use Rattle.ym_file.specs.Kept.{room, IsCoveredFile, IsNew};
ghost use Rattle.ym_file.specs.MemSink.{kept_of, after_begin, after_add, after_commit, after_refusal};

use crate::collector::Collector;
use crate::countdown::Countdown;
use crate::received::Received;
use crate::sink::{Sink, SinkFault};
use std::alloc::Global;
use std::marker::Model;
use ym_header::Header;

/// The file that a sink takes at present.
#[derive(Drop)]
struct MemFile {
    header: Header,
    collector: Collector,
}

/// Files kept in memory. It can be made to fail at one call.
#[derive(Drop)]
pub struct MemSink {
    alloc: Global,
    taking: Option<MemFile>,
    committed: Vec<Received>,
    countdown: Countdown,
}

impl Model for MemSink {
    ghost use Rattle.ym_file.specs.MemSink.{MemSinkParts};
    ghost use Rattle.std.specs.Vec.{vec_len, vec_capacity};
    ghost use Rattle.ym_file.specs.MemFile.{opened_of, IsReady};

    ghost Value = { MemSinkParts };

    ghost view = { λ s.
        record {
          opened = opened_of s.taking;
          files = s.committed.items;
          tally = s.countdown;
        } };

    ghost invariant = { λ s. IsReady s.taking (vec_len s.committed) (vec_capacity s.committed) };
}

impl MemSink {
    /// A sink without files. Call number `failing` over `begin`, `add` and `commit`, counted from
    /// 1, fails and no other does; 0 names none.
    pub fn new(alloc: Global, failing: Option<u64>) -> Self
        ensures parts { result ≡ record { opened = None; files = []; tally = new_tally failing } }
        ensures new { IsNew (kept_of result) }
    {
        MemSink {
            alloc,
            taking: None,
            committed: Vec::new(alloc),
            countdown: Countdown::new(failing),
        }
    }

    /// The committed files, in order.
    pub fn files(&self) -> &[Received]
        ensures { result.now ≡ self.now.files }
    {
        self.committed.as_slice()
    }
}

impl Sink for MemSink {
    ghost kept = { kept_of };

    ghost failures = { λ s. s.tally.failures };

    fn begin(&mut self, header: Header) -> Result<(), SinkFault>
        requires { self.old.opened ≡ None }
        ensures done { OnOk result (self.new ≡ after_begin header self.old) }
        ensures refused { OnErr result (self.new ≡ after_refusal self.old) }
        ensures fails { (result ≡ Err SinkFault.Failed) ↔ IsTrue (fails_next self.old.tally) }
        ensures failed { result ≡ Err SinkFault.Failed →
            Counted self.old.tally.failures self.new.tally.failures }
    {
        if self.countdown.fails() {
            return Err(SinkFault::Failed);
        }
        if self.committed.reserve(1).is_err() {
            return Err(SinkFault::Memory);
        }
        let collector = Collector::new(self.alloc, header.length());
        self.taking = Some(MemFile { header, collector });
        Ok(())
    }

    fn add(&mut self, bytes: &[u8]) -> Result<(), SinkFault>
        requires some { 0 < list_length bytes.now }
        requires fit { list_length bytes.now ≤ room (kept_of self.old) }
        ensures done { OnOk result (self.new ≡ after_add bytes.now self.old) }
        ensures refused { OnErr result (self.new ≡ after_refusal self.old) }
        ensures fails { (result ≡ Err SinkFault.Failed) ↔ IsTrue (fails_next self.old.tally) }
        ensures failed { result ≡ Err SinkFault.Failed →
            Counted self.old.tally.failures self.new.tally.failures }
    {
        if self.countdown.fails() {
            return Err(SinkFault::Failed);
        }
        match &mut self.taking {
            Some(taking) => match taking.collector.add(bytes) {
                Ok(_) => Ok(()),
                Err(_) => Err(SinkFault::Memory),
            },
            None => unreachable!(),
        }
    }

    fn commit(&mut self) -> Result<(), SinkFault>
        requires { IsCoveredFile (kept_of self.old) }
        ensures done { OnOk result (self.new ≡ after_commit self.old) }
        ensures refused { OnErr result (self.new ≡ after_refusal self.old) }
        ensures memory { result ≢ Err SinkFault.Memory }
        ensures fails { (result ≡ Err SinkFault.Failed) ↔ IsTrue (fails_next self.old.tally) }
        ensures failed { result ≡ Err SinkFault.Failed →
            Counted self.old.tally.failures self.new.tally.failures }
    {
        if self.countdown.fails() {
            return Err(SinkFault::Failed);
        }
        match self.taking.take() {
            Some(MemFile { header, collector }) => match collector.into_bytes() {
                Ok(items) => self.committed.push_reserved(Received::new(header, items)),
                Err(_) => unreachable!(),
            },
            None => unreachable!(),
        }
        Ok(())
    }
}
