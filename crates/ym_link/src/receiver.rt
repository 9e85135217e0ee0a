//! The receiver, into any sink.

ghost use Rattle.std.specs.Prelude.{◌≡◌, ◌↔◌, IsTrue, Ok, Err, Some, length, map, option_map};
ghost use Rattle.ym_file.specs.Kept.{Kept, Told, IsNew};
ghost use Rattle.ym_file.specs.Received.{ReceivedParts};
ghost use Rattle.ym_link.specs.Calls.{CallGives, MayAsk};

use std::alloc::{AllocError, Global};
use std::marker::Model;
use ym_core::{Ask, Confirm, Heard, HeardRef, ReceiverCore, RecvState, Step};
use ym_file::{MemSink, Received, Sink, SinkFault};
use ym_frame::Reply;

/// A receiver that hands the files of a batch to a sink.
#[derive(Drop)]
pub struct ReceiverInto<K: Sink> {
    sink: K,
    alloc: Global,
    core: ReceiverCore,
}

/// A receiver that keeps the files in memory.
pub type Receiver = ReceiverInto<MemSink>;

impl<K: Sink> Model for ReceiverInto<K> {
    ghost use Rattle.ym_link.specs.ReceiverInto.{ReceiverParts, IsReceiver};

    ghost Value = { ReceiverParts };

    ghost view = { λ r.
        record { receiver = r.core; kept = K.kept r.sink; failures = K.failures r.sink } };

    ghost invariant = { λ r.
        IsReceiver (record {
          receiver = r.core;
          kept = K.kept r.sink;
          failures = K.failures r.sink;
        }) };
}

/// Has the sink do what a step asks. After a fault it holds what it held before.
fn call<K: Sink>(sink: &mut K, alloc: Global, ask: Ask<'_>) -> Result<(), SinkFault>
    requires { MayAsk (K.kept sink.old) ask }
    ensures { CallGives ask.entry (K.kept sink.old) (K.failures sink.old) result (K.kept sink.new)
        (K.failures sink.new) }
{
    match ask {
        Ask::Nothing => Ok(()),
        Ask::Begin(header) => match header.to_header(alloc) {
            Ok(header) => sink.begin(header),
            Err(AllocError) => Err(SinkFault::Memory),
        },
        Ask::Add(bytes) => sink.add(bytes),
        Ask::Commit => sink.commit(),
    }
}

impl<K: Sink + Drop> ReceiverInto<K> {
    /// The sink, with the files that were committed and, where one was open, the open one.
    pub fn into_sink(self) -> K
        ensures kept { K.kept result ≡ self.kept }
        ensures failures { K.failures result ≡ self.failures }
    {
        let ReceiverInto { sink, .. } = self;
        sink
    }
}

impl<K: Sink> ReceiverInto<K> {
    ghost use Rattle.ym_core.specs.Receiver.{new_receiver};
    ghost use Rattle.ym_core.specs.HeardRef.{owned_heard};
    ghost use Rattle.ym_core.specs.Step.{IsNext};
    ghost use Rattle.ym_link.specs.ReceiverInto.{IsReceiver, HearsGives, IsWithin};

    /// A receiver into a sink that has no file.
    pub fn with_sink(alloc: Global, sink: K, confirm: Confirm) -> ReceiverInto<K>
        requires { IsNew (K.kept sink) }
        ensures { result ≡
            record {
              receiver = new_receiver confirm;
              kept = K.kept sink;
              failures = K.failures sink;
            } }
    {
        ReceiverInto {
            sink,
            alloc,
            core: ReceiverCore::new(confirm),
        }
    }

    /// How many files were committed.
    pub fn committed(&self) -> usize
        ensures value { result ≡ self.now.receiver.files }
        ensures headers { result ≡ length self.now.kept.headers }
    {
        self.core.files()
    }

    /// How it has ended, or that it still runs.
    #[inline(always)]
    pub fn state(&self) -> RecvState
        ensures { result ≡ self.now.receiver.state }
    {
        self.core.state()
    }

    /// Whether it still runs.
    #[inline(always)]
    pub(crate) fn is_running(&self) -> bool
        ensures running { IsTrue result ↔ (self.now.receiver.state ≡ RecvState.Running) }
        ensures receiver { IsReceiver self.now }
    {
        // what always holds of a receiver is known once a field was read
        let _ = &self.core;
        self.state() == RecvState::Running
    }

    /// The sink.
    pub fn sink(&self) -> &K
        ensures kept { K.kept result.now ≡ self.now.kept }
        ensures failures { K.failures result.now ≡ self.now.failures }
    {
        &self.sink
    }

    /// Hears one delivery and gives the reply to it. After want of memory nothing has changed, and
    /// the same delivery may be heard again.
    pub fn hear(&mut self, heard: &Heard) -> Result<Reply, AllocError>
        ensures table { HearsGives self.old heard.now result self.new }
        ensures bounded { IsWithin self.new.receiver.stage self.new.kept }
        ensures receiver { IsReceiver self.new }
    {
        self.hear_in(HeardRef::of(heard))
    }

    /// The same, with a block's body where it stands.
    #[inline(always)]
    pub(crate) fn hear_in(&mut self, heard: HeardRef<'_>) -> Result<Reply, AllocError>
        ensures table { HearsGives self.old (owned_heard heard.entry) result self.new }
        ensures bounded { IsWithin self.new.receiver.stage self.new.kept }
        ensures receiver { IsReceiver self.new }
    {
        let answer = self.answer(heard);
        // what always holds of a receiver is known once a field was read
        let _ = &self.core;
        answer
    }

    /// Takes the step of the core, once the sink has done what it asks.
    #[inline(always)]
    fn answer(&mut self, heard: HeardRef<'_>) -> Result<Reply, AllocError>
        ensures { HearsGives self.old (owned_heard heard.entry) result self.new }
    {
        match self.core.next_bytes(&heard) {
            Some(bytes) => self.add(&heard, bytes),
            None => self.take_step(heard),
        }
    }

    /// The same of the next block of the open file, of which these bytes are missing.
    // this is the common way: the core takes its step in place
    #[inline(always)]
    fn add(&mut self, heard: &HeardRef<'_>, bytes: &[u8]) -> Result<Reply, AllocError>
        requires { IsNext self.old.receiver (owned_heard heard.now) bytes.now }
        ensures { HearsGives self.old (owned_heard heard.now) result self.new }
    {
        match self.sink.add(bytes) {
            Ok(()) => {
                self.core.took(bytes.len());
                Ok(Reply::Ack)
            }
            Err(SinkFault::Failed) => {
                self.core.fail();
                Ok(Reply::Cancel)
            }
            Err(SinkFault::Memory) => return Err(AllocError),
        }
    }

    /// The same of any delivery.
    #[cold]
    #[inline(never)]
    fn take_step(&mut self, heard: HeardRef<'_>) -> Result<Reply, AllocError>
        ensures { HearsGives self.old (owned_heard heard.entry) result self.new }
    {
        let Step { core, reply, ask } = self.core.hear(&heard);
        match call(&mut self.sink, self.alloc, ask) {
            Ok(()) => {
                self.core = core;
                Ok(reply)
            }
            Err(SinkFault::Failed) => {
                self.core = self.core.failed();
                Ok(Reply::Cancel)
            }
            Err(SinkFault::Memory) => Err(AllocError),
        }
    }
}

impl ReceiverInto<MemSink> {
    ghost use Rattle.ym_link.specs.ReceiverInto.{new_in_memory};

    /// A receiver that commits a file at its second EOT.
    pub fn new(alloc: Global) -> Receiver
        ensures { result ≡ new_in_memory Confirm.Twice }
    {
        ReceiverInto::with_sink(alloc, MemSink::new(alloc, None), Confirm::Twice)
    }

    /// A receiver that commits a file at its first EOT.
    pub fn single(alloc: Global) -> Receiver
        ensures { result ≡ new_in_memory Confirm.Once }
    {
        ReceiverInto::with_sink(alloc, MemSink::new(alloc, None), Confirm::Once)
    }

    /// The committed files, in order.
    pub fn files(&self) -> &[Received]
        ensures headers { map (λ (f : ReceivedParts). f.header) result.now ≡ self.now.kept.headers }
        ensures bytes { Some (map (λ (f : ReceivedParts). f.bytes) result.now) ≡
            option_map (λ (told : Told). told.files) self.now.kept.told }
    {
        self.sink.files()
    }
}
