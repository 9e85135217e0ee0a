//! The bytes of a file that were read ahead of those that were asked for.

ghost use Rattle.std.specs.Prelude.{◌≡◌, ◌≤◌, ◌+◌, ◌-◌, ◌↔◌, [], true, IsTrue, OnOk, take, drop, length};
ghost use Rattle.ym_host.specs.ReadAhead.{StandsIn};

use crate::read_at::ReadAt;
use std::alloc::Global;
use std::io;
use std::marker::Model;

/// How many bytes are read at a time.
const AHEAD: u64 = 65536;

/// A file, and a part of it that was read: its bytes from a place on.
#[derive(Drop)]
pub(crate) struct ReadAhead<F: ReadAt + Drop> {
    file: F,
    bytes: Vec<u8>,
    start: u64,
}

impl<F: ReadAt + Drop> Model for ReadAhead<F> {
    ghost use Rattle.ym_host.specs.ReadAhead.{ReadAheadParts, StandsIn};

    ghost Value = { ReadAheadParts };

    ghost view = { λ r. record { told = F.bytes r.file; bytes = r.bytes.items; start = r.start } };

    ghost invariant = { λ r. StandsIn r.bytes.items r.start (F.bytes r.file) };
}

impl<F: ReadAt + Drop> ReadAhead<F> {
    /// Holds nothing of this file yet, and has room for what is read of it at a time, where it has
    /// this length. Where there is no memory for that it has no room.
    pub(crate) fn new(alloc: Global, file: F, size: u64) -> ReadAhead<F>
        ensures told { result.told ≡ F.bytes file }
        ensures bytes { result.bytes ≡ [] }
    {
        let bytes = match Vec::with_capacity(alloc, size.min(AHEAD) as usize) {
            Ok(bytes) => bytes,
            Err(_) => Vec::new(alloc),
        };
        ReadAhead {
            file,
            bytes,
            start: 0,
        }
    }

    /// Reads the bytes from place `at` on of a file of this length: from those that were read
    /// ahead, after more were where some are missing there.
    pub(crate) fn read(&mut self, size: u64, at: u64, into: &mut [u8]) -> io::Result<()>
        requires { at + length into.old ≤ size }
        ensures told { self.new.told ≡ self.old.told }
        ensures bytes { OnOk result (StandsIn into.new at self.old.told) }
    {
        if self.copy(at, into) {
            return Ok(());
        }
        self.refill(at, size)?;
        if self.copy(at, into) {
            return Ok(());
        }
        // More than was read ahead, or no memory to read ahead.
        self.file.read_at(at, into)
    }

    /// Copies the bytes from place `at` of the file on, and answers true, where it holds all of
    /// them. Otherwise it copies none.
    #[inline]
    pub(crate) fn copy(&self, at: u64, into: &mut [u8]) -> bool
        ensures holds { IsTrue result ↔
            ((self.now.start ≤ at)
            × (at + length into.old ≤ self.now.start + length self.now.bytes)) }
        ensures bytes { result ≡ true → StandsIn into.new at self.now.told }
    {
        if at < self.start {
            return false;
        }
        let skipped = at - self.start;
        let held = self.bytes.len() as u64;
        if skipped > held || into.len() as u64 > held - skipped {
            return false;
        }
        let from = skipped as usize;
        into.copy_from_slice(&self.bytes[from..from + into.len()]);
        true
    }

    /// Reads the bytes from place `at` on of a file of this length, as many as it has room for, in
    /// place of those that it held. Where the file cannot be read it holds none.
    fn refill(&mut self, at: u64, size: u64) -> io::Result<()>
        requires { at ≤ size }
        ensures told { self.new.told ≡ self.old.told }
        ensures start { OnOk result (self.new.start ≡ at) }
    {
        let count = (size - at).min(self.bytes.capacity() as u64) as usize;
        // What it held is not cleared: to write 64 KiB of 0 before each read costs as much as the
        // check of a block.
        self.bytes.resize(count, 0)?;
        self.start = at;
        if let Err(error) = self.file.read_at(at, self.bytes.as_mut_slice()) {
            self.bytes.clear();
            return Err(error);
        }
        Ok(())
    }
}
