//! A source that opens a file and reads it.

ghost use Rattle.std.specs.Prelude.{◌≡◌, ◌≤◌, ◌+◌, ℕ, List, Option, Some, true, OnOk, OnErr, IfOk, IfSome, length as list_length};
ghost use Rattle.ym_file.specs.Counts.{Counted};
ghost use Rattle.ym_host.specs.ReadAhead.{StandsIn};
ghost use Rattle.ym_host.specs.ReadSource.{first_of, IsTold};

use crate::read_ahead::ReadAhead;
use crate::read_at::ReadAt;
use std::alloc::Global;
use std::io;
use std::marker::Model;
use ym_file::{Source, SourceFault};

/// A file that can be opened to be read, as often as it is asked.
pub trait Opens {
    /// The file when it is open.
    type File: ReadAt + Drop;

    /// How many bytes it has.
    ghost size: { Self → ℕ };

    /// Its bytes, where they are known.
    ghost bytes: { Self → Option (List ℕ) };

    /// How many bytes it has. This never changes.
    fn size(&self) -> u64
        ensures size { result ≡ size self.now }
        ensures told { IfSome (bytes self.now) (λ all. list_length all ≡ result) };

    /// Opens it.
    fn open(&self) -> io::Result<Self::File>
        ensures { IfOk result (λ file. Self.File.bytes file ≡ bytes self.now) };
}

/// A file that is read one block at a time. It is open only from its first block to its last, and
/// read 64 KiB at a time.
#[derive(Drop)]
pub struct ReadSource<O: Opens + Drop> {
    alloc: Global,
    opens: O,
    reading: Option<ReadAhead<O::File>>,
    failed: u64,
    fills: u64,
    /// Why it failed for the first time.
    first: Option<io::Error>,
}

impl<O: Opens + Drop> Model for ReadSource<O> {
    ghost use Rattle.std.specs.Prelude.{◌≡◌, IfSome};
    ghost use Rattle.ym_host.specs.ReadSource.{ReadSourceParts, IsTold};

    ghost Value = { ReadSourceParts };

    ghost view = { λ s. record {
      size = O.size s.opens;
      told = O.bytes s.opens;
      failures = s.failed;
      fills = s.fills;
      first = s.first;
    } };

    ghost invariant = { λ s. IfSome s.reading (λ r. r.told ≡ O.bytes s.opens)
        × IsTold s.failed s.first };
}

impl<O: Opens + Drop> ReadSource<O> {
    /// A source of this file, which is opened at its first block.
    pub fn over(alloc: Global, opens: O) -> ReadSource<O>
        ensures size { result.size ≡ O.size opens }
        ensures told { result.told ≡ O.bytes opens }
        ensures failures { result.failures ≡ 0 }
    {
        ReadSource {
            alloc,
            opens,
            reading: None,
            failed: 0,
            fills: 0,
            first: None,
        }
    }

    /// Why it failed for the first time, where it failed.
    pub fn first_fault(&self) -> Option<io::Error>
        ensures first { result ≡ self.now.first }
        ensures told { IsTold self.now.failures result }
    {
        self.first
    }

    /// Counts a failure, and keeps why the first time.
    fn fail(&mut self, error: io::Error) -> SourceFault
        ensures counted { Counted self.old.failures self.new.failures }
        ensures first { self.new.first ≡ Some (first_of error self.old.first) }
        ensures size { self.new.size ≡ self.old.size }
        ensures told { self.new.told ≡ self.old.told }
        ensures fills { self.new.fills ≡ self.old.fills }
    {
        self.first = Some(self.first.unwrap_or(error));
        self.failed = self.failed.saturating_add(1);
        SourceFault
    }

    /// Reads the bytes from place `at` on, opening the file where it is not open, and closes it
    /// behind its last byte.
    fn read(&mut self, at: u64, into: &mut [u8]) -> io::Result<()>
        requires { at + list_length into.old ≤ self.old.size }
        ensures same { self.new ≡ self.old }
        ensures bytes { OnOk result (StandsIn into.new at self.old.told) }
    {
        let size = self.opens.size();
        let mut reading = match self.reading.take() {
            Some(reading) => reading,
            None => ReadAhead::new(self.alloc, self.opens.open()?, size),
        };
        reading.read(size, at, into)?;
        if at + (into.len() as u64) < size {
            self.reading = Some(reading);
        }
        Ok(())
    }

    /// Copies the bytes from place `at` on from those that were read ahead, and answers true, where
    /// all of them are there and more of the file follows. Otherwise it copies none.
    #[inline(always)]
    fn copy_ahead(&self, at: u64, into: &mut [u8]) -> bool
        requires { at + list_length into.old ≤ self.now.size }
        ensures { result ≡ true → StandsIn into.new at self.now.told }
    {
        let size = self.opens.size();
        let is_last = at + (into.len() as u64) == size;
        match &self.reading {
            Some(reading) => !is_last && reading.copy(at, into),
            None => false,
        }
    }

    /// Reads the bytes from place `at` on, and counts it where that fails.
    #[inline(never)] // it answers an error of the system, which is large, and is seldom called
    fn read_counted(&mut self, at: u64, into: &mut [u8]) -> Result<(), SourceFault>
        requires { at + list_length into.old ≤ self.old.size }
        ensures size { self.new.size ≡ self.old.size }
        ensures told { self.new.told ≡ self.old.told }
        ensures fills { self.new.fills ≡ self.old.fills }
        ensures bytes { OnOk result (StandsIn into.new at self.old.told) }
        ensures ok { OnOk result (self.new.failures ≡ self.old.failures) }
        ensures failed { OnErr result (Counted self.old.failures self.new.failures) }
    {
        match self.read(at, into) {
            Ok(()) => Ok(()),
            Err(error) => Err(self.fail(error)),
        }
    }
}

impl<O: Opens + Drop> Source for ReadSource<O> {
    ghost size = { λ s. s.size };

    ghost bytes = { λ s. s.told };

    ghost failures = { λ s. s.failures };

    ghost fills = { λ s. s.fills };

    fn length(&self) -> u64 {
        self.opens.size()
    }

    #[inline(always)]
    fn fill(&mut self, at: u64, into: &mut [u8]) -> Result<(), SourceFault> {
        self.fills = self.fills.saturating_add(1);
        if self.copy_ahead(at, into) {
            return Ok(());
        }
        self.read_counted(at, into)
    }
}
