//! A line that does once more what it did.
//!
//! What it did stands in order, apart by spaces, each with the moment in milliseconds at which it
//! was over: `MS:quiet` and `MS:closed`, reads that brought nothing, `MS:BYTES`, what one read
//! brought, and `MS:wrote`, a write.

ghost use Rattle.std.specs.Prelude.{◌≡◌, ◌<◌, ◌≤◌, ℕ, Ok, Some, OnOk, OnErr, length};
ghost use Rattle.ym_file.specs.Counts.{Counted};

use crate::Unread;
use std::alloc::Global;
use std::marker::Model;
use ym_link::{Got, PortFault};
use ym_port::Wire;

/// What a call of a line came to.
#[derive(Drop)]
enum Did {
    /// A read brought nothing.
    Quiet,
    /// The line was closed.
    Closed,
    /// A read brought these bytes.
    Brought(Vec<u8>),
    /// It was written to.
    Wrote,
}

/// What a line did, and when that was over.
#[derive(Drop)]
struct Deed {
    at: u64,
    did: Did,
}

/// A line that does once more what it did, and keeps what is written. Its clock tells when what it
/// did last was over. A call that is not the next one of the record fails.
#[derive(Drop)]
pub struct Recorded {
    deeds: Vec<Deed>,
    done: usize,
    now: u64,
    written: Vec<u8>,
    failed: u64,
}

impl Model for Recorded {
    ghost use Rattle.std.specs.Prelude.{ℕ};

    ghost Value = { ℕ };

    ghost view = { λ r. r.failed };
}

/// Bytes that digits spell.
pub fn bytes_of(alloc: Global, digits: &str) -> Result<Vec<u8>, Unread> {
    match digits {
        "-" => Ok(Vec::new(alloc)),
        _ => hex::decode(alloc, digits).ok().ok_or(Unread),
    }
}

/// What a word says that a call came to.
fn did_of(alloc: Global, what: &str) -> Result<Did, Unread> {
    match what {
        "quiet" => Ok(Did::Quiet),
        "closed" => Ok(Did::Closed),
        "wrote" => Ok(Did::Wrote),
        _ => Ok(Did::Brought(bytes_of(alloc, what)?)),
    }
}

/// What a word of the record says.
fn deed_of(alloc: Global, word: &str) -> Result<Deed, Unread> {
    let (at, what) = word.split_once(':').ok_or(Unread)?;
    let at = at.parse::<u64>().ok().ok_or(Unread)?;
    let did = did_of(alloc, what)?;
    Ok(Deed { at, did })
}

/// What the words of a record say.
fn deeds_of(alloc: Global, did: &str) -> Result<Vec<Deed>, Unread> {
    let mut deeds = Vec::new(alloc);
    for word in did.split_whitespace() {
        deeds.push(deed_of(alloc, word)?)?;
    }
    Ok(deeds)
}

/// Gives a read these bytes, unless it has no room for them or they are none.
fn give(bytes: &[u8], buf: &mut [u8]) -> Option<Got>
    ensures { (n : ℕ) → result ≡ Some (Got.Bytes n) → (0 < n) × (n ≤ length buf.old) }
{
    if bytes.is_empty() {
        return None;
    }
    buf.get_mut(..bytes.len())?.copy_from_slice(bytes);
    Some(Got::Bytes(bytes.len()))
}

/// What a read brings of a call that came to this; nothing where it was none.
fn got_of(did: &Did, buf: &mut [u8]) -> Option<Got>
    ensures { (n : ℕ) → result ≡ Some (Got.Bytes n) → (0 < n) × (n ≤ length buf.old) }
{
    match did {
        Did::Wrote => None,
        Did::Quiet => Some(Got::Quiet),
        Did::Closed => Some(Got::Closed),
        Did::Brought(bytes) => give(bytes.as_slice(), buf),
    }
}

impl Recorded {
    /// The line that did this.
    pub fn new(alloc: Global, did: &str) -> Result<Recorded, Unread> {
        Ok(Recorded {
            deeds: deeds_of(alloc, did)?,
            done: 0,
            now: 0,
            written: Vec::new(alloc),
            failed: 0,
        })
    }

    /// What was written to it.
    pub fn written(&self) -> &[u8] {
        self.written.as_slice()
    }

    /// How many of its calls failed.
    pub fn failed(&self) -> u64 {
        self.failed
    }

    /// How much of the record is left.
    pub fn left(&self) -> usize {
        self.deeds.len().saturating_sub(self.done)
    }

    /// What the next read brings, and when; nothing where the next call was none.
    fn next(&self, buf: &mut [u8]) -> Option<(u64, Got)>
        ensures { (n at : ℕ) → result ≡ Some (at, Got.Bytes n) → (0 < n) × (n ≤ length buf.old) }
    {
        let deed = self.deeds.get(self.done)?;
        let got = got_of(&deed.did, buf)?;
        Some((deed.at, got))
    }

    /// When the next call was over, if it was a write.
    fn next_write(&self) -> Option<u64> {
        match self.deeds.get(self.done) {
            Some(
                Deed {
                    at,
                    did: Did::Wrote,
                },
            ) => Some(*at),
            _ => None,
        }
    }

    /// Goes on to the next call, at this moment.
    fn pass(&mut self, at: u64)
        ensures { self.new ≡ self.old }
    {
        self.now = at;
        self.done = self.done.saturating_add(1);
    }

    /// What the next read brings; nothing where the next call was none.
    fn take(&mut self, buf: &mut [u8]) -> Option<Got>
        ensures same { self.new ≡ self.old }
        ensures count { (n : ℕ) → result ≡ Some (Got.Bytes n) → (0 < n) × (n ≤ length buf.old) }
    {
        let (at, got) = self.next(buf)?;
        self.pass(at);
        Some(got)
    }

    /// Keeps what is written, and says whether the next call was a write.
    fn keep(&mut self, bytes: &[u8]) -> bool
        ensures { self.new ≡ self.old }
    {
        match self.next_write() {
            Some(at) => self.pass(at),
            None => return false,
        }
        self.written.extend_from_slice(bytes).is_ok()
    }

    /// Counts a failure.
    fn fail(&mut self) -> PortFault
        ensures { Counted self.old self.new }
    {
        self.failed = self.failed.saturating_add(1);
        PortFault
    }
}

impl Wire for Recorded {
    ghost tells = { λ _ _. ⊥ };

    ghost failures = { λ r. r };

    fn moment(&mut self) -> u64 {
        self.now
    }

    fn read(&mut self, _millis: u64, buf: &mut [u8]) -> Result<Got, PortFault> {
        match self.take(buf) {
            Some(got) => Ok(got),
            None => Err(self.fail()),
        }
    }

    fn write(&mut self, bytes: &[u8]) -> Result<(), PortFault> {
        if self.keep(bytes) {
            Ok(())
        } else {
            Err(self.fail())
        }
    }
}
