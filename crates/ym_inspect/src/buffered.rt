//! The bytes of one way that are not told yet.

ghost use Rattle.std.specs.Prelude.{◌≡◌, ◌≤◌, ◌++◌, [], drop, IfOk, OnOk, OnErr};

use std::alloc::{AllocError, Global};
use std::marker::Model;

/// Bytes of one way that are not told yet. Contracts see them as their list.
#[derive(Drop)]
pub(crate) struct Buffered {
    alloc: Global,
    bytes: Vec<u8>,
    start: usize,
}

impl Model for Buffered {
    ghost use Rattle.std.specs.Prelude.{List, ℕ, drop, ◌≤◌, vec_len};

    ghost Value = { List ℕ };

    ghost view = { λ h. drop h.start h.bytes.items };

    ghost invariant = { λ h. h.start ≤ vec_len h.bytes };
}

/// These bytes, and behind them the others.
fn joined(alloc: Global, front: &[u8], behind: &[u8]) -> Result<Vec<u8>, AllocError>
    ensures { IfOk result (λ bytes. bytes.items ≡ front.now ++ behind.now) }
{
    let mut bytes = Vec::from_slice(alloc, front)?;
    bytes.extend_from_slice(behind)?;
    Ok(bytes)
}

impl Buffered {
    /// None.
    pub(crate) fn new(alloc: Global) -> Buffered
        ensures { result ≡ [] }
    {
        Buffered {
            alloc,
            bytes: Vec::new(alloc),
            start: 0,
        }
    }

    /// All of them, in order.
    pub(crate) fn as_slice(&self) -> &[u8]
        ensures { result.now ≡ self.now }
    {
        &self.bytes[self.start..]
    }

    /// Holds these behind the others.
    pub(crate) fn add(&mut self, piece: &[u8]) -> Result<(), AllocError>
        ensures ok { OnOk result (self.new ≡ self.old ++ piece.now) }
        ensures err { OnErr result (self.new ≡ self.old) }
    {
        self.bytes = joined(self.alloc, &self.bytes[self.start..], piece)?;
        self.start = 0;
        Ok(())
    }

    /// Lets go of so many at the front, or of all.
    pub(crate) fn let_go(&mut self, count: usize)
        ensures { self.new ≡ drop count self.old }
    {
        self.start += count.min(self.bytes.len() - self.start);
    }
}
