//! A file that a sink in memory has committed.

ghost use Rattle.std.specs.Prelude.{◌≡◌};

use std::marker::Model;
use ym_header::{Header, Stamp};

/// A file that was received: its header and its bytes.
#[derive(Drop)]
pub struct Received {
    header: Header,
    items: Vec<u8>,
}

impl Model for Received {
    ghost use Rattle.ym_file.specs.Received.{ReceivedParts};

    ghost Value = { ReceivedParts };

    ghost view = { λ f. record { header = f.header; bytes = f.items.items } };
}

impl Received {
    /// The file of this header and these bytes.
    pub(crate) fn new(header: Header, items: Vec<u8>) -> Self
        ensures { result ≡ record { header = header; bytes = items.items } }
    {
        Received { header, items }
    }

    /// The name, as the header gave it.
    pub fn name(&self) -> &str
        ensures { result.now ≡ self.now.header.name }
    {
        self.header.name()
    }

    /// The length that the header gave, in bytes.
    pub fn length(&self) -> u64
        ensures { result ≡ self.now.header.length }
    {
        self.header.length()
    }

    /// The time and the mode, as the header gave them.
    pub fn stamp(&self) -> Stamp
        ensures { result ≡ self.now.header.stamp }
    {
        self.header.stamp()
    }

    /// The bytes of the file.
    pub fn bytes(&self) -> &[u8]
        ensures { result.now ≡ self.now.bytes }
    {
        self.items.as_slice()
    }
}
