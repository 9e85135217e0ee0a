//! A header whose name is borrowed: what a block 0 tells, and what one is written from, without
//! memory.

use crate::fault::HeaderFault;
use crate::header::{Header, is_safe};
use crate::limits::{MOST_LENGTH, MOST_NAME_BYTES};
use crate::stamp::Stamp;
use std::alloc::{AllocError, Global};
use std::marker::Model;

/// A file's name, its length in bytes, and its stamp, the name standing where it was found or
/// given. The limits are those of `Header`.
#[derive(Drop)]
pub struct HeaderRef<'a> {
    name: &'a str,
    size: u64,
    stamp: Stamp,
}

impl<'a> Model for HeaderRef<'a> {
    ghost use Rattle.ym_header.specs.Header.{HeaderParts, IsHeader, length_limit};

    ghost Value = { HeaderParts };

    ghost view = { λ h. record { name = h.name.now; length = h.size; stamp = h.stamp } };

    ghost invariant = { λ h. IsHeader length_limit
        (record { name = h.name.now; length = h.size; stamp = h.stamp }) };
}

impl<'a> HeaderRef<'a> {
    ghost use Rattle.std.specs.Prelude.{◌≡◌, ◌≤◌, IfOk, IfErr};
    ghost use Rattle.ym_header.specs.Header.{IsName, IsHeader, IsUnfit, IsStamp, length_limit};

    /// The header of a file, where the name and the length are within the limits; else the first
    /// fault, in the order of `HeaderFault`, and never `Memory`.
    pub fn new(name: &'a str, length: u64, stamp: Stamp) -> Result<HeaderRef<'a>, HeaderFault>
        ensures ok { IfOk result (λ header.
            header ≡ record { name = name.entry.now; length = length; stamp = stamp }) }
        ensures within { IfOk result (λ header. IsHeader length_limit header) }
        ensures refused { IfErr result (λ fault. IsUnfit length_limit name.entry.now length fault) }
    {
        if name.is_empty() {
            return Err(HeaderFault::NameEmpty);
        }
        if name.len() > MOST_NAME_BYTES {
            return Err(HeaderFault::NameLong);
        }
        if !is_safe(name) {
            return Err(HeaderFault::NameUnsafe);
        }
        if length > MOST_LENGTH {
            return Err(HeaderFault::LengthLarge);
        }
        Ok(HeaderRef {
            name,
            size: length,
            stamp,
        })
    }

    /// The header of parts that are within the limits.
    pub(crate) fn from_parts(name: &'a str, length: u64, stamp: Stamp) -> HeaderRef<'a>
        requires name { IsName name.now }
        requires length { length ≤ length_limit }
        ensures parts { result ≡ record { name = name.entry.now; length = length; stamp = stamp } }
        ensures within { IsHeader length_limit result }
    {
        HeaderRef {
            name,
            size: length,
            stamp,
        }
    }

    /// The header with a copy of the name.
    pub fn to_header(&self, alloc: Global) -> Result<Header, AllocError>
        ensures ok { IfOk result (λ header. header ≡ self.now) }
        ensures within { IsHeader length_limit self.now }
    {
        Header::from_parts(alloc, self.name, self.size, self.stamp)
    }

    /// The file's name.
    pub fn name(&self) -> &'a str
        ensures value { result.now ≡ self.now.name }
        ensures within { IsName result.now }
    {
        self.name
    }

    /// The file's length in bytes.
    pub fn length(&self) -> u64
        ensures value { result ≡ self.now.length }
        ensures within { result ≤ length_limit }
    {
        self.size
    }

    /// When the file was last changed, and its mode, as far as they are told.
    pub fn stamp(&self) -> Stamp
        ensures value { result ≡ self.now.stamp }
        ensures within { IsStamp result }
    {
        self.stamp
    }
}
