//! The header of a file.

ghost use Rattle.std.specs.Prelude.{
  ◌≡◌,
  ◌≢◌,
  All,
  ◌≤◌,
  ◌<◌,
  ◌^◌,
  ◌↔◌,
  ◌⊎◌,
  IsTrue,
  IfOk,
  IfErr,
  codes,
  length,
};
ghost use Rattle.ym_header.specs.Header.{IsName, IsSafe, IsHeader, IsRefused, IsStamp, length_limit};

use crate::fault::HeaderFault;
use crate::header_ref::HeaderRef;
use crate::stamp::Stamp;
use std::alloc::{AllocError, Global};
use std::marker::Model;

/// A file's name, its length in bytes, and its stamp.
///
/// The name has 1 to [`MOST_NAME_BYTES`](crate::MOST_NAME_BYTES) bytes, without control characters
/// and slashes, and is neither `.` nor `..`; the length is at most
/// [`MOST_LENGTH`](crate::MOST_LENGTH).
#[derive(Drop)]
pub struct Header {
    name: String,
    size: u64,
    stamp: Stamp,
}

impl Model for Header {
    ghost use Rattle.std.specs.Prelude.{string_bytes};
    ghost use Rattle.ym_header.specs.Header.{HeaderParts, IsHeader, length_limit};

    ghost Value = { HeaderParts };

    ghost view = { λ h. record { name = string_bytes h.name; length = h.size; stamp = h.stamp } };

    ghost invariant = { λ h. IsHeader length_limit
        (record { name = string_bytes h.name; length = h.size; stamp = h.stamp }) };
}

fn has_safe_bytes(name: &[u8]) -> bool
    ensures { IsTrue result ↔ All (λ b. (0x20 ≤ b) × (b ≢ 0x2f)) name.now }
{
    name.iter().all(|byte| *byte >= 0x20 && *byte != b'/')
}

/// Whether these are the bytes of `.` or `..`. A comparison of texts would bring its code for long
/// ones with it, which boards have no room for.
fn is_directory(name: &[u8]) -> bool
    ensures { IsTrue result ↔ (name.now ≡ codes ".") ⊎ (name.now ≡ codes "..") }
{
    matches!(name.len(), 1 | 2) && name.iter().all(|byte| *byte == b'.')
}

/// Whether a text of some length is safe as a file's name.
pub(crate) fn is_safe(name: &str) -> bool
    ensures { IsTrue result ↔ IsSafe name.now }
{
    let bytes = name.as_bytes();
    if is_directory(bytes) {
        return false;
    }
    has_safe_bytes(bytes)
}

impl Header {
    /// The header of a file, where the name and the length are within the limits; else the first
    /// fault, in the order of `HeaderFault`.
    pub fn new(alloc: Global, name: &str, length: u64, stamp: Stamp) -> Result<Header, HeaderFault>
        ensures ok { IfOk result (λ header.
            header ≡ record { name = name.now; length = length; stamp = stamp }) }
        ensures within { IfOk result (λ header. IsHeader length_limit header) }
        ensures refused { IfErr result (λ fault. IsRefused length_limit name.now length fault) }
    {
        Ok(HeaderRef::new(name, length, stamp)?.to_header(alloc)?)
    }

    /// The same header with the name where it stands in this one.
    pub fn borrowed(&self) -> HeaderRef<'_>
        ensures value { result ≡ self.now }
        ensures within { IsHeader length_limit result }
    {
        let Header { name, size, stamp } = self;
        HeaderRef::from_parts(name.as_str(), *size, *stamp)
    }

    /// The header of parts that are within the limits.
    pub(crate) fn from_parts(
        alloc: Global,
        name: &str,
        length: u64,
        stamp: Stamp,
    ) -> Result<Header, AllocError>
        requires name { IsName name.now }
        requires length { length ≤ length_limit }
        ensures parts { IfOk result (λ header.
            header ≡ record { name = name.now; length = length; stamp = stamp }) }
        ensures within { IfOk result (λ header. IsHeader length_limit header) }
    {
        let name = String::from_str(alloc, name)?;
        Ok(Header {
            name,
            size: length,
            stamp,
        })
    }

    /// The file's name.
    pub fn name(&self) -> &str
        ensures value { result.now ≡ self.now.name }
        ensures within { IsName result.now }
    {
        self.name.as_str()
    }

    /// The file's length in bytes.
    pub fn length(&self) -> u64
        ensures value { result ≡ self.now.length }
        ensures within { result ≤ length_limit }
    {
        self.size
    }

    /// When the file was last changed, and its mode, as far as they are told.
    pub fn stamp(&self) -> Stamp
        ensures value { result ≡ self.now.stamp }
        ensures within { IsStamp result }
    {
        self.stamp
    }
}
