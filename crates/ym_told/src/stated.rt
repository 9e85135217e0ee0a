//! What a block 0 announces of its file.

ghost use Rattle.std.specs.Prelude.{◌≡◌, take};
ghost use Rattle.ym_frame.specs.Frame.{verdict_of};
ghost use Rattle.ym_told.specs.TellPrefix.{used_by};
ghost use Rattle.ym_told.specs.Announcing.{stated_by, announced_words, after_name, fills, is_crammed as crams, is_digit as digit_byte, IsAnnounced, IsFileIn, names_file};

use crate::prefix::BufferedPrefix;
use crate::runs::prefix_of;
use std::fmt;
use ym_explain::{FrameKind, SentLine};
use ym_frame::{ItemRef, verdict};
use ym_header::{HeaderFault, HeaderRef, ZeroRef, read_borrowed};

/// What a block 0 states of its file's length.
#[derive(Clone, Copy)]
pub enum Stated {
    /// So many bytes.
    Length(u64),
    /// The name leaves no room for the length, or not for all of it.
    NoRoom,
    /// Nothing that can be read.
    Nothing,
}

/// What the front of the sender's bytes announces.
#[derive(Drop)]
pub enum Announced<'a> {
    /// The file of this header; and whether its length fills block 0 to the end.
    File(HeaderRef<'a>, bool),
    /// A file, in a block 0 that cannot be read; and whether its name leaves no room for a length.
    Unread(HeaderFault, bool),
    /// No file.
    Nothing,
}

impl Announced<'_> {
    /// What it states of the length.
    pub fn stated(&self) -> Stated
        ensures { result ≡ stated_by self.now }
    {
        match self {
            Announced::File(header, is_full) => {
                if *is_full {
                    Stated::NoRoom
                } else {
                    Stated::Length(header.length())
                }
            }
            // Who states no length though there is room for one need not: it is no fault.
            Announced::Unread(HeaderFault::NoLength, is_crammed) => {
                if *is_crammed {
                    Stated::NoRoom
                } else {
                    Stated::Nothing
                }
            }
            Announced::Unread(
                HeaderFault::NameEmpty
                | HeaderFault::NameLong
                | HeaderFault::NameUnsafe
                | HeaderFault::LengthLarge
                | HeaderFault::Memory,
                _,
            )
            | Announced::Nothing => Stated::Nothing,
        }
    }
}

impl fmt::Display for Announced<'_> {
    ghost use Rattle.std.specs.Prelude.{Some};

    ghost output = { λ announced. Some (announced_words announced) };

    fn fmt<W: fmt::Write>(&self, f: &mut fmt::Formatter<W>) -> fmt::Result {
        let text = match self {
            Announced::File(header, _) => {
                let name = header.name();
                let length = header.length();
                return write!(f, "  file {name}, {length} bytes\n");
            }
            Announced::Unread(HeaderFault::NoLength, _) => {
                "  a file with no length behind its name\n"
            }
            Announced::Unread(HeaderFault::LengthLarge, _) => {
                "  a file with a length that is too large\n"
            }
            Announced::Unread(
                HeaderFault::NameEmpty
                | HeaderFault::NameLong
                | HeaderFault::NameUnsafe
                | HeaderFault::Memory,
                _,
            ) => "  a file with a name that no file may have\n",
            Announced::Nothing => "",
        };
        f.write_str(text)
    }
}

/// Whether digits, and nothing else, stand between the 00 behind the name and the end of the body:
/// the length may have been cut there.
fn is_full(body: &[u8]) -> bool
    ensures { result ≡ fills (after_name body.now) }
{
    behind_zero(body).iter().all(|byte| is_digit(*byte))
}

/// Whether so little stands behind the name and its 00 that no length has room there. A digit and
/// its 00 would fit, but into the last two of 128 bytes `sb` writes a count of blocks.
fn is_crammed(body: &[u8]) -> bool
    ensures { result ≡ crams (after_name body.now) }
{
    behind_zero(body).len() <= 2
}

/// Whether a byte is a decimal digit.
fn is_digit(byte: u8) -> bool
    ensures { result ≡ digit_byte byte }
{
    matches!(byte, b'0'..=b'9')
}

/// The bytes behind the first 00.
fn behind_zero(body: &[u8]) -> &[u8]
    ensures { result.now ≡ after_name body.entry.now }
{
    for (position, byte) in body.iter().enumerate() {
        if *byte == 0 {
            return &body[position + 1..];
        }
    }
    &body[body.len()..]
}

/// A front of a way, with its bytes, and the file that it announces.
#[derive(Drop)]
pub struct Stretch<'a> {
    /// The front.
    pub prefix: BufferedPrefix,
    /// Its bytes.
    pub bytes: &'a [u8],
    /// What it announces.
    pub file: Announced<'a>,
}

impl<'a> Stretch<'a> {
    /// This front of these bytes.
    pub fn of(prefix: BufferedPrefix, buffered: &'a [u8]) -> Stretch<'a>
        ensures prefix { result.prefix ≡ prefix }
        ensures bytes { result.bytes.now ≡ take (used_by prefix) buffered.entry.now }
        ensures file { IsAnnounced prefix result.bytes.now result.file }
    {
        let bytes = prefix_of(buffered, prefix.used());
        let file = if is_name(prefix) {
            file_in(bytes)
        } else {
            Announced::Nothing
        };
        Stretch {
            prefix,
            bytes,
            file,
        }
    }
}

/// The file that the block 0 at the front of these bytes announces.
fn file_in(bytes: &[u8]) -> Announced<'_>
    ensures { IsFileIn (verdict_of bytes.entry.now) result }
{
    let Ok((ItemRef::Block(block), _)) = verdict(bytes) else {
        return Announced::Nothing;
    };
    match read_borrowed(block.body()) {
        Ok(ZeroRef::File(header)) => Announced::File(header, is_full(block.body())),
        Ok(ZeroRef::End) => Announced::Nothing,
        Err(fault) => Announced::Unread(fault, is_crammed(block.body())),
    }
}

/// Whether the front is the block 0 of a file.
fn is_name(prefix: BufferedPrefix) -> bool
    ensures { result ≡ names_file prefix }
{
    match prefix {
        BufferedPrefix::Sent(told) => match told.line {
            SentLine::Frame { kind, .. } => kind == FrameKind::Name,
            SentLine::Damage { .. } | SentLine::Junk => false,
        },
        BufferedPrefix::Run(_)
        | BufferedPrefix::Zmodem
        | BufferedPrefix::Cut(_)
        | BufferedPrefix::Answer(_) => false,
    }
}
