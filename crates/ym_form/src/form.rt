//! What a block 0 or an end block is beside the fields that are read from it.

ghost use Rattle.std.specs.Prelude.{◌≡◌, ◌⊎◌, Option, Some, ◌==◌, length, position};
ghost use Rattle.std.specs.List.{list_all};
ghost use Rattle.ym_core.specs.Hearing.{heard_of};
ghost use Rattle.ym_form.specs.Forms.{IsForm, IsFormIn, is_bare, is_typed, name_is};
ghost use Rattle.ym_header.specs.Split.{is_zero};
ghost use Rattle.ym_header.specs.Text.{text};

use std::fmt;
use ym_core::{HeardRef, heard_in};
use ym_frame::ItemRef;
use ym_header::{HeaderRef, Stamp, ZeroRef, read_borrowed, write_body};

/// What a block 0 or an end block is beside the fields that are read from it.
#[derive(Clone, Copy, PartialEq, Eq)]
pub enum BlockForm {
    /// It is what is written of its fields.
    Fields,
    /// Its length is not that of the file.
    OtherLength,
    /// Its mode has the bits of the file's type.
    TypedMode,
    /// It has other bytes.
    More,
    /// Its fields cannot be read.
    Unread,
}

/// Whether a mode tells more than permissions.
fn is_typed(stamp: Stamp) -> bool
    ensures { result ≡ is_typed stamp }
{
    match stamp {
        Stamp::TimeMode(_, mode) => mode > 0o7777,
        Stamp::Nothing | Stamp::Time(_) => false,
    }
}

/// Whether a body is what is written of this header, in a block of the body's size.
fn is_bare(body: &[u8], header: &HeaderRef<'_>) -> bool
    requires { (length body.now ≡ 128) ⊎ (length body.now ≡ 1024) }
    ensures { result ≡ is_bare body.now (text header.entry.now) }
{
    let mut wanted = [0; 1024];
    write_body(header, &mut wanted);
    body == &wanted[..body.len()]
}

/// Whether each byte is 00.
fn is_blank(body: &[u8]) -> bool
    ensures { result ≡ list_all is_zero body.now }
{
    body.iter().all(|byte| *byte == 0)
}

/// The form of a body that stands for a file of so many bytes, or for the end.
fn form_of(body: &[u8], size: u64) -> BlockForm
    requires { (length body.now ≡ 128) ⊎ (length body.now ≡ 1024) }
    ensures { IsForm size body.now result }
{
    match read_borrowed(body) {
        Err(_) => BlockForm::Unread,
        Ok(ZeroRef::End) if is_blank(body) => BlockForm::Fields,
        Ok(ZeroRef::End) => BlockForm::More,
        Ok(ZeroRef::File(header)) if header.length() != size => BlockForm::OtherLength,
        Ok(ZeroRef::File(header)) if is_typed(header.stamp()) => BlockForm::TypedMode,
        Ok(ZeroRef::File(header)) if is_bare(body, &header) => BlockForm::Fields,
        Ok(ZeroRef::File(_)) => BlockForm::More,
    }
}

/// The form of the block with which a delivery begins, where the file has so many bytes. What
/// begins with no block has no fields.
pub fn form_in(bytes: &[u8], size: u64) -> BlockForm
    ensures { IsFormIn size (heard_of bytes.now) result }
{
    match heard_in(bytes) {
        HeardRef::Item(ItemRef::Block(block)) => form_of(block.body(), size),
        _ => BlockForm::Unread,
    }
}

/// Where the name ends, if it does.
fn name_end(body: &[u8]) -> Option<usize>
    ensures { result ≡ position is_zero body.now }
{
    body.iter().position(|byte| *byte == 0)
}

/// Whether a delivery begins with a block whose name has so many bytes.
pub fn has_name_of(bytes: &[u8], count: usize) -> bool
    ensures { result ≡ name_is count (heard_of bytes.now) }
{
    match heard_in(bytes) {
        HeardRef::Item(ItemRef::Block(block)) => name_end(block.body()) == Some(count),
        _ => false,
    }
}

impl BlockForm {
    ghost use Rattle.ym_form.specs.Forms.{form_text};

    /// What it is, in words.
    fn text(self) -> &'static str
        ensures { result.now ≡ form_text self }
    {
        match self {
            BlockForm::Fields => "its fields alone",
            BlockForm::OtherLength => "another length",
            BlockForm::TypedMode => "the file's type in the mode",
            BlockForm::More => "other bytes behind its fields",
            BlockForm::Unread => "fields that cannot be read",
        }
    }
}

impl fmt::Display for BlockForm {
    ghost use Rattle.std.specs.Prelude.{Some};
    ghost use Rattle.ym_form.specs.Forms.{form_text};

    ghost output = { λ form. Some (form_text form) };

    fn fmt<W: fmt::Write>(&self, f: &mut fmt::Formatter<W>) -> fmt::Result {
        f.write_str(self.text())
    }
}
