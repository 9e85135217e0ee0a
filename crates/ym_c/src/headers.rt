//! Block 0: its body, read and written.

ghost use Rattle.std.specs.Prelude.{◌≡◌, ◌≢◌, ◌<◌, ◌≤◌, ◌⊎◌, ◌↔◌, length as list_length, take, drop, IfOk, IfErr, Result, Ok, Err};
ghost use Rattle.ym_header.specs.Header.{IsUnfit, length_limit};
ghost use Rattle.ym_header.specs.HeaderReading.{IsBorrowedAnswer};
ghost use Rattle.ym_header.specs.Text.{text};
ghost use Rattle.ym_header.specs.declared.fault.HeaderFault.{HeaderFault as Fault};
ghost use Rattle.ym_header.specs.declared.reading.ZeroRef.{ZeroRef as Zero};
ghost use Rattle.ym_header.specs.declared.reading.ZeroRef.TheVariants as zero;
ghost use Rattle.ym_c.specs.Fronts.{stamp_of};
ghost use Rattle.ym_c.specs.Headers.{IsTold, IsRefusal};

use crate::codes::code_of_fault;
use ym_header::{
    HeaderFault, HeaderRef, MOST_NAME_BYTES, Stamp, ZeroRef, read_borrowed, write_body,
};

/// What the body of a block 0 stands for.
#[repr(C)]
pub struct YmHeader {
    /// At 1: the length in bytes of the file.
    pub length: u64,
    /// At 1: the time, where `stamp` is 1 or 2.
    pub time: u64,
    /// 0: nothing; 1: a file begins, and its name stands at the front of the body; 2: the batch
    /// ends.
    pub kind: u32,
    /// At 0: the number of the fault; 0 where the body has neither 128 nor 1024 bytes.
    pub fault: u32,
    /// At 1: how many bytes the name has.
    pub name_len: u32,
    /// At 1: 0: no stamp; 1: a time; 2: a time and a mode.
    pub stamp: u32,
    /// At 1: the mode, where `stamp` is 2.
    pub mode: u32,
}

/// Tells a header.
fn tell_file(file: &HeaderRef<'_>, header: &mut YmHeader)
    ensures { IsTold (Ok (zero.File file.entry.now)) header.new }
{
    header.kind = 1;
    header.length = file.length();
    header.name_len = file.name().len() as u32;
    match file.stamp() {
        Stamp::Nothing => header.stamp = 0,
        Stamp::Time(time) => {
            header.stamp = 1;
            header.time = time;
        }
        Stamp::TimeMode(time, mode) => {
            header.stamp = 2;
            header.time = time;
            header.mode = mode;
        }
    }
}

/// Tells what the body of a block 0, of 128 or 1024 bytes, stands for.
#[unsafe(no_mangle)]
pub extern "C" fn ym_header_read(body: &[u8], header: &mut YmHeader)
    ensures told { (list_length body.now ≡ 128) ⊎ (list_length body.now ≡ 1024) →
        (read : Result Zero Fault) × IsBorrowedAnswer length_limit body.now read
        × IsTold read header.new }
    ensures other { list_length body.now ≢ 128 → list_length body.now ≢ 1024 →
        (header.new.kind ≡ 0) × (header.new.fault ≡ 0) }
{
    header.length = 0;
    header.time = 0;
    header.kind = 0;
    header.fault = 0;
    header.name_len = 0;
    header.stamp = 0;
    header.mode = 0;
    if body.len() != 128 && body.len() != 1024 {
        return;
    }
    match read_borrowed(body) {
        Ok(ZeroRef::File(file)) => tell_file(&file, header),
        Ok(ZeroRef::End) => header.kind = 2,
        Err(fault) => header.fault = code_of_fault(fault),
    }
}

/// The stamp of these numbers.
pub fn stamp_from(kind: u32, time: u64, mode: u32) -> Stamp
    ensures { result ≡ stamp_of kind time mode }
{
    match kind {
        0 => Stamp::Nothing,
        1 => Stamp::Time(time),
        _ => Stamp::TimeMode(time, mode),
    }
}

/// The header of these parts, or its first fault.
pub fn header_of(name: &[u8], length: u64, stamp: Stamp) -> Result<HeaderRef<'_>, HeaderFault>
    ensures ok { IfOk result (λ header.
        header ≡ record { name = name.entry.now; length = length; stamp = stamp }) }
    ensures refused { IfErr result (λ fault. IsUnfit length_limit name.entry.now length fault) }
{
    if name.is_empty() {
        return Err(HeaderFault::NameEmpty);
    }
    if name.len() > MOST_NAME_BYTES {
        return Err(HeaderFault::NameLong);
    }
    match str::from_utf8(name) {
        Ok(text) => HeaderRef::new(text, length, stamp),
        Err(_) => Err(HeaderFault::NameUnsafe),
    }
}

/// Writes the body of a file's block 0 to the front of `body`, which has room for 1024 bytes:
/// stamp 0 none, 1 the time, 2 the time and the mode. Answers how many bytes it has, 128 or 1024;
/// or the number of the header's fault, 1 to 5; or 0 where there is less room.
#[unsafe(no_mangle)]
pub extern "C" fn ym_header_write(
    name: &[u8],
    length: u64,
    stamp: u32,
    time: u64,
    mode: u32,
    body: &mut [u8],
) -> u32
    ensures written { 5 < result →
        take result body.new
        ≡ text (record { name = name.now; length = length; stamp = stamp_of stamp time mode }) }
    ensures refused { 0 < result → result ≤ 5 → IsRefusal name.now length result }
    ensures behind { 5 < result → drop result body.new ≡ drop result body.old }
    ensures same { result ≤ 5 → body.new ≡ body.old }
    ensures room { result ≡ 0 ↔ list_length body.old < 1024 }
    ensures within { result ≤ 1024 }
{
    if body.len() < 1024 {
        return 0;
    }
    match header_of(name, length, stamp_from(stamp, time, mode)) {
        Ok(header) => write_body(&header, body) as u32,
        Err(fault) => code_of_fault(fault),
    }
}
