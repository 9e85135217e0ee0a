ghost use Rattle.std.specs.Prelude.{None};

use super::calls::{ends, session_of};
use super::fixtures::with_file;
use std::alloc::Global;
use std::io;
use std::io::{ErrorKind, Read, Write};
use std::test::Fail;
use ym_line::Direct;
use ym_play::session_over;
use ym_streams::{Input, Output, StreamFault};

const ONE_FILE: &str = "1 > - whole < C whole\n\
    2 > block 0 128 whole < ACK C whole\n\
    3 > block 1 128 whole < ACK whole\n\
    4 > eot whole < NAK whole\n\
    5 > eot whole < ACK C whole\n\
    6 > block 0 128 whole < ACK whole\n\
    sender done 1 finished\n\
    receiver files 1 finished\n";

/// Gives its bytes in pieces of at most `most` bytes, and fails once `reads` reads were made.
#[derive(Drop)]
struct Pieces<'a> {
    rest: &'a [u8],
    most: usize,
    reads: u32,
    kind: ErrorKind,
}

impl Read for Pieces<'_> {
    fn read(&mut self, buf: &mut [u8]) -> io::Result<usize> {
        if self.reads == 0 {
            return Err(io::Error::from(self.kind));
        }
        self.reads -= 1;
        let count = self.rest.len().min(buf.len()).min(self.most);
        let (piece, rest) = self.rest.split_at(count);
        buf[..count].copy_from_slice(piece);
        self.rest = rest;
        Ok(count)
    }
}

/// Gives line ends without end, and counts its reads and bytes.
#[derive(Drop)]
struct Endless {
    bytes: u64,
}

impl Read for Endless {
    fn read(&mut self, buf: &mut [u8]) -> io::Result<usize> {
        for byte in buf.iter_mut() {
            *byte = b'\n';
        }
        self.bytes = self.bytes.saturating_add(buf.len() as u64);
        Ok(buf.len())
    }
}

/// Fails at each read, and counts them.
#[derive(Drop)]
struct Broken {
    failed: u64,
}

impl Input for Broken {
    ghost remaining = { λ _. None };

    ghost failures = { λ b. b.failed };

    fn read_some(&mut self, _buf: &mut [u8]) -> Result<usize, StreamFault> {
        self.failed = self.failed.saturating_add(1);
        Err(StreamFault)
    }
}

/// Keeps at most `most` bytes of each write, and fails once `writes` writes were made.
#[derive(Drop)]
struct Short {
    kept: Vec<u8>,
    most: usize,
    writes: u32,
}

impl Write for Short {
    fn write(&mut self, buf: &[u8]) -> io::Result<usize> {
        if self.writes == 0 {
            return Err(io::Error::from(ErrorKind::BrokenPipe));
        }
        self.writes -= 1;
        let count = buf.len().min(self.most);
        self.kept.extend_from_slice(&buf[..count])?;
        Ok(count)
    }

    fn flush(&mut self) -> io::Result<()> {
        Ok(())
    }
}

/// A writer that knows how much of what was written has been handed on.
#[derive(Drop)]
struct Pending {
    written: Vec<u8>,
    handed_on: usize,
}

impl Write for Pending {
    fn write(&mut self, buf: &[u8]) -> io::Result<usize> {
        self.written.extend_from_slice(buf)?;
        Ok(buf.len())
    }

    fn flush(&mut self) -> io::Result<()> {
        self.handed_on = self.written.len();
        Ok(())
    }
}

/// Whether all that these bytes, this text and this line come to is handed on, each at once.
fn is_handed_on(out: &mut Pending) -> bool {
    out.put(b"bytes").is_ok()
        && out.handed_on == 5
        && out.put_text("text").is_ok()
        && out.handed_on == 9
        && out.put_line("line").is_ok()
        && out.handed_on == 14
        && out.written.as_slice() == b"bytestextline\n".as_slice()
}

#[test]
fn what_is_put_is_handed_on(rt: HostRuntime) {
    let mut out = Pending {
        written: Vec::new(rt.alloc()),
        handed_on: 0,
    };
    assert!(rt; is_handed_on(&mut out));
}

/// Whether a script that is read and printed one byte at a time comes to the whole text.
fn prints_all(alloc: Global, script: &[u8]) -> bool {
    let mut input = Pieces {
        rest: script,
        most: 1,
        reads: 1000,
        kind: ErrorKind::Other,
    };
    let mut out = Short {
        kept: Vec::new(alloc),
        most: 1,
        writes: 1000,
    };
    let mut err = Vec::new(alloc);
    session_of(alloc, &mut input, &mut out, &mut err) == 0
        && out.kept.as_slice() == ONE_FILE.as_bytes()
        && err.is_empty()
}

#[test]
fn one_byte_at_a_time(rt: HostRuntime) -> Result<(), Fail> {
    let script = with_file(rt.alloc(), "a.txt", "ok 6\n")?;
    assert!(rt; prints_all(rt.alloc(), script.as_bytes()));
    Ok(())
}

/// Whether a session ends where a read fails so, behind so many reads of 50 bytes.
fn ends_at_read(alloc: Global, script: &[u8], reads: u32, kind: ErrorKind) -> bool {
    let mut input = Pieces {
        rest: script,
        most: 50,
        reads,
        kind,
    };
    ends(alloc, &mut input, 3, "", "fault: device\n")
}

/// Whether a session ends where a read fails so, at first or in the middle.
fn ends_at_reads(alloc: Global, script: &[u8], kind: ErrorKind) -> bool {
    ends_at_read(alloc, script, 0, kind)
        && ends_at_read(alloc, script, 1, kind)
        && ends_at_read(alloc, script, 3, kind)
}

/// A read fails, at first or in the middle, and is not tried again.
#[test]
fn a_read_fails(rt: HostRuntime) -> Result<(), Fail> {
    let script = with_file(rt.alloc(), "a.txt", "ok 6\n")?;
    assert!(rt; ends_at_reads(rt.alloc(), script.as_bytes(), ErrorKind::Other));
    assert!(rt; ends_at_reads(rt.alloc(), script.as_bytes(), ErrorKind::Interrupted));
    Ok(())
}

/// Whether a session over this input ends in a failed device, and prints nothing.
fn has_failed<I: Input>(alloc: Global, input: &mut I) -> bool {
    let mut out = Vec::new(alloc);
    let mut err = Vec::new(alloc);
    let status = session_in(alloc, input, &mut out, &mut err);
    status == 3 && out.is_empty() && err.as_slice() == b"fault: device\n".as_slice()
}

/// The status of a session over what counts its failures.
fn session_in<I: Input, O: Output, E: Output>(
    alloc: Global,
    input: &mut I,
    out: &mut O,
    err: &mut E,
) -> u8 {
    session_over(alloc, input, out, err, &mut Direct::new(alloc))
}

/// Of an input that counts its failures too.
#[test]
fn a_counted_read_fails(rt: HostRuntime) {
    let mut input = Broken { failed: 0 };
    assert!(rt; has_failed(rt.alloc(), &mut input) && input.failed == 1);
}

/// Whether a session over this input ends since the script is too large.
fn is_too_large(alloc: Global, input: &mut Endless) -> bool {
    ends(alloc, input, 2, "", "script: too large\n")
}

#[test]
fn a_reader_never_ends(rt: HostRuntime) {
    let mut input = Endless { bytes: 0 };
    assert!(rt; is_too_large(rt.alloc(), &mut input) && input.bytes == 1_048_577);
}

/// Whether a session ends in a failed device, whose write fails behind so many of 20 bytes.
fn ends_at_write(alloc: Global, script: &[u8], writes: u32) -> bool {
    let mut input = script;
    let mut out = Short {
        kept: Vec::new(alloc),
        most: 20,
        writes,
    };
    let mut err = Vec::new(alloc);
    session_of(alloc, &mut input, &mut out, &mut err) == 3
        && err.as_slice() == b"fault: device\n".as_slice()
}

/// The first write of the text fails, or its second.
#[test]
fn a_write_fails(rt: HostRuntime) -> Result<(), Fail> {
    let script = with_file(rt.alloc(), "a.txt", "ok 6\n")?;
    assert!(rt; ends_at_write(rt.alloc(), script.as_bytes(), 0));
    assert!(rt; ends_at_write(rt.alloc(), script.as_bytes(), 1));
    Ok(())
}

/// Whether a session whose fault line cannot be written ends in a failed device.
fn ends_unsaid(alloc: Global) -> bool {
    let mut input = b"foo".as_slice();
    let mut out = Vec::new(alloc);
    let mut err = Short {
        kept: Vec::new(alloc),
        most: 100,
        writes: 0,
    };
    session_of(alloc, &mut input, &mut out, &mut err) == 3 && out.is_empty()
}

/// Where the line that tells a fault cannot be written, the status is that of a failed device.
#[test]
fn the_fault_line_fails(rt: HostRuntime) {
    assert!(rt; ends_unsaid(rt.alloc()));
}
