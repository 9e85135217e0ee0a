//! What a session reads from and writes to.

ghost use Rattle.std.specs.Prelude.{◌≡◌, ◌≤◌, ◌^◌, ◌-◌, ℕ, List, Option, OnOk, OnErr, IfOk, IfSome, length};
ghost use Rattle.std.specs.Io.KnownBytes.{ReadConsumes, Appends};
ghost use Rattle.std.specs.Fmt.{with_newline};
ghost use Rattle.ym_file.specs.Counts.{Counted};

use std::fmt::Display;
use std::io::{Read, Write};

/// A read or a write failed. The count of the stream's failures rose.
#[derive(Clone, Copy, Debug, PartialEq, Eq)]
pub struct StreamFault;

/// Where the bytes of a script come from.
pub trait Input {
    /// The bytes that reads will give from here on, where they are known.
    ghost remaining: { Self → Option (List ℕ) };

    /// How often a read failed: a number of 64 bits that stays at its greatest value.
    ghost failures: { Self → ℕ };

    /// Reads some bytes to the front of `buf`, and answers how many: none only at the end, or where
    /// the buffer has no room.
    fn read_some(&mut self, buf: &mut [u8]) -> Result<usize, StreamFault>
        ensures count { IfOk result (λ n. n ≤ length buf.new) }
        ensures bytes { ReadConsumes (remaining self.old) (remaining self.new) result buf.new }
        ensures ok { OnOk result (failures self.new ≡ failures self.old) }
        ensures failed { OnErr result (Counted (failures self.old) (failures self.new)) };
}

/// Where the text of a command goes, or the line of its fault.
pub trait Output {
    /// The bytes that it holds, where they are known.
    ghost contents: { Self → Option (List ℕ) };

    /// How often a write failed: a number of 64 bits that stays at its greatest value.
    ghost failures: { Self → ℕ };

    /// Writes all the bytes and hands them on, or fails; some of them may then have been written.
    fn put(&mut self, bytes: &[u8]) -> Result<(), StreamFault>
        ensures bytes { OnOk result (Appends (contents self.old) (contents self.new) bytes.now) }
        ensures ok { OnOk result (failures self.new ≡ failures self.old) }
        ensures failed { OnErr result (Counted (failures self.old) (failures self.new)) };

    /// The same of a text. It takes no memory.
    fn put_text<D: Display + Drop>(&mut self, text: D) -> Result<(), StreamFault>
        ensures bytes { OnOk result
            (IfSome (D.output text) (Appends (contents self.old) (contents self.new))) }
        ensures ok { OnOk result (failures self.new ≡ failures self.old) }
        ensures failed { OnErr result (Counted (failures self.old) (failures self.new)) };

    /// The same of a text and the end of its line.
    fn put_line<D: Display + Drop>(&mut self, text: D) -> Result<(), StreamFault>
        ensures bytes { OnOk result (IfSome (with_newline (D.output text))
            (Appends (contents self.old) (contents self.new))) }
        ensures ok { OnOk result (failures self.new ≡ failures self.old) }
        ensures failed { OnErr result (Counted (failures self.old) (failures self.new)) };
}

/// A reader of the standard library does not say how often it failed: its count is taken to stand
/// at the greatest value.
impl<R: Read> Input for R {
    ghost remaining = { λ r. R.remaining r };

    ghost failures = { λ _. 2 ^ 64 - 1 };

    fn read_some(&mut self, buf: &mut [u8]) -> Result<usize, StreamFault> {
        match self.read(buf) {
            Ok(count) => Ok(count),
            Err(_) => Err(StreamFault),
        }
    }
}

/// So it is with a writer.
impl<W: Write> Output for W {
    ghost contents = { λ w. W.contents w };

    ghost failures = { λ _. 2 ^ 64 - 1 };

    fn put(&mut self, bytes: &[u8]) -> Result<(), StreamFault> {
        match self.write_all(bytes) {
            Ok(()) => {}
            Err(_) => return Err(StreamFault),
        }
        match self.flush() {
            Ok(()) => Ok(()),
            Err(_) => Err(StreamFault),
        }
    }

    fn put_text<D: Display + Drop>(&mut self, text: D) -> Result<(), StreamFault> {
        match self.write_fmt(text) {
            Ok(()) => {}
            Err(_) => return Err(StreamFault),
        }
        match self.flush() {
            Ok(()) => Ok(()),
            Err(_) => Err(StreamFault),
        }
    }

    fn put_line<D: Display + Drop>(&mut self, text: D) -> Result<(), StreamFault> {
        match self.writeln(text) {
            Ok(()) => {}
            Err(_) => return Err(StreamFault),
        }
        match self.flush() {
            Ok(()) => Ok(()),
            Err(_) => Err(StreamFault),
        }
    }
}
