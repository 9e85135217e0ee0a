//! The program's standard input and output, of which somebody who looks is told why they failed.

use std::cell::Cell;
use std::io::{ErrorKind, Read, Write};
use std::{fmt, io};
use ym_text::Reason;

/// Why a stream failed. Its `Display` is the line that tells it, without its end.
#[derive(Clone, Copy)]
enum StreamMessage {
    /// Nothing was read.
    Unread(Reason),
    /// Nothing was written, or not all.
    Unwritten(Reason),
}

impl fmt::Display for StreamMessage {
    fn fmt<W: fmt::Write>(&self, f: &mut fmt::Formatter<W>) -> fmt::Result {
        match *self {
            StreamMessage::Unread(why) => write!(f, "cannot read standard input: {why}"),
            StreamMessage::Unwritten(why) => write!(f, "cannot write to standard output: {why}"),
        }
    }
}

/// Tells why a stream failed.
#[derive(Drop)]
pub(crate) struct Faults<'a, E: Write + Drop> {
    /// It is told to this writer.
    pub(crate) err: E,
    /// Whether somebody looks.
    pub(crate) is_looked_at: &'a Cell<bool>,
}

impl<E: Write + Drop> Faults<'_, E> {
    /// Tells it. What cannot be written is lost.
    fn tell(&mut self, message: StreamMessage) {
        if self.is_looked_at.get() {
            let _ = writeln!(self.err, "{message}").and_then(|()| self.err.flush());
        }
    }
}

/// Standard input.
#[derive(Drop)]
pub(crate) struct ToldInput<'a, R: Read + Drop, E: Write + Drop> {
    pub(crate) input: R,
    pub(crate) faults: Faults<'a, E>,
}

impl<R: Read + Drop, E: Write + Drop> Read for ToldInput<'_, R, E> {
    fn read(&mut self, buf: &mut [u8]) -> io::Result<usize> {
        let given = self.input.read(buf);
        if let Err(error) = &given {
            self.faults.tell(StreamMessage::Unread(Reason::of(error)));
        }
        given
    }
}

/// Standard output.
#[derive(Drop)]
pub(crate) struct ToldOutput<'a, W: Write + Drop, E: Write + Drop> {
    pub(crate) out: W,
    pub(crate) faults: Faults<'a, E>,
}

impl<W: Write + Drop, E: Write + Drop> Write for ToldOutput<'_, W, E> {
    fn write(&mut self, buf: &[u8]) -> io::Result<usize> {
        let taken = self.out.write(buf);
        match &taken {
            // A write that a signal interrupted is made again.
            Err(error) if error.kind() != ErrorKind::Interrupted => {
                let why = Reason::of(error);
                self.faults.tell(StreamMessage::Unwritten(why));
            }
            _ => (),
        }
        taken
    }

    fn flush(&mut self) -> io::Result<()> {
        self.out.flush()
    }
}
