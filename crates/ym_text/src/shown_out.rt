//! A terminal, as somebody who writes text to it has it.

use crate::shown::{ShownLines, is_plain};
use std::alloc::Global;
use std::io;
use std::io::Write;

/// A writer that shows text: what is written to a terminal goes there with escapes for all that
/// could change what is shown of its neighbours, but for ends of lines.
#[derive(Drop)]
pub struct ShownOut<W: Write + Drop> {
    alloc: Global,
    to: W,
    is_terminal: bool,
}

impl<W: Write + Drop> ShownOut<W> {
    /// One that shows text there, where that is a terminal.
    pub fn new(alloc: Global, to: W, is_terminal: bool) -> ShownOut<W> {
        ShownOut {
            alloc,
            to,
            is_terminal,
        }
    }
}

impl<W: Write + Drop> Write for ShownOut<W> {
    fn write(&mut self, buf: &[u8]) -> io::Result<usize> {
        if !self.is_terminal {
            return self.to.write(buf);
        }
        let Ok(text) = str::from_utf8(buf) else {
            return self.to.write(buf);
        };
        // What needs no escapes needs no memory: want of memory can be told.
        if is_plain(text) {
            return self.to.write(buf);
        }
        let lines = ShownLines(text);
        let shown = format!(in self.alloc; "{lines}")?;
        self.to.write_all(shown.as_bytes())?;
        Ok(buf.len())
    }

    fn flush(&mut self) -> io::Result<()> {
        self.to.flush()
    }
}
