//! What is told of a terminal that is the line.

use crate::reason::Reason;
use crate::shown::Shown;
use std::fmt;

/// That a terminal is the line, or why it is not. Its `Display` is the line that tells it, without
/// its end; paths in it are made safe for a terminal.
#[derive(Clone, Copy)]
pub enum TtyMessage<'a> {
    /// The terminal at this path is the line.
    Opened(&'a str),
    /// Nothing is at this path.
    Absent(&'a str),
    /// The rights to it are lacking.
    Denied(&'a str),
    /// Another program has it to itself.
    Busy(&'a str),
    /// It is no terminal.
    NoTerminal(&'a str),
    /// The system refused it for another reason.
    Failed(&'a str, Reason),
}

impl TtyMessage<'_> {
    /// The path that it tells of.
    fn path(&self) -> &str {
        match *self {
            TtyMessage::Opened(path)
            | TtyMessage::Absent(path)
            | TtyMessage::Denied(path)
            | TtyMessage::Busy(path)
            | TtyMessage::NoTerminal(path)
            | TtyMessage::Failed(path, _) => path,
        }
    }
}

/// That the terminal at this path is the line.
fn write_opened<W: fmt::Write>(f: &mut fmt::Formatter<W>, path: &str) -> fmt::Result {
    let shown = Shown(path);
    write!(f, "the line is '{shown}'")
}

/// Why the terminal at this path is not the line.
fn write_refused<W: fmt::Write, D: fmt::Display + Copy>(
    f: &mut fmt::Formatter<W>,
    path: &str,
    why: D,
) -> fmt::Result {
    let path = Shown(path);
    write!(f, "cannot open '{path}': {why}")
}

impl fmt::Display for TtyMessage<'_> {
    fn fmt<W: fmt::Write>(&self, f: &mut fmt::Formatter<W>) -> fmt::Result {
        let path = self.path();
        match *self {
            TtyMessage::Opened(_) => write_opened(f, path),
            TtyMessage::Absent(_) => write_refused(f, path, "no such device"),
            TtyMessage::Denied(_) => write_refused(
                f,
                path,
                "permission denied; members of the group dialout may open it",
            ),
            TtyMessage::Busy(_) => write_refused(f, path, "another program has it open"),
            TtyMessage::NoTerminal(_) => write_refused(f, path, "it is no terminal"),
            TtyMessage::Failed(_, why) => write_refused(f, path, why),
        }
    }
}
