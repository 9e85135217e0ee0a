//! What is told of a record of what passes on a line.

use std::fmt;
use ym_text::{Reason, Shown};

/// Why no record is made, or not to the end, and who tells what it says. Its `Display` is the line
/// that tells it, without its end; paths in it are made safe for a terminal.
#[derive(Clone, Copy)]
pub(crate) enum RecordMessage<'a> {
    /// `-` names no file.
    Dash,
    /// At this path is one of the files that are sent.
    IsSent(&'a str),
    /// This path ends as the name of a part of a file does.
    IsPart(&'a str),
    /// At this path is a file that stays.
    IsThere(&'a str),
    /// Another program holds the file at this path.
    InUse(&'a str),
    /// The system refuses the file at this path.
    CannotOpen(&'a str, Reason),
    /// The file at this path has a front of the record alone.
    Ended(&'a str, Reason),
    /// The file at this path is to be explained.
    Explain(&'a str),
}

impl fmt::Display for RecordMessage<'_> {
    fn fmt<W: fmt::Write>(&self, f: &mut fmt::Formatter<W>) -> fmt::Result {
        match *self {
            RecordMessage::Dash => write!(
                f,
                "cannot record in '-', which names no file: name one behind --record"
            ),
            RecordMessage::IsSent(path) => {
                let path = Shown(path);
                write!(
                    f,
                    "cannot record in '{path}', which is to be sent: name another file"
                )
            }
            RecordMessage::IsPart(path) => {
                let path = Shown(path);
                write!(
                    f,
                    "cannot record in '{path}', which is named as a part of a file: name another \
                     file"
                )
            }
            RecordMessage::IsThere(path) => {
                let path = Shown(path);
                write!(
                    f,
                    "cannot record in '{path}', which is there already: this connection has \
                     no record"
                )
            }
            RecordMessage::InUse(path) => {
                let path = Shown(path);
                write!(
                    f,
                    "cannot record in '{path}', which another program writes: name another file"
                )
            }
            RecordMessage::CannotOpen(path, why) => {
                let path = Shown(path);
                write!(
                    f,
                    "cannot record in '{path}': {why}; name a file that can be written"
                )
            }
            RecordMessage::Ended(path, why) => {
                let path = Shown(path);
                write!(f, "the record '{path}' ends early: {why}")
            }
            RecordMessage::Explain(path) => {
                let path = Shown(path);
                write!(f, "to see what passed: ymodem explain '{path}'")
            }
        }
    }
}
