//! What is told early of bytes that are no YMODEM.

use std::fmt;

/// Other bytes come than those of the other end. Its `Display` is the line that tells it, without
/// its end.
#[derive(Clone, Copy)]
pub(crate) struct Rubbish;

impl fmt::Display for Rubbish {
    fn fmt<W: fmt::Write>(&self, f: &mut fmt::Formatter<W>) -> fmt::Result {
        f.write_str("what comes is no YMODEM so far: is the other end started, at the same speed?")
    }
}
