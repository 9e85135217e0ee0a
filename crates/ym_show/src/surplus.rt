//! What is told of data behind the length of a file.

use std::fmt;
use ym_text::Shown;

/// More came of the file of this name than so many bytes, which its sender stated. Its `Display` is
/// the line that tells it, without its end.
#[derive(Clone, Copy)]
pub(crate) struct Surplus<'a> {
    pub(crate) name: &'a str,
    pub(crate) length: u64,
}

impl fmt::Display for Surplus<'_> {
    fn fmt<W: fmt::Write>(&self, f: &mut fmt::Formatter<W>) -> fmt::Result {
        let name = Shown(self.name);
        let length = self.length;
        write!(
            f,
            "more came of '{name}' than the length that its sender stated, {length}, and was \
            dropped; send a file that does not grow, and no pipe"
        )
    }
}
