//! Where the two ends parted.

ghost use Rattle.std.specs.Prelude.{Some};
ghost use Rattle.ym_inspect.specs.EndWords.{parting_words};

use std::fmt;
use ym_told::CaptureMoment;

/// Where the two ends parted, in a line of its own; nothing where they have not.
#[derive(Clone, Copy)]
pub(crate) struct Parting(pub(crate) Option<CaptureMoment>);

impl fmt::Display for Parting {
    ghost output = { λ parting. Some (parting_words parting.0) };

    fn fmt<W: fmt::Write>(&self, f: &mut fmt::Formatter<W>) -> fmt::Result {
        match self.0 {
            Some(at) => write!(f, "{at}here the two ends parted\n"),
            None => Ok(()),
        }
    }
}
