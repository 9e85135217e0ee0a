//! The line of a file that `receive` prints.

ghost use Rattle.std.specs.Prelude.{◌≡◌, Some};
ghost use Rattle.ym_answer.specs.Lines.{octal_words, time_in, mode_in, file_words};

use std::fmt;
use ym_header::{Header, Stamp};

/// A number in octal, or `-` where it was not given.
#[derive(Clone, Copy)]
struct Octal(Option<u64>);

impl fmt::Display for Octal {
    ghost output = { λ number. Some (octal_words number.0) };

    fn fmt<W: fmt::Write>(&self, f: &mut fmt::Formatter<W>) -> fmt::Result {
        match self.0 {
            Some(number) => write!(f, "{number:o}"),
            None => f.write_str("-"),
        }
    }
}

/// The time of a stamp, where it has one.
fn time_in(stamp: Stamp) -> Option<u64>
    ensures { result ≡ time_in stamp }
{
    match stamp {
        Stamp::Nothing => None,
        Stamp::Time(time) | Stamp::TimeMode(time, _) => Some(time),
    }
}

/// The mode of a stamp, where it has one.
fn mode_in(stamp: Stamp) -> Option<u64>
    ensures { result ≡ mode_in stamp }
{
    match stamp {
        Stamp::Nothing | Stamp::Time(_) => None,
        Stamp::TimeMode(_, mode) => Some(u64::from(mode)),
    }
}

/// A file that was committed: `file NAME LENGTH TIME MODE`, time and mode in octal.
#[derive(Clone, Copy)]
pub struct FileLine<'a>(pub &'a Header);

impl fmt::Display for FileLine<'_> {
    ghost output = { λ line. Some (file_words line.0.now) };

    fn fmt<W: fmt::Write>(&self, f: &mut fmt::Formatter<W>) -> fmt::Result {
        let name = self.0.name();
        let length = self.0.length();
        let time = Octal(time_in(self.0.stamp()));
        let mode = Octal(mode_in(self.0.stamp()));
        write!(f, "file {name} {length} {time} {mode}")
    }
}
