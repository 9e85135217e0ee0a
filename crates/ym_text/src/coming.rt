//! What is told of a file that comes.

use crate::moment::Moment;
use crate::rights::Rights;
use crate::shown::Shown;
use std::fmt;
use ym_header::{Header, Stamp};

/// What a header tells of its file. Its `Display` is the line that tells it, without its end: the
/// name, made safe for a terminal, the length, and the time and the rights as far as the sender
/// gave them. A time or a mode of 0 says that it is not known.
#[derive(Clone, Copy)]
pub struct Coming<'a>(pub &'a Header);

/// When a file was changed, in seconds since 1970, behind a comma; nothing where that is 0.
#[derive(Clone, Copy)]
struct Changed(u64);

impl fmt::Display for Changed {
    fn fmt<W: fmt::Write>(&self, f: &mut fmt::Formatter<W>) -> fmt::Result {
        match Moment::after_1970(self.0) {
            _ if self.0 == 0 => Ok(()),
            Some(moment) => write!(f, ", {moment}"),
            None => f.write_str(", after the year 9999"),
        }
    }
}

/// Who may do what with a file, behind a comma; nothing where its mode is 0.
#[derive(Clone, Copy)]
struct Allowed(u32);

impl fmt::Display for Allowed {
    fn fmt<W: fmt::Write>(&self, f: &mut fmt::Formatter<W>) -> fmt::Result {
        if self.0 == 0 {
            return Ok(());
        }
        let rights = Rights(self.0);
        write!(f, ", {rights}")
    }
}

/// When a file of this stamp was changed.
fn changed_of(stamp: Stamp) -> Changed {
    match stamp {
        Stamp::Nothing => Changed(0),
        Stamp::Time(time) | Stamp::TimeMode(time, _) => Changed(time),
    }
}

/// Who may do what with a file of this stamp.
fn allowed_of(stamp: Stamp) -> Allowed {
    match stamp {
        Stamp::TimeMode(_, mode) => Allowed(mode),
        _ => Allowed(0),
    }
}

impl fmt::Display for Coming<'_> {
    fn fmt<W: fmt::Write>(&self, f: &mut fmt::Formatter<W>) -> fmt::Result {
        let name = Shown(self.0.name());
        let length = self.0.length();
        let stamp = self.0.stamp();
        let changed = changed_of(stamp);
        let allowed = allowed_of(stamp);
        write!(f, "receiving {name}, {length} bytes{changed}{allowed}")
    }
}
