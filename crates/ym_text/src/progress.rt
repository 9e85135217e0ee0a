//! How far a file is, in words.

ghost use Rattle.std.specs.Prelude.{◌≡◌, Some};
ghost use Rattle.ym_text.specs.Progress.{rate_of, rate_text, repeats_text, left_text, percent_of, left_of, progress_text, took_text};

use crate::shown::Shown;
use std::fmt;

/// How far a file is.
#[derive(Clone, Copy)]
pub struct Progress {
    /// Bytes that the other end has.
    pub done: u64,
    /// Bytes of the file.
    pub length: u64,
    /// Bytes a second, of late, where that is known yet.
    pub rate: Option<u64>,
    /// Blocks that were repeated.
    pub repeats: u64,
}

/// So many bytes a second, where that is known.
#[derive(Clone, Copy)]
struct Rate(Option<u64>);

impl fmt::Display for Rate {
    ghost output = { λ rate. Some (rate_text rate.0) };

    fn fmt<W: fmt::Write>(&self, f: &mut fmt::Formatter<W>) -> fmt::Result {
        let Some(rate) = self.0 else {
            return Ok(());
        };
        if rate < 10_000 {
            return write!(f, ", {rate} B/s");
        }
        let thousands = rate / 1000;
        write!(f, ", {thousands} kB/s")
    }
}

/// So many blocks were repeated, where any were.
#[derive(Clone, Copy)]
struct Repeats(u64);

impl fmt::Display for Repeats {
    ghost output = { λ repeats. Some (repeats_text repeats.0) };

    fn fmt<W: fmt::Write>(&self, f: &mut fmt::Formatter<W>) -> fmt::Result {
        let count = self.0;
        if count == 0 {
            return Ok(());
        }
        write!(f, ", {count} repeated")
    }
}

/// So many seconds are left, where that can be told.
#[derive(Clone, Copy)]
struct Left(Option<u64>);

impl fmt::Display for Left {
    ghost output = { λ left. Some (left_text left.0) };

    fn fmt<W: fmt::Write>(&self, f: &mut fmt::Formatter<W>) -> fmt::Result {
        let Some(left) = self.0 else {
            return Ok(());
        };
        let minutes = left / 60;
        let tens = left % 60 / 10;
        let ones = left % 10;
        write!(f, ", {minutes}:{tens}{ones} left")
    }
}

impl Progress {
    /// How many hundredths of the file are done; all of a file without bytes.
    fn percent(self) -> u128
        ensures { result ≡ percent_of self.done self.length }
    {
        if self.length == 0 {
            return 100;
        }
        u128::from(self.done.min(self.length)) * 100 / u128::from(self.length)
    }

    /// How many seconds are left at this rate.
    fn seconds_left(self) -> Option<u64>
        ensures { result ≡ left_of self.done self.length self.rate }
    {
        match self.rate {
            None | Some(0) => None,
            Some(rate) => Some(self.length.saturating_sub(self.done) / rate),
        }
    }
}

impl fmt::Display for Progress {
    ghost output = { λ p. Some (progress_text p.done p.length p.rate p.repeats) };

    fn fmt<W: fmt::Write>(&self, f: &mut fmt::Formatter<W>) -> fmt::Result {
        let percent = self.percent();
        let Progress { done, length, .. } = *self;
        let rate = Rate(self.rate);
        let left = Left(self.seconds_left());
        let repeats = Repeats(self.repeats);
        write!(
            f,
            "{percent}%, {done} of {length} bytes{rate}{left}{repeats}"
        )
    }
}

/// How much of it a line tells, the most first.
#[derive(Clone, Copy)]
pub enum Detail {
    /// All of it.
    All,
    /// All but the numbers of bytes.
    NoBytes,
    /// Nor how many blocks were repeated.
    NoRepeats,
    /// Nor how long it takes yet.
    NoLeft,
    /// The hundredths alone.
    Percent,
}

/// How far a file is, in so much detail.
#[derive(Clone, Copy)]
pub struct Brief {
    /// How far it is.
    pub progress: Progress,
    /// How much of that is told.
    pub detail: Detail,
}

impl fmt::Display for Brief {
    ghost use Rattle.ym_text.specs.Briefs.{brief_text};

    ghost output = { λ b. Some (brief_text b.detail b.progress.done b.progress.length
        b.progress.rate b.progress.repeats) };

    fn fmt<W: fmt::Write>(&self, f: &mut fmt::Formatter<W>) -> fmt::Result {
        let progress = self.progress;
        let percent = progress.percent();
        let rate = Rate(progress.rate);
        let left = Left(progress.seconds_left());
        let repeats = Repeats(progress.repeats);
        match self.detail {
            Detail::All => write!(f, "{progress}"),
            Detail::NoBytes => write!(f, "{percent}%{rate}{left}{repeats}"),
            Detail::NoRepeats => write!(f, "{percent}%{rate}{left}"),
            Detail::NoLeft => write!(f, "{percent}%{rate}"),
            Detail::Percent => write!(f, "{percent}%"),
        }
    }
}

/// How long a file took that is whole.
#[derive(Clone, Copy)]
pub struct Took {
    /// Its bytes.
    pub length: u64,
    /// The milliseconds that it took.
    pub millis: u64,
    /// Blocks that were repeated.
    pub repeats: u64,
}

impl fmt::Display for Took {
    ghost output = { λ took. Some (took_text took.length took.millis took.repeats) };

    fn fmt<W: fmt::Write>(&self, f: &mut fmt::Formatter<W>) -> fmt::Result {
        let length = self.length;
        let seconds = self.millis / 1000;
        let tenths = self.millis / 100 % 10;
        let rate = Rate(rate_of(self.length, self.millis));
        let repeats = Repeats(self.repeats);
        write!(f, "{length} bytes in {seconds}.{tenths} s{rate}{repeats}")
    }
}

/// A file that is whole.
#[derive(Clone, Copy)]
pub struct WholeFile<'a> {
    /// Its name.
    pub name: &'a str,
    /// How long it took.
    pub took: Took,
}

impl fmt::Display for WholeFile<'_> {
    fn fmt<W: fmt::Write>(&self, f: &mut fmt::Formatter<W>) -> fmt::Result {
        let name = Shown(self.name);
        let took = self.took;
        write!(f, "{name}: {took}")
    }
}

/// A rate is told once so many milliseconds have passed.
const RATE_FROM_MS: u64 = 250;

/// How many bytes a second so many bytes in so many milliseconds are, where that is long enough to
/// tell.
pub fn rate_of(bytes: u64, millis: u64) -> Option<u64>
    ensures { result ≡ rate_of bytes millis }
{
    if millis < RATE_FROM_MS {
        return None;
    }
    Some(bytes.saturating_mul(1000) / millis)
}
