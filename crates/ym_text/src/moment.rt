//! A moment, as people write it.

ghost use Rattle.std.specs.Prelude.{◌≡◌, ◌<◌, ◌↔◌, ◌/◌, ◌%◌, pos, Some, IsSome, IfSome};
ghost use Rattle.jiff_core.specs.Date.{epoch_day};
ghost use Rattle.jiff_core.specs.Time.{time_seconds};
ghost use Rattle.ym_text.specs.Moment.{year_10000, two_digits, moment_text};

use jiff_core::civil::{Date, Time};
use std::fmt;

/// How many seconds a day has.
pub const DAY_SECONDS: u64 = 86_400;

/// A date and a time of day in UTC, which has no leap seconds here, as times of files have none.
/// Its `Display` is as `2026-11-25 14:03:07 UTC`.
#[derive(Clone, Copy)]
pub struct Moment {
    /// The day, by the calendar of today.
    pub date: Date,
    /// The time of that day.
    pub time: Time,
}

impl Moment {
    /// The moment that is so many seconds after the beginning of 1970; none after the year 9999.
    pub fn after_1970(seconds: u64) -> Option<Moment>
        ensures known { IsSome result ↔ (seconds < year_10000) }
        ensures date { IfSome result (λ m. epoch_day m.date ≡ pos (seconds / DAY_SECONDS)) }
        ensures time { IfSome result (λ m. time_seconds m.time ≡ seconds % DAY_SECONDS) }
    {
        let date = Date::from_unix_epoch_day((seconds / DAY_SECONDS) as i64).ok()?;
        let time = Time::from_second((seconds % DAY_SECONDS) as u32, 0);
        Some(Moment { date, time })
    }
}

/// A number below 100, in two digits.
#[derive(Clone, Copy)]
struct TwoDigits(u8);

impl fmt::Display for TwoDigits {
    ghost output = { λ number. Some (two_digits number.0) };

    fn fmt<W: fmt::Write>(&self, f: &mut fmt::Formatter<W>) -> fmt::Result {
        let tens = self.0 / 10;
        let ones = self.0 % 10;
        write!(f, "{tens}{ones}")
    }
}

impl fmt::Display for Moment {
    ghost output = { λ m. Some (moment_text m.date.year m.date.month m.date.day
        m.time.hour m.time.minute m.time.second) };

    fn fmt<W: fmt::Write>(&self, f: &mut fmt::Formatter<W>) -> fmt::Result {
        let Moment { date, time } = *self;
        let year = date.year;
        let month = TwoDigits(date.month);
        let day = TwoDigits(date.day);
        let hour = TwoDigits(time.hour);
        let minute = TwoDigits(time.minute);
        let second = TwoDigits(time.second);
        write!(f, "{year}-{month}-{day} {hour}:{minute}:{second} UTC")
    }
}
