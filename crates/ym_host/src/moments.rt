//! Moments of a clock.

use std::time::Duration;

/// A time in milliseconds.
pub(crate) fn millis_of(time: Duration) -> u64 {
    time.as_secs()
        .saturating_mul(1000)
        .saturating_add(u64::from(time.subsec_millis()))
}
