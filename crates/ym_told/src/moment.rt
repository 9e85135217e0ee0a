//! Moments of a capture.

use std::fmt;

/// A moment of a capture, in microseconds from its beginning; none where it tells none.
#[derive(Clone, Copy)]
pub struct CaptureMoment(pub Option<u64>);

impl fmt::Display for CaptureMoment {
    ghost use Rattle.std.specs.Prelude.{Some};
    ghost use Rattle.ym_told.specs.LineWords.{moment_words};

    ghost output = { λ moment. Some (moment_words moment.0) };

    fn fmt<W: fmt::Write>(&self, f: &mut fmt::Formatter<W>) -> fmt::Result {
        match self.0 {
            None => Ok(()),
            Some(micros) => {
                let seconds = micros / 1_000_000;
                let millis = micros / 1000 % 1000;
                let tenths = millis / 100;
                let hundredths = millis / 10 % 10;
                let thousandths = millis % 10;
                write!(f, "{seconds}.{tenths}{hundredths}{thousandths} ")
            }
        }
    }
}
