//! In which manner something is written.

use ym_judge::{Spot, Twist};

/// In which manner something is written.
#[derive(Clone, Copy, PartialEq, Eq)]
pub(crate) enum Manner {
    /// Once.
    Once,
    /// Once more, when the first has been answered.
    Again,
    /// After a pause, which ends when the peer says something.
    Late,
    /// After a pause, whatever the peer says.
    LateStart,
    /// When the peer has asked for something.
    WhenAsked,
}

/// The manner in which this becomes of what is written there.
pub(crate) fn manner_of(spot: Option<Spot>, twist: Option<Twist>) -> Manner {
    match (twist, spot) {
        (Some(Twist::Doubled), _) => Manner::Again,
        (Some(Twist::Late), Some(Spot::Start)) => Manner::LateStart,
        (Some(Twist::Late), _) => Manner::Late,
        (Some(Twist::Cancel), Some(Spot::Start)) => Manner::WhenAsked,
        _ => Manner::Once,
    }
}
