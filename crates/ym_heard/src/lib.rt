//! What of that which comes to an end it hears, and when: echoes and noise are dropped, an ACK is
//! held until it counts, and CAN CAN is found. It is the part of the rule of time in which one byte
//! is looked at, with the clock that it reads.
#![tactic(auto)]

mod cancel;
mod clock;
mod ear;
mod hold;
pub mod laws;
mod limits;
mod sent;

pub use cancel::{Cans, Opening, cancels};
pub use clock::Clock;
pub use ear::{ACK, CAN, Ear, Echo, Listened, NAK, START};
pub use hold::{FirstAck, Hold, Said, Say};
pub use limits::{
    APART, BRIEF, FAR, FIRST_FRAME, FIRST_REPLY, FRAGMENT, FULL, HALVINGS, HELD_UP, LIKELY,
    LONGEST, MARGIN, MOMENT, OTHERS, PATIENCE, RECEIVER_QUIET, RESTED, SENDER_QUIET, SHAKEN, SOON,
    STALE_ASKS, TOGETHER, UNASKED, WITHIN,
};
pub use sent::{Kind, Sent};
