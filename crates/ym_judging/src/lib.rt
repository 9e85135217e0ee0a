//! A peer that is tried: a case is played to it over a line with a clock. What it is to do, and
//! what comes of what it does, `ym_judge` says.
#![tactic(auto)]

mod line;
mod looks;
mod manner;
mod outcome;
mod payload;
mod receiver_trial;
mod said;
mod sender_trial;
mod sent_frame;
mod turn;
mod twisted;
mod usual;

pub use outcome::Outcome;
pub use payload::{Payload, content, files_of};
pub use receiver_trial::try_receiver;
pub use sender_trial::try_sender;
