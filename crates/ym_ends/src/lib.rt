//! What both ends of the program have in common: where they are asked for, how a terminal is
//! opened, what the faults of a line are told as, and why an end has ended.
#![tactic(auto)]

mod opening;
mod places;
mod telling;
mod told_line;

pub use opening::{open_line, why_closed};
pub use places::{AtPort, OnLine};
pub use telling::tell_end;
pub use told_line::{LineWords, ToldLine, ToldWire};
