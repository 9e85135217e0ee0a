//! A port over a line with a clock, by the rule of what is heard, and when.
#![tactic(auto)]

mod clears;
mod deed;
mod in_step;
mod learned;
mod line;
mod reads;
mod tape_wire;
mod timed_port;
mod turn;
mod waits;
mod wire;
mod written;

pub use deed::Deed;
pub use in_step::InStep;
pub use learned::Learned;
pub use line::{CLEAR_PIECE, PIECE};
pub use tape_wire::TapeWire;
pub use timed_port::TimedPort;
pub use turn::{Next, Turn};
pub use waits::Waits;
pub use wire::Wire;
pub use written::LONGEST_FRAME;
pub use ym_timing::Role;
