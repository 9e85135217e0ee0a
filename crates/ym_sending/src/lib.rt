//! What `send` and `sb` do for their words: files sent over a connection, or over a serial line.
//! Read first: `send` (`sending.rt`).
#![tactic(auto)]

mod calling;
mod same_names;
mod sending;
mod serial;
mod telling;
mod told_source;

pub use sending::{SendOrder, send, send_batch};
pub use serial::send_line;
