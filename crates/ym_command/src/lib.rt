//! The command: what the words of the command line ask for, done.
#![tactic(auto)]

mod orders;
mod program;

pub use program::command;
pub use ym_explained::{Charted, Draw};
pub use ym_streams::{Outputs, Streams};
