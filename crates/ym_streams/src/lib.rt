//! What a command reads from and writes to: streams that tell what they have given and taken, where
//! that is known, and how often they failed.
#![tactic(auto)]

mod outputs;
mod streams;

pub use outputs::{Outputs, Streams};
pub use streams::{Input, Output, StreamFault};
