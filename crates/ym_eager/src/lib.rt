//! A port that finds its line quiet at once, so that a receiver asks without a wait.
#![tactic(auto)]

mod eager;

pub use eager::Eager;
