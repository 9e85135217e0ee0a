//! What `judge` does, prints and answers: it tries a peer by cases.
//! Read first: `judge` (`judging.rt`).
#![tactic(auto)]

mod judge_message;
mod judged_files;
mod judged_peer;
mod judging;
mod looking;

pub use judging::{JudgeOrder, judge};
