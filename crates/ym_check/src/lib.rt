//! The 16-bit check of XMODEM and YMODEM, at the speed of memory.
#![tactic(auto)]

mod check;
mod fold;
pub mod laws;
mod rows;

pub use check::{CheckState, check16};
