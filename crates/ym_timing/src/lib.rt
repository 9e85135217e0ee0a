//! When an end of a line waits, asks again, lets the line clear, and what it does not hear: a
//! machine without IO, for which time is an input.
#![tactic(auto)]

mod arrivals;
mod at_once;
pub mod laws;
mod out;
mod pace;
mod purge;
mod role;
mod timing;
mod writing;

pub use arrivals::Arrivals;
pub use out::{Out, Owed};
pub use pace::{Pace, Trust};
pub use purge::{Heed, Need, Purge};
pub use role::Role;
pub use timing::{Expected, Prefix, Timing, Vain};
