//! The line between two ends: rounds, what is lost or damaged in them, and runs with their traces.
#![tactic(auto)]

mod carrier;
mod check;
mod delivery;
mod direct;
mod fault;
pub mod laws;
mod lines;
mod needed;
mod rounds;
mod text;
mod trace;

pub use carrier::{Carrier, CarryFault};
pub use delivery::{Delivery, Handed, Round, Way};
pub use direct::Direct;
pub use fault::LineFault;
pub use lines::{ReceiverLine, SenderLine};
pub use needed::whole_rounds_needed;
pub use rounds::{round, run, run_by_tables};
pub use text::trace_text;
pub use trace::{How, Seen, Trace, What};
pub use ym_link::DELIVERY_LIMIT;
