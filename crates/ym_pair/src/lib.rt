//! Two engines, one at each end of a line, and either of them against any peer: what their calls
//! promise.
#![tactic(auto)]

mod calls;
pub mod laws;

pub use calls::{receive_from_any_peer, send_and_receive, send_to_any_peer};
