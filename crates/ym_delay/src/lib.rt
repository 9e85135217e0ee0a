//! A line with time in it: where nothing that an end hears is too old, the deliveries of two
//! engines pair up.
#![tactic(auto)]

mod calls;
pub mod laws;

pub use calls::send_and_receive_in_time;
