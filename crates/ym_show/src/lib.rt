//! Who watches the program's ports and its sinks, and shows how far it is.
#![tactic(auto)]

mod meter;
mod receive_watch;
mod rubbish;
mod send_watch;
mod sink_watch;
mod surplus;
mod watched_port;

pub use meter::Meter;
pub use receive_watch::{ReceiveWatch, Receiving};
pub use send_watch::{SendWatch, Sending};
pub use sink_watch::SinkWatch;
pub use watched_port::{PortWatch, WatchedPort};
