//! Reads what was recorded of a line, in pieces, and writes what `ym_told` tells of it.
#![tactic(auto)]

mod buffered;
mod capture;
mod fault;
mod in_line;
mod inspection;
pub mod laws;
mod pair;
mod parting;
mod pcap;
mod raw;
mod reading;
mod record;

pub use capture::explain_capture;
pub use fault::{InspectFault, RecordFault};
pub use in_line::{InLine, Stepped};
pub use pair::explain_pair;
pub use raw::{explain_one_way, has_frames};
pub use ym_capture::CaptureFault;
pub use ym_told::Direction;
