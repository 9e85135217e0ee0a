//! Records what passes on a line while files are sent or received, in the form that `ym_inspect`
//! reads: a line for each piece that was read or written, with its moment.
#![tactic(auto)]

mod append;
mod lines;
mod message;
mod opening;
mod recorded_wire;
mod recorder;
mod records;

pub use append::Append;
pub use opening::{Beside, RecordRefusal, WhatIsThere, open_record};
pub use recorded_wire::RecordedWire;
pub use recorder::Recorder;
pub use records::Records;
