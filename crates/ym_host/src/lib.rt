//! Sockets, terminals and files of the host: a connection and a terminal as lines with a clock, a
//! carrier over TCP, a source that reads a file, and the folders that a sink stores files in.
#![tactic(auto)]

mod drip;
mod file_id;
mod file_source;
mod moments;
mod read_ahead;
mod read_at;
mod read_source;
mod socket_carrier;
mod socket_wire;
mod system_folder;
mod ticks;
mod tty;
mod tty_wire;

pub use drip::{Drip, LONGEST_OF_FRAME, LONGEST_OF_REPLY};
pub use file_source::{FileSource, RegularFile};
pub use read_at::ReadAt;
pub use read_source::{Opens, ReadSource};
pub use socket_carrier::SocketCarrier;
pub use socket_wire::SocketWire;
pub use system_folder::SystemFolder;
pub use ticks::{EARLY_MS, HUNG_UP_READS, LATE_MS, TICK_MS, Tick, Ticks};
pub use tty::{OpenFault, open_tty};
pub use tty_wire::{TtyFault, TtyWire};
