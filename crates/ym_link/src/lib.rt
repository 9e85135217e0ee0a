//! The two ends of a transfer: a sender over any source of files, and a receiver into any sink.
#![tactic(auto)]

mod delivery;
mod end_fault;
mod event;
mod event_queue;
pub mod laws;
mod port;
mod receive_engine;
mod receiver;
mod script_port;
mod send_engine;
mod sender;
mod shaped_batch;

pub use end_fault::EndFault;
pub use event::Event;
pub use port::{DELIVERY_LIMIT, Got, Port, PortFault, Wait};
pub use receive_engine::receive_over;
pub use receiver::{Receiver, ReceiverInto};
pub use script_port::ScriptPort;
pub use send_engine::send_over;
pub use sender::{BatchFault, Sender, SenderFrom};
pub use ym_core::{Confirm, Heard, RecvState, SendState, heard};
pub use ym_file::{Received, SendFile, SourceFile};
