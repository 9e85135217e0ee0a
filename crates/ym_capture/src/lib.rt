//! Reads what a `pcap` capture says of one TCP connection: how it is written, what each packet
//! brings, and which of its two ends receives files. It has the text of a record too, as this
//! program writes one. It reads no file and writes none.
#![tactic(auto)]

mod connection;
mod fault;
mod flow;
mod head;
mod ip;
mod numbers;
mod record_text;
mod sides;
mod tcp;

pub use connection::Connection;
pub use fault::CaptureFault;
pub use head::{
    ByteOrder, CaptureKind, Form, HEAD, Link, MOST_PACKET, PACKET_HEAD, PacketHead, Part, form_of,
    kind_of, packet_head,
};
pub use record_text::push_line;
pub use sides::{End, Sides};
