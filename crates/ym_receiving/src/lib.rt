//! What `receive` and `rb` do for their words: files received over connections, or over a serial
//! line, and stored. Read first: `receive_batch` (`receiving.rt`).
#![tactic(auto)]

mod connections;
mod keeping;
mod receiving;
mod serial;
mod store;
mod telling;
mod watched;

pub use connections::Connections;
pub use keeping::{Intake, receive_as_asked, receive_each};
pub use receiving::{Order, receive_batch};
pub use serial::receive_line;
pub use store::Store;
