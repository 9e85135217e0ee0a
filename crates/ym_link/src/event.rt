//! What comes to a port.

use ym_frame::Bytes;

/// One thing that comes to a port.
#[derive(Drop)]
pub enum Event {
    /// Bytes. A piece without bytes reads as `Quiet`; one that is longer than a read's buffer is
    /// read in parts.
    Piece(Bytes),
    /// The line is quiet for as long as a read waits.
    Quiet,
    /// The line is closed.
    Closed,
    /// The device fails.
    Fault,
}
