//! The two ends of a line.

/// Which end reads and writes.
#[derive(Clone, Copy, Debug, PartialEq, Eq)]
pub enum Role {
    /// It writes frames, and reads replies.
    Sender,
    /// It writes replies, and reads frames.
    Receiver,
}
