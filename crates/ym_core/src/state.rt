//! How an end has ended, or that it still runs.

use ym_header::HeaderFault;

/// How a sender has ended.
#[derive(Clone, Copy, Debug, PartialEq, Eq)]
pub enum SendState {
    /// It has not ended.
    Running,
    /// The end block was acknowledged.
    Finished,
    /// Ten deliveries in a row brought nothing.
    NoReply,
    /// The other end cancelled.
    Cancelled,
    /// A source failed.
    SourceFailed,
}

/// How a receiver has ended.
#[derive(Clone, Copy, Debug, PartialEq, Eq)]
pub enum RecvState {
    /// It has not ended.
    Running,
    /// The end block came.
    Finished,
    /// Ten deliveries in a row brought nothing.
    TooManyErrors,
    /// The other end cancelled.
    Cancelled,
    /// A block came with a number that is neither the next nor the last one.
    OutOfStep,
    /// A block 0 was refused.
    BadHeader(HeaderFault),
    /// One more file than a batch may have was begun.
    TooManyFiles,
    /// The sink failed.
    SinkFailed,
}
