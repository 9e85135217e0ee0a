//! What an end did with its line.

use ym_frame::Bytes;

/// What an end did with its line.
#[derive(Drop)]
pub enum Deed {
    /// It asked the clock.
    Looked,
    /// It read, and waited so many milliseconds at most.
    Waited(u64),
    /// It wrote these bytes.
    Wrote(Bytes),
}
