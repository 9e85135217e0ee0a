//! Why an engine stopped before its end had ended.

use thiserror::Error;

/// Why an engine stopped before its end had ended.
#[derive(Clone, Copy, Debug, PartialEq, Eq, Error)]
pub enum EndFault {
    /// The port was closed.
    #[error("fault: closed")]
    Closed,
    /// A call of the port failed.
    #[error("fault: device")]
    Device,
    /// Out of memory.
    #[error("fault: memory")]
    Memory,
}
