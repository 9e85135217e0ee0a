//! The file that a sender is asked to send: what `seq 302` prints.

use std::alloc::{AllocError, Global};

/// How many lines it has.
const LINES: u64 = 302;

/// How many data blocks it has where long ones are used, and where none are.
pub(crate) const LONG_COUNTS: [u64; 1] = [2];

pub(crate) const SHORT_COUNTS: [u64; 1] = [9];

/// How many bytes it has.
pub(crate) const LENGTH: u64 = 1100;

/// Its bytes.
pub(crate) fn usual(alloc: Global) -> Result<Vec<u8>, AllocError> {
    let mut bytes = Vec::new(alloc);
    for number in 1..=LINES {
        let line = format!(in alloc; "{number}\n")?;
        bytes.extend_from_slice(line.as_bytes())?;
    }
    Ok(bytes)
}
