//! The texts of messages. A test asks functions whether what they try holds. These have no contract
//! and no `?`, and what they try stands in tables, so that their proofs are short.

use std::alloc::AllocError;
use std::fmt::Display;

/// The text of a message.
pub(crate) fn told<D: Display>(rt: &HostRuntime, message: &D) -> Result<String, AllocError> {
    format!(in rt.alloc(); "{message}")
}

/// Whether this is the text of a message.
pub(crate) fn shows<D: Display>(rt: &HostRuntime, message: &D, want: &str) -> bool {
    match told(rt, message) {
        Ok(text) => text.as_str() == want,
        Err(_) => false,
    }
}

/// Whether each message of a table has the text beside it.
pub(crate) fn all_show<D: Display>(rt: &HostRuntime, all: &[(D, &str)]) -> bool {
    for (message, want) in all {
        if !shows(rt, message, want) {
            return false;
        }
    }
    true
}
