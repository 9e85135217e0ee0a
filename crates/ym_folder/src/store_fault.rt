//! Why a sink that stores files in a folder failed.

use std::io;
use std::io::ErrorKind;

/// Why a sink failed.
#[derive(Clone, Copy)]
pub enum StoreFault {
    /// The name of the file has been taken already.
    IsThere,
    /// The name of its part has been taken already. Where such parts are to be removed, somebody
    /// has this one locked, or it is none, or may be a file that was stored.
    PartIsThere,
    /// What stands at the place of its part is no longer the file that was written.
    PartIsGone,
    /// The system refused a call.
    System(io::Error),
}

/// Why a part could not be made.
pub(crate) fn part_fault(error: io::Error) -> StoreFault {
    match error.kind() {
        // It is there, or somebody has it locked.
        ErrorKind::AlreadyExists | ErrorKind::WouldBlock => StoreFault::PartIsThere,
        // Somebody took it away meanwhile, it may not be opened, or it is no regular file: these
        // are no errors of the system.
        ErrorKind::ResourceBusy | ErrorKind::InvalidInput if error.raw_os_error().is_none() => {
            StoreFault::PartIsThere
        }
        _ => StoreFault::System(error),
    }
}

/// Why a part did not get its name.
pub(crate) fn name_fault(error: io::Error) -> StoreFault {
    match error.kind() {
        // It came meanwhile.
        ErrorKind::AlreadyExists => StoreFault::IsThere,
        // No error of the system: `open_part::name` has looked.
        ErrorKind::NotFound if error.raw_os_error().is_none() => StoreFault::PartIsGone,
        _ => StoreFault::System(error),
    }
}
