//! A terminal that is opened by its path.

ghost use Rattle.std.specs.Prelude.{◌≡◌};
ghost use Rattle.ym_host.specs.Tty.{refusal_of};

use std::fs::{File, Files, TryLockError};
use std::io;
use std::io::{ErrorKind, IsTerminal};

/// The system's errors of a device that is gone.
const NO_DEVICE_OR_ADDRESS: u32 = 6;

const NO_DEVICE: u32 = 19;

/// Why a terminal is not opened.
#[derive(Clone, Copy)]
pub enum OpenFault {
    /// Nothing is there.
    Absent,
    /// The rights to it are lacking.
    Denied,
    /// Another program has it to itself.
    Busy,
    /// It is no terminal.
    NoTerminal,
    /// The system refused it for another reason.
    System(io::Error),
}

/// Why the system refused to open a terminal.
fn refusal(error: io::Error) -> OpenFault
    ensures { result ≡ refusal_of error }
{
    match error.kind() {
        ErrorKind::NotFound => OpenFault::Absent,
        ErrorKind::PermissionDenied => OpenFault::Denied,
        ErrorKind::ResourceBusy => OpenFault::Busy,
        ErrorKind::IsADirectory => OpenFault::NoTerminal,
        _ => match error.raw_os_error() {
            Some(number) if number.unsigned_abs() == NO_DEVICE_OR_ADDRESS => OpenFault::Absent,
            Some(number) if number.unsigned_abs() == NO_DEVICE => OpenFault::Absent,
            _ => OpenFault::System(error),
        },
    }
}

/// Opens the terminal at this path, to read and to write, and locks it: another program that does
/// so too finds it busy.
pub fn open_tty<R: Files<File = File>>(rt: &R, path: &str) -> Result<File, OpenFault> {
    let file = match File::options().read(true).write(true).open(rt, path) {
        Ok(file) => file,
        Err(error) => return Err(refusal(error)),
    };
    if !file.is_terminal() {
        return Err(OpenFault::NoTerminal);
    }
    match file.try_lock() {
        Err(TryLockError::WouldBlock) => Err(OpenFault::Busy),
        // Where the system cannot lock it, it is as free as can be told.
        Ok(()) | Err(TryLockError::Error(_)) => Ok(file),
    }
}
