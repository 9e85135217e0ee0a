//! A terminal that is opened as the line.

ghost use Rattle.std.specs.Prelude.{IfErr};
ghost use Rattle.ym_answer.specs.Status.{IsHostFault};

use std::fs::{File, Files};
use std::io::Write;
use ym_answer::CommandFault;
use ym_host::{OpenFault, open_tty};
use ym_teller::Teller;
use ym_text::{Reason, TtyMessage};

/// Why the terminal at this path is not opened, as it is told.
pub fn why_closed<'a>(path: &'a str, fault: &OpenFault) -> TtyMessage<'a> {
    match fault {
        OpenFault::Absent => TtyMessage::Absent(path),
        OpenFault::Denied => TtyMessage::Denied(path),
        OpenFault::Busy => TtyMessage::Busy(path),
        OpenFault::NoTerminal => TtyMessage::NoTerminal(path),
        OpenFault::System(error) => TtyMessage::Failed(path, Reason::of(error)),
    }
}

/// Opens the terminal at this path, and tells that it is the line, or why it is not.
pub fn open_line<R: Files<File = File>, E: Write + Drop>(
    rt: &R,
    path: &str,
    teller: &mut Teller<E>,
) -> Result<File, CommandFault>
    ensures { IfErr result (λ why. IsHostFault why) }
{
    match open_tty(rt, path) {
        Ok(file) => {
            teller.tell(TtyMessage::Opened(path));
            Ok(file)
        }
        Err(fault) => {
            teller.tell(why_closed(path, &fault));
            Err(CommandFault::Device)
        }
    }
}
