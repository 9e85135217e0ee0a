//! Why a command ends in a fault line.

ghost use Rattle.std.specs.Prelude.{◌≡◌, Some};
ghost use Rattle.ym_answer.specs.Status.{fault_words};

use std::alloc::AllocError;
use std::error::Error;
use std::io::ErrorKind;
use std::{fmt, io};
use ym_file::SinkFault;
use ym_header::HeaderFault;
use ym_link::EndFault;
use ym_streams::StreamFault;

/// Why a command ends in a fault line. Its `Display` is that line, without its end.
#[derive(Clone, Copy, Debug, PartialEq, Eq)]
pub enum CommandFault {
    /// P is no number from 1 to 65535.
    Port,
    /// A file has a name that no header can have.
    Name,
    /// A file is longer than a header can say.
    Length,
    /// More than 65,535 files.
    TooManyFiles,
    /// The other end closed the connection.
    Closed,
    /// A file, a folder, a socket, the output or the input failed.
    Device,
    /// Out of memory.
    Memory,
}

impl fmt::Display for CommandFault {
    ghost output = { λ fault. Some (fault_words fault) };

    fn fmt<W: fmt::Write>(&self, f: &mut fmt::Formatter<W>) -> fmt::Result {
        f.write_str(match self {
            CommandFault::Port => "fault: port",
            CommandFault::Name => "fault: name",
            CommandFault::Length => "fault: length",
            CommandFault::TooManyFiles => "fault: too many files",
            CommandFault::Closed => "fault: closed",
            CommandFault::Device => "fault: device",
            CommandFault::Memory => "fault: memory",
        })
    }
}

impl Error for CommandFault {}

impl CommandFault {
    ghost use Rattle.ym_answer.specs.Status.{fault_status};

    /// The status that tells it: 2 for what is refused, 3 for what failed.
    pub fn status(self) -> u8
        ensures { result ≡ fault_status self }
    {
        match self {
            CommandFault::Port
            | CommandFault::Name
            | CommandFault::Length
            | CommandFault::TooManyFiles => 2,
            CommandFault::Closed | CommandFault::Device | CommandFault::Memory => 3,
        }
    }
}

impl From<AllocError> for CommandFault {
    ghost use Rattle.std.specs.Prelude.{◌≡◌};
    ghost use Rattle.ym_answer.specs.declared.command_fault.CommandFault.{CommandFault};

    ghost from_gives = { λ fault e. e ≡ CommandFault.Memory };

    fn from(_: AllocError) -> CommandFault {
        CommandFault::Memory
    }
}

impl From<io::Error> for CommandFault {
    ghost use Rattle.ym_answer.specs.Status.{IsHostFault, host_fault};
    ghost use Rattle.std.specs.Prelude.{◌≡◌};

    ghost from_gives = { λ error e. IsHostFault e × (e ≡ host_fault error) };

    fn from(error: io::Error) -> CommandFault {
        match error.kind() {
            ErrorKind::OutOfMemory => CommandFault::Memory,
            _ => CommandFault::Device,
        }
    }
}

impl From<HeaderFault> for CommandFault {
    ghost use Rattle.ym_answer.specs.Status.{header_fault};
    ghost use Rattle.std.specs.Prelude.{◌≡◌};

    ghost from_gives = { λ fault e. e ≡ header_fault fault };

    fn from(fault: HeaderFault) -> CommandFault {
        match fault {
            HeaderFault::NameEmpty | HeaderFault::NameLong | HeaderFault::NameUnsafe => {
                CommandFault::Name
            }
            HeaderFault::NoLength | HeaderFault::LengthLarge => CommandFault::Length,
            HeaderFault::Memory => CommandFault::Memory,
        }
    }
}

impl From<EndFault> for CommandFault {
    ghost use Rattle.ym_answer.specs.Status.{end_fault};
    ghost use Rattle.std.specs.Prelude.{◌≡◌};

    ghost from_gives = { λ fault e. e ≡ end_fault fault };

    fn from(fault: EndFault) -> CommandFault {
        match fault {
            EndFault::Closed => CommandFault::Closed,
            EndFault::Device => CommandFault::Device,
            EndFault::Memory => CommandFault::Memory,
        }
    }
}

impl From<SinkFault> for CommandFault {
    ghost use Rattle.ym_answer.specs.Status.{sink_fault};
    ghost use Rattle.std.specs.Prelude.{◌≡◌};

    ghost from_gives = { λ fault e. e ≡ sink_fault fault };

    fn from(fault: SinkFault) -> CommandFault {
        match fault {
            SinkFault::Failed => CommandFault::Device,
            SinkFault::Memory => CommandFault::Memory,
        }
    }
}

impl From<StreamFault> for CommandFault {
    ghost use Rattle.std.specs.Prelude.{◌≡◌};
    ghost use Rattle.ym_answer.specs.declared.command_fault.CommandFault.{CommandFault};

    ghost from_gives = { λ fault e. e ≡ CommandFault.Device };

    fn from(_: StreamFault) -> CommandFault {
        CommandFault::Device
    }
}
