//! Why the system refused a call.

ghost use Rattle.std.specs.Prelude.{◌≡◌, Some, IfOk, IfErr};
ghost use Rattle.ym_text.specs.Reasons.{reason_text, invalid, stale, reason_in, reasons, numbered};

use std::io::ErrorKind;
use std::{fmt, io};

/// Why the system refused a call. Its `Display` is that, in words.
#[derive(Clone, Copy)]
pub enum Reason {
    /// Nothing is there.
    Absent,
    /// The rights to it are lacking.
    Denied,
    /// It is no folder.
    NoFolder,
    /// It is a folder, a pipe or a device.
    NoRegularFile,
    /// It has bytes, and is said to have none.
    Unsized,
    /// Another file stands at its path.
    Replaced,
    /// Its length has changed.
    Resized,
    /// It can only be read.
    ReadOnly,
    /// It does not support what was asked of it.
    Unsupported,
    /// There is no room left.
    Full,
    /// Nobody reads what is written to it.
    Closed,
    /// The other end broke the connection off.
    Broken,
    /// No way leads to it.
    Unreached,
    /// It did not answer in time.
    Late,
    /// Another program has the port.
    PortInUse,
    /// No port is free for a connection.
    NoPort,
    /// Its links lead in a circle.
    Links,
    /// Its name is too long.
    NameLong,
    /// It would be too large.
    Large,
    /// Another program uses it.
    Busy,
    /// It is on another machine, and was removed there.
    Stale,
    /// There is no memory for it.
    Memory,
    /// The device failed.
    Broke,
    /// The device is not there.
    NoDevice,
    /// It is not open, or not for this.
    NotOpen,
    /// Too many files are open.
    ManyOpen,
    /// A signal interrupted it each time.
    Interrupted,
    /// It gave or took nothing at that moment.
    NotReady,
    /// It is there already.
    IsThere,
    /// It is on another file system.
    Elsewhere,
    /// No lock can be had for it.
    NoLocks,
    /// Its file system is damaged.
    Damaged,
    /// Its name has characters that its file system does not take.
    NameOdd,
    /// No medium is in it.
    NoMedium,
    /// What it is encrypted by is not known.
    NoKey,
    /// Nobody listens there.
    Unanswered,
    /// Another error of the system, by its number.
    Number(u32),
    /// Another one, that has no number.
    Other,
}

/// What an invalid call comes to: one that the system refused has a number, and one of the
/// program's own has none.
fn invalid(number: Option<i32>) -> Reason
    ensures { result ≡ invalid number }
{
    match number {
        Some(_) => Reason::Unsupported,
        None => Reason::NoRegularFile,
    }
}

/// What a stale file comes to: one that the system calls so has a number, and one that stands where
/// another one stood has none.
fn stale(number: Option<i32>) -> Reason
    ensures { result ≡ stale number }
{
    match number {
        Some(_) => Reason::Stale,
        None => Reason::Replaced,
    }
}

/// The reason that has this number, where the library has no kind of it: from EIO, 5, to EHWPOISON,
/// 133.
fn of_number(number: u32) -> Reason
    ensures { result ≡ reason_in reasons number }
{
    match number {
        5 | 61 | 71 | 108 | 121 | 133 => Reason::Broke,
        6 | 19 => Reason::NoDevice,
        9 => Reason::NotOpen,
        23 | 24 => Reason::ManyOpen,
        25 => Reason::Unsupported,
        37 => Reason::NoLocks,
        62 => Reason::Late,
        64 | 67 | 112 => Reason::Unreached,
        74 | 117 => Reason::Damaged,
        75 => Reason::Large,
        84 => Reason::NameOdd,
        102 => Reason::Broken,
        105 => Reason::Memory,
        123 => Reason::NoMedium,
        126 | 127 | 128 | 129 => Reason::NoKey,
        _ => Reason::Number(number),
    }
}

/// The same of an error that may have none.
fn numbered(number: Option<i32>) -> Reason
    ensures { result ≡ numbered number }
{
    match number {
        Some(number) => of_number(number.unsigned_abs()),
        None => Reason::Other,
    }
}

impl Reason {
    ghost use Rattle.ym_text.specs.Reasons.{reason_of};

    /// The reason that an error gives.
    pub fn of(error: &io::Error) -> Reason
        ensures { result ≡ reason_of error.now }
    {
        match error.kind() {
            ErrorKind::NotFound => Reason::Absent,
            ErrorKind::PermissionDenied => Reason::Denied,
            ErrorKind::NotADirectory => Reason::NoFolder,
            ErrorKind::IsADirectory => Reason::NoRegularFile,
            ErrorKind::InvalidInput => invalid(error.raw_os_error()),
            ErrorKind::Unsupported => Reason::Unsupported,
            ErrorKind::ReadOnlyFilesystem => Reason::ReadOnly,
            ErrorKind::StorageFull | ErrorKind::QuotaExceeded => Reason::Full,
            ErrorKind::BrokenPipe => Reason::Closed,
            ErrorKind::ConnectionReset | ErrorKind::ConnectionAborted | ErrorKind::NotConnected =>
                Reason::Broken,
            ErrorKind::HostUnreachable | ErrorKind::NetworkUnreachable | ErrorKind::NetworkDown =>
                Reason::Unreached,
            ErrorKind::TimedOut => Reason::Late,
            ErrorKind::AddrInUse => Reason::PortInUse,
            ErrorKind::AddrNotAvailable => Reason::NoPort,
            ErrorKind::FilesystemLoop => Reason::Links,
            ErrorKind::InvalidFilename => Reason::NameLong,
            ErrorKind::FileTooLarge => Reason::Large,
            ErrorKind::ResourceBusy | ErrorKind::ExecutableFileBusy => Reason::Busy,
            ErrorKind::StaleNetworkFileHandle => stale(error.raw_os_error()),
            ErrorKind::OutOfMemory => Reason::Memory,
            ErrorKind::InvalidData => Reason::Unsized,
            ErrorKind::UnexpectedEof => Reason::Resized,
            ErrorKind::Interrupted => Reason::Interrupted,
            ErrorKind::WouldBlock | ErrorKind::WriteZero => Reason::NotReady,
            ErrorKind::AlreadyExists => Reason::IsThere,
            ErrorKind::CrossesDevices => Reason::Elsewhere,
            ErrorKind::ConnectionRefused => Reason::Unanswered,
            _ => numbered(error.raw_os_error()),
        }
    }

    /// Its words, or else its number.
    fn text(self) -> Result<&'static str, u32>
        ensures text { IfOk result (λ text. reason_text self ≡ text.now) }
        ensures number { IfErr result (λ number. self ≡ Reason.Number number) }
    {
        match self {
            Reason::Absent => Ok("no such file or directory"),
            Reason::Denied => Ok("permission denied"),
            Reason::NoFolder => Ok("not a directory"),
            Reason::NoRegularFile => Ok("not a regular file"),
            Reason::Unsized => Ok("the system does not tell its length; send a copy of it"),
            Reason::Replaced => Ok("another file has taken its place since it was looked at"),
            Reason::Resized => Ok("its length has changed since it was looked at"),
            Reason::ReadOnly => Ok("read-only file system"),
            Reason::Unsupported => Ok("the file system or the device does not support it"),
            Reason::Full => Ok("no space left on device"),
            Reason::Closed => Ok("nobody reads what is written to it"),
            Reason::Broken => Ok("the other end broke the connection off"),
            Reason::Unreached => Ok("the network does not lead there"),
            Reason::Late => Ok("nothing answered in time"),
            Reason::PortInUse => Ok("another program has this port"),
            Reason::NoPort => Ok("no port of this machine is free for it"),
            Reason::Links => Ok("too many levels of symbolic links"),
            Reason::NameLong => Ok("the file system takes no name so long"),
            Reason::Large => Ok("the file system or a limit takes no file so large"),
            Reason::Busy => Ok("another program uses it"),
            Reason::Stale => Ok("it was removed on the machine that has it"),
            Reason::Memory => Ok("out of memory"),
            Reason::Broke => Ok("the device failed, or was unplugged"),
            Reason::NoDevice => Ok("no such device"),
            Reason::NotOpen => Ok("it is closed, or not open for this"),
            Reason::ManyOpen => Ok("too many files are open"),
            Reason::Interrupted => Ok("a signal interrupted it each time"),
            Reason::NotReady => Ok("it was not ready"),
            Reason::IsThere => Ok("it is there already"),
            Reason::Elsewhere => Ok("it is on another file system"),
            Reason::NoLocks => Ok("no lock can be had for it"),
            Reason::Damaged => Ok("its file system is damaged"),
            Reason::NameOdd => Ok("the file system takes no such characters in a name"),
            Reason::NoMedium => Ok("no medium is in it"),
            Reason::NoKey => Ok("the key that it is encrypted by is missing or has expired"),
            Reason::Unanswered => Ok("nobody listens there"),
            Reason::Number(number) => Err(number),
            Reason::Other => Ok("the system refused it"),
        }
    }
}

impl fmt::Display for Reason {
    ghost output = { λ why. Some (reason_text why) };

    fn fmt<W: fmt::Write>(&self, f: &mut fmt::Formatter<W>) -> fmt::Result {
        match self.text() {
            Ok(text) => f.write_str(text),
            Err(number) => write!(f, "error {number} of the system"),
        }
    }
}
