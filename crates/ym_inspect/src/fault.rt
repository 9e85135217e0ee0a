//! Why a capture is not told to its end.

use std::alloc::AllocError;
use std::fmt;
use ym_capture::CaptureFault;

/// What is wrong with a line of a record.
#[derive(Clone, Copy)]
pub enum RecordFault {
    /// It does not begin with a number of seconds and a space.
    Seconds,
    /// Neither `>` nor `<` stands behind the seconds.
    Way,
    /// A character is no hexadecimal digit.
    Digit,
    /// Its last byte has one digit.
    HalfByte,
}

impl RecordFault {
    ghost use Rattle.std.specs.Prelude.{◌≡◌};
    ghost use Rattle.ym_inspect.specs.CaptureFaults.{record_words};

    /// What is wrong, in words.
    fn sentence(self) -> &'static str
        ensures { result.now ≡ record_words self }
    {
        match self {
            RecordFault::Seconds => "it does not begin with its seconds and a space",
            RecordFault::Way => "no > and no < stands behind its seconds",
            RecordFault::Digit => "a character is no hexadecimal digit",
            RecordFault::HalfByte => "its last byte has one digit",
        }
    }
}

impl fmt::Display for RecordFault {
    ghost use Rattle.std.specs.Prelude.{Some};
    ghost use Rattle.ym_inspect.specs.CaptureFaults.{record_words};

    ghost output = { λ fault. Some (record_words fault) };

    fn fmt<W: fmt::Write>(&self, f: &mut fmt::Formatter<W>) -> fmt::Result {
        f.write_str(self.sentence())
    }
}

/// Why a capture is not told to its end.
#[derive(Clone, Copy)]
pub enum InspectFault {
    /// Out of memory.
    Memory,
    /// A read failed.
    Read,
    /// A write failed.
    Write,
    /// More was told than 64 bits count.
    Endless,
    /// A line of a record cannot be read.
    Line {
        /// Its number, from 1 on.
        number: u64,
        /// What is wrong with it.
        why: RecordFault,
    },
    /// The last line of a record, which has this number, from 1 on, has no end.
    Cut(u64),
    /// It is a capture of packets in the form that is not read.
    Pcapng,
    /// A capture of packets cannot be read on.
    Packet {
        /// The place of the first byte of what is wrong, from 0 on.
        position: u64,
        /// What is wrong there.
        why: CaptureFault,
    },
}

impl fmt::Display for InspectFault {
    ghost use Rattle.std.specs.Prelude.{Some};
    ghost use Rattle.ym_inspect.specs.CaptureFaults.{fault_words};

    ghost output = { λ fault. Some (fault_words fault) };

    fn fmt<W: fmt::Write>(&self, f: &mut fmt::Formatter<W>) -> fmt::Result {
        let words = match *self {
            InspectFault::Memory => "out of memory",
            InspectFault::Read => "a read of the capture failed",
            InspectFault::Write => "a write failed",
            InspectFault::Endless => "the capture has no end",
            InspectFault::Line { number, why } => return write!(f, "line {number}: {why}"),
            InspectFault::Cut(number) => return write!(f, "line {number} has no end"),
            InspectFault::Pcapng => "it is a pcapng capture, which is not read",
            InspectFault::Packet { position, why } => return write!(f, "byte {position}: {why}"),
        };
        f.write_str(words)
    }
}

impl From<AllocError> for InspectFault {
    ghost use Rattle.std.specs.Prelude.{◌≡◌};
    ghost use Rattle.ym_inspect.specs.declared.fault.InspectFault.TheVariants.{Memory};

    ghost from_gives = { λ _ fault. fault ≡ Memory };

    fn from(_: AllocError) -> InspectFault {
        InspectFault::Memory
    }
}
