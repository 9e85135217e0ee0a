//! Why a script is not played to its end.

ghost use Rattle.std.specs.Prelude.{◌≡◌, Some};
ghost use Rattle.ym_play.specs.PlayFault.{fault_at};
ghost use Rattle.ym_play.specs.FaultText.{why_text, round_text, play_text};

use std::alloc::{AllocError, AllocFailed};
use std::error::Error;
use std::fmt;
use ym_header::HeaderFault;
use ym_line::LineFault;

/// Why a script is refused. Of one line's faults the first in this order is told.
#[derive(Clone, Copy, Debug, PartialEq, Eq)]
pub enum ScriptWhy {
    /// The script has more than 1,048,576 bytes. It is told of line 0.
    Large,
    /// The script is not UTF-8. It is told of line 0.
    NotText,
    /// Another first word, a wrong number of words, an empty word, or a delivery that is none of
    /// `whole`, `lost` and `hex:` with what follows it.
    NotCommand,
    /// `short`, `single` or `file` behind a round.
    Late,
    /// A number of rounds that is not from 1 to 65,535, or more than 65,535 rounds in all.
    Number,
    /// An odd number of hexadecimal digits, or another character among them.
    Hex,
    /// A time or a mode that is not written in octal digits alone, or is out of range.
    Stamp,
    /// A name that no header can have.
    Name,
    /// The 65,536th file.
    TooMany,
}

impl ScriptWhy {
    /// What it is, in words.
    fn text(self) -> &'static str
        ensures { result.now ≡ why_text self }
    {
        match self {
            ScriptWhy::Large => "too large",
            ScriptWhy::NotText => "not text",
            ScriptWhy::NotCommand => "not a command",
            ScriptWhy::Late => "too late",
            ScriptWhy::Number => "bad number",
            ScriptWhy::Hex => "bad hex",
            ScriptWhy::Stamp => "bad stamp",
            ScriptWhy::Name => "bad name",
            ScriptWhy::TooMany => "too many files",
        }
    }
}

impl fmt::Display for ScriptWhy {
    ghost output = { λ why. Some (why_text why) };

    fn fmt<W: fmt::Write>(&self, f: &mut fmt::Formatter<W>) -> fmt::Result {
        f.write_str(self.text())
    }
}

impl Error for ScriptWhy {}

/// Why a script is not played to its end. Its `Display` is the line that tells it, without the
/// line's end.
#[derive(Clone, Copy, Debug, PartialEq, Eq)]
pub enum PlayFault {
    /// The script is refused: the first line with a fault, counted from 1, and that fault. Line 0
    /// is the whole script.
    Script {
        /// The line.
        line: u32,
        /// Its fault.
        why: ScriptWhy,
    },
    /// A round was refused or its carrier failed. Want of memory is `PlayFault::Memory`.
    Line(LineFault),
    /// Out of memory.
    Memory,
}

/// Why a round was not finished, by its line.
#[derive(Clone, Copy)]
struct RoundWords(LineFault);

impl fmt::Display for RoundWords {
    ghost output = { λ words. Some (round_text words.0) };

    fn fmt<W: fmt::Write>(&self, f: &mut fmt::Formatter<W>) -> fmt::Result {
        match self.0 {
            LineFault::NotDamage(round) => write!(f, "round {round}: not damage"),
            LineFault::TooLong(round) => write!(f, "round {round}: too long"),
            LineFault::Carrier => f.write_str("fault: device"),
            LineFault::Memory => f.write_str("fault: memory"),
        }
    }
}

impl fmt::Display for PlayFault {
    ghost output = { λ fault. Some (play_text fault) };

    fn fmt<W: fmt::Write>(&self, f: &mut fmt::Formatter<W>) -> fmt::Result {
        match *self {
            PlayFault::Script { line, why } => {
                if line == 0 {
                    write!(f, "script: {why}")
                } else {
                    write!(f, "line {line}: {why}")
                }
            }
            PlayFault::Line(fault) => {
                let words = RoundWords(fault);
                write!(f, "{words}")
            }
            PlayFault::Memory => f.write_str("fault: memory"),
        }
    }
}

impl Error for PlayFault {}

impl From<LineFault> for PlayFault {
    ghost use Rattle.ym_play.specs.PlayFault.{line_fault};
    ghost use Rattle.std.specs.Prelude.{◌≡◌};

    ghost from_gives = { λ fault e. e ≡ line_fault fault };

    fn from(fault: LineFault) -> PlayFault {
        match fault {
            LineFault::NotDamage(_) | LineFault::TooLong(_) | LineFault::Carrier => PlayFault::Line(
                fault,
            ),
            LineFault::Memory => PlayFault::Memory,
        }
    }
}

/// Why a line is not followed.
#[derive(Clone, Copy)]
pub(crate) enum Refusal {
    Why(ScriptWhy),
    Memory,
}

impl Refusal {
    /// The fault of the line with this number.
    pub(crate) fn at(self, line: u32) -> PlayFault
        ensures { result ≡ fault_at line self }
    {
        match self {
            Refusal::Why(why) => PlayFault::Script { line, why },
            Refusal::Memory => PlayFault::Memory,
        }
    }
}

impl From<ScriptWhy> for Refusal {
    ghost use Rattle.ym_play.specs.declared.fault.Refusal.TheVariants.{Why};
    ghost use Rattle.std.specs.Prelude.{◌≡◌};

    ghost from_gives = { λ why refusal. refusal ≡ Why why };

    fn from(why: ScriptWhy) -> Refusal {
        Refusal::Why(why)
    }
}

impl From<HeaderFault> for Refusal {
    ghost use Rattle.ym_play.specs.PlayFault.{refusal_of};
    ghost use Rattle.std.specs.Prelude.{◌≡◌};

    ghost from_gives = { λ fault refusal. refusal ≡ refusal_of fault };

    /// Want of memory, or a bad name: no script writes a file that is too large for a header.
    fn from(fault: HeaderFault) -> Refusal {
        match fault {
            HeaderFault::NameEmpty
            | HeaderFault::NameLong
            | HeaderFault::NameUnsafe
            | HeaderFault::NoLength
            | HeaderFault::LengthLarge => Refusal::Why(ScriptWhy::Name),
            HeaderFault::Memory => Refusal::Memory,
        }
    }
}

impl From<AllocError> for Refusal {
    ghost use Rattle.ym_play.specs.declared.fault.Refusal.TheVariants.{Memory};
    ghost use Rattle.std.specs.Prelude.{◌≡◌};

    ghost from_gives = { λ _ refusal. refusal ≡ Memory };

    fn from(_error: AllocError) -> Refusal {
        Refusal::Memory
    }
}

impl<T: Drop> From<AllocFailed<T>> for Refusal {
    ghost use Rattle.ym_play.specs.declared.fault.Refusal.TheVariants.{Memory};
    ghost use Rattle.std.specs.Prelude.{◌≡◌};

    ghost from_gives = { λ _ refusal. refusal ≡ Memory };

    fn from(_error: AllocFailed<T>) -> Refusal {
        Refusal::Memory
    }
}

impl From<AllocError> for PlayFault {
    ghost use Rattle.ym_play.specs.declared.fault.PlayFault.TheVariants.{Memory};
    ghost use Rattle.std.specs.Prelude.{◌≡◌};

    ghost from_gives = { λ _ e. e ≡ Memory };

    fn from(_error: AllocError) -> PlayFault {
        PlayFault::Memory
    }
}
