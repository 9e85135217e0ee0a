//! How the file of a record is opened.

ghost use Rattle.std.specs.Prelude.{◌≡◌, Some, Err};
ghost use Rattle.ym_record.specs.RecordNames.{is_part_path, is_received, misnamed};

use std::fs::{File, Files, Metadata, TryLockError};
use std::io::ErrorKind;
use std::os::unix::fs::{FileTypeExt, MetadataExt};
use std::{fs, io};

/// What is no name of a record.
const DASH: &str = "-";

/// What the name of a file ends in while it is received.
const PART_ENDING: &str = ".part";

/// The files that are sent or received while a record is made.
#[derive(Clone, Copy)]
pub enum Beside<'a> {
    /// Those that are sent are at these paths.
    Sent(&'a [&'a str]),
    /// Those that are received have names that a peer chooses. Until one is whole it is a part,
    /// and a part that was left may be removed.
    Received,
}

/// What becomes of a file that is at the path of a record.
#[derive(Clone, Copy)]
pub enum WhatIsThere<'a> {
    /// It becomes the record, unless it is one of these files.
    Goes(Beside<'a>),
    /// It stays, and there is no record: it may have been received meanwhile.
    Stays,
}

/// Why no record is made.
#[derive(Clone, Copy)]
pub enum RecordRefusal {
    /// Its path is `-`, which is no file.
    Dash,
    /// At its path is one of the files that are sent.
    IsSent,
    /// It has the name of a part of a file that is received.
    IsPart,
    /// At its path is a file that stays.
    IsThere,
    /// Another program holds the file there, as one that records does.
    InUse,
    /// The system refused a call.
    System(io::Error),
}

impl From<io::Error> for RecordRefusal {
    ghost use Rattle.std.specs.Prelude.{◌≡◌};
    ghost use Rattle.ym_record.specs.declared.opening.RecordRefusal.TheVariants.{System};

    ghost from_gives = { λ error refusal. refusal ≡ System error };

    fn from(error: io::Error) -> RecordRefusal {
        RecordRefusal::System(error)
    }
}

/// Whether both are told of one file, under whatever names.
fn is_same(one: &Metadata, other: &Metadata) -> bool {
    one.dev() == other.dev() && one.ino() == other.ino()
}

/// Whether what this was told of is at one of these paths.
fn is_among<R: Files>(rt: &R, file: &Metadata, paths: &[&str]) -> bool {
    for path in paths {
        if let Ok(other) = fs::metadata(rt, *path) {
            if is_same(file, &other) {
                return true;
            }
        }
    }
    false
}

/// Holds a file against every other program that does so too.
fn hold(file: &File) -> Result<(), RecordRefusal> {
    match file.try_lock() {
        Err(TryLockError::WouldBlock) => Err(RecordRefusal::InUse),
        // Where the system cannot lock it, it is as free as can be told.
        Ok(()) | Err(TryLockError::Error(_)) => Ok(()),
    }
}

/// Refuses what is no file, and no device that takes what comes, as a terminal or `/dev/null`. A
/// pipe is opened when somebody reads it, and one whose reader stops would stop the line too. A
/// disk would lose what it has.
fn check_kind(metadata: &Metadata) -> io::Result<()> {
    if metadata.is_file() || metadata.file_type().is_char_device() {
        Ok(())
    } else {
        Err(io::Error::from(ErrorKind::InvalidInput))
    }
}

/// Opens what is at this path, or a new file, and holds it, unless it is among those that are sent
/// or in use. It keeps what it has, until the line is there.
fn open_over<R: Files<File = File>>(
    rt: &R,
    path: &str,
    sent: &[&str],
) -> Result<File, RecordRefusal> {
    // Before it is opened: to open a pipe waits for a reader.
    if let Ok(there) = fs::metadata(rt, path) {
        check_kind(&there)?;
    }
    let file = File::options().write(true).create(true).open(rt, path)?;
    let metadata = file.metadata()?;
    check_kind(&metadata)?;
    if is_among(rt, &metadata, sent) {
        return Err(RecordRefusal::IsSent);
    }
    hold(&file)?;
    Ok(file)
}

/// Makes the file at this path, where there is none, and holds it.
fn open_new<R: Files<File = File>>(rt: &R, path: &str) -> Result<File, RecordRefusal> {
    match File::create_new(rt, path) {
        Ok(file) => {
            hold(&file)?;
            Ok(file)
        }
        Err(error) if error.kind() == ErrorKind::AlreadyExists => Err(RecordRefusal::IsThere),
        Err(error) => Err(RecordRefusal::System(error)),
    }
}

/// Whether a path ends as the name of a part does.
fn is_part_path(path: &str) -> bool
    ensures { result ≡ is_part_path path.now }
{
    path.as_bytes().ends_with(PART_ENDING.as_bytes())
}

impl WhatIsThere<'_> {
    /// Whether files are received, of which one may come to be at the path.
    fn is_received(&self) -> bool
        ensures { result ≡ is_received self.now }
    {
        match self {
            WhatIsThere::Goes(Beside::Received) => true,
            WhatIsThere::Goes(Beside::Sent(_)) | WhatIsThere::Stays => false,
        }
    }
}

/// Why a path names no record, whatever is there.
fn misnamed(path: &str, is_received: bool) -> Option<RecordRefusal>
    ensures { result ≡ misnamed path.now is_received }
{
    if path == DASH {
        return Some(RecordRefusal::Dash);
    }
    if is_received && is_part_path(path) {
        return Some(RecordRefusal::IsPart);
    }
    None
}

/// Opens the file at this path for a record, and holds it. `-` names no file, and beside files that
/// are received none that is named as their parts are is made.
pub fn open_record<R: Files<File = File>>(
    rt: &R,
    path: &str,
    there: WhatIsThere<'_>,
) -> Result<File, RecordRefusal>
    ensures { (why : RecordRefusal) → misnamed path.now (is_received there.entry) ≡ Some why
        → result ≡ Err why }
{
    if let Some(why) = misnamed(path, there.is_received()) {
        return Err(why);
    }
    match there {
        WhatIsThere::Goes(Beside::Sent(sent)) => open_over(rt, path, sent),
        WhatIsThere::Goes(Beside::Received) => open_over(rt, path, &[]),
        WhatIsThere::Stays => open_new(rt, path),
    }
}
