//! What is told of files.

use crate::reason::Reason;
use crate::shown::Shown;
use std::fmt;
use ym_header::HeaderFault;

/// Why a file is not sent or not stored, and what was removed for one. Its `Display` is the line
/// that tells it, without its end; names in it are made safe for a terminal.
#[derive(Clone, Copy)]
pub enum FileMessage<'a> {
    /// The file at this path cannot be opened.
    CannotOpen(&'a str, Reason),
    /// The name or the length of the file at this path cannot stand in block 0.
    CannotSend(&'a str, HeaderFault),
    /// The file at this path could not be read while it was sent.
    CannotRead(&'a str, Reason),
    /// The files at these two paths are sent under one name, the third text.
    SameName(&'a str, &'a str, &'a str),
    /// The sender gave this name, which is not safe.
    NameIsUnsafe(&'a str),
    /// Nothing can be stored in the folder at this path.
    CannotStoreIn(&'a str, Reason),
    /// A file of this name is there already.
    IsThere(&'a str),
    /// The part of this name would have the same name.
    IsOwnPart(&'a str),
    /// This name has a part, the second text, that an earlier run left, or that another receiver
    /// writes.
    PartIsLeft(&'a str, &'a str),
    /// This name has a part, the second text, that may not be removed, or may be a file that the
    /// same batch has brought.
    PartIsInUse(&'a str, &'a str),
    /// The part of this name, which an earlier run left, was removed for a file.
    PartIsReplaced(&'a str),
    /// The part of this name, the second text, was moved away or replaced while it was written.
    PartIsGone(&'a str, &'a str),
    /// The file of this name could not be stored.
    CannotStore(&'a str, Reason),
}

/// Why a file cannot be sent.
fn write_refused<W: fmt::Write>(
    f: &mut fmt::Formatter<W>,
    path: &str,
    fault: HeaderFault,
) -> fmt::Result {
    let path = Shown(path);
    write!(f, "cannot send '{path}': {fault}")
}

/// Why a file was not sent whole.
fn write_unread<W: fmt::Write>(f: &mut fmt::Formatter<W>, path: &str, why: Reason) -> fmt::Result {
    let path = Shown(path);
    write!(f, "cannot read '{path}': {why}")
}

/// That two files are sent under one name.
fn write_same<W: fmt::Write>(
    f: &mut fmt::Formatter<W>,
    first: &str,
    second: &str,
    name: &str,
) -> fmt::Result {
    let first = Shown(first);
    let second = Shown(second);
    let name = Shown(name);
    write!(
        f,
        "'{first}' and '{second}' are both sent as '{name}': a receiver keeps one, or refuses the \
        second"
    )
}

/// Why a name is not taken.
fn write_unsafe<W: fmt::Write>(f: &mut fmt::Formatter<W>, name: &str) -> fmt::Result {
    let name = Shown(name);
    write!(
        f,
        "the sender gave the unsafe name '{name}': a path, or with control characters"
    )
}

impl fmt::Display for FileMessage<'_> {
    fn fmt<W: fmt::Write>(&self, f: &mut fmt::Formatter<W>) -> fmt::Result {
        match *self {
            FileMessage::CannotOpen(path, why) => {
                let path = Shown(path);
                write!(f, "cannot open '{path}': {why}")
            }
            FileMessage::CannotSend(path, fault) => write_refused(f, path, fault),
            FileMessage::CannotRead(path, why) => write_unread(f, path, why),
            FileMessage::SameName(first, second, name) => write_same(f, first, second, name),
            FileMessage::NameIsUnsafe(name) => write_unsafe(f, name),
            FileMessage::CannotStoreIn(path, why) => {
                let path = Shown(path);
                write!(f, "cannot store in '{path}': {why}")
            }
            FileMessage::IsThere(name) => {
                let name = Shown(name);
                write!(
                    f,
                    "cannot store '{name}': it is there already; move it away first"
                )
            }
            FileMessage::IsOwnPart(name) => {
                let name = Shown(name);
                write!(
                    f,
                    "cannot store '{name}': its part would have the same name; send it under a \
                    shorter one"
                )
            }
            FileMessage::PartIsLeft(name, part) => {
                let name = Shown(name);
                let part = Shown(part);
                write!(
                    f,
                    "cannot store '{name}': '{part}' is there; wait for the receiver that \
                    writes it, or use --discard-parts where an earlier run left it"
                )
            }
            FileMessage::PartIsInUse(name, part) => {
                let name = Shown(name);
                let part = Shown(part);
                write!(
                    f,
                    "cannot store '{name}': '{part}' is in use by another program, may not be \
                    read, is no regular file, or may be a file of this batch; wait for that \
                    program, or move it away"
                )
            }
            FileMessage::PartIsReplaced(part) => {
                let part = Shown(part);
                write!(f, "'{part}', left from an earlier run, was replaced")
            }
            FileMessage::PartIsGone(name, part) => {
                let name = Shown(name);
                let part = Shown(part);
                write!(
                    f,
                    "cannot store '{name}': '{part}' was changed by another program"
                )
            }
            FileMessage::CannotStore(name, why) => {
                let name = Shown(name);
                write!(f, "cannot store '{name}': {why}")
            }
        }
    }
}
