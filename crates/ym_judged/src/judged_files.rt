//! The files that a receiver has stored which is tried.

use std::alloc::{AllocError, Global};
use std::fs::{File, Files};
use std::io::ErrorKind;
use std::{fs, io};
use ym_file::{Source, SourceFault};
use ym_host::FileSource;
use ym_judging::{Payload, content};
use ym_text::Reason;

/// What stands at this path cannot be looked at: nobody knows what the peer has stored.
#[derive(Drop)]
pub(crate) struct Unseen {
    pub(crate) path: String,
    /// Why not.
    pub(crate) why: Reason,
}

/// What a look at stored files says.
#[derive(Drop)]
pub(crate) enum Look {
    /// Each is there as it was sent.
    Exact,
    /// One is not there, or has other bytes.
    Lost,
    /// One cannot be looked at, or their folder.
    Hidden(Unseen),
}

/// What this error says of what stands at the path.
fn unseen_at(path: String, error: &io::Error) -> Result<Unseen, AllocError> {
    match error.kind() {
        ErrorKind::OutOfMemory => Err(AllocError),
        _ => Ok(Unseen {
            path,
            why: Reason::of(error),
        }),
    }
}

/// Fails where this is no folder, or where what stands in it cannot be looked at.
fn enter<R: Files>(rt: &R, alloc: Global, dir: &str) -> io::Result<()> {
    // An empty path is nowhere. With a slash behind it it would be the root.
    fs::metadata(rt, dir)?;
    let inside = format!(in alloc; "{dir}/.")?;
    fs::metadata(rt, inside.as_str())?;
    Ok(())
}

/// This folder, where files in it cannot be looked at.
pub(crate) fn unseen_folder<R: Files>(
    rt: &R,
    alloc: Global,
    dir: &str,
) -> Result<Option<Unseen>, AllocError> {
    match enter(rt, alloc, dir) {
        Ok(()) => Ok(None),
        Err(error) => Ok(Some(unseen_at(format!(in alloc; "{dir}")?, &error)?)),
    }
}

/// Whether the file at this path has these bytes, and no more.
fn has_bytes<R: Files<File = File>>(
    rt: &R,
    alloc: Global,
    path: &str,
    wanted: &[u8],
) -> io::Result<bool> {
    let mut source = FileSource::new(rt, alloc, path)?;
    if source.length() != wanted.len() as u64 {
        return Ok(false);
    }
    let mut found = Vec::from_slice(alloc, wanted)?;
    match source.fill(0, found.as_mut_slice()) {
        Ok(()) => Ok(found.as_slice() == wanted),
        Err(SourceFault) => Err(io::Error::from(ErrorKind::Other)),
    }
}

/// What the look at one file in this folder says.
fn look_at<R: Files<File = File>>(
    rt: &R,
    alloc: Global,
    dir: &str,
    sent: &Payload,
) -> Result<Look, AllocError> {
    let name = sent.name;
    let path = format!(in alloc; "{dir}/{name}")?;
    let wanted = content(alloc, sent.length)?;
    match has_bytes(rt, alloc, path.as_str(), wanted.as_slice()) {
        Ok(true) => Ok(Look::Exact),
        Ok(false) => Ok(Look::Lost),
        // It is lost where its folder is there.
        Err(error) if error.kind() == ErrorKind::NotFound => {
            match unseen_folder(rt, alloc, dir)? {
                Some(folder) => Ok(Look::Hidden(folder)),
                None => Ok(Look::Lost),
            }
        }
        Err(error) => Ok(Look::Hidden(unseen_at(path, &error)?)),
    }
}

/// Looks whether the first so many of these files are stored in this folder as they were sent.
pub(crate) fn look_at_all<R: Files<File = File>>(
    rt: &R,
    alloc: Global,
    dir: &str,
    sent: &[Payload],
    told: usize,
) -> Result<Look, AllocError> {
    for file in &sent[..told.min(sent.len())] {
        match look_at(rt, alloc, dir, file)? {
            Look::Exact => {}
            look => return Ok(look),
        }
    }
    Ok(Look::Exact)
}
