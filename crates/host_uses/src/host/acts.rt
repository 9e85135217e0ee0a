//! What is done in a folder, and looked at there.

use super::folders::{holds, is_removed};
use super::steps::comes_to_other;
use std::alloc::AllocError;
use std::os::unix::fs::symlink;
use std::path::PathBuf;
use std::{fs, io};

/// Something that is done, or has to hold, in a folder.
#[derive(Clone, Copy)]
pub(super) enum Act<'a> {
    /// The file of this name holds these bytes.
    Holds(&'a str, &'a [u8]),
    /// Nothing has this name.
    Lacks(&'a str),
    /// This text is written to a file of this name.
    Writes(&'a str, &'a str),
    /// The file of this name is removed.
    Removes(&'a str),
    /// The file of the first name gets the second one, and the first leads there.
    Replaces(&'a str, &'a str),
    /// A folder of this name is made.
    MakesFolder(&'a str),
    /// The folder itself is removed, with all that is in it.
    RemovesAll,
    /// The folder itself is made again.
    MakesAll,
    /// What has this name is a folder.
    IsFolder(&'a str),
    /// What has this name leads elsewhere.
    IsLink(&'a str),
    /// Another sink in the folder begins no file of this name.
    OtherRefuses(&'a str),
    /// Another sink in the folder stores this file.
    OtherStores(&'a str, &'a [u8]),
}

/// The path of this name in the folder.
pub(super) fn path_of(rt: &HostRuntime, dir: &PathBuf, name: &str) -> Result<PathBuf, AllocError> {
    dir.join(rt.alloc(), name)
}

/// Whether a link to the file of the second name comes in the place of the first, which gets that
/// name.
fn replaces(rt: &HostRuntime, dir: &PathBuf, name: &str, other: &str) -> bool {
    match (path_of(rt, dir, name), path_of(rt, dir, other)) {
        (Ok(path), Ok(other)) => {
            fs::rename(rt, &path, &other).is_ok()
                && symlink(rt, other.as_str(), path.as_str()).is_ok()
        }
        _ => false,
    }
}

/// Something that is done with a path.
#[derive(Clone, Copy)]
enum Deed<'a> {
    /// This text is written to a file there.
    Write(&'a str),
    /// The file there is removed.
    Remove,
    /// A folder is made there.
    MakeFolder,
}

/// Whether this can be done with a path.
fn is_done(rt: &HostRuntime, path: &PathBuf, deed: Deed<'_>) -> bool {
    match deed {
        Deed::Write(text) => fs::write(rt, path, text).is_ok(),
        Deed::Remove => fs::remove_file(rt, path).is_ok(),
        Deed::MakeFolder => fs::create_dir(rt, path).is_ok(),
    }
}

/// The same, with the path of this name.
fn is_done_at(rt: &HostRuntime, dir: &PathBuf, name: &str, deed: Deed<'_>) -> bool {
    match path_of(rt, dir, name) {
        Ok(path) => is_done(rt, &path, deed),
        Err(_) => false,
    }
}

/// Whether what has this name is a folder, and whether it is a link.
fn kind_of(rt: &HostRuntime, dir: &PathBuf, name: &str) -> io::Result<(bool, bool)> {
    let metadata = fs::symlink_metadata(rt, &path_of(rt, dir, name)?)?;
    Ok((metadata.is_dir(), metadata.is_symlink()))
}

/// Whether what has this name is a folder, or no folder, and a link, or none.
fn has_kind(rt: &HostRuntime, dir: &PathBuf, name: &str, want: (bool, bool)) -> bool {
    match kind_of(rt, dir, name) {
        Ok(kind) => kind == want,
        Err(_) => false,
    }
}

/// Does this, and tells whether it holds.
fn acts(rt: &HostRuntime, dir: &PathBuf, act: &Act<'_>) -> bool {
    match *act {
        Act::Holds(name, bytes) => holds(rt, dir, name, Some(bytes)),
        Act::Lacks(name) => holds(rt, dir, name, None),
        Act::IsFolder(name) => has_kind(rt, dir, name, (true, false)),
        Act::IsLink(name) => has_kind(rt, dir, name, (false, true)),
        Act::OtherRefuses(name) => comes_to_other(rt, dir, name, None),
        Act::OtherStores(name, bytes) => comes_to_other(rt, dir, name, Some(bytes)),
        Act::Writes(name, text) => is_done_at(rt, dir, name, Deed::Write(text)),
        Act::Removes(name) => is_done_at(rt, dir, name, Deed::Remove),
        Act::Replaces(name, other) => replaces(rt, dir, name, other),
        Act::MakesFolder(name) => is_done_at(rt, dir, name, Deed::MakeFolder),
        Act::RemovesAll => is_removed(rt, dir),
        Act::MakesAll => fs::create_dir(rt, dir).is_ok(),
    }
}

/// Does these in turn, as long as they hold.
pub(super) fn all_hold(rt: &HostRuntime, dir: &PathBuf, all: &[Act<'_>]) -> bool {
    for act in all {
        if !acts(rt, dir, act) {
            return false;
        }
    }
    true
}
