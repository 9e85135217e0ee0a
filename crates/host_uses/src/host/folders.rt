//! Folders and files for the tests. Each test has a folder of its own below the folder for
//! temporary files, and removes it.

use std::alloc::{AllocError, Global};
use std::path::PathBuf;
use std::{env, fs, io, process};

/// A new folder of this name.
pub(super) fn folder(rt: &HostRuntime, name: &str) -> io::Result<PathBuf> {
    let id = process::id(rt.process());
    let name = format!(in rt.alloc(); "ym_host-{id}-{name}")?;
    let path = env::temp_dir(rt)?.join(rt.alloc(), name.as_str())?;
    fs::create_dir(rt, &path)?;
    Ok(path)
}

/// Whether a folder is removed, with all that is in it.
pub(super) fn is_removed(rt: &HostRuntime, dir: &PathBuf) -> bool {
    fs::remove_dir_all(rt, dir).is_ok()
}

/// Whether the file of this name in the folder holds these bytes, or is missing where none are
/// given.
pub(super) fn holds(rt: &HostRuntime, dir: &PathBuf, name: &str, want: Option<&[u8]>) -> bool {
    let Ok(path) = dir.join(rt.alloc(), name) else {
        return false;
    };
    match (fs::read(rt, &path), want) {
        (Ok(bytes), Some(want)) => bytes.as_slice() == want,
        (Err(error), None) => error.kind() == io::ErrorKind::NotFound,
        _ => false,
    }
}

/// So many bytes, counted on from 0.
pub(super) fn counted(alloc: Global, count: u32) -> Result<Vec<u8>, AllocError> {
    let mut all = Vec::new(alloc);
    for k in 0..count {
        all.push((k % 251) as u8)?;
    }
    Ok(all)
}

/// Whether two values are the same. It tells a proof nothing of them, and so costs it little, as
/// the other helpers of these tests.
pub(super) fn same<T: PartialEq>(left: &T, right: &T) -> bool {
    left == right
}
