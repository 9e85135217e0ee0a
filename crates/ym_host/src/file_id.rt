//! Which file of the system a path or an open file is.

use std::fs::{File, Files, Metadata};
use std::io::ErrorKind;
use std::os::unix::fs::MetadataExt;
use std::path::AsPath;
use std::{fs, io};

/// Which file of the system it is: the same device and the same inode mean the same file, under
/// whatever names.
#[derive(Clone, Copy, PartialEq, Eq)]
pub(crate) struct FileId {
    device: u64,
    inode: u64,
}

impl FileId {
    /// The file that this was told of.
    pub(crate) fn of(metadata: &Metadata) -> FileId {
        FileId {
            device: metadata.dev(),
            inode: metadata.ino(),
        }
    }
}

/// Whether this open file is what stands at the path. A link there is a file of its own, wherever
/// it leads. What cannot be told counts as another file.
pub(crate) fn stands_at<R: Files, P: AsPath>(rt: &R, file: &File, path: P) -> bool {
    match (file.metadata(), fs::symlink_metadata(rt, path)) {
        (Ok(opened), Ok(there)) => FileId::of(&opened) == FileId::of(&there),
        _ => false,
    }
}

/// Refuses what is no regular file: a folder has no bytes, and a pipe no length.
pub(crate) fn check_regular(metadata: &Metadata) -> io::Result<()> {
    if metadata.is_file() {
        Ok(())
    } else {
        Err(io::Error::from(ErrorKind::InvalidInput))
    }
}
