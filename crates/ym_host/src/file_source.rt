//! A source that reads a file of the system.

ghost use Rattle.std.specs.Prelude.{◌≡◌, None, IfOk};

use crate::file_id::{FileId, check_regular};
use crate::read_source::{Opens, ReadSource};
use std::alloc::Global;
use std::fs::{File, Files};
use std::io::{ErrorKind, Read};
use std::{fs, io};

/// The regular file that stood at a path when it was looked at, with the length that it had then.
#[derive(Drop)]
pub struct RegularFile<'p, R: Files<File = File> + Drop> {
    rt: R,
    path: &'p str,
    id: FileId,
    size: u64,
}

/// A source that reads a file of the system. Of that nobody knows the bytes.
pub type FileSource<'p, R> = ReadSource<RegularFile<'p, R>>;

/// Refuses a file that is said to have no bytes and gives one, as files of `/proc` do: nobody knows
/// how long it is. That is an error of this program's own.
fn check_empty<F: Read>(file: &mut F, size: u64) -> io::Result<()> {
    let is_as_told = size > 0 || file.read(&mut [0])? == 0;
    if is_as_told {
        Ok(())
    } else {
        Err(io::Error::from(ErrorKind::InvalidData))
    }
}

/// The regular file at this path, opened to be read, with what tells it from others and its length.
fn open_regular<R: Files<File = File>>(rt: &R, path: &str) -> io::Result<(File, FileId, u64)> {
    // Before it is opened: to open a pipe waits for a writer.
    check_regular(&fs::metadata(rt, path)?)?;
    let mut file = File::open(rt, path)?;
    let metadata = file.metadata()?;
    check_regular(&metadata)?;
    let size = metadata.len();
    check_empty(&mut file, size)?;
    Ok((file, FileId::of(&metadata), size))
}

impl<'p, R: Files<File = File> + Drop> Opens for RegularFile<'p, R> {
    type File = File;

    ghost size = { λ f. f.size };

    ghost bytes = { λ _. None };

    fn size(&self) -> u64 {
        self.size
    }

    /// Another file at its path, or another length, is refused: by errors that have no number, as
    /// no system gives them. A length that is another one counts as an end that is.
    fn open(&self) -> io::Result<File> {
        let (file, id, size) = open_regular(&self.rt, self.path)?;
        if id != self.id {
            return Err(io::Error::from(ErrorKind::StaleNetworkFileHandle));
        }
        if size != self.size {
            return Err(io::Error::from(ErrorKind::UnexpectedEof));
        }
        Ok(file)
    }
}

impl<'p, R: Files<File = File> + Drop> ReadSource<RegularFile<'p, R>> {
    /// The file at this path. It is opened to see that it can be read, and closed again; at its
    /// first block it is opened anew, and has to be the same file with the same length. What is no
    /// regular file, as a folder or a pipe, is refused, and what has bytes that its length hides.
    pub fn new(rt: R, alloc: Global, path: &'p str) -> io::Result<ReadSource<RegularFile<'p, R>>>
        ensures { IfOk result (λ source. source.failures ≡ 0) }
    {
        let (_, id, size) = open_regular(&rt, path)?;
        let file = RegularFile { rt, path, id, size };
        Ok(ReadSource::over(alloc, file))
    }
}
