//! Bytes that wait to be written, many at a time.

ghost use Rattle.std.specs.Prelude.{◌≡◌, ◌++◌, [], OnOk, OnErr, IfOk};
ghost use Rattle.std.specs.Io.KnownBytes.{append_known};
ghost use Rattle.ym_folder.specs.Folder.{OthersStay, under};
ghost use Rattle.ym_folder.specs.FilePlace.{name_of};
ghost use Rattle.ym_folder.specs.WriteBehind.{put_so_far, GrowsByPrefix};

use crate::folder::Folder;
use crate::place::FilePlace;
use std::alloc::{AllocError, Global};
use std::io;
use std::marker::Model;

/// How many bytes are written at a time.
const BEHIND: usize = 65536;

/// Bytes that wait until enough of them have come to be written at once.
#[derive(Drop)]
pub(crate) struct WriteBehind {
    waiting: Vec<u8>,
}

impl Model for WriteBehind {
    ghost use Rattle.std.specs.Prelude.{ℕ, List};

    ghost Value = { List ℕ };

    ghost view = { λ w. w.waiting.items };
}

/// Puts bytes behind those of a file at this place.
fn append<D: Folder>(
    folder: &mut D,
    file: &mut D::File,
    at: &FilePlace,
    bytes: &[u8],
) -> io::Result<()>
    requires { D.is_of file.old (name_of at.now) }
    ensures of { D.is_of file.new (name_of at.now) }
    ensures others { OthersStay (name_of at.now) (D.seen folder.old) (D.seen folder.new) }
    ensures all { OnOk result (under (D.seen folder.new) (name_of at.now)
        ≡ append_known (under (D.seen folder.old) (name_of at.now)) bytes.now) }
    ensures prefix { OnErr result (GrowsByPrefix (under (D.seen folder.old) (name_of at.now))
        (under (D.seen folder.new) (name_of at.now)) bytes.now) }
{
    folder.append(file, at, bytes)
}

impl WriteBehind {
    /// None wait. The memory for all that will ever wait is taken here.
    pub(crate) fn new(alloc: Global) -> Result<WriteBehind, AllocError>
        ensures { IfOk result (λ w. w ≡ []) }
    {
        Ok(WriteBehind {
            waiting: Vec::with_capacity(alloc, BEHIND)?,
        })
    }

    /// Forgets the bytes that wait.
    pub(crate) fn clear(&mut self)
        ensures { self.new ≡ [] }
    {
        self.waiting.clear();
    }

    /// Writes the bytes that wait. Where that fails a front of them may have been written.
    pub(crate) fn flush<D: Folder>(
        &mut self,
        folder: &mut D,
        file: &mut D::File,
        at: &FilePlace,
    ) -> io::Result<()>
        requires { D.is_of file.old (name_of at.now) }
        ensures of { D.is_of file.new (name_of at.now) }
        ensures others { OthersStay (name_of at.now) (D.seen folder.old) (D.seen folder.new) }
        ensures written { OnOk result (under (D.seen folder.new) (name_of at.now)
            ≡ put_so_far (under (D.seen folder.old) (name_of at.now)) self.old) }
        ensures none_wait { OnOk result (self.new ≡ []) }
        ensures prefix { OnErr result (GrowsByPrefix (under (D.seen folder.old) (name_of at.now))
            (under (D.seen folder.new) (name_of at.now)) self.old) }
    {
        append(folder, file, at, self.waiting.as_slice())?;
        self.waiting.clear();
        Ok(())
    }

    /// Puts bytes behind those that wait. Where there is no room for them, those that wait are
    /// written first. Where that fails a front of all of them may have been written.
    pub(crate) fn put<D: Folder>(
        &mut self,
        folder: &mut D,
        file: &mut D::File,
        at: &FilePlace,
        bytes: &[u8],
    ) -> io::Result<()>
        requires { D.is_of file.old (name_of at.now) }
        ensures of { D.is_of file.new (name_of at.now) }
        ensures others { OthersStay (name_of at.now) (D.seen folder.old) (D.seen folder.new) }
        ensures all { OnOk result (put_so_far (under (D.seen folder.new) (name_of at.now)) self.new
            ≡ append_known (put_so_far (under (D.seen folder.old) (name_of at.now)) self.old)
            bytes.now) }
        ensures prefix { OnErr result (GrowsByPrefix (under (D.seen folder.old) (name_of at.now))
            (under (D.seen folder.new) (name_of at.now)) (self.old ++ bytes.now)) }
    {
        if bytes.len() <= BEHIND.saturating_sub(self.waiting.len()) {
            self.waiting.extend_from_slice(bytes)?;
            return Ok(());
        }
        self.flush(folder, file, at)?;
        if bytes.len() > BEHIND {
            return append(folder, file, at, bytes);
        }
        self.waiting.extend_from_slice(bytes)?;
        Ok(())
    }
}
