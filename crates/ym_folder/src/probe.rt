//! The looks at a folder before files are stored there.

ghost use Rattle.std.specs.Prelude.{OnOk, codes};
ghost use Rattle.ym_folder.specs.Folder.{AllStay};
ghost use Rattle.ym_folder.specs.Part.{MayAdd};

use crate::folder::Folder;
use crate::place::FilePlace;
use std::alloc::Global;
use std::io;
use std::io::ErrorKind;

/// The name of an empty file that is made and removed again, to see that files can be made.
const PROBE: &str = ".ymodem.part";

/// Sees that files can be made in the folder at this path.
pub fn check_folder<D: Folder>(folder: &mut D, alloc: Global, dir: &str) -> io::Result<()>
    ensures nothing_left { OnOk result (AllStay (D.seen folder.old) (D.seen folder.new)) }
    ensures nothing_lost { MayAdd (codes ".ymodem.part") (D.seen folder.old) (D.seen folder.new) }
{
    let probe = FilePlace::new(alloc, dir, PROBE)?;
    match folder.create_new(&probe) {
        Ok(_) => folder.remove(&probe),
        // Another receiver is looking at this moment.
        Err(error) if error.kind() == ErrorKind::AlreadyExists => Ok(()),
        Err(error) => Err(error),
    }
}

/// Sees that the folder at this path can be forced out to the disk.
pub(crate) fn check_forced<D: Folder>(folder: &D, dir: &str) -> io::Result<()> {
    let itself = folder.open_itself(dir)?;
    folder.sync(&itself)
}
