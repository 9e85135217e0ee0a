//! What a sink asks of a folder, and what that answers.

ghost use Rattle.std.specs.Prelude.{◌≡◌, ℕ, List, Option, true, false, OnOk, OnErr, IfOk, IfErr};
ghost use Rattle.ym_folder.specs.Folder.{FolderParts, AllStay, Made, Grown, GrownByPrefix};
ghost use Rattle.ym_folder.specs.Folder.{Linked, Renamed, Removed, TellsNoLinks};
ghost use Rattle.ym_folder.specs.Folder.{has_links, has_refused};
ghost use Rattle.ym_folder.specs.FilePlace.{name_of};

use crate::place::FilePlace;
use std::io;

/// A folder of files, as a system has it. What a look at it tells may be out of date when it is
/// told, so nothing is promised of that. Only calls that change the folder say what they do.
pub trait Folder {
    /// A file of it that is open.
    type File: Drop;

    /// What stands in it, where that is known: of a folder of a system nobody knows.
    ghost seen: { Self → Option FolderParts };

    /// The file was made, or opened, under this name.
    ghost is_of: { Self.File → List ℕ → Type 0 };

    /// Whether what stands at this place is a regular file. A link there is none.
    fn is_regular(&self, at: &FilePlace) -> io::Result<bool>;

    /// Opens what stands at this place, to be locked.
    fn open(&self, at: &FilePlace) -> io::Result<Self::File>
        ensures { IfOk result (λ file. is_of file (name_of at.now)) };

    /// Opens the folder itself, which is at this path, to be forced out to the disk.
    fn open_itself(&self, dir: &str) -> io::Result<Self::File>;

    /// Locks a file, against everybody else who does, for as long as it is open.
    fn lock(&self, file: &Self::File) -> io::Result<()>;

    /// Whether this file is what stands at the place. What cannot be told counts as another file.
    fn stands_at(&self, file: &Self::File, at: &FilePlace) -> bool;

    /// Forces out to the disk what was written into a file, or what was done in the folder.
    fn sync(&self, file: &Self::File) -> io::Result<()>;

    /// Makes a file of no bytes, where nothing stands at the place.
    fn create_new(&mut self, at: &FilePlace) -> io::Result<Self::File>
        ensures of { IfOk result (λ file. is_of file (name_of at.now)) }
        ensures made { OnOk result (Made (name_of at.now) (seen self.old) (seen self.new)) }
        ensures refused { OnErr result (AllStay (seen self.old) (seen self.new)) }
        ensures calm { has_refused (seen self.new) ≡ has_refused (seen self.old) };

    /// Puts bytes behind those of a file that was made at this place. Where that fails a front of
    /// them may have been put.
    fn append(&mut self, file: &mut Self::File, at: &FilePlace, bytes: &[u8]) -> io::Result<()>
        requires { is_of file.old (name_of at.now) }
        ensures of { is_of file.new (name_of at.now) }
        ensures grown { OnOk result
            (Grown (name_of at.now) bytes.now (seen self.old) (seen self.new)) }
        ensures prefix { OnErr result
            (GrownByPrefix (name_of at.now) bytes.now (seen self.old) (seen self.new)) }
        ensures calm { has_refused (seen self.new) ≡ has_refused (seen self.old) };

    /// Gives a file one more name, where nothing stands there.
    fn link(&mut self, from: &FilePlace, to: &FilePlace) -> io::Result<()>
        ensures linked { OnOk result
            (Linked (name_of from.now) (name_of to.now) (seen self.old) (seen self.new)) }
        ensures refused { OnErr result (AllStay (seen self.old) (seen self.new)) }
        ensures none { IfErr result (λ error. TellsNoLinks error →
            has_links (seen self.old) ≡ false) }
        ensures calm { has_refused (seen self.new) ≡ has_refused (seen self.old) };

    /// Gives a file another name in place of its own, whatever stands there.
    fn rename(&mut self, from: &FilePlace, to: &FilePlace) -> io::Result<()>
        ensures renamed { OnOk result
            (Renamed (name_of from.now) (name_of to.now) (seen self.old) (seen self.new)) }
        ensures refused { OnErr result (AllStay (seen self.old) (seen self.new)) }
        ensures calm { has_refused (seen self.new) ≡ has_refused (seen self.old) };

    /// Takes a name away.
    fn remove(&mut self, at: &FilePlace) -> io::Result<()>
        ensures removed { OnOk result (Removed (name_of at.now) (seen self.old) (seen self.new)) }
        ensures calm { OnOk result
            (has_refused (seen self.new) ≡ has_refused (seen self.old)) }
        ensures kept { OnErr result (AllStay (seen self.old) (seen self.new)) }
        ensures refused { OnErr result (has_refused (seen self.new) ≡ true) };
}
