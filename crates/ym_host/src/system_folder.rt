//! A folder of the system.

ghost use Rattle.std.specs.Prelude.{None};

use crate::file_id::stands_at;
use std::fs::{File, Files};
use std::io::{ErrorKind, Write};
use std::{fs, io};
use ym_folder::{FilePlace, Folder};

/// The folders of the system. Nobody knows what stands in them.
#[derive(Drop)]
pub struct SystemFolder<R: Files<File = File> + Drop> {
    rt: R,
}

impl<R: Files<File = File> + Drop> SystemFolder<R> {
    /// The folders that these files stand in.
    pub fn new(rt: R) -> SystemFolder<R> {
        SystemFolder { rt }
    }
}

impl<R: Files<File = File> + Drop> Folder for SystemFolder<R> {
    type File = File;

    ghost seen = { λ _. None };

    ghost is_of = { λ _ _. Unit {0} };

    fn is_regular(&self, at: &FilePlace) -> io::Result<bool> {
        Ok(fs::symlink_metadata(&self.rt, at.path())?.is_file())
    }

    fn open(&self, at: &FilePlace) -> io::Result<File> {
        let opened = File::options()
            .read(true)
            .write(true)
            .open(&self.rt, at.path());
        match opened {
            // Most file systems lock what can only be read as well.
            Err(error) if error.kind() == ErrorKind::PermissionDenied => {
                File::open(&self.rt, at.path())
            }
            _ => opened,
        }
    }

    fn open_itself(&self, dir: &str) -> io::Result<File> {
        // An empty path is the folder that the program runs in.
        File::open(&self.rt, if dir.is_empty() { "." } else { dir })
    }

    fn lock(&self, file: &File) -> io::Result<()> {
        file.try_lock()?;
        Ok(())
    }

    fn stands_at(&self, file: &File, at: &FilePlace) -> bool {
        stands_at(&self.rt, file, at.path())
    }

    fn sync(&self, file: &File) -> io::Result<()> {
        file.sync_all()
    }

    #[tactic(auto, unfolding(ym_folder::specs::Folder::folder_words))]
    fn create_new(&mut self, at: &FilePlace) -> io::Result<File> {
        File::create_new(&self.rt, at.path())
    }

    #[tactic(auto, unfolding(ym_folder::specs::Folder::folder_words))]
    fn append(&mut self, file: &mut File, _at: &FilePlace, bytes: &[u8]) -> io::Result<()> {
        file.write_all(bytes)
    }

    #[tactic(auto, unfolding(ym_folder::specs::Folder::folder_words))]
    fn link(&mut self, from: &FilePlace, to: &FilePlace) -> io::Result<()> {
        fs::hard_link(&self.rt, from.path(), to.path())
    }

    #[tactic(auto, unfolding(ym_folder::specs::Folder::folder_words))]
    fn rename(&mut self, from: &FilePlace, to: &FilePlace) -> io::Result<()> {
        fs::rename(&self.rt, from.path(), to.path())
    }

    #[tactic(auto, unfolding(ym_folder::specs::Folder::folder_words))]
    fn remove(&mut self, at: &FilePlace) -> io::Result<()> {
        fs::remove_file(&self.rt, at.path())
    }
}
