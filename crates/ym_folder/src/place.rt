//! Where a file stands.

ghost use Rattle.std.specs.Prelude.{◌≡◌, IfOk, string_bytes};
ghost use Rattle.std.specs.Path.{path_join, path_buf_bytes};
ghost use Rattle.ym_folder.specs.FilePlace.{name_of};

use std::alloc::{AllocError, Global};
use std::path::{Path, PathBuf};

/// Where a file stands: its name, and the path of that in a folder.
#[derive(Drop)]
pub struct FilePlace {
    name: String,
    path: PathBuf,
}

impl FilePlace {
    /// The place of this name in the folder at this path.
    pub fn new(alloc: Global, dir: &str, name: &str) -> Result<FilePlace, AllocError>
        ensures name { IfOk result (λ place. name_of place ≡ name.now) }
        ensures path { IfOk result (λ place.
            path_buf_bytes place.path ≡ path_join dir.now name.now) }
    {
        let path = Path::new(dir).join(alloc, name)?;
        let name = String::from_str(alloc, name)?;
        Ok(FilePlace { name, path })
    }

    /// Its name.
    pub fn name(&self) -> &str
        ensures { result.now ≡ name_of self.now }
    {
        self.name.as_str()
    }

    /// Its path.
    pub fn path(&self) -> &PathBuf
        ensures { result.now ≡ self.now.path }
    {
        &self.path
    }
}
