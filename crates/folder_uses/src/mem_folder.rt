//! A folder in memory.

ghost use Rattle.std.specs.Prelude.{◌≡◌, ◌≤◌, [], Some, None, false, not, vec_len, vec_capacity, IfOk, OnOk, OnErr, option_map, string_bytes};
ghost use Rattle.std.specs.Str.{bytes_eq};
ghost use Rattle.std.specs.IoError.{raw_os_error};
ghost use Rattle.ym_folder.specs.FilePlace.{name_of};
ghost use Rattle.ym_folder.specs.Folder.{bytes_in, entry};
ghost use Rattle.folder_uses.specs.MemFolder.{without, with_file, Adds, Copies};

use std::alloc::{AllocError, Global};
use std::io;
use std::io::ErrorKind;
use std::marker::Model;
use ym_folder::{FilePlace, Folder};

/// A file in memory.
#[derive(Drop)]
pub struct MemFile {
    name: String,
    bytes: Vec<u8>,
}

impl Model for MemFile {
    ghost use Rattle.std.specs.Prelude.{string_bytes};
    ghost use Rattle.ym_folder.specs.Folder.{Entry, entry};

    ghost Value = { Entry };

    ghost view = { λ f. entry (string_bytes f.name) f.bytes.items };
}

impl MemFile {
    /// A file of this name with these bytes.
    fn new(alloc: Global, name: &str, bytes: &[u8]) -> Result<MemFile, AllocError>
        ensures { IfOk result (λ file. file ≡ entry name.now bytes.now) }
    {
        let name = String::from_str(alloc, name)?;
        let bytes = bytes.to_vec(alloc)?;
        Ok(MemFile { name, bytes })
    }

    /// Its name.
    pub fn name(&self) -> &str
        ensures { result.now ≡ self.now.name }
    {
        self.name.as_str()
    }

    /// Its bytes.
    pub fn bytes(&self) -> &[u8]
        ensures { result.now ≡ self.now.bytes }
    {
        self.bytes.as_slice()
    }
}

/// A file of a folder in memory that is open. It is found by its name.
#[derive(Drop)]
pub struct MemOpen {
    name: String,
}

/// A folder in memory. One change of it may fail.
#[derive(Drop)]
pub struct MemFolder {
    alloc: Global,
    files: Vec<MemFile>,
    links: bool,
    refused: bool,
    /// The number of the change that is to fail, counted from the next one on; 0 for none.
    failing: u64,
}

/// The bytes of the file of this name, where it is there.
fn bytes_of<'a>(files: &'a [MemFile], name: &str) -> Option<&'a [u8]>
    ensures { option_map (λ bytes. bytes.now) result ≡ bytes_in files.now name.now }
{
    match files {
        [] => None,
        [file, more @ ..] => {
            if file.name() == name {
                Some(file.bytes())
            } else {
                bytes_of(more, name)
            }
        }
    }
}

/// Whether a file has another name.
fn has_other_name(file: &MemFile, at: &FilePlace) -> bool
    ensures { result ≡ not (bytes_eq file.now.name (name_of at.now)) }
{
    file.name() != at.name()
}

/// Takes a name away.
fn remove_name(files: &mut Vec<MemFile>, at: &FilePlace)
    ensures removed { files.new.items ≡ without (name_of at.now) files.old.items }
    ensures room { vec_len files.new ≤ vec_len files.old }
    ensures capacity { vec_capacity files.new ≡ vec_capacity files.old }
{
    files.retain(|file| has_other_name(file, at));
}

/// Puts a file there in place of what stands there.
fn put(
    files: &mut Vec<MemFile>,
    alloc: Global,
    at: &FilePlace,
    bytes: &[u8],
) -> Result<(), AllocError>
    ensures put { OnOk result
        (files.new.items ≡ with_file (name_of at.now) bytes.now files.old.items) }
    ensures kept { OnErr result (files.new.items ≡ files.old.items) }
{
    let file = MemFile::new(alloc, at.name(), bytes)?;
    files.reserve(1)?;
    remove_name(files, at);
    files.push_reserved(file);
    Ok(())
}

/// Puts bytes behind those of the file at this place.
fn add(files: &mut Vec<MemFile>, alloc: Global, at: &FilePlace, more: &[u8]) -> io::Result<()>
    ensures kept { OnErr result (files.new.items ≡ files.old.items) }
    ensures added { OnOk result
        (Adds (name_of at.now) more.now files.old.items files.new.items) }
{
    let Some(bytes) = bytes_of(files.as_slice(), at.name()) else {
        return Err(fault(ErrorKind::NotFound));
    };
    let mut all = bytes.to_vec(alloc)?;
    all.extend_from_slice(more)?;
    put(files, alloc, at, all.as_slice())?;
    Ok(())
}

/// Puts the bytes of one file at another place, too.
fn copy(files: &mut Vec<MemFile>, alloc: Global, from: &FilePlace, to: &FilePlace) -> io::Result<()>
    ensures kept { OnErr result (files.new.items ≡ files.old.items) }
    ensures copied { OnOk result (Copies (name_of from.now) (name_of to.now)
        files.old.items files.new.items) }
{
    let Some(bytes) = bytes_of(files.as_slice(), from.name()) else {
        return Err(fault(ErrorKind::NotFound));
    };
    let all = bytes.to_vec(alloc)?;
    put(files, alloc, to, all.as_slice())?;
    Ok(())
}

/// A fault of a folder in memory, which no system told.
fn fault(kind: ErrorKind) -> io::Error
    ensures { raw_os_error result ≡ None }
{
    io::Error::new(kind, "a folder in memory")
}

/// Counts a change, and refuses the one that is to fail.
fn count(failing: &mut u64) -> io::Result<()> {
    let fails = *failing == 1;
    *failing = failing.saturating_sub(1);
    if fails {
        return Err(fault(ErrorKind::StorageFull));
    }
    Ok(())
}

impl MemFolder {
    /// A folder of no files, of a file system that has hard links or has none. Change number
    /// `failing` of it fails, counted from 1; 0 names none.
    pub fn new(alloc: Global, links: bool, failing: u64) -> MemFolder
        ensures files { result.files.items ≡ [] }
        ensures links { result.links ≡ links }
        ensures refused { result.refused ≡ false }
    {
        MemFolder {
            alloc,
            files: Vec::new(alloc),
            links,
            refused: false,
            failing,
        }
    }

    /// The bytes under a name, where it is there.
    pub fn bytes(&self, name: &str) -> Option<&[u8]>
        ensures { option_map (λ bytes. bytes.now) result
            ≡ bytes_in self.now.files.items name.now }
    {
        bytes_of(self.files.as_slice(), name)
    }

    /// Puts a file there, as somebody else may do.
    pub fn put(&mut self, at: &FilePlace, bytes: &[u8]) -> Result<(), AllocError>
        ensures links { self.new.links ≡ self.old.links }
        ensures refused { self.new.refused ≡ self.old.refused }
        ensures put { OnOk result (self.new.files.items
            ≡ with_file (name_of at.now) bytes.now self.old.files.items) }
        ensures kept { OnErr result (self.new.files.items ≡ self.old.files.items) }
    {
        put(&mut self.files, self.alloc, at, bytes)
    }

    /// A file of this name that is open.
    fn opened(&self, name: &str) -> io::Result<MemOpen>
        ensures { IfOk result (λ file. string_bytes file.name ≡ name.now) }
    {
        Ok(MemOpen {
            name: String::from_str(self.alloc, name)?,
        })
    }

    /// Refuses a place at which something stands.
    fn check_free(&self, at: &FilePlace) -> io::Result<()>
        ensures { OnOk result (bytes_in self.now.files.items (name_of at.now) ≡ None) }
    {
        match self.bytes(at.name()) {
            Some(_) => Err(fault(ErrorKind::AlreadyExists)),
            None => Ok(()),
        }
    }

    /// Gives a file one more name, where nothing stands there and the change is not to fail.
    fn link_new(&mut self, from: &FilePlace, to: &FilePlace) -> io::Result<()>
        ensures links { self.new.links ≡ self.old.links }
        ensures refused { self.new.refused ≡ self.old.refused }
        ensures kept { OnErr result (self.new.files.items ≡ self.old.files.items) }
        ensures free { OnOk result (bytes_in self.old.files.items (name_of to.now) ≡ None) }
        ensures copied { OnOk result (Copies (name_of from.now) (name_of to.now)
            self.old.files.items self.new.files.items) }
    {
        count(&mut self.failing)?;
        self.check_free(to)?;
        copy(&mut self.files, self.alloc, from, to)
    }
}

impl Folder for MemFolder {
    type File = MemOpen;

    ghost use Rattle.std.specs.Prelude.{◌≡◌, string_bytes};
    ghost use Rattle.folder_uses.specs.MemFolder.{parts};

    ghost seen = { λ s. parts s.files.items s.links s.refused };

    ghost is_of = { λ file name. string_bytes file.name ≡ name };

    fn is_regular(&self, at: &FilePlace) -> io::Result<bool> {
        match self.bytes(at.name()) {
            Some(_) => Ok(true),
            None => Err(fault(ErrorKind::NotFound)),
        }
    }

    fn open(&self, at: &FilePlace) -> io::Result<MemOpen> {
        self.opened(at.name())
    }

    fn open_itself(&self, dir: &str) -> io::Result<MemOpen> {
        self.opened(dir)
    }

    fn lock(&self, _file: &MemOpen) -> io::Result<()> {
        Ok(())
    }

    fn stands_at(&self, file: &MemOpen, at: &FilePlace) -> bool {
        file.name.as_str() == at.name() && self.bytes(at.name()).is_some()
    }

    fn sync(&self, _file: &MemOpen) -> io::Result<()> {
        Ok(())
    }

    #[tactic(auto, unfolding(ym_folder::specs::Folder::folder_words))]
    fn create_new(&mut self, at: &FilePlace) -> io::Result<MemOpen> {
        count(&mut self.failing)?;
        self.check_free(at)?;
        let file = self.opened(at.name())?;
        put(&mut self.files, self.alloc, at, &[])?;
        Ok(file)
    }

    #[tactic(auto, unfolding(ym_folder::specs::Folder::folder_words))]
    fn append(&mut self, _file: &mut MemOpen, at: &FilePlace, bytes: &[u8]) -> io::Result<()> {
        if let Err(error) = count(&mut self.failing) {
            add(&mut self.files, self.alloc, at, &bytes[..bytes.len() / 2])?;
            return Err(error);
        }
        add(&mut self.files, self.alloc, at, bytes)?;
        Ok(())
    }

    #[tactic(auto, unfolding(ym_folder::specs::Folder::folder_words))]
    fn link(&mut self, from: &FilePlace, to: &FilePlace) -> io::Result<()> {
        if !self.links {
            return Err(io::Error::from_raw_os_error(95));
        }
        match self.link_new(from, to) {
            Ok(()) => Ok(()),
            Err(error) => Err(fault(error.kind())),
        }
    }

    #[tactic(auto, unfolding(ym_folder::specs::Folder::folder_words))]
    fn rename(&mut self, from: &FilePlace, to: &FilePlace) -> io::Result<()> {
        count(&mut self.failing)?;
        copy(&mut self.files, self.alloc, from, to)?;
        if from.name() == to.name() {
            return Ok(());
        }
        remove_name(&mut self.files, from);
        Ok(())
    }

    #[tactic(auto, unfolding(ym_folder::specs::Folder::folder_words))]
    fn remove(&mut self, at: &FilePlace) -> io::Result<()> {
        if let Err(error) = count(&mut self.failing) {
            self.refused = true;
            return Err(error);
        }
        remove_name(&mut self.files, at);
        Ok(())
    }
}
