//! A sink that stores files in a folder.

ghost use Rattle.std.specs.Prelude.{◌≡◌, ◌≢◌, ◌⊎◌, ◌++◌, ◌≤◌, ◌<◌, ℕ, List, [], true, false, None, Some, Err, IfSome, OnOk, OnErr, IfOk, option_map, unwrap_or, length as list_length};
ghost use Rattle.std.specs.Io.KnownBytes.{append_known};
ghost use Rattle.ym_file.specs.Counts.{Counted};
ghost use Rattle.ym_file.specs.Kept.{IsNew, IsCoveredFile, begun, added, committed, room};
ghost use Rattle.ym_folder.specs.DirSink.{kept_of, put, stands, IsTold, Keeps, Adds, IsOwn, IsStored};
ghost use Rattle.ym_folder.specs.FilePlace.{name_of};
ghost use Rattle.ym_folder.specs.Folder.{OthersStay, under, empty_in};
ghost use Rattle.ym_folder.specs.OneName.{NoneMayBe};
ghost use Rattle.ym_folder.specs.Part.{IsPartName};
ghost use Rattle.ym_folder.specs.WriteBehind.{GrowsByPrefix};

use crate::folder::Folder;
use crate::one_name::may_be_one;
use crate::open_part::{self, OpenPart, Standing};
use crate::part::{make_part, places, remove_part, replace_part};
use crate::place::FilePlace;
use crate::probe::check_forced;
use crate::store_fault::{StoreFault, name_fault, part_fault};
use crate::write_behind::WriteBehind;
use std::alloc::{AllocError, Global};
use std::io::ErrorKind;
use std::marker::Model;
use ym_file::{Sink, SinkFault};
use ym_header::Header;

/// When a file counts as stored.
#[derive(Clone, Copy)]
pub enum Durability {
    /// When it and its name are on the disk: they outlive a power cut.
    Disk,
    /// When the system has it: it outlives the program, and a power cut only where the system has
    /// written it by then.
    System,
}

/// What becomes of a NAME.part that is there when NAME comes.
#[derive(Clone, Copy)]
pub enum Leftover {
    /// NAME is refused.
    Refused,
    /// The part is removed, unless somebody has it locked. One that may be a file that this sink
    /// stored, as a disk takes names for one, is never removed.
    Discarded,
}

/// How a sink stores files, and in which folder.
#[derive(Drop)]
struct Settings {
    alloc: Global,
    dir: String,
    durability: Durability,
    leftover: Leftover,
}

/// Stores each file of a batch in a folder: it is written as NAME.part, 64 KiB at a time, and gets
/// the name NAME when it is whole. Nothing that is there is ever overwritten. It tells no bytes.
#[derive(Drop)]
pub struct DirSink<D: Folder + Drop> {
    folder: D,
    settings: Settings,
    taking: Option<OpenPart<D::File>>,
    behind: WriteBehind,
    committed: Vec<Header>,
    failed: u64,
    /// Why it failed for the first time.
    first: Option<StoreFault>,
}

impl<D: Folder + Drop> Model for DirSink<D> {
    ghost use Rattle.std.specs.Vec.{vec_len, vec_capacity};
    ghost use Rattle.ym_folder.specs.DirSink.{DirSinkParts, IsTold};
    ghost use Rattle.ym_folder.specs.OpenPart.{open_header, open_taken, open_replaced};
    ghost use Rattle.ym_folder.specs.OpenPart.{open_name, open_is_sound, IsReady, ArePlaced};

    ghost Value = { DirSinkParts };

    ghost view = { λ s. record {
      opened = open_header s.taking;
      taken = open_taken s.taking;
      headers = s.committed.items;
      failures = s.failed;
      first = s.first;
      leftover = s.settings.leftover;
      replaced = open_replaced s.taking;
      folder = D.seen s.folder;
      part = open_name s.taking;
      waiting = s.behind;
      is_sound = open_is_sound s.taking;
    } };

    ghost invariant = { λ s. IsReady s.taking (vec_len s.committed) (vec_capacity s.committed)
        × IsTold s.failed s.first × ArePlaced D.is_of s.settings.leftover s.taking };
}

/// Refuses a place at which something stands. What cannot be told counts as something. Sees before
/// the first file that the folder can be forced out to the disk, where that is wanted: each commit
/// will need it.
fn check_ready<D: Folder>(
    folder: &D,
    how: &Settings,
    target: &FilePlace,
    stored: &[Header],
) -> Result<(), StoreFault> {
    match folder.is_regular(target) {
        Ok(_) => return Err(StoreFault::IsThere),
        Err(error) if error.kind() == ErrorKind::NotFound => {}
        Err(error) => return Err(StoreFault::System(error)),
    }
    if !matches!(how.durability, Durability::Disk) || !stored.is_empty() {
        return Ok(());
    }
    if let Err(error) = check_forced(folder, how.dir.as_str()) {
        return Err(StoreFault::System(error));
    }
    Ok(())
}

/// Whether a part of this name may be removed: where that is wanted, and the disk can have none of
/// the files that were stored under the name.
fn may_discard(leftover: Leftover, stored: &[Header], part_name: &str) -> bool
    ensures asked { result ≡ true → leftover ≡ Leftover.Discarded }
    ensures not_stored { result ≡ true → NoneMayBe stored.now part_name.now }
{
    matches!(leftover, Leftover::Discarded)
        && stored
            .iter()
            .all(|header| !may_be_one(header.name(), part_name))
}

/// Makes a part new at this place, where that of the file is free. One that an earlier run left
/// there is removed before, where that is wanted; and whether one was is told.
fn open_part<D: Folder>(
    folder: &mut D,
    how: &Settings,
    part: &FilePlace,
    target: &FilePlace,
    stored: &[Header],
) -> Result<(D::File, bool), StoreFault>
    ensures of { IfOk result (λ made. D.is_of made.0 (name_of part.now)) }
    ensures asked { IfOk result (λ made. made.1 ≡ true → how.now.leftover ≡ Leftover.Discarded) }
    ensures others { OthersStay (name_of part.now) (D.seen folder.old) (D.seen folder.new) }
    ensures free { (under (D.seen folder.new) (name_of part.now)
        ≡ under (D.seen folder.old) (name_of part.now))
        ⊎ (under (D.seen folder.old) (name_of part.now) ≡ None)
        ⊎ ((how.now.leftover ≡ Leftover.Discarded) × NoneMayBe stored.now (name_of part.now)) }
    ensures was_free { OnOk result ((under (D.seen folder.old) (name_of part.now) ≡ None)
        ⊎ ((how.now.leftover ≡ Leftover.Discarded) × NoneMayBe stored.now (name_of part.now))) }
    ensures empty { OnOk result
        (under (D.seen folder.new) (name_of part.now) ≡ empty_in (D.seen folder.new)) }
{
    check_ready(folder, how, target, stored)?;
    let error = match make_part(folder, part) {
        Ok(file) => return Ok((file, false)),
        Err(error)
            if error.kind() == ErrorKind::AlreadyExists
                && may_discard(how.leftover, stored, part.name()) => {
            match replace_part(folder, part) {
                Ok(file) => return Ok((file, true)),
                Err(error) => error,
            }
        }
        Err(error) => error,
    };
    Err(part_fault(error))
}

impl<D: Folder + Drop> DirSink<D> {
    ghost use Rattle.ym_folder.specs.DirSink.{DirSinkParts};

    /// A sink that stores files in the folder at this path. The memory for the bytes that wait to
    /// be written is taken here.
    pub fn new(
        folder: D,
        alloc: Global,
        dir: &str,
        durability: Durability,
        leftover: Leftover,
    ) -> Result<DirSink<D>, AllocError>
        ensures parts { IfOk result (λ sink. sink ≡ record {
          opened = None;
          taken = 0;
          headers = [];
          failures = 0;
          first = None;
          leftover = leftover;
          replaced = None;
          folder = D.seen folder;
          part = None;
          waiting = [];
          is_sound = false;
        }) }
        ensures new { IfOk result (λ sink. IsNew (kept_of sink)) }
    {
        let dir = String::from_str(alloc, dir)?;
        let behind = WriteBehind::new(alloc)?;
        Ok(DirSink {
            folder,
            settings: Settings {
                alloc,
                dir,
                durability,
                leftover,
            },
            taking: None,
            behind,
            committed: Vec::new(alloc),
            failed: 0,
            first: None,
        })
    }

    /// The headers of the files that were stored, in order.
    pub fn headers(&self) -> &[Header]
        ensures { result.now ≡ self.now.headers }
    {
        self.committed.as_slice()
    }

    /// Why it failed for the first time, where it failed.
    pub fn first_fault(&self) -> Option<StoreFault>
        ensures first { result ≡ self.now.first }
        ensures told { IsTold self.now.failures result }
    {
        self.first
    }

    /// The name of the part of an earlier run that was removed for the open file, where one was.
    pub fn replaced(&self) -> Option<&str>
        ensures name { option_map (λ name. name.now) result ≡ self.now.replaced }
        ensures part { IfSome self.now.replaced
            (λ name. IfSome self.now.opened (λ header. IsPartName header.name name)) }
        ensures open { self.now.opened ≡ None → result ≡ None }
        ensures asked { self.now.leftover ≡ Leftover.Refused → result ≡ None }
    {
        match &self.taking {
            Some(open) if open.has_replaced => Some(open.part.name()),
            _ => None,
        }
    }

    /// The folder that it stores in.
    pub fn folder(&self) -> &D
        ensures { D.seen result.now ≡ self.now.folder }
    {
        &self.folder
    }

    /// Removes the part that is open, if there is one. Where that fails it stays on the disk, and
    /// the sink has no open file all the same. A file that has its name already keeps it.
    pub fn close(&mut self) -> Result<(), SinkFault>
        ensures closed { self.new.opened ≡ None }
        ensures headers { self.new.headers ≡ self.old.headers }
        ensures ok { OnOk result (self.new.failures ≡ self.old.failures) }
        ensures failed { OnErr result (Counted self.old.failures self.new.failures) }
        ensures fault { result ≢ Err SinkFault.Memory }
        ensures keeps { Keeps self.old self.new }
        ensures adds { Adds self.old self.new }
        ensures gone { (part : List ℕ) → OnOk result
            (IsOwn self.old part → stands self.new part ≡ None) }
    {
        let Some(open) = self.taking.take() else {
            return Ok(());
        };
        if matches!(open.standing, Standing::Named) {
            return Ok(());
        }
        match remove_part(&mut self.folder, &open.file, &open.part) {
            Ok(()) => Ok(()),
            Err(error) => Err(self.fail(StoreFault::System(error))),
        }
    }

    /// Counts a failure, and keeps why the first one was.
    fn fail(&mut self, why: StoreFault) -> SinkFault
        ensures fault { result ≡ SinkFault.Failed }
        ensures counted_failure { Counted self.old.failures self.new.failures }
        ensures same { self.new ≡ record self.old {
          failures = self.new.failures;
          first = Some (unwrap_or self.old.first why);
        } }
    {
        self.failed = self.failed.saturating_add(1);
        self.first = Some(self.first.unwrap_or(why));
        SinkFault::Failed
    }
}

impl<D: Folder + Drop> Sink for DirSink<D> {
    ghost kept = { kept_of };

    ghost failures = { λ s. s.failures };

    fn begin(&mut self, header: Header) -> Result<(), SinkFault>
        requires { self.old.opened ≡ None }
        ensures done { OnOk result (kept_of self.new ≡ begun header (kept_of self.old)) }
        ensures refused { OnErr result (kept_of self.new ≡ kept_of self.old) }
        ensures failed { result ≡ Err SinkFault.Failed →
            Counted self.old.failures self.new.failures }
        ensures not_failed { result ≢ Err SinkFault.Failed →
            self.new.failures ≡ self.old.failures }
        ensures keeps { Keeps self.old self.new }
        ensures adds { Adds self.old self.new }
        ensures empty { OnOk result (put self.new ≡ empty_in self.new.folder) }
    {
        let (settings, stored) = (&self.settings, &mut self.committed);
        let dir = settings.dir.as_str();
        let Ok((part, target)) = places(settings.alloc, dir, header.name(), stored) else {
            return Err(SinkFault::Memory);
        };
        let stored = stored.as_slice();
        match open_part(&mut self.folder, settings, &part, &target, stored) {
            Ok((file, has_replaced)) => {
                self.behind.clear();
                self.taking = Some(OpenPart {
                    header,
                    file,
                    part,
                    target,
                    taken: 0,
                    standing: Standing::Sound,
                    has_replaced,
                });
                Ok(())
            }
            Err(why) => Err(self.fail(why)),
        }
    }

    fn add(&mut self, bytes: &[u8]) -> Result<(), SinkFault>
        requires some { 0 < list_length bytes.now }
        requires fit { list_length bytes.now ≤ room (kept_of self.old) }
        ensures done { OnOk result (kept_of self.new ≡ added bytes.now (kept_of self.old)) }
        ensures refused { OnErr result (kept_of self.new ≡ kept_of self.old) }
        ensures failed { result ≡ Err SinkFault.Failed →
            Counted self.old.failures self.new.failures }
        ensures not_failed { result ≢ Err SinkFault.Failed →
            self.new.failures ≡ self.old.failures }
        ensures keeps { Keeps self.old self.new }
        ensures adds { Adds self.old self.new }
        ensures all { OnOk result (put self.new ≡ append_known (put self.old) bytes.now) }
        ensures sound { OnOk result (self.old.is_sound ≡ true) }
        ensures torn { OnErr result (self.new.is_sound ≡ false) }
        ensures prefix { (part : List ℕ) → OnErr result (IsOwn self.old part →
            GrowsByPrefix (stands self.old part) (stands self.new part)
            (self.old.waiting ++ bytes.now)) }
    {
        let error = match &mut self.taking {
            Some(open) => match open_part::put(open, &mut self.folder, &mut self.behind, bytes) {
                Ok(()) => {
                    open.taken += bytes.len() as u64;
                    return Ok(());
                }
                Err(error) => error,
            },
            None => unreachable!(),
        };
        Err(self.fail(StoreFault::System(error)))
    }

    fn commit(&mut self) -> Result<(), SinkFault>
        requires { IsCoveredFile (kept_of self.old) }
        ensures done { OnOk result (kept_of self.new ≡ committed (kept_of self.old)) }
        ensures refused { OnErr result (kept_of self.new ≡ kept_of self.old) }
        ensures memory { result ≢ Err SinkFault.Memory }
        ensures failed { result ≡ Err SinkFault.Failed →
            Counted self.old.failures self.new.failures }
        ensures not_failed { result ≢ Err SinkFault.Failed →
            self.new.failures ≡ self.old.failures }
        ensures keeps { Keeps self.old self.new }
        ensures adds { Adds self.old self.new }
        ensures sound { OnOk result (self.old.is_sound ≡ true) }
        ensures stored { OnOk result (IsStored self.old self.new) }
        ensures torn { OnErr result (self.new.is_sound ≡ false) }
    {
        let stored = match &mut self.taking {
            Some(open) => open_part::store(
                open,
                &mut self.folder,
                &mut self.behind,
                self.settings.dir.as_str(),
                self.settings.durability,
            ),
            None => unreachable!(),
        };
        if let Err(error) = stored {
            return Err(self.fail(name_fault(error)));
        }
        match self.taking.take() {
            Some(OpenPart { header, .. }) => self.committed.push_reserved(header),
            None => unreachable!(),
        }
        Ok(())
    }
}
