//! The part that a file is written as: how it is made, how it gets its name, and how one of an
//! earlier run is removed.

ghost use Rattle.std.specs.Prelude.{◌≡◌, ◌⊎◌, ◌<◌, ℤ, true, false, None, OnOk, OnErr, IfOk};
ghost use Rattle.std.specs.Vec.{vec_len, vec_capacity};
ghost use Rattle.ym_folder.specs.Folder.{AllStay, OthersStay, Made, Removed, TellsNoLinks};
ghost use Rattle.ym_folder.specs.Folder.{under, empty_in, has_links};
ghost use Rattle.ym_folder.specs.Part.{IsPartName, MayAdd, NameGiven, NameNotGiven};
ghost use Rattle.ym_folder.specs.FilePlace.{name_of};

use crate::folder::Folder;
use crate::place::FilePlace;
use std::alloc::{AllocError, Global};
use std::io;
use std::io::ErrorKind;
use ym_header::Header;

/// How many bytes a file's name has at most, on usual file systems.
const NAME_LIMIT: usize = 255;

/// What a part's name ends in.
const PART_ENDING: &str = ".part";

/// The name of the part of a file of this name: with `.part` behind it, and cut before that, at a
/// character, where it would be longer than names may be.
pub fn part_name(alloc: Global, name: &str) -> Result<String, AllocError>
    ensures { IfOk result (λ part. IsPartName name.now part.bytes.items) }
{
    let kept = name.floor_char_boundary(NAME_LIMIT - PART_ENDING.len());
    let mut part = String::from_str(alloc, &name[..kept])?;
    part.push_str(PART_ENDING)?;
    Ok(part)
}

/// The place of the part of a file of this name in a folder, and the place of the file. Room for
/// one more header is made where those of the files stand that were stored.
pub(crate) fn places(
    alloc: Global,
    dir: &str,
    name: &str,
    stored: &mut Vec<Header>,
) -> Result<(FilePlace, FilePlace), AllocError>
    ensures part { IfOk result (λ made. IsPartName name.now (name_of made.0)) }
    ensures target { IfOk result (λ made. name_of made.1 ≡ name.now) }
    ensures same { stored.new.items ≡ stored.old.items }
    ensures has_room { OnOk result (vec_len stored.new < vec_capacity stored.new) }
{
    stored.reserve(1)?;
    let part = FilePlace::new(alloc, dir, part_name(alloc, name)?.as_str())?;
    let target = FilePlace::new(alloc, dir, name)?;
    Ok((part, target))
}

/// Locks a file that was opened at this place, against every other program that does, and sees that
/// it still stands there: between its opening and its lock somebody may have removed it.
fn hold<D: Folder>(folder: &D, file: &D::File, at: &FilePlace) -> io::Result<()> {
    folder.lock(file)?;
    if folder.stands_at(file, at) {
        Ok(())
    } else {
        Err(io::Error::from(ErrorKind::ResourceBusy))
    }
}

/// Removes a part that is open, where it still stands at its place.
pub(crate) fn remove_part<D: Folder>(
    folder: &mut D,
    file: &D::File,
    part: &FilePlace,
) -> io::Result<()>
    ensures removed { OnOk result
        (Removed (name_of part.now) (D.seen folder.old) (D.seen folder.new)) }
    ensures kept { OnErr result (AllStay (D.seen folder.old) (D.seen folder.new)) }
{
    if !folder.stands_at(file, part) {
        return Err(io::Error::from(ErrorKind::NotFound));
    }
    folder.remove(part)
}

/// Lets go of a part that was made and could not be locked. Who has it locked removes it.
fn let_go<D: Folder>(folder: &mut D, file: &D::File, part: &FilePlace, why: &io::Error)
    ensures { OthersStay (name_of part.now) (D.seen folder.old) (D.seen folder.new) }
{
    if why.kind() != ErrorKind::WouldBlock {
        let _ = remove_part(folder, file, part);
    }
}

/// Makes a part new, and locks it for as long as it is open. Where it cannot be locked, none is
/// left.
pub(crate) fn make_part<D: Folder>(folder: &mut D, part: &FilePlace) -> io::Result<D::File>
    ensures of { IfOk result (λ file. D.is_of file (name_of part.now)) }
    ensures made { OnOk result (Made (name_of part.now) (D.seen folder.old) (D.seen folder.new)) }
    ensures left { OnErr result
        (MayAdd (name_of part.now) (D.seen folder.old) (D.seen folder.new)) }
{
    let file = folder.create_new(part)?;
    if let Err(error) = hold(folder, &file, part) {
        let_go(folder, &file, part, &error);
        return Err(error);
    }
    Ok(file)
}

/// Opens what stands at a part's place. Of what may not be opened nobody knows whether somebody has
/// it locked.
fn open_left<D: Folder>(folder: &D, part: &FilePlace) -> io::Result<D::File> {
    match folder.open(part) {
        Err(error) if error.kind() == ErrorKind::PermissionDenied => {
            Err(io::Error::from(ErrorKind::ResourceBusy))
        }
        opened => opened,
    }
}

/// Removes a part that an earlier run left. What somebody has locked is being written, and what is
/// no regular file is no part: both are refused. So is what may not be opened.
fn discard_part<D: Folder>(folder: &mut D, part: &FilePlace) -> io::Result<()>
    ensures removed { OnOk result
        (Removed (name_of part.now) (D.seen folder.old) (D.seen folder.new)) }
    ensures kept { OnErr result (AllStay (D.seen folder.old) (D.seen folder.new)) }
{
    if !folder.is_regular(part)? {
        return Err(io::Error::from(ErrorKind::InvalidInput));
    }
    let file = open_left(folder, part)?;
    hold(folder, &file, part)?;
    // While it is locked nobody else takes the name away, so this is the file that was opened.
    folder.remove(part)
}

/// Makes a part new in place of one that an earlier run left.
pub(crate) fn replace_part<D: Folder>(folder: &mut D, part: &FilePlace) -> io::Result<D::File>
    ensures of { IfOk result (λ file. D.is_of file (name_of part.now)) }
    ensures empty { OnOk result
        (under (D.seen folder.new) (name_of part.now) ≡ empty_in (D.seen folder.new)) }
    ensures others { OthersStay (name_of part.now) (D.seen folder.old) (D.seen folder.new) }
{
    discard_part(folder, part)?;
    make_part(folder, part)
}

/// Gives a part the file's own name, where nothing stands there, and takes the name of the part
/// away.
pub(crate) fn give_name<D: Folder>(
    folder: &mut D,
    part: &FilePlace,
    target: &FilePlace,
) -> io::Result<()>
    ensures named { OnOk result (NameGiven (name_of part.now) (name_of target.now)
        (D.seen folder.old) (D.seen folder.new)) }
    ensures unnamed { OnErr result
        (NameNotGiven (name_of target.now) (D.seen folder.old) (D.seen folder.new)) }
{
    // A link fails where the name is taken, also by one that came meanwhile. A rename would
    // overwrite it.
    match folder.link(part, target) {
        Ok(()) => {
            // The file is whole under its name, so a part that stays is no failure.
            let _ = folder.remove(part);
            Ok(())
        }
        Err(error) if has_no_links(&error) => rename_over_new(folder, part, target),
        Err(error) => Err(error),
    }
}

/// Whether a link was refused because the file system has none: by EPERM, EMLINK, ENOSYS or
/// EOPNOTSUPP.
fn has_no_links(error: &io::Error) -> bool
    ensures { result ≡ true → TellsNoLinks error.now }
{
    matches!(error.raw_os_error(), Some(1 | 31 | 38 | 95))
}

/// Takes a name away again, where what was made under it still stands there.
fn take_back<D: Folder>(folder: &mut D, made: &D::File, target: &FilePlace)
    ensures { AllStay (D.seen folder.old) (D.seen folder.new)
        ⊎ Removed (name_of target.now) (D.seen folder.old) (D.seen folder.new) }
{
    if folder.stands_at(made, target) {
        let _ = folder.remove(target);
    }
}

/// Makes the name new, as an empty file, and renames the part over it. Where the rename fails, the
/// name is taken away again.
fn rename_over_new<D: Folder>(
    folder: &mut D,
    part: &FilePlace,
    target: &FilePlace,
) -> io::Result<()>
    requires { has_links (D.seen folder.old) ≡ false }
    ensures named { OnOk result (NameGiven (name_of part.now) (name_of target.now)
        (D.seen folder.old) (D.seen folder.new)) }
    ensures unnamed { OnErr result
        (NameNotGiven (name_of target.now) (D.seen folder.old) (D.seen folder.new)) }
{
    let made = folder.create_new(target)?;
    match folder.rename(part, target) {
        Ok(()) => Ok(()),
        Err(error) => {
            take_back(folder, &made, target);
            Err(error)
        }
    }
}
