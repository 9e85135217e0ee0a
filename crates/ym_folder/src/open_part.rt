//! The file that is being taken, as NAME.part.

ghost use Rattle.std.specs.Prelude.{◌≡◌, ◌≢◌, ◌⊎◌, ◌++◌, OnOk, OnErr};
ghost use Rattle.std.specs.Io.KnownBytes.{append_known};
ghost use Rattle.ym_folder.specs.FilePlace.{name_of};
ghost use Rattle.ym_folder.specs.Folder.{OthersStay, under};
ghost use Rattle.ym_folder.specs.OpenPart.{IsSameFile, IsAsWritten};
ghost use Rattle.ym_folder.specs.Part.{NameGiven, NameNotGiven};
ghost use Rattle.ym_folder.specs.Storing.{Stores, GetsAll};
ghost use Rattle.ym_folder.specs.WriteBehind.{put_so_far, GrowsByPrefix};

use crate::dir_sink::Durability;
use crate::folder::Folder;
use crate::part::give_name;
use crate::place::FilePlace;
use crate::write_behind::WriteBehind;
use std::io;
use std::io::ErrorKind;
use ym_header::Header;

/// What the disk has of the file that is being taken.
#[derive(Clone, Copy)]
pub(crate) enum Standing {
    /// The bytes that were written.
    Sound,
    /// Bytes that are not known, since a write failed or the file was not stored.
    Torn,
    /// All of it, under its own name; but its folder could not be forced out to the disk.
    Named,
}

/// The file that is being taken, as NAME.part.
#[derive(Drop)]
pub(crate) struct OpenPart<F: Drop> {
    pub(crate) header: Header,
    pub(crate) file: F,
    /// Where NAME.part stands.
    pub(crate) part: FilePlace,
    /// Where NAME is to stand.
    pub(crate) target: FilePlace,
    pub(crate) taken: u64,
    pub(crate) standing: Standing,
    /// A part of an earlier run was removed for it.
    pub(crate) has_replaced: bool,
}

/// Refuses a part of which it is not known what stands in it, and one that has its name.
fn check_sound(standing: Standing) -> io::Result<()>
    ensures sound { OnOk result (standing ≡ Standing.Sound) }
    ensures not_sound { OnErr result (standing ≢ Standing.Sound) }
{
    match standing {
        Standing::Sound => Ok(()),
        Standing::Torn | Standing::Named => Err(io::Error::from(ErrorKind::InvalidData)),
    }
}

/// Puts bytes behind those that were put before. Where that fails, what stands in the part is not
/// known from then on.
pub(crate) fn put<D: Folder>(
    opened: &mut OpenPart<D::File>,
    folder: &mut D,
    behind: &mut WriteBehind,
    bytes: &[u8],
) -> io::Result<()>
    requires { D.is_of opened.old.file (name_of opened.old.part) }
    ensures of { D.is_of opened.new.file (name_of opened.new.part) }
    ensures same { IsSameFile opened.old opened.new }
    ensures others { OthersStay (name_of opened.old.part) (D.seen folder.old) (D.seen folder.new) }
    ensures was_sound { OnOk result (opened.old.standing ≡ Standing.Sound) }
    ensures is_sound { OnOk result (opened.new.standing ≡ Standing.Sound) }
    ensures torn { OnErr result (opened.new.standing ≢ Standing.Sound) }
    ensures untouched { opened.old.standing ≢ Standing.Sound →
        D.seen folder.new ≡ D.seen folder.old }
    ensures stays { opened.old.standing ≡ Standing.Named → opened.new.standing ≡ Standing.Named }
    ensures not_named { opened.new.standing ≡ Standing.Named →
        opened.old.standing ≡ Standing.Named }
    ensures all { OnOk result
        (put_so_far (under (D.seen folder.new) (name_of opened.old.part)) behind.new
        ≡ append_known (put_so_far (under (D.seen folder.old) (name_of opened.old.part)) behind.old)
        bytes.now) }
    ensures prefix { OnErr result (GrowsByPrefix
        (under (D.seen folder.old) (name_of opened.old.part))
        (under (D.seen folder.new) (name_of opened.old.part)) (behind.old ++ bytes.now)) }
{
    check_sound(opened.standing)?;
    opened.standing = Standing::Torn;
    behind.put(folder, &mut opened.file, &opened.part, bytes)?;
    opened.standing = Standing::Sound;
    Ok(())
}

/// Writes the bytes that wait, where the part is sound. It is not known what stands in it then.
fn write_out<D: Folder>(
    opened: &mut OpenPart<D::File>,
    folder: &mut D,
    behind: &mut WriteBehind,
) -> io::Result<()>
    requires { D.is_of opened.old.file (name_of opened.old.part) }
    ensures of { D.is_of opened.new.file (name_of opened.new.part) }
    ensures same { IsSameFile opened.old opened.new }
    ensures others { OthersStay (name_of opened.old.part) (D.seen folder.old) (D.seen folder.new) }
    ensures was_sound { OnOk result (opened.old.standing ≡ Standing.Sound) }
    ensures torn { opened.new.standing ≢ Standing.Sound }
    ensures is_torn { OnOk result (opened.new.standing ≡ Standing.Torn) }
    ensures untouched { opened.old.standing ≢ Standing.Sound →
        D.seen folder.new ≡ D.seen folder.old }
    ensures stays { opened.old.standing ≡ Standing.Named → opened.new.standing ≡ Standing.Named }
    ensures not_named { opened.new.standing ≡ Standing.Named →
        opened.old.standing ≡ Standing.Named }
    ensures written { OnOk result (under (D.seen folder.new) (name_of opened.old.part)
        ≡ put_so_far (under (D.seen folder.old) (name_of opened.old.part)) behind.old) }
{
    check_sound(opened.standing)?;
    opened.standing = Standing::Torn;
    behind.flush(folder, &mut opened.file, &opened.part)?;
    Ok(())
}

/// Gives the file its name, where what stands at the part's place is still the file that was
/// written.
fn name<D: Folder>(opened: &mut OpenPart<D::File>, folder: &mut D) -> io::Result<()>
    ensures same { IsAsWritten opened.old opened.new }
    ensures named { OnOk result (opened.new.standing ≡ Standing.Named) }
    ensures not_named { OnErr result (opened.new.standing ≡ opened.old.standing) }
    ensures given { OnOk result (NameGiven (name_of opened.old.part) (name_of opened.old.target)
        (D.seen folder.old) (D.seen folder.new)) }
    ensures not_given { OnErr result
        (NameNotGiven (name_of opened.old.target) (D.seen folder.old) (D.seen folder.new)) }
{
    if !folder.stands_at(&opened.file, &opened.part) {
        return Err(io::Error::from(ErrorKind::NotFound));
    }
    give_name(folder, &opened.part, &opened.target)?;
    opened.standing = Standing::Named;
    Ok(())
}

/// Forces out what was written, gives the file its name, and forces that out.
fn name_on_disk<D: Folder>(
    opened: &mut OpenPart<D::File>,
    folder: &mut D,
    dir: &str,
) -> io::Result<()>
    ensures same { IsAsWritten opened.old opened.new }
    ensures named { OnOk result (opened.new.standing ≡ Standing.Named) }
    ensures given { OnOk result (NameGiven (name_of opened.old.part) (name_of opened.old.target)
        (D.seen folder.old) (D.seen folder.new)) }
    ensures torn { OnErr result ((opened.new.standing ≡ Standing.Named)
        ⊎ (opened.new.standing ≡ opened.old.standing)) }
    ensures not_given { OnErr result (
        (NameGiven (name_of opened.old.part) (name_of opened.old.target)
        (D.seen folder.old) (D.seen folder.new))
        ⊎ (NameNotGiven (name_of opened.old.target) (D.seen folder.old) (D.seen folder.new))) }
{
    folder.sync(&opened.file)?;
    // Opened before the name is given, so that a folder that cannot be opened leaves nothing under
    // it.
    let itself = folder.open_itself(dir)?;
    name(opened, folder)?;
    folder.sync(&itself)
}

/// Writes the bytes that wait, and gives the file its name; and forces first the bytes and then the
/// name out to the disk, where that is wanted.
pub(crate) fn store<D: Folder>(
    opened: &mut OpenPart<D::File>,
    folder: &mut D,
    behind: &mut WriteBehind,
    dir: &str,
    durability: Durability,
) -> io::Result<()>
    requires { D.is_of opened.old.file (name_of opened.old.part) }
    ensures of { D.is_of opened.new.file (name_of opened.new.part) }
    ensures same { IsSameFile opened.old opened.new }
    ensures was_sound { OnOk result (opened.old.standing ≡ Standing.Sound) }
    ensures named { OnOk result (opened.new.standing ≡ Standing.Named) }
    ensures torn { OnErr result (opened.new.standing ≢ Standing.Sound) }
    ensures untouched { opened.old.standing ≢ Standing.Sound →
        D.seen folder.new ≡ D.seen folder.old }
    ensures stays { opened.old.standing ≡ Standing.Named → opened.new.standing ≡ Standing.Named }
    ensures stores { Stores (name_of opened.old.part) (name_of opened.old.target)
        (put_so_far (under (D.seen folder.old) (name_of opened.old.part)) behind.old)
        (D.seen folder.old) (D.seen folder.new) }
    ensures stored { OnOk result (GetsAll (name_of opened.old.part) (name_of opened.old.target)
        (put_so_far (under (D.seen folder.old) (name_of opened.old.part)) behind.old)
        (D.seen folder.new)) }
{
    write_out(opened, folder, behind)?;
    match durability {
        Durability::System => name(opened, folder),
        Durability::Disk => name_on_disk(opened, folder, dir),
    }
}
