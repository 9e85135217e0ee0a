//! What a sink that stores files in a folder is asked, step by step, and what is done in the folder
//! in between. A test is a table of steps: what they do is proved once, in the loop over them, and
//! so a long table costs a proof little.

ghost use Rattle.std.specs.Prelude.{◌≡◌, true, None, IfOk, OnOk, length};
ghost use Rattle.ym_file.specs.Kept.{IsCoveredFile, IsNew, room};
ghost use Rattle.ym_folder.specs.DirSink.{kept_of};

use super::acts::{Act, all_hold, path_of};
use super::folders::{folder, is_removed, same};
use std::alloc::{AllocError, Global};
use std::fs::File;
use std::io;
use std::io::ErrorKind;
use std::path::PathBuf;
use ym_file::{Sink, SinkFault};
use ym_folder::{DirSink, Durability, Folder, Leftover, StoreFault};
use ym_header::{Header, Stamp};
use ym_host::SystemFolder;

/// Why a sink failed first.
#[derive(Clone, Copy)]
pub(super) enum Why {
    IsThere,
    PartIsThere,
    PartIsGone,
    System(ErrorKind),
}

/// A step, and what it comes to.
#[derive(Clone, Copy)]
pub(super) enum Step<'a> {
    /// A file of this name takes these bytes, this is done meanwhile, and then it is stored.
    Stores(&'a str, &'a [u8], &'a [Act<'a>]),
    /// The same, but it is not stored.
    Fails(&'a str, &'a [u8], &'a [Act<'a>]),
    /// A file of this name takes all of its bytes but one, this is done meanwhile, and then it is
    /// let go.
    LetsGo(&'a str, &'a [Act<'a>]),
    /// The same, but its part cannot be removed.
    Leaves(&'a str, &'a [Act<'a>]),
    /// The file `a` takes these 200,000 bytes in three pieces, is stored, and holds them.
    StoresInThree(&'a [u8]),
    /// A file of this name is begun, and for it this part was removed, or none.
    Replaces(&'a str, Option<&'a str>),
    /// What is open is let go, without a fault or with one.
    Closes(bool),
    /// No file of this name is begun.
    Refuses(&'a str),
    /// The same, while somebody has its part of the second name locked.
    RefusesLocked(&'a str, &'a str),
    /// This is done in the folder.
    Acts(&'a [Act<'a>]),
    /// The files of these names are told as stored.
    Told(&'a [&'a str]),
    /// The first failure was told so.
    First(Why),
}

/// A sink that stores files in the folder at this path. What is asked of a sink is asked of one
/// over a folder of any kind: a call is dear to prove where it is made of one kind.
pub(super) fn new_sink<D: Folder + Drop>(
    folder: D,
    alloc: Global,
    dir: &PathBuf,
    leftover: Leftover,
) -> Result<DirSink<D>, AllocError>
    ensures { IfOk result (λ sink. IsNew (kept_of sink)) }
{
    DirSink::new(folder, alloc, dir.as_str(), Durability::Disk, leftover)
}

/// The header of a file of this name and length.
fn header(rt: &HostRuntime, name: &str, length: u64) -> Result<Header, SinkFault>
    ensures { IfOk result (λ header. header.length ≡ length) }
{
    match Header::new(rt.alloc(), name, length, Stamp::Nothing) {
        Ok(header) => Ok(header),
        Err(_) => Err(SinkFault::Failed),
    }
}

/// Lets go of what is open: of nothing, before a file is begun.
fn clear<D: Folder + Drop>(sink: &mut DirSink<D>) -> Result<(), SinkFault>
    ensures { sink.new.opened ≡ None }
{
    sink.close()
}

/// Takes a file, all its bytes in one piece.
fn take<S: Sink>(sink: &mut S, header: Header, bytes: &[u8]) -> Result<(), SinkFault>
    requires closed { (S.kept sink.old).opened ≡ None }
    requires fits { header.length ≡ length bytes.now }
    ensures { OnOk result (IsCoveredFile (S.kept sink.new)) }
{
    sink.begin(header)?;
    if !bytes.is_empty() {
        sink.add(bytes)?;
    }
    Ok(())
}

/// Puts the rest of a file behind its first bytes, in two pieces.
fn add_rest<S: Sink>(sink: &mut S, rest: &[u8]) -> Result<(), SinkFault>
    requires fits { length rest.now ≡ 140000 }
    requires room { room (S.kept sink.old) ≡ 140000 }
    ensures { OnOk result (IsCoveredFile (S.kept sink.new)) }
{
    let (middle, back) = rest.split_at(60_000);
    sink.add(middle)?;
    sink.add(back)
}

/// Takes a file of 200,000 bytes in three pieces.
fn take_in_three<S: Sink>(sink: &mut S, header: Header, all: &[u8]) -> Result<(), SinkFault>
    requires closed { (S.kept sink.old).opened ≡ None }
    requires fits { header.length ≡ 200000 }
    requires whole { length all.now ≡ 200000 }
    ensures { OnOk result (IsCoveredFile (S.kept sink.new)) }
{
    let (prefix, rest) = all.split_at(60_000);
    sink.begin(header)?;
    sink.add(prefix)?;
    add_rest(sink, rest)
}

/// Takes two of the three bytes of a file.
fn take_two<S: Sink>(sink: &mut S, header: Header) -> Result<(), SinkFault>
    requires closed { (S.kept sink.old).opened ≡ None }
    requires three { header.length ≡ 3 }
{
    sink.begin(header)?;
    sink.add(b"xy")
}

/// Takes a file, and what was open before is let go.
fn take_file<D: Folder + Drop>(
    rt: &HostRuntime,
    sink: &mut DirSink<D>,
    name: &str,
    bytes: &[u8],
) -> Result<(), SinkFault>
    ensures { OnOk result (IsCoveredFile (kept_of sink.new)) }
{
    clear(sink)?;
    take(sink, header(rt, name, bytes.len() as u64)?, bytes)
}

/// Whether the file that was taken is stored.
fn commits<D: Folder + Drop>(sink: &mut DirSink<D>) -> bool
    requires { IsCoveredFile (kept_of sink.old) }
{
    sink.commit().is_ok()
}

/// Whether a file is taken, and what was open before let go.
fn takes<D: Folder + Drop>(
    rt: &HostRuntime,
    sink: &mut DirSink<D>,
    name: &str,
    bytes: &[u8],
) -> bool
    ensures { result ≡ true → IsCoveredFile (kept_of sink.new) }
{
    match take_file(rt, sink, name, bytes) {
        Ok(()) => true,
        Err(_) => false,
    }
}

/// Whether the file that was taken is stored once this is done; nothing where it cannot be done.
fn stores<D: Folder + Drop>(
    rt: &HostRuntime,
    dir: &PathBuf,
    sink: &mut DirSink<D>,
    acts: &[Act<'_>],
) -> Option<bool>
    requires { IsCoveredFile (kept_of sink.old) }
{
    if all_hold(rt, dir, acts) {
        Some(commits(sink))
    } else {
        None
    }
}

/// Whether a file that lacks a byte is let go of without a fault, or with one, after this was done.
fn lets_go<D: Folder + Drop>(
    rt: &HostRuntime,
    dir: &PathBuf,
    sink: &mut DirSink<D>,
    name: &str,
    acts: &[Act<'_>],
) -> Result<bool, SinkFault> {
    clear(sink)?;
    take_two(sink, header(rt, name, 3)?)?;
    if !all_hold(rt, dir, acts) {
        return Err(SinkFault::Failed);
    }
    Ok(sink.close().is_ok())
}

/// Whether a sink removed this part, or none.
fn has_replaced<D: Folder + Drop>(sink: &DirSink<D>, part: Option<&str>) -> bool {
    same(&sink.replaced(), &part)
}

/// Whether this part was removed, or none, for a file of this name that is begun.
fn replaces<D: Folder + Drop>(
    rt: &HostRuntime,
    sink: &mut DirSink<D>,
    name: &str,
    part: Option<&str>,
) -> Result<bool, SinkFault> {
    clear(sink)?;
    take_two(sink, header(rt, name, 3)?)?;
    Ok(has_replaced(sink, part))
}

/// Whether no file of this name is begun.
fn refuses<D: Folder + Drop>(
    rt: &HostRuntime,
    sink: &mut DirSink<D>,
    name: &str,
) -> Result<bool, SinkFault> {
    clear(sink)?;
    Ok(sink.begin(header(rt, name, 3)?) == Err(SinkFault::Failed))
}

/// The part of this name, locked.
fn locked(rt: &HostRuntime, dir: &PathBuf, part: &str) -> io::Result<File> {
    let held = File::open(rt, &path_of(rt, dir, part)?)?;
    held.lock()?;
    Ok(held)
}

/// Whether no file of this name is begun while the part of this name is locked.
fn refuses_locked<D: Folder + Drop>(
    rt: &HostRuntime,
    dir: &PathBuf,
    sink: &mut DirSink<D>,
    name: &str,
    part: &str,
) -> bool {
    match locked(rt, dir, part) {
        Ok(_held) => refuses(rt, sink, name) == Ok(true),
        Err(_) => false,
    }
}

/// Stores the 200,000 bytes of the file `a`. The first bytes wait, the second have no room beside
/// them, and the third are more than ever wait. The file holds all of them.
fn stores_in_three<D: Folder + Drop>(
    rt: &HostRuntime,
    dir: &PathBuf,
    sink: &mut DirSink<D>,
    all: &[u8],
) -> Result<bool, SinkFault> {
    if all.len() != 200_000 {
        return Ok(false);
    }
    clear(sink)?;
    take_in_three(sink, header(rt, "a", 200_000)?, all)?;
    Ok(commits(sink) && super::folders::holds(rt, dir, "a", Some(all)))
}

/// Whether a file of this name and these bytes is stored, with nothing done meanwhile, or none of
/// the name is begun where there are no bytes.
fn comes<D: Folder + Drop>(
    rt: &HostRuntime,
    sink: &mut DirSink<D>,
    name: &str,
    bytes: Option<&[u8]>,
) -> Result<bool, SinkFault> {
    match bytes {
        Some(bytes) => {
            take_file(rt, sink, name, bytes)?;
            Ok(commits(sink))
        }
        None => refuses(rt, sink, name),
    }
}

/// The same, of a new sink over this folder.
fn comes_over<D: Folder + Drop>(
    folder: D,
    rt: &HostRuntime,
    dir: &PathBuf,
    name: &str,
    bytes: Option<&[u8]>,
) -> bool {
    match new_sink(folder, rt.alloc(), dir, Leftover::Discarded) {
        Ok(mut sink) => comes(rt, &mut sink, name, bytes) == Ok(true),
        Err(_) => false,
    }
}

/// The same, of another sink in the folder.
pub(super) fn comes_to_other(
    rt: &HostRuntime,
    dir: &PathBuf,
    name: &str,
    bytes: Option<&[u8]>,
) -> bool {
    comes_over(SystemFolder::new(rt), rt, dir, name, bytes)
}

/// Whether these are the headers of files of these names, in this order.
fn are_named(headers: &[Header], names: &[&str]) -> bool {
    for (header, name) in headers.iter().zip(names) {
        if header.name() != *name {
            return false;
        }
    }
    headers.len() == names.len()
}

/// Whether the files of these names are told as stored, in this order.
fn tells<D: Folder + Drop>(sink: &DirSink<D>, names: &[&str]) -> bool {
    are_named(sink.headers(), names)
}

/// Whether this is why a sink failed first.
fn failed_by<D: Folder + Drop>(sink: &DirSink<D>, why: Why) -> bool {
    match (sink.first_fault(), why) {
        (Some(StoreFault::IsThere), Why::IsThere)
        | (Some(StoreFault::PartIsThere), Why::PartIsThere)
        | (Some(StoreFault::PartIsGone), Why::PartIsGone) => true,
        (Some(StoreFault::System(error)), Why::System(kind)) => error.kind() == kind,
        _ => false,
    }
}

/// Whether a step comes to what it says.
fn holds<D: Folder + Drop>(
    rt: &HostRuntime,
    dir: &PathBuf,
    sink: &mut DirSink<D>,
    step: &Step<'_>,
) -> bool {
    match *step {
        Step::Stores(name, bytes, acts) => {
            takes(rt, sink, name, bytes) && stores(rt, dir, sink, acts) == Some(true)
        }
        Step::Fails(name, bytes, acts) => {
            takes(rt, sink, name, bytes) && stores(rt, dir, sink, acts) == Some(false)
        }
        Step::LetsGo(name, acts) => lets_go(rt, dir, sink, name, acts) == Ok(true),
        Step::Leaves(name, acts) => lets_go(rt, dir, sink, name, acts) == Ok(false),
        Step::Replaces(name, part) => replaces(rt, sink, name, part) == Ok(true),
        Step::StoresInThree(all) => stores_in_three(rt, dir, sink, all) == Ok(true),
        Step::Closes(is_well) => sink.close().is_ok() == is_well,
        Step::Refuses(name) => refuses(rt, sink, name) == Ok(true),
        Step::RefusesLocked(name, part) => refuses_locked(rt, dir, sink, name, part),
        Step::Acts(acts) => all_hold(rt, dir, acts),
        Step::Told(names) => tells(sink, names),
        Step::First(why) => failed_by(sink, why),
    }
}

/// Whether these steps come to what they say, one after another.
fn all_come<D: Folder + Drop>(
    rt: &HostRuntime,
    dir: &PathBuf,
    sink: &mut DirSink<D>,
    steps: &[Step<'_>],
) -> bool {
    for step in steps {
        if !holds(rt, dir, sink, step) {
            return false;
        }
    }
    true
}

/// The same, of a new sink over this folder.
fn all_come_over<D: Folder + Drop>(
    folder: D,
    rt: &HostRuntime,
    dir: &PathBuf,
    leftover: Leftover,
    steps: &[Step<'_>],
) -> bool {
    match new_sink(folder, rt.alloc(), dir, leftover) {
        Ok(mut sink) => all_come(rt, dir, &mut sink, steps),
        Err(_) => false,
    }
}

/// The same, in a new folder of this name, which is removed.
pub(super) fn goes(rt: &HostRuntime, name: &str, leftover: Leftover, steps: &[Step<'_>]) -> bool {
    match folder(rt, name) {
        Ok(dir) => {
            all_come_over(SystemFolder::new(rt), rt, &dir, leftover, steps) && is_removed(rt, &dir)
        }
        Err(_) => false,
    }
}
