//! Files that are read. What a source is asked stands in tables: what they do is proved once, in
//! the loop over them, and so a long table costs a proof little.

use super::folders::{counted, folder, is_removed};
use std::fs::{File, OpenFile};
use std::io::ErrorKind;
use std::os::unix::fs::FileExt;
use std::path::PathBuf;
use std::{fs, io};
use ym_file::{Source, SourceFault};
use ym_host::FileSource;

/// What filling a buffer comes to.
#[derive(Clone, Copy)]
enum Want<'a> {
    /// These bytes.
    All(&'a [u8]),
    /// Bytes of which these are the first and the last.
    Ends(u8, u8),
    /// A fault.
    Fault,
}

/// What is asked of a source, or done to its file, and has to come out so.
#[derive(Clone, Copy)]
enum Ask<'a> {
    /// The source has this length.
    HasLength(u64),
    /// It is to fill a buffer of so many bytes from this place on, which its file has or had.
    Fills(u64, usize, Want<'a>),
    /// The file gets this length.
    Sets(u64),
    /// Another file of 100 bytes is put in its place.
    Replaces,
}

/// A folder, and a file in it.
#[derive(Drop)]
struct Place {
    dir: PathBuf,
    path: PathBuf,
}

/// The file at this path gets so many bytes, counted on from 0.
fn count_into(rt: &HostRuntime, path: &PathBuf, count: u32) -> io::Result<()> {
    match counted(rt.alloc(), count) {
        Ok(bytes) => fs::write(rt, path, bytes.as_slice()),
        Err(_) => Err(io::Error::from(ErrorKind::OutOfMemory)),
    }
}

/// A new folder of this name, and a file in it with as many bytes, counted on from 0.
fn new_place(rt: &HostRuntime, name: &str, count: u32) -> io::Result<Place> {
    let dir = folder(rt, name)?;
    let path = dir.join(rt.alloc(), "bytes")?;
    count_into(rt, &path, count)?;
    Ok(Place { dir, path })
}

/// The file at this path, to be written.
fn writable(rt: &HostRuntime, path: &PathBuf) -> io::Result<File> {
    File::options().write(true).open(rt, path)
}

/// Makes the file at this path so long.
fn set_length(rt: &HostRuntime, path: &PathBuf, length: u64) -> io::Result<()> {
    writable(rt, path)?.set_len(length)
}

/// Puts another file of 100 bytes in the place of the file.
fn replace(rt: &HostRuntime, place: &Place) -> io::Result<()> {
    let aside = place.dir.join(rt.alloc(), "aside")?;
    fs::rename(rt, &place.path, &aside)?;
    count_into(rt, &place.path, 100)
}

/// What filling a buffer gives, with bytes from this place on, or `None` where these are past the
/// end.
fn filled<S: Source>(source: &mut S, at: u64, into: &mut [u8]) -> Option<Result<(), SourceFault>> {
    match at.checked_add(into.len() as u64) {
        Some(end) if end <= source.length() => Some(source.fill(at, into)),
        _ => None,
    }
}

/// Whether filling a buffer of so many bytes from this place on comes to this.
fn fills<S: Source>(
    rt: &HostRuntime,
    source: &mut S,
    at: u64,
    count: usize,
    want: Want<'_>,
) -> bool {
    let Ok(mut into) = vec![in rt.alloc(); 0; count] else {
        return false;
    };
    let answer = filled(source, at, into.as_mut_slice());
    let bytes = into.as_slice();
    match want {
        Want::All(all) => answer == Some(Ok(())) && bytes == all,
        Want::Ends(first, last) => {
            answer == Some(Ok(())) && bytes.starts_with(&[first]) && bytes.ends_with(&[last])
        }
        Want::Fault => matches!(answer, Some(Err(_))),
    }
}

/// Whether this comes out so.
fn comes_out<S: Source>(rt: &HostRuntime, place: &Place, source: &mut S, ask: &Ask<'_>) -> bool {
    match *ask {
        Ask::HasLength(length) => source.length() == length,
        Ask::Fills(at, count, want) => fills(rt, source, at, count, want),
        Ask::Sets(length) => set_length(rt, &place.path, length).is_ok(),
        Ask::Replaces => replace(rt, place).is_ok(),
    }
}

/// Whether all of this comes out so, in turn.
fn all_come_out<S: Source>(
    rt: &HostRuntime,
    place: &Place,
    source: &mut S,
    asks: &[Ask<'_>],
) -> bool {
    for ask in asks {
        if !comes_out(rt, place, source, ask) {
            return false;
        }
    }
    true
}

/// A source of what stands at this path.
fn opened<'p>(rt: &'p HostRuntime, path: &'p str) -> io::Result<FileSource<'p, &'p HostRuntime>> {
    FileSource::new(rt, rt.alloc(), path)
}

/// Whether all of this comes out so with a new source of the file, whose folder is removed.
fn reads(rt: &HostRuntime, place: &Place, asks: &[Ask<'_>]) -> bool {
    match opened(rt, place.path.as_str()) {
        Ok(mut source) => {
            all_come_out(rt, place, &mut source, asks) && is_removed(rt, &place.dir)
        }
        Err(_) => false,
    }
}

/// The same, of a file with as many bytes, counted on from 0, in a new folder of this name.
fn goes(rt: &HostRuntime, name: &str, count: u32, asks: &[Ask<'_>]) -> bool {
    match new_place(rt, name, count) {
        Ok(place) => reads(rt, &place, asks),
        Err(_) => false,
    }
}

/// The tail of a file, and then its front.
static TAIL_AND_PREFIX: [Ask; 3] = [
    Ask::HasLength(200),
    Ask::Fills(128, 72, Want::Ends(128, 199)),
    Ask::Fills(0, 3, Want::All(&[0, 1, 2])),
];

#[test]
fn a_source_reads_from_any_place(rt: HostRuntime) {
    assert!(rt; goes(&rt, "source", 200, &TAIL_AND_PREFIX));
}

/// A source reads ahead: what it has read it still has, and what it has not is missing where the
/// file has shrunk.
static READ_AHEAD: [Ask; 5] = [
    Ask::Fills(1024, 1024, Want::Ends(20, 39)),
    Ask::Sets(70_000),
    Ask::Fills(65_536, 1024, Want::Ends(25, 44)),
    Ask::Fills(66_560, 1024, Want::Fault),
    Ask::HasLength(130_000),
];

#[test]
fn a_source_reads_many_blocks_at_a_time(rt: HostRuntime) {
    assert!(rt; goes(&rt, "ahead", 130_000, &READ_AHEAD));
}

/// More than is read ahead at a time, in one piece.
#[test]
fn a_source_fills_a_large_buffer(rt: HostRuntime) -> io::Result<()> {
    let all = counted(rt.alloc(), 70_000)?;
    let asks = [Ask::Fills(0, 70_000, Want::All(all.as_slice()))];
    assert!(rt; goes(&rt, "piece", 70_000, &asks));
    Ok(())
}

/// What stands behind places at which a number of 21, 31 or 32 bits turns over.
static MARKS: [Ask; 3] = [
    Ask::Fills(0x0020_0005, 3, Want::All(&[1, 2, 3])),
    Ask::Fills(0x8000_0005, 3, Want::All(&[4, 5, 6])),
    Ask::Fills(0x1_0000_0005, 3, Want::All(&[7, 8, 9])),
];

/// Puts each mark into the file at this path, with holes between them.
fn put_marks(rt: &HostRuntime, path: &PathBuf) -> io::Result<()> {
    let file = writable(rt, path)?;
    file.set_len(0x1_0002_0000)?;
    for mark in &MARKS {
        if let Ask::Fills(at, _, Want::All(bytes)) = mark {
            file.write_all_at(bytes, *at)?;
        }
    }
    Ok(())
}

#[test]
fn a_source_reads_far_into_a_file(rt: HostRuntime) -> io::Result<()> {
    let place = new_place(&rt, "far", 0)?;
    put_marks(&rt, &place.path)?;
    assert!(rt; reads(&rt, &place, &MARKS));
    Ok(())
}

/// A source fails where its file has another length, and not where it has its own again.
static OWN_LENGTH: [Ask; 4] = [
    Ask::Sets(101),
    Ask::Fills(0, 50, Want::Fault),
    Ask::Sets(100),
    Ask::Fills(0, 50, Want::Ends(0, 49)),
];

#[test]
fn a_source_has_the_length_that_it_was_made_with(rt: HostRuntime) {
    assert!(rt; goes(&rt, "same", 100, &OWN_LENGTH));
}

/// A source opens its file where it first reads it.
static OPENS: [Ask; 1] = [Ask::Fills(0, 50, Want::Ends(0, 49))];

/// A source that is not open yet fails once another file has the name of its file.
static REPLACED: [Ask; 2] = [Ask::Replaces, Ask::Fills(0, 50, Want::Fault)];

/// A source that is open goes on with its own. Behind its last byte it is closed.
static GOES_ON: [Ask; 2] = [
    Ask::Fills(50, 50, Want::Ends(50, 99)),
    Ask::Fills(50, 50, Want::Fault),
];

/// Whether a source goes on with its file where a late one fails.
fn goes_on<S: Source>(rt: &HostRuntime, place: &Place, source: &mut S, late: &mut S) -> bool {
    all_come_out(rt, place, source, &OPENS)
        && all_come_out(rt, place, late, &REPLACED)
        && all_come_out(rt, place, source, &GOES_ON)
}

/// The same, of two new sources of the file.
fn keeps_file(rt: &HostRuntime, place: &Place) -> bool {
    let path = place.path.as_str();
    match (opened(rt, path), opened(rt, path)) {
        (Ok(mut source), Ok(mut late)) => goes_on(rt, place, &mut source, &mut late),
        _ => false,
    }
}

#[test]
fn a_source_is_the_file_that_it_was_made_of(rt: HostRuntime) -> io::Result<()> {
    let place = new_place(&rt, "other", 100)?;
    assert!(rt; keeps_file(&rt, &place) && is_removed(&rt, &place.dir));
    Ok(())
}

/// Whether no source is made of what stands at this path.
fn is_refused(rt: &HostRuntime, path: &str) -> bool {
    match opened(rt, path) {
        Ok(_source) => false,
        Err(_) => true,
    }
}

/// Whether no source is made of this folder, of what is missing in it, of a device, or of no path.
fn others_are_refused(rt: &HostRuntime, dir: &PathBuf) -> io::Result<bool> {
    let missing = dir.join(rt.alloc(), "missing")?;
    Ok(
        is_refused(rt, dir.as_str())
            && is_refused(rt, missing.as_str())
            && is_refused(rt, "/dev/zero")
            && is_refused(rt, ""),
    )
}

#[test]
fn a_source_is_a_regular_file(rt: HostRuntime) -> io::Result<()> {
    let dir = folder(&rt, "regular")?;
    assert!(rt; others_are_refused(&rt, &dir)? && is_removed(&rt, &dir));
    Ok(())
}
