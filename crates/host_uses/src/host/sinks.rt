//! Files that are stored in a folder.

use super::acts::Act;
use super::folders::counted;
use super::steps::{Step, Why, goes};
use std::io::ErrorKind;
use std::test::Fail;
use ym_folder::Leftover;

/// A file gets its name when it is whole.
static STORES: [Step; 6] = [
    Step::Stores("b", b"xyz", &[Act::Lacks("b"), Act::Holds("b.part", b"")]),
    Step::Acts(&[Act::Holds("b", b"xyz"), Act::Lacks("b.part")]),
    Step::Stores("empty", b"", &[]),
    Step::Acts(&[Act::Holds("empty", b"")]),
    Step::Told(&["b", "empty"]),
    Step::Closes(true),
];

#[test]
fn a_file_gets_its_name_when_it_is_whole(rt: HostRuntime) {
    assert!(rt; goes(&rt, "store", Leftover::Refused, &STORES));
}

static STAYS: [Step; 7] = [
    Step::Acts(&[Act::Writes("a", "old"), Act::Writes("b.part", "old")]),
    Step::Refuses("a"),
    Step::First(Why::IsThere),
    // the first failure is told, and not the next
    Step::Refuses("b"),
    Step::First(Why::IsThere),
    Step::Acts(&[Act::Holds("a", b"old"), Act::Lacks("a.part")]),
    Step::Acts(&[Act::Holds("b.part", b"old"), Act::Lacks("b")]),
];

#[test]
fn what_is_there_stays(rt: HostRuntime) {
    assert!(rt; goes(&rt, "stays", Leftover::Refused, &STAYS));
}

/// A name that comes while its part is open.
static STAYS_MEANWHILE: [Step; 6] = [
    Step::Fails("c", b"", &[Act::Writes("c", "new")]),
    Step::First(Why::IsThere),
    Step::Acts(&[Act::Holds("c", b"new")]),
    Step::Told(&[]),
    Step::Closes(true),
    Step::Acts(&[Act::Lacks("c.part")]),
];

#[test]
fn what_comes_meanwhile_stays(rt: HostRuntime) {
    assert!(rt; goes(&rt, "meanwhile", Leftover::Refused, &STAYS_MEANWHILE));
}

/// A name of 255 bytes.
const LONG: &str = "\
    nnnnnnnnnnnnnnnnnnnnnnnnnnnnnnnnnnnnnnnnnnnnnnnnnnnnnnnnnnnnnnnnnnnnnnnnnnnnnnnnnnnnn\
    nnnnnnnnnnnnnnnnnnnnnnnnnnnnnnnnnnnnnnnnnnnnnnnnnnnnnnnnnnnnnnnnnnnnnnnnnnnnnnnnnnnnn\
    nnnnnnnnnnnnnnnnnnnnnnnnnnnnnnnnnnnnnnnnnnnnnnnnnnnnnnnnnnnnnnnnnnnnnnnnnnnnnnnnnnnnn";

/// A name of 255 bytes, whose 250th byte is in the middle of a character.
const WIDE: &str = "\
    nnnnnnnnnnnnnnnnnnnnnnnnnnnnnnnnnnnnnnnnnnnnnnnnnnnnnnnnnnnnnnnnnnnnnnnnnnnnnnnnnnn\
    nnnnnnnnnnnnnnnnnnnnnnnnnnnnnnnnnnnnnnnnnnnnnnnnnnnnnnnnnnnnnnnnnnnnnnnnnnnnnnnnnnn\
    nnnnnnnnnnnnnnnnnnnnnnnnnnnnnnnnnnnnnnnnnnnnnnnnnnnnnnnnnnnnnnnnnnnnnnnnnnnnnnnnnnn\
    \u{e9}1234";

/// A file of one byte is stored under each name by a sink of its own, and removed again.
static NAMES: [Step; 3] = [
    Step::Acts(&[
        Act::OtherStores("n", b"1"),
        Act::Holds("n", b"1"),
        Act::Removes("n"),
    ]),
    Step::Acts(&[
        Act::OtherStores(LONG, b"1"),
        Act::Holds(LONG, b"1"),
        Act::Removes(LONG),
    ]),
    Step::Acts(&[
        Act::OtherStores(WIDE, b"1"),
        Act::Holds(WIDE, b"1"),
        Act::Removes(WIDE),
    ]),
];

#[test]
fn every_name_of_a_file_is_stored(rt: HostRuntime) {
    assert!(rt; LONG.len() == 255 && WIDE.len() == 255);
    assert!(rt; goes(&rt, "names", Leftover::Discarded, &NAMES));
}

/// What is told where the folder is missing.
static MISSED: [Step; 4] = [
    Step::Acts(&[Act::RemovesAll]),
    Step::Refuses("a"),
    Step::First(Why::System(ErrorKind::NotFound)),
    Step::Acts(&[Act::MakesAll]),
];

#[test]
fn a_folder_that_is_missing_is_told(rt: HostRuntime) {
    assert!(rt; goes(&rt, "missing", Leftover::Discarded, &MISSED));
}

/// Whether these 200,000 bytes are stored in order.
fn stores_all(rt: &HostRuntime, all: &[u8]) -> bool {
    goes(rt, "large", Leftover::Refused, &[Step::StoresInThree(all)])
}

/// More bytes than wait at a time are there at the end, in order.
#[test]
fn a_large_file_is_stored(rt: HostRuntime) -> Result<(), Fail> {
    let all = counted(rt.alloc(), 200_000)?;
    assert!(rt; stores_all(&rt, all.as_slice()));
    Ok(())
}
