//! Parts: those that are open, those of earlier runs, and what stands in their place.

use super::acts::Act;
use super::steps::{Step, Why, goes};
use ym_folder::{Leftover, part_name};

static LET_GO: [Step; 4] = [
    Step::LetsGo("b", &[Act::Holds("b.part", b"")]),
    Step::Acts(&[Act::Lacks("b.part"), Act::Lacks("b")]),
    // a part that is gone cannot be removed, and no file is open all the same
    Step::Leaves("b", &[Act::Removes("b.part")]),
    Step::Closes(true),
];

#[test]
fn a_part_that_is_open_is_removed(rt: HostRuntime) {
    assert!(rt; goes(&rt, "close", Leftover::Refused, &LET_GO));
}

static REPLACED_MEANWHILE: [Step; 6] = [
    Step::Fails("a", b"1", &[Act::Replaces("a.part", "other")]),
    Step::First(Why::PartIsGone),
    Step::Told(&[]),
    Step::Acts(&[Act::Lacks("a")]),
    // what is no longer the part stays
    Step::Closes(false),
    Step::Acts(&[Act::IsLink("a.part")]),
];

#[test]
fn a_part_that_was_replaced_is_not_stored(rt: HostRuntime) {
    assert!(rt; goes(&rt, "replaced", Leftover::Discarded, &REPLACED_MEANWHILE));
}

/// A part of an earlier run is removed, once nobody has it.
static LEFT_EARLIER: [Step; 9] = [
    Step::Acts(&[Act::Writes("a.part", "old")]),
    Step::RefusesLocked("a", "a.part"),
    Step::First(Why::PartIsThere),
    Step::Acts(&[Act::Holds("a.part", b"old")]),
    Step::Stores("a", b"", &[Act::Holds("a.part", b"")]),
    Step::Acts(&[Act::Holds("a", b"")]),
    // what is no regular file is no part
    Step::Acts(&[Act::MakesFolder("b.part")]),
    Step::Refuses("b"),
    Step::Acts(&[Act::IsFolder("b.part")]),
];

#[test]
fn a_part_of_an_earlier_run_is_removed(rt: HostRuntime) {
    assert!(rt; goes(&rt, "earlier", Leftover::Discarded, &LEFT_EARLIER));
}

static TOLD: [Step; 7] = [
    Step::Replaces("a", None),
    Step::Closes(true),
    Step::Acts(&[Act::Writes("a.part", "old")]),
    Step::Replaces("b", None),
    Step::Replaces("a", Some("a.part")),
    Step::Replaces("a", None),
    Step::Closes(true),
];

#[test]
fn a_part_that_is_replaced_is_told(rt: HostRuntime) {
    assert!(rt; goes(&rt, "told", Leftover::Discarded, &TOLD));
}

static STORED_AS_PART: [Step; 3] = [
    Step::Stores("a.part", b"1", &[]),
    Step::Refuses("a"),
    Step::Acts(&[Act::Holds("a.part", b"1")]),
];

#[test]
fn a_stored_file_is_no_part(rt: HostRuntime) {
    assert!(rt; goes(&rt, "stored", Leftover::Discarded, &STORED_AS_PART));
}

/// What a disk that does not tell upper from lower case takes for one: here each stands by itself.
static ALIKE: [Step; 6] = [
    Step::Stores("A.Part", b"1", &[Act::Writes("a.part", "1")]),
    Step::Refuses("a"),
    Step::Acts(&[Act::Holds("a.part", b"1"), Act::Writes("b.part", "old")]),
    // another name is none of the part
    Step::Stores("b", b"2", &[]),
    Step::Acts(&[Act::Lacks("b.part"), Act::Writes("\u{e4}.part", "1")]),
    // what is one with a name that is not ASCII nobody knows
    Step::Refuses("\u{e4}"),
];

#[test]
fn a_stored_file_is_no_part_where_names_are_one(rt: HostRuntime) {
    assert!(rt; goes(&rt, "alike", Leftover::Discarded, &ALIKE));
}

/// Two sinks leave each other's parts.
static BOTH_STORE: [Step; 2] = [
    Step::Stores(
        "a",
        b"1",
        &[Act::OtherRefuses("a"), Act::OtherStores("b", b"")],
    ),
    Step::Acts(&[Act::Holds("a", b"1"), Act::Holds("b", b"")]),
];

#[test]
fn two_sinks_do_not_take_each_others_part(rt: HostRuntime) {
    assert!(rt; goes(&rt, "two", Leftover::Discarded, &BOTH_STORE));
}

/// Whether this is the name of the part of a file of that name.
fn is_part_of(rt: &HostRuntime, part: &str, name: &str) -> bool {
    match part_name(rt.alloc(), name) {
        Ok(found) => found.as_str() == part,
        Err(_) => false,
    }
}

#[test]
fn a_part_is_named_after_its_file(rt: HostRuntime) {
    assert!(rt; is_part_of(&rt, "a.txt.part", "a.txt") && is_part_of(&rt, ".part", ""));
}
