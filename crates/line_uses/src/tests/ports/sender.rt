//! A sender.

use super::line::{
    ACK, ACK_START, Act, BLOCK_1, BLOCK_2, CANCEL, Case, END_BLOCK, EOT, OPENING, holds,
};
use std::test::Fail;
use ym_link::Wait;
use ym_port::Role;

static CASES: [Case; 6] = [
    Case {
        name: "a block costs one read and three looks",
        role: Role::Sender,
        moments: &[1000, 1000, 1012, 1012, 1012, 1024],
        pieces: &[ACK_START, ACK],
        acts: &[
            Act::Writes(OPENING),
            Act::Hears(Wait::Reply, ACK_START),
            Act::Writes(BLOCK_1),
            Act::Hears(Wait::Reply, ACK),
        ],
        waited: Some(&[2500, 2500]),
        looks: Some(6),
    },
    Case {
        name: "the wait for a reply has parts",
        role: Role::Sender,
        moments: &[1000, 1000, 3500, 6000, 8500, 11_000],
        pieces: &[b"", b"", b"", b""],
        acts: &[Act::Writes(OPENING), Act::Hears(Wait::Reply, b"")],
        waited: Some(&[2500, 2500, 2500, 2500]),
        looks: None,
    },
    Case {
        name: "an echo is not heard: block 1 comes back, and an ACK behind it",
        role: Role::Sender,
        moments: &[1000, 1000, 1012],
        pieces: &[b"\x01\x01\xFE\x06\x1A\x06"],
        acts: &[Act::Writes(BLOCK_1), Act::Hears(Wait::Reply, ACK)],
        waited: None,
        looks: None,
    },
    Case {
        name: "a reply before a cancel is none",
        role: Role::Sender,
        moments: &[1000, 1000, 1012],
        pieces: &[b"\x06\x18\x18"],
        acts: &[
            Act::Writes(BLOCK_1),
            Act::Hears(Wait::Reply, CANCEL),
            Act::IsClosed,
        ],
        waited: None,
        looks: None,
    },
    Case {
        name: "the last ACK is heard behind a moment",
        role: Role::Sender,
        moments: &[1000, 1000, 1012, 1012, 1012, 1024, 1049],
        pieces: &[ACK_START, ACK, b""],
        acts: &[
            Act::Writes(EOT),
            Act::Hears(Wait::Reply, ACK_START),
            Act::Writes(END_BLOCK),
            Act::Hears(Wait::Reply, ACK),
        ],
        waited: Some(&[2500, 2500, 25]),
        looks: None,
    },
    Case {
        name: "answers to copies are dropped",
        role: Role::Sender,
        moments: &[
            1000, 1000, 3500, 6000, 8500, 11_000, 11_000, 11_000, 11_012, 11_012, 11_500, 11_500,
            11_512,
        ],
        pieces: &[b"", b"", b"", b"", ACK, ACK, ACK],
        acts: &[
            Act::Writes(BLOCK_1),
            Act::Hears(Wait::Reply, b""),
            Act::Writes(BLOCK_1),
            Act::Hears(Wait::Reply, ACK),
            // the second answer is dropped, and the line is not waited for any longer
            Act::Writes(BLOCK_2),
            Act::Hears(Wait::Reply, ACK),
            Act::IsClosed,
        ],
        waited: None,
        looks: None,
    },
];

#[test]
fn a_sender_over_a_line(rt: HostRuntime) -> Result<(), Fail> {
    for case in &CASES {
        assert!(rt; holds(rt.alloc(), case)?, "{}", case.name);
    }
    Ok(())
}
