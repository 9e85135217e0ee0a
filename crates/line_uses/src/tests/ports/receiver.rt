//! A receiver.

use super::line::{ACK_START, Act, Case, OPENING, START, holds};
use std::test::Fail;
use ym_link::Wait;
use ym_port::Role;

static CASES: [Case; 2] = [
    Case {
        name: "its own reply is not heard: it comes back, and an opening behind it",
        role: Role::Receiver,
        moments: &[1000, 1000, 1012],
        pieces: &[b"\x43\x01\x00\xFF\x61\x1A"],
        acts: &[Act::Writes(START), Act::Hears(Wait::Reply, OPENING)],
        waited: None,
        looks: None,
    },
    Case {
        name: "the rest of a delivery is waited for since it came: block 1 comes in two pieces",
        role: Role::Receiver,
        moments: &[1000, 1000, 1012, 1500],
        pieces: &[b"\x01\x01", b"\xFE\x06\x1A"],
        acts: &[
            Act::Writes(ACK_START),
            Act::Hears(Wait::Reply, b"\x01\x01"),
            Act::Hears(Wait::Within, b"\xFE\x06\x1A"),
        ],
        waited: Some(&[3000, 1000]),
        looks: Some(4),
    },
];

#[test]
fn a_receiver_over_a_line(rt: HostRuntime) -> Result<(), Fail> {
    for case in &CASES {
        assert!(rt; holds(rt.alloc(), case)?, "{}", case.name);
    }
    Ok(())
}
