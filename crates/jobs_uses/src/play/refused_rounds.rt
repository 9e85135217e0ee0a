//! Rounds whose carrier fails, and its record.

use super::calls::{End, ends_by, played_by};
use super::fixtures::with_file;
use std::alloc::Global;
use std::test::Fail;
use ym_line::{Direct, LineFault};
use ym_play::PlayFault;

/// Whether a script whose carry of this number fails is refused for it.
fn is_refused(alloc: Global, script: &[u8], at: u64) -> bool {
    match played_by(alloc, script, &mut Direct::failing(alloc, at)) {
        Ok(_) => false,
        Err(fault) => fault == PlayFault::Line(LineFault::Carrier),
    }
}

/// Whether a session whose carry of this number fails ends in a failed device.
fn ends_at(alloc: Global, script: &[u8], at: u64) -> bool {
    let mut input = script;
    let mut line = Direct::failing(alloc, at);
    let end = End {
        status: 3,
        out: "",
        err: "fault: device\n",
    };
    ends_by(alloc, &mut input, &mut line, end)
}

/// Whether a script ends either way where a carry fails, there or back.
fn all_end(alloc: Global, script: &[u8]) -> bool {
    is_refused(alloc, script, 5)
        && is_refused(alloc, script, 6)
        && ends_at(alloc, script, 5)
        && ends_at(alloc, script, 6)
}

#[test]
fn a_carry_fails(rt: HostRuntime) -> Result<(), Fail> {
    let script = with_file(rt.alloc(), "a.txt", "ok 6\n")?;
    assert!(rt; all_end(rt.alloc(), script.as_bytes()));
    Ok(())
}

/// Whether a script that ends well leaves twelve deliveries on the record.
fn has_twelve(alloc: Global, script: &[u8]) -> bool {
    let mut line = Direct::new(alloc);
    match played_by(alloc, script, &mut line) {
        Ok((_, status)) => status == 0 && line.handed().len() == 12,
        Err(_) => false,
    }
}

/// The carrier's record has two deliveries of each round.
#[test]
fn each_delivery_is_on_the_record(rt: HostRuntime) -> Result<(), Fail> {
    let script = with_file(rt.alloc(), "a.txt", "ok 6\n")?;
    assert!(rt; has_twelve(rt.alloc(), script.as_bytes()));
    Ok(())
}
