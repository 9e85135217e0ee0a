ghost use Rattle.std.specs.Prelude.{None};

use super::calls::{played, played_by, same, session_of};
use std::io::Cursor;
use std::test::Fail;
use ym_line::{Carrier, CarryFault, Way};
use ym_play::{PlayFault, read_script};

/// One file of `A`, 128 times, and the six rounds that it needs.
pub(super) const ONE_FILE: &[u8] = b"file a.txt \
    4141414141414141414141414141414141414141414141414141414141414141\
    4141414141414141414141414141414141414141414141414141414141414141\
    4141414141414141414141414141414141414141414141414141414141414141\
    4141414141414141414141414141414141414141414141414141414141414141\
    \nok 6\n";

/// A writer that takes no memory.
fn page() -> Cursor<[u8; 512]> {
    Cursor::new([0; 512])
}

/// What was written to it.
fn text(page: &Cursor<[u8; 512]>) -> &[u8] {
    page.get_ref()
        .get(..page.position() as usize)
        .unwrap_or(&[])
}

/// Holds whichever one growth is refused: the fault is want of memory and no other.
#[test]
fn a_growth_is_refused(rt: HostRuntime) -> Result<(), Fail> {
    match played(rt.alloc(), ONE_FILE) {
        Ok((_, status)) => assert!(rt; same(&status, &0)),
        Err(fault) => assert!(rt; same(&fault, &PlayFault::Memory)),
    }
    Ok(())
}

/// Holds whichever one growth is refused: the fault line tells want of memory, and nothing is
/// printed.
#[test]
fn a_growth_of_a_session_is_refused(rt: HostRuntime) -> Result<(), Fail> {
    let mut out = page();
    let mut err = page();
    let mut input = ONE_FILE;
    let status = session_of(rt.alloc(), &mut input, &mut out, &mut err);
    if status != 0 {
        assert!(rt; same(&status, &3));
        assert!(rt; text(&out).is_empty());
        assert!(rt; same(&text(&err), &b"fault: memory\n".as_slice()));
    }
    Ok(())
}

/// Holds whichever one growth is refused.
#[test]
fn a_growth_of_a_script_is_refused(rt: HostRuntime) -> Result<(), Fail> {
    let alloc = rt.alloc();
    let script = b"file a 41 1 2\nround hex:00 hex:\nok 3\n";
    if let Err(fault) = read_script(alloc, script) {
        assert!(rt; same(&fault, &PlayFault::Memory));
    }
    Ok(())
}

/// A carrier without memory.
#[derive(Drop)]
struct Full;

impl Carrier for Full {
    ghost told = { λ _. None };

    ghost failures = { λ _. 0 };

    fn carry(&mut self, _way: Way, _bytes: &[u8], _into: &mut Vec<u8>) -> Result<(), CarryFault> {
        Err(CarryFault::Memory)
    }
}

#[test]
fn the_carrier_has_no_memory(rt: HostRuntime) -> Result<(), Fail> {
    let refused = played_by(rt.alloc(), b"ok 1", &mut Full).err();
    assert!(rt; same(&refused, &Some(PlayFault::Memory)));
    Ok(())
}
