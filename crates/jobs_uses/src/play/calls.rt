//! Calls of what is tested. They tell a proof nothing of what they do, so that a test costs it
//! little.

use std::alloc::Global;
use std::io::{Read, Write};
use ym_line::{Carrier, Direct};
use ym_play::{PlayFault, play_script, session};

/// Whether two values are the same.
pub(super) fn same<T: PartialEq>(left: &T, right: &T) -> bool {
    left == right
}

/// The text and the status of a script that is played by this carrier.
pub(super) fn played_by<C: Carrier>(
    alloc: Global,
    script: &[u8],
    carrier: &mut C,
) -> Result<(String, u8), PlayFault> {
    let played = play_script(alloc, script, carrier)?;
    Ok((played.text, played.status))
}

/// The same, by a carrier in memory.
pub(super) fn played(alloc: Global, script: &[u8]) -> Result<(String, u8), PlayFault> {
    played_by(alloc, script, &mut Direct::new(alloc))
}

/// The status of a session by this carrier.
pub(super) fn session_by<R: Read, W: Write, E: Write, C: Carrier>(
    alloc: Global,
    input: &mut R,
    out: &mut W,
    err: &mut E,
    carrier: &mut C,
) -> u8 {
    session(alloc, input, out, err, carrier)
}

/// The same, by a carrier in memory.
pub(super) fn session_of<R: Read, W: Write, E: Write>(
    alloc: Global,
    input: &mut R,
    out: &mut W,
    err: &mut E,
) -> u8 {
    session_by(alloc, input, out, err, &mut Direct::new(alloc))
}

/// How a session has to end: with this status, and this text on either output.
#[derive(Clone, Copy)]
pub(super) struct End<'a> {
    pub status: u8,
    pub out: &'a str,
    pub err: &'a str,
}

/// Whether a session by this carrier ends so.
pub(super) fn ends_by<R: Read, C: Carrier>(
    alloc: Global,
    input: &mut R,
    carrier: &mut C,
    end: End<'_>,
) -> bool {
    let mut printed = Vec::new(alloc);
    let mut told = Vec::new(alloc);
    let ended = session_by(alloc, input, &mut printed, &mut told, carrier);
    told.as_slice() == end.err.as_bytes()
        && printed.as_slice() == end.out.as_bytes()
        && ended == end.status
}

/// The same, by a carrier in memory.
pub(super) fn ends<R: Read>(
    alloc: Global,
    input: &mut R,
    status: u8,
    out: &str,
    err: &str,
) -> bool {
    ends_by(
        alloc,
        input,
        &mut Direct::new(alloc),
        End { status, out, err },
    )
}
