//! Bytes that came together.

ghost use Rattle.std.specs.Prelude.{◌≡◌, ◌≤◌, ◌+◌, ◌*◌, ◌++◌, length, take};
ghost use Rattle.ym_line_c.specs.Bulk.{after_dropping, cleared_by};
ghost use Rattle.ym_timing.specs.ByteRows.{after_bytes, bytes_of, heard_of};
ghost use Rattle.ym_timing.specs.declared.role.Role.{Role};

use ym_heard::{START, Say};
use ym_timing::{Purge, Role, Timing};

/// The byte ACK.
const ACK: u8 = 0x06;

/// Puts what is heard of a byte behind the first `count` bytes, and answers how many those are
/// then.
#[tactic(auto, using(std::proofs::lemmas::List::take_more_set))]
fn speak(say: Say, byte: u8, heard: &mut [u8], count: usize) -> usize
    requires { count + 2 ≤ length heard.old }
    ensures bytes { take result heard.new ≡ take count heard.old ++ bytes_of say byte }
    ensures few { result ≤ count + 2 }
{
    match say {
        Say::Nothing => count,
        Say::Byte => {
            heard[count] = byte;
            count + 1
        }
        Say::AckAndByte => {
            heard[count] = ACK;
            heard[count + 1] = byte;
            count + 2
        }
        Say::Start => {
            heard[count] = START;
            count + 1
        }
    }
}

/// Takes what came to a sender, byte by byte.
#[tactic(auto, using(crate::proofs::Folds::after_more, crate::proofs::Folds::heard_more))]
fn hear_reply(
    timing: &mut Timing,
    bytes: &[u8],
    written: &[u8],
    now: u64,
    heard: &mut [u8],
) -> usize
    requires { 2 * length bytes.now ≤ length heard.old }
    ensures new { timing.new ≡ after_bytes bytes.now written.now now timing.old }
    ensures heard { take result heard.new ≡ heard_of bytes.now written.now now timing.old }
    ensures few { result ≤ 2 * length bytes.now }
{
    let mut count = 0;
    for byte in bytes {
        let say = timing.byte(*byte, written, now);
        count = speak(say, *byte, heard, count);
    }
    count
}

/// Takes what came to a receiver, all at once: all is heard that is no echo of its reply.
fn hear_frame(timing: &mut Timing, bytes: &[u8], reply: &[u8], now: u64, heard: &mut [u8]) -> usize
    requires receiver { timing.old.role ≡ Role.Receiver }
    requires room { length bytes.now ≤ length heard.old }
    ensures new { timing.new ≡ after_bytes bytes.now reply.now now timing.old }
    ensures heard { take result heard.new ≡ heard_of bytes.now reply.now now timing.old }
    ensures few { result ≤ length bytes.now }
{
    let echoed = timing.frame_bytes(bytes, reply, now);
    let rest = &bytes[echoed..];
    heard[..rest.len()].copy_from_slice(rest);
    rest.len()
}

/// Takes bytes that came at this moment, where this was written last, and puts what is to be heard
/// of them to the front of `heard`. Answers how many bytes that are.
pub fn hear_bytes(
    timing: &mut Timing,
    bytes: &[u8],
    written: &[u8],
    now: u64,
    heard: &mut [u8],
) -> usize
    requires { 2 * length bytes.now ≤ length heard.old }
    ensures new { timing.new ≡ after_bytes bytes.now written.now now timing.old }
    ensures heard { take result heard.new ≡ heard_of bytes.now written.now now timing.old }
    ensures few { result ≤ 2 * length bytes.now }
{
    match timing.role {
        Role::Sender => hear_reply(timing, bytes, written, now, heard),
        Role::Receiver => hear_frame(timing, bytes, written, now, heard),
    }
}

/// Takes bytes that came at this moment and are dropped while the line clears.
#[tactic(auto, using(crate::proofs::Folds::dropped_more, crate::proofs::Folds::cleared_more))]
pub fn drop_bytes(
    timing: &mut Timing,
    purge: Purge,
    bytes: &[u8],
    written: &[u8],
    now: u64,
) -> Purge
    ensures new { timing.new ≡ after_dropping bytes.now purge written.now now timing.old }
    ensures purge { result ≡ cleared_by bytes.now purge written.now now timing.old }
{
    let mut purge = purge;
    for byte in bytes {
        purge = timing.dropped(purge, *byte, written, now);
    }
    purge
}
