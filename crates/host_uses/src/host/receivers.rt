//! A receiver over a folder.

ghost use Rattle.ym_file.specs.Kept.{IsNew};

use super::acts::{Act, all_hold};
use super::folders::{folder, is_removed};
use super::steps::new_sink;
use std::alloc::{AllocError, Global};
use std::path::PathBuf;
use std::test::Fail;
use ym_file::Sink;
use ym_folder::{Folder, Leftover};
use ym_frame::{Bytes, Item, encode};
use ym_header::{Header, Stamp, write};
use ym_host::SystemFolder;
use ym_link::{Confirm, Event, ReceiverInto, RecvState, ScriptPort, receive_over};

/// A port to which these bytes come.
fn port_with(alloc: Global, bytes: &[u8]) -> Result<ScriptPort, AllocError> {
    let piece = Vec::from_slice(alloc, bytes)?;
    let mut events = Vec::new(alloc);
    events.push(Event::Piece(Bytes::new(piece)))?;
    Ok(ScriptPort::new(alloc, events, None))
}

/// A port to which the block 0 of the file `a` comes.
fn port_of(alloc: Global) -> Result<ScriptPort, AllocError> {
    match Header::new(alloc, "a", 3, Stamp::Nothing) {
        Ok(header) => port_with(alloc, encode(&Item::Block(write(&header))).as_bytes()),
        Err(_) => port_with(alloc, b""),
    }
}

/// Whether a receiver of the file `a` into this new sink cancels, and stores nothing.
fn cancels<K: Sink + Drop>(alloc: Global, sink: K) -> bool
    requires { IsNew (K.kept sink) }
{
    let mut receiver = ReceiverInto::with_sink(alloc, sink, Confirm::Twice);
    match port_of(alloc) {
        Ok(mut port) => {
            receive_over(&mut port, &mut receiver).is_ok()
                && receiver.state() == RecvState::SinkFailed
                && receiver.committed() == 0
                && port.written() == [0x18, 0x18].as_slice()
        }
        Err(_) => false,
    }
}

/// The same, of a sink over this folder.
fn cancels_over<D: Folder + Drop>(folder: D, alloc: Global, dir: &PathBuf) -> bool {
    match new_sink(folder, alloc, dir, Leftover::Refused) {
        Ok(sink) => cancels(alloc, sink),
        Err(_) => false,
    }
}

/// What is there before, and stays as it is while a receiver cancels.
static BEFORE: [Act; 1] = [Act::Writes("a", "old")];

static STAYS: [Act; 2] = [Act::Holds("a", b"old"), Act::Lacks("a.part")];

/// Whether a file that is there stays as it is while a receiver cancels.
fn leaves_it(rt: &HostRuntime, dir: &PathBuf) -> bool {
    all_hold(rt, dir, &BEFORE)
        && cancels_over(SystemFolder::new(rt), rt.alloc(), dir)
        && all_hold(rt, dir, &STAYS)
}

/// Where the folder has the name already, the receiver cancels, and what is there stays.
#[test]
fn a_name_that_is_there_cancels(rt: HostRuntime) -> Result<(), Fail> {
    let dir = folder(&rt, "cancels")?;
    assert!(rt; leaves_it(&rt, &dir) && is_removed(&rt, &dir));
    Ok(())
}
