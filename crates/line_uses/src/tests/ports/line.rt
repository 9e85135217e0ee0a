//! A line that plays moments and pieces, and what an end over it did.

use std::alloc::{AllocError, Global};
use ym_frame::Bytes;
use ym_link::{Event, Got, Port, Wait};
use ym_port::{Deed, Role, TapeWire, TimedPort};

pub const OPENING: &[u8] = &[0x01, 0x00, 0xFF, 0x61, 0x1A];

pub const BLOCK_1: &[u8] = &[0x01, 0x01, 0xFE, 0x06, 0x1A];

pub const BLOCK_2: &[u8] = &[0x01, 0x02, 0xFD, 0x06, 0x1A];

pub const EOT: &[u8] = &[0x04];

pub const END_BLOCK: &[u8] = &[0x01, 0x00, 0xFF, 0x00, 0x1A];

pub const ACK: &[u8] = &[0x06];

pub const ACK_START: &[u8] = &[0x06, 0x43];

pub const START: &[u8] = &[0x43];

pub const CANCEL: &[u8] = &[0x18, 0x18];

/// What is asked of an end, and what has to come of it.
#[derive(Clone, Copy)]
pub enum Act {
    /// It writes these bytes.
    Writes(&'static [u8]),
    /// A read hears these bytes; none are a quiet line.
    Hears(Wait, &'static [u8]),
    /// A read finds the line closed.
    IsClosed,
}

/// An end, the line that it has, what is asked of it in turn, and what it did then. What a table
/// tells is proved once, in the loop over it, and so a long table costs a proof little.
pub struct Case {
    /// What it shows.
    pub name: &'static str,
    pub role: Role,
    /// What the line's clock tells.
    pub moments: &'static [u64],
    /// What comes; a piece without bytes is a quiet line.
    pub pieces: &'static [&'static [u8]],
    pub acts: &'static [Act],
    /// How long the reads of the line waited, one after another, where that is looked at.
    pub waited: Option<&'static [u64]>,
    /// How often the clock was asked, where that is looked at.
    pub looks: Option<u64>,
}

/// The end of a case.
fn end_of(alloc: Global, case: &Case) -> Result<TimedPort<TapeWire>, AllocError> {
    let mut events = Vec::new(alloc);
    for piece in case.pieces {
        events.push(Event::Piece(Bytes::new(piece.to_vec(alloc)?)))?;
    }
    let wire = TapeWire::new(alloc, case.moments.to_vec(alloc)?, events, None);
    Ok(TimedPort::new(wire, case.role))
}

// What an end is asked is asked of a port of any kind: a call is dear to prove where it is made of
// one kind. These functions tell a proof nothing, and so cost it little.

/// Whether a port writes these bytes.
fn writes<P: Port>(port: &mut P, bytes: &[u8]) -> bool {
    port.write(bytes).is_ok()
}

/// Whether a read hears these bytes; none are a quiet line.
fn hears<P: Port>(port: &mut P, wait: Wait, bytes: &[u8]) -> bool {
    let mut buf = [0; 2048];
    match port.read(wait, &mut buf) {
        Ok(Got::Bytes(count)) => buf.get(..count) == Some(bytes),
        Ok(Got::Quiet) => bytes.is_empty(),
        Ok(Got::Closed) | Err(_) => false,
    }
}

/// Whether a read finds the line closed.
fn is_closed<P: Port>(port: &mut P) -> bool {
    let mut buf = [0; 2048];
    port.read(Wait::Reply, &mut buf) == Ok(Got::Closed)
}

/// Whether what has to come of each act comes of it.
fn follows<P: Port>(port: &mut P, acts: &[Act]) -> bool {
    for act in acts {
        let is_so = match *act {
            Act::Writes(bytes) => writes(port, bytes),
            Act::Hears(wait, bytes) => hears(port, wait, bytes),
            Act::IsClosed => is_closed(port),
        };
        if !is_so {
            return false;
        }
    }
    true
}

/// Whether the reads of the line waited so long, one after another.
fn has_waited(deeds: &[Deed], millis: &[u64]) -> bool {
    let mut left = millis.iter();
    for deed in deeds {
        if let Deed::Waited(waited) = deed {
            if left.next() != Some(waited) {
                return false;
            }
        }
    }
    left.next().is_none()
}

/// How often the clock was asked.
fn looks(deeds: &[Deed]) -> u64 {
    let mut count: u64 = 0;
    for deed in deeds {
        if let Deed::Looked = deed {
            count = count.saturating_add(1);
        }
    }
    count
}

/// Whether these are the deeds of a case.
fn are_done(deeds: &[Deed], case: &Case) -> bool {
    let is_waited = match case.waited {
        Some(millis) => has_waited(deeds, millis),
        None => true,
    };
    let is_looked = match case.looks {
        Some(count) => looks(deeds) == count,
        None => true,
    };
    is_waited && is_looked
}

/// Whether what has to come of a case comes of it.
pub fn holds(alloc: Global, case: &Case) -> Result<bool, AllocError> {
    let mut port = end_of(alloc, case)?;
    let follows = follows(&mut port, case.acts);
    Ok(follows && are_done(port.wire().deeds().unwrap_or(&[]), case))
}
