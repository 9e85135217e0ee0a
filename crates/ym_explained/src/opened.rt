//! A file that is told.

use std::fs::File;
use std::io::Read;
use ym_capture::{CaptureKind, kind_of};
use ym_streams::{Input, StreamFault};
use ym_text::Reason;

/// So many bytes say whether a file is a record or a capture.
const FRONT: usize = 4;

/// The first bytes of a file, as far as they came.
#[derive(Clone, Copy)]
struct Front {
    bytes: [u8; FRONT],
    length: usize,
}

impl Front {
    /// With these behind them.
    fn with(self, more: &[u8]) -> Front {
        let mut front = self;
        for byte in &more[..more.len().min(FRONT)] {
            if front.length < FRONT {
                front.bytes[front.length] = *byte;
                front.length += 1;
            }
        }
        front
    }
}

/// What was seen of a file while it was told.
#[derive(Clone, Copy)]
pub(crate) struct Seen {
    /// Why a read of it failed.
    pub(crate) why: Option<Reason>,
    /// It begins as a record, or as what is nothing that is read.
    pub(crate) is_record: bool,
}

/// A file that is open, and what was seen of it.
#[derive(Drop)]
pub(crate) struct Opened {
    file: File,
    front: Front,
    why: Option<Reason>,
}

impl Opened {
    /// One of which nothing was read.
    pub(crate) fn new(file: File) -> Opened {
        Opened {
            file,
            front: Front {
                bytes: [0; FRONT],
                length: 0,
            },
            why: None,
        }
    }

    /// What was seen of it.
    pub(crate) fn seen(&self) -> Seen {
        Seen {
            why: self.why,
            is_record: matches!(kind_of(&self.front.bytes), CaptureKind::Other),
        }
    }
}

/// What a file has nobody knows, and how often a read of it failed is not counted.
impl Input for Opened {
    ghost use Rattle.std.specs.Prelude.{◌^◌, ◌-◌, None};

    ghost remaining = { λ _. None };

    ghost failures = { λ _. 2 ^ 64 - 1 };

    fn read_some(&mut self, buf: &mut [u8]) -> Result<usize, StreamFault> {
        match self.file.read(buf) {
            Ok(count) => {
                self.front = self.front.with(&buf[..count]);
                Ok(count)
            }
            Err(error) => {
                self.why = Some(Reason::of(&error));
                Err(StreamFault)
            }
        }
    }
}
