//! A run of bytes that are no frame and no answer, told as its bytes come.

ghost use Rattle.std.specs.Prelude.{◌≡◌, IfOk, string_bytes};
ghost use Rattle.ym_told.specs.RunText.{no_run, run_behind, goes_on, tail_back, tail_behind, tails, part_words, end_words};

use crate::moment::CaptureMoment;
use crate::runs::{is_printable, prefix_of, shown};
use crate::way::Direction;
use std::alloc::{AllocError, Global};
use std::fmt;

/// So many bytes of a run are shown at most.
pub const SHOWN: usize = 64;

/// What came last of a run.
#[derive(Clone, Copy, PartialEq, Eq)]
pub enum Tail {
    /// Printed text.
    Text,
    /// G, and no text before it: a receiver of YMODEM-g asks by it, or a text begins.
    Gs,
    /// Neither.
    Nothing,
}

/// The same behind this byte of the run.
fn tail_behind(tail: Tail, byte: u8) -> Tail
    ensures { result ≡ tail_behind tail byte }
{
    match tail {
        Tail::Gs | Tail::Nothing if byte == b'G' => Tail::Gs,
        Tail::Text | Tail::Gs | Tail::Nothing => {
            if is_printable(byte) {
                Tail::Text
            } else {
                Tail::Nothing
            }
        }
    }
}

/// The same behind these bytes of the run, one after another.
fn tail_behind_all(tail: Tail, bytes: &[u8]) -> Tail
    ensures { result ≡ tails tail bytes.now }
{
    let mut last = tail;
    for byte in bytes {
        last = tail_behind(last, *byte);
    }
    last
}

/// The run that was told last.
#[derive(Clone, Copy)]
pub struct Run {
    /// Whether it may go on: nothing else was told behind it.
    pub going: bool,
    /// Which end wrote it.
    pub way: Direction,
    /// How many of its bytes are shown: 64 at most.
    pub shown: usize,
    /// How many bytes it has.
    pub count: u64,
    /// What came last of it.
    pub tail: Tail,
}

impl Run {
    /// None was told.
    pub fn none() -> Run
        ensures { result ≡ no_run }
    {
        Run {
            going: false,
            way: Direction::There,
            shown: 0,
            count: 0,
            tail: Tail::Nothing,
        }
    }

    /// The run behind these bytes of this way.
    pub fn behind(self, way: Direction, bytes: &[u8]) -> Run
        ensures { result ≡ run_behind self way bytes.now }
    {
        let before = if self.continues(way) {
            self
        } else {
            Run::none()
        };
        let shown = bytes.len().min(SHOWN.saturating_sub(before.shown));
        Run {
            going: true,
            way,
            shown: before.shown.saturating_add(shown),
            count: before.count.saturating_add(bytes.len() as u64),
            tail: tail_behind_all(before.tail, bytes),
        }
    }

    /// Whether bytes of this way go on with it.
    pub fn continues(self, way: Direction) -> bool
        ensures { result ≡ goes_on self way }
    {
        self.going && self.way == way
    }

    /// What came last of it, where the receiver wrote it and it may go on.
    pub fn tail_back(self) -> Tail
        ensures { result ≡ tail_back self }
    {
        if self.continues(Direction::Back) {
            self.tail
        } else {
            Tail::Nothing
        }
    }

    /// What tells these bytes of this way, which are no frame and no answer.
    pub fn part(
        self,
        alloc: Global,
        at: CaptureMoment,
        way: Direction,
        bytes: &[u8],
    ) -> Result<String, AllocError>
        ensures { IfOk result (λ text. string_bytes text ≡ part_words self at way bytes.now) }
    {
        if self.continues(way) {
            let room = SHOWN.saturating_sub(self.shown);
            return shown(alloc, prefix_of(bytes, room));
        }
        let end = RunEnd(self);
        let prefix = shown(alloc, prefix_of(bytes, SHOWN))?;
        format!(in alloc; "{end}{at}{way}no frame: {prefix}")
    }
}

/// What ends the line of a run, if one is open.
#[derive(Clone, Copy)]
pub struct RunEnd(pub Run);

impl fmt::Display for RunEnd {
    ghost use Rattle.std.specs.Prelude.{Some};

    ghost output = { λ end. Some (end_words end.0) };

    fn fmt<W: fmt::Write>(&self, f: &mut fmt::Formatter<W>) -> fmt::Result {
        let run = self.0;
        let count = run.count;
        if !run.going {
            Ok(())
        } else if count > run.shown as u64 {
            write!(f, " .. {count} bytes\n")
        } else {
            f.write_str("\n")
        }
    }
}
