//! Lines of a record that wait to be written.

ghost use Rattle.std.specs.Prelude.{◌≡◌, ◌++◌, [], OnOk, OnErr, IfOk};
ghost use Rattle.std.specs.Io.KnownBytes.{append_known};
ghost use Rattle.ym_capture.specs.RecordText.{line_of};
ghost use Rattle.ym_folder.specs.WriteBehind.{GrowsByPrefix};
ghost use Rattle.ym_record.specs.RecordGrowth.{buffered_line};

use crate::append::Append;
use std::alloc::{AllocError, Global};
use std::io;
use std::marker::Model;
use ym_capture::push_line;
use ym_told::Direction;

/// How much of a text has room at once. More than a frame and its answer never wait together.
const TEXT: usize = 8192;

/// How many bytes of a piece have room: those of the longest frame, and more.
const PIECE: usize = 2048;

/// Lines that wait to be written. The piece that passed last waits as it is: it is turned into its
/// line when the next one has passed, or when all is written, and not before its end goes on. So
/// the other end does not wait for that.
#[derive(Drop)]
pub(crate) struct Lines {
    text: Vec<u8>,
    /// The moment and the way of the piece that passed last, where it has no line yet.
    buffered: Option<(u64, Direction)>,
    /// Its bytes.
    piece: Vec<u8>,
}

impl Model for Lines {
    ghost use Rattle.std.specs.Prelude.{ℕ, List, ◌++◌};
    ghost use Rattle.ym_record.specs.RecordGrowth.{buffered_line};

    ghost Value = { List ℕ };

    ghost view = { λ l. l.text.items ++ buffered_line l.buffered l.piece.items };
}

/// Puts the line of the piece that is held, if one is, behind a text.
fn settle(
    text: &mut Vec<u8>,
    buffered: Option<(u64, Direction)>,
    piece: &[u8],
) -> Result<(), AllocError>
    ensures { OnOk result (text.new.items ≡ text.old.items ++ buffered_line buffered piece.now) }
{
    match buffered {
        Some((micros, way)) => push_line(text, micros, way, piece),
        None => Ok(()),
    }
}

impl Lines {
    /// None, and no room for any.
    pub(crate) fn none(alloc: Global) -> Lines
        ensures { result ≡ [] }
    {
        Lines {
            text: Vec::new(alloc),
            buffered: None,
            piece: Vec::new(alloc),
        }
    }

    /// None yet. The memory for all that will ever wait is taken here.
    pub(crate) fn new(alloc: Global) -> Result<Lines, AllocError>
        ensures { IfOk result (λ lines. lines ≡ []) }
    {
        Ok(Lines {
            text: Vec::with_capacity(alloc, TEXT)?,
            buffered: None,
            piece: Vec::with_capacity(alloc, PIECE)?,
        })
    }

    /// Keeps a piece, whose line stands behind the others.
    pub(crate) fn keep(
        &mut self,
        micros: u64,
        way: Direction,
        bytes: &[u8],
    ) -> Result<(), AllocError>
        ensures { OnOk result (self.new ≡ self.old ++ line_of micros way bytes.now) }
    {
        settle(&mut self.text, self.buffered, self.piece.as_slice())?;
        self.buffered = None;
        self.piece.clear();
        self.piece.extend_from_slice(bytes)?;
        self.buffered = Some((micros, way));
        Ok(())
    }

    /// Writes all of them. Where that fails a front of them may have been written.
    pub(crate) fn write_to<A: Append>(&mut self, to: &mut A) -> io::Result<()>
        ensures written { OnOk result (A.taken to.new ≡ append_known (A.taken to.old) self.old) }
        ensures none_wait { OnOk result (self.new ≡ []) }
        ensures prefix { OnErr result (GrowsByPrefix (A.taken to.old) (A.taken to.new) self.old) }
    {
        settle(&mut self.text, self.buffered, self.piece.as_slice())?;
        self.buffered = None;
        to.append(self.text.as_slice())?;
        self.text.clear();
        Ok(())
    }
}
