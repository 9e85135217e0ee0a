//! A file of bytes of one way alone.

ghost use Rattle.std.specs.Prelude.{◌≡◌, ℕ, List, Some, IfOk};
ghost use Rattle.ym_explain.specs.PrefixOf.{has_block};
ghost use Rattle.ym_inspect.specs.CaptureFaults.{CountsReads, CountsWrites};
ghost use Rattle.ym_inspect.specs.CaptureTold.{Explains, TellsLast, has_frame, tagged, ways_of};

use crate::fault::InspectFault;
use crate::inspection::Inspection;
use crate::reading::tell_file;
use std::alloc::Global;
use ym_explain::{Passed, Verdict, Ways, prefix_of};
use ym_frame::Whole;
use ym_streams::{Input, Output};
use ym_told::Direction;

/// Tells a file of the bytes of one way.
///
/// # Errors
///
/// Where a read or a write failed, or memory ran out.
pub fn explain_one_way<I: Input, O: Output>(
    alloc: Global,
    input: &mut I,
    way: Direction,
    out: &mut O,
) -> Result<Verdict, InspectFault>
    // All that was read is told, and nothing else.
    ensures told { IfOk result (λ verdict. (text : List ℕ) → I.remaining input.old ≡ Some text
        → Explains (ways_of way) (tagged way text) (O.contents out.old) verdict
        (O.contents out.new)) }
    // The last of what is told is this verdict.
    ensures last { IfOk result (λ verdict.
        TellsLast (ways_of way) verdict (O.contents out.new)) }
    ensures reads { CountsReads result (I.failures input.old) (I.failures input.new) }
    ensures wrote { CountsWrites result (O.failures out.old) (O.failures out.new) }
{
    let mut inspection = Inspection::new(alloc);
    tell_file(input, way, &mut inspection, out)?;
    inspection.end(one_way(way), out)
}

/// The ways that are known where this one alone is.
fn one_way(way: Direction) -> Ways
    ensures { result ≡ ways_of way }
{
    match way {
        Direction::There => Ways::There,
        Direction::Back => Ways::Back,
    }
}

/// Whether a whole block stands among these bytes: then their sender wrote them.
pub fn has_frames(bytes: &[u8]) -> bool
    ensures { result ≡ has_frame bytes.now }
{
    for (position, _) in bytes.iter().enumerate() {
        if begins_block(&bytes[position..]) {
            return true;
        }
    }
    false
}

/// Whether these bytes begin with a whole block.
fn begins_block(bytes: &[u8]) -> bool
    ensures { result ≡ has_block bytes.now }
{
    matches!(prefix_of(bytes), Passed::Frame(Whole::Block(_)))
}
