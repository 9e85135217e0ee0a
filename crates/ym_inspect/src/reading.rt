//! How a capture is read: in pieces.

ghost use Rattle.std.specs.Prelude.{◌≡◌, ◌<◌, ◌≤◌, ℕ, List, Option, Some, IfOk, OnOk, IfErr, length};
ghost use Rattle.std.specs.Io.KnownBytes.{ReadConsumes};
ghost use Rattle.ym_inspect.specs.CaptureFaults.{CountsReads, CountsWrites};
ghost use Rattle.ym_inspect.specs.CaptureTold.{Tells, tagged};

use crate::fault::InspectFault;
use crate::inspection::Inspection;
use ym_streams::{Input, Output, StreamFault};
use ym_told::{Direction, Settle};

/// How many bytes of a capture are read at a time.
pub(crate) const PIECE: usize = 8192;

/// Reads some bytes of a capture, and answers how many: none only at its end.
pub(crate) fn read_some<I: Input>(input: &mut I, buffer: &mut [u8]) -> Result<usize, InspectFault>
    ensures count { IfOk result (λ n. n ≤ length buffer.new) }
    ensures bytes { ReadConsumes (I.remaining input.old) (I.remaining input.new) result buffer.new }
    ensures failed { CountsReads result (I.failures input.old) (I.failures input.new) }
    ensures why { IfErr result (λ fault. fault ≡ InspectFault.Read) }
{
    match input.read_some(buffer) {
        Ok(count) => Ok(count),
        Err(StreamFault) => Err(InspectFault::Read),
    }
}

/// Reads all of a file of this way, and tells what is sure of it.
pub(crate) fn tell_file<I: Input, O: Output>(
    input: &mut I,
    way: Direction,
    inspection: &mut Inspection,
    out: &mut O,
) -> Result<(), InspectFault>
    ensures tells { OnOk result ((text : List ℕ) → I.remaining input.old ≡ Some text
        → Tells inspection.old (O.contents out.old) (tagged way text)
        inspection.new (O.contents out.new)) }
    ensures read { CountsReads result (I.failures input.old) (I.failures input.new) }
    ensures wrote { CountsWrites result (O.failures out.old) (O.failures out.new) }
{
    let mut buffer = [0u8; PIECE];
    for _ in 0..u64::MAX {
        let count = read_some(input, &mut buffer)?;
        if count == 0 {
            return Ok(());
        }
        inspection.hold(way, &buffer[..count])?;
        inspection.tell_way(way, Settle::Nothing, out)?;
    }
    Err(InspectFault::Endless)
}
