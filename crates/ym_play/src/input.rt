//! How a script is taken from a reader.

ghost use Rattle.std.specs.Prelude.{◌≡◌, ◌≢◌, ◌+◌, Err, IfOk};
ghost use Rattle.ym_file.specs.Counts.{Counted};
ghost use Rattle.ym_play.specs.SessionOver.{IsTaken, IsReadWithin};
ghost use Rattle.ym_play.specs.declared.limits.TheConstants.{MOST_SCRIPT_BYTES};

use crate::limits::MOST_SCRIPT_BYTES;
use std::alloc::Global;
use ym_streams::{Input, StreamFault};

/// Why a script was not taken.
#[derive(Clone, Copy)]
pub(crate) enum InputFault {
    /// A read failed.
    Device,
    /// Out of memory.
    Memory,
}

/// One byte more than a script may have: enough to see that it is too large.
const MOST: usize = MOST_SCRIPT_BYTES + 1;

/// How many bytes a read asks for.
const PIECE: usize = 8192;

/// The reader's bytes, or the first of them that show a script to be too large. A read that fails
/// is not tried again.
pub(crate) fn take_script<I: Input>(alloc: Global, input: &mut I) -> Result<Vec<u8>, InputFault>
    ensures taken { IfOk result (λ bytes. IsTaken (I.remaining input.old) bytes.items) }
    ensures within { IsReadWithin (MOST_SCRIPT_BYTES + 1) (I.remaining input.old)
        (I.remaining input.new) }
    ensures device { result ≡ Err InputFault.Device →
        Counted (I.failures input.old) (I.failures input.new) }
    ensures calm { result ≢ Err InputFault.Device → I.failures input.new ≡ I.failures input.old }
{
    let mut bytes = Vec::new(alloc);
    let mut buffer = [0u8; PIECE];
    while bytes.len() < MOST {
        let room = (MOST - bytes.len()).min(PIECE);
        let piece = &mut buffer[..room];
        match input.read_some(piece) {
            Ok(0) => return Ok(bytes),
            Ok(count) => {
                if bytes.extend_from_slice(&piece[..count]).is_err() {
                    return Err(InputFault::Memory);
                }
            }
            Err(StreamFault) => return Err(InputFault::Device),
        }
    }
    Ok(bytes)
}
