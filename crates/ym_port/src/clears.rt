//! A line that is let clear: what comes is dropped until it has been quiet for long enough.

ghost use Rattle.std.specs.Prelude.{◌≡◌, OnOk, OnErr};
ghost use Rattle.ym_file.specs.Counts.{Counted};
ghost use Rattle.ym_port.specs.declared.line.TheConstants.{MOST_READS};
ghost use Rattle.ym_port.specs.TimedPort as table;
ghost use Rattle.ym_port.specs.Wire.{Tape};

use crate::line::{CLEAR_PIECE, Line, MOST_READS};
use crate::wire::Wire;
use ym_link::{Got, PortFault};
use ym_timing::Purge;

/// Drops what one read brings, which waits until the line is clear.
fn clear_once<W: Wire>(
    wire: &mut W,
    line: &mut Line,
    purge: Purge,
    buf: &mut [u8; CLEAR_PIECE],
) -> Result<Purge, PortFault>
    ensures exact { (u : Tape) → W.tells wire.new u → (t : Tape) × W.tells wire.old t
        × (table.clear_once purge line.old t
        ≡ record { answer = result; line = line.new; tape = u }) }
    ensures ok { OnOk result (W.failures wire.new ≡ W.failures wire.old) }
    ensures failed { OnErr result (Counted (W.failures wire.old) (W.failures wire.new)) }
{
    let until = line.timing.clear_at(purge);
    match wire.read(until.saturating_sub(line.clock.at), buf) {
        Ok(Got::Bytes(n)) => {
            line.look(wire.moment());
            Ok(line.drop_all(purge, &buf[..n]))
        }
        Ok(Got::Quiet) => {
            let _ = line.clock.waited(until, wire.moment());
            Ok(purge)
        }
        Ok(Got::Closed) => {
            line.is_closed = true;
            Ok(purge)
        }
        Err(fault) => Err(fault),
    }
}

/// Lets the line clear: drops what comes, by so many reads at most.
// rarely called: kept out of the way of a write that has nothing to clear
#[cold]
#[inline(never)]
pub fn let_clear<W: Wire>(wire: &mut W, line: &mut Line, start: Purge) -> Result<Purge, PortFault>
    ensures exact { (u : Tape) → W.tells wire.new u → (t : Tape) × W.tells wire.old t
        × (table.cleared MOST_READS start line.old t
        ≡ record { answer = result; line = line.new; tape = u }) }
    ensures ok { OnOk result (W.failures wire.new ≡ W.failures wire.old) }
    ensures failed { OnErr result (Counted (W.failures wire.old) (W.failures wire.new)) }
{
    let mut buf = [0; CLEAR_PIECE];
    let mut purge = start;
    for _done in 0..MOST_READS {
        if line.is_clear(purge) {
            return Ok(purge);
        }
        match clear_once(wire, line, purge, &mut buf) {
            Ok(next) => purge = next,
            Err(fault) => return Err(fault),
        }
    }
    Ok(purge)
}
