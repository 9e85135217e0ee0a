//! A session: a script in, the text of its run out, and a status back.

ghost use Rattle.std.specs.Prelude.{◌≡◌, ◌≢◌, ◌≤◌, ◌⊎◌, ◌+◌, ℕ, List, Some, IfOk};
ghost use Rattle.std.specs.Io.KnownBytes.{Appends};
ghost use Rattle.ym_file.specs.Counts.{Counted};
ghost use Rattle.ym_play.specs.Session.{fault_status, SessionGives};
ghost use Rattle.ym_play.specs.SessionOver.{Scene, ScriptGives, SessionEnds, HasFailed, IsReadWithin, session_text, session_line};
ghost use Rattle.ym_play.specs.declared.limits.TheConstants.{MOST_SCRIPT_BYTES};

use crate::fault::PlayFault;
use crate::input::{InputFault, take_script};
use crate::play::{Played, play_script};
use std::alloc::Global;
use std::fmt;
use std::io::{Read, Write};
use ym_line::{Carrier, LineFault};
use ym_streams::{Input, Output, StreamFault};

/// The status after a refused script or round.
const REFUSED: u8 = 2;

/// The status after a failed device, and where there was no memory.
const FAILED: u8 = 3;

/// Why a session prints no text.
#[derive(Clone, Copy)]
enum SessionFault {
    /// A read or a write failed.
    Device,
    /// The script was not played.
    Play(PlayFault),
}

impl fmt::Display for SessionFault {
    ghost output = { λ fault. Some (session_text fault) };

    fn fmt<W: fmt::Write>(&self, f: &mut fmt::Formatter<W>) -> fmt::Result {
        match self {
            SessionFault::Device => f.write_str("fault: device"),
            SessionFault::Play(fault) => write!(f, "{fault}"),
        }
    }
}

impl From<InputFault> for SessionFault {
    ghost use Rattle.ym_play.specs.Session.{input_fault};
    ghost use Rattle.std.specs.Prelude.{◌≡◌};

    ghost from_gives = { λ fault e. e ≡ input_fault fault };

    fn from(fault: InputFault) -> SessionFault {
        match fault {
            InputFault::Device => SessionFault::Device,
            InputFault::Memory => SessionFault::Play(PlayFault::Memory),
        }
    }
}

impl SessionFault {
    /// The status that tells it.
    fn status(&self) -> u8
        ensures { result ≡ fault_status self.now }
    {
        match self {
            SessionFault::Device
            | SessionFault::Play(
                PlayFault::Memory | PlayFault::Line(LineFault::Carrier | LineFault::Memory),
            ) => FAILED,
            SessionFault::Play(
                PlayFault::Script { .. }
                | PlayFault::Line(LineFault::NotDamage(_) | LineFault::TooLong(_)),
            ) => REFUSED,
        }
    }
}

/// Takes the script from the reader and plays it.
fn play_input<I: Input, C: Carrier>(
    alloc: Global,
    input: &mut I,
    carrier: &mut C,
) -> Result<Played, SessionFault>
    // At any outputs, which it does not see.
    ensures plays { (old new : Scene) → old.told ≡ C.told carrier.old
        → old.carries_failed ≡ C.failures carrier.old → old.reads_failed ≡ I.failures input.old
        → new.told ≡ C.told carrier.new → new.carries_failed ≡ C.failures carrier.new
        → new.reads_failed ≡ I.failures input.new
        → ScriptGives (I.remaining input.old) old result new }
    ensures within { IsReadWithin (MOST_SCRIPT_BYTES + 1) (I.remaining input.old)
        (I.remaining input.new) }
    ensures status { IfOk result (λ played. played.status ≤ 1) }
{
    let script = take_script(alloc, input)?;
    match play_script(alloc, &script, carrier) {
        Ok(played) => Ok(played),
        Err(fault) => Err(SessionFault::Play(fault)),
    }
}

/// Writes the line that tells a fault. The answer is its status, or that of a failed device where
/// the line could not be written.
fn tell<E: Output>(err: &mut E, fault: SessionFault) -> u8
    ensures { ((result ≡ fault_status fault)
        × Appends (E.contents err.old) (E.contents err.new) (session_line fault)
        × (E.failures err.new ≡ E.failures err.old))
        ⊎ ((result ≡ 3) × Counted (E.failures err.old) (E.failures err.new)) }
{
    match err.put_line(fault) {
        Ok(()) => fault.status(),
        Err(StreamFault) => FAILED,
    }
}

/// Plays the script that `input` holds, by this carrier. The text of its run goes to `out`; or
/// where there is none, a line that tells why goes to `err`, and nothing to `out`. The answer is
/// the status: 0 where both ends have finished, 1 where they have not, 2 where the script or one of
/// its rounds is refused, and 3 where a read, a write or the carrier failed or memory ran out.
///
/// It takes at most 1,048,577 bytes of the script.
pub fn session_over<I: Input, O: Output, E: Output, C: Carrier>(
    alloc: Global,
    input: &mut I,
    out: &mut O,
    err: &mut E,
    carrier: &mut C,
) -> u8
    ensures ends { SessionEnds (I.remaining input.old)
        (record {
          out = O.contents out.old;
          err = E.contents err.old;
          told = C.told carrier.old;
          reads_failed = I.failures input.old;
          out_failed = O.failures out.old;
          err_failed = E.failures err.old;
          carries_failed = C.failures carrier.old;
        })
        result
        (record {
          out = O.contents out.new;
          err = E.contents err.new;
          told = C.told carrier.new;
          reads_failed = I.failures input.new;
          out_failed = O.failures out.new;
          err_failed = E.failures err.new;
          carries_failed = C.failures carrier.new;
        }) }
    ensures failed { result ≡ 3 → HasFailed (I.remaining input.old)
        (record {
          out = O.contents out.old;
          err = E.contents err.old;
          told = C.told carrier.old;
          reads_failed = I.failures input.old;
          out_failed = O.failures out.old;
          err_failed = E.failures err.old;
          carries_failed = C.failures carrier.old;
        })
        (record {
          out = O.contents out.new;
          err = E.contents err.new;
          told = C.told carrier.new;
          reads_failed = I.failures input.new;
          out_failed = O.failures out.new;
          err_failed = E.failures err.new;
          carries_failed = C.failures carrier.new;
        }) }
    ensures within { IsReadWithin (MOST_SCRIPT_BYTES + 1) (I.remaining input.old)
        (I.remaining input.new) }
    ensures refused { result ≡ 2 → O.contents out.new ≡ O.contents out.old }
    ensures status { result ≤ 3 }
{
    let played = match play_input(alloc, input, carrier) {
        Ok(played) => played,
        Err(fault) => return tell(err, fault),
    };
    match out.put(played.text.as_bytes()) {
        Ok(()) => played.status,
        Err(StreamFault) => tell(err, SessionFault::Device),
    }
}

/// The same over a reader and writers of the standard library, which do not say how often they
/// failed.
pub fn session<R: Read, W: Write, E: Write, C: Carrier>(
    alloc: Global,
    input: &mut R,
    out: &mut W,
    err: &mut E,
    carrier: &mut C,
) -> u8
    // Where no read and no write fails: a session that meets one has status 3.
    ensures gives { (text before wrong : List ℕ) → R.remaining input.old ≡ Some text
        → W.contents out.old ≡ Some before
        → E.contents err.old ≡ Some wrong → result ≢ 3
        → SessionGives text before wrong (C.told carrier.old) (C.failures carrier.old) result
        (W.contents out.new) (E.contents err.new) (C.told carrier.new) (C.failures carrier.new) }
    ensures within { IsReadWithin (MOST_SCRIPT_BYTES + 1) (R.remaining input.old)
        (R.remaining input.new) }
    ensures refused { result ≡ 2 → W.contents out.new ≡ W.contents out.old }
    ensures status { result ≤ 3 }
{
    session_over(alloc, input, out, err, carrier)
}
