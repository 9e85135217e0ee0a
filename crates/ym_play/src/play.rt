//! A script played on a line.

ghost use Rattle.std.specs.Prelude.{◌≡◌, ◌≤◌, None, [], IfOk};
ghost use Rattle.ym_file.specs.Counts.{new_tally};
ghost use Rattle.ym_file.specs.MemSink.{kept_of};
ghost use Rattle.ym_core.specs.Receiver.{new_receiver};
ghost use Rattle.ym_play.specs.Play.{PlayGives, RunsAs, status_of};

use crate::fault::PlayFault;
use crate::script::{Script, read_script};
use std::alloc::Global;
use ym_line::laws::{made_ends_are_new, new_ends_stand};
use ym_line::{Carrier, LineFault, Trace, run, trace_text};
use ym_link::{Confirm, Receiver, RecvState, SendState, Sender};

/// What was played.
#[derive(Drop)]
pub struct Played {
    /// The text of the trace.
    pub text: String,
    /// 0 where both ends have finished, else 1.
    pub status: u8,
}

/// A receiver without files, in memory.
fn receiver_of(alloc: Global, confirm: Confirm) -> Receiver
    ensures { result ≡
        record {
          receiver = new_receiver confirm;
          kept = kept_of (record { opened = None; files = []; tally = new_tally None });
          failures = 0;
        } }
{
    match confirm {
        Confirm::Twice => Receiver::new(alloc),
        Confirm::Once => Receiver::single(alloc),
    }
}

/// 0 where both ends have finished, else 1.
fn status_of(trace: &Trace) -> u8
    ensures value { result ≡ status_of trace.now }
    ensures small { result ≤ 1 }
{
    match (trace.send, trace.recv) {
        (SendState::Finished, RecvState::Finished) => 0,
        _ => 1,
    }
}

/// Sends the batch of a script to a new receiver in memory over its rounds, by this carrier.
fn run_script<C: Carrier>(
    alloc: Global,
    script: Script,
    carrier: &mut C,
) -> Result<Trace, LineFault>
    ensures { RunsAs script (C.told carrier.old) (C.failures carrier.old) result
        (C.told carrier.new) (C.failures carrier.new) }
{
    let Script {
        batch,
        shape,
        confirm,
        rounds,
    } = script;
    let mut sender = Sender::new(batch, shape).unwrap();
    let mut receiver = receiver_of(alloc, confirm);
    made_ends_are_new();
    new_ends_stand();
    run(alloc, &mut sender, &mut receiver, &rounds, carrier)
}

/// Reads a script, and sends its batch to a new receiver in memory over its rounds, by this
/// carrier. The whole script is read before the first round.
pub fn play_script<C: Carrier>(
    alloc: Global,
    script: &[u8],
    carrier: &mut C,
) -> Result<Played, PlayFault>
    ensures gives { PlayGives script.now (C.told carrier.old) (C.failures carrier.old) result
        (C.told carrier.new) (C.failures carrier.new) }
    ensures status { IfOk result (λ played. played.status ≤ 1) }
{
    let script = read_script(alloc, script)?;
    let trace = run_script(alloc, script, carrier)?;
    let text = trace_text(alloc, &trace)?;
    Ok(Played {
        text,
        status: status_of(&trace),
    })
}
