//! A call of each engine, with what is known of them on a line with time in it.

ghost use Rattle.std.specs.Prelude.{◌≡◌, ◌≢◌, ◌≤◌, List, is_ok, true};
ghost use Rattle.ym_core.specs.declared.state.RecvState.TheVariants as receiver_is;
ghost use Rattle.ym_machine.specs.declared.limits.TheConstants.{BURST};
ghost use Rattle.ym_line.specs.Completion.{NoneCounted, longest_bad_run};
ghost use Rattle.ym_line.specs.Promise.{AreNew, CommitsAPrefix};
ghost use Rattle.ym_line.specs.declared.delivery.Round.{Round};
ghost use Rattle.ym_pair.specs.Pairing.{AreCalls, CallsPairUp, HaveBothFinished, ends};
ghost use Rattle.ym_pair.specs.Logs.{spoke_along};
ghost use Rattle.ym_delay.specs.Cleared.{EndsWell, LetsClear};
ghost use Rattle.ym_delay.specs.TimedLine.{CallsAreTimed, HearsEachTime, IsPrompt, NoneMeet, Times};

use crate::laws::{cleared_calls_pair_up, timed_calls_pair_up};
use ym_file::{Sink, Source};
use ym_link::{EndFault, Port, ReceiverInto, SenderFrom};
use ym_pair::send_and_receive;

/// A call of each engine, each over a port of its own, as `send_and_receive` makes them. On a line
/// that is prompt, new ends commit a prefix of the batch, however each call returns, where no ask
/// meets a frame that was written again (`apart`), as where no wait of the sender was in vain
/// (`heard`). Where both return well, no failure was counted and their deliveries pair up with no
/// bad run longer than a burst, both have finished (`complete`). On any line, prompt or not, they
/// commit a prefix where the sender lets the line clear, if neither gave up at what it heard
/// (`cleared`), and complete as above (`cleared_complete`).
pub fn send_and_receive_in_time<P: Port, S: Source, Q: Port, K: Sink>(
    near: &mut P,
    sender: &mut SenderFrom<S>,
    far: &mut Q,
    receiver: &mut ReceiverInto<K>,
) -> (Result<(), EndFault>, Result<(), EndFault>)
    ensures history { AreNew (ends sender.old receiver.old) →
        AreCalls sender.old sender.new receiver.old receiver.new }
    ensures apart { (times : Times)
        (calls : AreCalls sender.old sender.new receiver.old receiver.new)
        (timed : CallsAreTimed times sender.old sender.new receiver.old receiver.new calls) →
        IsPrompt times → AreNew (ends sender.old receiver.old) →
        NoneMeet times timed.spoke timed.answered →
        CommitsAPrefix sender.old.files (ends sender.new receiver.new) }
    ensures heard { (times : Times)
        (calls : AreCalls sender.old sender.new receiver.old receiver.new)
        (timed : CallsAreTimed times sender.old sender.new receiver.old receiver.new calls) →
        IsPrompt times → AreNew (ends sender.old receiver.old) → HearsEachTime timed.spoke →
        CommitsAPrefix sender.old.files (ends sender.new receiver.new) }
    ensures cleared { (times : Times)
        (calls : AreCalls sender.old sender.new receiver.old receiver.new)
        (timed : CallsAreTimed times sender.old sender.new receiver.old receiver.new calls) →
        AreNew (ends sender.old receiver.old) →
        EndsWell sender.new
        (spoke_along sender.old calls.deliveries calls.progress sender.new calls.speaks) →
        receiver.new.receiver.state ≢ receiver_is.TooManyErrors →
        LetsClear times timed.spoke timed.answered →
        CommitsAPrefix sender.old.files (ends sender.new receiver.new) }
    ensures complete { (times : Times)
        (calls : AreCalls sender.old sender.new receiver.old receiver.new)
        (timed : CallsAreTimed times sender.old sender.new receiver.old receiver.new calls) →
        IsPrompt times → AreNew (ends sender.old receiver.old) → HearsEachTime timed.spoke →
        is_ok result.0 ≡ true → is_ok result.1 ≡ true →
        NoneCounted (ends sender.old receiver.old) (ends sender.new receiver.new) →
        (rounds : List Round)
        × CallsPairUp sender.old sender.new receiver.old receiver.new calls rounds
        × (longest_bad_run 0 rounds ≤ BURST →
        HaveBothFinished sender.old.files (ends sender.new receiver.new)) }
    ensures cleared_complete { (times : Times)
        (calls : AreCalls sender.old sender.new receiver.old receiver.new)
        (timed : CallsAreTimed times sender.old sender.new receiver.old receiver.new calls) →
        AreNew (ends sender.old receiver.old) →
        EndsWell sender.new
        (spoke_along sender.old calls.deliveries calls.progress sender.new calls.speaks) →
        receiver.new.receiver.state ≢ receiver_is.TooManyErrors →
        LetsClear times timed.spoke timed.answered →
        is_ok result.0 ≡ true → is_ok result.1 ≡ true →
        NoneCounted (ends sender.old receiver.old) (ends sender.new receiver.new) →
        (rounds : List Round)
        × CallsPairUp sender.old sender.new receiver.old receiver.new calls rounds
        × (longest_bad_run 0 rounds ≤ BURST →
        HaveBothFinished sender.old.files (ends sender.new receiver.new)) }
{
    timed_calls_pair_up();
    cleared_calls_pair_up();
    send_and_receive(near, sender, far, receiver)
}
