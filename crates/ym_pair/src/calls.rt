//! Calls of the engines, with what is known of them against any peer: nothing is supposed of who is
//! at the other end, or of what the port brings.

ghost use Rattle.std.specs.Prelude.{◌≡◌, ◌≤◌, ℕ, List, length, is_ok, true};
ghost use Rattle.ym_file.specs.Kept.{IsNew};
ghost use Rattle.ym_core.specs.Position.{done_at};
ghost use Rattle.ym_core.specs.Receiver.{new_receiver};
ghost use Rattle.ym_core.specs.Standing.{new_standing};
ghost use Rattle.ym_core.specs.declared.delivery.Heard.{Heard};
ghost use Rattle.ym_core.specs.declared.state.SendState.TheVariants as state;
ghost use Rattle.ym_link.specs.History.{SenderHears, ReceiverHears};
ghost use Rattle.ym_link.specs.Port.{Tape};
ghost use Rattle.ym_link.specs.ReceiveOver as receiving;
ghost use Rattle.ym_link.specs.Sender.{counts};
ghost use Rattle.ym_link.specs.SendOver as sending;
ghost use Rattle.ym_pair.specs.AnyPeer.{CommitsTheHeard, AreAcknowledged, batch_positions, files_positions};
ghost use Rattle.ym_machine.specs.declared.limits.TheConstants.{BURST};
ghost use Rattle.ym_line.specs.Completion.{NoneCounted, longest_bad_run};
ghost use Rattle.ym_line.specs.Promise.{AreNew, CommitsAPrefix};
ghost use Rattle.ym_line.specs.declared.delivery.Round.{Round};
ghost use Rattle.ym_pair.specs.Pairing.{AreCalls, CallsPairUp, HaveBothFinished, ends};
ghost use Rattle.ym_pair.specs.Logs.{heard_in, spoke_in, spoke_along};

use crate::laws::{
    a_finished_sender_was_acknowledged, a_receiver_commits_what_it_heard,
    a_sender_was_acknowledged, two_engines_commit_a_prefix, two_engines_complete,
};
use ym_file::{Sink, Source};
use ym_link::{EndFault, Port, ReceiverInto, SenderFrom, receive_over, send_over};

/// Receives over a port, as `receive_over` does. However it returns, and whatever the peer is, each
/// file that a new receiver has committed was spelled by frames that it heard, in order.
pub fn receive_from_any_peer<P: Port, K: Sink>(
    port: &mut P,
    receiver: &mut ReceiverInto<K>,
) -> Result<(), EndFault>
    ensures heard { receiver.old.receiver ≡ new_receiver receiver.old.receiver.confirm →
        IsNew receiver.old.kept →
        (deliveries : List Heard) × (progress : ℕ)
        × ReceiverHears receiver.old deliveries progress receiver.new
        × CommitsTheHeard receiver.old.receiver.confirm deliveries receiver.new.kept }
    ensures told { receiver.old.receiver ≡ new_receiver receiver.old.receiver.confirm →
        IsNew receiver.old.kept → (u : Tape) → P.tells port.new u →
        (t : Tape) × P.tells port.old t
        × (run : receiving.Receives receiver.old t (record {
          receiver = receiver.new;
          tape = u;
          answer = result;
        }))
        × CommitsTheHeard receiver.old.receiver.confirm (heard_in receiver.old t _ run)
        receiver.new.kept }
{
    a_receiver_commits_what_it_heard();
    receive_over(port, receiver)
}

/// Sends over a port, as `send_over` does. However it returns, and whatever the peer is, each frame
/// of each file that a new sender reports as done was acknowledged while it was what had been
/// written last; and where it has finished, so was the end block behind them.
pub fn send_to_any_peer<P: Port, S: Source>(
    port: &mut P,
    sender: &mut SenderFrom<S>,
) -> Result<(), EndFault>
    ensures acknowledged { sender.old.standing ≡ new_standing (counts sender.old) →
        (deliveries : List (List ℕ)) × (progress : ℕ)
        × (hears : SenderHears sender.old deliveries progress sender.new)
        × AreAcknowledged sender.old.shape sender.old.files
        (files_positions (counts sender.old)
        (done_at (length sender.old.files) sender.new.standing.position))
        (spoke_along sender.old deliveries progress sender.new hears) }
    ensures finished { sender.old.standing ≡ new_standing (counts sender.old) →
        sender.new.standing.state ≡ state.Finished →
        (deliveries : List (List ℕ)) × (progress : ℕ)
        × (hears : SenderHears sender.old deliveries progress sender.new)
        × AreAcknowledged sender.old.shape sender.old.files (batch_positions (counts sender.old))
        (spoke_along sender.old deliveries progress sender.new hears) }
    ensures told { sender.old.standing ≡ new_standing (counts sender.old) → (u : Tape) →
        P.tells port.new u →
        (t : Tape) × P.tells port.old t
        × (run : sending.Sends sender.old t (record {
          sender = sender.new;
          tape = u;
          answer = result;
        }))
        × AreAcknowledged sender.old.shape sender.old.files
        (files_positions (counts sender.old)
        (done_at (length sender.old.files) sender.new.standing.position))
        (spoke_in sender.old t _ run) }
{
    a_sender_was_acknowledged();
    a_finished_sender_was_acknowledged();
    send_over(port, sender)
}

/// A call of each engine, each over a port of its own, as two processes make them at the two ends
/// of one line. Where their deliveries pair up, new ends commit a prefix of the batch, however each
/// call returns, and complete where both return well, no failure was counted and no bad run is
/// longer than a burst.
pub fn send_and_receive<P: Port, S: Source, Q: Port, K: Sink>(
    near: &mut P,
    sender: &mut SenderFrom<S>,
    far: &mut Q,
    receiver: &mut ReceiverInto<K>,
) -> (Result<(), EndFault>, Result<(), EndFault>)
    ensures history { AreNew (ends sender.old receiver.old) →
        AreCalls sender.old sender.new receiver.old receiver.new }
    ensures prefix { AreNew (ends sender.old receiver.old) →
        (calls : AreCalls sender.old sender.new receiver.old receiver.new) (rounds : List Round) →
        CallsPairUp sender.old sender.new receiver.old receiver.new calls rounds →
        CommitsAPrefix sender.old.files (ends sender.new receiver.new) }
    ensures complete { AreNew (ends sender.old receiver.old) → is_ok result.0 ≡ true →
        is_ok result.1 ≡ true →
        NoneCounted (ends sender.old receiver.old) (ends sender.new receiver.new) →
        (calls : AreCalls sender.old sender.new receiver.old receiver.new) (rounds : List Round) →
        CallsPairUp sender.old sender.new receiver.old receiver.new calls rounds →
        longest_bad_run 0 rounds ≤ BURST →
        HaveBothFinished sender.old.files (ends sender.new receiver.new) }
{
    two_engines_commit_a_prefix();
    two_engines_complete();
    let sent = send_over(near, sender);
    let received = receive_over(far, receiver);
    // what a sender keeps to is known once it is looked at
    let _frame = sender.frame();
    (sent, received)
}
