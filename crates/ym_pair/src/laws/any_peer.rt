//! Laws of what an end promises against any peer.

ghost use Rattle.std.specs.Prelude.{◌≡◌, ◌++◌, List, ℕ, length, map};
ghost use Rattle.ym_frame.specs.Frame.{BeginsWith, IsBytes, IsFrame};
ghost use Rattle.ym_frame.specs.declared.frame.Item.{Item};
ghost use Rattle.ym_file.specs.Kept.{IsNew};
ghost use Rattle.ym_core.specs.Hearing.{heard_of};
ghost use Rattle.ym_core.specs.Position.{done_at};
ghost use Rattle.ym_core.specs.Receiver.{new_receiver};
ghost use Rattle.ym_core.specs.Standing.{new_standing};
ghost use Rattle.ym_core.specs.declared.delivery.Heard.{Heard};
ghost use Rattle.ym_core.specs.declared.delivery.Heard.TheVariants as heard_variant;
ghost use Rattle.ym_core.specs.declared.state.SendState.TheVariants as sender_is;
ghost use Rattle.ym_link.specs.History.{ReceiverHears, SenderHears};
ghost use Rattle.ym_link.specs.Port.{Tape};
ghost use Rattle.ym_link.specs.ReceiveOver as receiving;
ghost use Rattle.ym_link.specs.ReceiverInto.{ReceiverParts};
ghost use Rattle.ym_link.specs.Sender.{SenderParts, counts};
ghost use Rattle.ym_link.specs.SendOver as sending;
ghost use Rattle.ym_pair.specs.AnyPeer.{CommitsTheHeard, AreAcknowledged, batch_positions, files_positions, positions_before};
ghost use Rattle.ym_pair.specs.Logs.{Spoke, AreTaken, AreHeard, heard_in, spoke_in, last_words, answered_in, spoke_along, words_of, replies_of};

use ym_frame::laws::{frame_found, one_verdict};
use ym_link::laws::{a_delivery_goes_one_position, a_step_keeps_the_batch};

/// A delivery is heard as an item exactly where it begins with that item's frame: for a block the
/// check fits.
pub fn a_delivery_brings_its_frame()
    ensures heard { (delivery : List ℕ) (item : Item) →
        IsBytes delivery → heard_of delivery ≡ heard_variant.Item item →
        (n : ℕ) × BeginsWith delivery item n }
    ensures brought { (item : Item) (frame more : List ℕ) →
        IsFrame item frame → heard_of (frame ++ more) ≡ heard_variant.Item item }
{
    one_verdict();
    frame_found();
}

/// Whatever comes to a new receiver over a port, and however the call returns, the files that it
/// has committed were spelled by what it heard: in order, of each a block 0 that reads as its
/// header, data blocks from number 1 on whose bodies, put together and cut at the length, are its
/// bytes, and its EOT. Of a port that tells its events these are the deliveries that they make up;
/// of every port, those of the call's history.
pub fn a_receiver_commits_what_it_heard()
    ensures told { (r : ReceiverParts) (t : Tape) (out : receiving.Outcome)
        (run : receiving.Receives r t out) →
        r.receiver ≡ new_receiver r.receiver.confirm → IsNew r.kept →
        CommitsTheHeard r.receiver.confirm (heard_in r t out run) out.receiver.kept }
    ensures history { (r new : ReceiverParts) (deliveries : List Heard) (progress : ℕ)
        (hears : ReceiverHears r deliveries progress new) →
        r.receiver ≡ new_receiver r.receiver.confirm → IsNew r.kept →
        CommitsTheHeard r.receiver.confirm deliveries new.kept }
{}

/// Whatever comes to a new sender over a port, and however the call returns, each frame before the
/// position where it stands was, in order, what it had written last when a delivery came in which
/// an ACK was read; so was each frame of the files that it reports as done. Of a port that tells
/// nothing this is known of what the sender had to say at each delivery of the call's history.
pub fn a_sender_was_acknowledged()
    ensures done { (s : SenderParts) (t : Tape) (out : sending.Outcome)
        (run : sending.Sends s t out) →
        s.standing ≡ new_standing (counts s) →
        AreAcknowledged s.shape s.files
        (files_positions (counts s) (done_at (length s.files) out.sender.standing.position))
        (spoke_in s t out run) }
    ensures position { (s : SenderParts) (t : Tape) (out : sending.Outcome)
        (run : sending.Sends s t out) →
        s.standing ≡ new_standing (counts s) →
        AreAcknowledged s.shape s.files (positions_before (counts s) out.sender.standing.position)
        (spoke_in s t out run) }
    ensures history { (s new : SenderParts) (deliveries : List (List ℕ)) (progress : ℕ)
        (hears : SenderHears s deliveries progress new) →
        s.standing ≡ new_standing (counts s) →
        AreAcknowledged s.shape s.files
        (files_positions (counts s) (done_at (length s.files) new.standing.position))
        (spoke_along s deliveries progress new hears) }
{
    a_delivery_goes_one_position();
    a_step_keeps_the_batch();
}

/// So was each frame of the whole batch, the end block behind all others, where the sender has
/// finished.
pub fn a_finished_sender_was_acknowledged()
    ensures told { (s : SenderParts) (t : Tape) (out : sending.Outcome)
        (run : sending.Sends s t out) →
        s.standing ≡ new_standing (counts s) → out.sender.standing.state ≡ sender_is.Finished →
        AreAcknowledged s.shape s.files (batch_positions (counts s)) (spoke_in s t out run) }
    ensures history { (s new : SenderParts) (deliveries : List (List ℕ)) (progress : ℕ)
        (hears : SenderHears s deliveries progress new) →
        s.standing ≡ new_standing (counts s) → new.standing.state ≡ sender_is.Finished →
        AreAcknowledged s.shape s.files (batch_positions (counts s))
        (spoke_along s deliveries progress new hears) }
{
    a_delivery_goes_one_position();
    a_step_keeps_the_batch();
}

/// What an engine is said to have heard is what the events of its tape make up, delivery by
/// delivery: none of it twice, and none left out between.
pub fn what_was_heard_is_on_the_tape()
    ensures sender { (s : SenderParts) (t : Tape) (out : sending.Outcome)
        (run : sending.Sends s t out) →
        AreTaken t.coming (map (λ (one : Spoke). one.came) (spoke_in s t out run)) }
    ensures receiver { (r : ReceiverParts) (t : Tape) (out : receiving.Outcome)
        (run : receiving.Receives r t out) →
        AreHeard t.coming (heard_in r t out run) }
{}

/// What an engine is said to have written, in order, is what its tape has more behind the call.
pub fn what_was_written_is_on_the_tape()
    ensures sender { (s : SenderParts) (t : Tape) (out : sending.Outcome)
        (run : sending.Sends s t out) →
        out.tape.written ≡
        t.written ++ (words_of (spoke_in s t out run) ++ last_words s t out run) }
    ensures receiver { (r : ReceiverParts) (t : Tape) (out : receiving.Outcome)
        (run : receiving.Receives r t out) →
        out.tape.written ≡ t.written ++ replies_of (answered_in r t out run) }
{}
