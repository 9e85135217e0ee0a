//! Laws of how many deliveries an end hears over a port.

ghost use Rattle.std.specs.Prelude.{◌≡◌, ◌≤◌, ◌+◌, ◌*◌, Bool, List, [], Ok, length, ℕ};
ghost use Rattle.ym_link.specs.declared.event.Event.{Event};
ghost use Rattle.ym_link.specs.Delivery.{taken, reads_in};
ghost use Rattle.ym_link.specs.Port.{Tape};
ghost use Rattle.ym_core.specs.Position.{first_of};
ghost use Rattle.ym_link.specs.Sender.{SenderParts, counts};
ghost use Rattle.ym_link.specs.SendOver as sending;
ghost use Rattle.ym_link.specs.Deliveries.{frames_in, frames_from};
ghost use Rattle.ym_link.specs.Bound.{accepted, steps_of, steps_at, receiver_hears, receiver_progress, sender_hears, sender_progress};
ghost use Rattle.ym_link.specs.ReceiverInto.{ReceiverParts, IsReceiver};
ghost use Rattle.ym_link.specs.ReceiveOver as receiving;
ghost use Rattle.ym_machine.specs.declared.limits.TheConstants.{GIVE_UP};
ghost use Rattle.ym_link.specs.declared.port.TheConstants.{DELIVERY_LIMIT};

/// A delivery has at most 2048 bytes and takes at most 2048 reads, whatever comes and whatever test
/// it ends by.
pub fn a_delivery_is_short()
    ensures bytes { (ends : List ℕ → Bool) (events : List Event) (bytes : List ℕ) →
        (taken ends [] events).delivery ≡ Ok bytes → length bytes ≤ DELIVERY_LIMIT }
    ensures reads { (ends : List ℕ → Bool) (events : List Event) →
        reads_in ends [] events ≤ DELIVERY_LIMIT }
{}

/// A sender over a port hears at most ten deliveries for each step of progress, and ten more; and
/// there are at most two such steps for each frame from its place on, of which a new sender has the
/// whole batch's.
pub fn a_sender_hears_few_deliveries()
    ensures deliveries { (s : SenderParts) (t : Tape) (out : sending.Outcome)
        (run : sending.Sends s t out) →
        sender_hears s t out run ≤ GIVE_UP * (sender_progress s t out run + 1) }
    ensures progress { (s : SenderParts) (t : Tape) (out : sending.Outcome)
        (run : sending.Sends s t out) →
        sender_progress s t out run ≤ 2 * frames_from (counts s) s.standing.position }
    ensures batch { (blocks : List ℕ) → frames_from blocks (first_of blocks) ≡ frames_in blocks }
{}

/// A receiver over a port hears at most ten deliveries for each step of progress, and ten more; and
/// those steps, with the ones that it has taken before, are among those of the files whose headers
/// it accepted.
pub fn a_receiver_hears_few_deliveries()
    ensures deliveries { (r : ReceiverParts) (t : Tape) (out : receiving.Outcome)
        (run : receiving.Receives r t out) →
        receiver_hears r t out run ≤ GIVE_UP * (receiver_progress r t out run + 1) }
    ensures progress { (r : ReceiverParts) (t : Tape) (out : receiving.Outcome)
        (run : receiving.Receives r t out) →
        receiver_progress r t out run + steps_at r ≤ steps_at out.receiver }
    ensures accepted { (r : ReceiverParts) → IsReceiver r → steps_at r ≤ steps_of (accepted r) }
{}
