//! Laws over the definitions alone.
//!
//! Each is a function with an empty body, whose contract is the law: call it where the law is
//! needed, at a type that names the kind of batch.

ghost use Rattle.std.specs.Prelude.{◌≡◌, ◌≢◌, ◌⊎◌, ◌+◌, ◌%◌, ◌<◌, ◌≤◌, ◌∷◌, ◌++◌, [], ℕ, Bool, List, true, false, length, map};
ghost use Rattle.ym_frame.specs.declared.control.Control.{Control};
ghost use Rattle.ym_frame.specs.declared.control.Control.TheVariants as control;
ghost use Rattle.ym_frame.specs.declared.control.Reply.{Reply};
ghost use Rattle.ym_frame.specs.declared.control.Reply.TheVariants.{Silence};
ghost use Rattle.ym_frame.specs.Control.{reply_bytes, IsSubsequence};
ghost use Rattle.ym_machine.specs.declared.confirm.Confirm.{Confirm};
ghost use Rattle.ym_machine.specs.declared.limits.TheConstants.{BURST};
ghost use Rattle.ym_machine.specs.Frames.{File, Frame, BlockZero, Piece, Eot, EndBlock, frames_of, frame_at, frame_before, body_at, count_within, files_within, IsPrefix, EndsOnce};
ghost use Rattle.ym_machine.specs.State.{SenderEnd, ReceiverEnd, State, start, FrameAt, said, committed, reported};
ghost use Rattle.ym_machine.specs.Steps.{receiver_step, sender_step, controls, holds_start, is_within, IsRemnant, control_byte, KeepsSender, KeepsReceiver, SenderStays};
ghost use Rattle.ym_machine.specs.Run.{Turn, after_turn, after_turns, entries_of, IsTurnDamage, IsDamage, NoFailure, AllWhole, is_whole, whole_turns, longest_bad_run, five_and_five};
ghost use Rattle.ym_machine.specs.RoundsRemaining.{rounds_remaining, rounds_needed, IsGoing, CountsWithin, IsComplete};
ghost use Rattle.ym_machine.specs.Machine.{CallsForStart, Invariant, EndingsAgree};
ghost use Rattle.ym_machine.specs.ShortBursts.{IsFine};

use crate::Batch;

/// The invariant holds at the start, and each step of a round keeps it: the sender step from the
/// state behind the receiver step of the same round, with control bytes that are those of its reply
/// with some left out.
pub fn halves_keep_machine_states<B: Batch>()
    ensures at_start { (files : List (File B.Header)) (confirm : Confirm) →
        Invariant confirm (frames_of files) start }
    ensures half_there { (files : List (File B.Header)) (confirm : Confirm)
        (sink_failed whole : Bool) (old : State) →
        Invariant confirm (frames_of files) old →
        Invariant confirm (frames_of files) (receiver_step (frames_of files) confirm sink_failed
        whole old).0 }
    ensures half_back { (files : List (File B.Header)) (confirm : Confirm)
        (sink_failed whole source_failed : Bool) (came : List Control) (old : State) →
        Invariant confirm (frames_of files) old →
        is_within came (controls (receiver_step (frames_of files) confirm sink_failed whole old).1)
        ≡ true →
        Invariant confirm (frames_of files) (sender_step (frames_of files) source_failed came
        (receiver_step (frames_of files) confirm sink_failed whole old).0) }
    ensures run { (files : List (File B.Header)) (confirm : Confirm) (turns : List Turn)
        (old : State) →
        Invariant confirm (frames_of files) old → IsDamage (frames_of files) confirm turns old →
        Invariant confirm (frames_of files) (after_turns (frames_of files) confirm turns old) }
{}

/// Each step leaves the other end alone.
pub fn halves_keep_the_other_end<B: Batch>()
    ensures there_keeps { (frames : List (Frame B.Header)) (confirm : Confirm)
        (sink_failed whole : Bool) (old : State) →
        KeepsSender old (receiver_step frames confirm sink_failed whole old).0 }
    ensures back_keeps { (frames : List (Frame B.Header)) (source_failed : Bool)
        (came : List Control) (old : State) →
        KeepsReceiver old (sender_step frames source_failed came old) }
{}

/// The ends of a run that began new have stopped for a reason: an end gave up at its tenth delivery
/// without progress, a source failed at a data block, and an end is cancelled only where the other
/// one gave up, or its sink or source failed. Other states of the invariant need not be so: one of
/// them has a sender that was cancelled while the receiver runs.
pub fn ends_stop_for_a_reason<B: Batch>()
    ensures run { (files : List (File B.Header)) (confirm : Confirm) (turns : List Turn) →
        IsDamage (frames_of files) confirm turns start →
        EndingsAgree (frames_of files) (after_turns (frames_of files) confirm turns start) }
    ensures half_there { (files : List (File B.Header)) (confirm : Confirm)
        (sink_failed whole : Bool) (old : State) →
        Invariant confirm (frames_of files) old → EndingsAgree (frames_of files) old →
        EndingsAgree (frames_of files) (receiver_step (frames_of files) confirm sink_failed whole
        old).0 }
    ensures half_back { (files : List (File B.Header)) (confirm : Confirm)
        (sink_failed whole source_failed : Bool) (came : List Control) (old : State) →
        Invariant confirm (frames_of files) old → EndingsAgree (frames_of files) old →
        is_within came (controls (receiver_step (frames_of files) confirm sink_failed whole old).1)
        ≡ true →
        EndingsAgree (frames_of files) (sender_step (frames_of files) source_failed came
        (receiver_step (frames_of files) confirm sink_failed whole old).0) }
    ensures no_premise { (files : List (File B.Header)) (confirm : Confirm) →
        Invariant confirm (frames_of files) (record start { sender = SenderEnd.Cancelled }) }
{}

/// An end that has ended stays as it is; only CAN CAN may still go.
pub fn ended_ends_stay<B: Batch>()
    ensures receiver { (frames : List (Frame B.Header)) (confirm : Confirm)
        (sink_failed whole : Bool) (old : State) →
        old.receiver ≢ ReceiverEnd.Running →
        (receiver_step frames confirm sink_failed whole old).0 ≡ old }
    ensures sender { (frames : List (Frame B.Header)) (source_failed : Bool) (came : List Control)
        (old : State) →
        old.sender ≢ SenderEnd.Running →
        SenderStays old (sender_step frames source_failed came old) }
{}

/// What the receiver has taken is what the sender counts as acknowledged, or one frame more; so the
/// files committed are those reported, or one more, and both are the first files of the batch.
pub fn committed_is_reported_or_one_more<B: Batch>()
    ensures frames { (files : List (File B.Header)) (confirm : Confirm) (st : State) →
        Invariant confirm (frames_of files) st →
        (st.taken ≡ st.acknowledged) ⊎ (st.taken ≡ st.acknowledged + 1) }
    ensures count { (files : List (File B.Header)) (confirm : Confirm) (st : State) →
        Invariant confirm (frames_of files) st →
        (length (committed files st) ≡ length (reported files st)) ⊎
        (length (committed files st) ≡ length (reported files st) + 1) }
    ensures committed_first { (files : List (File B.Header)) (st : State) →
        IsPrefix (committed files st) files }
    ensures reported_first { (files : List (File B.Header)) (st : State) →
        IsPrefix (reported files st) files }
    ensures reported_within { (files : List (File B.Header)) (confirm : Confirm) (st : State) →
        Invariant confirm (frames_of files) st →
        IsPrefix (reported files st) (committed files st) }
    ensures counted { (files : List (File B.Header)) (n : ℕ) →
        length (files_within files n) ≡ count_within files n }
{}

/// Where the invariant holds, what the receiver hears is the frame that it takes next, or the one
/// that it took last, which is then not the end block while it runs.
pub fn heard_is_next_or_last<B: Batch>()
    ensures position { (files : List (File B.Header)) (confirm : Confirm) (st : State) (i : ℕ) →
        Invariant confirm (frames_of files) st → said st ≡ FrameAt i →
        (i ≡ st.acknowledged) × (i < length (frames_of files)) }
    ensures next_or_last { (files : List (File B.Header)) (confirm : Confirm) (st : State) (i : ℕ) →
        Invariant confirm (frames_of files) st → said st ≡ FrameAt i →
        (st.taken ≡ i) ⊎ (st.taken ≡ i + 1) }
    ensures last { (files : List (File B.Header)) (confirm : Confirm) (st : State) →
        Invariant confirm (frames_of files) st → st.receiver ≡ ReceiverEnd.Running → 0 < st.taken →
        frame_before (frames_of files) st.taken ≢ EndBlock }
{}

/// An ACK that comes back to a sender that runs means that it has sent, and that the receiver has
/// taken what it sent.
pub fn acknowledged_is_taken<B: Batch>()
    ensures taken { (files : List (File B.Header)) (confirm : Confirm) (sink_failed whole : Bool)
        (came : List Control) (old : State) → Invariant confirm (frames_of files) old →
        is_within (control.Ack ∷ came)
        (controls (receiver_step (frames_of files) confirm sink_failed whole old).1) ≡ true →
        (receiver_step (frames_of files) confirm sink_failed whole old).0.sender ≡
        SenderEnd.Running →
        ((receiver_step (frames_of files) confirm sink_failed whole old).0.sent ≡ true) ×
        ((receiver_step (frames_of files) confirm sink_failed whole old).0.taken ≡
        (receiver_step (frames_of files) confirm sink_failed whole old).0.acknowledged + 1) }
{}

/// A receiver asks for C only where a sender may wait for one: at the start, or right behind a
/// block 0 or an EOT. Behind a data block it asks otherwise, and it is silent in no round in which
/// it goes on running.
pub fn a_receiver_asks_for_what_it_awaits<B: Batch>()
    ensures start { (files : List (File B.Header)) (confirm : Confirm) (sink_failed whole : Bool)
        (old : State) → Invariant confirm (frames_of files) old →
        holds_start (controls (receiver_step (frames_of files) confirm sink_failed whole old).1) ≡
        true →
        CallsForStart (frame_before (frames_of files) (receiver_step (frames_of files) confirm
        sink_failed whole old).0.taken) }
    ensures speaks { (frames : List (Frame B.Header)) (confirm : Confirm) (sink_failed whole : Bool)
        (old : State) → old.receiver ≡ ReceiverEnd.Running →
        (receiver_step frames confirm sink_failed whole old).0.receiver ≡ ReceiverEnd.Running →
        (receiver_step frames confirm sink_failed whole old).1 ≢ Silence }
{}

/// A run of some turns and then of others is one run.
pub fn a_run_goes_on<B: Batch>()
    ensures states { (frames : List (Frame B.Header)) (confirm : Confirm) (prefix rest : List Turn)
        (st : State) →
        after_turns frames confirm (prefix ++ rest) st ≡
        after_turns frames confirm rest (after_turns frames confirm prefix st) }
    ensures trace { (frames : List (Frame B.Header)) (confirm : Confirm) (prefix rest : List Turn)
        (st : State) →
        entries_of frames confirm (prefix ++ rest) st ≡
        entries_of frames confirm prefix st ++
        entries_of frames confirm rest (after_turns frames confirm prefix st) }
    ensures damage { (frames : List (Frame B.Header)) (confirm : Confirm) (prefix rest : List Turn)
        (st : State) →
        IsDamage frames confirm prefix st →
        IsDamage frames confirm rest (after_turns frames confirm prefix st) →
        IsDamage frames confirm (prefix ++ rest) st }
{}

/// What stands at each place of the list of frames, file by file.
pub fn positions_of_a_batch<B: Batch>()
    ensures block_zero { (file : File B.Header) (files : List (File B.Header)) →
        frame_at (frames_of (file ∷ files)) 0 ≡ BlockZero file.header }
    ensures piece { (file : File B.Header) (files : List (File B.Header)) (n : ℕ) →
        n < length file.pieces →
        frame_at (frames_of (file ∷ files)) (n + 1) ≡
        Piece ((n + 1) % 256) (body_at n file.pieces) }
    ensures eot { (file : File B.Header) (files : List (File B.Header)) →
        frame_at (frames_of (file ∷ files)) (length file.pieces + 1) ≡ Eot }
    ensures behind { (file : File B.Header) (files : List (File B.Header)) (n : ℕ) →
        frame_at (frames_of (file ∷ files)) (length file.pieces + 2 + n) ≡
        frame_at (frames_of files) n }
    ensures end_block { (n : ℕ) → frame_at {H = B.Header} (frames_of []) n ≡ EndBlock }
    ensures ends_once { (files : List (File B.Header)) → EndsOnce (frames_of files) }
    ensures size { (file : File B.Header) (files : List (File B.Header)) →
        length (frames_of (file ∷ files)) ≡ length file.pieces + 2 + length (frames_of files) }
{}

/// How many files have their EOT among the first frames, file by file.
pub fn files_within_a_batch<B: Batch>()
    ensures inside { (file : File B.Header) (files : List (File B.Header)) (n : ℕ) →
        n ≤ length file.pieces + 1 →
        count_within (file ∷ files) n ≡ 0 }
    ensures behind { (file : File B.Header) (files : List (File B.Header)) (n : ℕ) →
        count_within (file ∷ files) (length file.pieces + 2 + n) ≡ count_within files n + 1 }
    ensures all { (files : List (File B.Header)) →
        files_within files (length (frames_of files)) ≡ files }
{}

/// What can come back of a reply, and what it tells.
pub fn what_comes_back()
    ensures remnants { (reply : Reply) (came : List Control) →
        is_within came (controls reply) ≡ true → IsRemnant came }
    ensures whole { (reply : Reply) → is_within (controls reply) (controls reply) ≡ true }
    ensures bytes { (reply : Reply) → map control_byte (controls reply) ≡ reply_bytes reply }
    ensures subsequence { (reply : Reply) (came : List Control) →
        IsSubsequence (map control_byte came) (reply_bytes reply) →
        is_within came (controls reply) ≡ true }
{}

/// While no end gives up, is cancelled or has failed, no round raises the rounds remaining, and
/// each whole round lowers them by exactly one.
pub fn left_falls_by_whole_rounds<B: Batch>()
    ensures never_raised { (files : List (File B.Header)) (confirm : Confirm) (turn : Turn)
        (old : State) →
        Invariant confirm (frames_of files) old → IsGoing old →
        IsGoing (after_turn (frames_of files) confirm turn old) →
        IsTurnDamage (frames_of files) confirm turn old →
        rounds_remaining confirm (frames_of files) (after_turn (frames_of files) confirm turn old) ≤
        rounds_remaining confirm (frames_of files) old }
    ensures lowered { (files : List (File B.Header)) (confirm : Confirm) (turn : Turn) (old : State)
        →
        Invariant confirm (frames_of files) old → IsGoing old →
        IsGoing (after_turn (frames_of files) confirm turn old) →
        is_whole turn ≡ true → 0 < rounds_remaining confirm (frames_of files) old →
        rounds_remaining confirm (frames_of files) old ≡
        rounds_remaining confirm (frames_of files) (after_turn (frames_of files) confirm turn old) +
        1 }
    ensures at_start { (files : List (File B.Header)) (confirm : Confirm) →
        rounds_remaining confirm (frames_of files) start ≡ rounds_needed confirm files }
{}

/// Where no bad run is longer than a burst, and neither the sink nor the source fails, no end gives
/// up or is cancelled, and the retries pass nowhere those of a burst, one round and a burst again.
pub fn neither_end_gives_up<B: Batch>()
    ensures going { (files : List (File B.Header)) (confirm : Confirm) (turns : List Turn) →
        IsDamage (frames_of files) confirm turns start → NoFailure turns →
        longest_bad_run 0 turns ≤ BURST →
        IsGoing (after_turns (frames_of files) confirm turns start) }
    ensures counts { (files : List (File B.Header)) (confirm : Confirm) (turns : List Turn) →
        IsDamage (frames_of files) confirm turns start → NoFailure turns →
        longest_bad_run 0 turns ≤ BURST →
        CountsWithin (BURST + 1 + BURST) (after_turns (frames_of files) confirm turns start) }
{}

/// So it is turn by turn: the start is fine, a turn leads from a state that is fine to one that is,
/// of a run as long as is left to it, and where the sender has finished, so has the receiver.
pub fn short_bursts_are_survived<B: Batch>()
    ensures starts { (files : List (File B.Header)) (confirm : Confirm) →
        IsFine confirm (frames_of files) 0 start }
    ensures goes_on { (files : List (File B.Header)) (confirm : Confirm) (turn : Turn)
        (turns : List Turn) (bad : ℕ) (st : State) →
        IsFine confirm (frames_of files) bad st → longest_bad_run bad (turn ∷ turns) ≤ BURST →
        turn.sink_failed ≡ false → turn.source_failed ≡ false →
        IsTurnDamage (frames_of files) confirm turn st →
        (next : ℕ) ×
        IsFine confirm (frames_of files) next (after_turn (frames_of files) confirm turn st) ×
        (longest_bad_run next turns ≤ BURST) }
    ensures finishes { (files : List (File B.Header)) (confirm : Confirm) (st : State) →
        Invariant confirm (frames_of files) st →
        st.sender ≡ SenderEnd.Finished → st.receiver ≡ ReceiverEnd.Finished }
{}

/// Where such a run also holds as many whole rounds as the batch needs, in any places, both ends
/// finish with the whole batch.
pub fn both_finish<B: Batch>()
    ensures complete { (files : List (File B.Header)) (confirm : Confirm) (turns : List Turn) →
        IsDamage (frames_of files) confirm turns start → NoFailure turns →
        longest_bad_run 0 turns ≤ BURST →
        rounds_needed confirm files ≤ whole_turns turns →
        IsComplete files (after_turns (frames_of files) confirm turns start) }
{}

/// With whole rounds alone, and fewer than the batch needs, the sender has not finished.
pub fn not_sooner<B: Batch>()
    ensures running { (files : List (File B.Header)) (confirm : Confirm) (turns : List Turn) →
        AllWhole turns → NoFailure turns → length turns < rounds_needed confirm files →
        (after_turns (frames_of files) confirm turns start).sender ≢ SenderEnd.Finished }
{}

/// A burst, of four rounds today, is the largest bound: with bad runs of one round more the
/// receiver gives up at the start of any batch, and neither end finishes.
pub fn four_is_the_largest<B: Batch>()
    ensures runs { longest_bad_run 0 five_and_five ≡ BURST + 1 }
    ensures gives_up { (files : List (File B.Header)) (confirm : Confirm) →
        (after_turns (frames_of files) confirm five_and_five start).receiver ≡
        ReceiverEnd.TooManyErrors }
    ensures damage { (files : List (File B.Header)) (confirm : Confirm) →
        IsDamage (frames_of files) confirm five_and_five start }
    ensures no_failure { NoFailure five_and_five }
{}
