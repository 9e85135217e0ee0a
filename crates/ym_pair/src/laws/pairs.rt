//! Laws of two engines, one at each end of a line.

ghost use Rattle.std.specs.Prelude.{◌≡◌, ◌≢◌, ◌≤◌, List, Ok};
ghost use Rattle.ym_core.specs.declared.state.RecvState.TheVariants as receiver_is;
ghost use Rattle.ym_core.specs.declared.state.SendState.TheVariants as sender_is;
ghost use Rattle.ym_link.specs.Port.{Tape};
ghost use Rattle.ym_link.specs.ReceiveOver as receiving;
ghost use Rattle.ym_link.specs.ReceiverInto.{ReceiverParts};
ghost use Rattle.ym_link.specs.Sender.{SenderParts, IsSender};
ghost use Rattle.ym_link.specs.SendOver as sending;
ghost use Rattle.ym_machine.specs.declared.limits.TheConstants.{BURST};
ghost use Rattle.ym_line.specs.Completion.{NoneCounted, longest_bad_run};
ghost use Rattle.ym_line.specs.Promise.{AreNew, CommitsAPrefix};
ghost use Rattle.ym_line.specs.declared.delivery.Round.{Round};
ghost use Rattle.ym_pair.specs.Pairing.{RunsPairUp, AreCalls, CallsPairUp, HaveBothFinished, ends};

use ym_frame::laws::one_verdict;
use ym_line::laws::{
    a_sender_alone_goes_on, a_standing_pair_commits_the_first_files, failure_counts_tell,
    new_ends_stand, nothing_comes_back_of_silence, rounds_are_turns, turns_of_a_standing_pair,
};
use ym_link::laws::{
    Headers, a_delivery_goes_one_position, a_sender_follows_the_machine, a_step_keeps_the_batch,
};
use ym_machine::laws::{
    committed_is_reported_or_one_more, files_within_a_batch, short_bursts_are_survived,
};

/// Where the deliveries of two engines pair up, over any two ports, whether or not they tell their
/// events, and however each call returns, the files that the receiver has committed are the first
/// ones of the batch, each with its name, length, stamp and bytes, and the sender reports no more
/// of them.
pub fn two_engines_commit_a_prefix()
    ensures told { (s : SenderParts) (t : Tape) (out : sending.Outcome)
        (sends : sending.Sends s t out) (r : ReceiverParts) (u : Tape) (end : receiving.Outcome)
        (receives : receiving.Receives r u end) (rounds : List Round) →
        AreNew (ends s r) → RunsPairUp s t out sends r u end receives rounds →
        CommitsAPrefix s.files (ends out.sender end.receiver) }
    ensures history { (s new : SenderParts) (r end : ReceiverParts) (calls : AreCalls s new r end)
        (rounds : List Round) →
        AreNew (ends s r) → IsSender new → CallsPairUp s new r end calls rounds →
        CommitsAPrefix s.files (ends new end) }
{
    one_verdict();
    a_delivery_goes_one_position();
    a_step_keeps_the_batch();
    a_sender_follows_the_machine();
    committed_is_reported_or_one_more::<Headers>();
    rounds_are_turns();
    a_standing_pair_commits_the_first_files();
    new_ends_stand();
    a_sender_alone_goes_on();
    nothing_comes_back_of_silence();
}

/// Where moreover both calls return well, no failure was counted, and no bad run of the rounds is
/// longer than a burst, of four today, both ends have finished, and the whole batch is committed
/// and reported.
pub fn two_engines_complete()
    ensures told { (s : SenderParts) (t : Tape) (out : sending.Outcome)
        (sends : sending.Sends s t out) (r : ReceiverParts) (u : Tape) (end : receiving.Outcome)
        (receives : receiving.Receives r u end) (rounds : List Round) →
        AreNew (ends s r) → RunsPairUp s t out sends r u end receives rounds → out.answer ≡ Ok tt →
        end.answer ≡ Ok tt →
        NoneCounted (ends s r) (ends out.sender end.receiver) → longest_bad_run 0 rounds ≤ BURST →
        HaveBothFinished s.files (ends out.sender end.receiver) }
    ensures history { (s new : SenderParts) (r end : ReceiverParts) (calls : AreCalls s new r end)
        (rounds : List Round) →
        AreNew (ends s r) → IsSender new → CallsPairUp s new r end calls rounds →
        new.standing.state ≢ sender_is.Running → end.receiver.state ≢ receiver_is.Running →
        NoneCounted (ends s r) (ends new end) → longest_bad_run 0 rounds ≤ BURST →
        HaveBothFinished s.files (ends new end) }
{
    one_verdict();
    a_delivery_goes_one_position();
    a_step_keeps_the_batch();
    rounds_are_turns();
    turns_of_a_standing_pair();
    a_standing_pair_commits_the_first_files();
    new_ends_stand();
    a_sender_alone_goes_on();
    failure_counts_tell();
    files_within_a_batch::<Headers>();
    short_bursts_are_survived::<Headers>();
}
