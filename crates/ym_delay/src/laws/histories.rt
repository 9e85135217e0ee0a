//! Laws of two calls as the program makes them, of `send_batch` and of `receive_batch`, on a line
//! with moments. What they suppose of a call is clause `history` of its contract, what each sender
//! keeps to (clause `sender` of `SenderFrom::frame`), and how it has ended.

ghost use Rattle.std.specs.Prelude.{List, ℕ, length, ◌*◌, ◌+◌, ◌≢◌, ◌≤◌};
ghost use Rattle.ym_core.specs.declared.state.RecvState.TheVariants as receiver_is;
ghost use Rattle.ym_core.specs.declared.state.SendState.TheVariants as sender_is;
ghost use Rattle.ym_link.specs.ReceiverInto.{ReceiverParts};
ghost use Rattle.ym_link.specs.Sender.{IsSender, SenderParts};
ghost use Rattle.ym_line.specs.Completion.{NoneCounted, longest_bad_run};
ghost use Rattle.ym_line.specs.Promise.{AreNew, CommitsAPrefix};
ghost use Rattle.ym_line.specs.declared.delivery.Round.{Round};
ghost use Rattle.ym_machine.specs.declared.limits.TheConstants.{BURST};
ghost use Rattle.ym_pair.specs.Pairing.{CallsPairUp, HaveBothFinished, ends};
ghost use Rattle.ym_delay.specs.Cleared.{EndsWell, LetsClear};
ghost use Rattle.ym_delay.specs.Histories.{AreHistories, HistoriesAreTimed, calls_of};
ghost use Rattle.ym_delay.specs.Histories.{most_of_receiver, most_of_sender, said};
ghost use Rattle.ym_delay.specs.HowLong.{AnswersEnd, ReadsEnd, answered_by, heard_by};
ghost use Rattle.ym_delay.specs.TimedLine.{HearsEachTime, IsPrompt, Times};

use crate::laws::{
    cleared_calls_pair_up, cleared_engines_commit_a_prefix, so_many_deliveries_take_so_long,
    timed_calls_pair_up, timed_engines_commit_a_prefix,
};
use ym_pair::laws::two_engines_complete;

/// However the two calls return, the receiver has committed a prefix of the batch, and each file
/// that the sender reports is one of them: where the sender lets the line clear and neither gave up
/// at what it heard (`cleared`), and where the line is prompt and no wait of the sender was in vain
/// (`prompt`).
pub fn batches_in_time_commit_a_prefix()
    ensures cleared { (times : Times) (s new : SenderParts) (r end : ReceiverParts)
        (histories : AreHistories s new r end)
        (timed : HistoriesAreTimed times s new r end histories) →
        AreNew (ends s r) → IsSender new → EndsWell new (said s new r end histories) →
        end.receiver.state ≢ receiver_is.TooManyErrors →
        LetsClear times timed.spoke timed.answered →
        CommitsAPrefix s.files (ends new end) }
    ensures prompt { (times : Times) (s new : SenderParts) (r end : ReceiverParts)
        (histories : AreHistories s new r end)
        (timed : HistoriesAreTimed times s new r end histories) →
        IsPrompt times → AreNew (ends s r) → IsSender new → HearsEachTime timed.spoke →
        CommitsAPrefix s.files (ends new end) }
{
    cleared_engines_commit_a_prefix();
    timed_engines_commit_a_prefix();
}

/// Where both have ended and no failure was counted, their deliveries pair up as some rounds. If no
/// bad run of these is longer than a burst, both have finished, and the whole batch is committed
/// and reported.
pub fn batches_in_time_complete()
    ensures cleared { (times : Times) (s new : SenderParts) (r end : ReceiverParts)
        (histories : AreHistories s new r end)
        (timed : HistoriesAreTimed times s new r end histories) →
        AreNew (ends s r) → IsSender new → EndsWell new (said s new r end histories) →
        end.receiver.state ≢ receiver_is.TooManyErrors →
        LetsClear times timed.spoke timed.answered →
        new.standing.state ≢ sender_is.Running → end.receiver.state ≢ receiver_is.Running →
        NoneCounted (ends s r) (ends new end) →
        (rounds : List Round)
        × CallsPairUp s new r end (calls_of s new r end histories) rounds
        × (longest_bad_run 0 rounds ≤ BURST → HaveBothFinished s.files (ends new end)) }
    ensures prompt { (times : Times) (s new : SenderParts) (r end : ReceiverParts)
        (histories : AreHistories s new r end)
        (timed : HistoriesAreTimed times s new r end histories) →
        IsPrompt times → AreNew (ends s r) → IsSender new → HearsEachTime timed.spoke →
        new.standing.state ≢ sender_is.Running → end.receiver.state ≢ receiver_is.Running →
        NoneCounted (ends s r) (ends new end) →
        (rounds : List Round)
        × CallsPairUp s new r end (calls_of s new r end histories) rounds
        × (longest_bad_run 0 rounds ≤ BURST → HaveBothFinished s.files (ends new end)) }
{
    cleared_calls_pair_up();
    timed_calls_pair_up();
    two_engines_complete();
}

/// How long the calls take, where each read of a sender ends within a time, and each of a receiver.
/// There are no more deliveries than rounds (`rounds`), and never more than the batch and the
/// accepted headers let there be (`batch`), whatever is lost and damaged.
pub fn batches_take_so_long()
    ensures rounds { (times : Times) (reads hears : ℕ) (s new : SenderParts)
        (r end : ReceiverParts) (histories : AreHistories s new r end)
        (timed : HistoriesAreTimed times s new r end histories) (rounds : List Round) →
        ReadsEnd reads timed.spoke → AnswersEnd hears timed.begun timed.answered →
        CallsPairUp s new r end (calls_of s new r end histories) rounds →
        (heard_by timed.start timed.spoke
        ≤ timed.start + length rounds * (times.sender_acts + reads))
        × (answered_by timed.begun timed.answered
        ≤ timed.begun + length rounds * (hears + times.receiver_acts)) }
    ensures batch { (times : Times) (reads hears : ℕ) (s new : SenderParts)
        (r end : ReceiverParts) (histories : AreHistories s new r end)
        (timed : HistoriesAreTimed times s new r end histories) → AreNew (ends s r) →
        ReadsEnd reads timed.spoke → AnswersEnd hears timed.begun timed.answered →
        (heard_by timed.start timed.spoke
        ≤ timed.start + most_of_sender s * (times.sender_acts + reads))
        × (answered_by timed.begun timed.answered
        ≤ timed.begun + most_of_receiver end * (hears + times.receiver_acts)) }
{
    so_many_deliveries_take_so_long();
}
