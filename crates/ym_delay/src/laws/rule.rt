//! Laws of a sender that lets the line clear by the program's rule.

ghost use Rattle.std.specs.Prelude.{List, ℕ, ◌+◌, ◌≢◌, ◌≤◌};
ghost use Rattle.ym_core.specs.declared.state.RecvState.TheVariants as receiver_is;
ghost use Rattle.ym_link.specs.ReceiverInto.{ReceiverParts};
ghost use Rattle.ym_link.specs.Sender.{IsSender, SenderParts};
ghost use Rattle.ym_timing.specs.Writing.{soon};
ghost use Rattle.ym_heard.specs.declared.limits.TheConstants.{APART, FIRST_FRAME, LONGEST};
ghost use Rattle.ym_heard.specs.declared.limits.TheConstants.{SENDER_QUIET, SOON};
ghost use Rattle.ym_timing.specs.declared.timing.Timing.{Timing};
ghost use Rattle.ym_line.specs.Promise.{AreNew, CommitsAPrefix};
ghost use Rattle.ym_pair.specs.Pairing.{ends};
ghost use Rattle.ym_delay.specs.Cleared.{EndsWell, LetsClear};
ghost use Rattle.ym_delay.specs.Histories.{AreHistories, HistoriesAreTimed, said};
ghost use Rattle.ym_delay.specs.Rule.{CopiesLate, HasSeenTheWay, IsSeen, KeepsRule, Reaches};
ghost use Rattle.ym_delay.specs.Rule.{WaitsByRule};
ghost use Rattle.ym_delay.specs.TimedLine.{AnsweredAt, SpokeAt, Times};

use crate::laws::batches_in_time_commit_a_prefix;

/// The rule's constants are enough: behind the last of several writes it waits as long as it
/// reaches (`several`), which is 1.25 seconds in any case (`quiet`). Behind two writes it is two
/// seconds more than the answer to the first one took, if no answer is overdue before (`twice`). A
/// write that it makes when the answer is overdue is that much behind the one before (`late`). An
/// ask that it takes for an answer comes sooner than a receiver asks that waited in vain, by the
/// way there, as far as that is 1.25 seconds (`soon`). So a sender that goes by it lets the line
/// clear, where it reaches as far as the way there and back and the receiver's acting (`lets`).
pub fn the_rule_lets_a_line_clear()
    ensures several { (span at next : ℕ) → WaitsByRule span at next → at + span ≤ next }
    ensures quiet { (span at : ℕ) (t : Timing) →
        at ≤ t.heard.answered_at → span ≤ SENDER_QUIET → Reaches span at t }
    ensures twice { (soonest span at : ℕ) (t : Timing) →
        t.out.first_at + soonest ≤ t.heard.answered_at → at ≤ t.out.first_at + t.out.gap →
        span ≤ soonest + APART → span ≤ LONGEST → IsSeen t.pace.trust span t →
        Reaches span at t }
    ensures late { (span at next : ℕ) → CopiesLate span at next → at + span ≤ next }
    ensures soon { (oldest : ℕ) (t : Timing) → SOON + oldest ≤ FIRST_FRAME →
        HasSeenTheWay t.pace.trust oldest t → soon t + oldest ≤ FIRST_FRAME }
    ensures lets { (times : Times) (spoke : List SpokeAt) (answered : List AnsweredAt) →
        KeepsRule times spoke answered → LetsClear times spoke answered }
{}

/// So two calls commit a prefix of the batch, each file that is reported among it, where the sender
/// goes by the rule and neither gave up at what it heard.
pub fn batches_by_the_rule_commit_a_prefix()
    ensures { (times : Times) (s new : SenderParts) (r end : ReceiverParts)
        (histories : AreHistories s new r end)
        (timed : HistoriesAreTimed times s new r end histories) →
        AreNew (ends s r) → IsSender new → EndsWell new (said s new r end histories) →
        end.receiver.state ≢ receiver_is.TooManyErrors →
        KeepsRule times timed.spoke timed.answered →
        CommitsAPrefix s.files (ends new end) }
{
    the_rule_lets_a_line_clear();
    batches_in_time_commit_a_prefix();
}
