//! Laws over the definitions alone: each is the promise of a function that does nothing.

ghost use Rattle.std.specs.Prelude.{List, Ok, ℕ, length, min, ◌*◌, ◌+◌, ◌<◌, ◌≡◌, ◌≢◌, ◌≤◌, ◌⊎◌};
ghost use Rattle.ym_core.specs.declared.delivery.Heard.{Heard};
ghost use Rattle.ym_core.specs.declared.state.RecvState.TheVariants as receiver_is;
ghost use Rattle.ym_link.specs.Port.{Silence};
ghost use Rattle.ym_link.specs.ReceiverInto.{ReceiverParts};
ghost use Rattle.ym_link.specs.History.{ReceiverHears, SenderHears};
ghost use Rattle.ym_link.specs.Sender.{IsSender, SenderParts, spoken as sent};
ghost use Rattle.ym_link.specs.SendOver.{written_for};
ghost use Rattle.ym_timing.specs.Clears.{several_until};
ghost use Rattle.ym_timing.specs.Pace.{first_wait};
ghost use Rattle.ym_heard.specs.Times.{later};
ghost use Rattle.ym_timing.specs.declared.role.Role.TheVariants.{Receiver, Sender};
ghost use Rattle.ym_timing.specs.declared.purge.Purge.{Purge};
ghost use Rattle.ym_port.specs.TimedPort.{clears_for};
ghost use Rattle.ym_port.specs.Wire.{Tape};
ghost use Rattle.ym_port.specs.declared.line.Line.{Line};
ghost use Rattle.ym_line.specs.Promise.{AreNew, CommitsAPrefix};
ghost use Rattle.ym_line.specs.declared.delivery.Round.{Round};
ghost use Rattle.ym_pair.specs.Pairing.{AreCalls, CallsPairUp, PairUp, ends};
ghost use Rattle.ym_pair.specs.Logs.{answered_along, spoke_along};
ghost use Rattle.ym_pair.specs.PairingExamples.{Blocks};
ghost use Rattle.ym_delay.specs.Beyond.{GoesApart};
ghost use Rattle.ym_delay.specs.Cleared.{AnswersAlike, EndsWell, LetsClear, SaysAgain};
ghost use Rattle.ym_delay.specs.TimedExamples.{ahead_last, ahead_receiver, ahead_sender};
ghost use Rattle.ym_delay.specs.TimedExamples.{clear_last, clear_line, clear_receiver};
ghost use Rattle.ym_delay.specs.TimedExamples.{clear_sender, purge_line_of, line_of};
ghost use Rattle.ym_delay.specs.TimedExamples.{slow_last, slow_line, slow_receiver, slow_sender};
ghost use Rattle.ym_delay.specs.TimedLine.{AnsweredAt, AnswersInTime, BeginsSilent};
ghost use Rattle.ym_delay.specs.TimedLine.{CallsAreTimed, HearsEachTime, IsPrompt, IsTimed};
ghost use Rattle.ym_delay.specs.TimedLine.{NoneMeet, SpeaksInTime, SpokeAt, Times, WroteAt};
ghost use Rattle.ym_delay.specs.TimedLine.{answers_of, spoken};
ghost use Rattle.ym_delay.specs.HowLong.{AnswersEnd, ReadsEnd, answered_by, heard_by};
ghost use Rattle.ym_delay.specs.QuietReads.{IsOverAtOnce, IsSeveral, IsSpent, began, reply_read};

mod histories;
mod late_answers;
mod report;
mod rule;

pub use histories::{
    batches_in_time_commit_a_prefix, batches_in_time_complete, batches_take_so_long,
};
pub use late_answers::late_answers_are_dropped;
pub use report::a_millisecond_too_soon_loses_a_file;
pub use rule::{batches_by_the_rule_commit_a_prefix, the_rule_lets_a_line_clear};
use ym_link::laws::what_came_back_is_of_the_reply;
use ym_pair::laws::{a_delivery_brings_its_frame, two_engines_commit_a_prefix};

/// Where nothing that an end hears is too old, both ends act in time, and no ask meets a frame that
/// was written again, deliveries pair up: the way there and back, and the peer's acting, take less
/// time than either end waits. Where no wait of the sender is in vain, no ask does (`heard`).
pub fn timed_deliveries_pair_up()
    ensures paired { (times : Times) (start begun : ℕ) (spoke : List SpokeAt) (last : WroteAt)
        (answered : List AnsweredAt) → IsPrompt times → BeginsSilent spoke →
        IsTimed times start begun spoke last answered → NoneMeet times spoke answered →
        (rounds : List Round) × PairUp (spoken spoke) last.bytes (answers_of answered) rounds }
    ensures heard { (times : Times) (spoke : List SpokeAt) (answered : List AnsweredAt) →
        HearsEachTime spoke → NoneMeet times spoke answered }
{}

/// So they do, whatever either end waits for, where the sender lets the line clear. It writes a
/// frame again until it reads an ACK, and the receiver says to a frame that comes again what it
/// said before. A copy is written when the write before it is over: the time of the way there and
/// back and of the receiver's acting has passed. Or that passes behind the last copy, before the
/// sender goes on.
pub fn cleared_deliveries_pair_up()
    ensures { (times : Times) (start begun : ℕ) (spoke : List SpokeAt) (last : WroteAt)
        (answered : List AnsweredAt) → IsTimed times start begun spoke last answered →
        SaysAgain (spoken spoke) last.bytes → AnswersAlike (answers_of answered) →
        LetsClear times spoke answered →
        (rounds : List Round) × PairUp (spoken spoke) last.bytes (answers_of answered) rounds }
{
    a_delivery_brings_its_frame();
    what_came_back_is_of_the_reply();
}

/// So do those of the calls of two engines, which begin with a sender that is new.
pub fn timed_calls_pair_up()
    ensures apart { (times : Times) (s new : SenderParts) (r end : ReceiverParts)
        (calls : AreCalls s new r end) (timed : CallsAreTimed times s new r end calls) →
        IsPrompt times → AreNew (ends s r) → NoneMeet times timed.spoke timed.answered →
        (rounds : List Round) × CallsPairUp s new r end calls rounds }
    ensures heard { (times : Times) (s new : SenderParts) (r end : ReceiverParts)
        (calls : AreCalls s new r end) (timed : CallsAreTimed times s new r end calls) →
        IsPrompt times → AreNew (ends s r) → HearsEachTime timed.spoke →
        (rounds : List Round) × CallsPairUp s new r end calls rounds }
{
    timed_deliveries_pair_up();
}

/// So two engines commit a prefix on such a line, however each call returns.
pub fn timed_engines_commit_a_prefix()
    ensures apart { (times : Times) (s new : SenderParts) (r end : ReceiverParts)
        (calls : AreCalls s new r end) (timed : CallsAreTimed times s new r end calls) →
        IsPrompt times → AreNew (ends s r) → IsSender new →
        NoneMeet times timed.spoke timed.answered → CommitsAPrefix s.files (ends new end) }
    ensures heard { (times : Times) (s new : SenderParts) (r end : ReceiverParts)
        (calls : AreCalls s new r end) (timed : CallsAreTimed times s new r end calls) →
        IsPrompt times → AreNew (ends s r) → IsSender new →
        HearsEachTime timed.spoke → CommitsAPrefix s.files (ends new end) }
{
    timed_calls_pair_up();
    two_engines_commit_a_prefix();
}

/// A sender's engine says the same again until it has read an ACK, unless it gave up at an ask.
pub fn a_sender_says_again()
    ensures { (s new : SenderParts) (deliveries : List (List ℕ)) (progress : ℕ)
        (hears : SenderHears s deliveries progress new) →
        EndsWell new (spoke_along s deliveries progress new hears) →
        SaysAgain (spoke_along s deliveries progress new hears) (written_for (sent new)) }
{}

/// A receiver's engine says ACK to a frame alone, and the same once more where that frame comes
/// again, unless it gave up. Behind CAN CAN it says nothing more.
pub fn a_receiver_answers_alike()
    ensures { (r end : ReceiverParts) (deliveries : List Heard) (progress : ℕ)
        (hears : ReceiverHears r deliveries progress end) →
        end.receiver.state ≢ receiver_is.TooManyErrors →
        AnswersAlike (answered_along r deliveries progress end hears) }
{}

/// So deliveries of the calls of two engines pair up where the sender lets the line clear, whatever
/// either end waits for, if neither gave up at what it heard.
pub fn cleared_calls_pair_up()
    ensures { (times : Times) (s new : SenderParts) (r end : ReceiverParts)
        (calls : AreCalls s new r end) (timed : CallsAreTimed times s new r end calls) →
        EndsWell new (spoke_along s calls.deliveries calls.progress new calls.speaks) →
        end.receiver.state ≢ receiver_is.TooManyErrors →
        LetsClear times timed.spoke timed.answered →
        (rounds : List Round) × CallsPairUp s new r end calls rounds }
{
    cleared_deliveries_pair_up();
    a_sender_says_again();
    a_receiver_answers_alike();
}

/// So they commit a prefix, however each call returns.
pub fn cleared_engines_commit_a_prefix()
    ensures { (times : Times) (s new : SenderParts) (r end : ReceiverParts)
        (calls : AreCalls s new r end) (timed : CallsAreTimed times s new r end calls) →
        AreNew (ends s r) → IsSender new →
        EndsWell new (spoke_along s calls.deliveries calls.progress new calls.speaks) →
        end.receiver.state ≢ receiver_is.TooManyErrors →
        LetsClear times timed.spoke timed.answered →
        CommitsAPrefix s.files (ends new end) }
{
    cleared_calls_pair_up();
    two_engines_commit_a_prefix();
}

/// With the waits of `send` and `receive`, a line is prompt on which nothing is older than 1.4
/// seconds. A whole session on it that is written out, of one file, is timed, and no wait of its
/// sender is in vain. It takes 25.4 seconds.
pub fn a_slow_line_is_timed()
    ensures prompt { IsPrompt slow_line }
    ensures timed { (blocks : Blocks) →
        BeginsSilent (slow_sender blocks)
        × IsTimed slow_line 0 0 (slow_sender blocks) slow_last (slow_receiver blocks)
        × HearsEachTime (slow_sender blocks) }
    ensures whole { (blocks : Blocks) → heard_by 0 (slow_sender blocks) ≡ 25400 }
{
    a_delivery_brings_its_frame();
}

/// With these waits, and a tenth of a second to act, a line is prompt on which nothing is older
/// than 1.449 seconds. One is not on which something is 1.45 seconds old or older. Where a sender
/// lets the line clear for 1.25 seconds besides, it is 0.824 seconds.
pub fn the_oldest_that_is_prompt()
    ensures within { (oldest : ℕ) → oldest ≤ 1449 → IsPrompt (line_of oldest) }
    ensures beyond { (oldest : ℕ) → 1450 ≤ oldest → IsPrompt (line_of oldest) → ⊥ }
    ensures purge { (oldest : ℕ) → oldest ≤ 824 → IsPrompt (purge_line_of oldest) }
    ensures purge_beyond { (oldest : ℕ) → 825 ≤ oldest → IsPrompt (purge_line_of oldest) → ⊥ }
{}

/// No such law holds of slower lines: on each line on which something may be 1.45 seconds old there
/// is a session whose deliveries do not pair up, though both ends act in time and no wait of the
/// sender is in vain. Block 0 comes just as the receiver asks once more, and a port that drops
/// nothing hands the reply to its second copy to a sender that has gone on to block 1.
pub fn deliveries_beyond_do_not_pair_up()
    ensures timed { (oldest : ℕ) (blocks : Blocks) → 1450 ≤ oldest →
        BeginsSilent (ahead_sender blocks)
        × IsTimed (line_of oldest) 0 0 (ahead_sender blocks) (ahead_last blocks)
        (ahead_receiver blocks)
        × HearsEachTime (ahead_sender blocks) }
    ensures apart { (blocks : Blocks) (rounds : List Round) → blocks.zero.item ≢ blocks.one.item →
        PairUp (spoken (ahead_sender blocks)) blocks.two.bytes
        (answers_of (ahead_receiver blocks)) rounds → ⊥ }
{
    a_delivery_brings_its_frame();
    what_came_back_is_of_the_reply();
}

/// On that line deliveries pair up where the sender lets it clear for three seconds behind its last
/// copy: of this session, in which both block 0 and block 1 were written twice, and the second
/// reply to each was dropped.
pub fn a_cleared_session_pairs_up()
    ensures timed { (blocks : Blocks) →
        IsTimed clear_line 0 0 (clear_sender blocks) (clear_last blocks) (clear_receiver blocks) }
    ensures clears { (blocks : Blocks) →
        LetsClear clear_line (clear_sender blocks) (clear_receiver blocks) }
    ensures pairs { (blocks : Blocks) → blocks.zero.item ≢ blocks.one.item →
        (rounds : List Round) × PairUp (spoken (clear_sender blocks)) blocks.two.bytes
        (answers_of (clear_receiver blocks)) rounds }
{
    a_delivery_brings_its_frame();
    cleared_deliveries_pair_up();
}

/// Neither inequality of a prompt line can be weaker, whatever the times are. Where the way there
/// and back and the sender's acting take as long as a receiver waits, or with the receiver's acting
/// longer than a sender waits, there is a session whose deliveries do not pair up. It takes two
/// units of time at least to tell.
pub fn neither_inequality_can_be_weaker()
    ensures receiver { (times : Times) (blocks : Blocks) → blocks.zero.item ≢ blocks.one.item →
        2 ≤ times.oldest → 2 ≤ times.receiver_waits →
        times.receiver_waits ≤ times.oldest + times.sender_acts + times.oldest →
        GoesApart times }
    ensures sender { (times : Times) (blocks : Blocks) → blocks.zero.item ≢ blocks.one.item →
        2 ≤ times.oldest → times.oldest ≤ times.sender_waits →
        times.sender_waits < times.oldest + times.receiver_acts + times.oldest →
        GoesApart times }
{
    a_delivery_brings_its_frame();
    what_came_back_is_of_the_reply();
}

/// Where each read of a sender ends within a time, the last of so many ended no later than so often
/// that time and its own behind its start; so did the last answer of a receiver.
pub fn so_many_deliveries_take_so_long()
    ensures sender { (times : Times) (longest start : ℕ) (spoke : List SpokeAt) (last : WroteAt) →
        SpeaksInTime times start spoke last → ReadsEnd longest spoke →
        heard_by start spoke ≤ start + length spoke * (times.sender_acts + longest) }
    ensures receiver { (times : Times) (longest start : ℕ) (answered : List AnsweredAt) →
        AnswersInTime times start answered → AnswersEnd longest start answered →
        answered_by start answered ≤ start + length answered * (longest + times.receiver_acts) }
{}

/// The program's port waits: a read for a reply that answers that the line is quiet ended, by the
/// port's clock, 10 seconds at least behind its begin with a sender, and 3 with a receiver; or it
/// had asked the line 65,536 times, each for bytes that are not to be heard.
pub fn a_quiet_read_waited()
    ensures waited { (room : ℕ) (l : Line) (t : Tape) → 2 ≤ room →
        (reply_read room l t).seen ≡ Silence →
        (later (began l t) (first_wait l.timing.role) ≤ (reply_read room l t).line.clock.at)
        ⊎ IsSpent t (reply_read room l t).tape }
    ensures sender { first_wait Sender ≡ 10000 }
    ensures receiver { first_wait Receiver ≡ 3000 }
{}

/// The program's port lets the line clear: behind several writes of a frame a sender's line is
/// clear, by the port's clock, when as long has passed since the last ACK as the rule says where
/// one more may come (`by_rule`), 1.25 seconds at least (`quiet`), or a minute since it began to
/// clear. There is nothing to wait for where the line was closed, CAN CAN came, or each copy of a
/// block had its ACK; and it gives up when it has asked the line 65,536 times.
pub fn a_cleared_line_was_quiet()
    ensures by_rule { (bytes : List ℕ) (l : Line) (t : Tape) (c : Purge) →
        l.timing.role ≡ Sender → IsSeveral bytes l t → l.timing.heard.answered_at ≤ began l t →
        (clears_for bytes l t).answer ≡ Ok c →
        IsOverAtOnce c (clears_for bytes l t).line
        ⊎ (IsSpent t (clears_for bytes l t).tape
        ⊎ (min (several_until 1 l.timing.heard.answered_at l.timing) (later (began l t) 60000)
        ≤ (clears_for bytes l t).line.clock.at)) }
    ensures quiet { (bytes : List ℕ) (l : Line) (t : Tape) (c : Purge) →
        l.timing.role ≡ Sender → IsSeveral bytes l t → l.timing.heard.answered_at ≤ began l t →
        (clears_for bytes l t).answer ≡ Ok c →
        IsOverAtOnce c (clears_for bytes l t).line
        ⊎ (IsSpent t (clears_for bytes l t).tape
        ⊎ (min (later l.timing.heard.answered_at 1250) (later (began l t) 60000)
        ≤ (clears_for bytes l t).line.clock.at)) }
{}
