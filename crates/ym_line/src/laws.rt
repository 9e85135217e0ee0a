//! Laws over the definitions alone: each is the promise of a function that does nothing.

ghost use Rattle.std.specs.Prelude.{◌≡◌, ◌≢◌, ◌≤◌, ◌<◌, List, [], ℕ, Bool, false, Option, Result, All, length};
ghost use Rattle.ym_frame.specs.Control.{reply_bytes};
ghost use Rattle.ym_frame.specs.declared.control.Reply.{Reply};
ghost use Rattle.ym_frame.specs.declared.control.Reply.TheVariants.{Silence};
ghost use Rattle.ym_machine.specs.declared.confirm.Confirm.{Confirm};
ghost use Rattle.ym_machine.specs.declared.limits.TheConstants.{MOST_FILES};
ghost use Rattle.ym_machine.specs.Frames.{frames_of};
ghost use Rattle.ym_machine.specs.Machine.{State, Invariant, KeepsReceiver, sender_step, start};
ghost use Rattle.ym_machine.specs.ShortBursts.{IsFine};
ghost use Rattle.ym_machine.specs.Run.{Turn, IsDamage, after_turn, after_turns, is_whole, lost};
ghost use Rattle.ym_file.specs.Counts.{Counted};
ghost use Rattle.ym_file.specs.Kept.{IsNew};
ghost use Rattle.ym_file.specs.declared.plan.Shape.{Shape};
ghost use Rattle.ym_core.specs.Scan.{controls_in};
ghost use Rattle.ym_core.specs.Receiver.{new_receiver};
ghost use Rattle.ym_core.specs.Standing.{hears, new_standing};
ghost use Rattle.ym_core.specs.declared.position.Position.{Position};
ghost use Rattle.ym_core.specs.declared.state.SendState.TheVariants as SendState;
ghost use Rattle.ym_file.specs.SourceFile.{FileParts, IsFile, counts_of, file_at};
ghost use Rattle.ym_link.specs.ReceiverInto.{Tells};
ghost use Rattle.ym_link.specs.Sender.{SenderParts, IsFilled, IsStep, counts};
ghost use Rattle.ym_link.specs.SenderRefines.{Batch, SenderRefines, AllTold, batch_of};
ghost use Rattle.ym_line.specs.declared.delivery.Delivery.{Delivery};
ghost use Rattle.ym_line.specs.declared.delivery.Round.{Round};
ghost use Rattle.ym_line.specs.declared.fault.LineFault.{LineFault};
ghost use Rattle.ym_line.specs.declared.trace.Seen.{Seen};
ghost use Rattle.ym_line.specs.declared.trace.Trace.{Trace};
ghost use Rattle.ym_line.specs.Completion.{AllWhole, AreGoing, BringsShortBadRuns, HaveFinished, NoneCounted, both_whole, rounds_for, whole_rounds};
ghost use Rattle.ym_line.specs.Damage.{ShowsBack, arrives};
ghost use Rattle.ym_line.specs.Promise.{AreNew, CommitsAPrefix, ReportsCommitted};
ghost use Rattle.ym_line.specs.Rounds.{Pair, Goes, GoesThere, StopsIn, IsTrace, RunGives};
ghost use Rattle.ym_line.specs.Turns.{AreTurns, CommitsFirst, FollowsMachine, IsReceiverStep, IsSourceTruth, PairRefines, StopsWithMachine, TakesATurn, turn_of};

use ym_file::laws::one_pieces;
use ym_frame::laws::frame_found;
use ym_link::laws::{
    Headers, a_planned_file_is_sent, a_sender_follows_the_machine,
    a_standing_receiver_follows_the_machine,
};
use ym_machine::laws::{
    both_finish, committed_is_reported_or_one_more, halves_keep_machine_states,
    halves_keep_the_other_end, neither_end_gives_up, not_sooner, what_comes_back,
};

/// Rounds of two ends that refine a state of the machine of two counters are turns of that machine,
/// whatever is lost or damaged in them: the ends refine the state that the turns lead to, and the
/// trace reports it. Where a round meets a fault, those before it are turns, and the ends refine
/// the state behind them, or behind the receiver step of that round. A delivery to the receiver
/// alone is the receiver step of a turn.
pub fn rounds_are_turns()
    ensures go { (round : Round) (old new : Pair) (seen : Seen) →
        Goes round old seen new → TakesATurn round old seen new }
    ensures go_on { (rounds : List Round) (old new : Pair) (trace : Trace) →
        IsTrace rounds old trace new → FollowsMachine rounds old trace new }
    ensures stop { (n : ℕ) (rounds : List Round) (old new : Pair) (fault : LineFault) →
        StopsIn n rounds old fault new → StopsWithMachine n rounds old fault new }
    ensures there { (delivery : Delivery) (old new : Pair) (reply : Reply) →
        GoesThere delivery old reply new →
        (confirm : Confirm) (files : Batch) (st : State) →
        PairRefines confirm files st old → IsReceiverStep confirm files st delivery old reply new }
{
    frame_found();
    what_comes_back();
    halves_keep_machine_states::<Headers>();
    halves_keep_the_other_end::<Headers>();
    committed_is_reported_or_one_more::<Headers>();
    a_sender_follows_the_machine();
    a_standing_receiver_follows_the_machine();
}

/// Turns of a pair that refines a state of the machine lead to the state that it refines behind
/// them, and their damage is that of a run of the machine. A round is whole where its turn is.
pub fn turns_of_a_standing_pair()
    ensures stand { (confirm : Confirm) (files : Batch) (st : State) (rounds : List Round)
        (turns : List Turn) (old new : Pair) (all : List Seen) →
        AreTurns confirm files st rounds turns old all new → PairRefines confirm files st old →
        PairRefines confirm files (after_turns (frames_of files) confirm turns st) new }
    ensures damage { (confirm : Confirm) (files : Batch) (st : State) (rounds : List Round)
        (turns : List Turn) (old new : Pair) (all : List Seen) →
        AreTurns confirm files st rounds turns old all new →
        IsDamage (frames_of files) confirm turns st }
    ensures whole { (round : Round) (sink_failed source_failed : Bool) →
        is_whole (turn_of round sink_failed source_failed) ≡ both_whole round }
{
    what_comes_back();
}

/// Where a pair refines a state of the machine, the committed files are the first ones of the
/// batch, each with its header and its bytes, and what the sender reports is among them: in words
/// of the machine's files, and of the sources that they were cut from.
pub fn a_standing_pair_commits_the_first_files()
    ensures first { (confirm : Confirm) (files : Batch) (st : State) (pair : Pair) →
        PairRefines confirm files st pair → CommitsFirst files st pair }
    ensures prefix { (shape : Shape) (sources : List FileParts) (st : State) (pair : Pair) →
        All IsFile sources → AllTold sources →
        CommitsFirst (batch_of shape sources) st pair → CommitsAPrefix sources pair }
{
    one_pieces();
    a_planned_file_is_sent();
    committed_is_reported_or_one_more::<Headers>();
    a_sender_follows_the_machine();
}

/// New ends refine the start: a sender of a batch of at most 65,535 files whose sources tell their
/// bytes, and a receiver into a sink that has no file.
pub fn new_ends_stand()
    ensures { (pair : Pair) → AreNew pair → All IsFile pair.sender.files →
        PairRefines pair.receiver.receiver.confirm (batch_of pair.sender.shape pair.sender.files)
        start pair }
{
    one_pieces();
    a_planned_file_is_sent();
    halves_keep_machine_states::<Headers>();
    a_sender_follows_the_machine();
    a_standing_receiver_follows_the_machine();
}

/// Ends are new as [`SenderFrom::new`](ym_link::SenderFrom::new) and
/// [`ReceiverInto::with_sink`](ym_link::ReceiverInto::with_sink) make them, where the sources tell
/// their bytes.
pub fn made_ends_are_new()
    ensures { (pair : Pair) (confirm : Confirm) →
        pair.sender.standing ≡ new_standing (counts_of pair.sender.shape pair.sender.files) →
        length pair.sender.files ≤ MOST_FILES → AllTold pair.sender.files →
        pair.receiver.receiver ≡ new_receiver confirm → IsNew pair.receiver.kept → AreNew pair }
{}

/// Whatever is lost or damaged in a run of new ends, and also where it met a fault, the files
/// committed are the first ones of the batch, each with its header and its bytes, and those that
/// the sender reports are among them.
pub fn new_ends_commit_a_prefix()
    ensures commits { (rounds : List Round) (old new : Pair) (result : Result Trace LineFault) →
        RunGives rounds old result new → AreNew old → CommitsAPrefix old.sender.files new }
    ensures reports { (rounds : List Round) (old new : Pair) (trace : Trace) →
        IsTrace rounds old trace new → AreNew old → ReportsCommitted trace new }
{
    rounds_are_turns();
    turns_of_a_standing_pair();
    a_standing_pair_commits_the_first_files();
    new_ends_stand();
}

/// Where damage comes in short bursts, and no failure was counted, a run of new ends goes on,
/// finishes with as many whole rounds as the batch needs, and not sooner.
pub fn short_bad_runs_complete()
    ensures going { (rounds : List Round) (old new : Pair) (trace : Trace) →
        IsTrace rounds old trace new → BringsShortBadRuns rounds old new → AreGoing trace new }
    ensures complete { (rounds : List Round) (old new : Pair) (trace : Trace) →
        IsTrace rounds old trace new → BringsShortBadRuns rounds old new →
        rounds_for old ≤ whole_rounds rounds → HaveFinished old.sender.files trace new }
    ensures sooner { (rounds : List Round) (old new : Pair) (trace : Trace) →
        IsTrace rounds old trace new → AreNew old → NoneCounted old new →
        AllWhole rounds → length rounds < rounds_for old → trace.send ≢ SendState.Finished }
{
    one_pieces();
    rounds_are_turns();
    turns_of_a_standing_pair();
    a_standing_pair_commits_the_first_files();
    new_ends_stand();
    neither_end_gives_up::<Headers>();
    both_finish::<Headers>();
    not_sooner::<Headers>();
}

/// A sender that hears nothing, while the receiver takes no step, goes where the machine's sender
/// goes, and what the machine knows of the receiver stays. That is no worse than a turn in which
/// both deliveries are lost: where such a turn leads to a state from which short bursts are
/// survived, so does this.
pub fn a_sender_alone_goes_on()
    ensures stands { (confirm : Confirm) (files : Batch) (st : State) (old new : SenderParts)
        (failed : Bool) → Invariant confirm (frames_of files) st → AllTold old.files →
        SenderRefines files st old → IsStep old (hears (counts old) old.standing []) failed new →
        Invariant confirm (frames_of files) (sender_step (frames_of files) failed [] st)
        × AllTold new.files
        × SenderRefines files (sender_step (frames_of files) failed [] st) new
        × KeepsReceiver st (sender_step (frames_of files) failed [] st) }
    ensures fine { (confirm : Confirm) (files : Batch) (before next : ℕ) (st : State)
        (failed : Bool) → IsFine confirm (frames_of files) before st →
        IsFine confirm (frames_of files) next
        (after_turn (frames_of files) confirm (record lost { source_failed = failed }) st) →
        IsFine confirm (frames_of files) next (sender_step (frames_of files) failed [] st) }
{
    halves_keep_the_other_end::<Headers>();
    a_sender_follows_the_machine();
}

/// Of a silent receiver no control comes back, whatever becomes of the delivery.
pub fn nothing_comes_back_of_silence()
    ensures { (delivery : Delivery) →
        ShowsBack Silence delivery → controls_in (arrives delivery (reply_bytes Silence)) ≡ [] }
{
    what_comes_back();
}

/// What a sender's step leaves of its sources tells whether one failed (`filled`). Failure counts
/// never fall, no file comes or goes, and where none rose from the first to the last, nothing
/// failed on the way.
pub fn failure_counts_tell()
    ensures filled { (failed : Bool) (fills : Option Position) (old new : List FileParts) →
        IsFilled failed fills old new → IsSourceTruth failed old new }
    ensures long { (failed : Bool) (old new : List FileParts) →
        IsSourceTruth failed old new → length new ≡ length old }
    ensures grow { (failed : Bool) (old new : List FileParts) →
        IsSourceTruth failed old new → (i : ℕ) →
        (file_at old i).failures ≤ (file_at new i).failures }
    ensures source { (failed : Bool) (old between new : List FileParts) →
        IsSourceTruth failed old between →
        ((i : ℕ) → (file_at between i).failures ≤ (file_at new i).failures) →
        ((i : ℕ) → i < length old → ¬ Counted (file_at old i).failures (file_at new i).failures) →
        failed ≡ false }
    ensures sink { (failed : Bool) (a b c : ℕ) →
        Tells failed a b → b ≤ c → ¬ Counted a c → failed ≡ false }
{}
