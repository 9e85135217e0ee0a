//! Laws of what a sender does with a delivery.

ghost use Rattle.std.specs.Prelude.{◌≡◌, ◌↔◌, ◌⊎◌, ◌+◌, ◌++◌, ℕ, Bool, List, true, length, All};
ghost use Rattle.std.specs.List.{AllZip};
ghost use Rattle.ym_file.specs.declared.plan.Shape.{Shape};
ghost use Rattle.ym_machine.specs.Frames.{frames_of, count_within};
ghost use Rattle.ym_frame.specs.Control.{IsSubsequence, reply_bytes, controls as control_bytes};
ghost use Rattle.ym_frame.specs.declared.control.Control.{Control};
ghost use Rattle.ym_frame.specs.declared.control.Reply.{Reply};
ghost use Rattle.ym_machine.specs.Steps.{sender_step, is_within, IsRemnant, controls as reply_controls};
ghost use Rattle.ym_machine.specs.State.{State, start, said};
ghost use Rattle.ym_file.specs.SourceFile.{FileParts, IsFile, counts_of};
ghost use Rattle.ym_core.specs.Position.{done_at};
ghost use Rattle.ym_link.specs.Sender.{SenderParts, IsSender, IsStep, counts, spoken};
ghost use Rattle.ym_core.specs.Standing.{new_standing};
ghost use Rattle.ym_link.specs.SenderRefines.{Batch, IsFileOf, SenderRefines, IsSaid, AllTold, batch_of};
ghost use Rattle.ym_link.specs.Moves.{GoesOnePosition, FinishesLast, KeepsCounts, KeepsFiles};
ghost use Rattle.ym_core.specs.declared.standing.Standing.{Standing};
ghost use Rattle.ym_core.specs.declared.state.SendState.TheVariants.{Running};
ghost use Rattle.ym_core.specs.Scan.{controls_in};
ghost use Rattle.ym_core.specs.Standing.{hears, is_settled, IsSame};

use ym_file::laws::one_pieces;
use ym_machine::laws::what_comes_back;

/// A delivery is settled exactly where no further bytes can change what a sender does with it.
pub fn a_settled_delivery_stays()
    ensures { (counts : List ℕ) (old : Standing) (bytes : List ℕ) →
        is_settled counts old (controls_in bytes) ≡ true ↔
        ((more : List ℕ) →
        hears counts old (controls_in (bytes ++ more)) ≡ hears counts old (controls_in bytes)) }
{}

/// A sender that goes on has a new position or mode, and then counts from 0, or has the same and
/// counts one more delivery without progress.
pub fn progress_is_a_change()
    ensures { (counts : List ℕ) (old : Standing) (bytes : List ℕ) →
        (hears counts old (controls_in bytes)).standing.state ≡ Running →
        let new = (hears counts old (controls_in bytes)).standing in
        ((new.retries ≡ 0) × ¬ IsSame old new) ⊎
        ((new.retries ≡ old.retries + 1) × IsSame old new) }
{}

/// A delivery leaves a sender that runs at its place, or takes it to the next one, behind an ACK of
/// what it has sent; and it finishes at the end block alone, behind an ACK of that.
pub fn a_delivery_goes_one_position()
    ensures goes { GoesOnePosition }
    ensures finishes { FinishesLast }
{}

/// A step keeps the batch: how many blocks each file has, and that it is within its limits.
pub fn a_step_keeps_the_batch()
    ensures counts { KeepsCounts }
    ensures files { KeepsFiles }
{}

/// What comes back of a reply holds its controls, with some of them left out where the delivery is
/// damaged.
pub fn what_came_back_is_of_the_reply()
    ensures whole { (reply : Reply) → controls_in (reply_bytes reply) ≡ reply_controls reply }
    ensures damaged { (reply : Reply) (bytes : List ℕ) →
        IsSubsequence (control_bytes bytes) (reply_bytes reply) →
        is_within (controls_in bytes) (reply_controls reply) ≡ true }
    ensures remnants { (reply : Reply) (came : List Control) →
        is_within came (reply_controls reply) ≡ true → IsRemnant came }
{
    what_comes_back();
}

/// A new sender refines the start. A sender that refines a state of the machine refines, after a
/// delivery, the one that the machine's sender step leads to, with the truth whether its source
/// failed; it says what the machine's sender says, where its sources tell their bytes; and it has
/// done the files that the machine's sender reports.
pub fn a_sender_follows_the_machine()
    ensures starts { (shape : Shape) (sources : List FileParts) (files : Batch) (frame : List ℕ) →
        AllZip (IsFileOf shape) sources files →
        SenderRefines files start (record {
          standing = new_standing (counts_of shape sources);
          shape = shape;
          files = sources;
          frame = frame;
        }) }
    ensures batch { (shape : Shape) (sources : List FileParts) →
        All IsFile sources → AllZip (IsFileOf shape) sources (batch_of shape sources) }
    ensures follows { (files : Batch) (st : State) (old new : SenderParts) (bytes : List ℕ)
        (failed : Bool) →
        SenderRefines files st old → IsRemnant (controls_in bytes) →
        IsStep old (hears (counts old) old.standing (controls_in bytes)) failed new →
        SenderRefines files (sender_step (frames_of files) failed (controls_in bytes) st) new }
    ensures says { (files : Batch) (st : State) (sender : SenderParts) →
        SenderRefines files st sender → IsSender sender → AllTold sender.files →
        IsSaid files (said st) (spoken sender) }
    ensures done { (files : Batch) (st : State) (sender : SenderParts) →
        SenderRefines files st sender →
        done_at (length sender.files) sender.standing.position ≡
        count_within files st.acknowledged }
{
    one_pieces();
}
