//! The definitions, computed on calls that are written out.

ghost use Rattle.std.specs.Prelude.{◌≡◌, ◌∷◌, [], List, codes};
ghost use Rattle.ym_file.specs.declared.plan.Shape.{Shape};
ghost use Rattle.ym_machine.specs.declared.confirm.Confirm.TheVariants.{Twice};
ghost use Rattle.ym_core.specs.declared.position.Position.TheVariants.{Eot};
ghost use Rattle.ym_file.specs.SourceFile.{FileParts};
ghost use Rattle.ym_line.specs.Completion.{longest_bad_run};
ghost use Rattle.ym_line.specs.declared.delivery.Delivery.TheVariants.{Whole, Lost};
ghost use Rattle.ym_line.specs.declared.delivery.Round.{Round};
ghost use Rattle.ym_pair.specs.AnyPeer.{AreAmong, AreAcknowledged, bytes_heard, spelling};
ghost use Rattle.ym_pair.specs.PairingExamples.{hello, hello_twice, block_again, block_skipped, data_block, eot, spoke, eot_again, eot_and_start, another_frame, round, asked_again, asked_again_rounds, asked_early, asked_early_rounds, called_off};
ghost use Rattle.ym_pair.specs.PairingExamples.{Blocks, answered_all, started_late, stalled};
ghost use Rattle.ym_pair.specs.PairingExamples.{started_late_rounds, stalled_rounds, unwritten};
ghost use Rattle.ym_pair.specs.Pairing.{ArrivesThere, PairUp};

use super::any_peer::a_delivery_brings_its_frame;
use ym_line::laws::nothing_comes_back_of_silence;

/// A file is spelled where a block came again, and then once; and not where one was skipped.
pub fn a_file_is_spelled_once()
    ensures again { AreAmong (spelling Twice (hello ∷ [])) block_again }
    ensures once { AreAmong (spelling Twice (hello_twice ∷ [])) block_again → ⊥ }
    ensures skipped { AreAmong (spelling Twice (hello ∷ [])) block_skipped → ⊥ }
    ensures bytes { bytes_heard hello ≡ codes "hello" }
{}

/// An EOT is acknowledged by an ACK behind it, also where its first reply was lost; and not by a C,
/// or by an ACK behind something else.
pub fn an_ack_is_of_the_frame_before_it()
    ensures later { (shape : Shape) (files : List FileParts) →
        AreAcknowledged shape files (Eot 0 ∷ []) eot_again }
    ensures start { (shape : Shape) (files : List FileParts) →
        AreAcknowledged shape files (Eot 0 ∷ []) eot_and_start → ⊥ }
    ensures other { (shape : Shape) (files : List FileParts) →
        AreAcknowledged shape files (Eot 0 ∷ []) another_frame → ⊥ }
{}

/// Deliveries pair up where a reply is lost and the receiver asks again, where it asks before its
/// peer is there, and where a sender that gave up has left CAN CAN; and not where the receiver
/// hears a block that was not written.
pub fn lost_and_early_replies_pair_up()
    ensures again { PairUp (spoke eot (67 ∷ []) ∷ []) [] asked_again asked_again_rounds }
    ensures bad_run { longest_bad_run 0 asked_again_rounds ≡ 2 }
    ensures early { PairUp (spoke [] (67 ∷ 67 ∷ 67 ∷ []) ∷ []) [] asked_early asked_early_rounds }
    ensures called_off { PairUp [] (24 ∷ 24 ∷ []) called_off (round Whole Lost ∷ []) }
    ensures skipped { ArrivesThere Whole eot (data_block 2) → ⊥ }
{}

/// Deliveries of two ordinary sessions pair up in which the sender waited once in vain. In the one
/// the receiver was started late; in the other it stalled, and both copies of a block came to it in
/// one read. Each has one bad round. Deliveries do not pair up where an ACK came that was not
/// written.
pub fn waits_in_vain_pair_up()
    ensures late { (blocks : Blocks) →
        PairUp (started_late blocks) [] (answered_all blocks) started_late_rounds }
    ensures late_bad_run { longest_bad_run 0 started_late_rounds ≡ 1 }
    ensures stalled { (blocks : Blocks) →
        PairUp (stalled blocks) [] (answered_all blocks) stalled_rounds }
    ensures stalled_bad_run { longest_bad_run 0 stalled_rounds ≡ 1 }
    ensures refused { (rounds : List Round) →
        PairUp (spoke eot (6 ∷ []) ∷ []) [] unwritten rounds → ⊥ }
{
    a_delivery_brings_its_frame();
    nothing_comes_back_of_silence();
}
