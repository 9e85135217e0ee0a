//! Laws of what a receiver does with a delivery.

ghost use Rattle.std.specs.Prelude.{◌≡◌, Bool, List, ℕ, Result, Ok, length};
ghost use Rattle.ym_header.specs.Header.{HeaderParts, IsHeader, length_limit};
ghost use Rattle.ym_header.specs.Text.{text, end_text};
ghost use Rattle.ym_header.specs.declared.fault.HeaderFault.{HeaderFault};
ghost use Rattle.ym_header.specs.declared.reading.Zero.{Zero};
ghost use Rattle.ym_header.specs.declared.reading.Zero.TheVariants as zero_is;
ghost use Rattle.ym_core.specs.declared.delivery.Heard.{Heard};
ghost use Rattle.ym_frame.specs.declared.control.Reply.{Reply};
ghost use Rattle.ym_file.specs.Kept.{Kept, IsNew};
ghost use Rattle.ym_file.specs.Plan.{IsPieces};
ghost use Rattle.ym_file.specs.declared.plan.Shape.{Shape};
ghost use Rattle.ym_machine.specs.declared.confirm.Confirm.{Confirm};
ghost use Rattle.ym_machine.specs.Frames.{File, frames_of};
ghost use Rattle.ym_machine.specs.State.{State, start};
ghost use Rattle.ym_machine.specs.Machine.{Invariant};
ghost use Rattle.ym_core.specs.Receiver.{Receiver, hears, new_receiver};
ghost use Rattle.ym_core.specs.Step.{ReadsAs, Means};
ghost use Rattle.ym_link.specs.ReceiverInto.{ReceiverParts, HearsGives};
ghost use Rattle.ym_link.specs.ReceiverRefines.{IsSent, IsBatch, bytes_of, ReceiverRefines, heard_there, Follows};

use ym_file::laws::{covered_by_the_last_piece, pieces_give_the_file};
use ym_header::laws::{one_meaning, written_is_read};
use ym_machine::Batch;
use ym_machine::laws::{files_within_a_batch, positions_of_a_batch};

/// A body stands for one thing: the body that is written for a header for that header, and the body
/// that ends a batch for the end.
pub fn a_block_zero_means_one_thing()
    ensures some { (body : List ℕ) → (zero : Result Zero HeaderFault) × ReadsAs body zero }
    ensures one { (body : List ℕ) (x y : Result Zero HeaderFault) →
        ReadsAs body x → ReadsAs body y → x ≡ y }
    ensures header { (h : HeaderParts) →
        IsHeader length_limit h → ReadsAs (text h) (Ok (zero_is.File h)) }
    ensures end { ReadsAs end_text (Ok zero_is.End) }
{
    one_meaning();
    written_is_read();
}

/// The step of the table is one, whatever a receiver and a delivery are.
pub fn a_delivery_has_one_step()
    ensures some { (r : Receiver) (h : Heard) → (zero : Result Zero HeaderFault) × Means r h zero }
    ensures one { (r : Receiver) (h : Heard) (x y : Result Zero HeaderFault) →
        Means r h x → Means r h y → hears r x h ≡ hears r y h }
{
    a_block_zero_means_one_thing();
}

/// Batches whose files have the headers that block 0 carries.
pub struct Headers;

impl Batch for Headers {
    ghost use Rattle.ym_header.specs.Header.{HeaderParts};

    ghost Header = { HeaderParts };
}

/// A receiver that refines a state of the machine goes, with each delivery, where the machine's
/// receiver step goes, and gives its reply; and a new one refines the start.
pub fn a_standing_receiver_follows_the_machine()
    ensures start { (confirm : Confirm) (files : List (File HeaderParts)) (kept : Kept) →
        IsNew kept → ReceiverRefines confirm files start (new_receiver confirm) kept }
    ensures follows { (confirm : Confirm) (files : List (File HeaderParts)) (whole : Bool)
        (st : State) (old : ReceiverParts) (reply : Reply) (new : ReceiverParts) →
        IsBatch files → Invariant confirm (frames_of files) st →
        ReceiverRefines confirm files st old.receiver old.kept →
        HearsGives old (heard_there files whole st) (Ok reply) new →
        Follows confirm files whole st old reply new }
{
    a_block_zero_means_one_thing();
    positions_of_a_batch::<Headers>();
    files_within_a_batch::<Headers>();
}

/// A file that is cut by a plan is covered by its last piece, and by none before it; and what is
/// kept of its pieces is its bytes.
pub fn a_planned_file_is_sent()
    ensures sent { (shape : Shape) (header : HeaderParts) (bytes : List ℕ)
        (pieces : List (List ℕ)) →
        IsHeader length_limit header → header.length ≡ length bytes → IsPieces shape bytes pieces →
        IsSent (record { header = header; pieces = pieces }) }
    ensures bytes { (shape : Shape) (header : HeaderParts) (bytes : List ℕ)
        (pieces : List (List ℕ)) →
        IsHeader length_limit header → header.length ≡ length bytes → IsPieces shape bytes pieces →
        bytes_of (record { header = header; pieces = pieces }) ≡ bytes }
{
    covered_by_the_last_piece();
    pieces_give_the_file();
}
