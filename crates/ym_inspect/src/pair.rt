//! Two files of bytes, one for each way. They tell no moments: what the receiver wrote is told
//! where the protocol has it.

ghost use Rattle.std.specs.Prelude.{◌≡◌, ◌≢◌, ℕ, List, Option, Some, Ok, Err, true, false, OnOk, IfOk};
ghost use Rattle.std.specs.Io.KnownBytes.{IsAtEnd};
ghost use Rattle.ym_inspect.specs.CaptureFaults.{CountsWrites};
ghost use Rattle.ym_inspect.specs.CaptureTold.{TellsLast};
ghost use Rattle.ym_inspect.specs.Inspecting.{Parts};
ghost use Rattle.ym_inspect.specs.PairTold.{ExplainsPair, KeepsEnd, PairOn, WayOn};

use crate::fault::InspectFault;
use crate::inspection::Inspection;
use crate::reading::{PIECE, read_some};
use std::alloc::Global;
use ym_explain::{Fate, Verdict, Ways};
use ym_streams::{Input, Output};
use ym_told::{Direction, Settle};

/// A file of one way, read in pieces.
#[derive(Drop)]
struct OneWay<'a, I: Input> {
    input: &'a mut I,
    way: Direction,
    is_over: bool,
}

impl<'a, I: Input> OneWay<'a, I> {
    /// One of which nothing was read.
    fn new(input: &'a mut I, way: Direction) -> OneWay<'a, I>
        ensures left { I.remaining result.input.now ≡ I.remaining input.old }
        ensures way { result.way ≡ way }
        ensures over { result.is_over ≡ false }
    {
        OneWay {
            input,
            way,
            is_over: false,
        }
    }

    /// Reads more of it into the inspection.
    fn fill(&mut self, inspection: &mut Inspection) -> Result<(), InspectFault>
        ensures way { self.new.way ≡ self.old.way }
        ensures reads { OnOk result ((before : Option (List ℕ))
            → WayOn self.old.way (I.remaining self.old.input.now) inspection.old before
            (I.remaining self.new.input.now) inspection.new before) }
        ensures over { OnOk result
            (self.new.is_over ≡ true → IsAtEnd (I.remaining self.new.input.now)) }
        ensures why { result ≢ Err InspectFault.Write }
    {
        let mut buffer = [0u8; PIECE];
        let count = read_some(self.input, &mut buffer)?;
        self.is_over = count == 0;
        inspection.hold(self.way, &buffer[..count])?;
        Ok(())
    }

    /// Sees to it that a byte of it is held, where there is one.
    fn ready(&mut self, inspection: &mut Inspection) -> Result<(), InspectFault>
        ensures way { self.new.way ≡ self.old.way }
        ensures reads { OnOk result ((before : Option (List ℕ))
            → WayOn self.old.way (I.remaining self.old.input.now) inspection.old before
            (I.remaining self.new.input.now) inspection.new before) }
        ensures over { OnOk result (KeepsEnd self.old.is_over (I.remaining self.old.input.now)
            self.new.is_over (I.remaining self.new.input.now)) }
        ensures why { result ≢ Err InspectFault.Write }
    {
        if self.is_over || !inspection.buffered(self.way).is_empty() {
            return Ok(());
        }
        self.fill(inspection)
    }

    /// What may be told of it: all, where it is over.
    fn settle(&self) -> Settle {
        if self.is_over {
            Settle::All
        } else {
            Settle::Nothing
        }
    }

    /// Tells the next of it. Where nothing is left of it, the answer is no.
    fn tell<O: Output>(
        &mut self,
        inspection: &mut Inspection,
        out: &mut O,
    ) -> Result<bool, InspectFault>
        ensures way { self.new.way ≡ self.old.way }
        ensures reads { OnOk result (WayOn self.old.way (I.remaining self.old.input.now)
            inspection.old (O.contents out.old) (I.remaining self.new.input.now) inspection.new
            (O.contents out.new)) }
        ensures over { OnOk result (KeepsEnd self.old.is_over (I.remaining self.old.input.now)
            self.new.is_over (I.remaining self.new.input.now)) }
        ensures done { result ≡ Ok false → self.new.is_over ≡ true }
        ensures failed { CountsWrites result (O.failures out.old) (O.failures out.new) }
    {
        for _ in 0..u64::MAX {
            if inspection.tell_one(self.way, self.settle(), out)? {
                return Ok(true);
            }
            if self.is_over {
                return Ok(false);
            }
            self.fill(inspection)?;
        }
        Err(InspectFault::Endless)
    }
}

/// Whether the next byte of the receiver asks.
fn asks_next(inspection: &Inspection) -> bool {
    matches!(inspection.buffered(Direction::Back), [b'C', ..])
}

/// Whether the receiver is to be told next: a frame that is out waits for it, and else it may ask.
fn is_its_turn(inspection: &Inspection) -> bool {
    let standing = inspection.standing();
    match standing.fate {
        Fate::Start => !standing.signs.asked || asks_next(inspection),
        Fate::Out | Fate::Damaged => standing.owes(),
        Fate::Taken | Fate::Refused => asks_next(inspection),
    }
}

/// Tells the next of the first way, or else of the second. Where nothing is left, the answer is no.
fn tell_either<I: Input, J: Input, O: Output>(
    first: &mut OneWay<'_, I>,
    second: &mut OneWay<'_, J>,
    inspection: &mut Inspection,
    out: &mut O,
) -> Result<bool, InspectFault>
    ensures first { first.new.way ≡ first.old.way }
    ensures second { second.new.way ≡ second.old.way }
    ensures reads { OnOk result ((mid : Parts) × (between : Option (List ℕ))
        × WayOn first.old.way (I.remaining first.old.input.now) inspection.old
        (O.contents out.old) (I.remaining first.new.input.now) mid between
        × WayOn second.old.way (J.remaining second.old.input.now) mid between
        (J.remaining second.new.input.now) inspection.new (O.contents out.new)) }
    ensures first_over { OnOk result (KeepsEnd first.old.is_over
        (I.remaining first.old.input.now) first.new.is_over (I.remaining first.new.input.now)) }
    ensures second_over { OnOk result (KeepsEnd second.old.is_over
        (J.remaining second.old.input.now) second.new.is_over (J.remaining second.new.input.now)) }
    ensures first_done { result ≡ Ok false → first.new.is_over ≡ true }
    ensures second_done { result ≡ Ok false → second.new.is_over ≡ true }
    ensures failed { CountsWrites result (O.failures out.old) (O.failures out.new) }
{
    if first.tell(inspection, out)? {
        return Ok(true);
    }
    second.tell(inspection, out)
}

/// Tells the next of the way whose turn it is, or else of the other.
fn tell_next<I: Input, J: Input, O: Output>(
    there: &mut OneWay<'_, I>,
    back: &mut OneWay<'_, J>,
    inspection: &mut Inspection,
    out: &mut O,
) -> Result<bool, InspectFault>
    requires there { there.old.way ≡ Direction.There }
    requires back { back.old.way ≡ Direction.Back }
    ensures there { there.new.way ≡ Direction.There }
    ensures back { back.new.way ≡ Direction.Back }
    ensures reads { OnOk result (PairOn (I.remaining there.old.input.now)
        (J.remaining back.old.input.now) inspection.old (O.contents out.old)
        (I.remaining there.new.input.now) (J.remaining back.new.input.now) inspection.new
        (O.contents out.new)) }
    ensures there_over { OnOk result (KeepsEnd there.old.is_over (I.remaining there.old.input.now)
        there.new.is_over (I.remaining there.new.input.now)) }
    ensures back_over { OnOk result (KeepsEnd back.old.is_over (J.remaining back.old.input.now)
        back.new.is_over (J.remaining back.new.input.now)) }
    ensures there_done { result ≡ Ok false → there.new.is_over ≡ true }
    ensures back_done { result ≡ Ok false → back.new.is_over ≡ true }
    ensures failed { CountsWrites result (O.failures out.old) (O.failures out.new) }
{
    if is_its_turn(inspection) {
        return tell_either(back, there, inspection, out);
    }
    tell_either(there, back, inspection, out)
}

/// Tells all of both ways.
fn tell_both<I: Input, J: Input, O: Output>(
    there: &mut OneWay<'_, I>,
    back: &mut OneWay<'_, J>,
    inspection: &mut Inspection,
    out: &mut O,
) -> Result<(), InspectFault>
    requires there { there.old.way ≡ Direction.There }
    requires back { back.old.way ≡ Direction.Back }
    requires there_left { there.old.is_over ≡ false }
    requires back_left { back.old.is_over ≡ false }
    ensures reads { OnOk result (PairOn (I.remaining there.old.input.now)
        (J.remaining back.old.input.now) inspection.old (O.contents out.old)
        (I.remaining there.new.input.now) (J.remaining back.new.input.now) inspection.new
        (O.contents out.new)) }
    ensures there_done { OnOk result (IsAtEnd (I.remaining there.new.input.now)) }
    ensures back_done { OnOk result (IsAtEnd (J.remaining back.new.input.now)) }
    ensures failed { CountsWrites result (O.failures out.old) (O.failures out.new) }
{
    for _ in 0..u64::MAX {
        back.ready(inspection)?;
        if !tell_next(there, back, inspection, out)? {
            return Ok(());
        }
    }
    Err(InspectFault::Endless)
}

/// Tells two files of bytes, one for each way. They tell no moments: what the receiver wrote is
/// told where the protocol has it, each answer behind the frame that waits for it.
///
/// # Errors
///
/// Where a read or a write failed, or memory ran out.
pub fn explain_pair<I: Input, J: Input, O: Output>(
    alloc: Global,
    there: &mut I,
    back: &mut J,
    out: &mut O,
) -> Result<Verdict, InspectFault>
    // All that both have is told, that of each in its order, and nothing else.
    ensures told { IfOk result (λ verdict. (sent answered : List ℕ)
        → I.remaining there.old ≡ Some sent → J.remaining back.old ≡ Some answered
        → ExplainsPair sent answered (O.contents out.old) verdict (O.contents out.new)) }
    // The last of what is told is this verdict.
    ensures last { IfOk result (λ verdict. TellsLast Ways.Both verdict (O.contents out.new)) }
    ensures wrote { CountsWrites result (O.failures out.old) (O.failures out.new) }
{
    let mut inspection = Inspection::new(alloc);
    let mut there = OneWay::new(there, Direction::There);
    let mut back = OneWay::new(back, Direction::Back);
    tell_both(&mut there, &mut back, &mut inspection, out)?;
    inspection.end(Ways::Both, out)
}
