//! A record: lines of `SECONDS > HEX` for bytes from the sender, and `SECONDS < HEX` for bytes from
//! the receiver.

ghost use Rattle.std.specs.Prelude.{◌≡◌, ◌≢◌, ◌+◌, ◌++◌, ℕ, List, [], Option, Some, None, Ok, Err, IfOk, OnOk, IfErr, IfSome, IfNone, option_to_list};
ghost use Rattle.ym_inspect.specs.CaptureFaults.{CountsReads, CountsWrites, IsOfTelling};
ghost use Rattle.ym_inspect.specs.CaptureTold.{Explains, Tells, TellsLast};
ghost use Rattle.ym_inspect.specs.FirstBytes.{Begins};
ghost use Rattle.ym_inspect.specs.Inspecting.{nothing_buffered};
ghost use Rattle.ym_inspect.specs.Recorded.{after_char, capped};
ghost use Rattle.ym_inspect.specs.RecordRead.{and_char, and_chars, at_record_end, in_line, so_much, way_in, EndsCut, GoesOn, IsCut, IsFirstLine, SaysLine, SoFar, TellsRecord};

use crate::fault::{InspectFault, RecordFault};
use crate::in_line::{InLine, Stepped, is_open, step};
use crate::inspection::Inspection;
use crate::reading::{PIECE, read_some};
use std::alloc::{AllocError, Global};
use ym_explain::{Verdict, Ways};
use ym_streams::{Input, Output};
use ym_told::Direction;

/// The moment and the way of the line under way, where they are read.
fn line_at(state: InLine) -> Option<(u64, Direction)>
    ensures some { IfSome result (λ line. way_in state ≡ Some line.1) }
    ensures none { IfNone result (way_in state ≡ None) }
{
    match state {
        InLine::Bytes(at, way) => Some((at, way)),
        InLine::Half(at, way, _) => Some((at, way)),
        InLine::Start | InLine::Comment => None,
        InLine::Seconds(_) | InLine::Fraction(_, _) | InLine::Moment(_) => None,
    }
}

/// A record under way.
#[derive(Drop)]
struct Recording {
    inspection: Inspection,
    state: InLine,
    number: u64,
    /// The bytes of the line under way. They are kept until its end came: a line without one was
    /// cut, and what it has may be a part of what it was to say.
    buffered: Vec<u8>,
}

impl Recording {
    /// One of which nothing was read.
    fn new(alloc: Global) -> Recording
        ensures inspection { result.inspection ≡ nothing_buffered }
        ensures state { result.state ≡ InLine.Start }
        ensures number { result.number ≡ 1 }
        ensures buffered { result.buffered.items ≡ [] }
    {
        Recording {
            inspection: Inspection::new(alloc),
            state: InLine::Start,
            number: 1,
            buffered: Vec::new(alloc),
        }
    }

    /// This fault of the line under way.
    fn fault(&self, why: RecordFault) -> InspectFault
        ensures { result ≡ InspectFault.Line self.now.number why }
    {
        InspectFault::Line {
            number: self.number,
            why,
        }
    }

    /// What a character of it leaves.
    fn stepped(&self, character: u8) -> Result<Stepped, InspectFault>
        ensures ok { IfOk result (λ stepped. after_char self.now.state character ≡ Ok stepped) }
        ensures err { IfErr result (λ fault. (buffered : List ℕ) (read : List (Direction × ℕ)) →
            and_char (Ok (so_much self.now.state self.now.number buffered read)) character
            ≡ Err fault) }
        ensures why { IfErr result (λ fault. (why : RecordFault)
            × (fault ≡ InspectFault.Line self.now.number why)) }
    {
        match step(self.state, character) {
            Ok(stepped) => Ok(stepped),
            Err(why) => Err(self.fault(why)),
        }
    }

    /// Tells what the line under way says, if it has a way.
    fn tell_line<O: Output>(&mut self, out: &mut O) -> Result<(), InspectFault>
        ensures tells { OnOk result (Tells self.old.inspection (O.contents out.old)
            (in_line (way_in self.old.state) self.old.buffered.items)
            self.new.inspection (O.contents out.new)) }
        ensures number { self.new.number ≡ self.old.number }
        ensures failed { CountsWrites result (O.failures out.old) (O.failures out.new) }
        ensures why { IsOfTelling result }
    {
        let Some((at, way)) = line_at(self.state) else {
            return Ok(());
        };
        if self.buffered.is_empty() {
            return Ok(());
        }
        self.inspection.take(way, at, self.buffered.as_slice(), out)
    }

    /// Ends the line under way, behind which it is so.
    fn end_line<O: Output>(&mut self, state: InLine, out: &mut O) -> Result<(), InspectFault>
        ensures tells { OnOk result (Tells self.old.inspection (O.contents out.old)
            (in_line (way_in self.old.state) self.old.buffered.items)
            self.new.inspection (O.contents out.new)) }
        ensures state { OnOk result (self.new.state ≡ state) }
        ensures number { OnOk result (self.new.number ≡ capped (self.old.number + 1)) }
        ensures buffered { OnOk result (self.new.buffered.items ≡ []) }
        ensures failed { CountsWrites result (O.failures out.old) (O.failures out.new) }
        ensures why { IsOfTelling result }
    {
        self.tell_line(out)?;
        self.buffered.clear();
        self.number = self.number.saturating_add(1);
        self.state = state;
        Ok(())
    }

    /// Goes on in the line under way, behind a character that leaves this.
    fn go_on(&mut self, stepped: Stepped) -> Result<(), AllocError>
        ensures inspection { OnOk result (self.new.inspection ≡ self.old.inspection) }
        ensures state { OnOk result (self.new.state ≡ stepped.state) }
        ensures number { OnOk result (self.new.number ≡ self.old.number) }
        ensures buffered { OnOk result
            (self.new.buffered.items ≡ self.old.buffered.items ++ option_to_list stepped.byte) }
    {
        if let Some(byte) = stepped.byte {
            self.buffered.push(byte)?;
        }
        self.state = stepped.state;
        Ok(())
    }

    /// Takes a character of the record, and tells what the line says that it ends.
    fn take_one<O: Output>(&mut self, character: u8, out: &mut O) -> Result<(), InspectFault>
        ensures read { OnOk result ((before : Option (List ℕ)) (read : List (Direction × ℕ))
            → SoFar before self.old.inspection (O.contents out.old) read
            → GoesOn before
            (and_char (Ok (so_much self.old.state self.old.number self.old.buffered.items read))
            character)
            self.new.inspection self.new.state self.new.number self.new.buffered.items
            (O.contents out.new)) }
        ensures line { IfErr result (λ fault. (read : List (Direction × ℕ)) → SaysLine fault
            (and_char (Ok (so_much self.old.state self.old.number self.old.buffered.items read))
            character)) }
        ensures uncut { (number : ℕ) → result ≢ Err (InspectFault.Cut number) }
        ensures failed { CountsWrites result (O.failures out.old) (O.failures out.new) }
        ensures why { result ≢ Err InspectFault.Read }
    {
        let stepped = self.stepped(character)?;
        if character == b'\n' {
            return self.end_line(stepped.state, out);
        }
        self.go_on(stepped)?;
        Ok(())
    }

    /// Takes characters of the record, and tells what the lines say that they end.
    fn take<O: Output>(&mut self, characters: &[u8], out: &mut O) -> Result<(), InspectFault>
        ensures read { OnOk result ((before : Option (List ℕ)) (read : List (Direction × ℕ))
            → SoFar before self.old.inspection (O.contents out.old) read
            → GoesOn before
            (and_chars (Ok (so_much self.old.state self.old.number self.old.buffered.items read))
            characters.now)
            self.new.inspection self.new.state self.new.number self.new.buffered.items
            (O.contents out.new)) }
        ensures line { IfErr result (λ fault.
            (before : Option (List ℕ)) (read : List (Direction × ℕ))
            → SoFar before self.old.inspection (O.contents out.old) read → SaysLine fault
            (and_chars (Ok (so_much self.old.state self.old.number self.old.buffered.items read))
            characters.now)) }
        ensures uncut { (number : ℕ) → result ≢ Err (InspectFault.Cut number) }
        ensures failed { CountsWrites result (O.failures out.old) (O.failures out.new) }
        ensures why { result ≢ Err InspectFault.Read }
    {
        for character in characters {
            self.take_one(*character, out)?;
        }
        Ok(())
    }

    /// Reads a record to its end, and tells what its lines say that have one.
    fn read_all<I: Input, O: Output>(
        &mut self,
        input: &mut I,
        out: &mut O,
    ) -> Result<(), InspectFault>
        ensures read { OnOk result
            ((text : List ℕ) (before : Option (List ℕ)) (read : List (Direction × ℕ))
            → I.remaining input.old ≡ Some text
            → SoFar before self.old.inspection (O.contents out.old) read
            → GoesOn before
            (and_chars (Ok (so_much self.old.state self.old.number self.old.buffered.items read))
            text)
            self.new.inspection self.new.state self.new.number self.new.buffered.items
            (O.contents out.new)) }
        ensures line { IfErr result (λ fault.
            (text : List ℕ) (before : Option (List ℕ)) (read : List (Direction × ℕ))
            → I.remaining input.old ≡ Some text
            → SoFar before self.old.inspection (O.contents out.old) read → SaysLine fault
            (and_chars (Ok (so_much self.old.state self.old.number self.old.buffered.items read))
            text)) }
        ensures uncut { (number : ℕ) → result ≢ Err (InspectFault.Cut number) }
        ensures reads { CountsReads result (I.failures input.old) (I.failures input.new) }
        ensures wrote { CountsWrites result (O.failures out.old) (O.failures out.new) }
    {
        let mut buffer = [0u8; PIECE];
        for _ in 0..u64::MAX {
            let count = read_some(input, &mut buffer)?;
            if count == 0 {
                return Ok(());
            }
            self.take(&buffer[..count], out)?;
        }
        Err(InspectFault::Endless)
    }

    /// Tells the end of what its lines say that have one. A last line without one is a fault.
    fn end<O: Output>(&mut self, out: &mut O) -> Result<Verdict, InspectFault>
        ensures ends { IfOk result (λ verdict.
            (before : Option (List ℕ)) (read : List (Direction × ℕ))
            → SoFar before self.old.inspection (O.contents out.old) read
            → (at_record_end
            (Ok (so_much self.old.state self.old.number self.old.buffered.items read)) ≡ Ok read)
            × Explains Ways.Both read before verdict (O.contents out.new)) }
        ensures last { IfOk result (λ verdict. TellsLast Ways.Both verdict (O.contents out.new)) }
        ensures line { IfErr result (λ fault. (number : ℕ) (why : RecordFault)
            → fault ≢ InspectFault.Line number why) }
        ensures cut { IfErr result (λ fault.
            (before : Option (List ℕ)) (read : List (Direction × ℕ))
            → SoFar before self.old.inspection (O.contents out.old) read → EndsCut fault
            (Ok (so_much self.old.state self.old.number self.old.buffered.items read)) before
            (O.contents out.new)) }
        ensures failed { CountsWrites result (O.failures out.old) (O.failures out.new) }
        ensures why { result ≢ Err InspectFault.Read }
    {
        let verdict = self.inspection.end(Ways::Both, out)?;
        if is_open(self.state) {
            return Err(InspectFault::Cut(self.number));
        }
        Ok(verdict)
    }
}

/// Tells a record, of which these bytes were read, and answers what went wrong in its session.
pub(crate) fn tell_record<I: Input, O: Output>(
    alloc: Global,
    prefix: &[u8],
    input: &mut I,
    out: &mut O,
) -> Result<Verdict, InspectFault>
    // All that the lines say is told in their order, and nothing else.
    ensures told { IfOk result (λ verdict. (text : List ℕ)
        → Begins prefix.now text (I.remaining input.old)
        → TellsRecord text (O.contents out.old) verdict (O.contents out.new)) }
    // A line that cannot be read is the first such line.
    ensures line { IfErr result (λ fault. (text : List ℕ)
        → Begins prefix.now text (I.remaining input.old) → IsFirstLine fault text) }
    // Where the last line has no end, all that the lines before it say is told.
    ensures cut { IfErr result (λ fault. (text : List ℕ)
        → Begins prefix.now text (I.remaining input.old)
        → IsCut fault text (O.contents out.old) (O.contents out.new)) }
    // The last of what is told is this verdict.
    ensures last { IfOk result (λ verdict. TellsLast Ways.Both verdict (O.contents out.new)) }
    ensures reads { CountsReads result (I.failures input.old) (I.failures input.new) }
    ensures wrote { CountsWrites result (O.failures out.old) (O.failures out.new) }
{
    let mut recording = Recording::new(alloc);
    recording.take(prefix, out)?;
    recording.read_all(input, out)?;
    recording.end(out)
}
