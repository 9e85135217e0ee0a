//! A file of either kind: a record of both ways, or a capture of packets. Its first bytes tell.

ghost use Rattle.std.specs.Prelude.{◌≡◌, ◌≢◌, ◌≤◌, ℕ, Bool, List, Option, Some, Ok, Err, IfOk, IfErr, length};
ghost use Rattle.ym_capture.specs.CaptureHead.{form_of as form_by};
ghost use Rattle.ym_inspect.specs.CaptureFaults.{CountsReads, CountsWrites, IsOfReading};
ghost use Rattle.ym_inspect.specs.CaptureTold.{TellsLast};
ghost use Rattle.ym_inspect.specs.FirstBytes.{Begins};
ghost use Rattle.ym_inspect.specs.PcapRead.{FaultOfCapture, SaysPosition, TellsCapture};
ghost use Rattle.ym_inspect.specs.RecordRead.{IsCut};

use crate::fault::InspectFault;
use crate::pcap::Packets;
use crate::reading::read_some;
use crate::record::tell_record;
use std::alloc::Global;
use ym_capture::{ByteOrder, CaptureFault, CaptureKind, Form, HEAD, Part, form_of, kind_of};
use ym_explain::{Verdict, Ways};
use ym_streams::{Input, Output};

/// The first bytes of a file: as many as stand before the first packet of a capture, or all where
/// it has fewer.
fn first_bytes<I: Input>(alloc: Global, input: &mut I) -> Result<Vec<u8>, InspectFault>
    ensures begins { IfOk result (λ prefix. (text : List ℕ) → I.remaining input.old ≡ Some text
        → Begins prefix.items text (I.remaining input.new)) }
    ensures reads { CountsReads result (I.failures input.old) (I.failures input.new) }
    ensures why { IsOfReading result }
{
    let mut prefix = Vec::new(alloc);
    let mut one = [0u8; 1];
    while prefix.len() < HEAD {
        let count = read_some(input, &mut one)?;
        if count == 0 {
            return Ok(prefix);
        }
        prefix.extend_from_slice(&one[..count])?;
    }
    Ok(prefix)
}

/// How a capture that begins so is written.
fn form_at(order: ByteOrder, part: Part, prefix: &[u8]) -> Result<Form, InspectFault>
    ensures there { IfOk result (λ _. HEAD ≤ length prefix.now) }
    ensures form { IfOk result (λ form. form_by order part prefix.now ≡ Ok form) }
    ensures position { IfErr result (λ fault.
        (turned : Bool) (text : List ℕ) (left : Option (List ℕ)) → Begins prefix.now text left
        → SaysPosition turned order part fault text) }
    ensures uncut { (number : ℕ) → result ≢ Err (InspectFault.Cut number) }
    ensures read { result ≢ Err InspectFault.Read }
    ensures write { result ≢ Err InspectFault.Write }
{
    if prefix.len() < HEAD {
        return Err(InspectFault::Packet {
            position: 0,
            why: CaptureFault::Cut,
        });
    }
    match form_of(order, part, prefix) {
        Ok(form) => Ok(form),
        Err(why) => Err(InspectFault::Packet { position: 0, why }),
    }
}

/// Tells a record, or a capture of packets, and answers what went wrong in its session. If it is
/// turned, the ways of a capture are the other way round.
///
/// # Errors
///
/// Where it cannot be read on from a line or from a packet, behind all that stands before that;
/// where the last line of a record has no end, behind all that the lines before it say, as if they
/// were the record; or where a read or a write failed, or memory ran out.
pub fn explain_capture<I: Input, O: Output>(
    alloc: Global,
    input: &mut I,
    turned: bool,
    out: &mut O,
) -> Result<Verdict, InspectFault>
    // All that it says is told in its order, and nothing else.
    ensures told { IfOk result (λ verdict. (text : List ℕ) → I.remaining input.old ≡ Some text
        → TellsCapture turned text (O.contents out.old) verdict (O.contents out.new)) }
    // A line that cannot be read is the first such line, and a packet the first such packet.
    ensures fault { IfErr result (λ fault. (text : List ℕ) → I.remaining input.old ≡ Some text
        → FaultOfCapture turned fault text) }
    // Where the last line of a record has no end, all that the lines before it say is told.
    ensures cut { IfErr result (λ fault. (text : List ℕ) → I.remaining input.old ≡ Some text
        → IsCut fault text (O.contents out.old) (O.contents out.new)) }
    // The last of what is told is this verdict.
    ensures last { IfOk result (λ verdict. TellsLast Ways.Both verdict (O.contents out.new)) }
    ensures reads { CountsReads result (I.failures input.old) (I.failures input.new) }
    ensures wrote { CountsWrites result (O.failures out.old) (O.failures out.new) }
{
    let prefix = first_bytes(alloc, input)?;
    let prefix = prefix.as_slice();
    match kind_of(prefix) {
        CaptureKind::Other => tell_record(alloc, prefix, input, out),
        CaptureKind::Pcapng => Err(InspectFault::Pcapng),
        CaptureKind::Pcap(order, part) => {
            let form = form_at(order, part, prefix)?;
            let mut packets = Packets::new(alloc, form, turned);
            packets.explain(input, out)
        }
    }
}
