//! A capture of one TCP connection, as `tcpdump -w` writes it.

ghost use Rattle.std.specs.Prelude.{◌≡◌, ◌≢◌, ◌+◌, ◌≤◌, ℕ, List, [], Option, Some, Ok, Err, false, OnOk, IfOk, IfErr, length, take};
ghost use Rattle.ym_inspect.specs.CaptureFaults.{CountsReads, CountsWrites, IsOfTelling};
ghost use Rattle.ym_inspect.specs.CaptureTold.{Tells, TellsLast, tagged};
ghost use Rattle.ym_inspect.specs.PcapRead.{length_in, none_read, IsOpen, StopsWith, TellsAllOf, TellsOn};

use crate::buffered::Buffered;
use crate::fault::InspectFault;
use crate::inspection::Inspection;
use crate::reading::{PIECE, read_some};
use std::alloc::Global;
use std::marker::Model;
use ym_capture::{CaptureFault, Connection, Form, HEAD, MOST_PACKET, PACKET_HEAD, packet_head};
use ym_explain::{Verdict, Ways};
use ym_streams::{Input, Output};
use ym_told::Direction;

/// Tells bytes that came this way at this moment, if there are any.
fn tell_fresh<O: Output>(
    inspection: &mut Inspection,
    way: Direction,
    at: u64,
    fresh: &[u8],
    out: &mut O,
) -> Result<(), InspectFault>
    ensures tells { OnOk result (Tells inspection.old (O.contents out.old) (tagged way fresh.now)
        inspection.new (O.contents out.new)) }
    ensures failed { CountsWrites result (O.failures out.old) (O.failures out.new) }
    ensures why { IsOfTelling result }
{
    if fresh.is_empty() {
        return Ok(());
    }
    inspection.take(way, at, fresh, out)
}

/// A capture under way.
#[derive(Drop)]
pub(crate) struct Packets {
    inspection: Inspection,
    buffered: Buffered,
    form: Form,
    connection: Connection,
    position: u64,
    began: Option<u64>,
}

impl Model for Packets {
    ghost use Rattle.ym_inspect.specs.PcapRead.{reached, Underway};

    ghost Value = { Underway };

    ghost view = { λ p. record {
      at = reached p.form p.connection p.position;
      buffered = p.buffered;
      parts = p.inspection;
    } };
}

impl Packets {
    /// One that is written so, of which no packet was read. If it is turned, its ways are the other
    /// way round.
    pub(crate) fn new(alloc: Global, form: Form, turned: bool) -> Packets
        ensures { result ≡ none_read form turned }
    {
        Packets {
            inspection: Inspection::new(alloc),
            buffered: Buffered::new(alloc),
            form,
            connection: Connection::new(form.link, turned),
            position: HEAD as u64,
            began: None,
        }
    }

    /// This fault of the packet under way.
    fn fault(&self, why: CaptureFault) -> InspectFault
        ensures { result ≡ InspectFault.Packet self.now.at.position why }
    {
        InspectFault::Packet {
            position: self.position,
            why,
        }
    }

    /// The moment of a packet, from that of the first one on.
    fn moment(&mut self, at: u64) -> u64
        ensures { self.new ≡ self.old }
    {
        let began = self.began.unwrap_or(at);
        self.began = Some(began);
        at.saturating_sub(began)
    }

    /// Tells what a packet of so many bytes brings, and lets go of it.
    fn tell_packet<O: Output>(
        &mut self,
        at: u64,
        count: usize,
        out: &mut O,
    ) -> Result<(), InspectFault>
        requires there { PACKET_HEAD + count ≤ length self.old.buffered }
        requires stated { count ≡ length_in self.old.at.form (take PACKET_HEAD self.old.buffered) }
        ensures read { OnOk result
            (TellsOn [] self.old (O.contents out.old) self.new (O.contents out.new)) }
        ensures position { IfErr result (λ fault.
            (more : List ℕ) → StopsWith more self.old (O.contents out.old) fault) }
        ensures failed { CountsWrites result (O.failures out.old) (O.failures out.new) }
        ensures why { result ≢ Err InspectFault.Read }
    {
        let at = self.moment(at);
        let packet = &self.buffered.as_slice()[PACKET_HEAD..][..count];
        let behind = match self.connection.behind(packet) {
            Ok(behind) => behind,
            Err(why) => return Err(self.fault(why)),
        };
        let fresh = self.connection.fresh(packet);
        tell_fresh(&mut self.inspection, behind.way(packet), at, fresh, out)?;
        self.connection = behind;
        self.position = self.position.saturating_add((PACKET_HEAD + count) as u64);
        self.buffered.let_go(PACKET_HEAD + count);
        Ok(())
    }

    /// Tells the packet at the front of what is held, and lets go of it. Where it is not whole, the
    /// answer is no.
    fn tell_one<O: Output>(&mut self, out: &mut O) -> Result<bool, InspectFault>
        ensures read { OnOk result
            (TellsOn [] self.old (O.contents out.old) self.new (O.contents out.new)) }
        ensures position { IfErr result (λ fault.
            (more : List ℕ) → StopsWith more self.old (O.contents out.old) fault) }
        ensures unfinished { result ≡ Ok false → IsOpen self.new }
        ensures failed { CountsWrites result (O.failures out.old) (O.failures out.new) }
        ensures why { result ≢ Err InspectFault.Read }
    {
        let buffered = self.buffered.as_slice();
        if buffered.len() < PACKET_HEAD {
            return Ok(false);
        }
        let head = packet_head(self.form, &buffered[..PACKET_HEAD]);
        if head.length > MOST_PACKET {
            return Err(self.fault(CaptureFault::Long));
        }
        let count = head.length as usize;
        if buffered.len() - PACKET_HEAD < count {
            return Ok(false);
        }
        self.tell_packet(head.at, count, out)?;
        Ok(true)
    }

    /// Tells the whole packets that are held.
    fn tell_whole<O: Output>(&mut self, out: &mut O) -> Result<(), InspectFault>
        ensures read { OnOk result
            (TellsOn [] self.old (O.contents out.old) self.new (O.contents out.new)) }
        ensures position { IfErr result (λ fault.
            (more : List ℕ) → StopsWith more self.old (O.contents out.old) fault) }
        ensures unfinished { OnOk result (IsOpen self.new) }
        ensures failed { CountsWrites result (O.failures out.old) (O.failures out.new) }
        ensures why { result ≢ Err InspectFault.Read }
    {
        for _ in 0..u64::MAX {
            if !self.tell_one(out)? {
                return Ok(());
            }
        }
        Err(InspectFault::Endless)
    }

    /// Reads all packets, and tells what is sure of them.
    fn read_all<I: Input, O: Output>(
        &mut self,
        input: &mut I,
        out: &mut O,
    ) -> Result<(), InspectFault>
        ensures read { OnOk result ((rest : List ℕ) → I.remaining input.old ≡ Some rest
            → TellsOn rest self.old (O.contents out.old) self.new (O.contents out.new)) }
        ensures position { IfErr result (λ fault. (rest : List ℕ)
            → I.remaining input.old ≡ Some rest
            → StopsWith rest self.old (O.contents out.old) fault) }
        ensures unfinished { OnOk result (IsOpen self.new) }
        ensures reads { CountsReads result (I.failures input.old) (I.failures input.new) }
        ensures wrote { CountsWrites result (O.failures out.old) (O.failures out.new) }
    {
        let mut buffer = [0u8; PIECE];
        for _ in 0..u64::MAX {
            self.tell_whole(out)?;
            let count = read_some(input, &mut buffer)?;
            if count == 0 {
                return Ok(());
            }
            self.buffered.add(&buffer[..count])?;
        }
        Err(InspectFault::Endless)
    }

    /// Tells the end, where no packet is under way.
    fn end<O: Output>(&mut self, out: &mut O) -> Result<Verdict, InspectFault>
        requires { IsOpen self.old }
        ensures told { IfOk result (λ verdict.
            TellsAllOf [] self.old (O.contents out.old) verdict (O.contents out.new)) }
        ensures position { IfErr result (StopsWith [] self.old (O.contents out.old)) }
        ensures last { IfOk result (λ verdict. TellsLast Ways.Both verdict (O.contents out.new)) }
        ensures failed { CountsWrites result (O.failures out.old) (O.failures out.new) }
        ensures why { result ≢ Err InspectFault.Read }
    {
        if !self.buffered.as_slice().is_empty() {
            return Err(self.fault(CaptureFault::Cut));
        }
        self.inspection.end(Ways::Both, out)
    }

    /// Reads all packets, and tells all of them.
    pub(crate) fn explain<I: Input, O: Output>(
        &mut self,
        input: &mut I,
        out: &mut O,
    ) -> Result<Verdict, InspectFault>
        ensures told { IfOk result (λ verdict. (rest : List ℕ)
            → I.remaining input.old ≡ Some rest
            → TellsAllOf rest self.old (O.contents out.old) verdict (O.contents out.new)) }
        ensures position { IfErr result (λ fault. (rest : List ℕ)
            → I.remaining input.old ≡ Some rest
            → StopsWith rest self.old (O.contents out.old) fault) }
        ensures last { IfOk result (λ verdict. TellsLast Ways.Both verdict (O.contents out.new)) }
        ensures reads { CountsReads result (I.failures input.old) (I.failures input.new) }
        ensures wrote { CountsWrites result (O.failures out.old) (O.failures out.new) }
    {
        self.read_all(input, out)?;
        self.end(out)
    }
}
