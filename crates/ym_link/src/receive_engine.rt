//! A receiver over a port.

ghost use Rattle.std.specs.Prelude.{◌≡◌, ◌≢◌, ◌≤◌, ◌+◌, ◌⊎◌, ℕ, List, Ok, Err, MatchOption, is_ok, true, false, length};
ghost use Rattle.ym_frame.specs.Control.{reply_bytes};
ghost use Rattle.ym_frame.specs.declared.control.Reply.TheVariants.{Silence};
ghost use Rattle.ym_file.specs.Counts.{Counted};
ghost use Rattle.ym_link.specs.Port.{Tape, after_write};
ghost use Rattle.ym_core.specs.HeardRef.{owned_heard};
ghost use Rattle.ym_core.specs.Hearing.{heard_of};
ghost use Rattle.ym_link.specs.History.{Asks, IsLarge, ReceiverHistory};
ghost use Rattle.ym_link.specs.ReceiverInto.{IsReceiver};
ghost use Rattle.ym_link.specs.ReceiveOver.{Receives, has_item, IsFound};
ghost use Rattle.ym_core.specs.declared.state.RecvState.TheVariants as state;
ghost use Rattle.ym_core.specs.declared.delivery.Heard.{Heard as HeardValue};
ghost use Rattle.ym_link.specs.declared.port.Wait.{Wait as Asked};

use crate::delivery::{Listener, take_delivery};
use crate::end_fault::EndFault;
use crate::port::{DELIVERY_LIMIT, Port, PortFault};
use crate::receiver::ReceiverInto;
use ym_core::HeardRef;
use ym_file::Sink;
use ym_frame::{Reply, Whole, whole_at};

/// Reads deliveries for a receiver: each ends with the first frame.
struct Frames;

impl Listener for Frames {
    ghost use Rattle.ym_link.specs.ReceiveOver.{has_item, IsFound};

    type Found = Whole;

    ghost listens = { λ _. Unit {0} };

    ghost ends = { λ _. has_item };

    ghost finds = { λ _. IsFound };

    /// Which frame stands at the front of the bytes.
    #[inline(always)]
    fn found_in(&self, bytes: &[u8]) -> Option<Whole> {
        whole_at(bytes).ok()
    }
}

/// What is heard of a delivery in which this was found. A block has 128 data bytes at least.
#[inline(always)]
fn heard_by(found: Option<Whole>, bytes: &[u8]) -> HeardRef<'_>
    requires { MatchOption found ((length bytes.now ≡ 0) ⊎ (has_item bytes.now ≡ false))
        (IsFound bytes.now) }
    ensures heard { owned_heard result ≡ heard_of bytes.entry.now }
    ensures large { IsLarge (heard_of bytes.entry.now) }
{
    match found {
        Some(whole) => HeardRef::Item(whole.item(bytes)),
        None => HeardRef::Bad,
    }
}

/// Writes a reply, if there is one.
#[inline(always)]
fn write_reply<P: Port>(port: &mut P, reply: Reply) -> Result<(), EndFault>
    ensures told { (u : Tape) →
        P.tells port.new u →
        (t : Tape) × P.tells port.old t × (u ≡ after_write (is_ok result) t (reply_bytes reply)) }
    ensures asked { (w : List Asked) → P.asked port.new w → P.asked port.old w }
    ensures device { (e : EndFault) →
        result ≡ Err e →
        (e ≡ EndFault.Device) × (reply ≢ Silence) ×
        Counted (P.failures port.old) (P.failures port.new) }
    ensures calm { is_ok result ≡ true → P.failures port.new ≡ P.failures port.old }
{
    match reply {
        Reply::Silence => Ok(()),
        _ => match port.write(reply.as_bytes()) {
            Ok(()) => Ok(()),
            Err(PortFault) => Err(EndFault::Device),
        },
    }
}

/// Runs a receiver over a port until it has ended: a delivery is read and heard, and the reply is
/// written, if there is one. A receiver that has already ended is left as it is, and nothing is
/// written. After `Memory` the receiver is as before the last delivery, and nothing was written for
/// it.
pub fn receive_over<P: Port, K: Sink>(
    port: &mut P,
    receiver: &mut ReceiverInto<K>,
) -> Result<(), EndFault>
    ensures told { (u : Tape) → P.tells port.new u →
        (t : Tape) × P.tells port.old t ×
        Receives receiver.old t (record { receiver = receiver.new; tape = u; answer = result }) }
    ensures history { (deliveries : List HeardValue)
        × ReceiverHistory receiver.old deliveries receiver.new
        × ((w : List Asked) → P.asked port.new w
        → (v : List Asked) × P.asked port.old v × (begun : ℕ) × (begun ≤ length deliveries + 1)
        × Asks begun v w) }
    ensures receiver { IsReceiver receiver.new }
    ensures device { result ≡ Err EndFault.Device →
        Counted (P.failures port.old) (P.failures port.new) }
    ensures ended { is_ok result ≡ true → receiver.new.receiver.state ≢ state.Running }
    ensures left { receiver.old.receiver.state ≢ state.Running →
        (result ≡ Ok tt) × (receiver.new ≡ receiver.old) × (port.new ≡ port.old) }
{
    let mut buf = [0; DELIVERY_LIMIT];
    while receiver.is_running() {
        let (len, found) = take_delivery(port, &Frames, &mut buf)?;
        match receiver.hear_in(heard_by(found, &buf[..len])) {
            Ok(reply) => write_reply(port, reply)?,
            Err(_) => return Err(EndFault::Memory),
        }
    }
    Ok(())
}
