//! A sender over a port.

ghost use Rattle.std.specs.Prelude.{◌≡◌, ◌≢◌, ◌≤◌, ◌+◌, ℕ, List, Ok, Err, None, is_ok, true, length};
ghost use Rattle.ym_file.specs.Counts.{Counted};
ghost use Rattle.ym_link.specs.Port.{Tape, after_write};
ghost use Rattle.ym_link.specs.History.{Asks, SenderHistory};
ghost use Rattle.ym_link.specs.SendOver.{Sends, written_for};
ghost use Rattle.ym_link.specs.Sender.{IsSender, spoken};
ghost use Rattle.ym_core.specs.declared.state.SendState.TheVariants as state;
ghost use Rattle.ym_link.specs.declared.port.Wait.{Wait as Asked};

use crate::delivery::take_delivery;
use crate::end_fault::EndFault;
use crate::port::{DELIVERY_LIMIT, Port, PortFault};
use crate::sender::SenderFrom;
use ym_core::SendState;
use ym_file::Source;

/// Writes what is to be sent now, if there is anything.
#[inline(always)]
fn write_frame<P: Port, S: Source>(port: &mut P, sender: &SenderFrom<S>) -> Result<(), EndFault>
    ensures told { (u : Tape) → P.tells port.new u →
        (t : Tape) × P.tells port.old t ×
        (u ≡ after_write (is_ok result) t (written_for (spoken sender.now))) }
    ensures asked { (w : List Asked) → P.asked port.new w → P.asked port.old w }
    ensures device { (e : EndFault) →
        result ≡ Err e →
        (e ≡ EndFault.Device) × (spoken sender.now ≢ None) ×
        Counted (P.failures port.old) (P.failures port.new) }
    ensures calm { is_ok result ≡ true → P.failures port.new ≡ P.failures port.old }
    ensures sender { IsSender sender.now }
{
    match sender.frame() {
        Some(bytes) => match port.write(bytes) {
            Ok(()) => Ok(()),
            Err(PortFault) => Err(EndFault::Device),
        },
        None => Ok(()),
    }
}

/// Runs a sender over a port until it has ended: its frame is written, if it has one, and a
/// delivery is read and heard. A sender that gives up, or whose source fails, writes CAN CAN once.
/// A sender that has already ended is left as it is, and nothing is written. After `Device` at a
/// write the sender has already heard the delivery before it.
pub fn send_over<P: Port, S: Source>(
    port: &mut P,
    sender: &mut SenderFrom<S>,
) -> Result<(), EndFault>
    ensures told { sender.old.standing.state ≡ state.Running → (u : Tape) → P.tells port.new u →
        (t : Tape) × P.tells port.old t ×
        Sends sender.old t (record { sender = sender.new; tape = u; answer = result }) }
    ensures history { (deliveries : List (List ℕ)) × SenderHistory sender.old deliveries sender.new
        × ((w : List Asked) → P.asked port.new w
        → (v : List Asked) × P.asked port.old v × (begun : ℕ) × (begun ≤ length deliveries + 1)
        × Asks begun v w) }
    ensures device { result ≡ Err EndFault.Device →
        Counted (P.failures port.old) (P.failures port.new) }
    ensures memory { result ≢ Err EndFault.Memory }
    ensures ended { is_ok result ≡ true → sender.new.standing.state ≢ state.Running }
    ensures left { sender.old.standing.state ≢ state.Running →
        (result ≡ Ok tt) × (sender.new ≡ sender.old) × (port.new ≡ port.old) }
{
    if sender.state() != SendState::Running {
        return Ok(());
    }
    let mut buf = [0; DELIVERY_LIMIT];
    while sender.state() == SendState::Running {
        write_frame(port, sender)?;
        let (len, found) = take_delivery(port, sender, &mut buf)?;
        sender.hear_found(found, &buf[..len]);
    }
    write_frame(port, sender)
}
