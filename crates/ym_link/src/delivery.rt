//! A delivery, as it is read from a port for the end that hears it.

ghost use Rattle.std.specs.Prelude.{◌≡◌, ◌≢◌, ◌≤◌, ◌⊎◌, ℕ, List, [], Ok, Err, IfOk, MatchOption, false, take};
ghost use Rattle.ym_file.specs.Counts.{Counted};
ghost use Rattle.ym_link.specs.History.{ReadOnce};
ghost use Rattle.ym_link.specs.Delivery.{taken, bytes_read};
ghost use Rattle.ym_link.specs.Port.{Tape};
ghost use Rattle.ym_link.specs.declared.port.Wait.{Wait as Asked};
ghost use Rattle.ym_link.specs.declared.port.TheConstants.{DELIVERY_LIMIT};

use crate::end_fault::EndFault;
use crate::port::{DELIVERY_LIMIT, Got, Port, PortFault, Wait};

/// One for whom deliveries are read: it says when it has enough, and what it has found then, so
/// that its end need not read the bytes once more.
pub(crate) trait Listener {
    ghost use Rattle.std.specs.Prelude.{List, ℕ, Bool, true, false, ◌≡◌, MatchOption};

    /// What it finds in a delivery that it ends.
    type Found: Copy;

    /// When deliveries may be read for it.
    ghost listens: { Self → Type 0 };

    /// The test by which it ends a delivery.
    ghost ends: { Self → List ℕ → Bool };

    /// What is so of what it finds.
    ghost finds: { Self → List ℕ → Self.Found → Type 0 };

    /// What it finds, where these bytes end the delivery.
    fn found_in(&self, bytes: &[u8]) -> Option<Self::Found>
        requires { listens self.now }
        ensures { MatchOption result (ends self.now bytes.now ≡ false) (λ found.
            (ends self.now bytes.now ≡ true) × finds self.now bytes.now found) };
}

/// Reads one delivery to the front of the buffer, and answers its length, and what its listener
/// found where it ended it. A delivery ends when its listener has enough, when the line is quiet,
/// or at its greatest length. What is left of the last read is dropped.
#[inline(always)]
pub(crate) fn take_delivery<P: Port, L: Listener>(
    port: &mut P,
    listener: &L,
    buf: &mut [u8; DELIVERY_LIMIT],
) -> Result<(usize, Option<L::Found>), EndFault>
    requires { L.listens listener.now }
    ensures within { IfOk result (λ d. d.0 ≤ DELIVERY_LIMIT) }
    ensures told { (u : Tape) → P.tells port.new u → (t : Tape) × P.tells port.old t
        × (bytes_read result buf.new ≡ (taken (L.ends listener.now) [] t.coming).delivery)
        × (u ≡ record t { coming = (taken (L.ends listener.now) [] t.coming).rest }) }
    ensures found { IfOk result (λ d.
        MatchOption d.1 ((d.0 ≡ 0) ⊎ (L.ends listener.now (take d.0 buf.new) ≡ false))
        (λ f. L.finds listener.now (take d.0 buf.new) f)) }
    ensures asked { (w : List Asked) →
        P.asked port.new w → (v : List Asked) × P.asked port.old v × ReadOnce v w }
    ensures device { result ≡ Err EndFault.Device →
        Counted (P.failures port.old) (P.failures port.new) }
    ensures memory { result ≢ Err EndFault.Memory }
    ensures calm { result ≢ Err EndFault.Device → P.failures port.new ≡ P.failures port.old }
{
    let mut len = 0;
    let mut wait = Wait::Reply;
    while len < DELIVERY_LIMIT {
        match port.read(wait, &mut buf[len..]) {
            Ok(Got::Bytes(n)) => len += n,
            Ok(Got::Quiet) => return Ok((len, None)),
            Ok(Got::Closed) => return Err(EndFault::Closed),
            Err(PortFault) => return Err(EndFault::Device),
        }
        if let Some(found) = listener.found_in(&buf[..len]) {
            return Ok((len, Some(found)));
        }
        wait = Wait::Within;
    }
    Ok((len, None))
}
