//! A port that keeps a receiver in step with its sender.

ghost use Rattle.std.specs.Prelude.{◌≡◌, ◌≢◌, ◌<◌, ◌≤◌, ◌++◌, ◌∷◌, [], ℕ, Ok, Err, IfOk, OnOk};
ghost use Rattle.std.specs.Prelude.{OnErr, length, is_ok};
ghost use Rattle.ym_file.specs.Counts.{Counted};
ghost use Rattle.ym_link.specs.Delivery.{taken};
ghost use Rattle.ym_link.specs.Port.{Tape, seen_of, read_gives, read_leaves, after_write};
ghost use Rattle.ym_link.specs.ReceiveOver.{has_item};
ghost use Rattle.ym_link.specs.declared.port.TheConstants.{DELIVERY_LIMIT};
ghost use Rattle.ym_port.specs.InStep as table;
ghost use Rattle.ym_port.specs.Turn.{new_turn, replied};

use crate::learned::Learned;
use crate::turn::Turn;
use crate::waits::Waits;
use ym_frame::has_frame;
use ym_link::{DELIVERY_LIMIT, EndFault, Got, Port, PortFault, Wait};

/// Reads a whole delivery to the front of the buffer, and answers its length: it ends with the
/// first frame, when the line is quiet, or at its greatest length. What is left of the last read is
/// dropped.
fn gather<P: Port>(port: &mut P, buf: &mut [u8]) -> Result<usize, EndFault>
    requires { length buf.old ≡ DELIVERY_LIMIT }
    ensures within { IfOk result (λ n. n ≤ DELIVERY_LIMIT) }
    ensures told { (u : Tape) → P.tells port.new u → (t : Tape) × P.tells port.old t
        × (table.gathered result buf.new ≡ (taken has_item [] t.coming).delivery)
        × (u ≡ record t { coming = (taken has_item [] t.coming).rest }) }
    ensures device { result ≡ Err EndFault.Device
        → Counted (P.failures port.old) (P.failures port.new) }
    ensures memory { result ≢ Err EndFault.Memory }
    ensures calm { result ≢ Err EndFault.Device → P.failures port.new ≡ P.failures port.old }
{
    let mut len = 0;
    let mut wait = Wait::Reply;
    while len < DELIVERY_LIMIT {
        match port.read(wait, &mut buf[len..]) {
            Ok(Got::Bytes(n)) => len += n,
            Ok(Got::Quiet) => return Ok(len),
            Ok(Got::Closed) => return Err(EndFault::Closed),
            Err(PortFault) => return Err(EndFault::Device),
        }
        if has_frame(&buf[..len]) {
            return Ok(len);
        }
        wait = Wait::Within;
    }
    Ok(len)
}

/// A port of a receiver. Where only a repeat of block 0 can come, another block 0 is handed on as a
/// block out of turn, so that the receiver ends by its own table: it cancels, and stores nothing
/// for it. All else is what the port below brings. It tells the waits that its reads were given.
#[derive(Drop)]
pub struct InStep<P: Port + Drop> {
    /// The port below.
    pub port: P,
    /// Where the receiver is in its batch.
    pub turn: Turn,
    waits: Waits,
}

impl<P: Port + Drop> InStep<P> {
    /// The port of a receiver to which nothing came.
    pub fn new(port: P) -> InStep<P>
        ensures port { result.port ≡ port }
        ensures turn { result.turn ≡ new_turn }
        ensures waits { result.waits.asked ≡ [] }
    {
        InStep {
            port,
            turn: Turn::new(),
            waits: Waits::new(),
        }
    }

    /// Whether a delivery is looked at as a whole.
    fn gathers(&self, wait: Wait, room: usize) -> bool
        ensures { result ≡ table.gathers wait room self.now.turn.next }
    {
        match wait {
            Wait::Within => false,
            Wait::Reply => room == DELIVERY_LIMIT && self.turn.next.awaits_zero(),
        }
    }

    /// Reads a whole delivery, and hands it on.
    fn read_whole(&mut self, buf: &mut [u8]) -> Result<Got, PortFault>
        requires { length buf.old ≡ DELIVERY_LIMIT }
        ensures count { (n : ℕ) → result ≡ Ok (Got.Bytes n) → (0 < n) × (n ≤ length buf.old) }
        ensures exact { (u : Tape) → P.tells self.new.port u → (t : Tape) × P.tells self.old.port t
            × (u.written ≡ t.written)
            × (table.hands_on (taken has_item [] t.coming).delivery self.old.turn
            (taken has_item [] t.coming).rest
            ≡ table.gives (seen_of result buf.new) self.new.turn u.coming) }
        ensures waits { self.new.waits ≡ self.old.waits }
        ensures ok { OnOk result (P.failures self.new.port ≡ P.failures self.old.port) }
        ensures failed { OnErr result (Counted
            (P.failures self.old.port) (P.failures self.new.port)) }
    {
        match gather(&mut self.port, buf) {
            Ok(0) => Ok(Got::Quiet),
            Ok(count) => {
                self.turn.take(&mut buf[..count]);
                Ok(Got::Bytes(count))
            }
            Err(EndFault::Closed) => Ok(Got::Closed),
            Err(_) => Err(PortFault),
        }
    }

    /// Reads what is to be heard, or waits.
    fn read_next(&mut self, wait: Wait, buf: &mut [u8]) -> Result<Got, PortFault>
        requires { 0 < length buf.old }
        ensures count { (n : ℕ) → result ≡ Ok (Got.Bytes n) → (0 < n) × (n ≤ length buf.old) }
        ensures exact { (u : Tape) → P.tells self.new.port u → (t : Tape) × P.tells self.old.port t
            × (u.written ≡ t.written)
            × (table.read_of wait (length buf.old) self.old.turn t.coming
            ≡ table.gives (seen_of result buf.new) self.new.turn u.coming) }
        ensures waits { self.new.waits ≡ self.old.waits }
        ensures ok { OnOk result (P.failures self.new.port ≡ P.failures self.old.port) }
        ensures failed { OnErr result (Counted
            (P.failures self.old.port) (P.failures self.new.port)) }
    {
        if self.turn.is_over {
            self.turn.is_over = false;
            return Ok(Got::Quiet);
        }
        if self.gathers(wait, buf.len()) {
            return self.read_whole(buf);
        }
        self.port.read(wait, buf)
    }
}

impl<P: Port + Drop> Port for InStep<P> {
    ghost use Rattle.ym_port.specs.InStep.{Passes, gives, read_of};

    ghost tells = { λ p u. (t : Tape) × P.tells p.port t × (u.written ≡ t.written)
        × Passes p.turn t.coming u.coming };

    ghost asked = { λ p w. w ≡ p.waits.asked };

    ghost failures = { λ p. P.failures p.port };

    fn read(&mut self, wait: Wait, buf: &mut [u8]) -> Result<Got, PortFault>
        requires { 0 < length buf.old }
        ensures count { (n : ℕ) → result ≡ Ok (Got.Bytes n) → (0 < n) × (n ≤ length buf.old) }
        ensures exact { (u : Tape) → P.tells self.new.port u → (t : Tape) × P.tells self.old.port t
            × (u.written ≡ t.written)
            × (read_of wait (length buf.old) self.old.turn t.coming
            ≡ gives (seen_of result buf.new) self.new.turn u.coming) }
        ensures waits { self.new.waits.asked ≡ self.old.waits.asked ++ wait ∷ [] }
        ensures told { (u : Tape) → ((t : Tape) × P.tells self.new.port t × (u.written ≡ t.written)
            × Passes self.new.turn t.coming u.coming)
            → (x : Tape) × ((t : Tape) × P.tells self.old.port t × (x.written ≡ t.written)
            × Passes self.old.turn t.coming x.coming)
            × (seen_of result buf.new ≡ read_gives (length buf.old) x.coming)
            × (u ≡ record x { coming = read_leaves (length buf.old) x.coming }) }
        ensures ok { OnOk result (P.failures self.new.port ≡ P.failures self.old.port) }
        ensures failed { OnErr result (Counted
            (P.failures self.old.port) (P.failures self.new.port)) }
    {
        self.waits = self.waits.then(&wait);
        self.read_next(wait, buf)
    }

    #[inline(always)]
    fn write(&mut self, bytes: &[u8]) -> Result<(), PortFault>
        ensures turn { self.new.turn ≡ replied bytes.now self.old.turn }
        ensures waits { self.new.waits ≡ self.old.waits }
        ensures exact { (u : Tape) → P.tells self.new.port u → (t : Tape) × P.tells self.old.port t
            × (u ≡ after_write (is_ok result) t bytes.now) }
        ensures told { (u : Tape) → ((t : Tape) × P.tells self.new.port t × (u.written ≡ t.written)
            × Passes self.new.turn t.coming u.coming)
            → (x : Tape) × ((t : Tape) × P.tells self.old.port t × (x.written ≡ t.written)
            × Passes self.old.turn t.coming x.coming)
            × (u ≡ after_write (is_ok result) x bytes.now) }
        ensures ok { OnOk result (P.failures self.new.port ≡ P.failures self.old.port) }
        ensures failed { OnErr result (Counted
            (P.failures self.old.port) (P.failures self.new.port)) }
    {
        self.turn.reply(bytes);
        self.port.write(bytes)
    }
}

impl<P: Learned + Drop> Learned for InStep<P> {
    ghost echoes = { λ p. P.echoes p.port };

    ghost slowest_answer = { λ p. P.slowest_answer p.port };

    fn has_echo(&self) -> bool {
        self.port.has_echo()
    }

    fn slowest(&self) -> Option<u64> {
        self.port.slowest()
    }
}
