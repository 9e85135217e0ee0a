//! A port whose first wait is short.

ghost use Rattle.std.specs.Prelude.{◌≡◌, ◌<◌, ◌≤◌, ◌++◌, ◌∷◌, [], ℕ, List, true, false, Ok};
ghost use Rattle.std.specs.Prelude.{OnOk, OnErr, length, is_ok};
ghost use Rattle.ym_file.specs.Counts.{Counted};
ghost use Rattle.ym_link.specs.Port.{Tape, seen_of, read_gives, read_leaves, after_write};
ghost use Rattle.ym_link.specs.declared.port.Wait.{Wait as Asked};
ghost use Rattle.ym_eager.specs.Eager.{ahead};

use ym_link::{Got, Port, PortFault, Wait};
use ym_port::{Learned, Waits};

/// A port whose first read finds the line quiet at once, where that is wanted, so that a receiver
/// asks for the first file without a wait. All that comes behind that is what the port below
/// brings. It tells the waits that its reads were given.
#[derive(Drop)]
pub struct Eager<P: Port + Drop> {
    /// The port below.
    pub port: P,
    /// Whether the next read finds the line quiet at once.
    pub is_first: bool,
    waits: Waits,
}

impl<P: Port + Drop> Eager<P> {
    /// The port, of which the first read finds the line quiet where `is_eager` says so.
    pub fn new(port: P, is_eager: bool) -> Eager<P>
        ensures port { result.port ≡ port }
        ensures first { result.is_first ≡ is_eager }
        ensures waits { result.waits.asked ≡ [] }
    {
        Eager {
            port,
            is_first: is_eager,
            waits: Waits::new(),
        }
    }
}

impl<P: Port + Drop> Port for Eager<P> {
    ghost use Rattle.ym_eager.specs.Eager.{ahead};

    ghost tells = { λ e u. (t : Tape) × P.tells e.port t × (u ≡ ahead e.is_first t) };

    ghost asked = { λ e w. w ≡ e.waits.asked };

    ghost failures = { λ e. P.failures e.port };

    fn read(&mut self, wait: Wait, buf: &mut [u8]) -> Result<Got, PortFault>
        requires { 0 < length buf.old }
        ensures count { (n : ℕ) → result ≡ Ok (Got.Bytes n) → (0 < n) × (n ≤ length buf.old) }
        ensures told { (u : Tape) → ((t : Tape) × P.tells self.new.port t
            × (u ≡ ahead self.new.is_first t))
            → (x : Tape) × ((t : Tape) × P.tells self.old.port t × (x ≡ ahead self.old.is_first t))
            × (seen_of result buf.new ≡ read_gives (length buf.old) x.coming)
            × (u ≡ record x { coming = read_leaves (length buf.old) x.coming }) }
        ensures at_once { self.old.is_first ≡ true →
            (result ≡ Ok Got.Quiet) × (self.new.port ≡ self.old.port)
            × (self.new.is_first ≡ false) }
        ensures waits { self.new.waits.asked ≡ self.old.waits.asked ++ wait ∷ [] }
        ensures below { self.old.is_first ≡ false → (w : List Asked) → P.asked self.new.port w →
            (v : List Asked) × P.asked self.old.port v × (w ≡ v ++ wait ∷ []) }
        ensures ok { OnOk result (P.failures self.new.port ≡ P.failures self.old.port) }
        ensures failed { OnErr result (Counted
            (P.failures self.old.port) (P.failures self.new.port)) }
    {
        self.waits = self.waits.then(&wait);
        if self.is_first {
            self.is_first = false;
            return Ok(Got::Quiet);
        }
        self.port.read(wait, buf)
    }

    fn write(&mut self, bytes: &[u8]) -> Result<(), PortFault> {
        self.port.write(bytes)
    }
}

impl<P: Learned + Drop> Learned for Eager<P> {
    ghost echoes = { λ e. P.echoes e.port };

    ghost slowest_answer = { λ e. P.slowest_answer e.port };

    fn has_echo(&self) -> bool {
        self.port.has_echo()
    }

    fn slowest(&self) -> Option<u64> {
        self.port.slowest()
    }
}
