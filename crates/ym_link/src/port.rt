//! What an engine asks of a port, and what a port answers.

ghost use Rattle.std.specs.Prelude.{◌≡◌, ◌<◌, ◌≤◌, ℕ, List, [], ◌∷◌, ◌++◌, Ok, OnOk, OnErr, length, is_ok};
ghost use Rattle.ym_link.specs.Port.{Tape, seen_of, read_gives, read_leaves, after_write};
ghost use Rattle.ym_file.specs.Counts.{Counted};
ghost use Rattle.ym_link.specs.declared.port.Wait.{Wait as Asked};

/// How many bytes a delivery has at most.
pub const DELIVERY_LIMIT: usize = 2048;

/// How long a read waits.
#[derive(Clone, Copy, Debug, PartialEq, Eq)]
pub enum Wait {
    /// For more of a delivery that has begun: a short time.
    Within,
    /// For the first bytes of a delivery: a longer time.
    Reply,
}

/// What a read got.
#[derive(Clone, Copy, Debug, PartialEq, Eq)]
pub enum Got {
    /// So many bytes, at least one, at the front of the buffer.
    Bytes(usize),
    /// Nothing, within the time that it waited.
    Quiet,
    /// Nothing, and nothing will come any more.
    Closed,
}

/// A call of a port failed.
#[derive(Clone, Copy, Debug, PartialEq, Eq)]
pub struct PortFault;

/// A line as one end has it: bytes are read from it and written to it.
pub trait Port {
    /// The tapes that it may turn out to have: what is still to come, and what was written so far.
    /// A port that knows both has exactly one; one that passes on what another port brings may have
    /// several, as long as it is open what will be written; and of a device nobody knows any.
    ghost tells: { Self → Tape → Type 0 };

    /// The waits that its reads were given so far, in order. A port that keeps them has exactly one
    /// such list, and any other one none.
    ghost asked: { Self → List Asked → Type 0 };

    /// How often a call failed. At its greatest value the count stays.
    ghost failures: { Self → ℕ };

    /// Reads what is there into the front of `buf`, or waits.
    fn read(&mut self, wait: Wait, buf: &mut [u8]) -> Result<Got, PortFault>
        requires { 0 < length buf.old }
        ensures count { (n : ℕ) → result ≡ Ok (Got.Bytes n) → (0 < n) × (n ≤ length buf.old) }
        ensures told { (u : Tape) → tells self.new u → (t : Tape) × tells self.old t
            × (seen_of result buf.new ≡ read_gives (length buf.old) t.coming)
            × (u ≡ record t { coming = read_leaves (length buf.old) t.coming }) }
        ensures asked { (w : List Asked) →
            asked self.new w → (v : List Asked) × asked self.old v × (w ≡ v ++ wait ∷ []) }
        ensures ok { OnOk result (failures self.new ≡ failures self.old) }
        ensures failed { OnErr result (Counted (failures self.old) (failures self.new)) };

    /// Writes all the bytes, or fails, and then none of them counts as written.
    fn write(&mut self, bytes: &[u8]) -> Result<(), PortFault>
        ensures told { (u : Tape) →
            tells self.new u →
            (t : Tape) × tells self.old t × (u ≡ after_write (is_ok result) t bytes.now) }
        ensures asked { (w : List Asked) → asked self.new w → asked self.old w }
        ensures ok { OnOk result (failures self.new ≡ failures self.old) }
        ensures failed { OnErr result (Counted (failures self.old) (failures self.new)) };
}
