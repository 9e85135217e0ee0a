//! What the port asks of a line with a clock, and what that answers.

ghost use Rattle.std.specs.Prelude.{◌≡◌, ◌<◌, ◌≤◌, ℕ, Ok, OnOk, OnErr, length, is_ok};
ghost use Rattle.ym_file.specs.Counts.{Counted};
ghost use Rattle.ym_link.specs.Port.{seen_of, read_gives};
ghost use Rattle.ym_port.specs.Wire.{Tape, moment_of, after_moment, after_read, after_write};

use ym_link::{Got, PortFault};

/// A line with a clock, as a host has it.
pub trait Wire {
    /// The tapes that it may turn out to have: what it is still to tell, and what was done with it
    /// so far. One that knows both has exactly one; of a device nobody knows any.
    ghost tells: { Self → Tape → Type 0 };

    /// How often a call failed. At its greatest value the count stays.
    ghost failures: { Self → ℕ };

    /// The moment, in milliseconds of any clock. One that stands still or jumps back only delays.
    fn moment(&mut self) -> u64
        ensures told { (u : Tape) → tells self.new u → (t : Tape) × tells self.old t
            × (result ≡ moment_of t) × (u ≡ after_moment t) }
        ensures calm { failures self.new ≡ failures self.old };

    /// Reads what is there into the front of `buf`, or waits for it: so many milliseconds, and as
    /// little more as the host can.
    fn read(&mut self, millis: u64, buf: &mut [u8]) -> Result<Got, PortFault>
        requires { 0 < length buf.old }
        ensures count { (n : ℕ) → result ≡ Ok (Got.Bytes n) → (0 < n) × (n ≤ length buf.old) }
        ensures told { (u : Tape) → tells self.new u → (t : Tape) × tells self.old t
            × (seen_of result buf.new ≡ read_gives (length buf.old) t.coming)
            × (u ≡ after_read millis (length buf.old) t) }
        ensures ok { OnOk result (failures self.new ≡ failures self.old) }
        ensures failed { OnErr result (Counted (failures self.old) (failures self.new)) };

    /// Writes all the bytes, or fails, and then none of them counts as written.
    fn write(&mut self, bytes: &[u8]) -> Result<(), PortFault>
        ensures told { (u : Tape) → tells self.new u → (t : Tape) × tells self.old t
            × (u ≡ after_write (is_ok result) t bytes.now) }
        ensures ok { OnOk result (failures self.new ≡ failures self.old) }
        ensures failed { OnErr result (Counted (failures self.old) (failures self.new)) };
}
