//! A port over a line with a clock, by the rule of `ym_timing`.

ghost use Rattle.std.specs.Prelude.{◌≡◌, ◌<◌, ◌≤◌, ◌++◌, ◌∷◌, [], ℕ, Ok, OnOk, OnErr, length, is_ok};
ghost use Rattle.ym_file.specs.Counts.{Counted};
ghost use Rattle.ym_link.specs.Port.{Tape as PortTape, Data, after_write};
ghost use Rattle.ym_link.specs.Port.{seen_of, read_gives, read_leaves};
ghost use Rattle.ym_port.specs.declared.line.TheConstants.{MOST_READS};
ghost use Rattle.ym_port.specs.TimedPort as table;
ghost use Rattle.ym_port.specs.Wire.{Tape};

use crate::clears::let_clear;
use crate::learned::Learned;
use crate::line::{Line, put_cancel};
use crate::reads::read_on;
use crate::waits::Waits;
use crate::wire::Wire;
use ym_link::{Got, Port, PortFault, Wait};
use ym_timing as timing;
use ym_timing::{Role, Trust};

/// A port over a line with a clock. It keeps the rule of `ym_timing`: how long reads wait, what of
/// that which comes is heard, and when the line clears before a write. It tells the waits that its
/// reads were given.
#[derive(Drop)]
pub struct TimedPort<W: Wire + Drop> {
    wire: W,
    line: Line,
    waits: Waits,
}

impl<W: Wire + Drop> TimedPort<W> {
    /// The line as this end has it.
    pub fn new(wire: W, role: Role) -> TimedPort<W>
        ensures wire { result.wire ≡ wire }
        ensures line { result.line ≡ table.new_line role }
        ensures waits { result.waits.asked ≡ [] }
    {
        TimedPort {
            wire,
            line: Line::new(role),
            waits: Waits::new(),
        }
    }

    /// The line below.
    pub fn wire(&self) -> &W
        ensures { result.now ≡ self.now.wire }
    {
        &self.wire
    }

    /// A sender's byte may make two, and CAN CAN is two: with room for one alone, the line counts
    /// as quiet.
    fn has_no_room(&self, length: usize) -> bool
        ensures { result ≡ table.has_no_room length self.now.line }
    {
        if 2 <= length {
            return false;
        }
        match self.line.timing.role {
            Role::Sender => true,
            Role::Receiver => self.line.timing.has_cancel,
        }
    }

    /// Hears CAN CAN, which came while the line cleared.
    #[cold]
    fn cancelled(&mut self, buf: &mut [u8]) -> Got
        requires { 2 ≤ length buf.old }
        ensures same { self.new ≡ record self.old { line = table.cancelled self.old.line } }
        ensures heard { seen_of (Ok result) buf.new ≡ Data table.cancel }
        ensures two { result ≡ Got.Bytes 2 }
    {
        let _ = self.line.timing.hears_cancel();
        put_cancel(buf);
        Got::Bytes(2)
    }

    /// Waits for bytes, and hears them.
    #[inline(always)]
    fn await_bytes(&mut self, wait: Wait, buf: &mut [u8]) -> Result<Got, PortFault>
        requires { 0 < table.room_for self.old.line.timing.role (length buf.old) }
        ensures count { (n : ℕ) → result ≡ Ok (Got.Bytes n) → (0 < n) × (n ≤ length buf.old) }
        ensures exact { (u : Tape) → W.tells self.new.wire u → (t : Tape) × W.tells self.old.wire t
            × (table.waits wait (table.room_for self.old.line.timing.role (length buf.old))
            self.old.line t
            ≡ table.gives (seen_of result buf.new) self.new.line u) }
        ensures waits { self.new.waits ≡ self.old.waits }
        ensures ok { OnOk result (W.failures self.new.wire ≡ W.failures self.old.wire) }
        ensures failed { OnErr result (Counted
            (W.failures self.old.wire) (W.failures self.new.wire)) }
    {
        match wait {
            Wait::Within => {
                let start = self.line.clock.at;
                read_on(
                    &mut self.wire,
                    &mut self.line,
                    timing::Expected::Within,
                    start,
                    buf,
                )
            }
            Wait::Reply => {
                let now = self.wire.moment();
                self.line.look(now);
                let start = self.line.clock.at;
                read_on(
                    &mut self.wire,
                    &mut self.line,
                    timing::Expected::Reply,
                    start,
                    buf,
                )
            }
        }
    }

    /// Reads what is to be heard, or waits.
    #[inline(always)]
    fn read_next(&mut self, wait: Wait, buf: &mut [u8]) -> Result<Got, PortFault>
        requires { 0 < length buf.old }
        ensures count { (n : ℕ) → result ≡ Ok (Got.Bytes n) → (0 < n) × (n ≤ length buf.old) }
        ensures exact { (u : Tape) → W.tells self.new.wire u → (t : Tape) × W.tells self.old.wire t
            × (table.read_of wait (length buf.old) self.old.line t
            ≡ table.gives (seen_of result buf.new) self.new.line u) }
        ensures waits { self.new.waits ≡ self.old.waits }
        ensures ok { OnOk result (W.failures self.new.wire ≡ W.failures self.old.wire) }
        ensures failed { OnErr result (Counted
            (W.failures self.old.wire) (W.failures self.new.wire)) }
    {
        if self.has_no_room(buf.len()) {
            return Ok(Got::Quiet);
        }
        if self.line.timing.has_cancel {
            return Ok(self.cancelled(buf));
        }
        if self.line.is_closed {
            return Ok(Got::Closed);
        }
        self.await_bytes(wait, buf)
    }

    /// Writes bytes behind what the line has to clear of, which was looked at now.
    // kept out of the way of a write that has nothing to clear
    #[cold]
    #[inline(never)]
    fn write_behind(&mut self, bytes: &[u8]) -> Result<(), PortFault>
        ensures exact { (u : Tape) → W.tells self.new.wire u → (t : Tape) × W.tells self.old.wire t
            × table.Writes bytes.now (table.cleared MOST_READS
            (table.purge_for bytes.now self.old.line) self.old.line t) result self.new.line u }
        ensures waits { self.new.waits ≡ self.old.waits }
        ensures ok { OnOk result (W.failures self.new.wire ≡ W.failures self.old.wire) }
        ensures failed { OnErr result (Counted
            (W.failures self.old.wire) (W.failures self.new.wire)) }
    {
        let purge = self.line.timing.purge(bytes, self.line.clock.at);
        match let_clear(&mut self.wire, &mut self.line, purge) {
            Ok(purge) => {
                self.line.write(bytes, purge);
                self.wire.write(bytes)
            }
            Err(fault) => Err(fault),
        }
    }

    /// Writes bytes behind what the line has to clear of.
    #[inline(always)]
    fn write_next(&mut self, bytes: &[u8]) -> Result<(), PortFault>
        ensures exact { (u : Tape) → W.tells self.new.wire u → (t : Tape) × W.tells self.old.wire t
            × table.Writes bytes.now (table.clears_for bytes.now self.old.line t)
            result self.new.line u }
        ensures waits { self.new.waits ≡ self.old.waits }
        ensures ok { OnOk result (W.failures self.new.wire ≡ W.failures self.old.wire) }
        ensures failed { OnErr result (Counted
            (W.failures self.old.wire) (W.failures self.new.wire)) }
    {
        let now = self.wire.moment();
        self.line.look(now);
        if self.line.write_at_once(bytes) {
            return self.wire.write(bytes);
        }
        self.write_behind(bytes)
    }
}

impl<W: Wire + Drop> Port for TimedPort<W> {
    ghost use Rattle.ym_port.specs.Passing.{Passes, written_of};
    ghost use Rattle.ym_port.specs.TimedPort.{clears_for, Writes, gives, read_of};

    ghost tells = { λ p u. (t : Tape) × W.tells p.wire t × (u.written ≡ written_of t.done)
        × Passes p.line t u.coming };

    ghost asked = { λ p w. w ≡ p.waits.asked };

    ghost failures = { λ p. W.failures p.wire };

    #[inline(always)]
    fn read(&mut self, wait: Wait, buf: &mut [u8]) -> Result<Got, PortFault>
        requires { 0 < length buf.old }
        ensures count { (n : ℕ) → result ≡ Ok (Got.Bytes n) → (0 < n) × (n ≤ length buf.old) }
        ensures exact { (u : Tape) → W.tells self.new.wire u → (t : Tape) × W.tells self.old.wire t
            × (read_of wait (length buf.old) self.old.line t
            ≡ gives (seen_of result buf.new) self.new.line u) }
        ensures waits { self.new.waits.asked ≡ self.old.waits.asked ++ wait ∷ [] }
        ensures told { (u : PortTape) → ((t : Tape) × W.tells self.new.wire t
            × (u.written ≡ written_of t.done) × Passes self.new.line t u.coming)
            → (x : PortTape) × ((t : Tape) × W.tells self.old.wire t
            × (x.written ≡ written_of t.done) × Passes self.old.line t x.coming)
            × (seen_of result buf.new ≡ read_gives (length buf.old) x.coming)
            × (u ≡ record x { coming = read_leaves (length buf.old) x.coming }) }
        ensures ok { OnOk result (W.failures self.new.wire ≡ W.failures self.old.wire) }
        ensures failed { OnErr result (Counted
            (W.failures self.old.wire) (W.failures self.new.wire)) }
    {
        self.waits = self.waits.then(&wait);
        self.read_next(wait, buf)
    }

    #[inline(always)]
    fn write(&mut self, bytes: &[u8]) -> Result<(), PortFault>
        ensures exact { (u : Tape) → W.tells self.new.wire u → (t : Tape) × W.tells self.old.wire t
            × Writes bytes.now (clears_for bytes.now self.old.line t) result self.new.line u }
        ensures waits { self.new.waits ≡ self.old.waits }
        ensures told { (u : PortTape) → ((t : Tape) × W.tells self.new.wire t
            × (u.written ≡ written_of t.done) × Passes self.new.line t u.coming)
            → (x : PortTape) × ((t : Tape) × W.tells self.old.wire t
            × (x.written ≡ written_of t.done) × Passes self.old.line t x.coming)
            × (u ≡ after_write (is_ok result) x bytes.now) }
        ensures ok { OnOk result (W.failures self.new.wire ≡ W.failures self.old.wire) }
        ensures failed { OnErr result (Counted
            (W.failures self.old.wire) (W.failures self.new.wire)) }
    {
        self.write_next(bytes)
    }
}

impl<W: Wire + Drop> Learned for TimedPort<W> {
    ghost use Rattle.ym_port.specs.TimedPort.{slowest_of};

    ghost echoes = { λ p. p.line.has_echo };

    ghost slowest_answer = { λ p. slowest_of p.line.timing.pace };

    fn has_echo(&self) -> bool {
        self.line.has_echo
    }

    fn slowest(&self) -> Option<u64> {
        let pace = self.line.timing.pace;
        match pace.trust {
            Trust::Unknown => None,
            Trust::Doubtful | Trust::Sure => Some(pace.slowest),
        }
    }
}
