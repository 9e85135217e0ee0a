//! What reads that end by themselves say of a line.

ghost use Rattle.std.specs.Prelude.{◌≡◌, ◌<◌, ◌==◌, false, not};
ghost use Rattle.ym_host.specs.Ticks.{after, said};

/// How many milliseconds a read waits where nothing comes, as `stty min 0 time 1` sets it.
pub const TICK_MS: u64 = 100;

/// A read that got nothing in fewer milliseconds did not wait.
pub const EARLY_MS: u64 = 50;

/// So many reads in a row that did not wait have met the end of the line.
pub const HUNG_UP_READS: u32 = 5;

/// A read that took more milliseconds was late.
pub const LATE_MS: u64 = 1000;

/// What a read says of its line.
#[derive(Clone, Copy)]
pub enum Tick {
    /// Bytes came.
    Bytes,
    /// Nothing came.
    Quiet,
    /// Nothing will come any more.
    HungUp,
    /// Its reads do not end by themselves.
    Endless,
}

/// What the reads of a line have said so far.
#[derive(Clone, Copy)]
pub struct Ticks {
    /// How many of the last ones, in a row, got nothing and did not wait.
    pub early: u32,
    /// Whether one has ended by itself.
    pub has_ended: bool,
    /// Whether the last one was in time.
    pub was_in_time: bool,
}

impl Ticks {
    /// Of a line of which no read was made. Only of a terminal it has to be found out whether its
    /// reads end by themselves.
    pub fn new(is_terminal: bool) -> Ticks
        ensures early { result.early ≡ 0 }
        ensures ended { result.has_ended ≡ not is_terminal }
        ensures time { result.was_in_time ≡ false }
    {
        Ticks {
            early: 0,
            has_ended: !is_terminal,
            was_in_time: false,
        }
    }

    /// Takes that a read got so many bytes after so many milliseconds, and answers what that says.
    /// One that got bytes late would have waited for ever, unless one before it has ended by
    /// itself, or the last one was in time: the process, or its machine, may have stood still
    /// since.
    pub fn take(&mut self, count: usize, millis: u64) -> Tick
        ensures says { result ≡ said self.old count millis }
        ensures some { result ≡ Tick.Bytes → 0 < count }
        ensures kept { self.new ≡ after self.old count millis }
    {
        let may_be_endless = !self.has_ended && !self.was_in_time;
        self.was_in_time = millis <= LATE_MS;
        if count == 0 {
            self.early = if millis < EARLY_MS {
                self.early.saturating_add(1).min(HUNG_UP_READS)
            } else {
                0
            };
            self.has_ended = true;
            return if self.early >= HUNG_UP_READS {
                Tick::HungUp
            } else {
                Tick::Quiet
            };
        }
        self.early = 0;
        if may_be_endless && !self.was_in_time {
            return Tick::Endless;
        }
        Tick::Bytes
    }
}
