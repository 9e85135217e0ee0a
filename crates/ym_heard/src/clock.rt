//! A clock that never runs backwards, over one that may, or that stands still.

ghost use Rattle.std.specs.Prelude.{◌≡◌, ◌≤◌};
ghost use Rattle.ym_heard.specs.Times as table;

/// What a clock told, and how far it is behind.
#[derive(Clone, Copy)]
pub struct Clock {
    /// The greatest time that was told.
    pub at: u64,
    /// How far behind that the clock below is.
    pub behind: u64,
}

impl Clock {
    /// A clock that told nothing.
    pub fn new() -> Clock
        ensures { result ≡ table.new_clock }
    {
        Clock { at: 0, behind: 0 }
    }

    /// The time, where the clock below tells this: never less than before.
    pub fn read(&mut self, now: u64) -> u64
        ensures new { self.new ≡ table.told now self.old }
        ensures result { result ≡ self.new.at }
        ensures onward { self.old.at ≤ self.new.at }
    {
        self.behind = self.behind.max(self.at.saturating_sub(now));
        self.at = now.saturating_add(self.behind);
        self.at
    }

    /// The time, where a read waited until then in vain and the clock below tells this.
    pub fn waited(&mut self, until: u64, now: u64) -> u64
        ensures new { self.new ≡ table.waited until now self.old }
        ensures result { result ≡ self.new.at }
        ensures onward { self.old.at ≤ self.new.at }
        ensures until { until ≤ self.new.at }
    {
        let told = self.read(now);
        self.behind = self.behind.saturating_add(until.saturating_sub(told));
        self.at = told.max(until);
        self.at
    }
}
