//! Laws of the rule: what it promises beside each single step.

ghost use Rattle.std.specs.Prelude.{◌≡◌, ◌≤◌, ◌<◌, ◌-◌, ◌+◌, ◌^◌, ℕ, List, true};
ghost use Rattle.std.specs.Prelude.{false};
ghost use Rattle.ym_timing.specs.Clears.{purge, clear_at, is_unsure, apart_until, late_until};
ghost use Rattle.ym_timing.specs.Clears.{several_until};
ghost use Rattle.ym_timing.specs.Pace.{bound, doubtful, sure};
ghost use Rattle.ym_heard.specs.Times.{later};
ghost use Rattle.ym_timing.specs.Writing.{is_prompted};
ghost use Rattle.ym_heard.specs.declared.limits.TheConstants.{SENDER_QUIET, UNASKED};
ghost use Rattle.ym_timing.specs.declared.out.Owed.{Owed};
ghost use Rattle.ym_timing.specs.declared.pace.Pace.{Pace};
ghost use Rattle.ym_timing.specs.declared.pace.Trust.{Trust};
ghost use Rattle.ym_timing.specs.declared.role.Role.{Role};
ghost use Rattle.ym_timing.specs.declared.timing.Timing.{Timing};

/// Where one answer is awaited, and neither noise came nor an end was held up, nothing is dropped
/// before a write, and nothing waits.
pub fn nothing_waits_where_nothing_went_wrong()
    ensures { (t : Timing) (bytes : List ℕ) (now : ℕ) → t.out.owed ≡ Owed.One
        → is_unsure now t ≡ false
        → clear_at (purge bytes now t) t ≡ 0 }
{}

/// No answer is thought to take less than the last one took, and none is overdue before that.
pub fn answers_are_not_thought_quicker()
    ensures sure { (took : ℕ) (p : Pace) → took ≤ (sure took p).slowest }
    ensures doubtful { (took : ℕ) (p : Pace) → took ≤ (doubtful took p).slowest }
    ensures overdue { (p : Pace) → p.slowest < 2 ^ 64 → p.slowest ≤ bound p }
{}

/// An answer that is not overdue, and comes no farther behind the one before than the writes were
/// apart and a jitter, comes before the line counts as clear. Where it is known how long answers
/// take, as many copies may have been dropped before it as others are awaited.
pub fn late_answers_come_before_the_line_is_clear()
    ensures next { (t : Timing) (many from at : ℕ) → 0 < many
        → at ≤ later t.out.last_at (bound t.pace) → at ≤ apart_until 1 from t
        → at ≤ several_until many from t }
    ensures known { (t : Timing) (many from at : ℕ) → (t.pace.trust ≡ Trust.Unknown → ⊥)
        → at ≤ later t.out.last_at (bound t.pace) → at ≤ apart_until many from t
        → at ≤ several_until many from t }
{}

/// What is let pass behind a late ask takes less than the two seconds after which U-Boot drops what
/// comes.
pub fn late_quiet_meets_no_peers_wait()
    ensures { (t : Timing) (from : ℕ) → late_until from t ≤ from + SENDER_QUIET }
{}

/// A sender takes an ask for the answer to its frame only where no peer can have asked unasked.
pub fn prompt_asks_are_asked_for()
    ensures { (t : Timing) → t.role ≡ Role.Sender → is_prompted t ≡ true
        → t.heard.since - t.led_at ≤ UNASKED }
{}
