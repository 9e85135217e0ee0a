//! Bytes that come late, while the line is let clear.

ghost use Rattle.std.specs.Prelude.{List, false, length, ℕ, ◌<◌, ◌≡◌};
ghost use Rattle.ym_port.specs.TimedPort.{cleared, is_clear};
ghost use Rattle.ym_port.specs.Wire.{Tape};
ghost use Rattle.ym_port.specs.declared.line.Line.{Line};
ghost use Rattle.ym_timing.specs.declared.purge.Purge.{Purge};
ghost use Rattle.ym_delay.specs.LateAnswers.{AreLate, Late, LeavesOff, brings};
ghost use Rattle.ym_delay.specs.LateAnswers.{purge_behind, line_behind};

/// Where the program's port lets the line clear, the bytes that come before the line counts as
/// clear are dropped, all of them, and nothing behind the quiet that follows them. It takes a read
/// for each piece of them, and one for the quiet. So it is with either role, whatever the line has
/// to clear from.
pub fn late_answers_are_dropped()
    ensures { (reads : ℕ) (c : Purge) (l : Line) (late : List Late) (at : ℕ) (rest : Tape) →
        AreLate c l late → length late < reads →
        is_clear (purge_behind c l late) (line_behind c l late) ≡ false →
        LeavesOff (purge_behind c l late) (line_behind c l late) at rest
        (cleared reads c l (brings late at rest)) }
{}
