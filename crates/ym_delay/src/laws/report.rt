//! A session with a false report.

ghost use Rattle.std.specs.Prelude.{[], ◌∷◌, ◌≡◌};
ghost use Rattle.ym_core.specs.Position.{done_at};
ghost use Rattle.ym_core.specs.Receiver.{new_receiver};
ghost use Rattle.ym_core.specs.Standing.{new_standing};
ghost use Rattle.ym_machine.specs.declared.confirm.Confirm.TheVariants.{Twice};
ghost use Rattle.ym_delay.specs.Cleared.{LetsClear};
ghost use Rattle.ym_delay.specs.FalseReport.{SmallBatch, hasty_came, hasty_heard, hasty_last};
ghost use Rattle.ym_delay.specs.FalseReport.{hasty_line, hasty_receiver, hasty_sender};
ghost use Rattle.ym_delay.specs.FalseReport.{receiver_after, receiver_says};
ghost use Rattle.ym_delay.specs.FalseReport.{sender_after, sender_says};
ghost use Rattle.ym_delay.specs.TimedExamples.{clear_line};
ghost use Rattle.ym_delay.specs.TimedLine.{IsTimed, answers_of, spoken};

use ym_pair::laws::a_delivery_brings_its_frame;

/// A sender that lets the line clear for a millisecond less than it has to may report a file that
/// the receiver has not committed. The session is timed (`timed`), its sender clears long enough
/// where the receiver acts a millisecond sooner (`clears`), and both ends say what their tables say
/// to what they heard (`says`, `answers`). Then one file is reported, and none is committed
/// (`reports`, `none`).
pub fn a_millisecond_too_soon_loses_a_file()
    ensures timed { (batch : SmallBatch) →
        IsTimed clear_line 0 0 (hasty_sender batch) hasty_last (hasty_receiver batch) }
    ensures clears { (batch : SmallBatch) →
        LetsClear hasty_line (hasty_sender batch) (hasty_receiver batch) }
    ensures says { (batch : SmallBatch) →
        spoken (hasty_sender batch)
        ≡ sender_says batch (new_standing (1 ∷ [])) hasty_came }
    ensures answers { (batch : SmallBatch) →
        answers_of (hasty_receiver batch)
        ≡ receiver_says batch (new_receiver Twice) (hasty_heard batch) }
    ensures reports { done_at 1 (sender_after (new_standing (1 ∷ [])) hasty_came).position ≡ 1 }
    ensures none { (batch : SmallBatch) →
        (receiver_after batch (new_receiver Twice) (hasty_heard batch)).files ≡ 0 }
{
    a_delivery_brings_its_frame();
}
