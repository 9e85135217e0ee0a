//! How the frames of one end and the answers of the other fit together: what each means to the
//! end that hears it, and where the two part.

ghost use Rattle.std.specs.Prelude.{◌≡◌};
ghost use Rattle.ym_explain.specs.Talking.{footing_of, ack_at, meaning_of as meaning, behind_answer, is_parting as parts, is_ahead as runs_ahead};

use crate::told::{FrameKind, SendPosition};
use ym_frame::Control;

/// What became of the last frame of the sender.
#[derive(Clone, Copy)]
pub enum Fate {
    /// No frame was sent.
    Start,
    /// It has no answer.
    Out,
    /// It was acknowledged.
    Taken,
    /// It was refused.
    Refused,
    /// It came damaged.
    Damaged,
}

/// How a frame of the sender follows what the receiver answered.
#[derive(Clone, Copy)]
pub enum Footing {
    /// The next frame, behind an acknowledgement or at the start.
    InTurn,
    /// The same frame, behind a refusal.
    AsAsked,
    /// The next frame, where one that came damaged was sent: that one, whole now.
    Mended,
    /// The same frame, with no answer to it.
    Unanswered,
    /// The same frame, behind an acknowledgement that was not heard.
    AckUnheard,
    /// The next frame, behind none or a refusal: the sender heard an acknowledgement of another.
    WentOn,
    /// A frame that cannot come next.
    Astray,
    /// A cancel, wherever it comes.
    Leaving,
}

/// What an answer means to the sender, by its table.
#[derive(Clone, Copy)]
pub enum Meaning {
    /// The receiver asks for the first file.
    Asks,
    /// It asks for what comes behind an acknowledged frame.
    AsksOn,
    /// It asks, and a frame is out or was refused: it has not heard that.
    AsksAgain,
    /// It asks as XMODEM does, before any frame.
    AsksByNak,
    /// It took the frame that is out.
    Takes,
    /// It took a copy of what it took before.
    TakesCopy,
    /// It acknowledges, and no frame is out.
    Ahead,
    /// It acknowledges the EOT once more, as U-Boot does.
    TakesEotAgain,
    /// It refuses the frame that is out.
    Refuses,
    /// It wants the EOT once more, as it does of the first.
    WantsEotAgain,
    /// It refuses, and no frame is out.
    RefusesAgain,
    /// One CAN, which is no answer.
    LoneCan,
}

/// How a frame of this kind follows what became of the one before it.
pub fn follows(fate: Fate, kind: FrameKind) -> Footing
    ensures { result ≡ footing_of fate kind }
{
    match (kind, fate) {
        (FrameKind::Cancel, _) => Footing::Leaving,
        (FrameKind::Late, _) => Footing::InTurn,
        (FrameKind::OutOfTurn, _) => Footing::Astray,
        (FrameKind::Copy, Fate::Refused) => Footing::AsAsked,
        (FrameKind::Copy, Fate::Taken) => Footing::AckUnheard,
        (FrameKind::Copy, Fate::Start | Fate::Out | Fate::Damaged) => Footing::Unanswered,
        (_, Fate::Start | Fate::Taken) => Footing::InTurn,
        (_, Fate::Damaged) => Footing::Mended,
        (_, Fate::Out | Fate::Refused) => Footing::WentOn,
    }
}

/// What an answer means to a sender that stands at this position. `owed` says whether a frame, or a
/// copy of one, has no answer yet.
pub fn meaning_of(position: SendPosition, fate: Fate, owed: bool, control: Control) -> Meaning
    ensures { result ≡ meaning position fate owed control }
{
    match (control, fate) {
        (Control::Can, _) => Meaning::LoneCan,
        (Control::Start, Fate::Start) => Meaning::Asks,
        (Control::Start, Fate::Taken) => Meaning::AsksOn,
        (Control::Start, Fate::Out | Fate::Refused | Fate::Damaged) => Meaning::AsksAgain,
        (Control::Ack, Fate::Out | Fate::Damaged) => Meaning::Takes,
        (Control::Ack, Fate::Start | Fate::Taken | Fate::Refused) => {
            if owed {
                Meaning::TakesCopy
            } else {
                ack_of_nothing(position)
            }
        }
        (Control::Nak, Fate::Start) => Meaning::AsksByNak,
        (Control::Nak, Fate::Out) => match position {
            SendPosition::Ended => Meaning::WantsEotAgain,
            _ => Meaning::Refuses,
        },
        (Control::Nak, Fate::Damaged) => Meaning::Refuses,
        (Control::Nak, Fate::Taken | Fate::Refused) => Meaning::RefusesAgain,
    }
}

/// What an acknowledgement means to a sender at this position that has no frame out.
fn ack_of_nothing(position: SendPosition) -> Meaning
    ensures { result ≡ ack_at position }
{
    match position {
        SendPosition::Ended => Meaning::TakesEotAgain,
        SendPosition::Before | SendPosition::Named => Meaning::Ahead,
        SendPosition::Data { .. } | SendPosition::Over => Meaning::Ahead,
    }
}

/// What became of the last frame, behind this answer.
pub fn fate_behind(fate: Fate, control: Control) -> Fate
    ensures { result ≡ behind_answer fate control }
{
    match (control, fate) {
        (_, Fate::Start) => Fate::Start,
        (Control::Ack, _) => Fate::Taken,
        (Control::Nak, Fate::Out) => Fate::Refused,
        _ => fate,
    }
}

/// Whether the two ends do not agree any more where a frame has this footing.
pub fn is_parting(footing: Footing) -> bool
    ensures { result ≡ parts footing }
{
    matches!(footing, Footing::WentOn | Footing::Astray)
}

/// Whether they do not where an answer has this meaning.
pub fn is_ahead(meaning: Meaning) -> bool
    ensures { result ≡ runs_ahead meaning }
{
    matches!(meaning, Meaning::Ahead)
}
