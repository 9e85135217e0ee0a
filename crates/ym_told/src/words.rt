//! What frames and answers are, in words.

ghost use Rattle.std.specs.Prelude.{◌≡◌};
ghost use Rattle.ym_told.specs.LineWords.{kind_words, footing_words, meaning_words, control_words, short_words};

use ym_explain::{Footing, FrameKind, Meaning};
use ym_frame::Control;

/// What a frame is to its session.
pub(crate) fn kind_text(kind: FrameKind) -> &'static str
    ensures { result.now ≡ kind_words kind }
{
    match kind {
        FrameKind::Name => "begins a file",
        FrameKind::End => "ends the batch",
        FrameKind::Data => "the next",
        FrameKind::Eot => "ends the file",
        FrameKind::Copy => "once more",
        FrameKind::OutOfTurn => "cannot come next",
        FrameKind::Late => "the first here: those before it were not recorded",
        FrameKind::Cancel => "cancels",
    }
}

/// How a frame follows what was answered, behind what it is.
pub(crate) fn footing_text(footing: Footing) -> &'static str
    ensures { result.now ≡ footing_words footing }
{
    match footing {
        Footing::InTurn => "",
        Footing::AsAsked => ", as asked",
        Footing::Mended => ", and whole now",
        Footing::Unanswered => ", for no answer came",
        Footing::AckUnheard => ", though it was acknowledged",
        Footing::WentOn => ", though the one before it was not acknowledged",
        Footing::Astray => ": one before it is missing",
        Footing::Leaving => "",
    }
}

/// What an answer means.
pub(crate) fn meaning_text(meaning: Meaning) -> &'static str
    ensures { result.now ≡ meaning_words meaning }
{
    match meaning {
        Meaning::Asks => "asks for a file",
        Meaning::AsksOn => "asks for what comes next",
        Meaning::AsksAgain => "asks once more, and has not heard the frame that is out",
        Meaning::AsksByNak => "asks as XMODEM does",
        Meaning::Takes => "took it",
        Meaning::TakesCopy => "took a copy",
        Meaning::Ahead => "acknowledges, and nothing is out",
        Meaning::TakesEotAgain => "took the EOT, once more",
        Meaning::Refuses => "wants it once more",
        Meaning::WantsEotAgain => "wants the EOT once more, as of each first one",
        Meaning::RefusesAgain => "wants a frame once more, and none is out",
        Meaning::LoneCan => "stands alone, and means nothing",
    }
}

/// The name of a control byte.
pub(crate) fn control_text(control: Control) -> &'static str
    ensures { result.now ≡ control_words control }
{
    match control {
        Control::Ack => "ACK",
        Control::Nak => "NAK",
        Control::Start => "C",
        Control::Can => "CAN",
    }
}

/// That a damaged frame ends where another begins.
pub(crate) fn short_text(short: bool) -> &'static str
    ensures { result.now ≡ short_words short }
{
    if short {
        ", and another begins there"
    } else {
        ""
    }
}
