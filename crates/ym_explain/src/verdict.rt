//! What went wrong in a session, by what was seen of it.

ghost use Rattle.std.specs.Prelude.{◌≡◌};
ghost use Rattle.ym_explain.specs.Evidence.{is_finished, has_eot_alone, has_sent_none, known_ways, shows, tells_whole, first_shown, verdict_in};

use crate::signs::Signs;
use std::fmt;

/// What went wrong, or that nothing did.
#[derive(Clone, Copy)]
pub enum Verdict {
    /// The end of the batch was acknowledged, and each block came once and whole.
    Whole,
    /// The end of the batch was acknowledged, and what came damaged was sent again.
    Mended,
    /// The end of the batch was acknowledged, and blocks came whole more than once.
    Repeated,
    /// The end of the batch was acknowledged, and what came damaged came behind it.
    Unharmed,
    /// The sender wrote the end of the batch, and what was answered is not known.
    SenderDone,
    /// An end speaks ZMODEM.
    Zmodem,
    /// What the sender wrote came back.
    Echo,
    /// Only seven bits of each byte came.
    SevenBits,
    /// Bytes came that are no text, and no frame of them.
    Noise,
    /// The sender speaks XMODEM.
    Xmodem,
    /// The receiver speaks XMODEM.
    XmodemReceiver,
    /// The receiver speaks YMODEM-g.
    YmodemGReceiver,
    /// No receiver asked for a file.
    NobodyAsked,
    /// EOT came, and no block.
    EotAlone,
    /// No frame came.
    NobodySent,
    /// The receiver asked, and no sender wrote.
    NobodyAnswered,
    /// The receiver asked, and the sender cancelled in place of a frame.
    CancelledUnsent,
    /// The line takes 11 and 13 for itself.
    FlowControl,
    /// The line takes 1A for itself.
    SubEaten,
    /// The line takes 11 and 13, or 1A, for itself.
    EatenBytes,
    /// A block 0 had no room for the whole length.
    NoRoom,
    /// A file ended before its length.
    CutLength,
    /// A file went on past its length.
    PastLength,
    /// Ten refusals came in a row.
    TooManyErrors,
    /// The last frame came damaged, and never whole.
    Damage,
    /// The frames that came last have no answer: three of them or more.
    FellSilent,
    /// The sender cancelled.
    SenderCancelled,
    /// The receiver cancelled.
    ReceiverCancelled,
    /// The receiver acknowledged what was not sent yet.
    ReplyAhead,
    /// None of the others: the session stopped.
    Stopped,
    /// None of the others, and one way alone is known.
    Unheard,
}

/// The verdicts in the order in which they are looked for, where both ways are known: what keeps a
/// session from beginning comes before what stops it. Who asks by G has not asked by C, so that
/// comes before `NobodyAsked`; a NAK before any block is of XMODEM, whatever came beside it.
/// EOT alone is of a sender that is there, at the end of its file, so it comes before
/// `NobodyAnswered`. It comes behind `NobodyAsked`: a byte 04 that a shell takes is of no sender,
/// and no receiver answers it.
pub const ORDER: [Verdict; 28] = [
    Verdict::Whole,
    Verdict::Mended,
    Verdict::Repeated,
    Verdict::Unharmed,
    Verdict::Zmodem,
    Verdict::Echo,
    Verdict::SevenBits,
    Verdict::Noise,
    Verdict::Xmodem,
    Verdict::XmodemReceiver,
    Verdict::YmodemGReceiver,
    Verdict::NobodyAsked,
    Verdict::EotAlone,
    Verdict::NobodyAnswered,
    Verdict::CancelledUnsent,
    Verdict::FlowControl,
    Verdict::SubEaten,
    Verdict::EatenBytes,
    Verdict::NoRoom,
    Verdict::CutLength,
    Verdict::PastLength,
    Verdict::TooManyErrors,
    Verdict::Damage,
    Verdict::ReplyAhead,
    Verdict::FellSilent,
    Verdict::SenderCancelled,
    Verdict::ReceiverCancelled,
    Verdict::Stopped,
];

/// The same where only the way from the sender is known.
pub const ORDER_THERE: [Verdict; 16] = [
    Verdict::Zmodem,
    Verdict::SevenBits,
    Verdict::Noise,
    Verdict::Xmodem,
    Verdict::NoRoom,
    Verdict::CutLength,
    Verdict::PastLength,
    Verdict::SenderDone,
    Verdict::FlowControl,
    Verdict::SubEaten,
    Verdict::EatenBytes,
    Verdict::Damage,
    Verdict::SenderCancelled,
    Verdict::EotAlone,
    Verdict::NobodySent,
    Verdict::Unheard,
];

/// The same where only the way from the receiver is known.
pub const ORDER_BACK: [Verdict; 10] = [
    Verdict::Zmodem,
    Verdict::Echo,
    Verdict::Noise,
    Verdict::XmodemReceiver,
    Verdict::YmodemGReceiver,
    Verdict::NobodyAsked,
    Verdict::TooManyErrors,
    Verdict::ReceiverCancelled,
    Verdict::NobodyAnswered,
    Verdict::Unheard,
];

/// Which ways of a line are known.
#[derive(Clone, Copy)]
pub enum Ways {
    /// Both.
    Both,
    /// That from the sender of the files.
    There,
    /// That from their receiver.
    Back,
}

/// The ways of which something is known, where these were recorded. A sender does not go on to the
/// next block unheard, and a receiver acknowledges what was sent.
fn known(ways: Ways, seen: Signs) -> Ways
    ensures { result ≡ known_ways ways seen }
{
    match ways {
        Ways::There => Ways::There,
        Ways::Back => Ways::Back,
        Ways::Both => {
            if seen.went_on && seen.is_unheard() {
                Ways::There
            } else if seen.took_unseen && seen.is_unsent() {
                Ways::Back
            } else {
                Ways::Both
            }
        }
    }
}

/// The first verdict that what was seen shows, in the order of the ways that are known.
pub fn verdict_of(ways: Ways, seen: Signs) -> Verdict
    ensures { result ≡ verdict_in ways seen }
{
    match known(ways, seen) {
        Ways::Both => first_of(seen, &ORDER),
        Ways::There => first_of(seen, &ORDER_THERE),
        Ways::Back => first_of(seen, &ORDER_BACK),
    }
}

/// The first of these verdicts that what was seen shows.
fn first_of(seen: Signs, order: &[Verdict]) -> Verdict
    ensures { result ≡ first_shown seen order.now }
{
    for verdict in order {
        if verdict.is_shown(seen) {
            return *verdict;
        }
    }
    Verdict::Stopped
}

/// Whether the end of the batch was acknowledged, and no file is cut or went on past its length.
fn is_whole(seen: Signs) -> bool
    ensures { result ≡ is_finished seen }
{
    seen.finished && !seen.cut_length && !seen.past_length && !seen.no_room
}

/// Whether EOT came, and nothing of a block.
fn is_eot_alone(seen: Signs) -> bool
    ensures { result ≡ has_eot_alone seen }
{
    seen.eot && !seen.framed && !seen.damaged
}

/// Whether nothing of a block came, and none was acknowledged.
fn is_unsent(seen: Signs) -> bool
    ensures { result ≡ has_sent_none seen }
{
    !seen.framed && !seen.damaged && !seen.ahead
}

impl Verdict {
    /// Whether it says that the session is whole.
    pub fn is_of_whole(self) -> bool
        ensures { result ≡ tells_whole self }
    {
        matches!(
            self,
            Verdict::Whole | Verdict::Mended | Verdict::Repeated | Verdict::Unharmed
        )
    }

    /// Whether what was seen bears this verdict out.
    fn is_shown(self, seen: Signs) -> bool
        ensures { result ≡ shows self seen }
    {
        match self {
            Verdict::Whole => is_whole(seen) && !seen.damaged && !seen.repeated,
            Verdict::Mended => is_whole(seen) && seen.mended,
            Verdict::Repeated => is_whole(seen) && seen.repeated,
            Verdict::Unharmed => is_whole(seen) && seen.unmended,
            Verdict::SenderDone => seen.over && !seen.unmended,
            Verdict::Zmodem => seen.zmodem,
            Verdict::Echo => seen.echoed,
            Verdict::SevenBits => seen.damaged && !seen.high,
            Verdict::Noise => (seen.junk && seen.high || seen.back_high && !seen.asked)
                && !seen.framed
                && !seen.headed,
            Verdict::Xmodem => seen.unnamed,
            Verdict::XmodemReceiver => seen.nak_first && !seen.asked,
            Verdict::YmodemGReceiver => seen.asking.is_by_g(),
            Verdict::NobodyAsked => !seen.asked && !seen.heard,
            Verdict::EotAlone => is_eot_alone(seen),
            Verdict::NobodySent => !seen.framed && !seen.damaged,
            Verdict::NobodyAnswered => is_unsent(seen) && !seen.sender_cancelled,
            Verdict::CancelledUnsent => is_unsent(seen) && seen.sender_cancelled,
            Verdict::FlowControl => seen.short && !seen.flow && seen.sub,
            Verdict::SubEaten => seen.short && seen.flow && !seen.sub,
            Verdict::EatenBytes => seen.short && !seen.flow && !seen.sub,
            Verdict::NoRoom => seen.no_room,
            Verdict::CutLength => seen.cut_length,
            Verdict::PastLength => seen.past_length,
            Verdict::TooManyErrors => seen.gave_up,
            Verdict::Damage => seen.unmended,
            Verdict::FellSilent => seen.unanswered > 2 && !seen.receiver_cancelled,
            Verdict::SenderCancelled => seen.sender_cancelled,
            Verdict::ReceiverCancelled => seen.receiver_cancelled,
            Verdict::ReplyAhead => seen.ahead,
            Verdict::Stopped | Verdict::Unheard => true,
        }
    }
}

impl Verdict {
    ghost use Rattle.ym_explain.specs.VerdictText.{verdict_text};

    /// What went wrong, and what to try.
    fn sentence(self) -> &'static str
        ensures { result.now ≡ verdict_text self }
    {
        match self {
            Verdict::Whole => "the session is whole: nothing went wrong",
            Verdict::Mended => "the session is whole: what came damaged was sent again",
            Verdict::Repeated => {
                "the session is whole: what was refused or unanswered was sent again"
            }
            Verdict::Unharmed => {
                "the session is whole: what came damaged behind its end changed nothing"
            }
            Verdict::SenderDone => {
                "the sender wrote its whole batch: what the receiver answered is not in the file"
            }
            Verdict::Zmodem => "an end speaks ZMODEM: start it with sb or rb in place of sz or rz",
            Verdict::Echo => {
                "what the sender wrote came back: start the receiver at the other end first"
            }
            Verdict::SevenBits => {
                "only seven bits of each byte came: set the line to eight bits and no parity"
            }
            Verdict::Noise => "bytes came, no text and no frame: set both ends to the same speed",
            Verdict::Xmodem => {
                "the sender names no file, as XMODEM does: start it as a sender of YMODEM"
            }
            Verdict::XmodemReceiver => {
                "the receiver asks by NAK, as XMODEM does: start it as a receiver of YMODEM"
            }
            Verdict::YmodemGReceiver => {
                "the receiver asks by G, as YMODEM-g does: start it as a receiver of YMODEM"
            }
            Verdict::NobodyAsked => {
                "no receiver asked for a file: start one, and see that its line is connected"
            }
            Verdict::EotAlone => {
                "EOT came and no block: start both ends again, and record from before they start"
            }
            Verdict::NobodySent => {
                "no frame is in the file: see which way it has, and whether a sender was started"
            }
            Verdict::NobodyAnswered => "the receiver asked and no frame came: start the sender",
            Verdict::CancelledUnsent => {
                "the sender cancelled before it sent a frame: see what it says"
            }
            Verdict::FlowControl => {
                "frames came short, and no 11 or 13 in them: \
                turn XON/XOFF off at both ends and between them"
            }
            Verdict::SubEaten => {
                "frames came short, and no 1A in them: \
                set the line to raw, so that it carries every byte"
            }
            Verdict::EatenBytes => {
                "frames came short, with no 11 and 13 and no 1A: \
                turn flow control off and set the line to raw"
            }
            Verdict::NoRoom => {
                "block 0 had no room for the whole length: send the file under a shorter name"
            }
            Verdict::CutLength => {
                "a file ended before its stated length: see whether it changed while it was sent"
            }
            Verdict::PastLength => {
                "what came past a file's stated length is dropped: \
                send one that does not grow, and no pipe"
            }
            Verdict::TooManyErrors => {
                "ten frames in a row were refused: try a lower speed or a better line"
            }
            Verdict::Damage => {
                "a frame came damaged and never whole: try a lower speed or a better line"
            }
            Verdict::FellSilent => {
                "the receiver fell silent: see whether it still runs, and whether the line was cut"
            }
            Verdict::SenderCancelled => "the sender cancelled: see what it says",
            Verdict::ReceiverCancelled => {
                "the receiver cancelled: see what it says, and whether it can write the file"
            }
            Verdict::ReplyAhead => {
                "the receiver acknowledged what was not sent yet: start both ends again"
            }
            Verdict::Stopped => {
                "the session stopped before its end: \
                see whether the line was cut or an end was closed"
            }
            Verdict::Unheard => {
                "nothing wrong is seen one way: record both ways to see what was answered"
            }
        }
    }
}

impl fmt::Display for Verdict {
    ghost use Rattle.std.specs.Prelude.{Some};
    ghost use Rattle.ym_explain.specs.VerdictText.{verdict_text};

    ghost output = { λ verdict. Some (verdict_text verdict) };

    fn fmt<W: fmt::Write>(&self, f: &mut fmt::Formatter<W>) -> fmt::Result {
        f.write_str(self.sentence())
    }
}
