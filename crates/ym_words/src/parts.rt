//! The commands of the program: the name of each, its words, and its help.

ghost use Rattle.std.specs.Prelude.{◌≡◌};
ghost use Rattle.clap.specs.Words.{new_app};
ghost use Rattle.ym_words.specs.CommandLine.{part_app, with_words};

use crate::help;
use crate::words::{Flag, Value, Word};

static SB: [Word; 6] = [
    Word::Named(Value::Line),
    Word::Flag(Flag::Short),
    Word::Named(Value::Recorded),
    Word::Files,
    Word::Flag(Flag::Verbose),
    Word::Flag(Flag::Quiet),
];

static RB: [Word; 8] = [
    Word::Named(Value::Line),
    Word::Flag(Flag::Single),
    Word::Flag(Flag::NoSync),
    Word::Flag(Flag::DiscardParts),
    Word::Named(Value::Recorded),
    Word::Placed(Value::Folder, false),
    Word::Flag(Flag::Verbose),
    Word::Flag(Flag::Quiet),
];

static SEND: [Word; 6] = [
    Word::Port(true),
    Word::Flag(Flag::Short),
    Word::Named(Value::Recorded),
    Word::Files,
    Word::Flag(Flag::Verbose),
    Word::Flag(Flag::Quiet),
];

static RECEIVE: [Word; 10] = [
    Word::Port(true),
    Word::Flag(Flag::Single),
    Word::Flag(Flag::Eager),
    Word::Flag(Flag::Keep),
    Word::Flag(Flag::NoSync),
    Word::Flag(Flag::DiscardParts),
    Word::Named(Value::Recorded),
    Word::Placed(Value::Dir, true),
    Word::Flag(Flag::Verbose),
    Word::Flag(Flag::Quiet),
];

static LOOP: [Word; 3] = [
    Word::Port(true),
    Word::Flag(Flag::Verbose),
    Word::Flag(Flag::Quiet),
];

static EXPLAIN: [Word; 5] = [
    Word::Named(Value::There),
    Word::Named(Value::Back),
    Word::Flag(Flag::Turned),
    Word::Named(Value::Chart),
    Word::Placed(Value::Record, false),
];

static JUDGE: [Word; 7] = [
    Word::Placed(Value::Peer, true),
    Word::Port(false),
    Word::Named(Value::JudgedLine),
    Word::Named(Value::Only),
    Word::Named(Value::Stored),
    Word::Flag(Flag::List),
    Word::Flag(Flag::Json),
];

/// A command of the program.
#[derive(Clone, Copy)]
pub(crate) enum Part {
    Sb,
    Rb,
    Send,
    Receive,
    Play,
    Loop,
    Explain,
    Judge,
}

impl Part {
    /// Its name, and the words that it takes.
    pub(crate) fn words<'a>(self) -> (&'a str, &'static [Word])
        ensures { with_words (new_app result.0.now) result.1.now ≡ part_app self }
    {
        match self {
            Part::Sb => ("sb", &SB),
            Part::Rb => ("rb", &RB),
            Part::Send => ("send", &SEND),
            Part::Receive => ("receive", &RECEIVE),
            Part::Play => ("play", &[]),
            Part::Loop => ("loop", &LOOP),
            Part::Explain => ("explain", &EXPLAIN),
            Part::Judge => ("judge", &JUDGE),
        }
    }

    /// What its help says before its words, and behind them.
    pub(crate) fn texts<'a>(self) -> (&'a str, &'a str) {
        match self {
            Part::Sb => (help::SB_ABOUT, help::SB_HELP),
            Part::Rb => (help::RB_ABOUT, help::RB_HELP),
            Part::Send => (help::SEND_ABOUT, help::SEND_HELP),
            Part::Receive => (help::RECEIVE_ABOUT, help::RECEIVE_HELP),
            Part::Play => (help::PLAY_ABOUT, help::PLAY_HELP),
            Part::Loop => (help::LOOP_ABOUT, help::LOOP_HELP),
            Part::Explain => (help::EXPLAIN_ABOUT, help::EXPLAIN_HELP),
            Part::Judge => (help::JUDGE_ABOUT, help::JUDGE_HELP),
        }
    }
}
