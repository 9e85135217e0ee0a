//! What is written in a turn of a session, and what comes then.

use crate::manner::Manner;
use ym_judge::{Act, Answers, Twist};

/// What is written in a turn.
#[derive(Drop)]
pub(crate) struct Turn {
    /// What the end does.
    pub(crate) act: Act,
    /// What becomes of it, where it is the turn of the case.
    pub(crate) twist: Option<Twist>,
    /// What is written.
    pub(crate) out: Vec<u8>,
    /// In which manner.
    pub(crate) manner: Manner,
}

/// What comes in a turn.
#[derive(Drop)]
pub(crate) struct Heard {
    /// In the pause, or after the first time.
    pub(crate) before: Vec<u8>,
    /// After all was written.
    pub(crate) bytes: Vec<u8>,
    /// Behind an ACK at its end, where C was waited for.
    pub(crate) late: Vec<u8>,
    /// After how many tenths of a second its first byte came.
    pub(crate) tenths: u64,
    /// The peer had closed the line before all was written.
    pub(crate) is_gone: bool,
}

/// What the reference answers in a turn.
#[derive(Clone, Copy)]
pub(crate) struct Replies {
    /// To what came before the turn's last writing.
    pub(crate) before: Answers,
    /// To that.
    pub(crate) last: Answers,
}
