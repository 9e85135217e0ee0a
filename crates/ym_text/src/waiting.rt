//! Whom an end waits for, in words.

ghost use Rattle.std.specs.Prelude.{◌≡◌, ◌≤◌, Some, IfOk, false, chars, string_bytes};
ghost use Rattle.unicode_width.specs.Width.{str_width};
ghost use Rattle.ym_text.specs.Waiting.{waiting_text};

use crate::cells::prefix;
use std::alloc::{AllocError, Global};
use std::fmt;
use unicode_width::UnicodeWidthStr;

/// What an end waits for.
#[derive(Clone, Copy)]
pub enum Awaited {
    /// A sender: that the receiver asks for the first file.
    Asking,
    /// The same, in fewer words.
    C,
    /// A sender: an answer to what it wrote.
    Answer,
    /// A receiver: the first file.
    Sender,
    /// A receiver: more of a file, or another one.
    More,
}

/// What an end waits for, and for how long nothing has come. Its `Display` is the line that tells
/// it, without its end.
#[derive(Clone, Copy)]
pub struct Waiting {
    /// What it waits for.
    pub awaited: Awaited,
    /// For how many seconds nothing has come.
    pub seconds: u64,
    /// After so many seconds it gives up.
    pub limit: u64,
}

impl Awaited {
    ghost use Rattle.std.specs.Prelude.{ℕ, ◌++◌};
    ghost use Rattle.ym_text.specs.Waiting.{seconds_text};

    /// That an end waits for it.
    fn text(self) -> &'static str
        ensures { (seconds limit : ℕ) →
            waiting_text self seconds limit ≡ result.now ++ seconds_text seconds limit }
    {
        match self {
            Awaited::Asking => "waiting for the receiver to ask (C)",
            Awaited::C => "waiting for C",
            Awaited::Answer => "waiting for an answer",
            Awaited::Sender => "waiting for the sender",
            Awaited::More => "waiting for more",
        }
    }
}

impl fmt::Display for Waiting {
    ghost output = { λ w. Some (waiting_text w.awaited w.seconds w.limit) };

    fn fmt<W: fmt::Write>(&self, f: &mut fmt::Formatter<W>) -> fmt::Result {
        let text = self.awaited.text();
        let Waiting { seconds, limit, .. } = *self;
        write!(f, "{text}, {seconds} s of {limit}")
    }
}

/// The line that tells what an end waits for. It takes at most so many cells of a terminal.
pub fn waiting_line(alloc: Global, waiting: Waiting, columns: usize) -> Result<String, AllocError>
    ensures { IfOk result (λ line. str_width false (chars (string_bytes line)) ≤ columns) }
{
    let line = format!(in alloc; "{waiting}")?;
    if matches!(waiting.awaited, Awaited::Asking) && columns < line.as_str().width() {
        let short = Waiting {
            awaited: Awaited::C,
            ..waiting
        };
        let line = format!(in alloc; "{short}")?;
        return String::from_str(alloc, prefix(line.as_str(), columns));
    }
    String::from_str(alloc, prefix(line.as_str(), columns))
}
