//! What becomes of what this end writes, or of what it would hear.

ghost use Rattle.std.specs.Prelude.{◌≡◌, Some};
ghost use Rattle.ym_judge.specs.JudgeText.{twist_text};

use std::fmt;

/// What becomes of a frame or of an answer.
#[derive(Clone, Copy, PartialEq, Eq)]
pub enum Twist {
    /// It is not written.
    Lost,
    /// Its last byte is another one.
    Damaged,
    /// Each byte is another one.
    Garbled,
    /// Half of it is written.
    Cut,
    /// It is written twice.
    Doubled,
    /// It is written after a pause.
    Late,
    /// Three other bytes come before it.
    Junk,
    /// One CAN comes before it.
    LoneCan,
    /// CAN CAN is written in its place.
    Cancel,
    /// Its number is five more.
    Misnumbered,
    /// An EOT is written in its place.
    Early,
    /// What the peer answers to it is not heard.
    AnswerLost,
    /// What the peer wrote before it is not heard.
    Unheard,
    /// NAK is written in its place.
    Refused,
    /// C is written in its place.
    Asked,
    /// ACK is written in its place.
    Taken,
    /// NAK is written behind it.
    Behind,
    /// The C of its answer has to come with the ACK.
    Prompt,
}

impl Twist {
    /// What becomes of it, in words.
    fn text(self) -> &'static str
        ensures { result.now ≡ twist_text self }
    {
        match self {
            Twist::Lost => "lost",
            Twist::Damaged => "damaged",
            Twist::Garbled => "garbled",
            Twist::Cut => "cut",
            Twist::Doubled => "doubled",
            Twist::Late => "late",
            Twist::Junk => "behind junk",
            Twist::LoneCan => "behind one CAN",
            Twist::Cancel => "CAN CAN in its place",
            Twist::Misnumbered => "a wrong number",
            Twist::Early => "an early EOT in its place",
            Twist::AnswerLost => "its answer lost",
            Twist::Unheard => "as if nothing was heard",
            Twist::Refused => "NAK in its place",
            Twist::Asked => "C in its place",
            Twist::Taken => "ACK in its place",
            Twist::Behind => "NAK behind it",
            Twist::Prompt => "C with its ACK",
        }
    }
}

impl fmt::Display for Twist {
    ghost output = { λ twist. Some (twist_text twist) };

    fn fmt<W: fmt::Write>(&self, f: &mut fmt::Formatter<W>) -> fmt::Result {
        f.write_str(self.text())
    }
}
