//! What comes of a case.

ghost use Rattle.std.specs.Prelude.{◌≡◌, Some};
ghost use Rattle.ym_judge.specs.JudgeText.{finding_text};

use std::fmt;

/// What comes of a case.
#[derive(Clone, Copy)]
pub enum Finding {
    /// The peer does at each step what the reference does.
    Conforms,
    /// It does something else, and what it tells of the files is true.
    Differs,
    /// It takes for done what is not there, or stores another file.
    Loses,
    /// It never answered.
    NoAnswer,
    /// The session never came to the place of the case.
    NotTried,
}

impl Finding {
    /// What it is, in words.
    fn text(self) -> &'static str
        ensures { result.now ≡ finding_text self }
    {
        match self {
            Finding::Conforms => "conforms",
            Finding::Differs => "differs (harmless)",
            Finding::Loses => "loses data",
            Finding::NoAnswer => "no answer",
            Finding::NotTried => "not tried",
        }
    }
}

impl fmt::Display for Finding {
    ghost output = { λ finding. Some (finding_text finding) };

    fn fmt<W: fmt::Write>(&self, f: &mut fmt::Formatter<W>) -> fmt::Result {
        f.write_str(self.text())
    }
}
