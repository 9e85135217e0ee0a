//! The lines of a report.

ghost use Rattle.std.specs.Prelude.{◌≡◌, ◌↔◌, true};
ghost use Rattle.ym_judge.specs.Reporting.{IsToAvoid, counted, no_sums};

use crate::act::Act;
use crate::case::Case;
use crate::finding::Finding;
use std::fmt;

/// A case that was tried, with the step that tells most: the first at which the peer did something
/// else than the reference, or that of the case.
#[derive(Clone, Copy)]
pub struct Tried {
    /// The case.
    pub case: Case,
    /// What the reference does there.
    pub asked: Act,
    /// What the peer did.
    pub did: Act,
    /// After how many tenths of a second.
    pub tenths: u64,
    /// What comes of it.
    pub finding: Finding,
    /// The session came to the end that it has with the reference.
    pub finished: bool,
    /// The peer cancelled right behind an ACK.
    pub takes_back: bool,
}

impl Tried {
    /// Whether a user has to avoid it: data is lost, nothing is answered, or the session stops
    /// short.
    pub fn is_to_avoid(&self) -> bool
        ensures { (result ≡ true) ↔ IsToAvoid self.now }
    {
        match self.finding {
            Finding::Loses | Finding::NoAnswer => true,
            Finding::Differs => !self.finished,
            Finding::Conforms | Finding::NotTried => false,
        }
    }
}

/// Tenths of a second, in seconds.
#[derive(Clone, Copy)]
struct Seconds(u64);

impl fmt::Display for Seconds {
    ghost use Rattle.std.specs.Prelude.{Some};
    ghost use Rattle.ym_judge.specs.JudgeText.{seconds_text};

    ghost output = { λ it. Some (seconds_text it.0) };

    fn fmt<W: fmt::Write>(&self, f: &mut fmt::Formatter<W>) -> fmt::Result {
        let whole = self.0 / 10;
        let tenths = self.0 % 10;
        write!(f, "{whole}.{tenths}")
    }
}

/// What was found, in one word.
#[derive(Clone, Copy)]
struct FindingWord(Finding);

impl FindingWord {
    ghost use Rattle.ym_judge.specs.JudgeText.{finding_word};

    /// That word.
    fn text(self) -> &'static str
        ensures { result.now ≡ finding_word self.0 }
    {
        match self.0 {
            Finding::Conforms => "conforms",
            Finding::Differs => "differs",
            Finding::Loses => "loses-data",
            Finding::NoAnswer => "no-answer",
            Finding::NotTried => "not-tried",
        }
    }
}

impl fmt::Display for FindingWord {
    ghost use Rattle.std.specs.Prelude.{Some};
    ghost use Rattle.ym_judge.specs.JudgeText.{finding_word};

    ghost output = { λ it. Some (finding_word it.0) };

    fn fmt<W: fmt::Write>(&self, f: &mut fmt::Formatter<W>) -> fmt::Result {
        f.write_str(self.text())
    }
}

/// The line of a case, for people.
#[derive(Clone, Copy)]
pub struct CaseLine(pub Tried);

impl fmt::Display for CaseLine {
    ghost use Rattle.std.specs.Prelude.{Some};
    ghost use Rattle.ym_judge.specs.JudgeText.{case_line};

    ghost output = { λ it. Some (case_line it.0) };

    fn fmt<W: fmt::Write>(&self, f: &mut fmt::Formatter<W>) -> fmt::Result {
        let case = self.0.case;
        let asked = self.0.asked;
        let did = self.0.did;
        let seconds = Seconds(self.0.tenths);
        let finding = self.0.finding;
        write!(
            f,
            "{case}: asks for {asked}; did {did} after {seconds} s: {finding}"
        )
    }
}

/// Whether something is so, in one word.
#[derive(Clone, Copy)]
struct Truth(bool);

impl Truth {
    ghost use Rattle.ym_judge.specs.JudgeText.{truth_text};

    /// That word.
    fn text(self) -> &'static str
        ensures { result.now ≡ truth_text self.0 }
    {
        if self.0 { "true" } else { "false" }
    }
}

impl fmt::Display for Truth {
    ghost use Rattle.std.specs.Prelude.{Some};
    ghost use Rattle.ym_judge.specs.JudgeText.{truth_text};

    ghost output = { λ it. Some (truth_text it.0) };

    fn fmt<W: fmt::Write>(&self, f: &mut fmt::Formatter<W>) -> fmt::Result {
        f.write_str(self.text())
    }
}

/// What was asked for and done in a case, for machines.
#[derive(Clone, Copy)]
struct JsonActs(Tried);

impl fmt::Display for JsonActs {
    ghost use Rattle.std.specs.Prelude.{Some};
    ghost use Rattle.ym_judge.specs.JudgeText.{json_acts};

    ghost output = { λ it. Some (json_acts it.0) };

    fn fmt<W: fmt::Write>(&self, f: &mut fmt::Formatter<W>) -> fmt::Result {
        let case = self.0.case;
        let asked = self.0.asked;
        let did = self.0.did;
        write!(
            f,
            "\"case\":\"{case}\",\"asks\":\"{asked}\",\"did\":\"{did}\""
        )
    }
}

/// What came of a case, for machines.
#[derive(Clone, Copy)]
struct JsonFound(Tried);

impl fmt::Display for JsonFound {
    ghost use Rattle.std.specs.Prelude.{Some};
    ghost use Rattle.ym_judge.specs.JudgeText.{json_found};

    ghost output = { λ it. Some (json_found it.0) };

    fn fmt<W: fmt::Write>(&self, f: &mut fmt::Formatter<W>) -> fmt::Result {
        let seconds = Seconds(self.0.tenths);
        let finding = FindingWord(self.0.finding);
        let finished = Truth(self.0.finished);
        let takes_back = Truth(self.0.takes_back);
        write!(
            f,
            "\"seconds\":{seconds},\"finding\":\"{finding}\",\"finished\":{finished},\
             \"takes_back\":{takes_back}"
        )
    }
}

/// The line of a case for machines: an object of JSON.
#[derive(Clone, Copy)]
pub struct CaseJson(pub Tried);

impl fmt::Display for CaseJson {
    ghost use Rattle.std.specs.Prelude.{Some};
    ghost use Rattle.ym_judge.specs.JudgeText.{case_json};

    ghost output = { λ it. Some (case_json it.0) };

    fn fmt<W: fmt::Write>(&self, f: &mut fmt::Formatter<W>) -> fmt::Result {
        let acts = JsonActs(self.0);
        let found = JsonFound(self.0);
        write!(f, "{{{acts},{found}}}")
    }
}

/// The line that asks for a peer.
#[derive(Clone, Copy)]
pub struct StartLine(pub Case);

impl fmt::Display for StartLine {
    ghost use Rattle.std.specs.Prelude.{Some};
    ghost use Rattle.ym_judge.specs.JudgeText.{start_line};

    ghost output = { λ it. Some (start_line it.0) };

    fn fmt<W: fmt::Write>(&self, f: &mut fmt::Formatter<W>) -> fmt::Result {
        let case = self.0;
        write!(f, "start the peer: {case}")
    }
}

/// Why a case is to be avoided.
#[derive(Clone, Copy)]
struct Harm(Tried);

impl Harm {
    ghost use Rattle.ym_judge.specs.JudgeText.{harm_text};

    /// What it does.
    fn text(self) -> &'static str
        ensures { result.now ≡ harm_text self.0.finding self.0.takes_back }
    {
        match (self.0.finding, self.0.takes_back) {
            (Finding::Loses, _) => "it loses data",
            (Finding::NoAnswer, _) => "it does not answer",
            (_, true) => "it takes an ACK back",
            (_, false) => "it does not come to the end",
        }
    }
}

impl fmt::Display for Harm {
    ghost use Rattle.std.specs.Prelude.{Some};
    ghost use Rattle.ym_judge.specs.JudgeText.{harm_text};

    ghost output = { λ it. Some (harm_text it.0.finding it.0.takes_back) };

    fn fmt<W: fmt::Write>(&self, f: &mut fmt::Formatter<W>) -> fmt::Result {
        f.write_str(self.text())
    }
}

/// The line of a case that a user has to avoid.
#[derive(Clone, Copy)]
pub struct Avoided(pub Tried);

impl fmt::Display for Avoided {
    ghost use Rattle.std.specs.Prelude.{Some};
    ghost use Rattle.ym_judge.specs.JudgeText.{avoid_line};

    ghost output = { λ it. Some (avoid_line it.0) };

    fn fmt<W: fmt::Write>(&self, f: &mut fmt::Formatter<W>) -> fmt::Result {
        let case = self.0.case;
        let harm = Harm(self.0);
        write!(f, "avoid {case}: {harm}")
    }
}

/// How many cases came out so.
#[derive(Clone, Copy)]
pub struct Sums {
    /// They conform.
    pub conform: u64,
    /// They differ, and harm nothing.
    pub differ: u64,
    /// They lose data.
    pub lose: u64,
    /// They were not tried, or nothing was answered.
    pub left: u64,
}

impl Sums {
    /// No case.
    pub fn new() -> Sums
        ensures { result ≡ no_sums }
    {
        Sums {
            conform: 0,
            differ: 0,
            lose: 0,
            left: 0,
        }
    }

    /// One case more.
    pub fn with(self, finding: Finding) -> Sums
        ensures { result ≡ counted finding self }
    {
        match finding {
            Finding::Conforms => Sums {
                conform: self.conform.saturating_add(1),
                ..self
            },
            Finding::Differs => Sums {
                differ: self.differ.saturating_add(1),
                ..self
            },
            Finding::Loses => Sums {
                lose: self.lose.saturating_add(1),
                ..self
            },
            Finding::NoAnswer | Finding::NotTried => Sums {
                left: self.left.saturating_add(1),
                ..self
            },
        }
    }
}

impl fmt::Display for Sums {
    ghost use Rattle.std.specs.Prelude.{Some};
    ghost use Rattle.ym_judge.specs.JudgeText.{sums_line};

    ghost output = { λ it. Some (sums_line it) };

    fn fmt<W: fmt::Write>(&self, f: &mut fmt::Formatter<W>) -> fmt::Result {
        let conform = self.conform;
        let differ = self.differ;
        let lose = self.lose;
        let left = self.left;
        write!(
            f,
            "{conform} conform, {differ} differ (harmless), {lose} lose data, {left} left open"
        )
    }
}
