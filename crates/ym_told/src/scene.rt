//! What was told so far, and what is told next.

ghost use Rattle.std.specs.Prelude.{◌≡◌, IfOk, string_bytes};
ghost use Rattle.ym_told.specs.Scenes.{first_scene, scene_behind, scene_words, line_words_in, run_after};

use crate::line::{Telling, line_of};
use crate::moment::CaptureMoment;
use crate::prefix::BufferedPrefix;
use crate::run::{Run, RunEnd};
use crate::standing::BothStanding;
use crate::stated::Stretch;
use crate::way::Direction;
use std::alloc::{AllocError, Global};
use std::fmt;

/// A line, with its moment and its way.
#[derive(Clone, Copy)]
pub struct Dated {
    /// When it was over.
    pub at: CaptureMoment,
    /// Which end wrote it.
    pub way: Direction,
    /// What is told.
    pub line: Telling,
}

impl fmt::Display for Dated {
    ghost use Rattle.std.specs.Prelude.{Some};
    ghost use Rattle.ym_told.specs.LineWords.{told_words};

    ghost output = { λ told. Some (told_words told) };

    fn fmt<W: fmt::Write>(&self, f: &mut fmt::Formatter<W>) -> fmt::Result {
        let at = self.at;
        let way = self.way;
        let line = self.line;
        write!(f, "{at}{way}{line}")
    }
}

/// What was told so far, as far as what comes is told by it.
#[derive(Clone, Copy)]
pub struct Scene {
    /// Where both ends stand.
    pub standing: BothStanding,
    /// The run that was told last.
    pub run: Run,
    /// The moment.
    pub moment: CaptureMoment,
}

impl Scene {
    /// Nothing was told.
    pub fn new() -> Scene
        ensures { result ≡ first_scene }
    {
        Scene {
            standing: BothStanding::new(),
            run: Run::none(),
            moment: CaptureMoment(None),
        }
    }

    /// What tells this stretch of this way: a line, or more of a run.
    pub fn text(
        &self,
        alloc: Global,
        way: Direction,
        stretch: &Stretch<'_>,
    ) -> Result<String, AllocError>
        ensures { IfOk result (λ text. string_bytes text
            ≡ scene_words self.now way stretch.entry.now.prefix stretch.entry.now.bytes.now
            stretch.entry.now.file) }
    {
        let number = stretch.bytes.get(1).copied().unwrap_or(0);
        match line_of(&self.standing, stretch.prefix, number) {
            None => self.run.part(alloc, self.moment, way, stretch.bytes),
            Some(line) => self.line_text(alloc, way, line, stretch),
        }
    }

    /// The line that tells it, behind the end of a run.
    fn line_text(
        &self,
        alloc: Global,
        way: Direction,
        line: Telling,
        stretch: &Stretch<'_>,
    ) -> Result<String, AllocError>
        ensures { IfOk result (λ text. string_bytes text
            ≡ line_words_in self.now way line stretch.entry.now.file) }
    {
        let end = RunEnd(self.run);
        let told = Dated {
            at: self.moment,
            way,
            line,
        };
        let file = &stretch.file;
        format!(in alloc; "{end}{told}\n{file}")
    }

    /// The scene behind this stretch of this way.
    pub fn behind(&self, way: Direction, stretch: &Stretch<'_>) -> Scene
        ensures { result
            ≡ scene_behind self.now way stretch.entry.now.prefix stretch.entry.now.bytes.now
            stretch.entry.now.file }
    {
        let stated = stretch.file.stated();
        Scene {
            standing: self
                .standing
                .behind(way, stretch.prefix, stretch.bytes, stated),
            run: self.run_after(way, stretch.prefix, stretch.bytes),
            moment: self.moment,
        }
    }

    /// The run that was told last, behind a front with these bytes.
    fn run_after(&self, way: Direction, prefix: BufferedPrefix, bytes: &[u8]) -> Run
        ensures { result ≡ run_after self.now.run way prefix bytes.now }
    {
        match prefix {
            BufferedPrefix::Run(_) => self.run.behind(way, bytes),
            BufferedPrefix::Zmodem
            | BufferedPrefix::Cut(_)
            | BufferedPrefix::Sent(_)
            | BufferedPrefix::Answer(_) => Run::none(),
        }
    }
}
