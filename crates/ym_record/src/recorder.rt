//! A record that is made while a line is in use.

ghost use Rattle.std.specs.Prelude.{◌≡◌, [], true, false, Some, None, IfOk, is_some, option_map};
ghost use Rattle.ym_record.specs.RecordGrowth.{GoesOnBy, SaysWhy};
ghost use Rattle.ym_capture.specs.RecordText.{line_of};

use crate::append::{Append, empty};
use crate::lines::Lines;
use std::alloc::{AllocError, Global};
use std::fs::File;
use std::io;
use ym_told::Direction;

/// A record that is made while a line is in use, or none. Where a write of it fails it ends, and
/// says why; the line goes on.
#[derive(Drop)]
pub struct Recorder<A: Append + Drop> {
    /// What the record is written to, while one is made.
    to: Option<A>,
    lines: Lines,
    /// Why it ended before its line did.
    fault: Option<io::Error>,
}

impl<A: Append + Drop> Recorder<A> {
    /// No record is made.
    pub fn none(alloc: Global) -> Recorder<A>
        ensures { is_some result.to ≡ false }
    {
        Recorder {
            to: None,
            lines: Lines::none(alloc),
            fault: None,
        }
    }

    /// One is made, and written to this.
    pub fn new(alloc: Global, to: A) -> Result<Recorder<A>, AllocError>
        ensures to { IfOk result (λ it. it.to ≡ Some to) }
        ensures none_waits { IfOk result (λ it. it.lines ≡ []) }
        ensures sound { IfOk result (λ it. it.fault ≡ None) }
    {
        let lines = Lines::new(alloc)?;
        Ok(Recorder {
            to: Some(to),
            lines,
            fault: None,
        })
    }

    /// Whether one is made still.
    pub fn is_kept(&self) -> bool
        ensures { result ≡ is_some self.now.to }
    {
        self.to.is_some()
    }

    /// Why it ended before its line did.
    pub fn fault(&self) -> Option<io::Error>
        ensures { result ≡ self.now.fault }
    {
        self.fault
    }

    /// It ends, for this reason.
    fn end(&mut self, why: io::Error)
        ensures ended { self.new.to ≡ None }
        ensures lines { self.new.lines ≡ self.old.lines }
        ensures why { self.new.fault ≡ Some why }
    {
        self.to = None;
        self.fault = Some(why);
    }

    /// Records a piece: these bytes passed this way so many microseconds after it began.
    pub fn keep(&mut self, micros: u64, way: Direction, bytes: &[u8])
        ensures grown { GoesOnBy (line_of micros way bytes.now)
            (option_map A.taken self.old.to) self.old.lines
            (option_map A.taken self.new.to) self.new.lines }
        ensures why { SaysWhy (is_some self.old.to) (is_some self.new.to) self.new.fault }
    {
        if self.to.is_none() {
            return;
        }
        if let Err(error) = self.lines.keep(micros, way, bytes) {
            self.end(io::Error::from(error));
        }
    }

    /// Writes what waits, so that it is there also if the program is killed.
    pub fn write_out(&mut self)
        ensures same { GoesOnBy []
            (option_map A.taken self.old.to) self.old.lines
            (option_map A.taken self.new.to) self.new.lines }
        ensures none_waits { is_some self.new.to ≡ true → self.new.lines ≡ [] }
        ensures why { SaysWhy (is_some self.old.to) (is_some self.new.to) self.new.fault }
    {
        let written = match &mut self.to {
            Some(to) => self.lines.write_to(to),
            None => return,
        };
        if let Err(error) = written {
            self.end(error);
        }
    }
}

impl Recorder<File> {
    /// What its file had before goes, where one is made.
    pub(crate) fn make_anew(&mut self)
        ensures lines { self.new.lines ≡ self.old.lines }
        ensures none { is_some self.old.to ≡ false → is_some self.new.to ≡ false }
        ensures why { SaysWhy (is_some self.old.to) (is_some self.new.to) self.new.fault }
    {
        let emptied = match &self.to {
            Some(file) => empty(file),
            None => return,
        };
        if let Err(error) = emptied {
            self.end(error);
        }
    }
}
