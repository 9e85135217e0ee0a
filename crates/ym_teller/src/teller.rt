//! Who is told what the program does.

ghost use Rattle.std.specs.Prelude.{◌≡◌, ◌&&◌, ◌||◌, not, false};

use std::fmt::Display;
use std::io;
use std::io::Write;
use unicode_width::UnicodeWidthStr;

/// How many milliseconds pass between two showings of a line that is rewritten in place, and of one
/// that is not.
const LIVE_MS: u64 = 100;

const LINES_MS: u64 = 10_000;

/// Where somebody looks.
#[derive(Clone, Copy)]
pub struct Look {
    /// Standard error is a terminal.
    pub at_err: bool,
    /// So many cells of a line are shown there.
    pub columns: usize,
    /// So many cells it has for certain. Else the terminal is asked to cut a line in place where
    /// its own ends.
    pub is_exact: bool,
}

/// What keeps a terminal from going on in the next line, and what ends that.
const NO_WRAP: &str = "\u{1b}[?7l";

const WRAP: &str = "\u{1b}[?7h";

impl Look {
    /// What stands around a line that is rewritten in place.
    fn marks(self) -> (&'static str, &'static str) {
        if self.is_exact {
            ("", "")
        } else {
            (NO_WRAP, WRAP)
        }
    }
}

/// Tells lines to somebody who looks at a writer, or nothing.
#[derive(Drop)]
pub struct Teller<E: Write + Drop> {
    /// Where it tells.
    pub err: E,
    /// Where somebody looks.
    pub look: Look,
    /// Whether it tells anything.
    pub is_loud: bool,
    /// Whether it tells what is told by `--verbose` alone.
    pub is_verbose: bool,
    /// How many cells the line takes that is rewritten in place.
    pub standing: usize,
}

impl<E: Write + Drop> Teller<E> {
    /// One that tells to this writer, where that is a terminal.
    pub fn new(err: E, look: Look) -> Teller<E>
        ensures { result ≡ record {
          err = err;
          look = look;
          is_loud = look.at_err;
          is_verbose = false;
          standing = 0;
        } }
    {
        Teller {
            err,
            look,
            is_loud: look.at_err,
            is_verbose: false,
            standing: 0,
        }
    }

    /// Does as the flags `--verbose` and `--quiet` say, of which the second one wins.
    pub fn heed(&mut self, is_verbose: bool, is_quiet: bool)
        ensures loud { self.new.is_loud ≡ not is_quiet && (self.old.is_loud || is_verbose) }
        ensures verbose { self.new.is_verbose ≡ not is_quiet && is_verbose }
        ensures rest { self.new ≡ record self.old {
          is_loud = self.new.is_loud;
          is_verbose = self.new.is_verbose;
        } }
    {
        self.is_loud = !is_quiet && (self.is_loud || is_verbose);
        self.is_verbose = !is_quiet && is_verbose;
    }

    /// How many milliseconds pass between two showings of the same file.
    pub fn pause_ms(&self) -> u64 {
        if self.look.at_err { LIVE_MS } else { LINES_MS }
    }

    /// Takes away the line that is rewritten in place.
    fn clear(&mut self) -> io::Result<()>
        ensures loud { self.new.is_loud ≡ self.old.is_loud }
        ensures look { self.new.look ≡ self.old.look }
    {
        let width = self.standing;
        self.standing = 0;
        if width == 0 {
            return Ok(());
        }
        let (before, behind) = self.look.marks();
        write!(self.err, "{before}\r{:width$}\r{behind}", "")
    }

    /// Tells a line. Where it cannot be written it is lost: it is no part of what the program is
    /// asked to do.
    pub fn tell<D: Display + Drop>(&mut self, text: D)
        ensures quiet { self.old.is_loud ≡ false → self.new ≡ self.old }
        ensures loud { self.new.is_loud ≡ self.old.is_loud }
        ensures look { self.new.look ≡ self.old.look }
    {
        if self.is_loud && self.clear().is_ok() {
            let _ = writeln!(self.err, "{text}").and_then(|()| self.err.flush());
        }
    }

    /// Tells a line that is told by `--verbose` alone, also on a terminal.
    pub fn tell_more<D: Display + Drop>(&mut self, text: D)
        ensures unasked { self.old.is_verbose ≡ false → self.new ≡ self.old }
        ensures loud { self.new.is_loud ≡ self.old.is_loud }
        ensures look { self.new.look ≡ self.old.look }
    {
        if self.is_verbose {
            self.tell(text);
        }
    }

    /// Shows a line in the place of the one that was shown last, on a terminal; elsewhere it tells
    /// it.
    pub fn show(&mut self, line: &str)
        ensures quiet { self.old.is_loud ≡ false → self.new ≡ self.old }
        ensures loud { self.new.is_loud ≡ self.old.is_loud }
        ensures look { self.new.look ≡ self.old.look }
    {
        if !self.is_loud {
            return;
        }
        if !self.look.at_err {
            return self.tell(line);
        }
        let cells = line.width();
        let rest = self.standing.saturating_sub(cells);
        self.standing = cells;
        let (before, behind) = self.look.marks();
        let _ = write!(self.err, "{before}\r{line}{:rest$}{behind}", "").and_then(|()| self
            .err
            .flush());
    }

    /// Ends the showing of a file: what is told next stands in a line of its own.
    pub fn end(&mut self)
        ensures quiet { self.old.is_loud ≡ false → self.new ≡ self.old }
        ensures loud { self.new.is_loud ≡ self.old.is_loud }
        ensures look { self.new.look ≡ self.old.look }
    {
        if self.is_loud {
            let _ = self.clear().and_then(|()| self.err.flush());
        }
    }
}
