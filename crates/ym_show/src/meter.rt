//! How far files are, shown to somebody who looks.

use crate::rubbish::Rubbish;
use crate::surplus::Surplus;
use std::alloc::{AllocError, Global};
use std::io::Write;
use std::time::{Clock, Duration, Instant};
use ym_teller::Teller;
use ym_text::{
    Awaited, Came, Coming, EchoMessage, FileMessage, Lately, Progress, Sight, Took, Waiting,
    WholeFile, progress_line, rate_of, waiting_line,
};

/// How long a rate is measured at least, in milliseconds.
const RATE_MS: u64 = 2000;

/// So many milliseconds after the first bytes it is told where none of them were YMODEM.
const RUBBISH_MS: u64 = 10_000;

/// How far a file was at some time.
#[derive(Clone, Copy)]
struct Mark {
    at: Instant,
    done: u64,
}

/// The file that is under way.
#[derive(Drop)]
struct Course {
    name: String,
    length: u64,
    start: Instant,
    /// Between these two the rate is measured: the later one is at most some seconds old.
    older: Mark,
    newer: Mark,
    /// When it was last shown.
    shown: Instant,
    /// Blocks came behind its length.
    has_surplus: bool,
}

/// What an end heard of late.
#[derive(Clone, Copy)]
struct Quiet {
    /// What came since it last got on.
    came: Came,
    /// The same without the delivery that came last.
    before: Came,
    /// What was seen of the other end.
    seen: Sight,
    /// When bytes came for the first time.
    first: Option<Instant>,
    /// When it began to wait: for the first bytes, or for more behind those that came last.
    since: Option<Instant>,
    /// Whether bytes came since then. What it does with them, as to store a file, is no wait.
    has_heard: bool,
    /// When it was last shown whom it waits for.
    shown: Option<Instant>,
}

/// Shows how far each file is, at most ten times a second on a terminal and every ten seconds
/// elsewhere, and a line for each file that is whole. Where nothing comes it shows whom its end
/// waits for.
#[derive(Drop)]
pub struct Meter<'t, E: Write + Drop, C: Clock + Drop> {
    alloc: Global,
    clock: C,
    teller: &'t mut Teller<E>,
    course: Option<Course>,
    quiet: Quiet,
    /// After so many seconds without a byte its end gives up.
    limit: u64,
    /// Whether it was told that the line echoes.
    has_told_echo: bool,
    /// Whether it was told that what comes is no YMODEM.
    has_told_rubbish: bool,
}

/// The milliseconds from one time to a later one.
fn millis_between(start: Instant, end: Instant) -> u64 {
    let millis = end.saturating_duration_since(start).as_millis();
    u64::try_from(millis).unwrap_or(u64::MAX)
}

impl Course {
    /// How far it is now.
    fn progress(&mut self, now: Instant, done: u64, repeats: u64) -> Progress {
        if millis_between(self.newer.at, now) >= RATE_MS {
            self.older = self.newer;
            self.newer = Mark { at: now, done };
        }
        let moved = done.saturating_sub(self.older.done);
        Progress {
            done: done.min(self.length),
            length: self.length,
            rate: rate_of(moved, millis_between(self.older.at, now)),
            repeats,
        }
    }
}

impl<'t, E: Write + Drop, C: Clock + Drop> Meter<'t, E, C> {
    /// Nothing is under way. After so many seconds without a byte its end gives up.
    pub fn new(alloc: Global, clock: C, teller: &'t mut Teller<E>, limit: u64) -> Meter<'t, E, C> {
        Meter {
            alloc,
            clock,
            teller,
            course: None,
            quiet: Quiet {
                came: Came::Nothing,
                before: Came::Nothing,
                seen: Sight::Nothing,
                first: None,
                since: None,
                has_heard: false,
                shown: None,
            },
            limit,
            has_told_echo: false,
            has_told_rubbish: false,
        }
    }

    /// A file begins. Where there is no clock or no memory, it is not shown.
    pub fn begin(&mut self, name: &str, length: u64) {
        self.course = None;
        let (Ok(now), Ok(name)) = (
            Instant::now(&self.clock),
            String::from_str(self.alloc, name),
        ) else {
            return;
        };
        let mark = Mark { at: now, done: 0 };
        self.course = Some(Course {
            name,
            length,
            start: now,
            older: mark,
            newer: mark,
            shown: now,
            has_surplus: false,
        });
    }

    /// So many bytes of it are done, and so many blocks were repeated.
    pub fn advance(&mut self, done: u64, repeats: u64) {
        let Some(course) = &mut self.course else {
            return;
        };
        let Ok(now) = Instant::now(&self.clock) else {
            return;
        };
        if millis_between(course.shown, now) < self.teller.pause_ms() {
            return;
        }
        course.shown = now;
        let progress = course.progress(now, done, repeats);
        let columns = self.teller.look.columns;
        let line = progress_line(self.alloc, course.name.as_str(), progress, columns);
        self.show(line);
    }

    /// Shows a line, where there was memory for it.
    fn show(&mut self, line: Result<String, AllocError>) {
        if let Ok(line) = line {
            self.teller.show(line.as_str());
        }
    }

    /// It is whole.
    pub fn finish(&mut self, repeats: u64) {
        let Some(course) = self.course.take() else {
            return;
        };
        let Ok(now) = Instant::now(&self.clock) else {
            return;
        };
        let took = Took {
            length: course.length,
            millis: millis_between(course.start, now),
            repeats,
        };
        let name = course.name.as_str();
        self.teller.tell(WholeFile { name, took });
        if course.has_surplus {
            let length = course.length;
            self.teller.tell(Surplus { name, length });
        }
    }

    /// How long it is since this time, in milliseconds; or nothing where there is no clock.
    fn millis_since(&self, start: Option<Instant>) -> u64 {
        match (start, Instant::now(&self.clock)) {
            (Some(start), Ok(now)) => millis_between(start, now),
            _ => 0,
        }
    }

    /// Its end waits. That is shown where nothing has come yet, and then as often as a file is
    /// shown, once a second has passed.
    pub fn wait(&mut self, awaited: Awaited) {
        self.look_for_rubbish();
        let is_first = self.quiet.since.is_none();
        self.quiet.before = self.quiet.came;
        if is_first || self.quiet.has_heard {
            self.quiet.since = Instant::now(&self.clock).ok();
            self.quiet.has_heard = false;
        }
        let millis = self.millis_since(self.quiet.since);
        if self.is_due(is_first, millis) {
            self.quiet.shown = Instant::now(&self.clock).ok();
            self.show_waiting(Waiting {
                awaited,
                seconds: (millis / 1000).min(self.limit),
                limit: self.limit,
            });
        }
    }

    /// Whether it is to be shown that its end waits, for so many milliseconds by now.
    fn is_due(&self, is_first: bool, millis: u64) -> bool {
        match self.quiet.shown {
            None if is_first => self.teller.look.at_err,
            None => 1000 <= millis && self.teller.pause_ms() <= millis,
            shown => 1000 <= millis && self.teller.pause_ms() <= self.millis_since(shown),
        }
    }

    /// Shows what it waits for.
    fn show_waiting(&mut self, waiting: Waiting) {
        let columns = self.teller.look.columns;
        self.show(waiting_line(self.alloc, waiting, columns));
    }

    /// These bytes came.
    pub fn hear(&mut self, bytes: &[u8]) {
        self.quiet.came = self.quiet.came.with(bytes);
        self.quiet.has_heard = true;
        self.quiet.shown = None;
        if self.quiet.first.is_none() {
            self.quiet.first = Instant::now(&self.clock).ok();
        }
    }

    /// A delivery has ended. Where other bytes came in it, and nothing whole yet, that is told
    /// once, long before its end gives up: each delivery of them may take half a minute.
    fn look_for_rubbish(&mut self) {
        let Quiet {
            came,
            seen,
            first,
            has_heard,
            ..
        } = self.quiet;
        let is_rubbish = has_heard && matches!(came, Came::Text | Came::Other);
        let is_due = seen == Sight::Nothing && RUBBISH_MS <= self.millis_since(first);
        if is_rubbish && is_due && !self.has_told_rubbish {
            self.has_told_rubbish = true;
            self.teller.tell(Rubbish);
        }
    }

    /// The delivery that came last came before, and was answered then.
    pub fn know_again(&mut self) {
        self.quiet.came = self.quiet.before.with_copy();
    }

    /// The delivery that came last is a block behind the length of its file.
    pub fn pass(&mut self) {
        self.quiet.came = self.quiet.before.with_past();
        if let Some(course) = &mut self.course {
            course.has_surplus = true;
        }
    }

    /// The line echoes. That is told once.
    pub fn echo(&mut self, message: EchoMessage) {
        if !self.has_told_echo {
            self.has_told_echo = true;
            self.teller.tell(message);
        }
    }

    /// What a file's header says is told, where more is to be told.
    pub fn introduce(&mut self, file: Coming<'_>) {
        self.teller.tell_more(file);
    }

    /// Something of the file that is under way is told.
    pub fn tell(&mut self, message: FileMessage<'_>) {
        self.teller.tell(message);
    }

    /// Its end got on.
    pub fn get_on(&mut self) {
        self.quiet.came = Came::Nothing;
        self.quiet.seen = Sight::Peer;
    }

    /// The same of a sender that was asked for a block 0.
    pub fn start(&mut self) {
        let is_first = self.quiet.seen == Sight::Nothing;
        self.get_on();
        if is_first {
            self.quiet.seen = Sight::Begun;
        }
    }

    /// It writes a block again.
    pub fn repeat(&mut self) {
        self.quiet.seen = Sight::Peer;
    }

    /// A block came, which may be damaged: of a sender that names no file, or of another one.
    pub fn meet(&mut self, is_nameless: bool) {
        if self.quiet.seen == Sight::Nothing {
            self.quiet.seen = if is_nameless {
                Sight::Nameless
            } else {
                Sight::Peer
            };
        }
    }

    /// What came since its end last got on, and for how long nothing did.
    pub fn lately(&self) -> Lately {
        let millis = if self.quiet.has_heard {
            0
        } else {
            self.millis_since(self.quiet.since)
        };
        Lately {
            came: self.quiet.came,
            seconds: millis / 1000,
            // ten waits are the limit
            is_silent: self.limit.saturating_mul(200) <= millis,
            seen: self.quiet.seen,
            slow: None,
        }
    }

    /// No file is shown any more.
    pub fn end(&mut self) {
        self.teller.end();
        self.course = None;
    }
}
