//! How far a file is.

use crate::texts::all_show;
use std::io;
use std::io::Write;
use ym_teller::{Look, Teller};
use ym_text::{Progress, ShownOut, Took, WholeFile, progress_line};

const HALF: Progress = Progress {
    done: 14500,
    length: 29000,
    rate: Some(1100),
    repeats: 0,
};

/// Half of a file, with three repeats.
const AGAIN: Progress = Progress { repeats: 3, ..HALF };

/// A file of no bytes.
const NOTHING: Progress = Progress {
    done: 0,
    length: 0,
    rate: Some(0),
    repeats: 0,
};

/// A file's name, how far it is, and on how many columns it is told, and the line that tells it.
type Line<'a> = (&'a str, Progress, usize, &'a str);

/// Whether this is the line of a file of this name, on so many columns.
fn has_line(rt: &HostRuntime, name: &str, progress: Progress, columns: usize, want: &str) -> bool {
    match progress_line(rt.alloc(), name, progress, columns) {
        Ok(line) => line.as_str() == want,
        Err(_) => false,
    }
}

/// Whether each line of a table is told so.
fn has_lines(rt: &HostRuntime, lines: &[Line<'_>]) -> bool {
    for (name, progress, columns, want) in lines {
        if !has_line(rt, name, *progress, *columns, want) {
            return false;
        }
    }
    true
}

/// Lines on a wide screen.
static LINES: [Line; 6] = [
    (
        "a",
        HALF,
        80,
        "a: 50%, 14500 of 29000 bytes, 1100 B/s, 0:13 left",
    ),
    (
        "a",
        AGAIN,
        80,
        "a: 50%, 14500 of 29000 bytes, 1100 B/s, 0:13 left, 3 repeated",
    ),
    (
        "a",
        Progress {
            rate: Some(0),
            ..HALF
        },
        80,
        "a: 50%, 14500 of 29000 bytes, 0 B/s",
    ),
    (
        "a",
        Progress {
            rate: Some(123456),
            ..HALF
        },
        80,
        "a: 50%, 14500 of 29000 bytes, 123 kB/s, 0:00 left",
    ),
    (
        "a",
        Progress {
            rate: None,
            ..AGAIN
        },
        80,
        "a: 50%, 14500 of 29000 bytes, 3 repeated",
    ),
    ("a", NOTHING, 80, "a: 100%, 0 of 0 bytes, 0 B/s"),
];

#[test]
fn lines(rt: HostRuntime) {
    assert!(rt; has_lines(&rt, &LINES));
}

/// What gives way in a line, as it gets narrower.
static NARROW_LINES: [Line; 9] = [
    (
        "firmware-2.bin",
        AGAIN,
        80,
        "firmware-2.bin: 50%, 14500 of 29000 bytes, 1100 B/s, 0:13 left, 3 repeated",
    ),
    (
        "firmware-2.bin",
        AGAIN,
        72,
        "firmware-2.b: 50%, 14500 of 29000 bytes, 1100 B/s, 0:13 left, 3 repeated",
    ),
    (
        "firmware-2.bin",
        AGAIN,
        70,
        "firmware-2.bin: 50%, 1100 B/s, 0:13 left, 3 repeated",
    ),
    (
        "firmware-2.bin",
        AGAIN,
        39,
        "firmware-2.bi: 50%, 1100 B/s, 0:13 left",
    ),
    ("firmware-2.bin", AGAIN, 37, "firmware-2.bin: 50%, 1100 B/s"),
    ("firmware-2.bin", AGAIN, 20, "firmware-2.bin: 50%"),
    ("firmware-2.bin", AGAIN, 10, "firmw: 50%"),
    ("firmware-2.bin", AGAIN, 3, ": 5"),
    ("firmware-2.bin", AGAIN, 0, ""),
];

#[test]
fn narrow_lines(rt: HostRuntime) {
    assert!(rt; has_lines(&rt, &NARROW_LINES));
}

/// A wide character takes two cells, and a combining mark none.
static CELLS: [Line; 3] = [
    ("日本語の名前.bin", HALF, 17, "日本語の名前: 50%"),
    ("日本語の名前.bin", HALF, 16, "日本語の名: 50%"),
    ("e\u{301}te\u{301}.bin", HALF, 8, "e\u{301}te\u{301}: 50%"),
];

#[test]
fn cells_of_names(rt: HostRuntime) {
    assert!(rt; has_lines(&rt, &CELLS));
}

/// A file of 29,000 bytes that took no time.
const AT_ONCE: Took = Took {
    length: 29000,
    millis: 0,
    repeats: 0,
};

/// Whole files.
static WHOLE: [(WholeFile, &str); 5] = [
    (
        WholeFile {
            name: "a",
            took: Took {
                millis: 2600,
                ..AT_ONCE
            },
        },
        "a: 29000 bytes in 2.6 s, 11 kB/s",
    ),
    (
        WholeFile {
            name: "a",
            took: Took {
                millis: 29000,
                repeats: 2,
                ..AT_ONCE
            },
        },
        "a: 29000 bytes in 29.0 s, 1000 B/s, 2 repeated",
    ),
    (
        WholeFile {
            name: "a",
            took: AT_ONCE,
        },
        "a: 29000 bytes in 0.0 s",
    ),
    (
        WholeFile {
            name: "a",
            took: Took {
                millis: 249,
                repeats: 1,
                ..AT_ONCE
            },
        },
        "a: 29000 bytes in 0.2 s, 1 repeated",
    ),
    (
        WholeFile {
            name: "a",
            took: Took {
                millis: 250,
                ..AT_ONCE
            },
        },
        "a: 29000 bytes in 0.2 s, 116 kB/s",
    ),
];

#[test]
fn whole_files(rt: HostRuntime) {
    assert!(rt; all_show(&rt, &WHOLE));
}

/// A file of one byte.
const LITTLE: Took = Took {
    length: 1,
    ..AT_ONCE
};

/// A name that would clear the screen is made safe, of a file that is under way and of a whole one.
static ODD_LINE: [Line; 1] = [("a\u{1b}[2J", HALF, 30, "a\\u{1b}[2J: 50%, 1100 B/s")];

static ODD_WHOLE: [(WholeFile, &str); 1] = [(
    WholeFile {
        name: "a\u{1b}[2J",
        took: LITTLE,
    },
    "a\\u{1b}[2J: 1 bytes in 0.0 s",
)];

#[test]
fn odd_names(rt: HostRuntime) {
    assert!(rt; has_lines(&rt, &ODD_LINE) && all_show(&rt, &ODD_WHOLE));
}

/// A writer that knows how much of what was written has been handed on.
#[derive(Drop)]
struct Pending {
    written: Vec<u8>,
    handed_on: usize,
}

impl Write for Pending {
    fn write(&mut self, buf: &[u8]) -> io::Result<usize> {
        self.written.extend_from_slice(buf)?;
        Ok(buf.len())
    }

    fn flush(&mut self) -> io::Result<()> {
        self.handed_on = self.written.len();
        Ok(())
    }
}

impl Pending {
    fn new(rt: &HostRuntime) -> Pending {
        Pending {
            written: Vec::new(rt.alloc()),
            handed_on: 0,
        }
    }

    /// Whether something was written, and all of it was handed on.
    fn is_there(&self) -> bool {
        0 < self.handed_on && self.handed_on == self.written.len()
    }
}

/// A look at an error stream, of a terminal or not.
fn look(at_err: bool, is_exact: bool) -> Look {
    Look {
        at_err,
        columns: 80,
        is_exact,
    }
}

/// Whether all is there at once that a teller tells, shows and ends with.
fn is_there_at_once(rt: &HostRuntime, at_err: bool) -> bool {
    let mut teller = Teller::new(Pending::new(rt), look(at_err, true));
    teller.heed(true, false);
    tells(&mut teller) && shows_half(&mut teller) && ends(&mut teller)
}

/// Whether a line is there at once that a teller tells.
fn tells(teller: &mut Teller<Pending>) -> bool {
    teller.tell("connected");
    teller.err.is_there()
}

/// Whether a line is there at once that a teller shows.
fn shows_half(teller: &mut Teller<Pending>) -> bool {
    teller.show("half");
    teller.err.is_there()
}

/// Whether all is there at once at the end.
fn ends(teller: &mut Teller<Pending>) -> bool {
    teller.end();
    teller.err.is_there()
}

/// What is told or shown is there at once, and so is what a shown line gives way to.
#[test]
fn nothing_waits_to_be_told(rt: HostRuntime) {
    assert!(rt; is_there_at_once(&rt, false));
    assert!(rt; is_there_at_once(&rt, true));
}

/// Prints a line and another one.
fn print(rt: &HostRuntime, to: &mut Pending, is_terminal: bool) -> io::Result<()> {
    let mut out = ShownOut::new(rt.alloc(), to, is_terminal);
    out.write_all(b"file a\x1b[2J 5\nend\n")?;
    out.flush()
}

/// Whether these bytes are printed, and are there at once.
fn prints(rt: &HostRuntime, is_terminal: bool, want: &[u8]) -> bool {
    let mut to = Pending::new(rt);
    print(rt, &mut to, is_terminal).is_ok() && to.written.as_slice() == want && to.is_there()
}

/// What is printed goes to a terminal with escapes and to others as it is, and is there at once.
#[test]
fn what_is_printed(rt: HostRuntime) {
    assert!(rt; prints(&rt, true, b"file a\\u{1b}[2J 5\nend\n"));
    assert!(rt; prints(&rt, false, b"file a\x1b[2J 5\nend\n"));
}

/// Whether a teller writes this on a terminal that showed two lines in place, and then told one.
fn gives_way(rt: &HostRuntime, first: &str, is_exact: bool, want: &[u8]) -> bool {
    let mut teller = Teller::new(Vec::new(rt.alloc()), look(true, is_exact));
    teller.show(first);
    teller.show("d");
    teller.tell("whole");
    teller.err.as_slice() == want
}

/// A line that is rewritten in place gives way to one that stays, whichever cells it takes.
#[test]
fn lines_in_place(rt: HostRuntime) {
    assert!(rt; gives_way(&rt, "abc", true, b"\rabc\rd  \r \rwhole\n"));
    let wide = b"\r\xe6\x97\xa5\xe6\x9c\xac\rd   \r \rwhole\n";
    assert!(rt; gives_way(&rt, "日本", true, wide));
    let marked = b"\x1b[?7l\rab\x1b[?7h\x1b[?7l\rd \x1b[?7h\x1b[?7l\r \r\x1b[?7hwhole\n";
    assert!(rt; gives_way(&rt, "ab", false, marked));
}
