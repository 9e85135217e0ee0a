//! What is told, in words.

use crate::texts::{all_show, shows};
use std::io;
use std::io::ErrorKind;
use ym_header::{Header, HeaderFault, Stamp};
use ym_teller::{Look, Teller};
use ym_text::{Coming, FileMessage, LineMessage, Reason, Shown, TtyMessage};

/// The messages of connections.
static CONNECTIONS: [(LineMessage, &str); 5] = [
    (LineMessage::Listening(4000), "listening on 127.0.0.1:4000"),
    (LineMessage::Connected, "connected"),
    (
        LineMessage::Connecting(4000),
        "connecting to 127.0.0.1:4000",
    ),
    (
        LineMessage::InUse(4000),
        "port 4000 is in use by another program: choose another one",
    ),
    (
        LineMessage::Refused(4000),
        "nobody listens on 127.0.0.1:4000: is the receiver running?",
    ),
];

/// Whether an error of a connection that was refused is told as that.
fn is_of_error() -> bool {
    let error = io::Error::from(ErrorKind::ConnectionRefused);
    matches!(
        LineMessage::of_error(4000, &error),
        LineMessage::Refused(4000)
    )
}

#[test]
fn of_connections(rt: HostRuntime) {
    assert!(rt; all_show(&rt, &CONNECTIONS));
    assert!(rt; is_of_error());
}

/// The messages of files.
static FILES: [(FileMessage, &str); 13] = [
    (
        FileMessage::CannotOpen("firmware.bin", Reason::Absent),
        "cannot open 'firmware.bin': no such file or directory",
    ),
    (
        FileMessage::CannotRead("b/a", Reason::Broke),
        "cannot read 'b/a': the device failed, or was unplugged",
    ),
    (
        FileMessage::SameName("b/a", "c/a", "a"),
        "'b/a' and 'c/a' are both sent as 'a': a receiver keeps one, or refuses the second",
    ),
    (
        FileMessage::NameIsUnsafe("../a"),
        "the sender gave the unsafe name '../a': a path, or with control characters",
    ),
    (
        FileMessage::IsThere("a"),
        "cannot store 'a': it is there already; move it away first",
    ),
    (
        FileMessage::IsOwnPart("a"),
        "cannot store 'a': its part would have the same name; send it under a shorter one",
    ),
    (
        FileMessage::PartIsLeft("a", "a.part"),
        "cannot store 'a': 'a.part' is there; wait for the receiver that writes it, \
        or use --discard-parts where an earlier run left it",
    ),
    (
        FileMessage::CannotStore("a", Reason::Full),
        "cannot store 'a': no space left on device",
    ),
    (
        FileMessage::CannotSend("a/", HeaderFault::NameEmpty),
        "cannot send 'a/': the name is empty",
    ),
    (
        FileMessage::CannotStoreIn("a", Reason::NoFolder),
        "cannot store in 'a': not a directory",
    ),
    (
        FileMessage::PartIsInUse("a", "a.part"),
        "cannot store 'a': 'a.part' is in use by another program, may not be read, \
        is no regular file, or may be a file of this batch; wait for that program, \
        or move it away",
    ),
    (
        FileMessage::PartIsReplaced("a.part"),
        "'a.part', left from an earlier run, was replaced",
    ),
    (
        FileMessage::PartIsGone("a", "a.part"),
        "cannot store 'a': 'a.part' was changed by another program",
    ),
];

/// What is told where something is not supported.
const UNSUPPORTED: &str = "the file system or the device does not support it";

/// Whether the reason of an error of the system is that a file is absent.
fn is_reason_of_error() -> bool {
    let error = io::Error::from(ErrorKind::NotFound);
    matches!(Reason::of(&error), Reason::Absent)
}

/// Whether what the system calls invalid is not supported, and what the program does no regular
/// file.
fn are_reasons_of_what_is_invalid() -> bool {
    let refused = io::Error::from_raw_os_error(22);
    let own = io::Error::from(ErrorKind::InvalidInput);
    matches!(Reason::of(&refused), Reason::Unsupported)
        && matches!(Reason::of(&own), Reason::NoRegularFile)
}

#[test]
fn of_files(rt: HostRuntime) {
    assert!(rt; all_show(&rt, &FILES));
    assert!(rt; is_reason_of_error());
    assert!(rt; are_reasons_of_what_is_invalid());
    assert!(rt; shows(&rt, &Reason::Unsupported, UNSUPPORTED));
}

/// Whether a file of 12,345 bytes with this stamp is told so.
fn comes(rt: &HostRuntime, stamp: Stamp, want: &str) -> bool {
    match Header::new(rt.alloc(), "a.txt", 12_345, stamp) {
        Ok(header) => shows(rt, &Coming(&header), want),
        Err(_) => false,
    }
}

/// The stamps of files, and how these are told.
static COMING: [(Stamp, &str); 9] = [
    (Stamp::Nothing, "receiving a.txt, 12345 bytes"),
    (Stamp::Time(0), "receiving a.txt, 12345 bytes"),
    (
        Stamp::Time(1),
        "receiving a.txt, 12345 bytes, 1970-01-01 00:00:01 UTC",
    ),
    (
        Stamp::TimeMode(1_764_079_387, 0o100644),
        "receiving a.txt, 12345 bytes, 2025-11-25 14:03:07 UTC, rw-r--r--",
    ),
    (
        Stamp::TimeMode(1_709_164_800, 0o751),
        "receiving a.txt, 12345 bytes, 2024-02-29 00:00:00 UTC, rwxr-x--x",
    ),
    (
        Stamp::TimeMode(0, 0o100_222),
        "receiving a.txt, 12345 bytes, -w--w--w-",
    ),
    (
        Stamp::TimeMode(253_402_300_799, 0),
        "receiving a.txt, 12345 bytes, 9999-12-31 23:59:59 UTC",
    ),
    (
        Stamp::Time(253_402_300_800),
        "receiving a.txt, 12345 bytes, after the year 9999",
    ),
    (
        Stamp::Time(u64::MAX),
        "receiving a.txt, 12345 bytes, after the year 9999",
    ),
];

/// Whether files that come are told so.
fn tell_files_that_come(rt: &HostRuntime) -> bool {
    for (stamp, want) in &COMING {
        if !comes(rt, *stamp, want) {
            return false;
        }
    }
    true
}

/// Times as `date -u` tells them, and rights as `ls -l` does; what is 0 is not known.
#[test]
fn of_files_that_come(rt: HostRuntime) {
    assert!(rt; tell_files_that_come(&rt));
}

/// The messages of terminals.
static TERMINALS: [(TtyMessage, &str); 6] = [
    (TtyMessage::Opened("/dev/a"), "the line is '/dev/a'"),
    (
        TtyMessage::Absent("/dev/a"),
        "cannot open '/dev/a': no such device",
    ),
    (
        TtyMessage::Denied("/dev/a"),
        "cannot open '/dev/a': permission denied; members of the group dialout may open it",
    ),
    (
        TtyMessage::Busy("/dev/a"),
        "cannot open '/dev/a': another program has it open",
    ),
    (
        TtyMessage::NoTerminal("/dev/a"),
        "cannot open '/dev/a': it is no terminal",
    ),
    (
        TtyMessage::Failed("/dev/a", Reason::Number(5)),
        "cannot open '/dev/a': error 5 of the system",
    ),
];

#[test]
fn of_terminals(rt: HostRuntime) {
    assert!(rt; all_show(&rt, &TERMINALS));
}

/// A name that would clear the screen, and turn the text behind it.
const ODD: &str = "a\u{1b}[2J\u{202e}b";

/// An odd name in the messages of files.
static ODD_FILES: [(FileMessage, &str); 11] = [
    (
        FileMessage::CannotOpen(ODD, Reason::Absent),
        "cannot open 'a\\u{1b}[2J\\u{202e}b': no such file or directory",
    ),
    (
        FileMessage::CannotSend(ODD, HeaderFault::NameLong),
        "cannot send 'a\\u{1b}[2J\\u{202e}b': the name has more than 255 bytes",
    ),
    (
        FileMessage::CannotStoreIn(ODD, Reason::Denied),
        "cannot store in 'a\\u{1b}[2J\\u{202e}b': permission denied",
    ),
    (
        FileMessage::CannotRead(ODD, Reason::Resized),
        "cannot read 'a\\u{1b}[2J\\u{202e}b': its length has changed since it was looked at",
    ),
    (
        FileMessage::SameName(ODD, ODD, ODD),
        "'a\\u{1b}[2J\\u{202e}b' and 'a\\u{1b}[2J\\u{202e}b' are both sent as \
                'a\\u{1b}[2J\\u{202e}b': a receiver keeps one, or refuses the second",
    ),
    (
        FileMessage::NameIsUnsafe(ODD),
        "the sender gave the unsafe name 'a\\u{1b}[2J\\u{202e}b': \
                a path, or with control characters",
    ),
    (
        FileMessage::IsThere(ODD),
        "cannot store 'a\\u{1b}[2J\\u{202e}b': it is there already; move it away first",
    ),
    (
        FileMessage::IsOwnPart(ODD),
        "cannot store 'a\\u{1b}[2J\\u{202e}b': \
                its part would have the same name; send it under a shorter one",
    ),
    (
        FileMessage::PartIsReplaced(ODD),
        "'a\\u{1b}[2J\\u{202e}b', left from an earlier run, was replaced",
    ),
    (
        FileMessage::PartIsGone(ODD, ODD),
        "cannot store 'a\\u{1b}[2J\\u{202e}b': \
                'a\\u{1b}[2J\\u{202e}b' was changed by another program",
    ),
    (
        FileMessage::CannotStore(ODD, Reason::Full),
        "cannot store 'a\\u{1b}[2J\\u{202e}b': no space left on device",
    ),
];

/// An odd path in the messages of terminals.
static ODD_TERMINALS: [(TtyMessage, &str); 2] = [
    (
        TtyMessage::Opened(ODD),
        "the line is 'a\\u{1b}[2J\\u{202e}b'",
    ),
    (
        TtyMessage::Busy(ODD),
        "cannot open 'a\\u{1b}[2J\\u{202e}b': another program has it open",
    ),
];

/// Names and paths are made safe in each message.
#[test]
fn odd_names_in_messages(rt: HostRuntime) {
    assert!(rt; all_show(&rt, &ODD_FILES));
    assert!(rt; all_show(&rt, &ODD_TERMINALS));
}

/// Names as they are shown.
static NAMES: [(Shown, &str); 6] = [
    (Shown("a b.txt"), "a b.txt"),
    (Shown("日本"), "日本"),
    (Shown("a\u{1b}[2Jb"), "a\\u{1b}[2Jb"),
    (Shown("\u{7f}\u{85}\u{9b}"), "\\u{7f}\\u{85}\\u{9b}"),
    (Shown("a\u{202e}txt.exe"), "a\\u{202e}txt.exe"),
    (
        Shown("\u{61c}\u{200e}\u{200f}\u{2066}\u{2069}"),
        "\\u{61c}\\u{200e}\\u{200f}\\u{2066}\\u{2069}",
    ),
];

#[test]
fn names_on_a_terminal(rt: HostRuntime) {
    assert!(rt; all_show(&rt, &NAMES));
}

/// Whether a teller that is loud, or not, writes this of a connection.
fn writes(rt: &HostRuntime, is_loud: bool, want: &[u8]) -> bool {
    let look = Look {
        at_err: is_loud,
        columns: 80,
        is_exact: true,
    };
    let mut teller = Teller::new(Vec::new(rt.alloc()), look);
    teller.tell(LineMessage::Connected);
    teller.err.as_slice() == want
}

#[test]
fn told_or_not(rt: HostRuntime) {
    assert!(rt; writes(&rt, false, b""));
    assert!(rt; writes(&rt, true, b"connected\n"));
}
