//! How ends and lines are told, and whom an end waits for.

use crate::texts::{all_show, shows, told};
use std::alloc::AllocError;
use ym_header::HeaderFault;
use ym_link::{RecvState, SendState};
use ym_text::{Awaited, Came, EchoMessage, EndMessage, Lately, Sight, Waiting, waiting_line};

const SILENT: Lately = Lately {
    came: Came::Nothing,
    seconds: 30,
    is_silent: true,
    seen: Sight::Nothing,
    slow: None,
};

/// Whether this is what is told of an end, or nothing is.
fn ends(rt: &HostRuntime, message: Option<EndMessage>, want: Option<&str>) -> bool {
    match (message, want) {
        (Some(message), Some(want)) => shows(rt, &message, want),
        (None, None) => true,
        _ => false,
    }
}

/// How senders end that heard nothing, and what is told of it.
static SENDERS: [(SendState, Option<&str>); 3] = [
    (
        SendState::Cancelled,
        Some("the other end cancelled (CAN CAN)"),
    ),
    (
        SendState::NoReply,
        Some("no answer came for 30 s: is the receiver running, at the same speed?"),
    ),
    (SendState::Finished, None),
];

/// How receivers end that heard nothing, and what is told of it.
static RECEIVERS: [(RecvState, Option<&str>); 4] = [
    (
        RecvState::TooManyErrors,
        Some("no answer came for 30 s: is the sender running, at the same speed?"),
    ),
    (
        RecvState::OutOfStep,
        Some("a block came out of turn: the two ends are out of step, send again"),
    ),
    (
        RecvState::BadHeader(HeaderFault::NoLength),
        Some("the sender gave a file no length: use a sender of YMODEM that gives one"),
    ),
    (RecvState::Finished, None),
];

#[test]
fn of_senders(rt: HostRuntime) {
    for (state, want) in &SENDERS {
        assert!(rt; ends(&rt, EndMessage::of_sender(*state, SILENT), *want));
    }
}

#[test]
fn of_receivers(rt: HostRuntime) {
    for (state, want) in &RECEIVERS {
        assert!(rt; ends(&rt, EndMessage::of_receiver(*state, SILENT), *want));
    }
}

static ECHOES: [(EchoMessage, &str); 2] = [
    (
        EchoMessage::ToSender,
        "the line echoes what is sent: is a receiver running there?",
    ),
    (
        EchoMessage::ToReceiver,
        "the line echoes what is sent: is a sender running there?",
    ),
];

#[test]
fn of_lines(rt: HostRuntime) {
    assert!(rt; all_show(&rt, &ECHOES));
}

/// Whether what is told begins so.
fn begins(told: Result<String, AllocError>, want: &str) -> bool {
    match told {
        Ok(told) => told.as_str().starts_with(want),
        Err(_) => false,
    }
}

/// Whether what is told of a sender that got no reply begins so, where this came, and the slowest
/// answer took so many milliseconds.
fn begins_slow(rt: &HostRuntime, came: Came, slowest: Option<u64>, want: &str) -> bool {
    let lately = Lately {
        came,
        is_silent: false,
        ..SILENT
    };
    match EndMessage::of_sender(SendState::NoReply, lately.on_line(slowest)) {
        Some(message) => begins(told(rt, &message), want),
        None => false,
    }
}

/// What came, how many milliseconds the slowest answer took, and how what is told begins.
static SLOW_LINES: [(Came, Option<u64>, &str); 4] = [
    (
        Came::Asks,
        Some(16_400),
        "answers take longer than 16 seconds",
    ),
    (Came::Asks, Some(10_000), "nothing came but C, ten times"),
    (Came::Asks, None, "nothing came but C, ten times"),
    (Came::Nothing, Some(16_400), "no answer came for 30 s"),
];

#[test]
fn of_slow_lines(rt: HostRuntime) {
    for (came, slowest, want) in &SLOW_LINES {
        assert!(rt; begins_slow(&rt, *came, *slowest, want));
    }
}

/// What came in these pieces.
fn came_of(pieces: &[&[u8]]) -> Came {
    let mut came = Came::Nothing;
    for piece in pieces {
        came = came.with(piece);
    }
    came
}

/// Whether what a receiver tells begins so, that heard these bytes in ten deliveries, and no block.
fn begins_with(rt: &HostRuntime, pieces: &[&[u8]], want: &str) -> bool {
    let lately = Lately {
        came: came_of(pieces),
        seconds: 3,
        is_silent: false,
        ..SILENT
    };
    match EndMessage::of_receiver(RecvState::TooManyErrors, lately) {
        Some(message) => begins(told(rt, &message), want),
        None => false,
    }
}

/// The deliveries that came, and how what is told begins.
static DELIVERIES: [(&[&[u8]], &str); 6] = [
    (&[b""], "no answer came for 3 s"),
    (&[b"C", b"CC"], "nothing came but what receivers send"),
    (&[b"C", b"\x15"], "nothing came but what receivers send"),
    (
        &[b"C", b"\r\n", b"Unknown command 'C' - try 'help'\r\n=> "],
        "what comes is no YMODEM",
    ),
    (&[b"C", b"=> ", b"\xfe"], "nothing whole came"),
    (&[b"\x00", b"=> "], "nothing whole came"),
];

#[test]
fn of_what_came(rt: HostRuntime) {
    for (pieces, want) in &DELIVERIES {
        assert!(rt; begins_with(&rt, *pieces, want));
    }
}

/// What an end heard of late in three seconds, or fell silent behind 27 seconds ago.
fn heard(pieces: &[&[u8]], seen: Sight, is_silent: bool) -> Lately {
    Lately {
        came: came_of(pieces),
        seconds: if is_silent { 27 } else { 3 },
        is_silent,
        seen,
        slow: None,
    }
}

/// What came, what was seen before, whether nothing came any more behind it, and how what is told
/// begins.
type Heard<'a> = (&'a [&'a [u8]], Sight, bool, &'a str);

/// Whether a sender tells so why it got no reply.
fn sender_tells(rt: &HostRuntime, told_of: &Heard<'_>) -> bool {
    let (pieces, seen, is_silent, want) = told_of;
    let lately = heard(*pieces, *seen, *is_silent);
    match EndMessage::of_sender(SendState::NoReply, lately) {
        Some(message) => begins(told(rt, &message), want),
        None => false,
    }
}

/// Whether a receiver tells so why it got no block.
fn receiver_tells(rt: &HostRuntime, told_of: &Heard<'_>) -> bool {
    let (pieces, seen, is_silent, want) = told_of;
    let lately = heard(*pieces, *seen, *is_silent);
    match EndMessage::of_receiver(RecvState::TooManyErrors, lately) {
        Some(message) => begins(told(rt, &message), want),
        None => false,
    }
}

/// To a sender.
static TO_SENDERS: [Heard; 16] = [
    (
        &[b"C", b"\x06", b"\x15", b"\x15"],
        Sight::Begun,
        false,
        "the receiver took block 0 and asked by NAK, as XMODEM does: run `rb` there, not `rx`",
    ),
    (
        &[b"\x06", b"\x15"],
        Sight::Begun,
        true,
        "the receiver took block 0 and asked by NAK",
    ),
    // block 0 was repeated, or an EOT was written
    (
        &[b"\x06", b"\x15"],
        Sight::Peer,
        false,
        "nothing new came whole, ten times in a row: use a better line, or a lower speed",
    ),
    (
        &[b"\x06"],
        Sight::Begun,
        true,
        "no answer came any more for 27 s: has the receiver stopped",
    ),
    (
        &[b"\x15", b"\x15"],
        Sight::Begun,
        false,
        "nothing came but NAK, ten times",
    ),
    (
        &[b"\x15"],
        Sight::Peer,
        true,
        "no answer came any more for 27 s: has the receiver stopped, or was the line cut?",
    ),
    (
        &[b"\x15"],
        Sight::Nothing,
        true,
        "no answer came any more for",
    ),
    (&[], Sight::Peer, true, "no answer came any more for 27 s"),
    (&[b"\xfe"], Sight::Peer, true, "no answer came any more for"),
    (
        &[b"\xfe"],
        Sight::Nothing,
        true,
        "no answer came for 27 s: is the receiver running",
    ),
    (&[b"=> "], Sight::Nothing, true, "what comes is no YMODEM"),
    (
        &[b"\x15", b"\x15"],
        Sight::Nothing,
        false,
        "the receiver asks by NAK, as XMODEM does: start it as a receiver of YMODEM",
    ),
    (
        &[b"C", b"\x15"],
        Sight::Peer,
        false,
        "nothing came but NAK, ten times: does the receiver get every byte that is sent?",
    ),
    (
        &[b"G", b"G"],
        Sight::Nothing,
        false,
        "the receiver asks by G, as YMODEM-g does: start it as a receiver of YMODEM",
    ),
    (
        &[b"\xfe"],
        Sight::Nothing,
        false,
        "what comes is no answer of a YMODEM receiver: is one running, at the same speed?",
    ),
    (
        &[b"\x15", b"\xfe"],
        Sight::Peer,
        false,
        "nothing new came whole, ten times in a row: use a better line, or a lower speed",
    ),
];

/// To a receiver.
static TO_RECEIVERS: [Heard; 5] = [
    (
        &[b"\x01\x00"],
        Sight::Peer,
        true,
        "no answer came any more for 27 s: has the sender stopped, or was the line cut?",
    ),
    (
        &[b"G"],
        Sight::Nothing,
        false,
        "nothing came but what receivers send: is a sender at the other end?",
    ),
    // what the other receiver sends in the last waits may be taken for an echo
    (
        &[b"C"],
        Sight::Nothing,
        true,
        "nothing came but what receivers send: is a sender at the other end?",
    ),
    (
        &[b"\x01\x00"],
        Sight::Peer,
        false,
        "nothing new came whole, ten times in a row: use a better line",
    ),
    (
        &[b"\x00"],
        Sight::Nothing,
        false,
        "nothing whole came, ten times in a row: do both ends have the same speed?",
    ),
];

/// What is asked of a person follows from what was seen.
#[test]
fn of_what_was_seen(rt: HostRuntime) {
    for told_of in &TO_SENDERS {
        assert!(rt; sender_tells(&rt, told_of));
    }
    for told_of in &TO_RECEIVERS {
        assert!(rt; receiver_tells(&rt, told_of));
    }
}

/// Whether a block out of turn is told so, to a receiver that saw this of the sender.
fn out_of_turn(rt: &HostRuntime, seen: Sight, want: &str) -> bool {
    let lately = heard(&[], seen, false);
    ends(
        rt,
        EndMessage::of_receiver(RecvState::OutOfStep, lately),
        Some(want),
    )
}

#[test]
fn of_senders_of_xmodem(rt: HostRuntime) {
    let nameless = "the sender names no file, as XMODEM does: start it as a sender of YMODEM";
    assert!(rt; out_of_turn(&rt, Sight::Nameless, nameless));
    let again = "a block came out of turn: the two ends are out of step, send again";
    assert!(rt; out_of_turn(&rt, Sight::Peer, again));
    assert!(rt; out_of_turn(&rt, Sight::Nothing, again));
}

/// Whether a block 0 that was refused is told so, to a receiver that saw this of it.
fn refused(rt: &HostRuntime, seen: Sight, fault: HeaderFault, want: &str) -> bool {
    let lately = heard(&[], seen, false);
    ends(
        rt,
        EndMessage::of_receiver(RecvState::BadHeader(fault), lately),
        Some(want),
    )
}

#[test]
fn of_names_without_room(rt: HostRuntime) {
    let no_room = "the name leaves block 0 no room for the length: send the file under a \
        shorter one";
    assert!(rt; refused(&rt, Sight::Crammed, HeaderFault::NoLength, no_room));
    let no_length = "the sender gave a file no length: use a sender of YMODEM that gives one";
    assert!(rt; refused(&rt, Sight::Peer, HeaderFault::NoLength, no_length));
    let long = "the sender gave a file a name of more than 255 bytes";
    assert!(rt; refused(&rt, Sight::Crammed, HeaderFault::NameLong, long));
}

/// Whether this is the line of a wait of 12 seconds of 100, on so many columns.
fn waits(rt: &HostRuntime, awaited: Awaited, columns: usize, want: &str) -> bool {
    let waiting = Waiting {
        awaited,
        seconds: 12,
        limit: 100,
    };
    match waiting_line(rt.alloc(), waiting, columns) {
        Ok(line) => line.as_str() == want,
        Err(_) => false,
    }
}

/// Whom an end waits for, on how many columns that is told, and the line that tells it.
static WAITS: [(Awaited, usize, &str); 6] = [
    (
        Awaited::Asking,
        80,
        "waiting for the receiver to ask (C), 12 s of 100",
    ),
    (Awaited::Asking, 40, "waiting for C, 12 s of 100"),
    (Awaited::Answer, 40, "waiting for an answer, 12 s of 100"),
    (Awaited::Sender, 40, "waiting for the sender, 12 s of 100"),
    (Awaited::More, 40, "waiting for more, 12 s of 100"),
    (Awaited::More, 8, "waiting "),
];

#[test]
fn of_waits(rt: HostRuntime) {
    for (awaited, columns, want) in &WAITS {
        assert!(rt; waits(&rt, *awaited, *columns, want));
    }
}
