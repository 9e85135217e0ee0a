//! Transfers that are watched.

use std::cell::RefCell;
use ym_frame::{Block, Item, encode};
use ym_header::{Header, Stamp, write, write_end};
use ym_link::Wait;
use ym_show::{Meter, PortWatch, ReceiveWatch, Receiving, SendWatch, Sending, SinkWatch};
use ym_teller::{Look, Teller};
use ym_text::Came;

/// A teller that is loud, where a terminal with so many columns is, or none.
fn teller(rt: &HostRuntime, at_err: bool, columns: usize) -> Teller<Vec<u8>> {
    let look = Look {
        at_err,
        columns,
        is_exact: true,
    };
    Teller::new(Vec::new(rt.alloc()), look)
}

/// A teller of lines that is loud, where no terminal is.
fn teller_of_lines(rt: &HostRuntime) -> Teller<Vec<u8>> {
    let mut teller = teller(rt, false, 80);
    teller.heed(true, false);
    teller
}

/// Whether these two texts are the beginning and the end of what was told.
fn told(teller: &Teller<Vec<u8>>, prefix: &[u8], back: &[u8]) -> bool {
    teller.err.starts_with(prefix) && teller.err.ends_with(back)
}

/// A meter that goes by the clock of the system, for as long as its teller is there.
fn metered<'t>(
    rt: &'t HostRuntime,
    teller: &'t mut Teller<Vec<u8>>,
    limit: u64,
) -> Meter<'t, Vec<u8>, &'t HostRuntime> {
    Meter::new(rt.alloc(), rt, teller, limit)
}

/// What a sender does, or what comes to it.
#[derive(Clone, Copy)]
enum Sends<'a> {
    Waits(Wait),
    /// It writes the block 0 of the file `a.txt` of 130 bytes.
    Header,
    /// It writes the block of this number.
    Block(u8),
    Eot,
    /// It writes the end block.
    Last,
    Came(&'a [u8]),
}

/// A sender writes this item.
fn write_item<W: PortWatch>(watch: &mut W, item: &Item) {
    watch.wrote(encode(item).as_bytes());
}

/// A sender writes the block 0 of its file.
fn write_header<W: PortWatch>(rt: &HostRuntime, watch: &mut W) {
    if let Ok(header) = Header::new(rt.alloc(), "a.txt", 130, Stamp::Nothing) {
        write_item(watch, &Item::Block(write(&header)));
    }
}

/// A sender writes the block of this number.
fn write_block<W: PortWatch>(watch: &mut W, number: u8) {
    if let Ok(block) = Block::new(number, &[7; 128]) {
        write_item(watch, &Item::Block(block));
    }
}

/// A sender does this.
fn send<W: PortWatch>(rt: &HostRuntime, watch: &mut W, does: Sends<'_>) {
    match does {
        Sends::Waits(wait) => watch.waits(wait),
        Sends::Header => write_header(rt, watch),
        Sends::Block(number) => write_block(watch, number),
        Sends::Eot => write_item(watch, &Item::Eot),
        Sends::Last => write_item(watch, &Item::Block(write_end())),
        Sends::Came(bytes) => watch.came(bytes),
    }
}

/// A sender does all of this, so many times.
fn send_all<W: PortWatch>(rt: &HostRuntime, watch: &mut W, all: &[Sends<'_>], times: u32) {
    for _ in 0..times {
        for does in all {
            send(rt, watch, *does);
        }
    }
}

/// What a sender does one after another, and how many times each.
type Course<'a> = &'a [(&'a [Sends<'a>], u32)];

/// A sender does each of these.
fn send_course<W: PortWatch>(rt: &HostRuntime, watch: &mut W, course: Course<'_>) {
    for (all, times) in course {
        send_all(rt, watch, all, *times);
    }
}

/// What is shown of a sender.
type SenderShown<'t> = RefCell<Sending<'t, Vec<u8>, &'t HostRuntime>>;

/// What is shown of a new sender.
fn shown_of_sender<'t>(rt: &'t HostRuntime, teller: &'t mut Teller<Vec<u8>>) -> SenderShown<'t> {
    RefCell::new(Sending::new(metered(rt, teller, 100)))
}

/// Who watches a sender.
fn sender_watch<'s, 't>(shown: &'s SenderShown<'t>) -> SendWatch<'s, 't, Vec<u8>, &'t HostRuntime> {
    SendWatch {
        shown,
        is_looked_at: true,
    }
}

/// Watches a sender that does all of this.
fn watch_sender(rt: &HostRuntime, teller: &mut Teller<Vec<u8>>, course: Course<'_>) {
    let shown = shown_of_sender(rt, teller);
    send_course(rt, &mut sender_watch(&shown), course);
}

/// A file whose second block is written twice. Then a prompt comes.
static SENT: [Sends; 8] = [
    Sends::Header,
    Sends::Block(1),
    Sends::Block(2),
    Sends::Block(2),
    Sends::Eot,
    Sends::Eot,
    Sends::Last,
    Sends::Came(b"=> "),
];

/// What came of late to a sender that was watched.
fn came_to_sender(rt: &HostRuntime, teller: &mut Teller<Vec<u8>>) -> Came {
    let shown = shown_of_sender(rt, teller);
    send_all(rt, &mut sender_watch(&shown), &SENT, 1);
    let lately = shown.into_inner().end();
    lately.came
}

/// Whether a sender's file is told, and what came of late.
fn tells_of_sender(rt: &HostRuntime) -> bool {
    let mut teller = teller_of_lines(rt);
    came_to_sender(rt, &mut teller) == Came::Text
        && told(&teller, b"a.txt: 130 bytes in ", b", 1 repeated\n")
}

#[test]
fn a_sender(rt: HostRuntime) {
    assert!(rt; tells_of_sender(&rt));
}

/// What a receiver's port and its sink do.
#[derive(Clone, Copy)]
enum Receives<'a> {
    Waits(Wait),
    Wrote(&'a [u8]),
    Came(&'a [u8]),
    Begins,
    Replaces(&'a str),
    Adds(usize),
    Commits,
    Ends,
}

/// A port and its sink do this, with a file of this header.
fn receive<W: PortWatch + SinkWatch>(
    header: &Header,
    port: &mut W,
    sink: &mut W,
    does: Receives<'_>,
) {
    match does {
        Receives::Waits(wait) => port.waits(wait),
        Receives::Wrote(bytes) => port.wrote(bytes),
        Receives::Came(bytes) => port.came(bytes),
        Receives::Begins => sink.begins(header),
        Receives::Replaces(part) => sink.replaced(part),
        Receives::Adds(count) => sink.added(count),
        Receives::Commits => sink.committed(),
        Receives::Ends => sink.ended(),
    }
}

/// What is shown of a receiver.
type ReceiverShown<'t> = RefCell<Receiving<'t, Vec<u8>, &'t HostRuntime>>;

/// What is shown of a new receiver, whose files take so many replies besides those to their blocks.
fn shown_of_receiver<'t>(
    rt: &'t HostRuntime,
    teller: &'t mut Teller<Vec<u8>>,
    besides: u64,
) -> ReceiverShown<'t> {
    let meter = metered(rt, teller, 30);
    RefCell::new(Receiving::new(rt.alloc(), meter, besides))
}

/// Who watches a receiver's port, or its sink.
fn receiver_watch<'s, 't>(
    shown: &'s ReceiverShown<'t>,
) -> ReceiveWatch<'s, 't, Vec<u8>, &'t HostRuntime> {
    ReceiveWatch {
        shown,
        is_looked_at: true,
    }
}

/// A port and a sink that are watched do all of this, so many times, with a file of this header.
fn receive_all(header: &Header, shown: &ReceiverShown<'_>, all: &[Receives<'_>], times: u32) {
    let mut port = receiver_watch(shown);
    let mut sink = receiver_watch(shown);
    for _ in 0..times {
        for does in all {
            receive(header, &mut port, &mut sink, *does);
        }
    }
}

/// A file of two blocks, and what comes between them is none. Then a prompt comes.
static RECEIVED: [Receives; 15] = [
    Receives::Waits(Wait::Reply),
    Receives::Wrote(b"C"),
    Receives::Begins,
    Receives::Replaces("a.txt.part"),
    Receives::Wrote(b"\x06C"),
    Receives::Adds(128),
    Receives::Wrote(b"\x06"),
    Receives::Came(b"\x00"),
    Receives::Wrote(b"\x15"),
    Receives::Adds(2),
    Receives::Wrote(b"\x06"),
    Receives::Wrote(b"\x15"),
    Receives::Commits,
    Receives::Came(b"=> "),
    Receives::Ends,
];

/// Whether a receiver of a file of this header, that was watched, knows its name, and what came of
/// late.
fn knows(rt: &HostRuntime, teller: &mut Teller<Vec<u8>>, header: &Header) -> bool {
    let shown = shown_of_receiver(rt, teller, 2);
    receive_all(header, &shown, &RECEIVED, 1);
    let (last, lately) = shown.into_inner().end();
    last.is_some() && lately.came == Came::Text
}

/// Whether a receiver's file is told, and the part that it replaces.
fn tells_of_receiver(rt: &HostRuntime, header: &Header) -> bool {
    let mut teller = teller_of_lines(rt);
    let prefix = b"receiving a.txt, 130 bytes\n\
        'a.txt.part', left from an earlier run, was replaced\n\
        a.txt: 130 bytes in ";
    knows(rt, &mut teller, header) && told(&teller, prefix, b", 1 repeated\n")
}

/// The same, of the file `a.txt` of 130 bytes.
fn tells_of_received(rt: &HostRuntime) -> bool {
    match Header::new(rt.alloc(), "a.txt", 130, Stamp::Nothing) {
        Ok(header) => tells_of_receiver(rt, &header),
        Err(_) => false,
    }
}

#[test]
fn a_receiver(rt: HostRuntime) {
    assert!(rt; tells_of_received(&rt));
}

/// The front of a file that is sent, and its back behind the repeats of its second block.
static SENT_FRONT: [Sends; 2] = [Sends::Header, Sends::Block(1)];

static SENT_BACK: [Sends; 2] = [Sends::Block(2), Sends::Eot];

/// Whether what is told of a sender of two files, of which it writes the second block so many times
/// more, ends so: of the first file once.
fn sender_ends(rt: &HostRuntime, repeats: u32, want: &[u8]) -> bool {
    let mut teller = teller_of_lines(rt);
    let course: [(&[Sends], u32); 7] = [
        (&SENT_FRONT, 1),
        (&[Sends::Block(2)], 1),
        (&SENT_BACK, 1),
        (&SENT_FRONT, 1),
        (&[Sends::Block(2)], repeats),
        (&SENT_BACK, 1),
        (&[Sends::Last], 1),
    ];
    watch_sender(rt, &mut teller, &course);
    teller.err.ends_with(want)
}

/// The front of a file that is received, and its back behind the blocks that came damaged, up to
/// its first EOT.
static RECEIVED_FRONT: [Receives; 3] = [
    Receives::Begins,
    Receives::Wrote(b"\x06C"),
    Receives::Adds(128),
];

static RECEIVED_BACK: [Receives; 3] = [
    Receives::Wrote(b"\x06"),
    Receives::Adds(2),
    Receives::Wrote(b"\x06"),
];

static COMMITTED: [Receives; 2] = [Receives::Commits, Receives::Wrote(b"\x06C")];

/// A receiver takes a file, of which so many blocks come damaged. It refuses so many EOT.
fn take_repeats(header: &Header, shown: &ReceiverShown<'_>, repeats: u32, refused: u32) {
    receive_all(header, shown, &RECEIVED_FRONT, 1);
    receive_all(header, shown, &[Receives::Wrote(b"\x15")], repeats);
    receive_all(header, shown, &RECEIVED_BACK, 1);
    receive_all(header, shown, &[Receives::Wrote(b"\x15")], refused);
    receive_all(header, shown, &COMMITTED, 1);
}

/// Watches a receiver of two files, of which so many blocks came damaged: of the first file one. It
/// refuses no EOT of a file, or one.
fn watch_receiver(rt: &HostRuntime, teller: &mut Teller<Vec<u8>>, repeats: u32, refused: u32) {
    if let Ok(header) = Header::new(rt.alloc(), "a.txt", 130, Stamp::Nothing) {
        let shown = shown_of_receiver(rt, teller, u64::from(refused).saturating_add(1));
        take_repeats(&header, &shown, 1, refused);
        take_repeats(&header, &shown, repeats, refused);
    }
}

/// Whether what is told of a receiver of two files ends so.
fn receiver_ends(rt: &HostRuntime, repeats: u32, refused: u32, want: &[u8]) -> bool {
    let mut teller = teller_of_lines(rt);
    watch_receiver(rt, &mut teller, repeats, refused);
    teller.err.ends_with(want)
}

/// Whether so many repeats are told so, by a sender and by both kinds of receiver.
fn count(rt: &HostRuntime, repeats: u32, want: &[u8]) -> bool {
    sender_ends(rt, repeats, want)
        && receiver_ends(rt, repeats, 1, want)
        && receiver_ends(rt, repeats, 0, want)
}

/// How many repeats there are, and how what is told ends.
static REPEATS: [(u32, &[u8]); 5] = [
    (0, b"s\n"),
    (1, b", 1 repeated\n"),
    (2, b", 2 repeated\n"),
    (3, b", 3 repeated\n"),
    (9, b", 9 repeated\n"),
];

/// Each repeat is counted, and nothing else.
#[test]
fn repeats(rt: HostRuntime) {
    for (repeats, want) in &REPEATS {
        assert!(rt; count(&rt, *repeats, want), "with {repeats}");
    }
}

static WAITS: [Sends; 2] = [Sends::Waits(Wait::Reply), Sends::Waits(Wait::Within)];

/// Whether a wait is told at once where a terminal is.
fn tells_a_wait(rt: &HostRuntime) -> bool {
    let mut teller = teller(rt, true, 40);
    watch_sender(rt, &mut teller, &[(&WAITS, 1)]);
    told(&teller, b"\rwaiting for C, 0 s of 100", b"of 100")
}

/// Whom a sender waits for is told at once where a terminal is.
#[test]
fn a_wait(rt: HostRuntime) {
    assert!(rt; tells_a_wait(&rt));
}
