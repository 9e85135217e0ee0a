//! Who watches the sink of a receiver, and its port.

ghost use Rattle.std.specs.Prelude.{◌<◌, length, IfSome};

use crate::meter::Meter;
use crate::sink_watch::SinkWatch;
use crate::watched_port::PortWatch;
use std::alloc::Global;
use std::cell::RefCell;
use std::io::Write;
use std::time::Clock;
use ym_frame::{Control, EOT, SOH, STX, control_of};
use ym_header::Header;
use ym_link::Wait;
use ym_text::{Awaited, Coming, EchoMessage, FileMessage, Lately, Sight};

/// So many bytes of a delivery are kept: a block's front, and a name.
const PREFIX_BYTES: usize = 260;

/// What a delivery is that was taken, and brought a receiver no further.
#[derive(Clone, Copy)]
enum Stale {
    /// It came before.
    Copy,
    /// It is a block behind the length of its file.
    Past,
}

/// Whether a receiver that answers so has the frame. The last of too many in a row is answered by a
/// cancel, and a damaged one by a NAK.
fn is_taken(answer: &[u8]) -> bool {
    match answer {
        [first, ..] => matches!(control_of(*first), Some(Control::Ack | Control::Can)),
        [] => false,
    }
}

/// What a block of this number is that brought no further, behind so many blocks of its file.
fn stale_block(number: u8, blocks: u64) -> Option<Stale> {
    let number = u64::from(number);
    if number == blocks % 256 {
        Some(Stale::Copy)
    } else if number == blocks.saturating_add(1) % 256 {
        Some(Stale::Past)
    } else {
        None
    }
}

/// The number of the block that a delivery with these bytes in front is, which may be damaged.
fn number_in(front: &[u8]) -> Option<u8> {
    match front {
        [SOH | STX, number, check, ..] if *number == !*check => Some(*number),
        _ => None,
    }
}

/// What a delivery with these bytes in front is that brought no further.
fn stale_of(front: &[u8], blocks: u64) -> Option<Stale> {
    match front {
        [EOT, ..] => Some(Stale::Copy),
        [SOH | STX, number, check, ..] if *number == !*check => stale_block(*number, blocks),
        _ => None,
    }
}

/// Where the first 00 of a block's body is.
fn zero_in(body: &[u8]) -> Option<usize>
    ensures { IfSome result (λ end. end < length body.now) }
{
    body.iter().position(|&byte| byte == 0)
}

/// The text up to the first 00 of a block's body, where it is text.
fn name_in(body: &[u8]) -> Option<&str> {
    let end = zero_in(body)?;
    str::from_utf8(&body[..end]).ok()
}

/// Whether a delivery with these bytes in front is a short block 0 whose name leaves no room for a
/// length: two bytes behind its 00, or fewer. A digit and its 00 would fit, but into the last two
/// of 128 bytes `sb` writes a count of blocks.
fn is_crammed(front: &[u8]) -> bool {
    match front {
        [SOH, 0, 0xff, body @ ..] => {
            let body = &body[..body.len().min(128)];
            match zero_in(body) {
                Some(end) => body.len() - end <= 3,
                None => true,
            }
        }
        _ => false,
    }
}

/// What is shown of a receiver.
#[derive(Drop)]
pub struct Receiving<'t, E: Write + Drop, C: Clock + Drop> {
    alloc: Global,
    meter: Meter<'t, E, C>,
    /// How many replies a file takes besides those to its blocks.
    besides: u64,
    /// The name of the file that the sink was last given, where there was memory for it.
    last: Option<String>,
    /// The first bytes of the delivery that came last.
    prefix: Vec<u8>,
    /// Whether that brought it further.
    has_got_on: bool,
    /// What it waits for.
    awaited: Awaited,
    /// How often it has written since that file was begun, the file's blocks with those behind its
    /// length, and its bytes.
    replies: u64,
    blocks: u64,
    done: u64,
}

impl<'t, E: Write + Drop, C: Clock + Drop> Receiving<'t, E, C> {
    /// Nothing has come yet. A file takes so many replies besides those to its blocks.
    pub fn new(alloc: Global, meter: Meter<'t, E, C>, besides: u64) -> Receiving<'t, E, C> {
        Receiving {
            alloc,
            meter,
            besides,
            last: None,
            prefix: Vec::new(alloc),
            has_got_on: false,
            awaited: Awaited::Sender,
            replies: 0,
            blocks: 0,
            done: 0,
        }
    }

    /// The name of the file that the sink was last given, where there was memory for it, and what
    /// came of late. The showing ends.
    pub fn end(&mut self) -> (Option<String>, Lately) {
        self.meter.end();
        let lately = self.meter.lately();
        let seen = if is_crammed(self.prefix.as_slice()) {
            Sight::Crammed
        } else {
            lately.seen
        };
        (self.last.take(), Lately { seen, ..lately })
    }

    /// The name in the delivery that came last, where that is a block 0, and its name is text.
    pub fn named(&self) -> Option<String> {
        match self.prefix.as_slice() {
            [SOH | STX, 0, 0xff, body @ ..] => { String::from_str(self.alloc, name_in(body)?).ok() }
            _ => None,
        }
    }

    /// A delivery is waited for.
    fn wait(&mut self) {
        self.prefix.clear();
        self.has_got_on = false;
        let awaited = self.awaited;
        self.meter.wait(awaited);
    }

    /// These bytes came.
    fn hear(&mut self, bytes: &[u8]) {
        self.meter.hear(bytes);
        self.keep(bytes);
        if let Some(number) = number_in(self.prefix.as_slice()) {
            self.meter.meet(number == 1);
        }
    }

    /// Of these bytes those are kept that are among the first of the delivery.
    fn keep(&mut self, bytes: &[u8]) {
        let room = PREFIX_BYTES.saturating_sub(self.prefix.len());
        let _ = self
            .prefix
            .extend_from_slice(&bytes[..room.min(bytes.len())]);
    }

    /// What it wrote came back.
    fn echo(&mut self) {
        self.meter.echo(EchoMessage::ToReceiver);
    }

    /// A file of this header is begun.
    fn begin(&mut self, header: &Header) {
        self.last = String::from_str(self.alloc, header.name()).ok();
        self.restart();
        self.get_on();
        self.meter.introduce(Coming(header));
        self.meter.begin(header.name(), header.length());
    }

    /// Nothing of the file has come yet.
    fn restart(&mut self) {
        self.awaited = Awaited::More;
        self.replies = 0;
        self.blocks = 0;
        self.done = 0;
    }

    /// For the file the part of this name was removed.
    fn replace(&mut self, part: &str) {
        self.meter.tell(FileMessage::PartIsReplaced(part));
    }

    /// A block of so many bytes was stored.
    fn add(&mut self, count: usize) {
        self.blocks = self.blocks.saturating_add(1);
        self.done = self.done.saturating_add(count as u64);
        self.get_on();
        let repeats = self.replies.saturating_sub(self.blocks);
        self.meter.advance(self.done, repeats);
    }

    /// The file is whole.
    fn finish(&mut self) {
        let replies = self.blocks.saturating_add(self.besides);
        self.get_on();
        self.meter.finish(self.replies.saturating_sub(replies));
    }

    /// No file is shown any more.
    fn close(&mut self) {
        self.meter.end();
    }

    /// What came last brought it further.
    fn get_on(&mut self) {
        self.has_got_on = true;
        self.meter.get_on();
    }

    /// A block behind the length of the file came.
    fn pass(&mut self) {
        self.blocks = self.blocks.saturating_add(1);
        self.meter.pass();
    }

    /// This is its answer to what came last.
    fn answer(&mut self, answer: &[u8]) {
        self.replies = self.replies.saturating_add(1);
        if self.has_got_on || !is_taken(answer) {
            return;
        }
        match stale_of(self.prefix.as_slice(), self.blocks) {
            Some(Stale::Copy) => self.meter.know_again(),
            Some(Stale::Past) => self.pass(),
            None => {}
        }
    }
}

/// Watches the sink of a receiver and its port where somebody looks, and shows how far its files
/// are, or whom it waits for. Its copies share what they show.
#[derive(Drop)]
pub struct ReceiveWatch<'s, 't, E: Write + Drop, C: Clock + Drop> {
    /// What is shown.
    pub shown: &'s RefCell<Receiving<'t, E, C>>,
    /// Whether somebody looks.
    pub is_looked_at: bool,
}

impl<'s, 't, E: Write + Drop, C: Clock + Drop> ReceiveWatch<'s, 't, E, C> {
    /// A block of so many bytes was stored.
    // kept out of the way of a block that nobody looks at
    #[cold]
    #[inline(never)]
    fn block(&self, count: usize) {
        if let Ok(mut shown) = self.shown.try_borrow_mut() {
            shown.add(count);
        }
    }

    /// This was written.
    #[cold]
    #[inline(never)]
    fn reply(&self, bytes: &[u8]) {
        if let Ok(mut shown) = self.shown.try_borrow_mut() {
            shown.answer(bytes);
        }
    }
}

impl<'s, 't, E: Write + Drop, C: Clock + Drop> PortWatch for ReceiveWatch<'s, 't, E, C> {
    #[inline(always)]
    fn waits(&mut self, wait: Wait) {
        if !self.is_looked_at || wait != Wait::Reply {
            return;
        }
        if let Ok(mut shown) = self.shown.try_borrow_mut() {
            shown.wait();
        }
    }

    #[inline(always)]
    fn came(&mut self, bytes: &[u8]) {
        if !self.is_looked_at {
            return;
        }
        if let Ok(mut shown) = self.shown.try_borrow_mut() {
            shown.hear(bytes);
        }
    }

    #[inline(always)]
    fn wrote(&mut self, bytes: &[u8]) {
        if self.is_looked_at {
            self.reply(bytes);
        }
    }

    #[cold]
    fn echoed(&mut self) {
        if !self.is_looked_at {
            return;
        }
        if let Ok(mut shown) = self.shown.try_borrow_mut() {
            shown.echo();
        }
    }
}

impl<'s, 't, E: Write + Drop, C: Clock + Drop> SinkWatch for ReceiveWatch<'s, 't, E, C> {
    fn begins(&mut self, header: &Header) {
        if !self.is_looked_at {
            return;
        }
        if let Ok(mut shown) = self.shown.try_borrow_mut() {
            shown.begin(header);
        }
    }

    #[cold]
    fn replaced(&mut self, part: &str) {
        if !self.is_looked_at {
            return;
        }
        if let Ok(mut shown) = self.shown.try_borrow_mut() {
            shown.replace(part);
        }
    }

    #[inline(always)]
    fn added(&mut self, count: usize) {
        if self.is_looked_at {
            self.block(count);
        }
    }

    fn committed(&mut self) {
        if let Ok(mut shown) = self.shown.try_borrow_mut() {
            shown.finish();
        }
    }

    fn ended(&mut self) {
        if let Ok(mut shown) = self.shown.try_borrow_mut() {
            shown.close();
        }
    }
}
