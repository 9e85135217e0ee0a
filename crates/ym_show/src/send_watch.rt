//! Who watches the port of a sender, and what is shown of it.

use crate::meter::Meter;
use crate::watched_port::PortWatch;
use std::cell::RefCell;
use std::io::Write;
use std::time::Clock;
use ym_header::{HeaderRef, ZeroRef, read_borrowed};
use ym_link::Wait;
use ym_text::{Awaited, EchoMessage, Lately};

/// The first bytes of frames.
const SHORT: u8 = 0x01;

const LONG: u8 = 0x02;

const EOT: u8 = 0x04;

/// Where the frames of a sender are.
#[derive(Clone, Copy)]
enum SendStage {
    /// No file is under way, or its end was told.
    Between,
    /// The block of this number was written last, with so many bytes.
    In { number: u8, count: u64 },
}

/// The header of the file that begins with a block 0 of this body, where one does.
fn header_in(body: &[u8]) -> Option<HeaderRef<'_>> {
    if body.len() != 128 && body.len() != 1024 {
        return None;
    }
    match read_borrowed(body) {
        Ok(ZeroRef::File(header)) => Some(header),
        _ => None,
    }
}

/// What is shown of a sender: how far its files are, or whom it waits for. A block is done when the
/// next one is written.
#[derive(Drop)]
pub struct Sending<'t, E: Write + Drop, C: Clock + Drop> {
    meter: Meter<'t, E, C>,
    stage: SendStage,
    /// What it waits for.
    awaited: Awaited,
    done: u64,
    repeats: u64,
}

impl<'t, E: Write + Drop, C: Clock + Drop> Sending<'t, E, C> {
    /// Nothing was written yet.
    pub fn new(meter: Meter<'t, E, C>) -> Sending<'t, E, C> {
        Sending {
            meter,
            stage: SendStage::Between,
            awaited: Awaited::Asking,
            done: 0,
            repeats: 0,
        }
    }

    /// What came of late. The showing ends.
    pub fn end(&mut self) -> Lately {
        self.meter.end();
        self.meter.lately()
    }

    /// An answer is waited for.
    fn wait(&mut self) {
        let awaited = self.awaited;
        self.meter.wait(awaited);
    }

    /// These bytes came.
    fn hear(&mut self, bytes: &[u8]) {
        self.meter.hear(bytes);
    }

    /// What it wrote came back.
    fn echo(&mut self) {
        self.meter.echo(EchoMessage::ToSender);
    }

    /// A block 0 was written: the file before it is whole, and another one begins, or none.
    fn header(&mut self, body: &[u8]) {
        self.meter.finish(self.repeats);
        self.done = 0;
        self.repeats = 0;
        if let Some(header) = header_in(body) {
            self.meter.begin(header.name(), header.length());
            self.stage = SendStage::In {
                number: 0,
                count: 0,
            };
        }
    }

    /// A block was written.
    fn block(&mut self, number: u8, body: &[u8]) {
        match self.stage {
            SendStage::Between => {
                self.meter.start();
                self.header(body);
            }
            SendStage::In { number: last, .. } if last == number => {
                self.meter.repeat();
                self.repeats = self.repeats.saturating_add(1);
            }
            SendStage::In { count, .. } => {
                self.meter.get_on();
                self.done = self.done.saturating_add(count);
                self.stage = SendStage::In {
                    number,
                    count: body.len() as u64,
                };
            }
        }
        self.meter.advance(self.done, self.repeats);
    }

    /// A frame was written.
    fn look_at(&mut self, bytes: &[u8]) {
        self.awaited = Awaited::Answer;
        match bytes {
            [SHORT | LONG, number, _, body @ .., _, _] => self.block(*number, body),
            [EOT] => self.end_file(),
            _ => {}
        }
    }

    /// An EOT was written.
    fn end_file(&mut self) {
        if let SendStage::In { .. } = self.stage {
            self.meter.get_on();
        }
        self.stage = SendStage::Between;
    }
}

/// Watches the port of a sender where somebody looks. Its copies share what they show.
#[derive(Drop)]
pub struct SendWatch<'s, 't, E: Write + Drop, C: Clock + Drop> {
    /// What is shown.
    pub shown: &'s RefCell<Sending<'t, E, C>>,
    /// Whether somebody looks.
    pub is_looked_at: bool,
}

impl<'s, 't, E: Write + Drop, C: Clock + Drop> SendWatch<'s, 't, E, C> {
    /// A frame was written.
    // kept out of the way of a write that nobody looks at
    #[cold]
    #[inline(never)]
    fn frame(&self, bytes: &[u8]) {
        if let Ok(mut shown) = self.shown.try_borrow_mut() {
            shown.look_at(bytes);
        }
    }
}

impl<'s, 't, E: Write + Drop, C: Clock + Drop> PortWatch for SendWatch<'s, 't, E, C> {
    #[inline(always)]
    fn waits(&mut self, wait: Wait) {
        if !self.is_looked_at || wait != Wait::Reply {
            return;
        }
        if let Ok(mut shown) = self.shown.try_borrow_mut() {
            shown.wait();
        }
    }

    #[inline(always)]
    fn came(&mut self, bytes: &[u8]) {
        if !self.is_looked_at {
            return;
        }
        if let Ok(mut shown) = self.shown.try_borrow_mut() {
            shown.hear(bytes);
        }
    }

    #[inline(always)]
    fn wrote(&mut self, bytes: &[u8]) {
        if self.is_looked_at {
            self.frame(bytes);
        }
    }

    #[cold]
    fn echoed(&mut self) {
        if !self.is_looked_at {
            return;
        }
        if let Ok(mut shown) = self.shown.try_borrow_mut() {
            shown.echo();
        }
    }
}
