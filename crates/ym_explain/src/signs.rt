//! What was seen of a session so far.

ghost use Rattle.std.specs.Prelude.{◌≡◌};
ghost use Rattle.ym_explain.specs.Noting.{noted, nothing_seen, without_end, with_byte, with_bytes, with_answer_junk, with_frame, with_eot, with_damage, in_batch as in_batch_of, with_block, with_answer, with_ack, is_quiet, is_unheard, is_unsent, with_nak};

use crate::asking::Asking;
use crate::told::{FrameKind, SendPosition};
use ym_frame::Control;

/// So many refusals in a row, and the receiver took nothing.
pub const REFUSALS: u8 = 10;

/// What passed, as far as a verdict asks for it.
#[derive(Clone, Copy)]
pub enum Sign {
    /// The sender wrote a byte.
    Byte(u8),
    /// The sender wrote the whole frame of a block.
    Block {
        /// Where it stood before.
        position: SendPosition,
        /// What the block is there.
        kind: FrameKind,
    },
    /// The sender wrote EOT.
    Eot,
    /// The sender cancelled.
    SenderCancel,
    /// A frame of the sender is damaged.
    Damage {
        /// Whether the next block begins before its end.
        short: bool,
        /// Whether its number and the complement agree.
        headed: bool,
    },
    /// The sender wrote a byte with which no frame begins.
    Junk,
    /// A file ended before its length.
    CutLength,
    /// A block came of a file all of whose length had come.
    PastLength,
    /// A block 0 has no room for the whole length of its file.
    NoRoom,
    /// An end greeted as ZMODEM does.
    Zmodem,
    /// The whole frame of a block came from the receiver.
    Echo,
    /// The receiver answered; a CAN that stands alone is no answer.
    Answer(Control),
    /// The receiver cancelled.
    ReceiverCancel,
    /// The receiver wrote a byte that is no answer.
    AnswerJunk(u8),
}

/// What was seen of a session.
#[derive(Clone, Copy)]
pub struct Signs {
    /// The receiver asked by C.
    pub asked: bool,
    /// A block came whole.
    pub framed: bool,
    /// An EOT came.
    pub eot: bool,
    /// A frame came damaged.
    pub damaged: bool,
    /// One of those had a number whose complement agrees.
    pub headed: bool,
    /// No whole block came behind the last of those.
    pub unmended: bool,
    /// A whole block came behind one of those.
    pub mended: bool,
    /// A frame came with fewer bytes than it has.
    pub short: bool,
    /// A byte came with which no frame begins.
    pub junk: bool,
    /// A byte of 80 or more came.
    pub high: bool,
    /// 11 or 13 came.
    pub flow: bool,
    /// 1A came.
    pub sub: bool,
    /// A block came before any block 0.
    pub unnamed: bool,
    /// A file ended before its length.
    pub cut_length: bool,
    /// A file went on past its length.
    pub past_length: bool,
    /// A block 0 had no room for the whole length of its file.
    pub no_room: bool,
    /// An end greeted as ZMODEM does.
    pub zmodem: bool,
    /// A block came from the receiver.
    pub echoed: bool,
    /// A byte of 80 or more that is no answer came from the receiver.
    pub back_high: bool,
    /// The receiver refused before anything was asked or sent. A NAK behind an EOT answers that.
    pub nak_first: bool,
    /// By what it asks, until a block came whole.
    pub asking: Asking,
    /// The receiver acknowledged or refused a frame that was out.
    pub heard: bool,
    /// So many frames have no answer yet, copies among them: 255 at most.
    pub out: u8,
    /// A whole block came once more.
    pub repeated: bool,
    /// So many frames came last without any answer between them: 255 at most.
    pub unanswered: u8,
    /// The block that ends the last batch came, and its sender did not cancel behind it.
    pub over: bool,
    /// That block was acknowledged, and no end cancelled behind it.
    pub finished: bool,
    /// The receiver acknowledged where no frame was out.
    pub ahead: bool,
    /// The sender went on to the next block where nothing had been asked or answered.
    pub went_on: bool,
    /// The receiver asked, and then acknowledged, where nothing had been sent.
    pub took_unseen: bool,
    /// The refusals in a row, at most ten.
    pub refusals: u8,
    /// Ten refusals came in a row.
    pub gave_up: bool,
    /// The sender cancelled, and the receiver had not.
    pub sender_cancelled: bool,
    /// The receiver cancelled, and the sender had not.
    pub receiver_cancelled: bool,
}

impl Signs {
    /// Nothing was seen.
    pub fn new() -> Signs
        ensures { result ≡ nothing_seen }
    {
        Signs {
            asked: false,
            framed: false,
            eot: false,
            damaged: false,
            headed: false,
            unmended: false,
            mended: false,
            short: false,
            junk: false,
            high: false,
            flow: false,
            sub: false,
            unnamed: false,
            cut_length: false,
            past_length: false,
            no_room: false,
            zmodem: false,
            echoed: false,
            back_high: false,
            nak_first: false,
            asking: Asking::Nothing,
            heard: false,
            out: 0,
            repeated: false,
            unanswered: 0,
            over: false,
            finished: false,
            ahead: false,
            went_on: false,
            took_unseen: false,
            refusals: 0,
            gave_up: false,
            sender_cancelled: false,
            receiver_cancelled: false,
        }
    }

    /// What was seen, with this event behind it.
    pub fn note(self, event: Sign) -> Signs
        ensures { result ≡ noted self event }
    {
        let mut seen = self;
        match event {
            Sign::Byte(byte) => return self.note_byte(byte),
            Sign::Block { position, kind } => return self.note_block(position, kind),
            Sign::Answer(control) => return self.note_answer(control),
            Sign::Eot => return self.note_eot(),
            Sign::SenderCancel => {
                seen = self.unended();
                seen.sender_cancelled = self.sender_cancelled || !self.receiver_cancelled;
            }
            Sign::Damage { short, headed } => return self.note_damage(short, headed),
            Sign::Junk => seen.junk = true,
            Sign::CutLength => seen.cut_length = true,
            Sign::PastLength => seen.past_length = true,
            Sign::NoRoom => seen.no_room = true,
            Sign::Zmodem => seen.zmodem = true,
            Sign::Echo => seen.echoed = true,
            Sign::ReceiverCancel => {
                seen.receiver_cancelled = self.receiver_cancelled || !self.sender_cancelled;
                seen.finished = false;
            }
            Sign::AnswerJunk(byte) => {
                seen.back_high = self.back_high || byte >= 0x80;
                if !self.framed {
                    seen.asking = self.asking.behind(byte);
                }
            }
        }
        seen
    }

    /// The same where the end of the batch does not count.
    fn unended(self) -> Signs
        ensures { result ≡ without_end self }
    {
        let mut seen = self;
        seen.over = false;
        seen.finished = false;
        seen
    }

    /// The same behind a byte of the sender.
    fn note_byte(self, byte: u8) -> Signs
        ensures { result ≡ with_byte self byte }
    {
        let mut seen = self;
        seen.high = self.high || byte >= 0x80;
        seen.flow = self.flow || byte == 0x11 || byte == 0x13;
        seen.sub = self.sub || byte == 0x1a;
        seen
    }

    /// The same behind these bytes of the sender, one after another.
    pub fn note_bytes(self, bytes: &[u8]) -> Signs
        ensures { result ≡ with_bytes self bytes.now }
    {
        let mut seen = self;
        for byte in bytes {
            seen = seen.note_byte(*byte);
        }
        seen
    }

    /// The same behind these bytes of the receiver that are no answer, one after another.
    pub fn note_answer_junk(self, bytes: &[u8]) -> Signs
        ensures { result ≡ with_answer_junk self bytes.now }
    {
        let mut seen = self;
        for byte in bytes {
            seen = seen.note(Sign::AnswerJunk(*byte));
        }
        seen
    }

    /// The same behind any frame, which has no answer yet.
    fn note_frame(self) -> Signs
        ensures { result ≡ with_frame self }
    {
        let mut seen = self;
        seen.out = self.out.saturating_add(1);
        seen.unanswered = self.unanswered.saturating_add(1);
        seen
    }

    /// The same behind an EOT.
    fn note_eot(self) -> Signs
        ensures { result ≡ with_eot self }
    {
        let mut seen = self.note_frame();
        seen.eot = true;
        seen
    }

    /// The same behind a damaged frame.
    fn note_damage(self, short: bool, headed: bool) -> Signs
        ensures { result ≡ with_damage self short headed }
    {
        let mut seen = self.note_frame();
        seen.damaged = true;
        seen.headed = self.headed || headed;
        seen.short = self.short || short;
        seen.unmended = true;
        seen
    }

    /// The same where this block comes. Behind the end another one than its copy is of another
    /// batch, of which the end before it, and a cancel there, tell nothing.
    fn in_batch(self, position: SendPosition, kind: FrameKind) -> Signs
        ensures { result ≡ in_batch_of self position kind }
    {
        match (position, kind) {
            (SendPosition::Over, FrameKind::Copy) => self,
            (SendPosition::Over, _) => {
                let mut seen = self.unended();
                seen.sender_cancelled = false;
                seen.receiver_cancelled = false;
                seen
            }
            _ => self,
        }
    }

    /// The same behind a whole block.
    fn note_block(self, position: SendPosition, kind: FrameKind) -> Signs
        ensures { result ≡ with_block self position kind }
    {
        let mut seen = self.in_batch(position, kind).note_frame();
        seen.went_on = seen.went_on || matches!(kind, FrameKind::Data) && seen.is_unheard();
        seen.framed = true;
        seen.mended = seen.mended || seen.unmended;
        seen.unmended = false;
        match (position, kind) {
            (SendPosition::Before, FrameKind::OutOfTurn) => seen.unnamed = true,
            (_, FrameKind::End) => seen.over = true,
            (_, FrameKind::Copy) => seen.repeated = true,
            _ => {}
        }
        seen
    }

    /// The same behind an answer.
    fn note_answer(self, control: Control) -> Signs
        ensures { result ≡ with_answer self control }
    {
        let mut seen = self;
        match control {
            Control::Start => {
                seen.asked = true;
                seen.asking = Asking::Usual;
                seen.unanswered = 0;
            }
            Control::Ack => return self.note_ack(),
            Control::Nak => return self.note_nak(),
            Control::Can => {}
        }
        seen
    }

    /// The same behind an ACK.
    fn note_ack(self) -> Signs
        ensures { result ≡ with_ack self }
    {
        let mut seen = self;
        seen.refusals = 0;
        seen.unanswered = 0;
        if self.out > 0 {
            seen.out = self.out - 1;
            seen.heard = true;
            seen.finished = self.finished || self.over;
        } else {
            seen.ahead = true;
            seen.took_unseen = self.took_unseen || self.asked && self.is_unsent();
        }
        seen
    }

    /// Whether the receiver asked and answered nothing.
    pub(crate) fn is_unheard(self) -> bool
        ensures { result ≡ is_unheard self }
    {
        !(self.asked || self.heard || self.ahead || self.receiver_cancelled || self.echoed)
            && matches!(self.asking, Asking::Nothing)
    }

    /// Whether the sender wrote nothing.
    pub(crate) fn is_unsent(self) -> bool
        ensures { result ≡ is_unsent self }
    {
        !(self.framed || self.damaged || self.eot)
            && !(self.junk || self.zmodem || self.sender_cancelled)
    }

    /// Whether nothing was asked or sent.
    fn is_quiet(self) -> bool
        ensures { result ≡ is_quiet self }
    {
        !(self.asked || self.framed || self.damaged || self.eot)
    }

    /// The same behind a NAK.
    fn note_nak(self) -> Signs
        ensures { result ≡ with_nak self }
    {
        let mut seen = self;
        seen.unanswered = 0;
        seen.out = self.out.saturating_sub(1);
        seen.heard = self.heard || self.out > 0;
        seen.nak_first = self.nak_first || self.is_quiet();
        if !self.framed {
            seen.asking = Asking::Usual;
        }
        if self.refusals < REFUSALS - 1 {
            seen.refusals = self.refusals + 1;
        } else {
            seen.refusals = REFUSALS;
            seen.gave_up = true;
        }
        seen
    }
}
