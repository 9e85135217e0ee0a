//! The line to a peer that is tried.

ghost use Rattle.std.specs.Prelude.{◌≡◌, ◌++◌, [], IfOk, OnOk, false, not};
ghost use Rattle.ym_judging.specs.Listening.{brought, is_within, said_in, written_on};
ghost use Rattle.ym_judging.specs.declared.line.TheConstants.{PIECE};
ghost use Rattle.ym_link.specs.Port.{read_gives};
ghost use Rattle.ym_port.specs.Wire.{Tape, after_read};

use crate::manner::Manner;
use crate::turn::{Heard, Turn};
use std::alloc::{AllocError, Global};
use ym_frame::{Broken, Why, whole_at};
use ym_judge::answer_bytes;
use ym_link::{Got, PortFault};
use ym_port::Wire;

/// How many milliseconds an answer is waited for, the first one, and one that is not to come.
pub(crate) const ANSWER_MS: u64 = 20_000;

pub(crate) const FIRST_MS: u64 = 30_000;

pub(crate) const STILL_MS: u64 = 1_500;

/// For how many milliseconds C is waited for behind an ACK at the end of what came. A boot loader
/// may say it late: one erases its flash before, and U-Boot says it only when it has asked for data
/// and heard nothing. It is taken as soon as it is there, so who says it at once is not slowed.
const START_MS: u64 = 30_000;

/// For how many milliseconds it is listened for a peer that was sent CAN CAN and is to have ended.
/// One that has not asks again: U-Boot after 4 seconds, and `rb` of lrzsz after 10.
pub(crate) const ENDED_MS: u64 = 12_000;

/// After so many milliseconds without a byte nothing more comes.
const SETTLE_MS: u64 = 300;

/// The same in the midst of a frame, where a receiver waits for each byte as long. A machine that
/// has much to do may stand still there.
const WITHIN_MS: u64 = 1_000;

/// How many milliseconds late something is written.
const LATE_MS: u64 = 4_000;

/// How many milliseconds a case takes before it is ended.
const CASE_MS: u64 = 90_000;

/// How many bytes and how many pieces are taken at once.
const MOST_BYTES: usize = 8192;

const MOST_READS: u32 = 10_000;

/// The answer that C may come behind.
const ACK: u8 = 0x06;

/// How many bytes a read takes.
const PIECE: usize = 2048;

/// What is listened for.
#[derive(Clone, Copy)]
pub(crate) enum Ear {
    /// Answers, beside which there may be text.
    Answers,
    /// Frames.
    Frames,
}

/// The line to a peer, in the time of a case.
#[derive(Drop)]
pub(crate) struct Line<'w, W: Wire> {
    wire: &'w mut W,
    alloc: Global,
    ear: Ear,
    /// The moment at which the case ends.
    end: u64,
    /// Nothing will come any more.
    pub(crate) is_closed: bool,
    /// A read of it failed.
    pub(crate) has_failed: bool,
}

impl<'w, W: Wire> Line<'w, W> {
    /// A line on which a case begins.
    pub(crate) fn new(alloc: Global, wire: &'w mut W, ear: Ear) -> Line<'w, W>
        ensures ear { result.ear ≡ ear }
        ensures open { result.is_closed ≡ false }
    {
        let end = wire.moment().saturating_add(CASE_MS);
        Line {
            wire,
            alloc,
            ear,
            end,
            is_closed: false,
            has_failed: false,
        }
    }

    /// Whether the case has to end.
    pub(crate) fn is_over(&mut self) -> bool {
        self.is_closed || self.wire.moment() >= self.end
    }

    /// Writes these bytes. Where that fails nothing will come any more, as from a peer that has
    /// gone. Whether that is why, the wire knows: who has it has to look at its faults.
    pub(crate) fn write(&mut self, bytes: &[u8])
        ensures told { (u : Tape) → W.tells self.new.wire.now u → (t : Tape)
            × W.tells self.old.wire.now t
            × (u ≡ written_on self.old.is_closed (not self.new.is_closed) bytes.now t) }
        ensures ear { self.new.ear ≡ self.old.ear }
    {
        if !bytes.is_empty() && !self.is_closed && self.wire.write(bytes).is_err() {
            self.is_closed = true;
        }
    }

    /// What of these bytes is listened for.
    fn said(&self, bytes: &[u8]) -> Result<Vec<u8>, AllocError>
        ensures { IfOk result (λ said. said.items ≡ said_in self.now.ear bytes.now) }
    {
        match self.ear {
            Ear::Answers => answer_bytes(self.alloc, bytes),
            Ear::Frames => Vec::from_slice(self.alloc, bytes),
        }
    }

    /// Takes a piece that comes within this time, behind the others. The answer is whether more may
    /// come.
    fn take_piece(&mut self, millis: u64, bytes: &mut Vec<u8>) -> Result<bool, AllocError>
        ensures told { (u : Tape) → W.tells self.new.wire.now u → (t : Tape)
            × W.tells self.old.wire.now t × (u ≡ after_read millis PIECE t)
            × OnOk result (bytes.new.items
            ≡ bytes.old.items ++ brought (read_gives PIECE t.coming)) }
        ensures ear { self.new.ear ≡ self.old.ear }
    {
        let mut piece = [0; PIECE];
        match self.wire.read(millis, &mut piece) {
            Ok(Got::Bytes(count)) => {
                bytes.extend_from_slice(&piece[..count])?;
                Ok(bytes.len() < MOST_BYTES)
            }
            Ok(Got::Quiet) => Ok(false),
            Ok(Got::Closed) => {
                self.is_closed = true;
                Ok(false)
            }
            Err(PortFault) => {
                self.is_closed = true;
                self.has_failed = true;
                Ok(false)
            }
        }
    }

    /// Whether these bytes are the front of a frame that is listened for.
    fn is_within(&self, bytes: &[u8]) -> bool
        ensures { result ≡ is_within self.now.ear bytes.now }
    {
        match (self.ear, whole_at(bytes)) {
            (Ear::Frames, Err(Broken { why: Why::Cut, .. })) => true,
            _ => false,
        }
    }

    /// Takes pieces until one is missing for a while.
    fn take_pieces(&mut self, bytes: &mut Vec<u8>) -> Result<(), AllocError> {
        for _done in 0..MOST_READS {
            let patience = if self.is_within(bytes.as_slice()) {
                WITHIN_MS
            } else {
                SETTLE_MS
            };
            if !self.take_piece(patience, bytes)? {
                break;
            }
        }
        Ok(())
    }

    /// Takes what comes within this time and behind it, behind the others. The answer is the moment
    /// at which it came, or at which the time was over.
    fn take_delivery(&mut self, millis: u64, bytes: &mut Vec<u8>) -> Result<u64, AllocError> {
        let more = self.take_piece(millis, bytes)?;
        let now = self.wire.moment();
        if more {
            self.take_pieces(bytes)?;
        }
        Ok(now)
    }

    /// What comes within so many milliseconds, until it is said.
    pub(crate) fn listen(&mut self, millis: u64) -> Result<(Vec<u8>, u64), AllocError> {
        let start = self.wire.moment();
        let until = start.saturating_add(millis);
        let mut bytes = Vec::new(self.alloc);
        let mut said = Vec::new(self.alloc);
        let mut now = start;
        for _done in 0..MOST_READS {
            if self.is_closed || now >= until || !said.is_empty() {
                break;
            }
            now = self.take_delivery(until - now, &mut bytes)?;
            said = self.said(bytes.as_slice())?;
        }
        Ok((said, now.saturating_sub(start) / 100))
    }

    /// What comes in a whole pause.
    fn linger(&mut self) -> Result<Vec<u8>, AllocError> {
        let until = self.wire.moment().saturating_add(LATE_MS);
        let mut bytes = Vec::new(self.alloc);
        for _done in 0..MOST_READS {
            let left = until.saturating_sub(self.wire.moment());
            if left == 0 || self.is_closed {
                break;
            }
            self.take_piece(left, &mut bytes)?;
        }
        self.said(bytes.as_slice())
    }

    /// What comes before the turn's bytes are written for the last time.
    pub(crate) fn before(&mut self, turn: &Turn) -> Result<Vec<u8>, AllocError>
        ensures { turn.now.manner ≡ Manner.Once → IfOk result (λ said. said.items ≡ []) }
    {
        match turn.manner {
            Manner::Once => Ok(Vec::new(self.alloc)),
            Manner::Again => {
                self.write(turn.out.as_slice());
                Ok(self.listen(ANSWER_MS)?.0)
            }
            Manner::Late => Ok(self.listen(LATE_MS)?.0),
            Manner::LateStart => self.linger(),
            Manner::WhenAsked => Ok(self.listen(FIRST_MS)?.0),
        }
    }

    /// Writes the turn's bytes for the last time, and takes what comes within so many milliseconds.
    pub(crate) fn behind(
        &mut self,
        turn: &Turn,
        before: Vec<u8>,
        millis: u64,
    ) -> Result<Heard, AllocError>
        ensures before { IfOk result (λ heard. heard.before ≡ before) }
        ensures gone { IfOk result (λ heard. heard.is_gone ≡ self.old.is_closed) }
        ensures late { IfOk result (λ heard. heard.late.items ≡ []) }
    {
        let is_gone = self.is_closed;
        self.write(turn.out.as_slice());
        let (bytes, tenths) = self.listen(millis)?;
        Ok(Heard {
            before,
            bytes,
            late: Vec::new(self.alloc),
            tenths,
            is_gone,
        })
    }

    /// Takes what comes behind an ACK at the end, where C is to come.
    pub(crate) fn wait_for_start(&mut self, heard: &mut Heard) -> Result<(), AllocError>
        ensures before { heard.new.before ≡ heard.old.before }
        ensures bytes { heard.new.bytes ≡ heard.old.bytes }
        ensures tenths { heard.new.tenths ≡ heard.old.tenths }
        ensures gone { heard.new.is_gone ≡ heard.old.is_gone }
    {
        if heard.bytes.as_slice().ends_with(&[ACK]) && !self.is_closed {
            let (rest, _) = self.listen(START_MS)?;
            heard.late = rest;
        }
        Ok(())
    }
}
