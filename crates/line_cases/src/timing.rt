//! The machine without IO that tells when an end waits, and lets the line clear.
//!
//! `timing sender` and `timing receiver` have what is asked of it in the part behind them, in
//! order: `ACT:VALUE:NOW:ANSWER`, with the moment in milliseconds and the answer that the model of
//! the line gives (`tools/line_model/compare.py`).
//!
//! - `byte`: a byte came; how much of it is heard.
//! - `until`: until when a read waits, 0 for a reply and 1 within one.
//! - `expired`: such a read waited in vain; what it comes to.
//! - `purge`: a frame is to be written, by its number; until when the line clears.
//! - `dropped`: a byte was dropped; until when it clears then.
//! - `wrote`: the frame was written; what was learned, and what is owed.
//! - `cancel`: whether CAN CAN is to be heard.

use super::words::Unread;
use ym_heard::Say;
use ym_timing::{Expected, Owed, Purge, Role, Timing, Vain};

/// The frames that are written, and the replies.
fn frame(index: Option<u8>) -> &'static [u8] {
    match index {
        Some(0) => &[1, 0, 255, 97, 26],
        Some(1) => &[1, 1, 254, 6, 26],
        Some(2) => &[1, 2, 253, 6, 26],
        Some(3) => &[4],
        Some(4) => &[1, 0, 255, 0, 26],
        Some(5) => &[6],
        Some(6) => &[6, 67],
        Some(7) => &[21],
        Some(8) => &[67],
        Some(9) => &[1, 0, 255, 98, 0, 48, 32, 26],
        _ => &[],
    }
}

fn wait_of(kind: u8) -> Expected {
    match kind {
        0 => Expected::Reply,
        _ => Expected::Within,
    }
}

fn heard_of(say: Say) -> u64 {
    match say {
        Say::Nothing => 0,
        Say::Byte => 1,
        Say::AckAndByte => 2,
        Say::Start => 3,
    }
}

fn vain_of(vain: Vain) -> u64 {
    match vain {
        Vain::Again => 0,
        Vain::Ack => 1,
        Vain::Quiet => 2,
    }
}

/// The slowest answer, what is owed, and whether the line is shaken, in one number.
fn learned(timing: &Timing) -> u64 {
    let owed = match timing.out.owed {
        Owed::Nothing => 0,
        Owed::One => 2,
        Owed::Late => 4,
        Owed::Several => 6,
        Owed::Likely => 8,
    };
    let shaken = u64::from(0 < timing.shaken);
    timing
        .pace
        .slowest
        .saturating_mul(16)
        .saturating_add(owed + shaken)
}

/// A machine, the clearing before its next write, and which frame it wrote last.
#[derive(Clone, Copy)]
struct Run {
    timing: Timing,
    purge: Purge,
    written: Option<u8>,
}

impl Run {
    fn new(role: Role) -> Run {
        let timing = Timing::new(role);
        Run {
            timing,
            purge: timing.purge(&[], 0),
            written: None,
        }
    }

    /// Lets the line clear before a frame.
    fn clear(&mut self, index: u8, now: u64) -> u64 {
        self.purge = self.timing.purge(frame(Some(index)), now);
        self.timing.clear_at(self.purge)
    }

    fn drop_byte(&mut self, byte: u8, now: u64) -> u64 {
        self.purge = self
            .timing
            .dropped(self.purge, byte, frame(self.written), now);
        self.timing.clear_at(self.purge)
    }

    fn write(&mut self, index: u8, now: u64) -> u64 {
        self.timing.wrote(frame(Some(index)), self.purge, now);
        self.written = Some(index);
        learned(&self.timing)
    }

    fn answer(&mut self, act: &str, value: u8, now: u64) -> Option<u64> {
        Some(match act {
            "byte" => heard_of(self.timing.byte(value, frame(self.written), now)),
            "until" => self.timing.until(wait_of(value), now),
            "expired" => vain_of(self.timing.expired(wait_of(value), now)),
            "clearing" => self.clear(value, now),
            "dropped" => self.drop_byte(value, now),
            "wrote" => self.write(value, now),
            "cancel" => u64::from(self.timing.hears_cancel()),
            _ => return None,
        })
    }

    /// Whether what a word asks has the answer of the model.
    fn is_answered(&mut self, word: &str) -> Option<bool> {
        let (act, value, now, wanted) = act_of(word)?;
        Some(self.answer(act, value, now)? == wanted)
    }
}

/// An act, its value, its moment and the answer of the model.
fn act_of(word: &str) -> Option<(&str, u8, u64, u64)> {
    let (act, rest) = word.split_once(':')?;
    let (value, rest) = rest.split_once(':')?;
    let (now, answer) = rest.split_once(':')?;
    let (now, answer) = (now.parse::<u64>().ok()?, answer.parse::<u64>().ok()?);
    Some((act, value.parse::<u8>().ok()?, now, answer))
}

/// Asks what a case asks, and tells how many answers are those of the model.
pub fn ask(text: &mut String, head: &str, parts: &[&str]) -> Result<(), Unread> {
    let role = match head.split_whitespace().nth(1) {
        Some("sender") => Role::Sender,
        Some("receiver") => Role::Receiver,
        _ => return Err(Unread),
    };
    let mut run = Run::new(role);
    let (mut asked, mut alike) = (0usize, 0usize);
    for word in parts.first().ok_or(Unread)?.split_whitespace() {
        let is_alike = run.is_answered(word).ok_or(Unread)?;
        asked = asked.saturating_add(1);
        alike = alike.saturating_add(usize::from(is_alike));
    }
    writeln!(text, "  {alike} answers of {asked} are the model's")?;
    Ok(())
}
