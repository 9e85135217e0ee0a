//! What was seen of a run.

ghost use Rattle.std.specs.Prelude.{◌≡◌, Some};
ghost use Rattle.ym_frame.specs.Frame.{IsFrame};
ghost use Rattle.ym_frame.specs.declared.frame.Item.{Item};
ghost use Rattle.ym_line.specs.Damage.{how_of};
ghost use Rattle.ym_line.specs.TraceText.{what_text, how_text};
ghost use Rattle.ym_line.specs.What.{what_is, what_of};

use crate::delivery::Delivery;
use std::fmt;
use ym_frame::{CAN, EOT, Reply, SOH, STX};
use ym_link::{RecvState, SendState};

/// What a sender had to send.
#[derive(Clone, Copy)]
pub enum What {
    /// Nothing: it waits, or has ended.
    Nothing,
    /// A block: its number, and how many data bytes it has (128 or 1024).
    Block { number: u8, length: u16 },
    /// The end of a file's data.
    Eot,
    /// CAN CAN.
    Can,
}

impl What {
    /// What a frame is, by its first bytes. No bytes are nothing.
    pub(crate) fn of_frame(frame: &[u8]) -> Self
        ensures bytes { result ≡ what_of frame.now }
        ensures item { (item : Item) → IsFrame item frame.now → result ≡ what_is item }
    {
        match frame {
            [EOT, ..] => What::Eot,
            [CAN, ..] => What::Can,
            [SOH, number, ..] => What::Block {
                number: *number,
                length: 128,
            },
            [STX, number, ..] => What::Block {
                number: *number,
                length: 1024,
            },
            _ => What::Nothing,
        }
    }
}

impl fmt::Display for What {
    ghost output = { λ what. Some (what_text what) };

    fn fmt<W: fmt::Write>(&self, f: &mut fmt::Formatter<W>) -> fmt::Result {
        match self {
            What::Nothing => f.write_str("-"),
            What::Block { number, length } => write!(f, "block {number} {length}"),
            What::Eot => f.write_str("eot"),
            What::Can => f.write_str("can"),
        }
    }
}

/// How a delivery was given.
#[derive(Clone, Copy)]
pub enum How {
    Whole,
    Lost,
    Damaged,
}

impl How {
    /// How a delivery is given.
    pub(crate) fn of_delivery(delivery: &Delivery) -> Self
        ensures { result ≡ how_of delivery.now }
    {
        match delivery {
            Delivery::Whole => How::Whole,
            Delivery::Lost => How::Lost,
            Delivery::Damaged(_) => How::Damaged,
        }
    }
}

impl fmt::Display for How {
    ghost output = { λ how. Some (how_text how) };

    fn fmt<W: fmt::Write>(&self, f: &mut fmt::Formatter<W>) -> fmt::Result {
        f.write_str(match self {
            How::Whole => "whole",
            How::Lost => "lost",
            How::Damaged => "damaged",
        })
    }
}

/// What was seen of one round: what the sender had to send and what the receiver replied, as they
/// were before loss and damage, and how both deliveries were given.
#[derive(Clone, Copy)]
pub struct Seen {
    /// What the sender had to send.
    pub what: What,
    /// How the delivery to the receiver was given.
    pub there: How,
    /// What the receiver replied.
    pub reply: Reply,
    /// How the delivery to the sender was given.
    pub back: How,
}

/// What was seen of a run.
#[derive(Drop)]
pub struct Trace {
    /// Its rounds, in order.
    pub rounds: Vec<Seen>,
    /// How many files the sender reports as done.
    pub done: usize,
    /// How the sender has ended.
    pub send: SendState,
    /// How many files the receiver has committed.
    pub files: usize,
    /// How the receiver has ended.
    pub recv: RecvState,
}
