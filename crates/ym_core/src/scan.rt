//! How a sender reads a delivery: its control bytes, from the left.

ghost use Rattle.std.specs.Prelude.{◌≡◌};
ghost use Rattle.ym_core.specs.Position.{IsPosition};
ghost use Rattle.ym_core.specs.Scan as table;

use crate::batch_shape::BatchShape;
use crate::position::{Mode, Position, next_position};
use ym_frame::{Control, control_of};

/// Why the scan of a delivery stopped before its end.
#[derive(Clone, Copy, PartialEq, Eq)]
pub enum Stop {
    /// The frame of the position that was come to is to be sent.
    Sends,
    /// The frame that is out is to be sent again.
    Again,
    /// The end block was acknowledged.
    Finishes,
    /// The other end cancelled.
    Cancels,
}

/// Where the scan of a delivery has come to.
#[derive(Clone, Copy, PartialEq, Eq)]
pub struct Scan {
    /// The frame that is out or to go.
    pub position: Position,
    /// Whether that frame is out.
    pub mode: Mode,
    /// What ended the scan, where something has.
    pub stop: Option<Stop>,
}

/// The frame that is out was acknowledged.
fn acknowledged<B: BatchShape>(batch: &B, position: Position) -> Scan
    requires { IsPosition (B.counts batch.now) position }
    ensures reads { result ≡
        table.reads_control (B.counts batch.now) Mode.Sent Control.Ack position }
    ensures within { IsPosition (B.counts batch.now) result.position }
{
    let next = next_position(batch, position);
    match position {
        Position::Block { .. } => Scan {
            position: next,
            mode: Mode::Sent,
            stop: Some(Stop::Sends),
        },
        Position::Header { .. } | Position::Eot { .. } => Scan {
            position: next,
            mode: Mode::Waiting,
            stop: None,
        },
        Position::End => Scan {
            position,
            mode: Mode::Sent,
            stop: Some(Stop::Finishes),
        },
    }
}

/// Reads one control that begins no CAN CAN.
fn read_control<B: BatchShape>(batch: &B, position: Position, mode: Mode, control: Control) -> Scan
    requires { IsPosition (B.counts batch.now) position }
    ensures reads { result ≡ table.reads_control (B.counts batch.now) mode control position }
    ensures within { IsPosition (B.counts batch.now) result.position }
{
    match (mode, control) {
        (Mode::Sent, Control::Ack) => acknowledged(batch, position),
        (Mode::Sent, Control::Nak) | (Mode::Sent, Control::Start) => Scan {
            position,
            mode: Mode::Sent,
            stop: Some(Stop::Again),
        },
        (Mode::Waiting, Control::Start) => Scan {
            position,
            mode: Mode::Sent,
            stop: Some(Stop::Sends),
        },
        _ => Scan {
            position,
            mode,
            stop: None,
        },
    }
}

/// Reads a delivery, from a position and a mode on.
#[inline(always)]
pub fn read_delivery<B: BatchShape>(batch: &B, position: Position, mode: Mode, bytes: &[u8]) -> Scan
    requires { IsPosition (B.counts batch.now) position }
    ensures reads { result ≡
        table.reads (B.counts batch.now) position mode (table.controls_in bytes.now) }
    ensures within { IsPosition (B.counts batch.now) result.position }
{
    let mut read = Scan {
        position,
        mode,
        stop: None,
    };
    let mut after_can = false;
    for byte in bytes {
        if let Some(control) = control_of(*byte) {
            if control == Control::Can {
                if after_can {
                    read.stop = Some(Stop::Cancels);
                    return read;
                }
                after_can = true;
            } else {
                read = read_control(batch, read.position, read.mode, control);
                if read.stop.is_some() {
                    return read;
                }
                after_can = false;
            }
        }
    }
    read
}
