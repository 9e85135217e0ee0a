//! The sender's table written out, for deliveries of at most two control bytes.

ghost use Rattle.std.specs.Prelude.{◌≡◌, ◌<◌, [], ◌∷◌};
ghost use Rattle.std.specs.List.{cons_option};
ghost use Rattle.ym_core.specs.Position as positions;
ghost use Rattle.ym_core.specs.Scan as scan;
ghost use Rattle.ym_core.specs.Standing as table;

use ym_core::{Mode, Position, Scan, SendState, SendStep as Step, Standing, Stop};
use ym_frame::Control;

/// The position behind a position, of a batch of files of so many data blocks.
fn next_of(counts: &[u64], position: Position) -> Position
    ensures { result ≡ positions.next_of counts.now position }
{
    match position {
        Position::Header { file } => {
            if counts.get(file).copied().unwrap_or(0) > 0 {
                Position::Block { file, number: 1 }
            } else {
                Position::Eot { file }
            }
        }
        Position::Block { file, number } => {
            if counts.get(file).copied().unwrap_or(0) > number {
                Position::Block {
                    file,
                    number: number + 1,
                }
            } else {
                Position::Eot { file }
            }
        }
        Position::Eot { file } => {
            if file < counts.len() && file + 1 < counts.len() {
                Position::Header { file: file + 1 }
            } else {
                Position::End
            }
        }
        Position::End => Position::End,
    }
}

/// What one control byte does.
fn read_control(counts: &[u64], mode: Mode, control: Control, position: Position) -> Scan
    ensures { result ≡ scan.reads_control counts.now mode control position }
{
    let next = next_of(counts, position);
    let (position, mode, stop) = match (mode, control, position) {
        (Mode::Sent, Control::Ack, Position::Block { .. }) => (next, Mode::Sent, Some(Stop::Sends)),
        (Mode::Sent, Control::Ack, Position::Header { .. }) => (next, Mode::Waiting, None),
        (Mode::Sent, Control::Ack, Position::Eot { .. }) => (next, Mode::Waiting, None),
        (Mode::Sent, Control::Ack, Position::End) => (position, Mode::Sent, Some(Stop::Finishes)),
        (Mode::Sent, Control::Nak, _) => (position, Mode::Sent, Some(Stop::Again)),
        (Mode::Sent, Control::Start, _) => (position, Mode::Sent, Some(Stop::Again)),
        (Mode::Waiting, Control::Start, _) => (position, Mode::Sent, Some(Stop::Sends)),
        (Mode::Waiting, Control::Ack, _) => (position, Mode::Waiting, None),
        (Mode::Waiting, Control::Nak, _) => (position, Mode::Waiting, None),
        (_, Control::Can, _) => (position, mode, None),
    };
    Scan {
        position,
        mode,
        stop,
    }
}

/// Reads two control bytes.
#[tactic(auto, using(crate::proofs::TwoControls::two_controls))]
fn reads_two(counts: &[u64], position: Position, mode: Mode, one: Control, other: Control) -> Scan
    ensures { result ≡ scan.reads counts.now position mode (one ∷ other ∷ []) }
{
    if one == Control::Can {
        if other == Control::Can {
            return Scan {
                position,
                mode,
                stop: Some(Stop::Cancels),
            };
        }
        return read_control(counts, mode, other, position);
    }
    let read = read_control(counts, mode, one, position);
    if read.stop.is_some() {
        return read;
    }
    read_control(counts, read.mode, other, read.position)
}

/// Reads at most two control bytes.
#[tactic(auto, using(crate::proofs::TwoControls::one_control))]
fn reads(
    counts: &[u64],
    position: Position,
    mode: Mode,
    first: Option<Control>,
    second: Option<Control>,
) -> Scan
    ensures { result
        ≡ scan.reads counts.now position mode (cons_option first (cons_option second [])) }
{
    match (first, second) {
        (None, None) => Scan {
            position,
            mode,
            stop: None,
        },
        (Some(control), None) => read_control(counts, mode, control, position),
        (None, Some(control)) => read_control(counts, mode, control, position),
        (Some(one), Some(other)) => reads_two(counts, position, mode, one, other),
    }
}

/// A delivery without progress.
fn missed(standing: Standing) -> Step
    requires { standing.retries < 10 }
    ensures { result ≡ table.missed standing }
{
    let tenth = standing.retries == 9;
    Step {
        standing: Standing {
            retries: standing.retries + 1,
            state: if tenth {
                SendState::NoReply
            } else {
                standing.state
            },
            cancel_pending: tenth || standing.cancel_pending,
            ..standing
        },
        fills: None,
    }
}

/// What at most two control bytes make of a sender.
pub fn hears(
    counts: &[u64],
    standing: Standing,
    first: Option<Control>,
    second: Option<Control>,
) -> Step
    requires { standing.state ≡ SendState.Running → standing.retries < 10 }
    ensures { result ≡ table.hears counts.now standing (cons_option first (cons_option second [])) }
{
    if standing.state != SendState::Running {
        let standing = Standing {
            cancel_pending: false,
            ..standing
        };
        return Step {
            standing,
            fills: None,
        };
    }
    let Scan {
        position,
        mode,
        stop,
    } = reads(counts, standing.position, standing.mode, first, second);
    let moved = Standing {
        position,
        mode,
        retries: 0,
        ..standing
    };
    match stop {
        None if mode == standing.mode => missed(standing),
        None => Step {
            standing: moved,
            fills: None,
        },
        Some(Stop::Again) => missed(standing),
        Some(Stop::Sends) => Step {
            standing: moved,
            fills: Some(position),
        },
        Some(Stop::Finishes) => Step {
            standing: Standing {
                state: SendState::Finished,
                ..standing
            },
            fills: None,
        },
        Some(Stop::Cancels) => Step {
            standing: Standing {
                position,
                mode,
                state: SendState::Cancelled,
                ..standing
            },
            fills: None,
        },
    }
}
