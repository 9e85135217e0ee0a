//! What a receiver that is tried has said in a turn, and what it has done by that.

ghost use Rattle.std.specs.Prelude.{◌≡◌, ◌++◌, IfOk};
ghost use Rattle.ym_judging.specs.JudgedSteps.{has_acknowledged, has_cancelled};
ghost use Rattle.ym_judging.specs.Listening.{said_by};

use crate::turn::{Heard, Turn};
use std::alloc::{AllocError, Global};
use ym_frame::Reply;
use ym_judge::{Act, Twist};

/// Whether a receiver that did this has acknowledged.
pub(crate) fn is_acknowledged(did: Act) -> bool
    ensures { result ≡ has_acknowledged did }
{
    match did {
        Act::Answer(Reply::Ack | Reply::AckStart) => true,
        Act::Answers(Reply::Ack | Reply::AckStart, _) => true,
        Act::Answers(_, Reply::Ack | Reply::AckStart) => true,
        _ => false,
    }
}

/// Whether a receiver that did this has cancelled.
pub(crate) fn has_cancelled(did: Act) -> bool
    ensures { result ≡ has_cancelled did }
{
    match did {
        Act::Answer(Reply::Cancel) => true,
        Act::Answers(Reply::Cancel, _) => true,
        Act::Answers(_, Reply::Cancel) => true,
        _ => false,
    }
}

/// These bytes, and those behind them.
pub(crate) fn joined(alloc: Global, prefix: &[u8], rest: &[u8]) -> Result<Vec<u8>, AllocError>
    ensures { IfOk result (λ bytes. bytes.items ≡ prefix.now ++ rest.now) }
{
    let mut bytes = Vec::from_slice(alloc, prefix)?;
    bytes.extend_from_slice(rest)?;
    Ok(bytes)
}

/// What counts as the answer of a turn.
pub(crate) fn said_by(alloc: Global, turn: &Turn, heard: &Heard) -> Result<Vec<u8>, AllocError>
    ensures { IfOk result (λ said. said.items ≡ said_by turn.now.twist heard.now) }
{
    let mut said = joined(alloc, heard.before.as_slice(), heard.bytes.as_slice())?;
    if turn.twist != Some(Twist::Prompt) {
        said.extend_from_slice(heard.late.as_slice())?;
    }
    Ok(said)
}
