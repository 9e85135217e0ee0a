//! What the sender of the files wrote, told from its front on.

ghost use Rattle.std.specs.Prelude.{◌≡◌, ◌<◌, length};
ghost use Rattle.ym_frame.specs.WholeFrame.{length_in};
ghost use Rattle.ym_explain.specs.SentPrefix.{IsToldSent, IsToldDamage, damage_limit};

use crate::passed::{Passed, damage_len, prefix_of};
use crate::told::{FrameKind, SendPosition, tell};
use ym_frame::{Broken, SOH, STX, Whole};

/// What stands at the front of what the sender wrote.
#[derive(Clone, Copy)]
pub enum SentLine {
    /// A whole frame.
    Frame {
        /// Which frame it is.
        whole: Whole,
        /// What it is to its session.
        kind: FrameKind,
    },
    /// A damaged frame.
    Damage {
        /// Where and why it is broken.
        broken: Broken,
        /// Whether a whole block begins before its end.
        short: bool,
    },
    /// One byte with which no frame begins.
    Junk,
}

/// What is told of the front of what the sender wrote.
#[derive(Clone, Copy)]
pub struct SentTold {
    /// What stands there.
    pub line: SentLine,
    /// How many bytes it has: 1 to 1029.
    pub used: usize,
    /// Where the sender stands behind it.
    pub position: SendPosition,
}

/// What stands at the front of what the sender wrote, where it stood at this position. `None` where
/// the bytes may go on to a frame. A damaged frame is told by the bytes that are there: 2058 show
/// where the next block begins.
#[tactic(auto, unfolding(ym_frame::specs::Frame::verdict_of))]
pub fn tell_sent(position: SendPosition, bytes: &[u8]) -> Option<SentTold>
    ensures { IsToldSent position bytes.now result }
{
    match bytes {
        [] => None,
        _ => tell_some(position, bytes),
    }
}

/// The same where there are bytes.
fn tell_some(position: SendPosition, bytes: &[u8]) -> Option<SentTold>
    requires { 0 < length bytes.now }
    ensures { IsToldSent position bytes.now result }
{
    match prefix_of(bytes) {
        Passed::Open => None,
        Passed::Junk => Some(SentTold {
            line: SentLine::Junk,
            used: 1,
            position,
        }),
        Passed::Damaged(broken) => Some(told_damage(position, broken, bytes)),
        Passed::Frame(whole) => {
            let told = tell(position, &whole.item(bytes));
            Some(SentTold {
                line: SentLine::Frame {
                    whole,
                    kind: told.kind,
                },
                used: frame_len(whole),
                position: told.position,
            })
        }
    }
}

/// How many bytes the frame has.
fn frame_len(whole: Whole) -> usize
    ensures { result ≡ length_in whole }
{
    match whole {
        Whole::Block(size) => size.body_len() + 5,
        Whole::Eot => 1,
        Whole::Cancel => 2,
    }
}

/// The frame at the front, which is broken there.
fn told_damage(position: SendPosition, broken: Broken, bytes: &[u8]) -> SentTold
    requires { 0 < length bytes.now }
    ensures { IsToldDamage position bytes.now broken result }
{
    let most = most_damaged(bytes);
    let used = damage_len(bytes, most);
    SentTold {
        line: SentLine::Damage {
            broken,
            short: used < most,
        },
        used,
        position,
    }
}

/// How many of the bytes can belong to the frame that begins with the first of them.
fn most_damaged(bytes: &[u8]) -> usize
    requires { 0 < length bytes.now }
    ensures exact { result ≡ damage_limit bytes.now }
    ensures one { 0 < result }
{
    match bytes[0] {
        SOH => bytes.len().min(133),
        STX => bytes.len().min(1029),
        _ => 1,
    }
}
