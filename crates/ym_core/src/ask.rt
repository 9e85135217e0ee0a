//! What a step of a receiver asks of its host.

use crate::receiver::ReceiverCore;
use ym_frame::Reply;
use ym_header::HeaderRef;

/// What the host has to do before a step is taken.
#[derive(Drop)]
pub enum Ask<'a> {
    /// Nothing.
    Nothing,
    /// A file begins.
    Begin(HeaderRef<'a>),
    /// The file goes on with these bytes, one at least.
    Add(&'a [u8]),
    /// The file is whole: its length has come.
    Commit,
}

/// One step of a receiver, as its table has it.
///
/// A host that has done what is asked keeps `core` and sends `reply`. One that could not keeps what
/// `ReceiverCore::failed` makes of the receiver before the step, and sends `Reply::Cancel`. One
/// that means to try again, as where it lacks memory, keeps the receiver before the step.
#[derive(Drop)]
pub struct Step<'a> {
    /// The receiver behind the step.
    pub core: ReceiverCore,
    /// The reply to the delivery.
    pub reply: Reply,
    /// What the host has to do first.
    pub ask: Ask<'a>,
}
