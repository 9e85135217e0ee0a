//! Deliveries, and rounds of two.

use ym_frame::Bytes;

/// What becomes of the bytes that an end hands to the line.
#[derive(Drop)]
pub enum Delivery {
    /// They arrive as they were sent.
    Whole,
    /// Nothing arrives.
    Lost,
    /// These bytes arrive in their place: at most [`DELIVERY_LIMIT`](crate::DELIVERY_LIMIT), and
    /// the check shows the damage.
    Damaged(Bytes),
}

/// One round: a delivery from the sender to the receiver, and one back.
#[derive(Drop)]
pub struct Round {
    /// To the receiver.
    pub there: Delivery,
    /// To the sender.
    pub back: Delivery,
}

/// Which way a delivery goes.
#[derive(Clone, Copy, Debug, PartialEq, Eq)]
pub enum Way {
    /// To the receiver.
    There,
    /// To the sender.
    Back,
}

/// A delivery that was handed on.
#[derive(Drop)]
pub struct Handed {
    /// Which way it went.
    pub way: Way,
    /// Its bytes, none where the delivery was lost.
    pub bytes: Bytes,
}
