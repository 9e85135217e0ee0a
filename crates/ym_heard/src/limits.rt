//! The numbers of the rule, in milliseconds where nothing else is said.

/// How long more of a delivery is waited for at most, and how long a line is quiet behind what is
/// dropped.
pub const WITHIN: u64 = 1_000;

/// How long a sender waits for a reply before it knows its line.
pub const FIRST_REPLY: u64 = 10_000;

/// How long a receiver waits for a frame before it knows its line.
pub const FIRST_FRAME: u64 = 3_000;

/// The longest wait of any kind.
pub const LONGEST: u64 = 60_000;

/// What an answer may take beyond half as much again as the slowest of late.
pub const MARGIN: u64 = 250;

/// How long a sender's line is quiet before it is clear: more than the second that receivers take
/// before they answer, and less than two.
pub const SENDER_QUIET: u64 = 1_250;

/// How long a receiver's line is quiet before it is clear.
pub const RECEIVER_QUIET: u64 = 1_000;

/// How much farther apart than the writes their answers may come.
pub const APART: u64 = 2_000;

/// No peer asks unasked sooner than this behind its last reply, less what an answer takes.
pub const UNASKED: u64 = 2_750;

/// Nor sooner than this, whatever an answer takes.
pub const SOON: u64 = 1_750;

/// Where nothing is known of a line, a block 0 that is asked for again so soon was most likely
/// damaged: a peer that asks unasked does so every three seconds or later.
pub const LIKELY: u64 = 2_250;

/// Where answers take so long, it is the line that takes it: a short frame comes no sooner than
/// half of what a long one takes.
pub const FAR: u64 = 2_000;

/// An end that took so long between what it heard and its next write was held up.
pub const HELD_UP: u64 = 2_000;

/// How long an end listens for CAN CAN behind an ACK that ends the batch; twice this is the margin
/// behind a late ask.
pub const MOMENT: u64 = 100;

/// A line on which the C behind an EOT came so soon behind its ACK hands on at once what comes.
pub const TOGETHER: u64 = 10;

/// How long an end listens for CAN CAN there: more than the 16 for which a serial adapter of USB is
/// said to keep bytes where nobody set it otherwise.
pub const BRIEF: u64 = 25;

/// Where that C came so long behind the ACK, the peer had waited, as `rb` does: it writes nothing
/// right behind the ACK of the end block, and CAN CAN is not listened for.
pub const RESTED: u64 = 500;

/// How many C behind a new block 0 are passed over.
pub const STALE_ASKS: u8 = 10;

/// How many data blocks have to be answered behind a frame that was written again, so that the
/// answer to no copy is awaited: a block that was written again itself, and one that was not.
pub const SHAKEN: u8 = 2;

/// Behind so many bytes that are no control byte no ACK is heard.
pub const OTHERS: u8 = 4;

/// A delivery that is no frame and has so many bytes is a damaged one.
pub const FRAGMENT: u64 = 64;

/// A delivery of so many bytes is noise.
pub const FULL: u64 = 2_048;

/// How often in a row the quiet time behind a late ask is halved at most.
pub const HALVINGS: u8 = 4;

/// How long each part of a sender's wait is: what asks behind the first one has waited, whatever a
/// clock says.
pub const PATIENCE: u64 = 2_500;
