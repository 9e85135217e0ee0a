//! What each whole frame of the sender of the files is to its session.

ghost use Rattle.std.specs.Prelude.{◌≡◌};
ghost use Rattle.ym_frame.specs.ItemRef.{owned_item};
ghost use Rattle.ym_explain.specs.Telling.{told_of, eot_told, block_kind, first_kind, zero_kind, number_kind, position_behind};

use ym_frame::ItemRef;

/// Where the sender of the files stands, by its last frame that was no copy.
#[derive(Clone, Copy)]
pub enum SendPosition {
    /// No frame came.
    Before,
    /// The block 0 of a file came, and no data block behind it.
    Named,
    /// A data block came last.
    Data {
        /// Its number, modulo 256.
        number: u8,
    },
    /// The EOT of a file came last.
    Ended,
    /// The block 0 that ends the batch came.
    Over,
}

/// What a frame is to its session, told by its number alone.
#[derive(Clone, Copy, PartialEq, Eq)]
pub enum FrameKind {
    /// The block 0 that begins a file.
    Name,
    /// The block 0 that ends the batch.
    End,
    /// The data block that comes next.
    Data,
    /// The end of a file.
    Eot,
    /// The frame before it once more.
    Copy,
    /// A frame that cannot come next: one was lost, or none was named.
    OutOfTurn,
    /// A block that comes first, of a file whose first blocks were not recorded.
    Late,
    /// The sender cancelled.
    Cancel,
}

/// What a frame is, and where the sender stands behind it.
#[derive(Clone, Copy)]
pub struct Told {
    /// What the frame is.
    pub kind: FrameKind,
    /// Where the sender stands now.
    pub position: SendPosition,
}

/// What a frame is that came at this position, and where the sender stands behind it.
pub fn tell(position: SendPosition, item: &ItemRef<'_>) -> Told
    ensures { result ≡ told_of position (owned_item item.now) }
{
    match item {
        ItemRef::Block(block) => {
            let number = block.number();
            let kind = told_block(position, number, block.body()[0] == 0);
            Told {
                kind,
                position: behind_block(position, number, kind),
            }
        }
        ItemRef::Eot => told_eot(position),
        ItemRef::Cancel => Told {
            kind: FrameKind::Cancel,
            position,
        },
    }
}

/// What an EOT is at this position.
fn told_eot(position: SendPosition) -> Told
    ensures { result ≡ eot_told position }
{
    match position {
        SendPosition::Named | SendPosition::Data { .. } => Told {
            kind: FrameKind::Eot,
            position: SendPosition::Ended,
        },
        SendPosition::Ended => Told {
            kind: FrameKind::Copy,
            position,
        },
        SendPosition::Before | SendPosition::Over => Told {
            kind: FrameKind::OutOfTurn,
            position,
        },
    }
}

/// What a block of this number is, whose body begins with 00 where it has no name.
fn told_block(position: SendPosition, number: u8, nameless: bool) -> FrameKind
    ensures { result ≡ block_kind position number nameless }
{
    match position {
        SendPosition::Before => told_first(number, nameless),
        SendPosition::Ended => told_zero(number, nameless, FrameKind::End),
        SendPosition::Named => told_number(0, number),
        SendPosition::Data { number: last } => told_number(last, number),
        SendPosition::Over => told_zero(number, nameless, FrameKind::Copy),
    }
}

/// What the first block of all is. One of XMODEM begins with number 1.
fn told_first(number: u8, nameless: bool) -> FrameKind
    ensures { result ≡ first_kind number nameless }
{
    if number > 1 {
        FrameKind::Late
    } else {
        told_zero(number, nameless, FrameKind::End)
    }
}

/// What a block of this number is where a file may begin, and where one without a name is this.
fn told_zero(number: u8, nameless: bool, end: FrameKind) -> FrameKind
    ensures { result ≡ zero_kind number nameless end }
{
    match (number, nameless) {
        (0, true) => end,
        (0, false) => FrameKind::Name,
        _ => FrameKind::OutOfTurn,
    }
}

/// What a block of this number is behind the block numbered `last`.
fn told_number(last: u8, number: u8) -> FrameKind
    ensures { result ≡ number_kind last number }
{
    if number == last {
        FrameKind::Copy
    } else if number == last.wrapping_add(1) {
        FrameKind::Data
    } else {
        FrameKind::OutOfTurn
    }
}

/// Where the sender stands behind a block of this number and kind.
fn behind_block(position: SendPosition, number: u8, kind: FrameKind) -> SendPosition
    ensures { result ≡ position_behind position number kind }
{
    match kind {
        FrameKind::Name => SendPosition::Named,
        FrameKind::End => SendPosition::Over,
        FrameKind::Data | FrameKind::OutOfTurn | FrameKind::Late => SendPosition::Data { number },
        FrameKind::Copy | FrameKind::Eot | FrameKind::Cancel => position,
    }
}
