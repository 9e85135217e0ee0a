//! Where a sender stands in its batch.

ghost use Rattle.std.specs.Prelude.{◌≡◌};
ghost use Rattle.ym_core.specs.Position.{IsPosition, first_of, next_of, done_at};

use crate::batch_shape::BatchShape;

/// One frame of a batch. Files are counted from 0, and the data blocks of a file from 1.
#[derive(Clone, Copy, Debug, PartialEq, Eq)]
pub enum Position {
    /// The block 0 of a file.
    Header { file: usize },
    /// A data block.
    Block { file: usize, number: u64 },
    /// The EOT of a file.
    Eot { file: usize },
    /// The end block.
    End,
}

/// Whether the frame of a position has been sent.
#[derive(Clone, Copy, Debug, PartialEq, Eq)]
pub enum Mode {
    /// It is held back until the other end asks for it by C.
    Waiting,
    /// It is out.
    Sent,
}

/// The first frame of the batch.
pub fn first_position<B: BatchShape>(batch: &B) -> Position
    ensures first { result ≡ first_of (B.counts batch.now) }
    ensures within { IsPosition (B.counts batch.now) result }
{
    if batch.files() == 0 {
        Position::End
    } else {
        Position::Header { file: 0 }
    }
}

/// The frame behind a position.
pub fn next_position<B: BatchShape>(batch: &B, position: Position) -> Position
    requires { IsPosition (B.counts batch.now) position }
    ensures next { result ≡ next_of (B.counts batch.now) position }
    ensures within { IsPosition (B.counts batch.now) result }
{
    match position {
        Position::Header { file } => {
            if 0 < batch.blocks(file) {
                Position::Block { file, number: 1 }
            } else {
                Position::Eot { file }
            }
        }
        Position::Block { file, number } => {
            if number < batch.blocks(file) {
                Position::Block {
                    file,
                    number: number + 1,
                }
            } else {
                Position::Eot { file }
            }
        }
        Position::Eot { file } => {
            let files = batch.files();
            if file + 1 < files {
                Position::Header { file: file + 1 }
            } else {
                Position::End
            }
        }
        Position::End => Position::End,
    }
}

impl Position {
    /// How many EOTs stand before it in a batch of so many files.
    pub fn done(self, files: usize) -> usize
        ensures { result ≡ done_at files self }
    {
        match self {
            Position::Header { file } | Position::Block { file, .. } | Position::Eot { file } =>
                file,
            Position::End => files,
        }
    }
}
