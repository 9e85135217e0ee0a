//! A batch of files, as its sender counts it.

use ym_core::BatchShape;
use ym_file::{Shape, Source, SourceFile};

/// The files of a batch, with the shape of the blocks that they are sent in.
#[derive(Drop)]
pub(crate) struct ShapedBatch<'a, S: Source> {
    /// The files, in order.
    pub files: &'a [SourceFile<S>],
    /// How they are cut into blocks.
    pub shape: Shape,
}

impl<'a, S: Source> BatchShape for ShapedBatch<'a, S> {
    ghost use Rattle.ym_file.specs.SourceFile.{counts_of};

    ghost counts = { λ batch. counts_of batch.shape batch.files.now };

    fn files(&self) -> usize {
        self.files.len()
    }

    fn blocks(&self, file: usize) -> u64 {
        self.files[file].blocks(self.shape)
    }
}
