//! A file of a batch: its header, and the source of its bytes.

ghost use Rattle.std.specs.Prelude.{◌≡◌, ◌≤◌, IfOk, IfErr, IfSome, OnOk, OnErr, Some, None, take, length as list_length};
ghost use Rattle.ym_frame.specs.Block.{BlockParts};
ghost use Rattle.ym_frame.specs.Frame.{IsFrame};
ghost use Rattle.ym_frame.specs.declared.frame.Item.{Item};
ghost use Rattle.ym_frame.specs.declared.frame.Item.TheVariants as Item;
ghost use Rattle.ym_header.specs.Header.{IsHeader, IsRefused, length_limit};
ghost use Rattle.ym_file.specs.Counts.{new_tally, Counted, raised};
ghost use Rattle.ym_file.specs.SourceFile.{IsFile, IsBlockOf, blocks_of, filled};

use crate::block::frame_from;
use crate::mem_source::MemSource;
use crate::plan::{Shape, block_count};
use crate::source::{Source, SourceFault};
use std::alloc::Global;
use std::marker::Model;
use ym_header::{Header, HeaderFault, Stamp};

/// A file with the source that its bytes come from.
#[derive(Drop)]
pub struct SourceFile<S: Source> {
    header: Header,
    source: S,
}

/// A file whose bytes are in memory.
pub type SendFile = SourceFile<MemSource>;

impl<S: Source> Model for SourceFile<S> {
    ghost use Rattle.std.specs.Prelude.{◌≡◌};
    ghost use Rattle.ym_file.specs.SourceFile.{FileParts, IsFile};

    ghost Value = { FileParts };

    ghost view = { λ f.
        record {
          header = f.header;
          bytes = S.bytes f.source;
          failures = S.failures f.source;
          fills = S.fills f.source;
        } };

    ghost invariant = { λ f.
        (f.header.length ≡ S.size f.source) ×
        IsFile (record {
          header = f.header;
          bytes = S.bytes f.source;
          failures = S.failures f.source;
          fills = S.fills f.source;
        }) };
}

impl<S: Source + Drop> SourceFile<S> {
    /// The file of this name with a source's bytes, or the first fault of its header: the length is
    /// the source's. The source is dropped where it is refused.
    pub fn from_source(
        alloc: Global,
        name: &str,
        source: S,
        stamp: Stamp,
    ) -> Result<SourceFile<S>, HeaderFault>
        ensures ok { IfOk result (λ file.
            file ≡
            record {
              header = record { name = name.now; length = S.size source; stamp = stamp };
              bytes = S.bytes source;
              failures = S.failures source;
              fills = S.fills source;
            }) }
        ensures within { IfOk result IsFile }
        ensures refused { IfErr result (λ fault.
            IsRefused length_limit name.now (S.size source) fault) }
    {
        let header = Header::new(alloc, name, source.length(), stamp)?;
        Ok(SourceFile { header, source })
    }
}

impl<S: Source> SourceFile<S> {
    /// Its header.
    pub fn header(&self) -> &Header
        ensures value { result.now ≡ self.now.header }
        ensures within { IsFile self.now }
    {
        &self.header
    }

    /// How many data blocks it is sent in.
    #[inline(always)]
    pub fn blocks(&self, shape: Shape) -> u64
        ensures { result ≡ blocks_of shape self.now }
    {
        block_count(self.header.length(), shape)
    }

    /// Writes the frame of data block `k`, counted from 1, to the front of a buffer, and answers
    /// the frame's length: at most 1029 bytes. The source fills the body right where it stands in
    /// the frame, in one call. After a failure of the source nothing is said of the buffer's bytes.
    #[inline(always)]
    pub fn frame(
        &mut self,
        shape: Shape,
        k: u64,
        buffer: &mut [u8; 1029],
    ) -> Result<usize, SourceFault>
        requires from_one { 1 ≤ k }
        requires within { k ≤ blocks_of shape self.old }
        ensures frame { IfOk result (λ len.
            (block : BlockParts) × IsBlockOf shape self.old k block ×
            IsFrame (Item.Block block) (take len buffer.new)) }
        ensures length { IfOk result (λ len. len ≤ 1029) }
        ensures buffer { list_length buffer.new ≡ 1029 }
        ensures ok { OnOk result (self.new ≡ filled self.old) }
        ensures header { self.new.header ≡ self.old.header }
        ensures bytes { self.new.bytes ≡ self.old.bytes }
        ensures counted { self.new.fills ≡ raised self.old.fills }
        ensures failed { OnErr result (Counted self.old.failures self.new.failures) }
    {
        let _length = self.header.length();
        frame_from(&mut self.source, shape, k, buffer)
    }
}

impl SourceFile<MemSource> {
    /// The file of this name with these bytes, or the first fault of its header. The bytes are
    /// dropped where it is refused.
    pub fn new(
        alloc: Global,
        name: &str,
        bytes: Vec<u8>,
        stamp: Stamp,
    ) -> Result<SendFile, HeaderFault>
        ensures ok { IfOk result (λ file.
            file ≡
            record {
              header = record { name = name.now; length = list_length bytes.items; stamp = stamp };
              bytes = Some bytes.items;
              failures = 0;
              fills = 0;
            }) }
        ensures within { IfOk result IsFile }
        ensures refused { IfErr result (λ fault.
            IsRefused length_limit name.now (list_length bytes.items) fault) }
    {
        SourceFile::from_source(alloc, name, MemSource::new(bytes, None), stamp)
    }

    /// Its bytes.
    pub fn bytes(&self) -> &[u8]
        ensures { Some result.now ≡ self.now.bytes }
    {
        self.source.bytes()
    }
}
