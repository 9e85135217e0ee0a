//! The sender of a batch, over any source.

ghost use Rattle.std.specs.Prelude.{◌≡◌, ◌↔◌, ◌<◌, ◌≤◌, length, MatchOption, Some, None, IfOk, IfErr, IfSome, IsOk, OnOk, OnErr, All, take, true, false};
ghost use Rattle.ym_frame.specs.Frame.{IsFrame};
ghost use Rattle.ym_frame.specs.declared.frame.Item.TheVariants as FrameItem;
ghost use Rattle.ym_header.specs.Text.{text, end_text};
ghost use Rattle.ym_file.specs.SourceFile.{IsFile, counts_of};
ghost use Rattle.ym_core.specs.Position.{IsPosition, done_at};
ghost use Rattle.ym_link.specs.FrameAt.{IsFrameAt};
ghost use Rattle.ym_link.specs.Sender.{IsFilled, IsRead};
ghost use Rattle.ym_core.specs.Scan.{controls_in};
ghost use Rattle.ym_core.specs.Standing.{hears, step_to};
ghost use Rattle.ym_machine.specs.declared.limits.TheConstants.{GIVE_UP, MOST_FILES};

use crate::delivery::Listener;
use crate::shaped_batch::ShapedBatch;
use std::marker::Model;
use ym_core::{Mode, Position, Scan, SendState, SendStep, Standing, first_position, read_delivery};
use ym_file::{MemSource, Shape, Source, SourceFault, SourceFile};
use ym_frame::{Item, Reply, encode};
use ym_header::{Header, write, write_end};
use ym_machine::MOST_FILES;

/// Sends a batch of files, whose bytes come from sources.
#[derive(Drop)]
pub struct SenderFrom<S: Source> {
    batch: Vec<SourceFile<S>>,
    shape: Shape,
    standing: Standing,
    /// The frame that was filled last stands at its front.
    buffer: [u8; 1029],
    /// How many bytes that frame has.
    len: usize,
}

/// Sends a batch of files that are in memory.
pub type Sender = SenderFrom<MemSource>;

/// Why there is no sender of a batch.
#[derive(Drop)]
pub enum BatchFault<S: Source> {
    /// It has more than 65,535 files. It is handed back.
    TooMany(Vec<SourceFile<S>>),
}

impl<S: Source> Model for SenderFrom<S> {
    ghost use Rattle.std.specs.Prelude.{take, ◌≤◌};
    ghost use Rattle.ym_link.specs.Sender.{SenderParts, IsSender};

    ghost Value = { SenderParts };

    ghost view = { λ s.
        record {
          standing = s.standing;
          shape = s.shape;
          files = s.batch.items;
          frame = take s.len s.buffer;
        } };

    ghost invariant = { λ s.
        (s.len ≤ 1029) ×
        IsSender (record {
          standing = s.standing;
          shape = s.shape;
          files = s.batch.items;
          frame = take s.len s.buffer;
        }) };
}

/// Looks at each file, so that what a file keeps is known of all of them.
fn look_at<S: Source>(files: &[SourceFile<S>])
    ensures { All IsFile files.now }
{
    for file in files {
        let _ = file.header();
    }
}

/// Copies the frame of an item to the front of a buffer, and answers the frame's length.
// an item and its frame have the size of a block: what is called for data blocks is kept free of
// them
#[cold]
#[inline(never)]
fn copy_frame(item: &Item, buffer: &mut [u8; 1029]) -> usize
    ensures frame { IsFrame item.now (take result buffer.new) }
    ensures length { result ≤ 1029 }
    ensures buffer { length buffer.new ≡ 1029 }
{
    let frame = encode(item);
    let bytes = frame.as_bytes();
    buffer[..bytes.len()].copy_from_slice(bytes);
    bytes.len()
}

/// The same for the block 0 of a file.
#[cold]
#[inline(never)]
fn copy_header(header: &Header, buffer: &mut [u8; 1029]) -> usize
    ensures frame { IsFrame (FrameItem.Block (record { number = 0; body = text header.now }))
        (take result buffer.new) }
    ensures length { result ≤ 1029 }
    ensures buffer { length buffer.new ≡ 1029 }
{
    copy_frame(&Item::Block(write(header)), buffer)
}

/// The same for an EOT.
#[cold]
#[inline(never)]
fn copy_eot(buffer: &mut [u8; 1029]) -> usize
    ensures frame { IsFrame FrameItem.Eot (take result buffer.new) }
    ensures length { result ≤ 1029 }
    ensures buffer { length buffer.new ≡ 1029 }
{
    copy_frame(&Item::Eot, buffer)
}

/// The same for the end block.
#[cold]
#[inline(never)]
fn copy_end(buffer: &mut [u8; 1029]) -> usize
    ensures frame { IsFrame (FrameItem.Block (record { number = 0; body = end_text }))
        (take result buffer.new) }
    ensures length { result ≤ 1029 }
    ensures buffer { length buffer.new ≡ 1029 }
{
    copy_frame(&Item::Block(write_end()), buffer)
}

/// Writes the frame of a position to the front of a buffer, and answers the frame's length: at most
/// 1029 bytes. The body of a data block goes from its source right to its place in the frame, and
/// the source is asked for it once. After a failure of the source nothing is said of the buffer's
/// bytes.
#[inline(always)]
fn frame_at<S: Source>(
    files: &mut Vec<SourceFile<S>>,
    shape: Shape,
    position: Position,
    buffer: &mut [u8; 1029],
) -> Result<usize, SourceFault>
    requires { IsPosition (counts_of shape files.old.items) position }
    ensures frame { IfOk result (λ len.
        IsFrameAt shape files.new.items position (take len buffer.new)) }
    ensures length { IfOk result (λ len. len ≤ 1029) }
    ensures buffer { length buffer.new ≡ 1029 }
    ensures ok { OnOk result (IsFilled false (Some position) files.old.items files.new.items) }
    ensures failed { OnErr result (IsFilled true (Some position) files.old.items files.new.items) }
{
    match position {
        Position::Header { file } => Ok(copy_header(files[file].header(), buffer)),
        Position::Block { file, number } => {
            let one = &mut files[file];
            one.frame(shape, number, buffer)
        }
        Position::Eot { .. } => Ok(copy_eot(buffer)),
        Position::End => Ok(copy_end(buffer)),
    }
}

/// Takes the step that a delivery leads to: by what was found in it, else by its bytes. It answers
/// the position whose frame becomes the sent one.
// what was found is stepped in place, and the rare way without it stands apart
#[inline(always)]
fn step_in<S: Source>(
    standing: &mut Standing,
    files: &[SourceFile<S>],
    shape: Shape,
    found: Option<Scan>,
    bytes: &[u8],
) -> Option<Position>
    requires position { IsPosition (counts_of shape files.now) standing.old.position }
    requires retries { standing.old.state ≡ SendState.Running → standing.old.retries < GIVE_UP }
    requires found { IfSome found (λ read.
        IsRead (counts_of shape files.now) standing.old bytes.now read) }
    ensures step { step_to standing.new result ≡
        hears (counts_of shape files.now) standing.old (controls_in bytes.now) }
    ensures within { IsPosition (counts_of shape files.now) standing.new.position }
{
    match found {
        Some(read) => standing.take_scan(read),
        None => step_read(standing, files, shape, bytes),
    }
}

/// The same by the bytes alone.
#[cold]
#[inline(never)]
fn step_read<S: Source>(
    standing: &mut Standing,
    files: &[SourceFile<S>],
    shape: Shape,
    bytes: &[u8],
) -> Option<Position>
    requires position { IsPosition (counts_of shape files.now) standing.old.position }
    requires retries { standing.old.state ≡ SendState.Running → standing.old.retries < GIVE_UP }
    ensures step { step_to standing.new result ≡
        hears (counts_of shape files.now) standing.old (controls_in bytes.now) }
    ensures within { IsPosition (counts_of shape files.now) standing.new.position }
{
    let SendStep {
        standing: behind,
        fills,
    } = standing.after(&ShapedBatch { files, shape }, bytes);
    *standing = behind;
    fills
}

impl<S: Source> SenderFrom<S> {
    ghost use Rattle.ym_link.specs.Sender.{Hears, IsScan, IsSender, spoken, counts};
    ghost use Rattle.ym_core.specs.Scan.{controls_in};
    ghost use Rattle.ym_core.specs.Standing.{hears, is_settled, new_standing};

    /// A sender of a batch of at most 65,535 files, waiting at its first frame.
    pub fn new(batch: Vec<SourceFile<S>>, shape: Shape) -> Result<SenderFrom<S>, BatchFault<S>>
        ensures standing { IfOk result (λ sender.
            sender.standing ≡ new_standing (counts_of shape batch.items)) }
        ensures shape { IfOk result (λ sender. sender.shape ≡ shape) }
        ensures files { IfOk result (λ sender. sender.files ≡ batch.items) }
        ensures valid { IsOk result ↔ (length batch.items ≤ MOST_FILES) }
        ensures refused { IfErr result (λ fault. fault ≡ BatchFault.TooMany batch) }
    {
        if batch.len() > MOST_FILES {
            return Err(BatchFault::TooMany(batch));
        }
        look_at(&batch);
        let first = first_position(&ShapedBatch {
            files: &batch,
            shape,
        });
        let standing = Standing::new(first);
        Ok(SenderFrom {
            batch,
            shape,
            standing,
            buffer: [0; 1029],
            len: 0,
        })
    }

    /// What is to be sent now: while it runs, the frame of its place or nothing, and after it gave
    /// up or its source failed, CAN CAN until it hears a delivery.
    #[inline(always)]
    pub fn frame(&self) -> Option<&[u8]>
        ensures spoken { MatchOption result (spoken self.now ≡ None) (λ bytes.
            spoken self.now ≡ Some bytes.now) }
        ensures position { IfSome result (λ bytes.
            self.now.standing.state ≡ SendState.Running →
            IsFrameAt self.now.shape self.now.files self.now.standing.position bytes.now) }
        ensures sender { IsSender self.now }
    {
        let standing = self.standing;
        match standing.state {
            SendState::Running if standing.mode == Mode::Sent => Some(&self.buffer[..self.len]),
            SendState::NoReply | SendState::SourceFailed if standing.cancel_pending => {
                Some(Reply::Cancel.as_bytes())
            }
            _ => None,
        }
    }

    /// Whether more bytes cannot change what `hear` does with these.
    pub fn settled(&self, bytes: &[u8]) -> bool
        ensures { result ≡ is_settled (counts self.now) self.now.standing (controls_in bytes.now) }
    {
        self.standing.settled(&self.shaped(), bytes)
    }

    /// Hears one delivery. A data block that is to be sent next is read from its source once: what
    /// is sent again is the frame that it holds. Where the source fails, the sender stands at that
    /// block and has ended, with CAN CAN to go.
    pub fn hear(&mut self, bytes: &[u8])
        ensures { Hears self.old bytes.now self.new }
    {
        self.hear_found(None, bytes);
    }

    /// The same, where it may have been found already what the sender reads in the delivery.
    #[inline(always)]
    pub(crate) fn hear_found(&mut self, found: Option<Scan>, bytes: &[u8])
        requires { IfSome found (IsScan self.old bytes.now) }
        ensures { Hears self.old bytes.now self.new }
    {
        let fills = step_in(&mut self.standing, &self.batch, self.shape, found, bytes);
        if let Some(position) = fills {
            match frame_at(&mut self.batch, self.shape, position, &mut self.buffer) {
                Ok(len) => self.len = len,
                Err(SourceFault) => self.standing = self.standing.source_failed(),
            }
        }
    }

    /// The batch, as the table counts it.
    #[inline(always)]
    fn shaped(&self) -> ShapedBatch<'_, S>
        ensures { counts_of result.shape result.files.now ≡ counts self.now }
    {
        ShapedBatch {
            files: &self.batch,
            shape: self.shape,
        }
    }

    /// How many files are done: those whose EOT was acknowledged. No end takes this back.
    pub fn done(&self) -> usize
        ensures { result ≡ done_at (length self.now.files) self.now.standing.position }
    {
        self.standing.position.done(self.batch.len())
    }

    /// How it has ended.
    #[inline(always)]
    pub fn state(&self) -> SendState
        ensures { result ≡ self.now.standing.state }
    {
        self.standing.state
    }
}

impl<S: Source> Listener for SenderFrom<S> {
    ghost use Rattle.std.specs.Prelude.{◌≡◌};
    ghost use Rattle.ym_link.specs.Sender.{IsScan};
    ghost use Rattle.ym_link.specs.SendOver.{settles};
    ghost use Rattle.ym_core.specs.declared.state.SendState.TheVariants.{Running};

    type Found = Scan;

    ghost listens = { λ s. s.standing.state ≡ Running };

    ghost ends = { settles };

    ghost finds = { IsScan };

    /// What it reads in these bytes, where more of them cannot change what `hear` does with them.
    #[inline(always)]
    fn found_in(&self, bytes: &[u8]) -> Option<Scan> {
        let standing = self.standing;
        let read = read_delivery(&self.shaped(), standing.position, standing.mode, bytes);
        if read.stop.is_some() {
            Some(read)
        } else {
            None
        }
    }
}
