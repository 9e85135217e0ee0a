//! The sender.

ghost use Rattle.std.specs.Prelude.{◌≡◌, ◌≢◌, ◌<◌, ◌≤◌, ◌↔◌, ◌⊎◌, ◌%◌, ◌+◌, ◌∷◌, [], ℕ, List, IsTrue, length, take, true};
ghost use Rattle.ym_core.specs.declared.standing.Standing.{Standing as Stood};
ghost use Rattle.ym_core.specs.declared.state.SendState.TheVariants.{Running};
ghost use Rattle.ym_core.specs.Position.{IsPosition};
ghost use Rattle.ym_core.specs.Scan.{controls_in};
ghost use Rattle.ym_core.specs.Standing as table;
ghost use Rattle.ym_frame.specs.Seal.{IsBlockFrame};
ghost use Rattle.ym_header.specs.Text.{text, end_text};
ghost use Rattle.ym_c.specs.Codes.{bool_code};
ghost use Rattle.ym_c.specs.Fronts.{stamp_of};
ghost use Rattle.ym_c.specs.Headers.{IsRefusal};
ghost use Rattle.ym_c.specs.SenderInC.{KeepsStanding, Stands, IsNoSender, ended_standing, IsUnfilled, IsFill, IsFilled, out_code};

use crate::codes::code_of_fault;
use crate::headers::{header_of, stamp_from};
use crate::standing::{ended, load, store};
use ym_core::{BatchShape, Mode, Position, SendState, Standing, first_position};
use ym_frame::seal_block;
use ym_header::{HeaderRef, write_body};
use ym_machine::GIVE_UP;

/// A sender, and the frame that was filled last.
#[repr(C)]
pub struct YmSender {
    /// At place 1: the number of the data block, counted from 1.
    pub number: u64,
    /// At places 0 to 2: the file, counted from 0.
    pub file: u32,
    /// How many bytes the frame has; 0 while it is to be filled.
    pub len: u32,
    /// 0: the block 0 of a file; 1: a data block; 2: an EOT; 3: the end block.
    pub place: u32,
    /// 0: it waits for C; 1: the frame is out.
    pub mode: u32,
    /// Deliveries in a row without progress.
    pub retries: u32,
    /// 0: it runs; else how it has ended.
    pub state: u32,
    /// Whether CAN CAN is still to go.
    pub cancel_pending: u32,
    /// The frame.
    pub frame: [u8; 1029],
}

/// What the host is to fill into the frame.
#[repr(C)]
pub struct YmFill {
    /// At 2: the number of the data block, counted from 1.
    pub number: u64,
    /// 0: nothing; 1: the header of a file; 2: a data block.
    pub kind: u32,
    /// At 1 and 2: the file, counted from 0.
    pub file: u32,
}

/// A batch, by the number of data blocks of each file.
#[derive(Drop)]
struct Counts<'a> {
    blocks: &'a [u64],
}

impl BatchShape for Counts<'_> {
    ghost counts = { λ c. c.blocks.now };

    fn files(&self) -> usize {
        self.blocks.len()
    }

    fn blocks(&self, file: usize) -> u64 {
        self.blocks[file]
    }
}

/// Makes a sender that waits at the first frame of a batch, of which each file has so many data
/// blocks.
#[unsafe(no_mangle)]
pub extern "C" fn ym_sender_init(sender: &mut YmSender, blocks: &[u64])
    ensures stands { KeepsStanding sender.new (table.new_standing blocks.now) }
    ensures empty { sender.new.len ≡ 0 }
{
    sender.len = 0;
    store(sender, Standing::new(first_position(&Counts { blocks })));
}

/// Makes the frame of the block of this number and this body.
pub fn seal_frame(frame: &mut [u8], number: u8, body: &[u8])
    requires sized { (length body.now ≡ 128) ⊎ (length body.now ≡ 1024) }
    requires room { length frame.old ≡ length body.now + 5 }
    ensures { IsBlockFrame number body.now frame.new }
{
    frame[3..3 + body.len()].copy_from_slice(body);
    seal_block(number, frame);
}

/// Makes the frame of the block of this number and this body at the front, and answers its length.
#[inline(never)]
fn seal_body(frame: &mut [u8; 1029], number: u8, body: &[u8]) -> u32
    requires { (length body.now ≡ 128) ⊎ (length body.now ≡ 1024) }
    ensures frame { IsBlockFrame number body.now (take result frame.new) }
    ensures room { result ≤ 1029 }
{
    let size = body.len() + 5;
    seal_frame(&mut frame[..size], number, body);
    size as u32
}

/// Makes the frame of a header's block 0 at the front, and answers its length.
fn seal_header(frame: &mut [u8; 1029], header: &HeaderRef<'_>) -> u32
    ensures frame { IsBlockFrame 0 (text header.entry.now) (take result frame.new) }
    ensures room { result ≤ 1029 }
{
    let mut body = [0; 1024];
    let size = write_body(header, &mut body);
    seal_body(frame, 0, &body[..size])
}

/// Makes the frame of an EOT at the front, and answers its length.
fn seal_eot(frame: &mut [u8; 1029]) -> u32
    ensures frame { take result frame.new ≡ 0x04 ∷ [] }
    ensures room { result ≤ 1029 }
{
    frame[0] = 0x04;
    1
}

/// Makes the frame of the end block at the front, and answers its length.
fn seal_end(frame: &mut [u8; 1029]) -> u32
    ensures frame { IsBlockFrame 0 end_text (take result frame.new) }
    ensures room { result ≤ 1029 }
{
    seal_body(frame, 0, &[0; 128])
}

/// Hears a delivery, and tells what the host is to fill into the frame before it is sent. Rubbish
/// counts as a sender that has ended, and becomes one.
#[unsafe(no_mangle)]
pub extern "C" fn ym_sender_hear(
    sender: &mut YmSender,
    blocks: &[u64],
    bytes: &[u8],
    fill: &mut YmFill,
)
    ensures room { sender.old.len ≤ 1029 → sender.new.len ≤ 1029 }
    ensures hears { (s : Stood) → KeepsStanding sender.old s → Stands blocks.now s →
        KeepsStanding sender.new (table.hears blocks.now s (controls_in bytes.now)).standing
        × IsFill (table.hears blocks.now s (controls_in bytes.now)).fills fill.new
        × IsFilled (table.hears blocks.now s (controls_in bytes.now)).fills sender.old sender.new }
    ensures asks { (s : Stood) → KeepsStanding sender.old s → Stands blocks.now s →
        (fill.new.kind ≡ 1 → IsUnfilled sender.new 0) × (fill.new.kind ≡ 2 →
        IsUnfilled sender.new 1) }
    ensures rubbish { IsNoSender blocks.now sender.old →
        (fill.new.kind ≡ 0) × KeepsStanding sender.new ended_standing × (sender.new.len ≡ 0) }
{
    fill.kind = 0;
    fill.file = 0;
    fill.number = 0;
    let Some(standing) = load(sender, blocks) else {
        sender.len = 0;
        store(sender, ended());
        return;
    };
    let step = standing.after(&Counts { blocks }, bytes);
    store(sender, step.standing);
    match step.fills {
        Some(Position::Header { .. }) => {
            sender.len = 0;
            fill.kind = 1;
            fill.file = sender.file;
        }
        Some(Position::Block { number, .. }) => {
            fill.kind = 2;
            fill.file = sender.file;
            fill.number = number;
            sender.len = 0;
        }
        Some(Position::Eot { .. }) => {
            sender.len = seal_eot(&mut sender.frame);
        }
        Some(Position::End) => {
            sender.len = seal_end(&mut sender.frame);
        }
        None => {}
    }
}

/// 1 where more bytes cannot change what `ym_sender_hear` does with these.
#[unsafe(no_mangle)]
pub extern "C" fn ym_sender_settled(sender: &YmSender, blocks: &[u64], bytes: &[u8]) -> u32
    ensures settled { (s : Stood) → KeepsStanding sender.now s → Stands blocks.now s →
        result ≡ bool_code (table.is_settled blocks.now s (controls_in bytes.now)) }
    ensures rubbish { IsNoSender blocks.now sender.now → result ≡ 1 }
{
    match load(sender, blocks) {
        Some(standing) if !standing.settled(&Counts { blocks }, bytes) => 0,
        _ => 1,
    }
}

/// What a call to fill a frame answers where no such frame is to be filled.
const NOT_NOW: u32 = 7;

/// Whether a frame at this kind of place is out that the host has still to fill.
fn is_unfilled(kept: &YmSender, position: u32) -> bool
    ensures { IsTrue result ↔ IsUnfilled kept.now position }
{
    kept.place == position
        && kept.mode == 1
        && kept.state == 0
        && kept.retries < u32::from(GIVE_UP)
        && kept.len == 0
}

/// Fills the header of a file: stamp 0 none, 1 the time, 2 the time and the mode. Answers 0, or the
/// number of the header's first fault, 1 to 5, or 7 where no header is to be filled, and then does
/// nothing. Numbers that are no sender of a batch stay such.
#[unsafe(no_mangle)]
pub extern "C" fn ym_sender_header(
    sender: &mut YmSender,
    name: &[u8],
    length: u64,
    stamp: u32,
    time: u64,
    mode: u32,
) -> u32
    ensures frame { result ≡ 0 →
        IsBlockFrame 0
        (text (record { name = name.now; length = length; stamp = stamp_of stamp time mode }))
        (take sender.new.len sender.new.frame) }
    ensures stands { (s : Stood) → KeepsStanding sender.old s → KeepsStanding sender.new s }
    ensures rubbish { (blocks : List ℕ) → IsNoSender blocks sender.old →
        IsNoSender blocks sender.new }
    ensures refused { 0 < result → result ≢ NOT_NOW → IsRefusal name.now length result }
    ensures not_now { result ≡ NOT_NOW ↔ ¬ IsUnfilled sender.old 0 }
    ensures same { 0 < result → sender.new ≡ sender.old }
    ensures room { sender.old.len ≤ 1029 → sender.new.len ≤ 1029 }
{
    if !is_unfilled(sender, 0) {
        return NOT_NOW;
    }
    match header_of(name, length, stamp_from(stamp, time, mode)) {
        Ok(header) => {
            sender.len = seal_header(&mut sender.frame, &header);
            0
        }
        Err(fault) => code_of_fault(fault),
    }
}

/// Fills the data block that the sender stands at with this body, of 128 or 1024 bytes. Answers 0,
/// or 1 where the body has another length, or 7 where no data block is to be filled, and then does
/// nothing. Numbers that are no sender of a batch stay such.
#[unsafe(no_mangle)]
pub extern "C" fn ym_sender_block(sender: &mut YmSender, body: &[u8]) -> u32
    ensures valid { result ≡ 0 ↔ (IsUnfilled sender.old 1
        × ((length body.now ≡ 128) ⊎ (length body.now ≡ 1024))) }
    ensures not_now { result ≡ NOT_NOW ↔ ¬ IsUnfilled sender.old 1 }
    ensures same { 0 < result → sender.new ≡ sender.old }
    ensures frame { result ≡ 0 →
        IsBlockFrame (sender.old.number % 256) body.now (take sender.new.len sender.new.frame) }
    ensures room { sender.old.len ≤ 1029 → sender.new.len ≤ 1029 }
    ensures stands { (s : Stood) → KeepsStanding sender.old s → KeepsStanding sender.new s }
    ensures rubbish { (blocks : List ℕ) → IsNoSender blocks sender.old →
        IsNoSender blocks sender.new }
{
    if !is_unfilled(sender, 1) {
        return NOT_NOW;
    }
    let size = body.len();
    if size != 128 && size != 1024 {
        return 1;
    }
    let number = (sender.number % 256) as u8;
    sender.len = seal_body(&mut sender.frame, number, body);
    0
}

/// The host cannot go on: a sender that runs ends, with CAN CAN to go. One that has ended stays as
/// it is.
#[unsafe(no_mangle)]
pub extern "C" fn ym_sender_failed(sender: &mut YmSender, blocks: &[u64])
    ensures ends { (s : Stood) → KeepsStanding sender.old s → Stands blocks.now s →
        s.state ≡ Running →
        KeepsStanding sender.new
        (record s { state = SendState.SourceFailed; cancel_pending = true }) }
    ensures ended { (s : Stood) → KeepsStanding sender.old s → s.state ≢ Running →
        sender.new ≡ sender.old }
    ensures rubbish { IsNoSender blocks.now sender.old → sender.new ≡ sender.old }
    ensures frame { (sender.new.len ≡ sender.old.len) × (sender.new.frame ≡ sender.old.frame) }
{
    let Some(standing) = load(sender, blocks) else {
        return;
    };
    if standing.state == SendState::Running {
        store(sender, standing.source_failed());
    }
}

/// What is to be sent now: 0 nothing; 1 the frame, of `len` bytes; 2 CAN CAN.
#[unsafe(no_mangle)]
pub extern "C" fn ym_sender_out(sender: &YmSender, blocks: &[u64]) -> u32
    ensures out { (s : Stood) → KeepsStanding sender.now s → Stands blocks.now s →
        result ≡ out_code s }
    ensures rubbish { IsNoSender blocks.now sender.now → result ≡ 0 }
{
    let Some(standing) = load(sender, blocks) else {
        return 0;
    };
    match standing.state {
        SendState::Running => match standing.mode {
            Mode::Sent => 1,
            Mode::Waiting => 0,
        },
        SendState::NoReply | SendState::SourceFailed => {
            if standing.cancel_pending { 2 } else { 0 }
        }
        _ => 0,
    }
}
