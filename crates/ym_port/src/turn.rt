//! Which block 0 may come next to a receiver, and one that comes in place of a repeat.

ghost use Rattle.std.specs.Prelude.{◌≡◌, ◌≤◌, IfSome, length};
ghost use Rattle.ym_port.specs.Turn as table;

use ym_frame::{Whole, has_frame, whole_at};
use ym_heard::Opening;
use ym_link::DELIVERY_LIMIT;

/// The byte ACK.
const ACK: u8 = 0x06;

/// The byte C.
const START: u8 = 0x43;

/// The number of a block that neither opens a file nor is its first data block.
const OUT_OF_TURN: u8 = 2;

/// Which block 0 may come next.
#[derive(Clone, Copy)]
pub enum Next {
    /// That of any file, or the one that ends the batch.
    Any,
    /// That of the file under way once more: no data block of it has come.
    Repeat(Opening),
    /// None: data blocks come.
    Data,
}

/// Where a receiver is in its batch.
#[derive(Clone, Copy)]
pub struct Turn {
    /// Which block 0 may come next.
    pub next: Next,
    /// The one that came, where it was not answered yet.
    pub zero: Option<Opening>,
    /// Whether the line was quiet behind the delivery that was handed on.
    pub is_over: bool,
}

/// How many bytes the block 0 has that stands at the front of these bytes, if one does.
fn zero_length(bytes: &[u8]) -> Option<usize>
    ensures length { result ≡ table.zero_length bytes.now }
    ensures within { IfSome result (λ n. (5 ≤ n) × (n ≤ length bytes.now)) }
{
    match whole_at(bytes) {
        Ok(Whole::Block(size)) if bytes[1] == 0 => Some(size.body_len() + 5),
        _ => None,
    }
}

/// Whether no frame ends the delivery, nor its length: then the line was quiet behind it.
fn is_over(bytes: &[u8]) -> bool
    ensures { result ≡ table.is_over bytes.now }
{
    bytes.len() < DELIVERY_LIMIT && !has_frame(bytes)
}

/// Whether this reply opens a file, or says that one is stored.
fn is_ack_start(reply: &[u8]) -> bool
    ensures { result ≡ table.is_ack_start reply.now }
{
    reply.len() == 2 && reply[0] == ACK && reply[1] == START
}

/// Whether this reply takes a data block.
fn is_ack(reply: &[u8]) -> bool
    ensures { result ≡ table.is_ack reply.now }
{
    reply.len() == 1 && reply[0] == ACK
}

impl Next {
    /// Whether a block 0 may come.
    pub fn awaits_zero(self) -> bool
        ensures { result ≡ table.awaits_zero self }
    {
        match self {
            Next::Any | Next::Repeat(_) => true,
            Next::Data => false,
        }
    }

    /// Whether this block 0 is another one than the only one that can come.
    fn is_other(self, zero: &[u8]) -> bool
        requires { 2 ≤ length zero.now }
        ensures { result ≡ table.is_other (table.whole zero.now) self }
    {
        match self {
            Next::Repeat(taken) => !taken.is_repeated_by(zero),
            Next::Any | Next::Data => false,
        }
    }
}

impl Turn {
    /// Nothing came.
    pub fn new() -> Turn
        ensures { result ≡ table.new_turn }
    {
        Turn {
            next: Next::Any,
            zero: None,
            is_over: false,
        }
    }

    /// Takes a delivery, and leaves of it what is handed on: a block 0 in place of the only one
    /// that can come is made a block of a number that can not.
    pub fn take(&mut self, bytes: &mut [u8])
        ensures bytes { bytes.new ≡ table.given bytes.old self.old }
        ensures turn { self.new ≡ table.took bytes.old self.old }
    {
        self.is_over = is_over(bytes);
        self.zero = None;
        if let Some(size) = zero_length(bytes) {
            let zero = &bytes[..size];
            self.zero = Some(Opening::of(zero));
            if self.next.is_other(zero) {
                bytes[1] = OUT_OF_TURN;
                bytes[2] = 255 - OUT_OF_TURN;
            }
        }
    }

    /// Takes a reply.
    pub fn reply(&mut self, reply: &[u8])
        ensures { self.new ≡ table.replied reply.now self.old }
    {
        if is_ack_start(reply) {
            self.next = match self.zero {
                Some(zero) => Next::Repeat(zero),
                None => Next::Any,
            };
        } else if is_ack(reply) {
            self.next = Next::Data;
        }
        self.zero = None;
    }
}
