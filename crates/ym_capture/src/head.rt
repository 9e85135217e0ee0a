//! How a capture is written, as its first bytes say, and what stands before each packet.

ghost use Rattle.std.specs.Prelude.{◌≡◌, drop};
ghost use Rattle.ym_capture.specs.CaptureHead.{kind_of as kind_by, form_of as form_by, form_for};
ghost use Rattle.ym_capture.specs.CaptureHead.{link_of as link_by, micros_in as micros_by};
ghost use Rattle.ym_capture.specs.CaptureHead.{packet_head as head_by};

use crate::fault::CaptureFault;
use crate::numbers::{behind, four, four_in};

/// The bytes before the first packet.
pub const HEAD: usize = 24;

/// The bytes before each packet.
pub const PACKET_HEAD: usize = 16;

/// A packet has so many bytes at most.
pub const MOST_PACKET: u32 = 262_144;

/// In which order the bytes of a number stand.
#[derive(Clone, Copy)]
pub enum ByteOrder {
    /// The highest one first.
    HighFirst,
    /// The lowest one first.
    LowFirst,
}

/// What a part of a second is counted in.
#[derive(Clone, Copy)]
pub enum Part {
    /// Microseconds.
    Micros,
    /// Nanoseconds.
    Nanos,
}

/// What a packet has before the internet protocol.
#[derive(Clone, Copy)]
pub enum Link {
    /// Four bytes that name the protocol, as the loopback of BSD has it.
    Loopback,
    /// Two addresses and the protocol, as Ethernet has it.
    Ethernet,
    /// Nothing.
    Raw,
    /// The sixteen bytes of Linux's cooked capture.
    Cooked,
    /// The twenty bytes of its second version.
    CookedAgain,
}

/// What a file is, by its first four bytes.
#[derive(Clone, Copy)]
pub enum CaptureKind {
    /// A capture of packets.
    Pcap(ByteOrder, Part),
    /// One in the form that came after it, which is not read.
    Pcapng,
    /// Neither.
    Other,
}

/// How a capture is written.
#[derive(Clone, Copy)]
pub struct Form {
    /// The order of its numbers' bytes.
    pub order: ByteOrder,
    /// What it counts parts of a second in.
    pub part: Part,
    /// What its packets begin with.
    pub link: Link,
}

/// What stands before a packet.
#[derive(Clone, Copy)]
pub struct PacketHead {
    /// Its moment, in microseconds since 1970.
    pub at: u64,
    /// How many of its bytes follow.
    pub length: u32,
}

/// What a file that begins so is.
pub fn kind_of(prefix: &[u8]) -> CaptureKind
    ensures { result ≡ kind_by prefix.now }
{
    match four(prefix) {
        0xa1b2_c3d4 => CaptureKind::Pcap(ByteOrder::HighFirst, Part::Micros),
        0xa1b2_3c4d => CaptureKind::Pcap(ByteOrder::HighFirst, Part::Nanos),
        0xd4c3_b2a1 => CaptureKind::Pcap(ByteOrder::LowFirst, Part::Micros),
        0x4d3c_b2a1 => CaptureKind::Pcap(ByteOrder::LowFirst, Part::Nanos),
        0x0a0d_0d0a => CaptureKind::Pcapng,
        _ => CaptureKind::Other,
    }
}

/// The link of this number, where it is one that is read.
fn link_of(number: u32) -> Option<Link>
    ensures { result ≡ link_by number }
{
    match number {
        0 => Some(Link::Loopback),
        1 => Some(Link::Ethernet),
        101 => Some(Link::Raw),
        113 => Some(Link::Cooked),
        276 => Some(Link::CookedAgain),
        _ => None,
    }
}

/// How a capture of this kind is written, as the bytes before its first packet say.
///
/// # Errors
///
/// Where its packets are of a link that is not read.
pub fn form_of(order: ByteOrder, part: Part, head: &[u8]) -> Result<Form, CaptureFault>
    ensures { result ≡ form_by order part head.now }
{
    let number = four_in(order, behind(head, 20)) % 65536;
    match link_of(number) {
        Some(link) => Ok(Form { order, part, link }),
        None => Err(CaptureFault::Link(number)),
    }
}

/// Microseconds in so many parts of a second.
fn micros_in(part: Part, count: u32) -> u64
    ensures { result ≡ micros_by part count }
{
    match part {
        Part::Micros => u64::from(count),
        Part::Nanos => u64::from(count) / 1000,
    }
}

/// What stands before a packet, in a capture that is written so.
pub fn packet_head(form: Form, head: &[u8]) -> PacketHead
    ensures { result ≡ head_by form head.now }
{
    let seconds = four_in(form.order, head);
    let count = four_in(form.order, behind(head, 4));
    let micros = micros_in(form.part, count);
    PacketHead {
        at: (u64::from(seconds) * 1_000_000).saturating_add(micros),
        length: four_in(form.order, behind(head, 8)),
    }
}
