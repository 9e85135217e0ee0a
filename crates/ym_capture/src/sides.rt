//! The two ends of a connection, and which of them sends files.

ghost use Rattle.std.specs.Prelude.{◌≡◌};
ghost use Rattle.ym_capture.specs.TwoSides.{same_end, source as source_of, target as target_of};
ghost use Rattle.ym_capture.specs.TwoSides.{first_sides, side_of as side_by, sides_for as sides_with, next_for, with_next as with_number};
ghost use Rattle.ym_capture.specs.TwoSides.{first_way_of as way_from, way_of as way_at};
ghost use Rattle.ym_capture.specs.TwoSides.{asks as is_ask, begins as is_begin};
ghost use Rattle.ym_capture.specs.TwoSides.{behind as behind_ip, behind_side, fresh_of};

use crate::fault::CaptureFault;
use crate::flow::{fresh, is_ahead, next_behind};
use crate::ip::{Version, tcp_in, version_of};
use crate::numbers::{behind, eight, four, two};
use ym_told::Direction;

/// An end of a connection: its address, as two numbers, and its port.
#[derive(Clone, Copy)]
pub struct End {
    /// The upper half of an address of sixteen bytes; else 0.
    pub high: u64,
    /// The lower half, or an address of four bytes.
    pub low: u64,
    /// The port.
    pub port: u16,
}

impl End {
    /// Whether it is the same end.
    fn is(self, other: End) -> bool
        ensures { result ≡ same_end self other }
    {
        self.high == other.high && self.low == other.low && self.port == other.port
    }
}

/// The end that sent a packet of TCP.
#[tactic(auto, unfolding(crate::specs::TwoSides::source))]
fn source(ip: &[u8]) -> End
    ensures { result ≡ source_of ip.now }
{
    let port = two(tcp_in(ip));
    match version_of(ip) {
        Version::Six => End {
            high: eight(behind(ip, 8)),
            low: eight(behind(ip, 16)),
            port,
        },
        Version::Four | Version::Other => End {
            high: 0,
            low: u64::from(four(behind(ip, 12))),
            port,
        },
    }
}

/// The end that it goes to.
#[tactic(auto, unfolding(crate::specs::TwoSides::target))]
fn target(ip: &[u8]) -> End
    ensures { result ≡ target_of ip.now }
{
    let port = two(behind(tcp_in(ip), 2));
    match version_of(ip) {
        Version::Six => End {
            high: eight(behind(ip, 24)),
            low: eight(behind(ip, 32)),
            port,
        },
        Version::Four | Version::Other => End {
            high: 0,
            low: u64::from(four(behind(ip, 16))),
            port,
        },
    }
}

/// Which end of a connection.
#[derive(Clone, Copy)]
pub(crate) enum Side {
    /// The one from which its first packet came.
    First,
    /// The other.
    Second,
}

/// A connection under way.
#[derive(Clone, Copy)]
pub struct Sides {
    first: End,
    second: End,
    first_next: Option<u32>,
    second_next: Option<u32>,
    first_way: Option<Direction>,
}

/// The way in which the first end writes, where the first byte of all comes from this one.
///
/// Who begins with C, NAK or G asks for files. Who begins with 01 or 02 sends them. Else the first
/// end does.
fn first_way_of(side: Side, byte: u8) -> Direction
    ensures { result ≡ way_from side byte }
{
    let turns = match side {
        Side::First => asks(byte),
        Side::Second => begins(byte),
    };
    if turns {
        Direction::Back
    } else {
        Direction::There
    }
}

/// Whether a receiver asks for files by this byte.
fn asks(byte: u8) -> bool
    ensures { result ≡ is_ask byte }
{
    matches!(byte, b'C' | 0x15 | b'G')
}

/// Whether a block begins with this byte.
fn begins(byte: u8) -> bool
    ensures { result ≡ is_begin byte }
{
    matches!(byte, 0x01 | 0x02)
}

impl Sides {
    /// The connection of which this is the first packet.
    pub(crate) fn of(ip: &[u8]) -> Sides
        ensures { result ≡ first_sides ip.now }
    {
        Sides {
            first: source(ip),
            second: target(ip),
            first_next: None,
            second_next: None,
            first_way: None,
        }
    }

    /// The end from which a packet of it came.
    fn side_of(self, ip: &[u8]) -> Option<Side>
        ensures { result ≡ side_by self ip.now }
    {
        let from = source(ip);
        let to = target(ip);
        if from.is(self.first) && to.is(self.second) {
            return Some(Side::First);
        }
        if from.is(self.second) && to.is(self.first) {
            return Some(Side::Second);
        }
        None
    }

    /// The connection where this packet is the next: this one, or its own, where it is of another
    /// and no byte of this one came.
    pub(crate) fn at(self, ip: &[u8]) -> Sides
        ensures { result ≡ sides_with self ip.now }
    {
        match (self.first_way, self.side_of(ip)) {
            (None, None) => Sides::of(ip),
            (None, Some(_)) => self,
            (Some(_), _) => self,
        }
    }

    /// The number of the next byte from this end.
    fn next_of(self, side: Side) -> Option<u32>
        ensures { result ≡ next_for self side }
    {
        match side {
            Side::First => self.first_next,
            Side::Second => self.second_next,
        }
    }

    /// With another one, and with the ways that this makes known.
    fn with_next(self, side: Side, next: Option<u32>, fresh: &[u8]) -> Sides
        ensures { result ≡ with_number self side next fresh.now }
    {
        let mut behind = self;
        match side {
            Side::First => behind.first_next = next,
            Side::Second => behind.second_next = next,
        }
        behind.first_way = match (self.first_way, fresh) {
            (None, [byte, ..]) => Some(first_way_of(side, *byte)),
            (known, _) => known,
        };
        behind
    }

    /// Behind a packet of it.
    pub(crate) fn behind(self, ip: &[u8]) -> Result<Sides, CaptureFault>
        ensures { result ≡ behind_ip self ip.now }
    {
        match self.side_of(ip) {
            Some(side) => self.behind_side(side, tcp_in(ip)),
            None => Err(CaptureFault::Second),
        }
    }

    /// Behind a segment from this end.
    fn behind_side(self, side: Side, tcp: &[u8]) -> Result<Sides, CaptureFault>
        ensures { result ≡ behind_side self side tcp.now }
    {
        let next = self.next_of(side);
        if is_ahead(next, tcp) {
            return Err(CaptureFault::Gap);
        }
        Ok(self.with_next(side, next_behind(next, tcp), fresh(next, tcp)))
    }

    /// The new bytes of a packet of it.
    pub(crate) fn fresh<'a>(&self, ip: &'a [u8]) -> &'a [u8]
        ensures { result.now ≡ fresh_of self.now ip.entry.now }
    {
        match self.side_of(ip) {
            Some(side) => fresh(self.next_of(side), tcp_in(ip)),
            None => &[],
        }
    }

    /// The way in which a packet of it went.
    pub(crate) fn way(self, ip: &[u8]) -> Direction
        ensures { result ≡ way_at self ip.now }
    {
        let first_way = self.first_way.unwrap_or(Direction::There);
        match self.side_of(ip) {
            Some(Side::Second) => first_way.other(),
            Some(Side::First) | None => first_way,
        }
    }
}
