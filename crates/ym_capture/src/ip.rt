//! What a packet carries of the internet protocol, and that of TCP.

ghost use Rattle.std.specs.Prelude.{◌≡◌, ◌≤◌};
ghost use Rattle.ym_capture.specs.PacketParts.{ip_in as ip_of, ip_by as ip_for, version as version_by};
ghost use Rattle.ym_capture.specs.PacketParts.{is_tag as has_tag, ip_behind_tag as ip_behind};
ghost use Rattle.ym_capture.specs.PacketParts.{ip_tagged as ip_behind_tags};
ghost use Rattle.ym_capture.specs.PacketParts.{is_tcp as has_tcp, header_len as header_of};
ghost use Rattle.ym_capture.specs.PacketParts.{total_len as total_of, tcp_in as tcp_of};
ghost use Rattle.ym_capture.specs.PacketParts.{is_fragment as is_part};

use crate::head::Link;
use crate::numbers::{behind, byte_at, prefix, two};

/// Which internet protocol it is.
#[derive(Clone, Copy)]
pub(crate) enum Version {
    /// That of addresses of four bytes.
    Four,
    /// That of addresses of sixteen.
    Six,
    /// None.
    Other,
}

/// The bytes of the internet protocol, where this is its number.
fn ip_by(protocol: u16, body: &[u8]) -> &[u8]
    ensures { result.now ≡ ip_for protocol body.entry.now }
{
    match protocol {
        0x0800 | 0x86dd => body,
        _ => &[],
    }
}

/// Whether this is the number of a tag of a VLAN, behind which the number of a protocol stands.
fn is_tag(protocol: u16) -> bool
    ensures { result ≡ has_tag protocol }
{
    matches!(protocol, 0x8100 | 0x88a8)
}

/// The same, where a tag may stand before it.
fn ip_behind_tag(protocol: u16, body: &[u8]) -> &[u8]
    ensures { result.now ≡ ip_behind protocol body.entry.now }
{
    if is_tag(protocol) {
        ip_by(two(behind(body, 2)), behind(body, 4))
    } else {
        ip_by(protocol, body)
    }
}

/// The same, where two tags may stand before it.
fn ip_tagged(protocol: u16, body: &[u8]) -> &[u8]
    ensures { result.now ≡ ip_behind_tags protocol body.entry.now }
{
    if is_tag(protocol) {
        ip_behind_tag(two(behind(body, 2)), behind(body, 4))
    } else {
        ip_by(protocol, body)
    }
}

/// The bytes of the internet protocol in a packet; none where it carries another.
#[tactic(auto, unfolding(crate::specs::PacketParts::ip_in))]
pub(crate) fn ip_in(link: Link, packet: &[u8]) -> &[u8]
    ensures { result.now ≡ ip_of link packet.entry.now }
{
    match link {
        Link::Loopback => behind(packet, 4),
        Link::Ethernet => ip_tagged(two(behind(packet, 12)), behind(packet, 14)),
        Link::Raw => packet,
        Link::Cooked => ip_tagged(two(behind(packet, 14)), behind(packet, 16)),
        Link::CookedAgain => ip_tagged(two(packet), behind(packet, 20)),
    }
}

/// Which one it is, by its first byte.
pub(crate) fn version_of(ip: &[u8]) -> Version
    ensures { result ≡ version_by ip.now }
{
    match byte_at(ip, 0) / 16 {
        4 => Version::Four,
        6 => Version::Six,
        _ => Version::Other,
    }
}

/// Whether TCP follows.
#[tactic(auto, unfolding(crate::specs::PacketParts::is_tcp))]
pub(crate) fn is_tcp(ip: &[u8]) -> bool
    ensures { result ≡ has_tcp ip.now }
{
    match version_of(ip) {
        Version::Four => byte_at(ip, 9) == 6,
        Version::Six => byte_at(ip, 6) == 6,
        Version::Other => false,
    }
}

/// Whether it is a part of a larger packet.
#[tactic(auto, unfolding(crate::specs::PacketParts::is_fragment))]
pub(crate) fn is_fragment(ip: &[u8]) -> bool
    ensures { result ≡ is_part ip.now }
{
    match version_of(ip) {
        Version::Four => two(behind(ip, 6)) % 0x4000 != 0,
        Version::Six | Version::Other => false,
    }
}

/// How many bytes stand before those of TCP.
#[tactic(auto, unfolding(crate::specs::PacketParts::header_len))]
fn header_len(ip: &[u8]) -> usize
    ensures { result ≡ header_of ip.now }
{
    match version_of(ip) {
        Version::Four => usize::from(byte_at(ip, 0) % 16) * 4,
        Version::Six => 40,
        Version::Other => 0,
    }
}

/// How many bytes it states to have. A card that cuts for its system leaves 0 there: then it has
/// all that were kept.
#[tactic(auto, unfolding(crate::specs::PacketParts::total_len))]
pub(crate) fn total_len(ip: &[u8]) -> usize
    ensures { result ≡ total_of ip.now }
{
    let (stated, before) = match version_of(ip) {
        Version::Four => (usize::from(two(behind(ip, 2))), 0),
        Version::Six => (usize::from(two(behind(ip, 4))), 40),
        Version::Other => (0, 0),
    };
    if stated == 0 {
        ip.len()
    } else {
        before + stated
    }
}

/// The bytes of TCP. What stands behind its end fills the packet up.
#[tactic(auto, unfolding(crate::specs::PacketParts::tcp_in))]
pub(crate) fn tcp_in(ip: &[u8]) -> &[u8]
    ensures { result.now ≡ tcp_of ip.entry.now }
{
    behind(prefix(ip, total_len(ip)), header_len(ip))
}
