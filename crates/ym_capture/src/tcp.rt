//! A segment of TCP.

ghost use Rattle.std.specs.Prelude.{◌≡◌};
ghost use Rattle.ym_capture.specs.PacketParts.{number as number_of, opens as is_opening, data_of};
ghost use Rattle.ym_capture.specs.PacketParts.{tcp_header_len, is_short as is_cut, fault_in as fault_by};

use crate::fault::CaptureFault;
use crate::ip::{is_fragment, tcp_in, total_len};
use crate::numbers::{behind, byte_at, four};

/// The least that its header has.
const HEADER: usize = 20;

/// The number of its first byte.
#[tactic(auto, unfolding(crate::specs::PacketParts::number))]
pub(crate) fn number(tcp: &[u8]) -> u32
    ensures { result ≡ number_of tcp.now }
{
    four(behind(tcp, 4))
}

/// Whether it opens its way.
#[tactic(auto, unfolding(crate::specs::PacketParts::opens))]
pub(crate) fn opens(tcp: &[u8]) -> bool
    ensures { result ≡ is_opening tcp.now }
{
    byte_at(tcp, 13) / 2 % 2 == 1
}

/// How many bytes its header has.
#[tactic(auto, unfolding(crate::specs::PacketParts::tcp_header_len))]
fn header_len(tcp: &[u8]) -> usize
    ensures { result ≡ tcp_header_len tcp.now }
{
    usize::from(byte_at(tcp, 12) / 16) * 4
}

/// The bytes that it carries.
#[tactic(auto, unfolding(crate::specs::PacketParts::data_of))]
pub(crate) fn data(tcp: &[u8]) -> &[u8]
    ensures { result.now ≡ data_of tcp.entry.now }
{
    behind(tcp, header_len(tcp))
}

/// Whether its header is not all there.
fn is_short(tcp: &[u8]) -> bool
    ensures { result ≡ is_cut tcp.now }
{
    tcp.len() < HEADER || header_len(tcp) < HEADER || tcp.len() < header_len(tcp)
}

/// Why a packet of TCP cannot be read, if it cannot.
#[tactic(auto, unfolding(crate::specs::PacketParts::fault_in))]
pub(crate) fn fault_in(ip: &[u8]) -> Option<CaptureFault>
    ensures { result ≡ fault_by ip.now }
{
    if is_fragment(ip) {
        return Some(CaptureFault::Fragment);
    }
    if ip.len() < total_len(ip) || is_short(tcp_in(ip)) {
        return Some(CaptureFault::Short);
    }
    None
}
