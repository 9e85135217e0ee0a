//! One way of a connection: which bytes of a segment are new, by their numbers.

ghost use Rattle.std.specs.Prelude.{◌≡◌};
ghost use Rattle.ym_capture.specs.Flow.{seen_of, start_of, fresh_in as fresh_of, is_ahead as is_early};
ghost use Rattle.ym_capture.specs.Flow.{next_behind as next_of, counted as counted_on};

use crate::numbers::behind;
use crate::tcp::{data, number, opens};

/// The number of its first byte of data. An opening counts as a byte.
#[tactic(auto, unfolding(crate::specs::Flow::start_of))]
fn start(tcp: &[u8]) -> u32
    ensures { result ≡ start_of tcp.now }
{
    if opens(tcp) {
        number(tcp).wrapping_add(1)
    } else {
        number(tcp)
    }
}

/// How many bytes of its data came before, where the next one has this number. Numbers go round.
#[tactic(auto, unfolding(crate::specs::Flow::seen_of))]
fn seen(next: Option<u32>, tcp: &[u8]) -> u32
    ensures { result ≡ seen_of next tcp.now }
{
    if opens(tcp) {
        return 0;
    }
    match next {
        Some(next) => next.wrapping_sub(number(tcp)),
        None => 0,
    }
}

/// Whether bytes are missing before its data: then it would have begun half a round before.
#[tactic(auto, unfolding(crate::specs::Flow::is_ahead))]
pub(crate) fn is_ahead(next: Option<u32>, tcp: &[u8]) -> bool
    ensures { result ≡ is_early next tcp.now }
{
    !data(tcp).is_empty() && seen(next, tcp) >= 0x8000_0000
}

/// Its new data.
#[tactic(auto, unfolding(crate::specs::Flow::fresh_in))]
pub(crate) fn fresh(next: Option<u32>, tcp: &[u8]) -> &[u8]
    ensures { result.now ≡ fresh_of next tcp.entry.now }
{
    behind(data(tcp), seen(next, tcp) as usize)
}

/// The number that stands so many behind another.
fn counted(number: u32, count: usize) -> u32
    ensures { result ≡ counted_on number count }
{
    number.wrapping_add((count % 0x1_0000_0000) as u32)
}

/// The number of the next byte behind this segment, where one is known.
#[tactic(auto, unfolding(crate::specs::Flow::next_behind))]
pub(crate) fn next_behind(next: Option<u32>, tcp: &[u8]) -> Option<u32>
    ensures { result ≡ next_of next tcp.now }
{
    let count = fresh(next, tcp).len();
    if opens(tcp) {
        return Some(counted(start(tcp), count));
    }
    if count == 0 {
        return next;
    }
    Some(counted(next.unwrap_or(number(tcp)), count))
}
