//! The events that come to a port which plays a list of them.

ghost use Rattle.std.specs.Prelude.{◌≡◌, ◌<◌, ◌≤◌, ℕ, List, ◌∷◌, length, Ok};
ghost use Rattle.ym_link.specs.Port.{seen_of, read_gives, read_leaves};
ghost use Rattle.ym_link.specs.declared.event.Event.{Event as Coming};

use crate::event::Event;
use crate::port::{Got, PortFault};
use std::marker::Model;

/// Events, of which the first ones were read, and of the next one the first bytes. Contracts see
/// what is still to come.
#[derive(Drop)]
pub(crate) struct EventQueue {
    events: Vec<Event>,
    next: usize,
    used: usize,
}

impl Model for EventQueue {
    ghost use Rattle.std.specs.Prelude.{List};
    ghost use Rattle.ym_link.specs.ScriptPort.{coming_of};
    ghost use Rattle.ym_link.specs.declared.event.Event.{Event as Coming};

    ghost Value = { List Coming };

    ghost view = { λ q. coming_of q.used q.next q.events.items };
}

/// Copies the front of a piece, as much as there is room for, and says what a read of it gets.
fn copy_prefix(piece: &[u8], buf: &mut [u8]) -> Got
    requires { 0 < length buf.old }
    ensures count { (n : ℕ) → result ≡ Got.Bytes n → (0 < n) × (n ≤ length buf.old) }
    ensures seen { (rest : List Coming) → seen_of (Ok result) buf.new
        ≡ read_gives (length buf.old) (Event.Piece piece.now ∷ rest) }
{
    if piece.is_empty() {
        return Got::Quiet;
    }
    if buf.len() < piece.len() {
        buf.copy_from_slice(&piece[..buf.len()]);
        return Got::Bytes(buf.len());
    }
    buf[..piece.len()].copy_from_slice(piece);
    Got::Bytes(piece.len())
}

impl EventQueue {
    /// All of these events are still to come.
    pub fn new(events: Vec<Event>) -> EventQueue
        ensures { result ≡ events.items }
    {
        EventQueue {
            events,
            next: 0,
            used: 0,
        }
    }

    /// Takes the result of a read off the front of the events.
    pub fn take(&mut self, buf: &mut [u8]) -> Result<Got, PortFault>
        requires { 0 < length buf.old }
        ensures count { (n : ℕ) → result ≡ Ok (Got.Bytes n) → (0 < n) × (n ≤ length buf.old) }
        ensures seen { seen_of result buf.new ≡ read_gives (length buf.old) self.old }
        ensures after { self.new ≡ read_leaves (length buf.old) self.old }
    {
        let Some(event) = self.events.get(self.next) else {
            return Ok(Got::Closed);
        };
        let answer = match event {
            Event::Piece(bytes) => {
                let rest = bytes.as_slice().get(self.used..).unwrap_or(&[]);
                let got = copy_prefix(rest, buf);
                if buf.len() < rest.len() {
                    self.used += buf.len();
                    return Ok(got);
                }
                Ok(got)
            }
            Event::Quiet => Ok(Got::Quiet),
            Event::Closed => Ok(Got::Closed),
            Event::Fault => Err(PortFault),
        };
        self.next += 1;
        self.used = 0;
        answer
    }
}
