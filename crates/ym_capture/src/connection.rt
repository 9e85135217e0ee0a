//! The connection of a capture: what each packet brings of it.

ghost use Rattle.std.specs.Prelude.{◌≡◌};
ghost use Rattle.ym_capture.specs.OneConnection.{none_yet, sides_at as sides_by};
ghost use Rattle.ym_capture.specs.OneConnection.{behind_packet, fresh_in, way_in};

use crate::fault::CaptureFault;
use crate::head::Link;
use crate::ip::{ip_in, is_tcp};
use crate::sides::Sides;
use crate::tcp::fault_in;
use ym_told::Direction;

/// The connection of a capture, as far as its packets were read.
#[derive(Clone, Copy)]
pub struct Connection {
    link: Link,
    turned: bool,
    sides: Option<Sides>,
}

impl Connection {
    /// One of which no packet was read. If it is turned, its ways are the other way round.
    pub fn new(link: Link, turned: bool) -> Connection
        ensures { result ≡ none_yet link turned }
    {
        Connection {
            link,
            turned,
            sides: None,
        }
    }

    /// Its two ends, of which this packet may be the first. A connection of which no byte came
    /// gives way to the next: so it is where somebody calls before anybody listens.
    fn sides_at(self, ip: &[u8]) -> Sides
        ensures { result ≡ sides_by self ip.now }
    {
        match self.sides {
            Some(sides) => sides.at(ip),
            None => Sides::of(ip),
        }
    }

    /// Behind this packet. What is no TCP changes nothing.
    ///
    /// # Errors
    ///
    /// Where it is not whole, is of another connection, or bytes before its own are not there.
    #[tactic(auto, unfolding(crate::specs::OneConnection::behind_packet))]
    pub fn behind(self, packet: &[u8]) -> Result<Connection, CaptureFault>
        ensures { result ≡ behind_packet self packet.now }
    {
        let ip = ip_in(self.link, packet);
        if !is_tcp(ip) {
            return Ok(self);
        }
        if let Some(why) = fault_in(ip) {
            return Err(why);
        }
        match self.sides_at(ip).behind(ip) {
            Ok(sides) => Ok(Connection {
                link: self.link,
                turned: self.turned,
                sides: Some(sides),
            }),
            Err(why) => Err(why),
        }
    }

    /// The bytes that this packet brings and none before it brought.
    #[tactic(auto, unfolding(crate::specs::OneConnection::fresh_in))]
    pub fn fresh<'a>(&self, packet: &'a [u8]) -> &'a [u8]
        ensures { result.now ≡ fresh_in self.now packet.entry.now }
    {
        let ip = ip_in(self.link, packet);
        if is_tcp(ip) {
            self.sides_at(ip).fresh(ip)
        } else {
            &[]
        }
    }

    /// The way in which they went.
    #[tactic(auto, unfolding(crate::specs::OneConnection::way_in))]
    pub fn way(self, packet: &[u8]) -> Direction
        ensures { result ≡ way_in self packet.now }
    {
        let ip = ip_in(self.link, packet);
        let way = self.sides_at(ip).way(ip);
        if self.turned { way.other() } else { way }
    }
}
