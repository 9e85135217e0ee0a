//! A carrier over the two ends of one TCP connection.

ghost use Rattle.std.specs.Prelude.{◌≡◌, ◌≢◌, ◌<◌, None, Ok, Err, OnOk, length};
ghost use Rattle.ym_file.specs.Counts.{Counted};
ghost use Rattle.ym_link.specs.declared.port.TheConstants.{DELIVERY_LIMIT};

use std::io;
use std::io::{Read, Write};
use std::marker::Model;
use std::net::TcpStream;
use std::time::Duration;
use ym_line::{Carrier, CarryFault, Way};
use ym_link::DELIVERY_LIMIT;

/// How many seconds a delivery may take from one end of the connection to the other.
const WAIT_SECONDS: u64 = 10;

/// A carrier over the two ends of one TCP connection: what is written at one end is read at the
/// other, and compared with what was handed over. It tells no deliveries. After a device fault
/// every later carry is one: what is still under way would be taken for its bytes.
#[derive(Drop)]
pub struct SocketCarrier {
    near: TcpStream,
    far: TcpStream,
    /// Whether the waits of both streams are bounded.
    is_ready: bool,
    /// How many carries failed. Where one did, every later one does.
    failed: u64,
}

impl Model for SocketCarrier {
    ghost use Rattle.std.specs.Prelude.{ℕ};

    ghost Value = { ℕ };

    ghost view = { λ c. c.failed };
}

/// Bounds how long a stream's reads and writes wait.
fn bound(stream: &TcpStream) -> io::Result<()> {
    let wait = Some(Duration::from_secs(WAIT_SECONDS));
    stream.set_nodelay(true)?;
    stream.set_read_timeout(wait)?;
    stream.set_write_timeout(wait)
}

/// Writes the bytes to one stream, and reads as many from the other.
fn pass(from: &mut TcpStream, to: &mut TcpStream, bytes: &[u8], into: &mut [u8]) -> io::Result<()> {
    from.write_all(bytes)?;
    to.read_exact(into)
}

impl SocketCarrier {
    /// A carrier over a connection: what goes there is written to `near` and read from `far`, and
    /// what goes back the other way round.
    pub fn new(near: TcpStream, far: TcpStream) -> SocketCarrier
        ensures { result ≡ 0 }
    {
        SocketCarrier {
            near,
            far,
            is_ready: false,
            failed: 0,
        }
    }

    /// Counts a failure, after which every carry is one.
    fn fail(&mut self) -> CarryFault
        ensures counted_failure { Counted self.old self.new }
        ensures fault { result ≡ CarryFault.Device }
    {
        self.failed = self.failed.saturating_add(1);
        CarryFault::Device
    }

    /// Bounds the waits of both streams, before the first delivery.
    fn make_ready(&mut self) -> io::Result<()>
        ensures { self.new ≡ self.old }
    {
        if !self.is_ready {
            bound(&self.near)?;
            bound(&self.far)?;
            self.is_ready = true;
        }
        Ok(())
    }

    /// Hands a delivery through the connection, where there is one to hand.
    fn exchange(&mut self, way: Way, bytes: &[u8], into: &mut [u8]) -> io::Result<()>
        ensures { self.new ≡ self.old }
    {
        if bytes.is_empty() {
            return Ok(());
        }
        self.make_ready()?;
        match way {
            Way::There => pass(&mut self.near, &mut self.far, bytes, into),
            Way::Back => pass(&mut self.far, &mut self.near, bytes, into),
        }
    }
}

impl Carrier for SocketCarrier {
    ghost told = { λ _. None };

    ghost failures = { λ c. c };

    fn carry(&mut self, way: Way, bytes: &[u8], into: &mut Vec<u8>) -> Result<(), CarryFault>
        ensures arrived { OnOk result (into.new.items ≡ bytes.now) }
        ensures broken { self.old ≢ 0 → result ≡ Err CarryFault.Device }
        ensures limit { DELIVERY_LIMIT < length bytes.now → result ≢ Ok tt }
        ensures failed { result ≡ Err CarryFault.Device → Counted self.old self.new }
        ensures not_failed { result ≢ Err CarryFault.Device → self.new ≡ self.old }
    {
        if self.failed > 0 {
            return Err(self.fail());
        }
        into.clear();
        into.resize(bytes.len(), 0)?;
        if bytes.len() > DELIVERY_LIMIT {
            return Err(self.fail());
        }
        if self.exchange(way, bytes, into).is_err() || into.as_slice() != bytes {
            return Err(self.fail());
        }
        Ok(())
    }
}
