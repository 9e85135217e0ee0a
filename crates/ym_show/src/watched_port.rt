//! A port that is watched.

ghost use Rattle.std.specs.Prelude.{◌≡◌};

use ym_link::{Got, Port, PortFault, Wait};
use ym_port::Learned;

/// Who watches a port. What it does changes nothing of the port.
pub trait PortWatch {
    /// A read begins, which waits so long.
    fn waits(&mut self, wait: Wait);

    /// These bytes came.
    fn came(&mut self, bytes: &[u8]);

    /// These bytes were written.
    fn wrote(&mut self, bytes: &[u8]);

    /// What was written came back.
    fn echoed(&mut self);
}

/// A port, and who watches it. It brings and takes what the port does, and fails where that fails.
#[derive(Drop)]
pub struct WatchedPort<P: Learned + Drop, V: PortWatch + Drop> {
    /// The port.
    pub port: P,
    /// Who watches it.
    pub watch: V,
    /// How many milliseconds the slowest answer took at the last read, where one was seen. Behind a
    /// write the port may know less: CAN CAN leads on from what it answers.
    pub slowest: Option<u64>,
}

impl<P: Learned + Drop, V: PortWatch + Drop> Port for WatchedPort<P, V> {
    ghost tells = { λ w t. P.tells w.port t };

    ghost asked = { λ w waits. P.asked w.port waits };

    ghost failures = { λ w. P.failures w.port };

    fn read(&mut self, wait: Wait, buf: &mut [u8]) -> Result<Got, PortFault> {
        self.watch.waits(wait);
        let got = self.port.read(wait, buf);
        if let Ok(Got::Bytes(count)) = got {
            self.watch.came(&buf[..count]);
        }
        if self.port.has_echo() {
            self.watch.echoed();
        }
        self.slowest = self.port.slowest();
        got
    }

    #[inline(always)]
    fn write(&mut self, bytes: &[u8]) -> Result<(), PortFault> {
        let done = self.port.write(bytes);
        if done.is_ok() {
            self.watch.wrote(bytes);
        }
        done
    }
}
