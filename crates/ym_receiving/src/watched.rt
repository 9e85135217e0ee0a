//! A sink that is watched.

ghost use Rattle.std.specs.Prelude.{◌≡◌};

use crate::store::Store;
use ym_file::{Sink, SinkFault};
use ym_header::Header;
use ym_show::SinkWatch;

/// A sink, and who watches it. It holds what the sink holds, and fails where that fails.
#[derive(Drop)]
pub struct Watched<K: Store + Drop, V: SinkWatch + Drop> {
    /// The sink.
    pub sink: K,
    /// Who watches it.
    pub watch: V,
}

impl<K: Store + Drop, V: SinkWatch + Drop> Sink for Watched<K, V> {
    ghost kept = { λ s. K.kept s.sink };

    ghost failures = { λ s. K.failures s.sink };

    fn begin(&mut self, header: Header) -> Result<(), SinkFault> {
        self.watch.begins(&header);
        self.sink.begin(header)?;
        if let Some(part) = self.sink.replaced() {
            self.watch.replaced(part);
        }
        Ok(())
    }

    fn add(&mut self, bytes: &[u8]) -> Result<(), SinkFault> {
        let done = self.sink.add(bytes);
        if done.is_ok() {
            self.watch.added(bytes.len());
        }
        done
    }

    fn commit(&mut self) -> Result<(), SinkFault> {
        let done = self.sink.commit();
        if done.is_ok() {
            self.watch.committed();
        }
        done
    }
}

impl<K: Store + Drop, V: SinkWatch + Drop> Store for Watched<K, V> {
    ghost replaced = { λ s. K.replaced s.sink };

    fn headers(&self) -> &[Header] {
        self.sink.headers()
    }

    fn replaced(&self) -> Option<&str> {
        self.sink.replaced()
    }

    fn close(&mut self) -> Result<(), SinkFault> {
        self.watch.ended();
        self.sink.close()
    }
}
