// A store whose calls are counted.
use om_io::{Bytes, Failed, LoadErr, Store};
use std::alloc::Global;

/// A store that counts how many loads and saves it is asked for.
#[derive(Drop)]
pub struct Counted<S: Drop> {
    pub inner: S,
    pub loads: u64,
    pub saves: u64,
}

impl<S: Drop> Counted<S> {
    /// This store, which was asked for nothing.
    pub fn new(inner: S) -> Counted<S> {
        Counted {
            inner,
            loads: 0,
            saves: 0,
        }
    }
}

impl<S: Store + Drop> Store for Counted<S> {
    ghost tells = { λ s. S.tells s.inner };

    ghost file = { λ s. S.file s.inner };

    ghost failed_loads = { λ s. S.failed_loads s.inner };

    ghost failed_saves = { λ s. S.failed_saves s.inner };

    ghost last_failed = { λ s. S.last_failed s.inner };

    ghost loads_asked = { λ s. S.loads_asked s.inner };

    ghost saves_asked = { λ s. S.saves_asked s.inner };

    fn load(&mut self, alloc: Global, name: &str, max: u64) -> Result<Bytes, LoadErr> {
        self.loads = self.loads.saturating_add(1);
        self.inner.load(alloc, name, max)
    }

    fn save(&mut self, name: &str, bytes: &[u8]) -> Result<(), Failed> {
        self.saves = self.saves.saturating_add(1);
        self.inner.save(name, bytes)
    }
}
