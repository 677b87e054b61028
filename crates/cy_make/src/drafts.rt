// Files that are made only to be read at once.
ghost use Rattle.std.specs.Prelude.{◌≡◌};
ghost use Rattle.cy_store.specs.Memory.{new_memory, shows_of};
ghost use Rattle.cy_make.specs.Drafts.{IsQuiet};

use cy_store::{MemStore, Store, StoreError};
use std::alloc::Global;
use std::marker::Model;

/// Files in memory. No call fails but one on a name that is not there.
#[derive(Drop)]
pub struct Drafts {
    store: MemStore,
    ghost quiet: { IsQuiet store },
}

impl Model for Drafts {
    ghost use Rattle.cy_store.specs.Memory.{Memory, memory_code};

    ghost Value = { Memory };

    ghost coded = { memory_code };

    ghost view = { λ d. d.store };
}

impl Drafts {
    /// No files.
    pub fn new(alloc: Global) -> Self
        ensures { result ≡ new_memory }
    {
        Drafts {
            store: MemStore::new(alloc),
        }
    }

    /// No call failed so far. Proved here, and nothing to run.
    pub fn have_no_faults(&self)
        ensures { self.now.faults ≡ 0 }
    {
        let _store = &self.store;
    }
}

impl Store for Drafts {
    ghost shows = { shows_of };

    fn size(&mut self, name: &str) -> Result<u64, StoreError> {
        self.store.size(name)
    }

    fn read_at(&mut self, name: &str, at: u64, buf: &mut [u8]) -> Result<usize, StoreError> {
        self.store.read_at(name, at, buf)
    }

    fn create(&mut self, name: &str) -> Result<(), StoreError> {
        match self.store.create(name) {
            Ok(()) => Ok(()),
            Err(StoreError::Failed) => Err(StoreError::Failed),
            Err(StoreError::Memory) => Err(StoreError::Memory),
        }
    }

    fn put_at(&mut self, name: &str, at: u64, bytes: &[u8]) -> Result<(), StoreError> {
        match self.store.put_at(name, at, bytes) {
            Ok(()) => Ok(()),
            Err(StoreError::Failed) => Err(StoreError::Failed),
            Err(StoreError::Memory) => Err(StoreError::Memory),
        }
    }

    fn same(&mut self, name: &str, other: &str) -> bool {
        self.store.same(name, other)
    }
}
