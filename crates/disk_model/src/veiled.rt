//! A storage in memory that does not let itself be asked for images.
ghost use Rattle.std.specs.Prelude.{◌≡◌};
ghost use Rattle.disk_model.specs.Memory.{memory_disk};
ghost use Rattle.disk_model.specs.Veil.{veiled_disk};

use crate::{Failed, MemoryStorage, Storage};

/// Passes every call on to a storage in memory and tells its contents; its `memory` answers None.
#[derive(Drop)]
pub struct Veiled {
    pub(crate) storage: MemoryStorage,
}

impl Veiled {
    /// The storage behind a veil: it tells the same, and takes the same calls.
    pub fn new(storage: MemoryStorage) -> Veiled
        ensures { veiled_disk result ≡ memory_disk storage }
    {
        Veiled { storage }
    }
}

impl Storage for Veiled {
    ghost disk = { veiled_disk };

    fn len(&mut self, file: u32) -> Result<u64, Failed> {
        self.storage.len(file)
    }

    fn read(&mut self, file: u32, at: u64, buf: &mut [u8]) -> Result<usize, Failed> {
        self.storage.read(file, at, buf)
    }

    fn write(&mut self, file: u32, at: u64, bytes: &[u8]) -> Result<(), Failed> {
        self.storage.write(file, at, bytes)
    }

    fn cut(&mut self, file: u32, len: u64) -> Result<(), Failed> {
        self.storage.cut(file, len)
    }

    fn sync(&mut self, file: u32) -> Result<(), Failed> {
        self.storage.sync(file)
    }

    fn calls(&self) -> u64 {
        self.storage.calls()
    }

    fn memory(&self) -> Option<&MemoryStorage> {
        None
    }

    fn faults(&self) -> u64 {
        self.storage.faults()
    }
}
