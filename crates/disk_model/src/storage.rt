//! A device with files: five calls on them, how many there were and how many failed.
//!
//! What a storage tells is one value, its disk: each file at each moment so far. A moment is a number of device calls over all files.
ghost use Rattle.std.specs.Prelude.{◌≡◌, ◌⊎◌, ℕ, ◌+◌, ◌-◌, ◌≤◌, ◌<◌, min, length, take, drop, ◌++◌, OnOk, IfOk, IfSome, IsTrue};
ghost use Rattle.disk_model.specs.Memory.{memory_disk};
ghost use Rattle.disk_model.specs.File.{Stays, Writes, Cuts, Syncs};
ghost use Rattle.disk_model.specs.Disk.{Disk, Called, contents, Fills};

use crate::MemoryStorage;

/// The device failed.
#[derive(Clone, Copy, Debug, PartialEq, Eq)]
pub struct Failed;

/// Files named by numbers, each empty until it is written.
///
/// Each device call counts one, and answers `Failed` only where the count of faults rose in it or stands at its last value. A call at
/// the last value of u64 answers `Failed`, does nothing and counts none. Where contents are told, a call says what it did to its file
/// and leaves the others, and all moments before it, as they were; or it failed and did nothing.
pub trait Storage: Drop {
    /// What is told of it: how many calls and faults there were, and each file at each moment so far.
    ghost disk: { Self → Disk };

    /// The length of a file in bytes; `Failed` where the device failed.
    fn len(&mut self, file: u32) -> Result<u64, Failed>
        ensures called { Called file Stays result (disk self.old) (disk self.new) }
        ensures value { IsTrue (disk self.old).told
            → IfOk result (λ n. n ≡ length (contents (disk self.old) file)) };

    /// Fills `buf` from `at` on, and answers how many bytes it has. It is short only at the end of the file. `Failed` where the device
    /// failed; nothing is said of `buf` then.
    fn read(&mut self, file: u32, at: u64, buf: &mut [u8]) -> Result<usize, Failed>
        ensures called { Called file Stays result (disk self.old) (disk self.new) }
        ensures value { IsTrue (disk self.old).told
            → IfOk result (λ n. Fills (contents (disk self.old) file) at buf.old n buf.new) }
        ensures count { IfOk result (λ n. n ≤ length buf.old) };

    /// Writes over what is there, and past the end. It has to begin at the length or below, where that is told. After `Failed` its range may
    /// hold any bytes.
    fn write(&mut self, file: u32, at: u64, bytes: &[u8]) -> Result<(), Failed>
        requires { IsTrue (disk self.old).told → at ≤ length (contents (disk self.old) file) }
        ensures called { Called file (Writes at bytes.now result) result (disk self.old)
            (disk self.new) };

    /// Cuts a file to a length, which is at most what it has, where that is told. After `Failed` the length lies between.
    fn cut(&mut self, file: u32, len: u64) -> Result<(), Failed>
        requires { IsTrue (disk self.old).told → len ≤ length (contents (disk self.old) file) }
        ensures called { Called file (Cuts len result) result (disk self.old) (disk self.new) };

    /// After Ok a crash leaves what a read gives; after `Failed` the file and what a crash may leave of it are as before.
    fn sync(&mut self, file: u32) -> Result<(), Failed>
        ensures called { Called file (Syncs result) result (disk self.old) (disk self.new) };

    /// How many of the calls above there were.
    fn calls(&self) -> u64
        ensures { result ≡ (disk self.now).calls };

    /// How many of them failed.
    fn faults(&self) -> u64
        ensures { result ≡ (disk self.now).faults };

    /// The storage itself where it is one in memory.
    fn memory(&self) -> Option<&MemoryStorage>
        ensures { IfSome result (λ m. memory_disk m.now ≡ disk self.now) };
}
