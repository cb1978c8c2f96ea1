//! The device calls on a storage in memory. A call is counted, it may be one that fails, and what it does is noted.
ghost use Rattle.std.specs.Prelude.{◌≡◌, ◌⊎◌, ◌≤◌, ◌<◌, ◌+◌, ◌-◌, ◌∷◌, ◌++◌, [], ℕ, List, min, length, take, drop, OnOk, OnErr, IfOk, IfSome, IsErr, IsTrue, true};
ghost use Rattle.fault_counts.specs.Rose.{last};
ghost use Rattle.disk_model.specs.File.{Stays, Writes, Cuts, Syncs};
ghost use Rattle.disk_model.specs.Disk.{Called, contents, Fills};
ghost use Rattle.disk_model.specs.Held.{held, bytes_in};
ghost use Rattle.disk_model.specs.Past.{newest, after_calls, all_fit, AddsCall, write_step, cut_step, sync_step};
ghost use Rattle.disk_model.specs.Told.{GivesLength, GivesBytes};
ghost use Rattle.disk_model.specs.Memory.{memory_disk};
ghost use Rattle.disk_model.specs.Counting.{Notes, Counted, Faulted, SameBut, FailsExactly};

use crate::files::{bytes_of, cut, put};
use crate::past::{Call, Kind};
use crate::{Failed, MemoryStorage, Storage};
use std::alloc::AllocError;

impl MemoryStorage {
    // One call is counted. It fails where its number was given, or where there are no numbers left.
    fn counted(&mut self) -> Result<(), Failed>
        ensures counts { Counted result self.old self.new }
        ensures same { OnOk result (self.new.faults ≡ self.old.faults) }
    {
        if self.calls == u64::MAX {
            return self.failed();
        }
        self.calls += 1;
        if self.failing.contains(&self.calls) {
            return self.failed();
        }
        Ok(())
    }

    fn failed(&mut self) -> Result<(), Failed>
        ensures err { IsErr result }
        ensures faulted { Faulted self.old self.new }
        ensures starved { self.new.starved ≡ self.old.starved }
    {
        self.faults = self.faults.saturating_add(1);
        Err(Failed)
    }

    // There was no memory to note a call that was counted.
    fn no_memory(&mut self) -> Result<(), Failed>
        requires { self.old.starved < self.old.calls }
        ensures err { IsErr result }
        ensures faulted { Faulted self.old self.new }
        ensures starved { self.new.starved ≡ self.old.starved + 1 }
    {
        self.starved += 1;
        self.failed()
    }
}

impl MemoryStorage {
    fn try_write(&mut self, file: u32, at: u64, bytes: &[u8]) -> Result<(), AllocError>
        requires { at ≤ length (bytes_in (held self.old.files.items) file) }
        ensures ok { OnOk result (Notes file (write_step at bytes.now) self.old self.new) }
        ensures err { OnErr result (self.new.past.items ≡ self.old.past.items) }
        ensures same { SameBut self.old self.new }
    {
        let kind = Kind::Write(at, bytes.to_vec(self.alloc)?);
        let number = self.calls;
        self.past.push(Call { number, file, kind })?;
        if let Err(no_memory) = put(self.alloc, &mut self.files, file, at as usize, bytes) {
            let _ = self.past.pop();
            return Err(no_memory);
        }
        Ok(())
    }

    fn try_cut(&mut self, file: u32, len: u64) -> Result<(), AllocError>
        ensures ok { OnOk result (Notes file (cut_step len) self.old self.new) }
        ensures err { OnErr result (self.new.past.items ≡ self.old.past.items) }
        ensures same { SameBut self.old self.new }
    {
        let number = self.calls;
        let kind = Kind::Cut(len);
        self.past.push(Call { number, file, kind })?;
        cut(&mut self.files, file, len as usize);
        Ok(())
    }

    fn try_sync(&mut self, file: u32) -> Result<(), AllocError>
        ensures ok { OnOk result (Notes file sync_step self.old self.new) }
        ensures err { OnErr result (self.new.past.items ≡ self.old.past.items) }
        ensures same { SameBut self.old self.new }
    {
        let number = self.calls;
        let kind = Kind::Sync;
        self.past.push(Call { number, file, kind })?;
        Ok(())
    }
}

impl Storage for MemoryStorage {
    ghost disk = { memory_disk };

    fn len(&mut self, file: u32) -> Result<u64, Failed>
        ensures called { Called file Stays result (memory_disk self.old) (memory_disk self.new) }
        ensures value { GivesLength result (memory_disk self.old) file }
        ensures exactly { FailsExactly result self.old self.new }
    {
        self.counted()?;
        Ok(bytes_of(&self.files, file).len() as u64)
    }

    fn read(&mut self, file: u32, at: u64, buf: &mut [u8]) -> Result<usize, Failed>
        ensures called { Called file Stays result (memory_disk self.old) (memory_disk self.new) }
        ensures value { GivesBytes result (memory_disk self.old) file at buf.old buf.new }
        ensures count { IfOk result (λ n. n ≤ length buf.old) }
        ensures exactly { FailsExactly result self.old self.new }
    {
        self.counted()?;
        let bytes = bytes_of(&self.files, file);
        if at >= bytes.len() as u64 {
            return Ok(0);
        }
        let rest = &bytes[at as usize..];
        let n = rest.len().min(buf.len());
        buf[..n].copy_from_slice(&rest[..n]);
        Ok(n)
    }

    fn write(&mut self, file: u32, at: u64, bytes: &[u8]) -> Result<(), Failed>
        requires { IsTrue (memory_disk self.old).told
            → at ≤ length (contents (memory_disk self.old) file) }
        ensures called { Called file (Writes at bytes.now result) result (memory_disk self.old)
            (memory_disk self.new) }
        ensures exactly { FailsExactly result self.old self.new }
    {
        self.counted()?;
        match self.try_write(file, at, bytes) {
            Ok(()) => Ok(()),
            Err(_) => self.no_memory(),
        }
    }

    fn cut(&mut self, file: u32, len: u64) -> Result<(), Failed>
        requires { IsTrue (memory_disk self.old).told
            → len ≤ length (contents (memory_disk self.old) file) }
        ensures called { Called file (Cuts len result) result (memory_disk self.old)
            (memory_disk self.new) }
        ensures exactly { FailsExactly result self.old self.new }
    {
        self.counted()?;
        match self.try_cut(file, len) {
            Ok(()) => Ok(()),
            Err(_) => self.no_memory(),
        }
    }

    fn sync(&mut self, file: u32) -> Result<(), Failed>
        ensures called { Called file (Syncs result) result (memory_disk self.old)
            (memory_disk self.new) }
        ensures exactly { FailsExactly result self.old self.new }
    {
        self.counted()?;
        match self.try_sync(file) {
            Ok(()) => Ok(()),
            Err(_) => self.no_memory(),
        }
    }

    fn calls(&self) -> u64 {
        self.calls
    }

    fn faults(&self) -> u64 {
        self.faults
    }

    fn memory(&self) -> Option<&MemoryStorage> {
        Some(self)
    }
}
