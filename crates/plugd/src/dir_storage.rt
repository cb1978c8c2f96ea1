//! A real folder as a storage: one file `fNNNNN` for each number. It tells no contents, since no contract says what a file holds.
//!
//! Order: a file's name is made durable in the folder before the first sync of the file answers Ok.
ghost use Rattle.std.specs.Prelude.{◌≡◌, ◌≤◌, ◌<◌, ◌+◌, length, IfOk, OnOk, OnErr};
ghost use Rattle.fault_counts.specs.Rose.{last, Rose};
ghost use Rattle.plugd.specs.DirStorage.{untold_disk};

use disk_model::{Failed, MemoryStorage, Storage};
use std::alloc::{AllocError, Global};
use std::collections::BTreeMap;
use std::fs::{File, OpenFile, OpenOptions, TryLockError};
use std::io::{ErrorKind, Read, Seek, SeekFrom, Write};
use std::rt::Files;
use std::{fs, io};
use thiserror::Error;

// How often a read is tried that a signal interrupted.
const TRIES: u32 = 65_536;

/// Why a folder cannot be used.
#[derive(Clone, Copy, Debug, PartialEq, Eq, Error)]
pub(crate) enum OpenDir {
    /// It is not there, it is no folder, or it could not be opened.
    #[error("the folder cannot be opened")]
    Failed,
    /// Want of memory.
    #[error("no memory")]
    Memory,
}

/// Why a folder was not locked.
#[derive(Clone, Copy, Debug, PartialEq, Eq)]
pub(crate) enum LockFolder {
    /// Another process has the lock.
    Held,
    /// The folder is not there, it is no folder, or the lock failed.
    Failed,
}

/// Takes the advisory lock on a folder, with no file of its own. The lock is held until the handle is dropped.
pub(crate) fn lock_folder<R: Files<File = File>>(rt: &R, path: &str) -> Result<File, LockFolder> {
    let folder = open_folder(rt, path).map_err(|_| LockFolder::Failed)?;
    match folder.try_lock() {
        Ok(()) => Ok(folder),
        Err(TryLockError::WouldBlock) => Err(LockFolder::Held),
        Err(TryLockError::Error(_)) => Err(LockFolder::Failed),
    }
}

// A handle of the folder. What is no folder is not opened, since that may wait.
fn open_folder<R: Files>(rt: &R, path: &str) -> io::Result<R::File> {
    if !rt.metadata(path)?.is_dir() {
        return Err(io::Error::from(ErrorKind::NotADirectory));
    }
    fs::open(rt, path)
}

/// A folder as a storage, with what was opened of it. It counts its calls and faults.
#[derive(Drop)]
pub(crate) struct DirStorage<R: Files + Drop> {
    folder: Folder<R>,
    calls: u64,
    faults: u64,
}

impl<R: Files + Drop> DirStorage<R> {
    /// The storage over the folder at the path. No file is opened or made.
    pub(crate) fn open(rt: R, path: &str) -> Result<DirStorage<R>, OpenDir>
    where
        R: AllocGlobal,
        ensures calls { IfOk result (λ s. s.calls ≡ 0) }
        ensures faults { IfOk result (λ s. s.faults ≡ 0) }
    {
        let handle = open_folder(&rt, path).map_err(|_| OpenDir::Failed)?;
        let alloc = rt.alloc();
        let path = String::from_str(alloc, path).map_err(|_| OpenDir::Memory)?;
        let files = BTreeMap::new(alloc);
        Ok(DirStorage {
            folder: Folder {
                rt,
                alloc,
                path,
                handle,
                files,
            },
            calls: 0,
            faults: 0,
        })
    }

    // Counts a call; at the last value it fails.
    fn start(&mut self) -> Result<(), Failed>
        ensures counted { OnOk result (self.new.calls ≡ self.old.calls + 1) }
        ensures more { OnOk result (self.old.calls < last) }
        ensures no_fault { OnOk result (self.new.faults ≡ self.old.faults) }
        ensures spent { OnErr result (self.new.calls ≡ self.old.calls) }
        ensures at_last { OnErr result (last ≤ self.old.calls) }
        ensures no_fewer { self.old.faults ≤ self.new.faults }
        ensures fault { OnErr result (Rose self.old.faults self.new.faults) }
    {
        if self.calls == u64::MAX {
            return Err(self.fault());
        }
        self.calls += 1;
        Ok(())
    }

    // The failure that is answered, which counts as a fault.
    fn fault(&mut self) -> Failed
        ensures calls { self.new.calls ≡ self.old.calls }
        ensures no_fewer { self.old.faults ≤ self.new.faults }
        ensures rose { Rose self.old.faults self.new.faults }
    {
        self.faults = self.faults.saturating_add(1);
        Failed
    }
}

impl<R: Files + Drop> Storage for DirStorage<R> {
    ghost disk = { λ s. untold_disk s.calls s.faults };

    fn len(&mut self, file: u32) -> Result<u64, Failed> {
        self.start()?;
        match self.folder.len(file) {
            Ok(len) => Ok(len),
            Err(_) => Err(self.fault()),
        }
    }

    fn read(&mut self, file: u32, at: u64, buf: &mut [u8]) -> Result<usize, Failed> {
        self.start()?;
        match self.folder.read(file, at, buf) {
            Ok(count) => Ok(count),
            Err(_) => Err(self.fault()),
        }
    }

    fn write(&mut self, file: u32, at: u64, bytes: &[u8]) -> Result<(), Failed> {
        self.start()?;
        match self.folder.write(file, at, bytes) {
            Ok(()) => Ok(()),
            Err(_) => Err(self.fault()),
        }
    }

    fn cut(&mut self, file: u32, len: u64) -> Result<(), Failed> {
        self.start()?;
        match self.folder.cut(file, len) {
            Ok(()) => Ok(()),
            Err(_) => Err(self.fault()),
        }
    }

    fn sync(&mut self, file: u32) -> Result<(), Failed> {
        self.start()?;
        match self.folder.sync(file) {
            Ok(()) => Ok(()),
            Err(_) => Err(self.fault()),
        }
    }

    fn calls(&self) -> u64 {
        self.calls
    }

    fn faults(&self) -> u64 {
        self.faults
    }

    fn memory(&self) -> Option<&MemoryStorage> {
        None
    }
}

// The folder itself, and the files that were opened, by number.
#[derive(Drop)]
struct Folder<R: Files + Drop> {
    rt: R,
    alloc: Global,
    path: String,
    handle: R::File,
    files: BTreeMap<u32, Opened<R::File>>,
}

// An open file.
#[derive(Drop)]
struct Opened<F> {
    file: F,
    state: State,
}

// What a sync has to do, and may answer.
#[derive(Clone, Copy)]
enum State {
    // The name may not be durable in the folder: this process or one before it may have made the file.
    Unnamed,
    // The name is durable.
    Named,
    // A sync failed. The system may have let go of what it did not write, so no later sync answers Ok.
    Lost,
}

impl<R: Files + Drop> Folder<R> {
    fn len(&mut self, number: u32) -> io::Result<u64> {
        self.open_file(number, false)?;
        match self.files.get(&number) {
            Some(opened) => Ok(opened.file.metadata()?.len()),
            None => Ok(0),
        }
    }

    fn read(&mut self, number: u32, at: u64, buf: &mut [u8]) -> io::Result<usize>
        ensures { IfOk result (λ n. n ≤ length buf.old) }
    {
        self.open_file(number, false)?;
        let Some(opened) = self.files.get_mut(&number) else {
            return Ok(0);
        };
        opened.file.seek(SeekFrom::Start(at))?;
        fill(&mut opened.file, buf)
    }

    fn write(&mut self, number: u32, at: u64, bytes: &[u8]) -> io::Result<()> {
        self.open_file(number, true)?;
        let Some(opened) = self.files.get_mut(&number) else {
            return Err(io::Error::from(ErrorKind::NotFound));
        };
        opened.file.seek(SeekFrom::Start(at))?;
        opened.file.write_all(bytes)
    }

    // A cut to more than the file has fails, since it would make the file longer.
    fn cut(&mut self, number: u32, len: u64) -> io::Result<()> {
        if self.len(number)? < len {
            return Err(io::Error::from(ErrorKind::InvalidInput));
        }
        match self.files.get(&number) {
            Some(opened) => opened.file.set_len(len),
            None => Ok(()),
        }
    }

    fn sync(&mut self, number: u32) -> io::Result<()> {
        self.open_file(number, false)?;
        match self.files.get_mut(&number) {
            Some(opened) => opened.sync(&self.handle),
            None => Ok(()),
        }
    }

    // Opens a file that is not open yet. One that is not there is made where that is asked for.
    fn open_file(&mut self, number: u32, is_made: bool) -> io::Result<()> {
        if self.files.contains_key(&number) {
            return Ok(());
        }
        let path = format!(in self.alloc; "{}/f{:05}", self.path, number)?;
        let opened = OpenOptions::new()
            .read(true)
            .write(true)
            .create(is_made)
            .open(&self.rt, path.as_str());
        let file = match opened {
            Ok(file) => file,
            Err(e) if !is_made && e.kind() == ErrorKind::NotFound => return Ok(()),
            Err(e) => return Err(e),
        };
        let state = State::Unnamed;
        self.files
            .insert(number, Opened { file, state })
            .map_err(AllocError::from)?;
        Ok(())
    }
}

impl<F: OpenFile> Opened<F> {
    fn sync(&mut self, folder: &F) -> io::Result<()> {
        let state = self.state;
        self.state = State::Lost;
        match state {
            State::Unnamed => folder.sync_all()?,
            State::Named => {}
            State::Lost => return Err(io::Error::from(ErrorKind::Other)),
        }
        self.file.sync_data()?;
        self.state = State::Named;
        Ok(())
    }
}

// Reads until the buffer is full or the file ends.
fn fill<F: Read>(file: &mut F, buf: &mut [u8]) -> io::Result<usize>
    ensures { IfOk result (λ n. n ≤ length buf.old) }
{
    let mut filled = 0;
    while filled < buf.len() {
        let count = read_some(file, &mut buf[filled..])?;
        if count == 0 {
            break;
        }
        filled += count;
    }
    Ok(filled)
}

// Reads once, and again where a signal interrupts it.
fn read_some<F: Read>(file: &mut F, buf: &mut [u8]) -> io::Result<usize>
    ensures { IfOk result (λ n. n ≤ length buf.old) }
{
    for _ in 0..TRIES {
        match file.read(buf) {
            Err(e) if e.kind() == ErrorKind::Interrupted => {}
            outcome => return outcome,
        }
    }
    Err(io::Error::from(ErrorKind::Interrupted))
}

#[cfg(test)]
mod tests {
    use super::{DirStorage, LockFolder, OpenDir, lock_folder};
    use disk_model::{Failed, Storage, Volume};
    use std::process::Abort;
    use std::test::Fail;
    use std::{env, fs, process};

    #[test]
    fn a_folder_keeps_what_was_written(rt: HostRuntime) -> Result<(), Fail> {
        let name = format!(in rt.alloc(); "plugd-dir-storage-{}", process::id(rt.process()))?;
        let path = env::temp_dir(&rt)?.join(rt.alloc(), name.as_str())?;
        let path = path.as_str();
        assert!(rt; matches!(&lock_folder(&rt, path), Err(LockFolder::Failed)));
        assert!(rt; matches!(&DirStorage::open(rt.clone()?, path), Err(OpenDir::Failed)));

        fs::create_dir(&rt, path)?;
        let lock = lock_folder(&rt, path)?;
        assert!(rt; matches!(&lock_folder(&rt, path), Err(LockFolder::Held)));
        let mut made = DirStorage::open(rt.clone()?, path)?;
        write_and_cut(&rt, &mut made)?;
        drop(made);

        let mut again = DirStorage::open(rt.clone()?, path)?;
        read_back(&rt, &mut again)?;
        let volume = Volume::new(Box::new(rt.alloc(), again)?);
        assert_eq!(rt; (volume.calls(), volume.faults()), (3, 0));
        drop(volume);

        let long = format!(in rt.alloc(); "{path}/f123456")?;
        assert_eq!(rt; fs::metadata(&rt, long.as_str())?.len(), 1);
        let absent = format!(in rt.alloc(); "{path}/f00001")?;
        assert!(rt; !fs::exists(&rt, absent.as_str())?);
        drop(lock);
        fs::remove_dir_all(&rt, path)?;
        Ok(())
    }

    fn write_and_cut(rt: &impl Abort, storage: &mut DirStorage<HostRuntime>) -> Result<(), Failed> {
        let mut buf = [b'-'; 8];
        assert_eq!(rt; storage.len(1)?, 0);
        assert_eq!(rt; storage.read(1, 0, &mut buf)?, 0);
        storage.sync(1)?;
        storage.write(7, 0, b"hello world")?;
        storage.write(7, 6, b"W")?;
        storage.write(123456, 0, b"x")?;
        assert_eq!(rt; storage.read(7, 11, &mut buf)?, 0);
        assert_eq!(rt; storage.read(7, 6, &mut buf)?, 5);
        assert_eq!(rt; &buf, b"World---");
        storage.cut(7, 5)?;
        assert_eq!(rt; storage.cut(7, 6), Err(Failed));
        storage.sync(7)?;
        storage.sync(7)?;
        assert_eq!(rt; (storage.calls(), storage.faults()), (12, 1));
        Ok(())
    }

    fn read_back(rt: &impl Abort, storage: &mut DirStorage<HostRuntime>) -> Result<(), Failed> {
        let mut buf = [b'-'; 8];
        assert_eq!(rt; storage.len(7)?, 5);
        assert_eq!(rt; storage.read(7, 0, &mut buf)?, 5);
        assert_eq!(rt; &buf, b"hello---");
        storage.sync(7)?;
        Ok(())
    }
}
