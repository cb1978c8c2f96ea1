//! A storage in memory as it begins.
ghost use Rattle.std.specs.Prelude.{◌≡◌, ◌<◌, length, IfOk, IsTrue};
ghost use Rattle.disk_model.specs.Held.{held};
ghost use Rattle.disk_model.specs.Fresh.{numbers_differ, Begins, HasFiles, Holding};

use crate::MemoryStorage;
use crate::past::FileBytes;
use std::alloc::{AllocError, Global};

// The files, once more.
pub(crate) fn copied(alloc: Global, files: &[FileBytes]) -> Result<Vec<FileBytes>, AllocError>
    ensures { IfOk result (λ copy. held copy.items ≡ held files.now) }
{
    let mut copy = Vec::new(alloc);
    for given in files {
        let bytes = given.bytes.as_slice().to_vec(alloc)?;
        let file = given.file;
        copy.push(FileBytes { file, bytes })?;
    }
    Ok(copy)
}

// A storage with these files. Where a number is there twice, the first counts.
pub(crate) fn with_files(
    alloc: Global,
    files: Vec<FileBytes>,
    failing: Vec<u64>,
) -> Result<MemoryStorage, AllocError>
    ensures begins { IfOk result (λ made. Begins failing.items made) }
    ensures holding { IfOk result (λ made. Holding (held files.items) made) }
{
    let start = copied(alloc, &files)?;
    Ok(MemoryStorage {
        alloc,
        start,
        past: Vec::new(alloc),
        files,
        failing,
        calls: 0,
        faults: 0,
        starved: 0,
    })
}

impl MemoryStorage {
    /// A storage with these files, whose bytes count as synced; every other file is empty. The calls whose numbers, from 1, stand in
    /// `failing` will fail and change nothing. The numbers of the files have to differ.
    pub fn new(
        alloc: Global,
        files: Vec<FileBytes>,
        failing: Vec<u64>,
    ) -> Result<MemoryStorage, AllocError>
        requires { IsTrue (numbers_differ files.items) }
        ensures begins { IfOk result (λ made. Begins failing.items made) }
        ensures files { IfOk result (λ made. HasFiles files.items made) }
    {
        with_files(alloc, files, failing)
    }

    /// How many calls failed because there was no memory to note them.
    pub fn starved(&self) -> u64
        ensures { result ≡ self.now.starved }
    {
        self.starved
    }
}
