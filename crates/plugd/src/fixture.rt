//! What the tests play on: volumes in memory, and runs over them with JOURNAL on the shelf.
ghost use Rattle.std.specs.Prelude.{◌≤◌};

use crate::run::{LOG_LIMIT, Outcome, run_over};
use disk_model::{MemoryStorage, Storage, Volume};
use engine_api::Engine;
use journal_engine::JournalEngine;
use outer_io::{MemorySink, MemorySource};
use std::alloc::{AllocError, Global};
use std::test::Fail;

/// Installs the engine and makes the table: two transactions of the log, and 219 bytes.
pub(crate) const TABLE: &[u8] = b"@1 INSTALL PLUGIN JOURNAL SONAME 'ha_journal.so'
settle
@1 CREATE TABLE t (k BIGINT PRIMARY KEY, v VARCHAR(10)) ENGINE = JOURNAL
settle
";

/// Inserts one row: a transaction of 125 bytes.
pub(crate) const ONE: &[u8] = b"@1 INSERT INTO t VALUES (1, 'x')\n";

/// The words of a run.
pub(crate) fn words_of(alloc: Global, word: &str) -> Result<Vec<String>, AllocError> {
    let word = String::from_str(alloc, word)?;
    let mut words = Vec::new(alloc);
    words.push(word)?;
    Ok(words)
}

/// Empty files. The calls with these numbers fail.
pub(crate) fn fresh(alloc: Global, failing: Vec<u64>) -> Result<MemoryStorage, AllocError> {
    MemoryStorage::new(alloc, Vec::new(alloc), failing)
}

/// These pieces, one after the other.
pub(crate) fn joined(alloc: Global, pieces: &[&[u8]]) -> Result<Vec<u8>, AllocError> {
    let mut all = Vec::new(alloc);
    for piece in pieces {
        all.extend_from_slice(piece)?;
    }
    Ok(all)
}

/// The contents of a file.
pub(crate) fn bytes_of(alloc: Global, volume: &mut Volume, file: u32) -> Result<Vec<u8>, Fail> {
    let len = volume.len(file)?;
    let mut bytes = vec![in alloc; 0u8; len as usize]?;
    volume.read(file, 0, bytes.as_mut_slice())?;
    Ok(bytes)
}

/// A run with JOURNAL, in the files 16 and 17, between these ends: how it ended, what it wrote, and the volume.
pub(crate) fn run_between(
    alloc: Global,
    word: &str,
    volume: Volume,
    source: MemorySource,
    sink: MemorySink,
    limit: u32,
) -> Result<(Outcome, Vec<u8>, Volume), AllocError>
    requires { limit ≤ 2147483647 }
{
    let mut shelf: Vec<Box<dyn Engine + Send>> = Vec::new(alloc);
    shelf.push(Box::new(alloc, JournalEngine::new(16, alloc)?)?)?;
    let words = words_of(alloc, word)?;
    let mut source = source;
    let mut sink = sink;
    let (outcome, volume) = run_over(alloc, &words, &mut source, &mut sink, volume, shelf, limit);
    let replies = sink.bytes().to_vec(alloc)?;
    Ok((outcome, replies, volume))
}

/// A run over this input, which comes in pieces of so many bytes.
pub(crate) fn played(
    alloc: Global,
    volume: Volume,
    input: &[u8],
    piece: usize,
) -> Result<(Outcome, Vec<u8>, Volume), AllocError> {
    let source = MemorySource::new(input.to_vec(alloc)?, piece.max(1), Vec::new(alloc));
    let sink = MemorySink::new(alloc, Vec::new(alloc));
    run_between(alloc, "play", volume, source, sink, LOG_LIMIT)
}

/// Files with these bytes.
pub(crate) fn with_files(alloc: Global, files: &[(u32, &[u8])]) -> Result<MemoryStorage, Fail> {
    let mut storage = fresh(alloc, Vec::new(alloc))?;
    for (file, bytes) in files {
        storage.write(*file, 0, bytes)?;
    }
    Ok(storage)
}
