//! Files in memory, with what was asked of them: each moment can be told, and a crash image of it made.
//!
//! Invariant: the files are what the calls make of those it began with (`replays`), and each write began at the file's end or before
//! it (`within`). So a read costs no walk over the past, and what a read gives is a crash image at each moment.
ghost use Rattle.std.specs.Prelude.{◌≡◌, ◌≤◌, true};
ghost use Rattle.disk_model.specs.Held.{held};
ghost use Rattle.disk_model.specs.Past.{newest, after_calls, all_fit};

use crate::past::{Call, FileBytes};
use std::alloc::Global;

/// A storage in memory that tells its files at each moment, fails at the calls whose numbers it was given, and makes crash images.
#[derive(Drop)]
pub struct MemoryStorage {
    pub(crate) alloc: Global,
    // What it began with, and each write, cut and sync that was done since.
    pub(crate) start: Vec<FileBytes>,
    pub(crate) past: Vec<Call>,
    // The files as they are now.
    pub(crate) files: Vec<FileBytes>,
    // The numbers of the calls that fail.
    pub(crate) failing: Vec<u64>,
    // How many calls there were, how many of them failed, and how many for want of memory.
    pub(crate) calls: u64,
    pub(crate) faults: u64,
    pub(crate) starved: u64,
    ghost numbered: { newest past.items ≤ calls },
    ghost few: { starved ≤ calls },
    ghost replays: { after_calls (held start.items) past.items ≡ held files.items },
    ghost within: { all_fit (held start.items) past.items ≡ true },
}
