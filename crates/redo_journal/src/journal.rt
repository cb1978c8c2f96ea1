//! The journal as it is written: which area is open, and where the next record goes.
//!
//! Invariant: behind `records` records the area has `len` bytes, the last frame with the checksum `crc` (`IsBehind`).
ghost use Rattle.std.specs.Prelude.{◌≡◌, ◌≤◌, ◌<◌, ◌+◌, ◌^◌};

use std::alloc::Global;

/// One of the two files of a journal.
#[derive(Clone, Copy, Debug, PartialEq, Eq)]
pub enum Side {
    First,
    Second,
}

// The area that is open: which file, its sequence, and where the next record goes.
#[derive(Clone, Copy, Debug)]
pub(crate) struct Area {
    pub(crate) side: Side,
    pub(crate) sequence: u64,
    pub(crate) len: u32,
    pub(crate) crc: u32,
    pub(crate) records: u64,
    ghost small: { sequence < 2 ^ 64 },
    ghost summed: { crc < 2 ^ 32 },
    ghost counted: { records ≤ len },
    ghost within: { len ≤ 2147483647 },
}

/// The journal as far as it is written: which area is open, and where the next record goes.
#[derive(Drop)]
pub struct Journal {
    pub(crate) alloc: Global,
    pub(crate) first_file: u32,
    pub(crate) area: Option<Area>,
    ghost fits: { first_file + 1 < 2 ^ 32 },
}

impl Side {
    ghost use Rattle.redo_journal.specs.Journals.{file_on};

    // The number of the file on this side of a journal.
    pub(crate) fn file(self, first_file: u32) -> u32
        requires { first_file + 1 < 2 ^ 32 }
        ensures { result ≡ file_on self first_file }
    {
        match self {
            Side::First => first_file,
            Side::Second => first_file + 1,
        }
    }
}

impl Journal {
    ghost use Rattle.std.specs.Prelude.{ℕ, List, Option, length, false, IsTrue};
    ghost use Rattle.disk_model.specs.File.{File};
    ghost use Rattle.framed_file.specs.Framed.{header_len};
    ghost use Rattle.redo_journal.specs.declared.record.Record.{Record as Entry};
    ghost use Rattle.redo_journal.specs.Areas.{area_of};
    ghost use Rattle.redo_journal.specs.Replays.{end_of_records};
    ghost use Rattle.redo_journal.specs.Journals.{IsJournal, IsKept};
    ghost use Rattle.redo_journal.specs.Appending.{has_area, sequence_of, open_file};

    /// How many records the open area has; 0 before there is one.
    pub fn records(&self) -> u64
        ensures { (records : List Entry) → IsJournal self.now records → result ≡ length records }
    {
        match self.area {
            None => 0,
            Some(area) => area.records,
        }
    }

    /// The sequence of the open area; 0 before there is one.
    pub fn sequence(&self) -> u64
        ensures value { result ≡ sequence_of self.now }
        ensures area { (wanted : Option ℕ) (synced records : List Entry) (files : ℕ → File)
            → IsTrue (has_area self.now) → IsKept self.now wanted synced records files
            → (files (open_file self.now)).bytes ≡ area_of result records }
        ensures before { has_area self.now ≡ false → result ≡ 0 }
    {
        match self.area {
            None => 0,
            Some(area) => area.sequence,
        }
    }

    /// How many bytes the open area has; 0 before there is one.
    pub fn len(&self) -> u64
        ensures area { (records : List Entry) → IsTrue (has_area self.now)
            → IsJournal self.now records → result ≡ end_of_records header_len records }
        ensures before { has_area self.now ≡ false → result ≡ 0 }
    {
        match self.area {
            None => 0,
            Some(area) => u64::from(area.len),
        }
    }
}
