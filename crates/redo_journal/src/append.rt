//! Adding records at the end of the open area, and making them durable.
//!
//! A record is one write at the end of its area. The first one of a journal without an area makes the first area before: `cut, sync,
//! header, sync, gate byte, sync, write`.
ghost use Rattle.std.specs.Prelude.{◌≡◌, ◌≤◌, ◌<◌, ◌+◌, ℕ, List, Some, None, OnOk, IfOk, IsErr, IsErrOf, IsTrue, Err};
ghost use Rattle.disk_model.specs.File.{Writes};
ghost use Rattle.disk_model.specs.Disk.{now, HasCause};
ghost use Rattle.framed_file.specs.Framed.{header_len};
ghost use Rattle.redo_journal.specs.declared.record.Record.{Record as Entry};
ghost use Rattle.redo_journal.specs.declared.fault.JournalFault.TheVariants.{Device, NotAVolume, Memory};
ghost use Rattle.redo_journal.specs.Replays.{start, after_records, Fits, AllFit};
ghost use Rattle.redo_journal.specs.Journals.{first_file_of};
ghost use Rattle.redo_journal.specs.Appending.{Spells, has_area, GoesTo, Admits, IsNextFrame, HasFiles, StandsAsBefore, StandsForMore, KeepsAll, KeepsMore, KeepsSynced, SettlesFile, LosesNone, LosesNoneBehind, OfFrame};
ghost use Rattle.redo_journal.specs.Reading.{is_short};
ghost use Rattle.redo_journal.specs.Spelt.{spelt_bytes, spelt_sum};

use crate::create::{make_area, write_at};
use crate::header::area_checksum;
use crate::journal::Area;
use crate::spell::{put_record, short_frame};
use crate::{Journal, JournalFault, Record, Side};
use disk_model::{Failed, Storage};
use frame_codec::ShortFrame;
use std::alloc::{AllocError, Global};

// The frame of a record: a short one takes no memory.
#[derive(Drop)]
pub(crate) enum Spelt {
    Short(ShortFrame),
    Long { bytes: Vec<u8>, crc: u32 },
}

impl Spelt {
    fn as_slice(&self) -> &[u8]
        ensures { result.now ≡ spelt_bytes self.now }
    {
        match self {
            Spelt::Short(frame) => frame.as_slice(),
            Spelt::Long { bytes, .. } => bytes.as_slice(),
        }
    }

    fn crc(&self) -> u32
        ensures { result ≡ spelt_sum self.now }
    {
        match self {
            Spelt::Short(frame) => frame.crc,
            Spelt::Long { crc, .. } => *crc,
        }
    }
}

// The frame of a record at a place behind a checksum.
fn spell_entry(alloc: Global, entry: &Record, at: u32, prev: u32) -> Result<Spelt, AllocError>
    requires { (records : List Entry) × AllFit header_len start records
        × Fits at (after_records records start) entry.now }
    ensures ok { IfOk result (λ it. Spells at prev entry.now (spelt_bytes it) (spelt_sum it)) }
    ensures short { IsTrue (is_short entry.now) → IsErr result → ⊥ }
{
    match short_frame(entry, at, prev) {
        Some(frame) => Ok(Spelt::Short(frame)),
        None => {
            let mut bytes = Vec::new(alloc);
            let crc = put_record(entry, at, prev, &mut bytes)?;
            Ok(Spelt::Long { bytes, crc })
        }
    }
}

impl Journal {
    // Where the next record goes: the area that is open, or the first one, as it is once it is made.
    fn next_area(&self) -> Area
        ensures { GoesTo self.now.area result }
    {
        match self.area {
            Some(area) => area,
            None => Area {
                side: Side::First,
                sequence: 0,
                len: 32,
                crc: area_checksum(0),
                records: 0,
            },
        }
    }

    // Makes the first area, where none is open.
    fn ready(&mut self, volume: &mut dyn Storage, area: Area) -> Result<(), Failed>
        requires area { GoesTo self.old.area area }
        requires kept { HasFiles self.old (disk volume.old) }
        ensures area { OnOk result (self.new.area ≡ Some area) }
        ensures first { self.new.first_file ≡ self.old.first_file }
        ensures journal { OnOk result (StandsAsBefore self.old self.new) }
        ensures ok { OnOk result (KeepsAll self.old (disk volume.old) self.new (disk volume.new)) }
        ensures any_moment { LosesNone self.old (disk volume.old) (disk volume.new) }
        ensures device { HasCause IsErr result (disk volume.old) (disk volume.new) }
        ensures device_calls { IsTrue (has_area self.old)
            → (disk volume.new).calls ≡ (disk volume.old).calls }
    {
        if let Some(_open) = self.area {
            return Ok(());
        }
        make_area(volume, self.first_file, 0)?;
        self.area = Some(area);
        Ok(())
    }

    // Writes the frame of a record at the end of the open area.
    fn write(
        &mut self,
        volume: &mut dyn Storage,
        area: Area,
        bytes: &[u8],
        crc: u32,
    ) -> Result<(), Failed>
        requires area { self.old.area ≡ Some area }
        requires frame { IsNextFrame area bytes.now crc }
        requires kept { HasFiles self.old (disk volume.old) }
        ensures first { self.new.first_file ≡ self.old.first_file }
        ensures journal { OnOk result
            (OfFrame area bytes.now crc (λ it. StandsForMore it self.old self.new)) }
        ensures ok { OnOk result (OfFrame area bytes.now crc (λ it.
            KeepsMore it self.old (disk volume.old) self.new (disk volume.new))) }
        ensures any_moment { OfFrame area bytes.now crc (λ it.
            LosesNoneBehind it self.old (disk volume.old) (disk volume.new)) }
        ensures device { HasCause IsErr result (disk volume.old) (disk volume.new) }
        ensures device_calls { OnOk result
            ((disk volume.new).calls ≡ (disk volume.old).calls + 1) }
    {
        let file = area.side.file(self.first_file);
        let next = Area {
            side: area.side,
            sequence: area.sequence,
            len: area.len + bytes.len() as u32,
            crc,
            records: area.records + 1,
        };
        write_at(volume, file, u64::from(area.len), bytes)?;
        self.area = Some(next);
        Ok(())
    }

    /// Adds a record at the end, by one write. It is durable only after a sync. A journal without an area makes its first one before.
    ///
    /// `Device` where the device failed; then the journal is only dropped, or opened again. `Memory` where there was none: nothing was
    /// done, and the journal goes on. A Commit or a Rollback takes no memory.
    pub fn append(&mut self, volume: &mut dyn Storage, entry: &Record) -> Result<(), JournalFault>
        requires fits { Admits self.old entry.now }
        requires kept { HasFiles self.old (disk volume.old) }
        ensures first { first_file_of self.new ≡ first_file_of self.old }
        ensures journal { OnOk result (StandsForMore entry.now self.old self.new) }
        ensures ok { OnOk result
            (KeepsMore entry.now self.old (disk volume.old) self.new (disk volume.new)) }
        ensures any_moment { LosesNoneBehind entry.now
            self.old (disk volume.old) (disk volume.new) }
        ensures memory { result ≡ Err Memory
            → (self.new ≡ self.old) × (disk volume.new ≡ disk volume.old) }
        ensures takes_none { IsTrue (is_short entry.now) → result ≡ Err Memory → ⊥ }
        ensures never { (file : ℕ) → result ≡ Err (NotAVolume file) → ⊥ }
        ensures device { HasCause (λ r. IsErrOf r Device) result
            (disk volume.old) (disk volume.new) }
        ensures device_calls { IsTrue (has_area self.old) → OnOk result
            ((disk volume.new).calls ≡ (disk volume.old).calls + 1) }
    {
        let area = self.next_area();
        // The frame comes first: for want of memory not even an area is made.
        let frame = match spell_entry(self.alloc, entry, area.len, area.crc) {
            Ok(frame) => frame,
            Err(_) => return Err(JournalFault::Memory),
        };
        if let Err(_) = self.ready(volume, area) {
            return Err(JournalFault::Device);
        }
        match self.write(volume, area, frame.as_slice(), frame.crc()) {
            Ok(()) => Ok(()),
            Err(_) => Err(JournalFault::Device),
        }
    }

    /// Makes all records that were added durable, by one sync of their file; before there is an area there is nothing to sync.
    ///
    /// `Failed` where the device failed; then the journal is only dropped, or opened again.
    pub fn sync(&mut self, volume: &mut dyn Storage) -> Result<(), Failed>
        ensures same { self.new ≡ self.old }
        ensures ok { OnOk result
            (KeepsSynced self.old (disk volume.old) self.new (disk volume.new)) }
        ensures settled { OnOk result (SettlesFile self.old (disk volume.new)) }
        ensures any_moment { LosesNone self.old (disk volume.old) (disk volume.new) }
        ensures device { HasCause IsErr result (disk volume.old) (disk volume.new) }
        ensures device_calls { (disk volume.new).calls ≤ (disk volume.old).calls + 1 }
        ensures one_call { IsTrue (has_area self.old) → OnOk result
            ((disk volume.new).calls ≡ (disk volume.old).calls + 1) }
    {
        match self.area {
            None => Ok(()),
            Some(area) => volume.sync(area.side.file(self.first_file)),
        }
    }
}
