//! Opening a journal: which of its files is read, and the records of that file.
//!
//! Device calls, in order: the header of both files; where one is read, its records and its length, else the length of the first; then
//! sync of the first, sync of the second; where bytes stand behind the last record, cut and sync. A crash at any moment leaves files
//! that are read as they were, or as a crash at the start could have left them (`IsSafe`).
ghost use Rattle.std.specs.Prelude.{◌≡◌, ◌≤◌, ◌<◌, ◌+◌, ◌^◌, ◌↔◌, ◌⊎◌, ℕ, List, length, Option, Some, None, IfOk, IfSome, OnOk, IsErr, IsErrOf, IsTrue, Err};
ghost use Rattle.fault_counts.specs.Rose.{Rose};
ghost use Rattle.disk_model.specs.File.{Stays};
ghost use Rattle.disk_model.specs.Disk.{Disk, Called, Fills, now, contents, Keeps, HasCause};
ghost use Rattle.disk_model.specs.Looking.{LooksOnly};
ghost use Rattle.redo_journal.specs.declared.fault.JournalFault.TheVariants.{Device, NotAVolume};
ghost use Rattle.redo_journal.specs.Areas.{open_sequence};
ghost use Rattle.redo_journal.specs.Journals.{side_read, file_on, IsFresh, IsJournal, first_file_of};
ghost use Rattle.redo_journal.specs.Appending.{sequence_of};
ghost use Rattle.redo_journal.specs.Choosing.{IsAsked};
ghost use Rattle.redo_journal.specs.Opening.{IsReadOf, Opens, StaysSafe, HasNoJournal};

use crate::choose::{Found, chosen};
use crate::header::{HEADER_LEN, area_checksum, open_sequence};
use crate::journal::Area;
use crate::scan::read_area;
use crate::settle::{cut_torn, settle_both};
use crate::{Journal, JournalFault, Record};
use disk_model::{Failed, Storage};
use std::alloc::Global;

// The sequence of the open area at the front of a file.
fn sequence_at(volume: &mut dyn Storage, file: u32) -> Result<Option<u64>, Failed>
    ensures value { IsTrue (disk volume.old).told
        → IfOk result (λ it. it ≡ open_sequence (contents (disk volume.old) file)) }
    ensures looks { LooksOnly (disk volume.old) (disk volume.new) }
    ensures device { IsErr result → Rose (disk volume.old).faults (disk volume.new).faults }
{
    let mut front = [0u8; HEADER_LEN];
    let n = volume.read(file, 0, &mut front)?;
    if n < HEADER_LEN {
        return Ok(None);
    }
    Ok(open_sequence(&front))
}

// The area that is read.
fn area_read(
    volume: &mut dyn Storage,
    first_file: u32,
    wanted: Option<u64>,
) -> Result<Option<Found>, Failed>
    requires { first_file + 1 < 2 ^ 32 }
    ensures value { IsTrue (disk volume.old).told → IfOk result (IsReadOf wanted
        (contents (disk volume.old) first_file) (contents (disk volume.old) (first_file + 1))) }
    ensures asked { IfOk result (λ o. IfSome o (λ found. IsAsked wanted found.sequence)) }
    ensures looks { LooksOnly (disk volume.old) (disk volume.new) }
    ensures device { IsErr result → Rose (disk volume.old).faults (disk volume.new).faults }
{
    let first = sequence_at(volume, first_file)?;
    let second = sequence_at(volume, first_file + 1)?;
    Ok(chosen(wanted, first, second))
}

// Whether a journal with no area to be read may have no records.
fn is_fresh(volume: &mut dyn Storage, first_file: u32, wanted: Option<u64>) -> Result<bool, Failed>
    ensures value { IsTrue (disk volume.old).told → IfOk result
        (λ is. IsTrue is ↔ IsFresh wanted (contents (disk volume.old) first_file)) }
    ensures asked { IfOk result (λ is. IsTrue is → IsAsked wanted 0) }
    ensures looks { LooksOnly (disk volume.old) (disk volume.new) }
    ensures device { IsErr result → Rose (disk volume.old).faults (disk volume.new).faults }
{
    match wanted {
        None => {
            let size = volume.len(first_file)?;
            Ok(size <= HEADER_LEN as u64)
        }
        Some(sequence) => Ok(sequence == 0),
    }
}

// Opens a journal that has no area to be read.
fn open_none(
    alloc: Global,
    volume: &mut dyn Storage,
    first_file: u32,
    wanted: Option<u64>,
) -> Result<(Journal, Vec<Record>), JournalFault>
    requires { first_file + 1 < 2 ^ 32 }
    ensures journal { IfOk result (λ o. (first_file_of o.0 ≡ first_file)
        × IsJournal o.0 o.1.items) }
    ensures asked { IfOk result (λ o. IsAsked wanted (sequence_of o.0)) }
    ensures opened { IsTrue (disk volume.old).told
        → IsReadOf wanted (contents (disk volume.old) first_file)
        (contents (disk volume.old) (first_file + 1)) None
        → IfOk result (λ o.
        Opens wanted first_file (disk volume.old) (disk volume.new) o.0 o.1.items) }
    ensures any_moment { IsTrue (disk volume.old).told
        → IsReadOf wanted (contents (disk volume.old) first_file)
        (contents (disk volume.old) (first_file + 1)) None
        → StaysSafe wanted first_file (disk volume.old) (disk volume.new) }
    ensures not_a_volume { (file : ℕ) → result ≡ Err (NotAVolume file) → (file ≡ first_file)
        × (IsTrue (disk volume.old).told
        → IsFresh wanted (contents (disk volume.old) first_file) → ⊥) }
    ensures looks { (file : ℕ) → result ≡ Err (NotAVolume file)
        → LooksOnly (disk volume.old) (disk volume.new) }
    ensures is_volume { IsTrue (disk volume.old).told
        → OnOk result (IsFresh wanted (contents (disk volume.old) first_file)) }
    ensures device { HasCause (λ r. IsErrOf r Device) result
        (disk volume.old) (disk volume.new) }
{
    if !is_fresh(volume, first_file, wanted)? {
        return Err(JournalFault::NotAVolume { file: first_file });
    }
    settle_both(volume, first_file)?;
    let journal = Journal {
        alloc,
        first_file,
        area: None,
    };
    Ok((journal, Vec::new(alloc)))
}

// Opens a journal whose area was found.
fn open_area(
    alloc: Global,
    volume: &mut dyn Storage,
    first_file: u32,
    found: Found,
) -> Result<(Journal, Vec<Record>), JournalFault>
    requires fits { first_file + 1 < 2 ^ 32 }
    requires found { IsTrue (disk volume.old).told
        → open_sequence (contents (disk volume.old) (file_on found.side first_file))
        ≡ Some found.sequence }
    ensures journal { IfOk result (λ o. (first_file_of o.0 ≡ first_file)
        × IsJournal o.0 o.1.items) }
    ensures sequence { IfOk result (λ o. sequence_of o.0 ≡ found.sequence) }
    ensures opened { (wanted : Option ℕ) → IsTrue (disk volume.old).told
        → IsReadOf wanted (contents (disk volume.old) first_file)
        (contents (disk volume.old) (first_file + 1)) (Some found)
        → IfOk result (λ o.
        Opens wanted first_file (disk volume.old) (disk volume.new) o.0 o.1.items) }
    ensures any_moment { (wanted : Option ℕ) → IsTrue (disk volume.old).told
        → IsReadOf wanted (contents (disk volume.old) first_file)
        (contents (disk volume.old) (first_file + 1)) (Some found)
        → StaysSafe wanted first_file (disk volume.old) (disk volume.new) }
    ensures never { (file : ℕ) → result ≡ Err (NotAVolume file) → ⊥ }
    ensures device { HasCause (λ r. IsErrOf r Device) result
        (disk volume.old) (disk volume.new) }
{
    let file = found.side.file(first_file);
    let scan = read_area(alloc, volume, file, area_checksum(found.sequence))?;
    let size = volume.len(file)?;
    settle_both(volume, first_file)?;
    cut_torn(volume, file, u64::from(scan.len), size)?;
    let area = Area {
        side: found.side,
        sequence: found.sequence,
        len: scan.len,
        crc: scan.crc,
        records: scan.records.len() as u64,
    };
    let journal = Journal {
        alloc,
        first_file,
        area: Some(area),
    };
    Ok((journal, scan.records))
}

impl Journal {
    /// Opens the journal in the files `first_file` and `first_file + 1`, and gives its records, all of them synced: those of the area with
    /// the sequence `wanted`, or of the greatest; of two areas with one sequence the first is read. What stands behind the last record is
    /// cut. With no area to be read there are no records, where none is wanted and the first file has at most 32 bytes, or where the
    /// sequence 0 is wanted.
    ///
    /// `NotAVolume` where there is no area to be read else: then nothing is written. `Device` where the device failed. `Memory` for want
    /// of memory.
    pub fn open(
        alloc: Global,
        volume: &mut dyn Storage,
        first_file: u32,
        wanted: Option<u64>,
    ) -> Result<(Journal, Vec<Record>), JournalFault>
        requires { first_file + 1 < 2 ^ 32 }
        ensures journal { IfOk result (λ o. (first_file_of o.0 ≡ first_file)
            × IsJournal o.0 o.1.items) }
        ensures asked { IfOk result (λ o. IsAsked wanted (sequence_of o.0)) }
        ensures opened { IsTrue (disk volume.old).told → IfOk result (λ o.
            Opens wanted first_file (disk volume.old) (disk volume.new) o.0 o.1.items) }

        // An opening may crash too.
        ensures any_moment { IsTrue (disk volume.old).told
            → StaysSafe wanted first_file (disk volume.old) (disk volume.new) }

        ensures not_a_volume { (file : ℕ) → result ≡ Err (NotAVolume file) → (file ≡ first_file)
            × (IsTrue (disk volume.old).told → HasNoJournal wanted first_file (disk volume.old)) }
        ensures looks { (file : ℕ) → result ≡ Err (NotAVolume file)
            → LooksOnly (disk volume.old) (disk volume.new) }
        ensures is_volume { IsTrue (disk volume.old).told
            → OnOk result (HasNoJournal wanted first_file (disk volume.old) → ⊥) }
        ensures device { HasCause (λ r. IsErrOf r Device) result
            (disk volume.old) (disk volume.new) }
    {
        match area_read(volume, first_file, wanted)? {
            Some(found) => open_area(alloc, volume, first_file, found),
            None => open_none(alloc, volume, first_file, wanted),
        }
    }
}
