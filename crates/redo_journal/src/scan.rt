//! Reading all records of an area from a volume, piece by piece.
//!
//! Beside the records there are in memory one piece and what the records stand for. A piece grows only where a frame is longer and the
//! file has as many bytes as it tells.
ghost use Rattle.std.specs.Prelude.{◌≡◌, ◌≤◌, ◌<◌, ◌+◌, ◌-◌, ◌^◌, ℕ, max, length, true, false, IfOk, IsTrue, IsErrOf, Err};
ghost use Rattle.disk_model.specs.File.{Stays};
ghost use Rattle.disk_model.specs.Disk.{Disk, contents, Called, Fills, HasCause};
ghost use Rattle.disk_model.specs.Looking.{LooksOnly};
ghost use Rattle.framed_file.specs.Framed.{IsPrefix};
ghost use Rattle.redo_journal.specs.Areas.{area_header, area_checksum, IsArea};
ghost use Rattle.redo_journal.specs.Reading.{Reached};
ghost use Rattle.redo_journal.specs.declared.fault.JournalFault.TheVariants.{Device, NotAVolume};

use crate::Record;
use crate::fault::JournalFault;
use crate::replay::Replay;
use crate::walk::take_whole;
use disk_model::{Failed, Storage};
use std::alloc::Global;

/// How many bytes the header of an area has: the first record stands there.
const HEADER_LEN: u32 = 32;

/// How many bytes are read at a time.
const PIECE: usize = 65_536;

/// How far a reading of an area has come: the records so far, the file position behind the last, and its checksum.
#[derive(Drop)]
pub(crate) struct Scan {
    pub(crate) records: Vec<Record>,
    pub(crate) len: u32,
    pub(crate) crc: u32,
}

// Fills the piece from a place of the file on, and says how many bytes it has.
fn read_piece(
    volume: &mut dyn Storage,
    file: u32,
    at: u32,
    piece: &mut Vec<u8>,
) -> Result<usize, Failed>
    ensures called { Called file Stays result (disk volume.old) (disk volume.new) }
    ensures value { IsTrue (disk volume.old).told → IfOk result (λ n.
        Fills (contents (disk volume.old) file) at piece.old.items n piece.new.items) }
    ensures count { IfOk result (λ n. n ≤ length piece.old.items) }
    ensures len { length piece.new.items ≡ length piece.old.items }
{
    volume.read(file, u64::from(at), piece.as_mut_slice())
}

// Makes the piece as long as is needed, where it is shorter and the file has as many bytes from this place on; else it says false.
fn grow(
    volume: &mut dyn Storage,
    file: u32,
    at: u32,
    needed: usize,
    piece: &mut Vec<u8>,
) -> Result<bool, JournalFault>
    requires { needed < 2 ^ 32 }
    ensures looks { LooksOnly (disk volume.old) (disk volume.new) }
    ensures grown { IfOk result (λ b. b ≡ true
        → length piece.new.items ≡ max (length piece.old.items) needed) }
    ensures bounded { IsTrue (disk volume.old).told → IfOk result (λ b. b ≡ true
        → length piece.new.items ≤ max (length piece.old.items)
        (length (contents (disk volume.old) file) - at)) }
    ensures short { IsTrue (disk volume.old).told → IfOk result (λ b. b ≡ false
        → length (contents (disk volume.old) file) < at + needed) }
    ensures device { HasCause (λ r. IsErrOf r Device) result (disk volume.old) (disk volume.new) }
    ensures never { (other : ℕ) → result ≡ Err (NotAVolume other) → ⊥ }
{
    if needed <= piece.len() {
        return Ok(true);
    }
    let len = volume.len(file)?;
    if len < u64::from(at) + needed as u64 {
        return Ok(false);
    }
    piece.resize(needed, 0)?;
    Ok(true)
}

/// Reads the records of an area from its first on, as many as fit; its header has this checksum. It writes nothing.
///
/// `JournalFault::Device` where the device failed, `JournalFault::Memory` for want of memory.
pub(crate) fn read_area(
    alloc: Global,
    volume: &mut dyn Storage,
    file: u32,
    crc: u32,
) -> Result<Scan, JournalFault>
    ensures looks { LooksOnly (disk volume.old) (disk volume.new) }
    ensures reached { IfOk result (Reached crc) }
    ensures read { IsTrue (disk volume.old).told → IfOk result (λ s. (sequence : ℕ)
        → crc ≡ area_checksum sequence
        → IsPrefix (area_header sequence 1) (contents (disk volume.old) file)
        → IsArea sequence (contents (disk volume.old) file) s.records.items) }
    ensures device { HasCause (λ r. IsErrOf r Device) result (disk volume.old) (disk volume.new) }
    ensures never { (other : ℕ) → result ≡ Err (NotAVolume other) → ⊥ }
{
    let mut piece = vec![in alloc; 0u8; PIECE]?;
    let mut index = Replay::new(alloc);
    let mut scan = Scan {
        records: Vec::new(alloc),
        len: HEADER_LEN,
        crc,
    };
    loop {
        let n = read_piece(volume, file, scan.len, &mut piece)?;
        let is_last = n < piece.len();
        let Some(needed) = take_whole(alloc, &piece[..n], is_last, &mut scan, &mut index)? else {
            return Ok(scan);
        };
        if !grow(volume, file, scan.len, needed, &mut piece)? {
            return Ok(scan);
        }
    }
}
