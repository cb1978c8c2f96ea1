//! Making an area in a file: `cut, sync, header with a closed gate, sync, gate byte, sync`.
//!
//! The gate byte is written alone, behind a sync of the rest of its header, so that no crash leaves an open header that was not meant.
ghost use Rattle.std.specs.Prelude.{◌≡◌, ◌≤◌, ◌⊎◌, ◌+◌, length, take, IsTrue, IsErr};
ghost use Rattle.fault_counts.specs.Rose.{Rose};
ghost use Rattle.disk_model.specs.File.{Wrote, CutTo, IsSettled, Writes, Cuts, Syncs};
ghost use Rattle.disk_model.specs.Disk.{Disk, Called, now, contents};
ghost use Rattle.disk_model.specs.Staged.{Changes};
ghost use Rattle.redo_journal.specs.Making.{Makes};

use crate::header::{GATE_CLOSED, GATE_OPEN, GATE_PLACE, header};
use disk_model::{Failed, Storage};

/// Cuts a synced file to a length, and syncs it.
pub(crate) fn cut_synced(volume: &mut dyn Storage, file: u32, len: u64) -> Result<(), Failed>
    requires settled { IsTrue (disk volume.old).told → IsSettled (now (disk volume.old) file) }
    requires within { IsTrue (disk volume.old).told
        → len ≤ length (contents (disk volume.old) file) }
    ensures changes { Changes file (CutTo len) result (disk volume.old) (disk volume.new) }
{
    volume.cut(file, len)?;
    volume.sync(file)
}

/// One write at a place in a file.
pub(crate) fn write_at(
    volume: &mut dyn Storage,
    file: u32,
    at: u64,
    bytes: &[u8],
) -> Result<(), Failed>
    requires within { IsTrue (disk volume.old).told
        → at ≤ length (contents (disk volume.old) file) }
    ensures called { Called file (Writes at bytes.now result) result
        (disk volume.old) (disk volume.new) }
{
    volume.write(file, at, bytes)
}

// Writes to a synced file, and syncs it.
fn write_synced(volume: &mut dyn Storage, file: u32, at: u64, bytes: &[u8]) -> Result<(), Failed>
    requires settled { IsTrue (disk volume.old).told → IsSettled (now (disk volume.old) file) }
    requires within { IsTrue (disk volume.old).told
        → at ≤ length (contents (disk volume.old) file) }
    ensures changes { Changes file (Wrote at bytes.now) result (disk volume.old) (disk volume.new) }
{
    volume.write(file, at, bytes)?;
    volume.sync(file)
}

/// Makes an open area with this sequence and no records in a synced file.
pub(crate) fn make_area(volume: &mut dyn Storage, file: u32, sequence: u64) -> Result<(), Failed>
    requires settled { IsTrue (disk volume.old).told → IsSettled (now (disk volume.old) file) }
    ensures makes { Makes file sequence result (disk volume.old) (disk volume.new) }
{
    let closed = header(sequence, GATE_CLOSED);
    let gate = [GATE_OPEN];
    cut_synced(volume, file, 0)?;
    write_synced(volume, file, 0, &closed)?;
    // Not before the header is synced: a crash could leave the gate byte with parts of a header that was there before.
    write_synced(volume, file, GATE_PLACE, &gate)
}
