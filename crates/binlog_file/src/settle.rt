//! Changing the log file at an opening: sync, one change, sync.
//!
//! The first sync comes before the change, so that a crash from then on leaves the bytes that were read or those that were meant;
//! without it, what was pending before could come back in parts behind a cut.
ghost use Rattle.std.specs.Prelude.{◌≡◌, ◌≤◌, ◌<◌, ◌↔◌, List, length, take, IfOk, IsTrue, IsErr};
ghost use Rattle.fault_counts.specs.Rose.{Rose};
ghost use Rattle.disk_model.specs.File.{Wrote, CutTo, Cuts};
ghost use Rattle.disk_model.specs.Disk.{Disk, Called, contents};
ghost use Rattle.disk_model.specs.Looking.{LooksOnly};
ghost use Rattle.disk_model.specs.Staged.{Changes};
ghost use Rattle.framed_file.specs.Framed.{IsPrefix};
ghost use Rattle.binlog_file.specs.Logged.{log_header};

use crate::binlog::write_at;
use crate::scan::HEADER;
use disk_model::{Failed, Storage};

/// Whether the file begins with the header.
pub(crate) fn has_header(volume: &mut dyn Storage) -> Result<bool, Failed>
    ensures value { IsTrue (disk volume.old).told
        → IfOk result (λ has. IsTrue has ↔ IsPrefix log_header (contents (disk volume.old) 0)) }
    ensures looks { LooksOnly (disk volume.old) (disk volume.new) }
    ensures device { IsErr result → Rose (disk volume.old).faults (disk volume.new).faults }
{
    let mut front = [0u8; 32];
    let n = volume.read(0, 0, &mut front)?;
    if n < 32 {
        return Ok(false);
    }
    Ok(front == HEADER)
}

/// Makes an empty log of a file without a header.
pub(crate) fn put_header(volume: &mut dyn Storage) -> Result<(), Failed>
    ensures { Changes 0 (Wrote 0 log_header) result (disk volume.old) (disk volume.new) }
{
    volume.sync(0)?;
    write_at(volume, 0, &HEADER)?;
    volume.sync(0)
}

/// Cuts what stands behind a length.
pub(crate) fn cut_behind(volume: &mut dyn Storage, len: u64) -> Result<(), Failed>
    requires { IsTrue (disk volume.old).told → len ≤ length (contents (disk volume.old) 0) }
    ensures { Changes 0 (CutTo len) result (disk volume.old) (disk volume.new) }
{
    volume.sync(0)?;
    cut_at(volume, len)?;
    volume.sync(0)
}

/// Cuts what stands behind a length where anything does, and syncs.
pub(crate) fn finish(volume: &mut dyn Storage, len: u64, size: u64) -> Result<(), Failed>
    requires within { IsTrue (disk volume.old).told → len ≤ length (contents (disk volume.old) 0) }
    requires size { IsTrue (disk volume.old).told → size ≡ length (contents (disk volume.old) 0) }
    ensures changes { Changes 0 (CutTo len) result (disk volume.old) (disk volume.new) }
{
    if len < size {
        cut_behind(volume, len)
    } else {
        volume.sync(0)
    }
}

// One cut of the log file.
fn cut_at(volume: &mut dyn Storage, len: u64) -> Result<(), Failed>
    requires { IsTrue (disk volume.old).told → len ≤ length (contents (disk volume.old) 0) }
    ensures { Called 0 (Cuts len result) result (disk volume.old) (disk volume.new) }
{
    volume.cut(0, len)
}
