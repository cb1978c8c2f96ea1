//! The end of an opening: both files are synced, and what stands behind the last record is cut.
//!
//! The syncs come before the cut, so that a crash from then on leaves the bytes that were read or those that are meant; without them,
//! what was pending before could come back in parts behind the cut.
ghost use Rattle.std.specs.Prelude.{◌≡◌, ◌≤◌, ◌<◌, ◌+◌, ◌^◌, length, IsTrue};
ghost use Rattle.disk_model.specs.File.{CutTo, IsSettled, Syncs};
ghost use Rattle.disk_model.specs.Disk.{Disk, Called, now, contents};
ghost use Rattle.disk_model.specs.Staged.{Changes};
ghost use Rattle.redo_journal.specs.Opening.{SettlesBoth};

use crate::create::cut_synced;
use disk_model::{Failed, Storage};

/// Syncs both files of a journal, the first one first.
pub(crate) fn settle_both(volume: &mut dyn Storage, first_file: u32) -> Result<(), Failed>
    requires { first_file + 1 < 2 ^ 32 }
    ensures { SettlesBoth first_file result (disk volume.old) (disk volume.new) }
{
    volume.sync(first_file)?;
    volume.sync(first_file + 1)
}

/// Cuts a synced file of this size behind a length, where anything stands there.
pub(crate) fn cut_torn(
    volume: &mut dyn Storage,
    file: u32,
    len: u64,
    size: u64,
) -> Result<(), Failed>
    requires settled { IsTrue (disk volume.old).told → IsSettled (now (disk volume.old) file) }
    requires within { IsTrue (disk volume.old).told
        → len ≤ length (contents (disk volume.old) file) }
    requires size { IsTrue (disk volume.old).told
        → size ≡ length (contents (disk volume.old) file) }
    ensures changes { Changes file (CutTo len) result (disk volume.old) (disk volume.new) }
{
    if len < size {
        cut_synced(volume, file, len)
    } else {
        Ok(())
    }
}
