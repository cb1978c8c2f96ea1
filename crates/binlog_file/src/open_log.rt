//! Opening the log: each logged transaction goes to a visitor, what stands behind the last one is cut, and the file is synced.
//!
//! Device calls, in order: length, header, the file piece by piece; then sync, and where bytes stand behind the last transaction cut
//! and sync, or in an empty log without a header, header and sync. A crash at any moment leaves the file as it was, or with exactly the
//! transactions that it had (`IsSafe`).
ghost use Rattle.std.specs.Prelude.{◌≡◌, ◌<◌, ℕ, List, IfOk, OnOk, IsTrue, IsErrOf, Err};
ghost use Rattle.fault_counts.specs.Rose.{Rose};
ghost use Rattle.disk_model.specs.Disk.{Disk, now, contents, Keeps, Only, HasCause};
ghost use Rattle.binlog_file.specs.Logged.{IsNoLog};
ghost use Rattle.binlog_file.specs.Binlog.{flushed_of};
ghost use Rattle.binlog_file.specs.Opening.{IsSafe, OpensFor, IsGiven};
ghost use Rattle.row_format.specs.declared.change.Transaction.{Transaction};
ghost use Rattle.binlog_file.specs.declared.fault.BinlogFault.TheVariants.{Device, NotAVolume};

use crate::fault::BinlogFault;
use crate::scan::HEADER_CRC;
use crate::settle::{finish, has_header, put_header};
use crate::walk::read_all;
use crate::{Binlog, Visit};
use disk_model::Storage;
use std::alloc::Global;

/// A log that was opened, and how many bytes stood behind its last whole transaction, or in a file without a header.
#[derive(Drop)]
pub struct Opened {
    /// The log, to append to.
    pub log: Binlog,
    /// How many bytes were cut; in a file without a header, how many it had.
    pub cut: u64,
}

impl Binlog {
    /// Opens the log in file 0: gives each logged transaction to `visit`, in order and one at a time, cuts what stands behind the
    /// last one, and syncs; a file of at most 32 bytes without a header becomes an empty log. After an opening that was refused the
    /// visitor is only dropped.
    ///
    /// `NotAVolume` where the file has more than 32 bytes and no valid header: then nothing is written. `Device` where the device
    /// failed. `Memory` for want of memory.
    pub fn open<V: Visit>(
        alloc: Global,
        volume: &mut dyn Storage,
        visit: &mut V,
    ) -> Result<Opened, BinlogFault>
        ensures opened { IsTrue (disk volume.old).told
            → IfOk result (λ o. OpensFor (V.stands visit.old) (V.stands visit.new)
            (disk volume.old) (disk volume.new) o.log o.cut) }

        // Whatever the contents are, the visitor was given as many transactions as the log counts.
        ensures visited { IfOk result (λ o.
            IsGiven (V.stands visit.old) (V.stands visit.new) (flushed_of o.log)) }

        // An opening may crash too.
        ensures any_moment { IsTrue (disk volume.old).told
            → Keeps (disk volume.old) (disk volume.new)
            (Only 0 (now (disk volume.old)) (IsSafe (now (disk volume.old) 0))) }

        ensures not_a_volume { (file : ℕ) → result ≡ Err (NotAVolume file) → (file ≡ 0)
            × (IsTrue (disk volume.old).told → IsNoLog (contents (disk volume.old) 0)) }
        ensures is_volume { IsTrue (disk volume.old).told
            → OnOk result (IsNoLog (contents (disk volume.old) 0) → ⊥) }
        ensures device { HasCause (λ r. IsErrOf r Device) result
            (disk volume.old) (disk volume.new) }
    {
        let size = volume.len(0)?;
        let headed = has_header(volume)?;
        if !headed {
            if size > 32 {
                return Err(BinlogFault::NotAVolume { file: 0 });
            }
            put_header(volume)?;
            let log = Binlog {
                flushed: 0,
                durable: 0,
                len: 32,
                crc: HEADER_CRC,
            };
            return Ok(Opened { log, cut: size });
        }
        let scan = read_all(alloc, volume, visit)?;
        let len = u64::from(scan.len);
        finish(volume, len, size)?;
        let log = Binlog {
            flushed: scan.count,
            durable: scan.count,
            len: scan.len,
            crc: scan.crc,
        };
        Ok(Opened {
            log,
            cut: size.saturating_sub(len),
        })
    }
}
