//! Reading the log piece by piece: each whole transaction goes to the visitor.
//!
//! Invariant: what was read so far is the log's front, and the visitor stands for its transactions (`Walks`). There is one piece in
//! memory. It grows only where a transaction is longer and the file has as many bytes, and then at least to its double, so that a long
//! transaction is not read again for each of its frames.
ghost use Rattle.std.specs.Prelude.{◌≡◌, ◌≤◌, ◌<◌, ◌+◌, ◌-◌, ◌*◌, ℕ, List, max, length, true, false, IfOk, IfSome, IsTrue, IsErrOf, Err};
ghost use Rattle.disk_model.specs.File.{Stays};
ghost use Rattle.disk_model.specs.Disk.{Disk, contents, Called, Fills, HasCause};
ghost use Rattle.disk_model.specs.Looking.{LooksOnly};
ghost use Rattle.fault_counts.specs.Rose.{Rose};
ghost use Rattle.framed_file.specs.Framed.{IsPrefix};
ghost use Rattle.binlog_file.specs.Logged.{log_header};
ghost use Rattle.binlog_file.specs.Opening.{Reached, Walks, Further, Walked, IsGiven};
ghost use Rattle.row_format.specs.declared.change.Transaction.{Transaction};
ghost use Rattle.binlog_file.specs.declared.fault.BinlogFault.TheVariants.{Device, NotAVolume};

use crate::Visit;
use crate::cut_off::needed;
use crate::fault::BinlogFault;
use crate::scan::{HEADER_CRC, Scan};
use binlog_events::transaction_at;
use disk_model::{Failed, Storage};
use std::alloc::{AllocError, Global};

/// How many bytes are read at a time.
const PIECE: usize = 65_536;

// Gives each whole transaction at the front of a piece to the visitor, and says how many bytes are needed to tell what stands behind
// them; None where no other one does, whatever follows the piece. `is_last` says that nothing follows it.
fn take_whole<V: Visit>(
    alloc: Global,
    bytes: &[u8],
    is_last: bool,
    scan: &mut Scan,
    visit: &mut V,
) -> Result<Option<usize>, AllocError>
    ensures walks { (list : List Transaction) → Reached scan.old list
        → IfOk result (Walks (V.stands visit.old) (V.stands visit.new) list bytes.now
        scan.new is_last) }
    ensures further { IfOk result (λ o. IfSome o (Further scan.old scan.new bytes.now is_last)) }
{
    let mut rest = bytes;
    while let Some(found) = transaction_at(alloc, rest, scan.len, scan.crc)? {
        visit.take(found.txn)?;
        *scan = Scan {
            count: scan.count + 1,
            len: scan.len + found.len as u32,
            crc: found.crc,
        };
        rest = &rest[found.len..];
    }
    if is_last {
        return Ok(None);
    }
    Ok(needed(rest, scan.len, scan.crc))
}

// Fills the piece from a place of the log on, and says how many bytes it has.
fn read_piece(volume: &mut dyn Storage, at: u32, piece: &mut Vec<u8>) -> Result<usize, Failed>
    ensures called { Called 0 Stays result (disk volume.old) (disk volume.new) }
    ensures value { IsTrue (disk volume.old).told → IfOk result (λ n.
        Fills (contents (disk volume.old) 0) at piece.old.items n piece.new.items) }
    ensures count { IfOk result (λ n. n ≤ length piece.old.items) }
    ensures len { length piece.new.items ≡ length piece.old.items }
{
    volume.read(0, u64::from(at), piece.as_mut_slice())
}

// Makes the piece as long as is needed, where it is shorter and the log has as many bytes from this place on; else it says false.
fn grow(
    volume: &mut dyn Storage,
    at: u32,
    needed: usize,
    piece: &mut Vec<u8>,
) -> Result<bool, BinlogFault>
    requires { at + needed ≤ 2147483647 }
    ensures looks { LooksOnly (disk volume.old) (disk volume.new) }
    ensures grown { IfOk result (λ b. b ≡ true
        → max (length piece.old.items) needed ≤ length piece.new.items) }
    ensures bounded { IfOk result (λ b.
        length piece.new.items ≤ max (length piece.old.items) (2 * needed)) }
    ensures in_file { IsTrue (disk volume.old).told → IfOk result (λ b.
        length piece.new.items ≤ max (length piece.old.items)
        (length (contents (disk volume.old) 0) - at)) }
    ensures short { IsTrue (disk volume.old).told → IfOk result (λ b. b ≡ false
        → length (contents (disk volume.old) 0) < at + needed) }
    ensures device { HasCause (λ r. IsErrOf r Device) result (disk volume.old) (disk volume.new) }
    ensures never { (file : ℕ) → result ≡ Err (NotAVolume file) → ⊥ }
{
    if needed <= piece.len() {
        return Ok(true);
    }
    let left = volume.len(0)?.saturating_sub(u64::from(at));
    if left < needed as u64 {
        return Ok(false);
    }
    let doubled = left.min(2 * piece.len() as u64) as usize;
    piece.resize(doubled.max(needed), 0)?;
    Ok(true)
}

/// Reads a log with a header from its first transaction on, and gives each to the visitor. It writes nothing.
pub(crate) fn read_all<V: Visit>(
    alloc: Global,
    volume: &mut dyn Storage,
    visit: &mut V,
) -> Result<Scan, BinlogFault>
    ensures walked { IsTrue (disk volume.old).told
        → IsPrefix log_header (contents (disk volume.old) 0)
        → IfOk result (Walked (V.stands visit.old) (V.stands visit.new)
        (contents (disk volume.old) 0)) }
    ensures given { IfOk result (λ scan.
        IsGiven (V.stands visit.old) (V.stands visit.new) scan.count) }
    ensures looks { LooksOnly (disk volume.old) (disk volume.new) }
    ensures no_refusal { (file : ℕ) → result ≡ Err (NotAVolume file) → ⊥ }
    ensures device { IsErrOf result Device
        → Rose (disk volume.old).faults (disk volume.new).faults }
{
    let mut piece = vec![in alloc; 0u8; PIECE]?;
    let mut scan = Scan {
        count: 0,
        len: 32,
        crc: HEADER_CRC,
    };
    loop {
        let n = read_piece(volume, scan.len, &mut piece)?;
        let is_last = n < piece.len();
        let Some(needed) = take_whole(alloc, &piece[..n], is_last, &mut scan, visit)? else {
            return Ok(scan);
        };
        if !grow(volume, scan.len, needed, &mut piece)? {
            return Ok(scan);
        }
    }
}
