//! Reading the records at the front of a piece of an area.
//!
//! Invariant: each record that was read fits behind those before it (`Walked`).
ghost use Rattle.std.specs.Prelude.{◌≡◌, ◌≤◌, ◌<◌, ◌^◌, ◌++◌, [], ℕ, List, true, false, length, IfOk, IfSome, IfNone};
ghost use Rattle.frame_codec.specs.Frame.{Event, size_of, IsFrameAt};
ghost use Rattle.framed_file.specs.Framed.{header_len};
ghost use Rattle.redo_journal.specs.Replays.{start, end_of_records, AllFit};
ghost use Rattle.redo_journal.specs.Reading.{Follows, Found, Walks};

use crate::replay::Replay;
use crate::scan::Scan;
use crate::take::record_of;
use frame_codec::frame_at;
use std::alloc::{AllocError, Global};

/// How many bytes a frame's checksum has.
const CHECKSUM_LEN: usize = 4;

/// How many bytes stand before a frame's body; they tell its size.
const HEAD_LEN: usize = 19;

/// How many bytes a frame has at least.
const LEAST: usize = 23;

/// What stands at the front of some bytes.
pub(crate) enum Next {
    /// A record that fits was read; its frame has so many bytes.
    Taken(usize),
    /// No whole frame.
    NoFrame,
    /// A frame, but of no record that fits.
    NoRecord,
}

// Reads the record at the front, where there is one that fits.
fn take_next(
    alloc: Global,
    bytes: &[u8],
    scan: &mut Scan,
    index: &mut Replay,
) -> Result<Next, AllocError>
    requires follows { Follows index.old scan.old.records.items }
    requires fit { AllFit header_len start scan.old.records.items }
    ensures found { IfOk result (Found scan.old scan.new index.new bytes.now) }
{
    let Some(frame) = frame_at(bytes, scan.len, scan.crc) else {
        return Ok(Next::NoFrame);
    };
    let body = &bytes[frame.body_start..frame.body_end];
    let Some(record) = record_of(alloc, index, &scan.records, frame.kind, body)? else {
        return Ok(Next::NoRecord);
    };
    scan.records.push(record)?;
    if !index.take(&scan.records, frame.end)? {
        scan.records.pop();
        return Ok(Next::NoRecord);
    }
    scan.len = frame.end;
    scan.crc = frame.crc;
    Ok(Next::Taken(frame.body_end + CHECKSUM_LEN))
}

// How many bytes a frame has that begins with these, as far as they tell.
fn least_size(bytes: &[u8]) -> usize
    ensures least { (prev at : ℕ) (event : Event) (beyond : List ℕ)
        → IsFrameAt prev at (bytes.now ++ beyond) event → result ≤ size_of event }
    ensures exact { result ≤ length bytes.now → (prev at : ℕ) (event : Event) (beyond : List ℕ)
        → IsFrameAt prev at (bytes.now ++ beyond) event → result ≡ size_of event }
    ensures small { result < 2 ^ 32 }
{
    match bytes.first_chunk::<HEAD_LEN>() {
        None => LEAST,
        Some(front) => u32::from_le_bytes([front[9], front[10], front[11], front[12]]) as usize,
    }
}

// How many bytes are needed to tell what stands at the end of a piece, where no whole frame does; None where none stands there,
// whatever follows.
fn needed(rest: &[u8], is_last: bool) -> Option<usize>
    ensures some { IfSome result (λ n. (is_last ≡ false) × (length rest.now < n) × (n < 2 ^ 32)
        × ((prev at : ℕ) (event : Event) (beyond : List ℕ)
        → IsFrameAt prev at (rest.now ++ beyond) event → n ≤ size_of event)) }
    ensures none { (prev at : ℕ) → ((event : Event) → IsFrameAt prev at rest.now event → ⊥)
        → IfNone result ((beyond : List ℕ) → (is_last ≡ true → beyond ≡ [])
        → (event : Event) → IsFrameAt prev at (rest.now ++ beyond) event → ⊥) }
{
    let size = least_size(rest);
    if is_last || size <= rest.len() {
        None
    } else {
        Some(size)
    }
}

/// Reads the records at the front of a piece of an area, and says how many bytes are needed to tell what stands behind them; None where
/// no record that fits does, whatever follows the piece. `is_last` says that nothing follows it.
///
/// `AllocError` for want of memory.
pub(crate) fn take_whole(
    alloc: Global,
    bytes: &[u8],
    is_last: bool,
    scan: &mut Scan,
    index: &mut Replay,
) -> Result<Option<usize>, AllocError>
    requires follows { Follows index.old scan.old.records.items }
    requires fit { AllFit header_len start scan.old.records.items }
    requires len { scan.old.len ≡ end_of_records header_len scan.old.records.items }
    ensures walks { IfOk result (Walks scan.old scan.new index.new bytes.now is_last) }
{
    let mut rest = bytes;
    loop {
        match take_next(alloc, rest, scan, index)? {
            Next::Taken(n) => {
                let (_, behind) = rest.split_at(n);
                rest = behind;
            }
            Next::NoFrame => return Ok(needed(rest, is_last)),
            Next::NoRecord => return Ok(None),
        }
    }
}
