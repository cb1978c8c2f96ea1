//! Writing a transaction as the log has it.
ghost use Rattle.std.specs.Prelude.{◌≡◌, ◌≤◌, ◌<◌, ◌+◌, ◌++◌, ◌∷◌, [], length, IfOk, IfSome, OnOk, OnErr};
ghost use Rattle.std.specs.Option.{option_copied};
ghost use Rattle.frame_codec.specs.Chain.{chain_of, last_checksum, EndsWithin};
ghost use Rattle.row_format.specs.Changes.{IsMap, IsFitChange, AreFitChanges};
ghost use Rattle.binlog_events.specs.Changes.{map_told, map_event, map_events, change_event, change_events};
ghost use Rattle.binlog_events.specs.Transaction.{events_of, IsFit};
ghost use Rattle.binlog_events.specs.Frames.{Chains};

use crate::events::End;
use crate::len::{body_len, map_len};
use crate::spell::{MAP_KIND, add_body, kind_of, map_needed, own_map};
use frame_codec::{close_frame, open_frame, put_frame};
use row_format::{Change, TableMap, Transaction, add_map};
use std::alloc::AllocError;

// Adds the frame of an event whose body is at hand.
fn put_event(kind: u8, body: &[u8], start: End, out: &mut Vec<u8>) -> Result<End, AllocError>
    requires { start.at + 23 + length body.now ≤ 2147483647 }
    ensures { Chains result start out.old.items out.new.items
        (record { kind = kind; body = body.now } ∷ []) }
{
    let crc = put_frame(start.crc, start.at, kind, body, out)?;
    Ok(End {
        at: start.at + 23 + body.len() as u32,
        crc,
    })
}

// Adds the event of a table map, its body in place.
fn put_map(map: &TableMap, start: End, out: &mut Vec<u8>) -> Result<End, AllocError>
    requires map { IsMap map.now }
    requires ends { EndsWithin start.at (map_event map.now ∷ []) }
    ensures chains { Chains result start out.old.items out.new.items (map_event map.now ∷ []) }
{
    let from = out.len();
    let len = map_len(map) as usize;
    open_frame(start.at, MAP_KIND, len, out)?;
    add_map(map, out)?;
    let crc = close_frame(start.crc, from, out)?;
    Ok(End {
        at: start.at + 23 + len as u32,
        crc,
    })
}

// Adds the event of a table map, where there is one.
fn put_map_event(map: Option<&TableMap>, start: End, out: &mut Vec<u8>) -> Result<End, AllocError>
    requires map { IfSome map (λ m. IsMap m.now) }
    requires ends { EndsWithin start.at (map_told (option_copied map)) }
    ensures chains { Chains result start out.old.items out.new.items
        (map_told (option_copied map.entry)) }
{
    match map {
        None => Ok(start),
        Some(map) => put_map(map, start, out),
    }
}

// Adds the event of a change itself, its body in place.
fn put_own_event(change: &Change, start: End, out: &mut Vec<u8>) -> Result<End, AllocError>
    requires fit { IsFitChange change.now }
    requires ends { EndsWithin start.at (change_event change.now ∷ []) }
    ensures chains { Chains result start out.old.items out.new.items
        (change_event change.now ∷ []) }
{
    let from = out.len();
    let len = body_len(change) as usize;
    open_frame(start.at, kind_of(change), len, out)?;
    add_body(change, out)?;
    let crc = close_frame(start.crc, from, out)?;
    Ok(End {
        at: start.at + 23 + len as u32,
        crc,
    })
}

// Adds the events of a change, behind a change with this table map or with none.
fn put_change(
    before: Option<&TableMap>,
    change: &Change,
    start: End,
    out: &mut Vec<u8>,
) -> Result<End, AllocError>
    requires fit { IsFitChange change.now }
    requires ends { EndsWithin start.at
        (map_events (option_copied before) change.now ++ change_event change.now ∷ []) }
    ensures chains { Chains result start out.old.items out.new.items
        (map_events (option_copied before.entry) change.now ++ change_event change.now ∷ []) }
{
    let end = put_map_event(map_needed(before, change), start, out)?;
    put_own_event(change, end, out)
}

// Adds the events of changes, in order.
fn put_changes(changes: &[Change], start: End, out: &mut Vec<u8>) -> Result<End, AllocError>
    requires fit { AreFitChanges changes.now }
    requires ends { EndsWithin start.at (change_events None changes.now) }
    ensures chains { Chains result start out.old.items out.new.items
        (change_events None changes.now) }
{
    let mut end = start;
    let mut before = None;
    let mut i = 0;
    while i < changes.len() {
        let change = &changes[i];
        end = put_change(before, change, end, out)?;
        before = own_map(change);
        i += 1;
    }
    Ok(end)
}

// Adds the events of a transaction.
#[tactic(auto, unfolding(frame_codec::specs::Bytes::le64))]
fn put_events(txn: &Transaction, start: End, out: &mut Vec<u8>) -> Result<End, AllocError>
    requires fit { IsFit txn.now }
    requires ends { EndsWithin start.at (events_of txn.now) }
    ensures chains { Chains result start out.old.items out.new.items (events_of txn.now) }
{
    let begun = put_event(2, &[1], start, out)?;
    let end = put_changes(txn.changes.as_slice(), begun, out)?;
    put_event(16, &txn.xid.to_le_bytes(), end, out)
}

/// Appends the frames of a transaction that begins at the file position `at`, chained to the checksum `prev`, and answers the
/// checksum of the last one. Where there is no memory, `out` holds what it held.
pub fn put_transaction(
    txn: &Transaction,
    at: u32,
    prev: u32,
    out: &mut Vec<u8>,
) -> Result<u32, AllocError>
    requires fit { IsFit txn.now }
    requires ends { EndsWithin at (events_of txn.now) }
    ensures ok { OnOk result (out.new.items
        ≡ out.old.items ++ chain_of prev at (events_of txn.now)) }
    ensures value { IfOk result (λ sum. sum ≡ last_checksum prev at (events_of txn.now)) }
    ensures err { OnErr result (out.new.items ≡ out.old.items) }
{
    let len = out.len();
    match put_events(txn, End { at, crc: prev }, out) {
        Ok(end) => Ok(end.crc),
        Err(refused) => {
            out.truncate(len);
            Err(refused)
        }
    }
}
