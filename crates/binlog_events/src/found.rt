//! Reading a transaction that stands in the log.
//!
//! Invariant: what was read so far are the frames of a BEGIN and of the events that told these changes (`Walked`).
ghost use Rattle.std.specs.Prelude.{◌≡◌, ◌≤◌, ◌<◌, ◌+◌, Option, IfOk, IfSome, IfNone, IfErr};
ghost use Rattle.std.specs.Option.{option_copied};
ghost use Rattle.row_format.specs.declared.change.TableMap.{TableMap};
ghost use Rattle.frame_codec.specs.Frame.{Event, IsFrameAt};
ghost use Rattle.binlog_events.specs.Found.{Finds, NoTransactionAt};
ghost use Rattle.binlog_events.specs.Frames.{IsNext, TellsChanges, NoChanges, FailsFor};
ghost use Rattle.row_format.specs.Reading.{Gives};
ghost use Rattle.binlog_events.specs.Walking.{item_of, before_of, is_begin, event_item, xid_at};

use crate::events::{End, Found};
use crate::walk::{Told, is_complete, keep, last_map, take_item};
use frame_codec::frame_at;
use row_format::{Change, Changes, TableMap, Transaction, Unread};
use std::alloc::{AllocError, Global};

// The event whose frame stands next, what stands behind the frame, and where that is.
#[derive(Clone, Copy)]
struct Next<'a> {
    kind: u8,
    body: &'a [u8],
    rest: &'a [u8],
    end: End,
}

// The event whose frame stands in front of these bytes.
fn next_event(bytes: &[u8], start: End) -> Option<Next<'_>>
    ensures some { IfSome result (λ n. IsNext start bytes.now
        (record { kind = n.kind; body = n.body.now }) n.rest.now n.end) }
    ensures none { IfNone result ((event : Event)
        → IsFrameAt start.crc start.at bytes.now event → ⊥) }
{
    let frame = frame_at(bytes, start.at, start.crc)?;
    Some(Next {
        kind: frame.kind,
        body: &bytes[frame.body_start..frame.body_end],
        rest: &bytes[frame.body_end + 4..],
        end: End {
            at: frame.end,
            crc: frame.crc,
        },
    })
}

// Whether an event is a BEGIN.
fn begins(kind: u8, body: &[u8]) -> bool
    ensures { result ≡ is_begin (record { kind = kind; body = body.now }) }
{
    kind == 2 && body == [1].as_slice()
}

// What an event tells as an item, all of it.
#[tactic(auto, unfolding(crate::specs::Walking::event_item))]
fn take_event(
    alloc: Global,
    waiting: Option<TableMap>,
    last: Option<&TableMap>,
    kind: u8,
    body: &[u8],
) -> Result<Told, Unread>
    ensures { Gives item_of result (event_item (before_of waiting (option_copied last.entry))
        (record { kind = kind; body = body.now })) }
{
    let (told, rest) = take_item(alloc, waiting, last, kind, body)?;
    if rest.is_empty() {
        Ok(told)
    } else {
        Err(Unread::Absent)
    }
}

/// The type of an XID event.
const XID_KIND: u8 = 16;

// The xid that an XID event tells, where no table map waits before it.
fn xid_of(waiting: &Option<TableMap>, body: &[u8]) -> Option<u64>
    ensures { (last : Option TableMap) → result ≡ xid_at (before_of waiting.now last) body.now }
{
    if !is_complete(waiting) || body.len() != 8 {
        return None;
    }
    let (xid, _) = body.split_first_chunk::<8>()?;
    Some(u64::from_le_bytes(*xid))
}

// The changes that events told, the xid of the XID behind them, and what stands behind that.
#[derive(Drop)]
struct Ended<'a> {
    changes: Vec<Change>,
    xid: u64,
    rest: &'a [u8],
    end: End,
}

// The changes that stand in front of these bytes, up to the XID that ends them.
fn take_changes(alloc: Global, bytes: &[u8], start: End) -> Result<Ended<'_>, Unread>
    requires { start.at ≤ 2147483647 }
    ensures found { IfOk result (λ e.
        TellsChanges start bytes.now e.changes.items e.xid e.rest.now e.end) }
    ensures absent { IfErr result (λ e. FailsFor e (NoChanges start bytes.now)) }
{
    let mut changes = Vec::new(alloc);
    let mut waiting = None;
    let mut rest = bytes;
    let mut end = start;
    'events: loop {
        let Some(next) = next_event(rest, end) else {
            return Err(Unread::Absent);
        };
        if next.kind == XID_KIND {
            let Some(xid) = xid_of(&waiting, next.body) else {
                return Err(Unread::Absent);
            };
            if changes.as_slice().is_empty() {
                return Err(Unread::Absent);
            }
            return Ok(Ended {
                changes,
                xid,
                rest: next.rest,
                end: next.end,
            });
        }
        let told = take_event(alloc, waiting, last_map(&changes), next.kind, next.body)?;
        waiting = keep(&mut changes, told)?;
        rest = next.rest;
        end = next.end;
    }
}

// The transaction that stands in front of these bytes.
fn take_transaction(alloc: Global, bytes: &[u8], start: End) -> Result<Found, Unread>
    ensures found { IfOk result (Finds start.crc start.at bytes.now) }
    ensures absent { IfErr result (λ e. FailsFor e (NoTransactionAt start.crc start.at bytes.now)) }
{
    let Some(first) = next_event(bytes, start) else {
        return Err(Unread::Absent);
    };
    if !begins(first.kind, first.body) {
        return Err(Unread::Absent);
    }
    let ended = take_changes(alloc, first.rest, first.end)?;
    Ok(Found {
        txn: Transaction {
            xid: ended.xid,
            changes: Changes::new(ended.changes),
        },
        len: bytes.len() - ended.rest.len(),
        crc: ended.end.crc,
    })
}

/// The transaction that stands at the front of `bytes`, those from the file position `at` on, chained to the checksum `prev`; None
/// where no whole transaction stands there.
///
/// `AllocError` for want of memory.
pub fn transaction_at(
    alloc: Global,
    bytes: &[u8],
    at: u32,
    prev: u32,
) -> Result<Option<Found>, AllocError>
    ensures found { IfOk result (λ o. IfSome o (Finds prev at bytes.now)) }
    ensures none { IfOk result (λ o. IfNone o (NoTransactionAt prev at bytes.now)) }
{
    match take_transaction(alloc, bytes, End { at, crc: prev }) {
        Ok(found) => Ok(Some(found)),
        Err(Unread::Absent) => Ok(None),
        Err(Unread::Memory) => Err(AllocError),
    }
}
