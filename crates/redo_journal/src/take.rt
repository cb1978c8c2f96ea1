//! Reading the record that an event tells.
//!
//! Each reader gives a record that has the event, and answers None only where no record that is allowed has it. Whether the one that it
//! gives is allowed is asked afterwards, by the index.
ghost use Rattle.std.specs.Prelude.{IfOk, IfSome, IfNone};
ghost use Rattle.framed_file.specs.Framed.{header_len};
ghost use Rattle.redo_journal.specs.Replays.{Replay as Told, start, AllFit};
ghost use Rattle.redo_journal.specs.Reading.{event_with, told, Follows, Tells, TellsNone};

use crate::Record;
use crate::front::{front_name, front_number, number_of};
use crate::replay::Replay;
use crate::spell::{COMMIT, PREPARE, ROLLBACK, SNAP_LAST, SNAP_ROW, SNAP_TABLE};
use binlog_events::items_of;
use log_tables::{Definition, Prepared};
use row_format::{row_of, schema_of};
use std::alloc::{AllocError, Global};

// The SnapTable with this body.
fn table_of(alloc: Global, body: &[u8]) -> Result<Option<Record>, AllocError>
    ensures found { (it : Told) → IfOk result (λ o. IfSome o (Tells it (event_with 128 body.now))) }
    ensures none { (it : Told) → IfOk result (λ o. IfNone o
        (TellsNone it (event_with 128 body.now))) }
{
    let Some((table, rest)) = front_name(alloc, body)? else {
        return Ok(None);
    };
    let Some((engine, rest)) = front_name(alloc, rest)? else {
        return Ok(None);
    };
    let Some((schema, len)) = schema_of(alloc, rest)? else {
        return Ok(None);
    };
    if len != rest.len() {
        return Ok(None);
    }
    Ok(Some(Record::SnapTable(Definition {
        table,
        engine,
        schema,
    })))
}

// The SnapRow with this body.
fn snap_row_of(
    alloc: Global,
    index: &Replay,
    records: &[Record],
    body: &[u8],
) -> Result<Option<Record>, AllocError>
    requires follows { Follows index.now records.now }
    requires fit { AllFit header_len start records.now }
    ensures found { IfOk result (λ o. IfSome o
        (Tells (told records.now) (event_with 129 body.now))) }
    ensures none { IfOk result (λ o. IfNone o
        (TellsNone (told records.now) (event_with 129 body.now))) }
{
    let Some((table, rest)) = front_name(alloc, body)? else {
        return Ok(None);
    };
    let Some(schema) = index.schema_of(records, &table) else {
        return Ok(None);
    };
    let Some((row, len)) = row_of(alloc, schema, rest)? else {
        return Ok(None);
    };
    if len != rest.len() {
        return Ok(None);
    }
    Ok(Some(Record::SnapRow { table, row }))
}

// The SnapLast with this body.
fn last_of(body: &[u8]) -> Option<Record>
    ensures found { (it : Told) → IfSome result (Tells it (event_with 130 body.now)) }
    ensures none { (it : Told) → IfNone result (TellsNone it (event_with 130 body.now)) }
{
    match number_of(body) {
        None => None,
        Some(number) => Some(Record::SnapLast { number }),
    }
}

// The Prepare with this body.
fn prepare_of(alloc: Global, body: &[u8]) -> Result<Option<Record>, AllocError>
    ensures found { (it : Told) → IfOk result (λ o. IfSome o (Tells it (event_with 131 body.now))) }
    ensures none { (it : Told) → IfOk result (λ o. IfNone o
        (TellsNone it (event_with 131 body.now))) }
{
    let Some((xid, rest)) = front_number(body) else {
        return Ok(None);
    };
    let Some((changes, len)) = items_of(alloc, rest)? else {
        return Ok(None);
    };
    if len != rest.len() {
        return Ok(None);
    }
    Ok(Some(Record::Prepare(Prepared { xid, changes })))
}

// The Commit with this body.
fn commit_of(body: &[u8]) -> Option<Record>
    ensures found { (it : Told) → IfSome result (Tells it (event_with 132 body.now)) }
    ensures none { (it : Told) → IfNone result (TellsNone it (event_with 132 body.now)) }
{
    let Some((xid, rest)) = front_number(body) else {
        return None;
    };
    match number_of(rest) {
        None => None,
        Some(number) => Some(Record::Commit { xid, number }),
    }
}

// The Rollback with this body.
fn rollback_of(body: &[u8]) -> Option<Record>
    ensures found { (it : Told) → IfSome result (Tells it (event_with 133 body.now)) }
    ensures none { (it : Told) → IfNone result (TellsNone it (event_with 133 body.now)) }
{
    match number_of(body) {
        None => None,
        Some(xid) => Some(Record::Rollback { xid }),
    }
}

/// A record with the event of this type and this body, behind these records; None only where no record that is allowed there has it.
///
/// `AllocError` for want of memory.
pub(crate) fn record_of(
    alloc: Global,
    index: &Replay,
    records: &[Record],
    kind: u8,
    body: &[u8],
) -> Result<Option<Record>, AllocError>
    requires follows { Follows index.now records.now }
    requires fit { AllFit header_len start records.now }
    ensures found { IfOk result (λ o. IfSome o
        (Tells (told records.now) (event_with kind body.now))) }
    ensures none { IfOk result (λ o. IfNone o
        (TellsNone (told records.now) (event_with kind body.now))) }
{
    match kind {
        SNAP_TABLE => table_of(alloc, body),
        SNAP_ROW => snap_row_of(alloc, index, records, body),
        SNAP_LAST => Ok(last_of(body)),
        PREPARE => prepare_of(alloc, body),
        COMMIT => Ok(commit_of(body)),
        ROLLBACK => Ok(rollback_of(body)),
        _ => Ok(None),
    }
}
