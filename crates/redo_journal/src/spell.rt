//! Writing a record: the frame of its event, at the end of some bytes, or in an array.
ghost use Rattle.std.specs.Prelude.{◌≡◌, ◌≤◌, ◌<◌, ◌+◌, ◌^◌, ◌++◌, List, length, IfOk, IfSome, OnOk, OnErr, is_some};
ghost use Rattle.frame_codec.specs.Bytes.{le64};
ghost use Rattle.frame_codec.specs.Frame.{frame_of, checksum_of, size_of, limit};
ghost use Rattle.frame_codec.specs.Short.{short_bytes};
ghost use Rattle.framed_file.specs.Framed.{header_len};
ghost use Rattle.row_format.specs.Schemas.{IsSchema};
ghost use Rattle.row_format.specs.Spelling.{HasImage};
ghost use Rattle.binlog_events.specs.Items.{AreListed};
ghost use Rattle.redo_journal.specs.declared.record.Record.{Record as Entry};
ghost use Rattle.redo_journal.specs.declared.record.Record.TheVariants.{SnapTable, SnapRow, Prepare};
ghost use Rattle.redo_journal.specs.Records.{record_event};
ghost use Rattle.redo_journal.specs.Replays.{start, after_records, end_behind, Fits, AllFit};
ghost use Rattle.redo_journal.specs.Reading.{IsSpellable, is_short};

use crate::Record;
use binlog_events::{items_len, put_items};
use frame_codec::{ShortFrame, put_frame};
use log_tables::{Definition, Prepared};
use row_format::{Name, Row, put_image, put_name, put_schema, row_len, schema_len};
use std::alloc::{AllocError, Global};

/// The type of a SnapTable.
pub(crate) const SNAP_TABLE: u8 = 128;

/// The type of a SnapRow.
pub(crate) const SNAP_ROW: u8 = 129;

/// The type of a SnapLast.
pub(crate) const SNAP_LAST: u8 = 130;

/// The type of a Prepare.
pub(crate) const PREPARE: u8 = 131;

/// The type of a Commit.
pub(crate) const COMMIT: u8 = 132;

/// The type of a Rollback.
pub(crate) const ROLLBACK: u8 = 133;

// The body of a SnapTable.
pub(crate) fn table_body(alloc: Global, it: &Definition) -> Result<Vec<u8>, AllocError>
    requires { IsSchema it.now.schema }
    ensures { IfOk result (λ body. body.items ≡ (record_event (SnapTable it.now)).body) }
{
    let mut body = Vec::new(alloc);
    put_name(&it.table, &mut body)?;
    put_name(&it.engine, &mut body)?;
    put_schema(&it.schema, &mut body)?;
    Ok(body)
}

// The body of a SnapRow.
pub(crate) fn row_body(alloc: Global, table: &Name, row: &Row) -> Result<Vec<u8>, AllocError>
    requires { HasImage row.now }
    ensures { IfOk result (λ body. body.items ≡ (record_event (SnapRow table.now row.now)).body) }
{
    let mut body = Vec::new(alloc);
    put_name(table, &mut body)?;
    put_image(row, &mut body)?;
    Ok(body)
}

// The body of a Prepare.
pub(crate) fn prepare_body(alloc: Global, it: &Prepared) -> Result<Vec<u8>, AllocError>
    requires { AreListed it.now.changes }
    ensures { IfOk result (λ body. body.items ≡ (record_event (Prepare it.now)).body) }
{
    let mut body = Vec::new(alloc);
    body.extend_from_slice(&it.xid.to_le_bytes())?;
    put_items(&it.changes, &mut body)?;
    Ok(body)
}

// The bytes of a number.
fn number_bytes(n: u64) -> [u8; 8]
    ensures { result ≡ le64 n }
{
    n.to_le_bytes()
}

// The bytes of two numbers.
fn pair_bytes(a: u64, b: u64) -> [u8; 16]
    ensures { result ≡ le64 a ++ le64 b }
{
    let [a0, a1, a2, a3, a4, a5, a6, a7] = number_bytes(a);
    let [b0, b1, b2, b3, b4, b5, b6, b7] = number_bytes(b);
    [
        a0, a1, a2, a3, a4, a5, a6, a7, b0, b1, b2, b3, b4, b5, b6, b7,
    ]
}

// The type of a record's event.
fn kind_of(entry: &Record) -> u8
    ensures { result ≡ (record_event entry.now).kind }
{
    match entry {
        Record::SnapTable(_) => SNAP_TABLE,
        Record::SnapRow { .. } => SNAP_ROW,
        Record::SnapLast { .. } => SNAP_LAST,
        Record::Prepare(_) => PREPARE,
        Record::Commit { .. } => COMMIT,
        Record::Rollback { .. } => ROLLBACK,
    }
}

// The body of a record's event.
fn body_of(alloc: Global, entry: &Record) -> Result<Vec<u8>, AllocError>
    requires { IsSpellable entry.now }
    ensures { IfOk result (λ body. body.items ≡ (record_event entry.now).body) }
{
    match entry {
        Record::SnapTable(it) => table_body(alloc, it),
        Record::SnapRow { table, row } => row_body(alloc, table, row),
        Record::SnapLast { number } => Vec::from_slice(alloc, &number_bytes(*number)),
        Record::Prepare(it) => prepare_body(alloc, it),
        Record::Commit { xid, number } => Vec::from_slice(alloc, &pair_bytes(*xid, *number)),
        Record::Rollback { xid } => Vec::from_slice(alloc, &number_bytes(*xid)),
    }
}

// How many bytes the body of a record's event has.
fn body_len(entry: &Record) -> u64
    requires { IsSpellable entry.now }
    ensures value { result ≡ length (record_event entry.now).body }
    ensures small { result < 2 ^ 46 }
{
    match entry {
        Record::SnapTable(it) => {
            let names = it.table.as_bytes().len() + it.engine.as_bytes().len();
            2 + names as u64 + schema_len(&it.schema)
        }
        Record::SnapRow { table, row } => 1 + (table.as_bytes().len() + row_len(row)) as u64,
        Record::SnapLast { .. } => 8,
        Record::Prepare(it) => 8 + items_len(&it.changes),
        Record::Commit { .. } => 16,
        Record::Rollback { .. } => 8,
    }
}

/// How many bytes the frame of a record has. No memory is taken.
pub fn record_len(entry: &Record) -> u64
    requires { IsSpellable entry.now }
    ensures { result ≡ size_of (record_event entry.now) }
{
    23 + body_len(entry)
}

/// Appends the frame of a record that fits behind others, for the file position `at` behind a frame with the checksum `prev`, and
/// answers its checksum. Where there is no memory, `out` holds what it held.
pub(crate) fn put_record(
    entry: &Record,
    at: u32,
    prev: u32,
    out: &mut Vec<u8>,
) -> Result<u32, AllocError>
    requires fits { (records : List Entry) × AllFit header_len start records
        × Fits at (after_records records start) entry.now }
    ensures ok { OnOk result (out.new.items
        ≡ out.old.items ++ frame_of prev at (record_event entry.now)) }
    ensures value { IfOk result (λ sum. sum ≡ checksum_of prev at (record_event entry.now)) }
    ensures err { OnErr result (out.new.items ≡ out.old.items) }
{
    let alloc = *out.allocator();
    let body = body_of(alloc, entry)?;
    put_frame(prev, at, kind_of(entry), &body, out)
}

/// The frame of a Commit or a Rollback, for the file position `at` behind a frame with the checksum `prev`; None for each other
/// record. No memory is taken.
pub(crate) fn short_frame(entry: &Record, at: u32, prev: u32) -> Option<ShortFrame>
    requires room { end_behind at entry.now ≤ limit }
    ensures exact { is_some result ≡ is_short entry.now }
    ensures bytes { IfSome result (λ f. short_bytes f ≡ frame_of prev at (record_event entry.now)) }
    ensures crc { IfSome result (λ f. f.crc ≡ checksum_of prev at (record_event entry.now)) }
{
    match entry {
        Record::Commit { xid, number } => {
            let body = pair_bytes(*xid, *number);
            Some(frame_codec::short_frame(prev, at, COMMIT, &body))
        }
        Record::Rollback { xid } => {
            let body = number_bytes(*xid);
            Some(frame_codec::short_frame(prev, at, ROLLBACK, &body))
        }
        _ => None,
    }
}
