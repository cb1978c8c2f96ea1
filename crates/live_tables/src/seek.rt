//! What lists of changes make of what stands under a name: of the schema, the number of rows, and the row with a key.
ghost use Rattle.std.specs.Prelude.{◌≡◌, ◌≤◌, ◌<◌, ◌+◌, ◌^◌, length};
ghost use Rattle.std.specs.Option.{option_copied};
ghost use Rattle.engine_api.specs.States.{changes_in};
ghost use Rattle.live_tables.specs.Folds.{through, schema_step, rows_step, has, replaced, row_step};

use crate::pending::Open;
use log_tables::has_key;
use row_format::{Change, Name, Row, Schema, Value};

// The schema under a name after a change, where this was it before.
fn schema_step<'a>(change: &'a Change, name: &Name, found: Option<&'a Schema>) -> Option<&'a Schema>
    ensures { option_copied result
        ≡ schema_step name.now change.now (option_copied found.entry) }
{
    match change {
        Change::Create { table, schema, .. } => {
            if table.is_same(name) {
                found.or(Some(schema))
            } else {
                found
            }
        }
        Change::Drop { table } => { if table.is_same(name) { None } else { found } }
        _ => found,
    }
}

/// The schema under a name after changes, where this was it before.
pub(crate) fn schema_through<'a>(
    changes: &'a [Change],
    name: &Name,
    found: Option<&'a Schema>,
) -> Option<&'a Schema>
    ensures { option_copied result
        ≡ through (schema_step name.now) changes.now (option_copied found.entry) }
{
    let mut schema = found;
    let mut i = 0;
    while i < changes.len() {
        schema = schema_step(&changes[i], name, schema);
        i += 1;
    }
    schema
}

/// The schema under a name after what is pending, where this was it before.
pub(crate) fn schema_by<'a>(
    pending: &'a [Open],
    name: &Name,
    found: Option<&'a Schema>,
) -> Option<&'a Schema>
    ensures { option_copied result
        ≡ through (schema_step name.now) (changes_in pending.now) (option_copied found.entry) }
{
    let mut schema = found;
    let mut i = 0;
    while i < pending.len() {
        schema = schema_through(pending[i].changes(), name, schema);
        i += 1;
    }
    schema
}

// How many rows stand under a name after a change.
fn rows_step(change: &Change, name: &Name, count: u64) -> u64
    requires { count + 1 < 2 ^ 64 }
    ensures value { result ≡ rows_step name.now change.now count }
    ensures within { result ≤ count + 1 }
{
    match change {
        Change::Insert { map, .. } => {
            if map.table.is_same(name) {
                count + 1
            } else {
                count
            }
        }
        Change::Delete { map, .. } => {
            if map.table.is_same(name) {
                count.saturating_sub(1)
            } else {
                count
            }
        }
        Change::Drop { table } => { if table.is_same(name) { 0 } else { count } }
        _ => count,
    }
}

/// How many rows stand under a name after changes, where there were so many before.
pub(crate) fn rows_through(changes: &[Change], name: &Name, count: u64) -> u64
    requires { count + length changes.now < 2 ^ 64 }
    ensures value { result ≡ through (rows_step name.now) changes.now count }
    ensures within { result ≤ count + length changes.now }
{
    let mut rows = count;
    let mut i = 0;
    while i < changes.len() {
        rows = rows_step(&changes[i], name, rows);
        i += 1;
    }
    rows
}

/// How many rows stand under a name after what is pending, where there were so many before.
pub(crate) fn rows_by(pending: &[Open], name: &Name, count: u64) -> u64
    requires { count + length (changes_in pending.now) < 2 ^ 64 }
    ensures value { result ≡ through (rows_step name.now) (changes_in pending.now) count }
    ensures within { result ≤ count + length (changes_in pending.now) }
{
    let mut rows = count;
    let mut i = 0;
    while i < pending.len() {
        rows = rows_through(pending[i].changes(), name, rows);
        i += 1;
    }
    rows
}

// Whether there is a row, and it has this key.
fn has(row: Option<&Row>, column: usize, key: &Value) -> bool
    ensures { result ≡ has column key.now (option_copied row.entry) }
{
    match row {
        Some(row) => has_key(row, key, column),
        None => false,
    }
}

// The row with a key, where one row gave way to another.
fn replaced<'a>(
    column: usize,
    key: &Value,
    before: Option<&Row>,
    after: Option<&'a Row>,
    found: Option<&'a Row>,
) -> Option<&'a Row>
    ensures { option_copied result ≡ replaced column key.now
        (option_copied before.entry) (option_copied after.entry) (option_copied found.entry) }
{
    if has(after, column, key) {
        return after;
    }
    if has(before, column, key) {
        return None;
    }
    found
}

// The row with this key under a name after a change, where this was it before.
fn row_step<'a>(
    change: &'a Change,
    name: &Name,
    column: usize,
    key: &Value,
    found: Option<&'a Row>,
) -> Option<&'a Row>
    ensures { option_copied result
        ≡ row_step name.now column key.now change.now (option_copied found.entry) }
{
    match change {
        Change::Insert { map, row } => {
            if map.table.is_same(name) {
                replaced(column, key, None, Some(row), found)
            } else {
                found
            }
        }
        Change::Update {
            map,
            before,
            after,
            ..
        } => {
            if map.table.is_same(name) {
                replaced(column, key, Some(before), Some(after), found)
            } else {
                found
            }
        }
        Change::Delete { map, before, .. } => {
            if map.table.is_same(name) {
                replaced(column, key, Some(before), None, found)
            } else {
                found
            }
        }
        Change::Drop { table } => { if table.is_same(name) { None } else { found } }
        _ => found,
    }
}

/// The row with this key under a name after changes, where this was it before.
pub(crate) fn row_through<'a>(
    changes: &'a [Change],
    name: &Name,
    column: usize,
    key: &Value,
    found: Option<&'a Row>,
) -> Option<&'a Row>
    ensures { option_copied result
        ≡ through (row_step name.now column key.now) changes.now (option_copied found.entry) }
{
    let mut row = found;
    let mut i = 0;
    while i < changes.len() {
        row = row_step(&changes[i], name, column, key, row);
        i += 1;
    }
    row
}

/// The row with this key under a name after what is pending, where this was it before.
pub(crate) fn row_by<'a>(
    pending: &'a [Open],
    name: &Name,
    column: usize,
    key: &Value,
    found: Option<&'a Row>,
) -> Option<&'a Row>
    ensures { option_copied result ≡ through (row_step name.now column key.now)
        (changes_in pending.now) (option_copied found.entry) }
{
    let mut row = found;
    let mut i = 0;
    while i < pending.len() {
        row = row_through(pending[i].changes(), name, column, key, row);
        i += 1;
    }
    row
}
