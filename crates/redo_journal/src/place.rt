//! Places among records: where a definition, a row or a prepared transaction stands, and reading it there.
ghost use Rattle.std.specs.Prelude.{◌≡◌, option_map, option_and_then, slice_get};
ghost use Rattle.std.specs.Option.{option_copied};
ghost use Rattle.sql_value.specs.Values.{value_cmp};
ghost use Rattle.redo_journal.specs.Index.{change_at, created, new_row, definition_at, row_at, cell_at, key_at, prepared_at};

use crate::Record;
use log_tables::Prepared;
use row_format::{Change, Name, Row, Schema};
use sql_value::{Value, value_order};
use std::cmp::Ordering;

/// A record of a list, and where it is a Prepare, one of its changes; both from 0.
#[derive(Clone, Copy)]
pub(crate) struct Place {
    pub(crate) number: usize,
    pub(crate) change: usize,
}

// The name of the table that a change makes.
fn created_name(change: Option<&Change>) -> Option<&Name>
    ensures { option_copied result
        ≡ option_map (λ d. d.table) (created (option_copied change.entry)) }
{
    match change {
        Some(Change::Create { table, .. }) => Some(table),
        _ => None,
    }
}

// The schema of the table that a change makes.
fn created_schema(change: Option<&Change>) -> Option<&Schema>
    ensures { option_copied result
        ≡ option_map (λ d. d.schema) (created (option_copied change.entry)) }
{
    match change {
        Some(Change::Create { schema, .. }) => Some(schema),
        _ => None,
    }
}

// The row that a change puts into a table: that of an Insert, and the one after an Update.
fn new_row(change: Option<&Change>) -> Option<&Row>
    ensures { option_copied result ≡ new_row (option_copied change.entry) }
{
    match change {
        Some(Change::Insert { row, .. }) => Some(row),
        Some(Change::Update { after, .. }) => Some(after),
        _ => None,
    }
}

/// The change at this place.
pub(crate) fn change_at(records: &[Record], place: Place) -> Option<&Change>
    ensures { option_copied result ≡ change_at records.now place }
{
    match records.get(place.number) {
        Some(Record::Prepare(it)) => it.changes.as_slice().get(place.change),
        _ => None,
    }
}

/// The name of the table whose definition stands at this place.
pub(crate) fn name_at(records: &[Record], place: Place) -> Option<&Name>
    ensures { option_copied result ≡ option_map (λ d. d.table) (definition_at records.now place) }
{
    match records.get(place.number) {
        Some(Record::SnapTable(it)) => Some(&it.table),
        Some(Record::Prepare(it)) => created_name(it.changes.as_slice().get(place.change)),
        _ => None,
    }
}

/// The schema of the table whose definition stands at this place.
pub(crate) fn schema_at(records: &[Record], place: Place) -> Option<&Schema>
    ensures { option_copied result ≡ option_map (λ d. d.schema) (definition_at records.now place) }
{
    match records.get(place.number) {
        Some(Record::SnapTable(it)) => Some(&it.schema),
        Some(Record::Prepare(it)) => created_schema(it.changes.as_slice().get(place.change)),
        _ => None,
    }
}

/// The row at this place.
pub(crate) fn row_at(records: &[Record], place: Place) -> Option<&Row>
    ensures { option_copied result ≡ row_at records.now place }
{
    match records.get(place.number) {
        Some(Record::SnapRow { row, .. }) => Some(row),
        Some(Record::Prepare(it)) => new_row(it.changes.as_slice().get(place.change)),
        _ => None,
    }
}

/// The prepared transaction that the record with this number tells, from 0.
pub(crate) fn prepared_at(records: &[Record], number: usize) -> Option<&Prepared>
    ensures { option_copied result ≡ prepared_at records.now number }
{
    match records.get(number) {
        Some(Record::Prepare(it)) => Some(it),
        _ => None,
    }
}

/// What a row has in a column.
pub(crate) fn value_in(row: &Row, column: usize) -> Option<&Value>
    ensures { option_copied result ≡ slice_get row.now column }
{
    row.values().get(column)
}

/// What the row at this place has in a column.
pub(crate) fn cell_at(records: &[Record], column: usize, place: Place) -> Option<&Value>
    ensures { option_copied result ≡ cell_at records.now column place }
{
    match row_at(records, place) {
        Some(row) => value_in(row, column),
        None => None,
    }
}

/// How the key of the row at this place stands to a value.
pub(crate) fn key_order(records: &[Record], column: usize, place: Place, key: &Value) -> Ordering
    ensures { result ≡ value_cmp (key_at records.now column place) key.now }
{
    match cell_at(records, column, place) {
        Some(found) => value_order(found, key),
        None => value_order(&Value::Null, key),
    }
}
