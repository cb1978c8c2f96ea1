//! How many bytes changes add to the tables, and rows have. Sums stop at the greatest number.
ghost use Rattle.std.specs.Prelude.{◌≡◌, length, sum_by};
ghost use Rattle.row_format.specs.Spelling.{value_spelling, row_image, column_spelling, schema_spelling};
ghost use Rattle.live_tables.specs.Folds.{change_bytes};
ghost use Rattle.live_tables.specs.Bytes.{capped};

use row_format::{Change, Column, Kind, Row, Schema, Value};

fn value_len(value: &Value) -> u64
    ensures { result ≡ capped (length (value_spelling value.now)) }
{
    match value {
        Value::Null => 0,
        Value::Int(_) => 8,
        Value::Text(text) => (text.as_bytes().len() as u64).saturating_add(1),
    }
}

/// How many bytes the image of a row has.
pub(crate) fn row_len(row: &Row) -> u64
    ensures { result ≡ capped (length (row_image row.now)) }
{
    let values = row.values();
    let mut sum = if values.len() <= 8 { 1u64 } else { 2 };
    let mut i = 0;
    while i < values.len() {
        sum = sum.saturating_add(value_len(&values[i]));
        i += 1;
    }
    sum
}

/// How many bytes the images of rows have.
pub(crate) fn rows_len(rows: &[Row]) -> u64
    ensures { result ≡ capped (sum_by (λ row. length (row_image row)) rows.now) }
{
    let mut sum = 0u64;
    let mut i = 0;
    while i < rows.len() {
        sum = sum.saturating_add(row_len(&rows[i]));
        i += 1;
    }
    sum
}

fn column_len(column: &Column) -> u64
    ensures { result ≡ length (column_spelling column.now) }
{
    let kind = match column.kind {
        Kind::BigInt => 1,
        Kind::VarChar(_) => 2,
    };
    column.name.as_bytes().len() as u64 + kind + 2
}

/// How many bytes the spelling of a schema has.
pub(crate) fn schema_len(schema: &Schema) -> u64
    ensures { result ≡ capped (length (schema_spelling schema.now)) }
{
    let columns = schema.columns.as_slice();
    let mut sum = 2u64;
    let mut i = 0;
    while i < columns.len() {
        sum = sum.saturating_add(column_len(&columns[i]));
        i += 1;
    }
    sum
}

/// How many bytes a change adds.
pub(crate) fn change_len(change: &Change) -> u64
    ensures { result ≡ capped (change_bytes change.now) }
{
    match change {
        Change::Create { table, schema, .. } => {
            schema_len(schema).saturating_add(1 + table.as_bytes().len() as u64)
        }
        Change::Insert { row, .. } => row_len(row),
        Change::Update { after, .. } => row_len(after),
        _ => 0,
    }
}

/// How many bytes changes add.
pub(crate) fn changes_len(changes: &[Change]) -> u64
    ensures { result ≡ capped (sum_by change_bytes changes.now) }
{
    let mut sum = 0u64;
    let mut i = 0;
    while i < changes.len() {
        sum = sum.saturating_add(change_len(&changes[i]));
        i += 1;
    }
    sum
}
