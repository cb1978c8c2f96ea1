//! How many bytes things have in a file, told without writing them.
ghost use Rattle.std.specs.Prelude.{◌≡◌, ◌≤◌, ◌<◌, ◌+◌, length};
ghost use Rattle.row_format.specs.Schemas.{IsSchema};
ghost use Rattle.row_format.specs.Rows.{IsRow};
ghost use Rattle.row_format.specs.Spelling.{column_spelling, schema_spelling, value_spelling, row_image, HasImage};

use crate::{Column, Kind, Row, Schema, Value};

// How many bytes a value has in a row image.
#[tactic(auto, unfolding(frame_codec::specs::Bytes::le64))]
fn value_len(value: &Value) -> usize
    ensures { result ≡ length (value_spelling value.now) }
{
    match value {
        Value::Null => 0,
        Value::Int(_) => 8,
        Value::Text(text) => 1 + text.as_bytes().len(),
    }
}

/// How many bytes the image of a row has, of at most 16 values and texts of at most 255 bytes.
pub fn row_len(row: &Row) -> usize
    requires { HasImage row.now }
    ensures value { result ≡ length (row_image row.now) }
    ensures small { result ≤ 4098 }
{
    let values = row.values();
    let mut sum = if values.len() <= 8 { 1 } else { 2 };
    let mut i = 0;
    while i < values.len() {
        sum += value_len(&values[i]);
        i += 1;
    }
    sum
}

/// How many bytes the image of a row has that `check_row` takes: 2,000 at most.
pub fn image_len(schema: &Schema, row: &Row) -> usize
    requires schema { IsSchema schema.now }
    requires row { IsRow schema.now row.now }
    ensures value { result ≡ length (row_image row.now) }
    ensures within { result ≤ 2000 }
{
    row_len(row)
}

// How many bytes the spelling of a column has.
fn column_len(column: &Column) -> u64
    ensures value { result ≡ length (column_spelling column.now) }
    ensures small { result ≤ 68 }
{
    let kind = match column.kind {
        Kind::BigInt => 1,
        Kind::VarChar(_) => 2,
    };
    column.name.as_bytes().len() as u64 + kind + 2
}

/// How many bytes the spelling of a schema has.
pub fn schema_len(schema: &Schema) -> u64
    requires { IsSchema schema.now }
    ensures value { result ≡ length (schema_spelling schema.now) }
    ensures small { result ≤ 1090 }
{
    let columns = schema.columns.as_slice();
    let mut sum = 2;
    for column in columns {
        sum += column_len(column);
    }
    sum
}
