//! Whether a row goes into a table, and what a row has in its key column.
ghost use Rattle.std.specs.Prelude.{◌≡◌, is_some, OnOk, FitsSigned};
ghost use Rattle.std.specs.Int.{w64};
ghost use Rattle.std.specs.Option.{option_copied};
ghost use Rattle.std.specs.Result.{result_err};
ghost use Rattle.row_format.specs.Schemas.{IsSchema};
ghost use Rattle.row_format.specs.Rows.{int_refusal, text_refusal, value_refusal, row_refusal, key_value, IsInRange, IsRow};

use crate::{Column, Kind, Row, Schema, Value};
use sql_value::Refusal;

// Why a column refuses a text of so many bytes.
fn check_text(kind: Kind, len: usize) -> Result<(), Refusal>
    ensures { result_err result ≡ text_refusal kind len }
{
    match kind {
        Kind::BigInt => Err(Refusal::WrongType),
        Kind::VarChar(n) => {
            if len <= n as usize {
                Ok(())
            } else {
                Err(Refusal::DataTooLong)
            }
        }
    }
}

// Why a column refuses a number, which is one of 64 bits.
fn check_int(kind: Kind, _n: i64) -> Result<(), Refusal>
    ensures value { result_err result ≡ int_refusal kind }
    ensures in_range { FitsSigned w64 _n }
{
    match kind {
        Kind::BigInt => Ok(()),
        Kind::VarChar(_) => Err(Refusal::WrongType),
    }
}

// Why a column refuses a value.
fn check_value(column: &Column, value: &Value) -> Result<(), Refusal>
    ensures value { result_err result ≡ value_refusal column.now value.now }
    ensures in_range { IsInRange value.now }
{
    match value {
        Value::Null => {
            if column.nullable {
                Ok(())
            } else {
                Err(Refusal::ColumnNotNullable)
            }
        }
        Value::Int(n) => check_int(column.kind, *n),
        Value::Text(text) => check_text(column.kind, text.as_bytes().len()),
    }
}

/// Whether the row goes into a table with this schema.
///
/// `ValueCount` where the row has another number of values than the schema has columns; else the first column that offends gives
/// `WrongType`, `ColumnNotNullable` or `DataTooLong`.
pub fn check_row(schema: &Schema, row: &Row) -> Result<(), Refusal>
    ensures value { result_err result ≡ row_refusal schema.now row.now }
    ensures ok { OnOk result (IsRow schema.now row.now) }
{
    let columns = schema.columns.as_slice();
    let values = row.values();
    if values.len() != columns.len() {
        return Err(Refusal::ValueCount);
    }
    let mut i = 0;
    while i < columns.len() {
        check_value(&columns[i], &values[i])?;
        i += 1;
    }
    Ok(())
}

/// The row's value in the key column; None where the schema has no key.
pub fn key_of<'a>(schema: &Schema, row: &'a Row) -> Option<&'a Value>
    requires schema { IsSchema schema.now }
    requires row { IsRow schema.now row.now }
    ensures value { option_copied result ≡ key_value schema.now row.now }
    ensures keyed { is_some result ≡ is_some schema.now.key }
{
    match schema.key {
        None => None,
        Some(place) => row.values().get(place as usize),
    }
}
