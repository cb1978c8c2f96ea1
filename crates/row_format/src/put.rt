//! Writing names, schemas and rows at the end of some bytes.
//!
//! A writer in parts (`add_schema`) leaves what was there in front, also where memory runs out within it (`Adds`), so that a greater one
//! can go on behind it; the others (`put_schema`) then take back what they had written.
ghost use Rattle.std.specs.Int.{w64, cast_unsigned};
ghost use Rattle.std.specs.Prelude.{◌≡◌, ◌≤◌, ◌+◌, ◌++◌, ◌∷◌, [], length, take, vec_len, OnOk, OnErr, is_ok, if◌then◌else◌};
ghost use Rattle.std.specs.List.{flat_map};
ghost use Rattle.row_format.specs.Schemas.{IsSchema};
ghost use Rattle.frame_codec.specs.Bytes.{le64};
ghost use Rattle.row_format.specs.Changes.{IsMap};
ghost use Rattle.row_format.specs.Rows.{IsRow, text_refusal, value_refusal, values_refusal};
ghost use Rattle.row_format.specs.Spelling.{Adds, counted, kind_spelling, flag_byte, column_spelling, schema_spelling, map_spelling, bits_spelling, value_spelling, row_image, null_bit, null_bits};

use crate::{Column, Kind, Name, Row, Schema, TableMap, Value};
use std::alloc::AllocError;

/// Adds a length byte and the bytes. Where memory runs out, what was there still stands in front.
pub fn add_counted(bytes: &[u8], out: &mut Vec<u8>) -> Result<(), AllocError>
    requires { length bytes.now ≤ 255 }
    ensures { Adds result out.old.items out.new.items (counted bytes.now) }
{
    out.push(bytes.len() as u8)?;
    out.extend_from_slice(bytes)
}

// Adds a type and a flag.
fn add_kind(kind: Kind, nullable: bool, out: &mut Vec<u8>) -> Result<(), AllocError>
    ensures { Adds result out.old.items out.new.items
        (kind_spelling kind ++ flag_byte nullable ∷ []) }
{
    let flag = u8::from(nullable);
    match kind {
        Kind::BigInt => out.extend_from_slice(&[8, flag]),
        Kind::VarChar(n) => out.extend_from_slice(&[15, n, flag]),
    }
}

// Adds a column.
fn add_column(column: &Column, out: &mut Vec<u8>) -> Result<(), AllocError>
    ensures { Adds result out.old.items out.new.items (column_spelling column.now) }
{
    add_counted(column.name.as_bytes(), out)?;
    add_kind(column.kind, column.nullable, out)
}

// Adds columns, in order.
fn add_columns(columns: &[Column], out: &mut Vec<u8>) -> Result<(), AllocError>
    ensures { Adds result out.old.items out.new.items (flat_map column_spelling columns.now) }
{
    for column in columns {
        add_column(column, out)?;
    }
    Ok(())
}

// Adds a number of a row.
#[tactic(auto, unfolding(frame_codec::specs::Bytes::le64))]
pub(crate) fn add_number(n: i64, out: &mut Vec<u8>) -> Result<(), AllocError>
    ensures { Adds result out.old.items out.new.items (le64 (cast_unsigned w64 n)) }
{
    out.extend_from_slice(&n.to_le_bytes())
}

// Adds a text of a row.
fn add_text(kind: Kind, text: &[u8], out: &mut Vec<u8>) -> Result<(), AllocError>
    requires { text_refusal kind (length text.now) ≡ None }
    ensures { Adds result out.old.items out.new.items (counted text.now) }
{
    match kind {
        Kind::BigInt => unreachable!(),
        Kind::VarChar(_n) => add_counted(text, out),
    }
}

// Adds a value of a row.
fn add_value(column: &Column, value: &Value, out: &mut Vec<u8>) -> Result<(), AllocError>
    requires { value_refusal column.now value.now ≡ None }
    ensures { Adds result out.old.items out.new.items (value_spelling value.now) }
{
    match value {
        Value::Null => Ok(()),
        Value::Int(n) => add_number(*n, out),
        Value::Text(text) => add_text(column.kind, text.as_bytes(), out),
    }
}

// Adds the values of a row, in order.
fn add_values(columns: &[Column], values: &[Value], out: &mut Vec<u8>) -> Result<(), AllocError>
    requires same_length { length values.now ≡ length columns.now }
    requires taken { values_refusal columns.now values.now ≡ None }
    ensures adds { Adds result out.old.items out.new.items (flat_map value_spelling values.now) }
{
    let mut i = 0;
    while i < columns.len() {
        add_value(&columns[i], &values[i], out)?;
        i += 1;
    }
    Ok(())
}

// 1 for Null.
fn bit_of(value: &Value) -> u16
    ensures { result ≡ null_bit value.now }
{
    match value {
        Value::Null => 1,
        _ => 0,
    }
}

// The bits that tell which values are Null.
fn bits_of(values: &[Value]) -> u16
    requires { length values.now ≤ 16 }
    ensures { result ≡ null_bits values.now }
{
    let mut bits = 0;
    let mut i = values.len();
    while i > 0 {
        i -= 1;
        bits = bits * 2 + bit_of(&values[i]);
    }
    bits
}

// Adds these bits, in one byte or in two.
#[tactic(auto, unfolding(frame_codec::specs::Bytes::le16))]
pub(crate) fn add_bits(values: &[Value], out: &mut Vec<u8>) -> Result<(), AllocError>
    requires { length values.now ≤ 16 }
    ensures { Adds result out.old.items out.new.items (bits_spelling values.now) }
{
    let bits = bits_of(values);
    if values.len() <= 8 {
        out.extend_from_slice(&[bits as u8])
    } else {
        out.extend_from_slice(&bits.to_le_bytes())
    }
}

/// Adds a row image. Where memory runs out, what was there still stands in front.
pub fn add_row(schema: &Schema, row: &Row, out: &mut Vec<u8>) -> Result<(), AllocError>
    requires schema { IsSchema schema.now }
    requires row { IsRow schema.now row.now }
    ensures adds { Adds result out.old.items out.new.items (row_image row.now) }
{
    add_bits(row.values(), out)?;
    add_values(schema.columns.as_slice(), row.values(), out)
}

/// Adds a schema. Where memory runs out, what was there still stands in front.
pub fn add_schema(schema: &Schema, out: &mut Vec<u8>) -> Result<(), AllocError>
    requires { IsSchema schema.now }
    ensures { Adds result out.old.items out.new.items (schema_spelling schema.now) }
{
    let columns = schema.columns.as_slice();
    let key = schema.key.unwrap_or(255);
    out.extend_from_slice(&[columns.len() as u8, key])?;
    add_columns(columns, out)
}

/// Adds a table map. Where memory runs out, what was there still stands in front.
pub fn add_map(map: &TableMap, out: &mut Vec<u8>) -> Result<(), AllocError>
    requires { IsMap map.now }
    ensures { Adds result out.old.items out.new.items (map_spelling map.now) }
{
    add_counted(map.table.as_bytes(), out)?;
    add_schema(&map.schema, out)
}

/// Takes back what stands behind the first bytes, where that is unfinished.
pub fn finish(done: Result<(), AllocError>, len: usize, out: &mut Vec<u8>) -> Result<(), AllocError>
    ensures same { is_ok result ≡ is_ok done }
    ensures items { out.new.items ≡ (if is_ok done then out.old.items else take len out.old.items) }
{
    if done.is_err() {
        out.truncate(len);
    }
    done
}

/// Appends the spelling of a name: its length, and its bytes. Where there is no memory, `out` holds what it held.
pub fn put_name(name: &Name, out: &mut Vec<u8>) -> Result<(), AllocError>
    ensures ok { OnOk result (out.new.items ≡ out.old.items ++ counted name.now) }
    ensures err { OnErr result (out.new.items ≡ out.old.items) }
{
    let len = out.len();
    let done = add_counted(name.as_bytes(), out);
    finish(done, len, out)
}

/// Appends the spelling of a schema. Where there is no memory, `out` holds what it held.
pub fn put_schema(schema: &Schema, out: &mut Vec<u8>) -> Result<(), AllocError>
    requires { IsSchema schema.now }
    ensures ok { OnOk result (out.new.items ≡ out.old.items ++ schema_spelling schema.now) }
    ensures err { OnErr result (out.new.items ≡ out.old.items) }
{
    let len = out.len();
    let done = add_schema(schema, out);
    finish(done, len, out)
}

/// Appends the image of a row that `check_row` takes. Where there is no memory, `out` holds what it held.
pub fn put_row(schema: &Schema, row: &Row, out: &mut Vec<u8>) -> Result<(), AllocError>
    requires schema { IsSchema schema.now }
    requires row { IsRow schema.now row.now }
    ensures ok { OnOk result (out.new.items ≡ out.old.items ++ row_image row.now) }
    ensures err { OnErr result (out.new.items ≡ out.old.items) }
{
    let len = out.len();
    let done = add_row(schema, row, out);
    finish(done, len, out)
}
