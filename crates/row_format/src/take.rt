//! Reading names, schemas and rows at the front of some bytes.
//!
//! Each reader gives what the reader of the same name on lists gives (`Gives`). What that means is said by the readers of `read.rt`, which
//! stand on these.
ghost use Rattle.std.specs.Prelude.{◌≡◌, ◌≤◌, ◌<◌, ℕ, List, length, IfOk, IfSome, IfNone, nat_le, ◌==◌, ◌%◌, ◌/◌};
ghost use Rattle.sql_value.specs.Names.{IsName};
ghost use Rattle.row_format.specs.Schemas.{IsSchema};
ghost use Rattle.row_format.specs.Rows.{IsRow};
ghost use Rattle.row_format.specs.Spelling.{Takes, Begins, counted, schema_spelling, row_image};
ghost use Rattle.row_format.specs.Reading.{Gives, byte_at, piece_at, counted_at, name_at, kind_at, flag_at, column_at, columns_at, key_of_byte, schema_at, map_at, bits_at, int_at, filled_at, value_at, values_at, row_at};

use crate::fault::Unread;
use crate::{Column, Kind, Name, Row, Schema, TableMap, Text, Value};
use std::alloc::{AllocError, Global};

/// One byte, and what follows it.
pub fn take_byte(bytes: &[u8]) -> Result<(u8, &[u8]), Unread>
    ensures { Gives (λ x. (x.0, x.1.now)) result (byte_at bytes.now) }
{
    match bytes {
        [byte, rest @ ..] => Ok((*byte, rest)),
        [] => Err(Unread::Absent),
    }
}

// So many bytes.
#[tactic(auto, unfolding(crate::specs::Reading::piece_at))]
fn take_piece(n: usize, bytes: &[u8]) -> Result<(&[u8], &[u8]), Unread>
    ensures { Gives (λ x. (x.0.now, x.1.now)) result (piece_at n bytes.now) }
{
    if n <= bytes.len() {
        Ok(bytes.split_at(n))
    } else {
        Err(Unread::Absent)
    }
}

// A length byte, and so many bytes.
#[tactic(auto, unfolding(crate::specs::Reading::counted_at))]
fn take_counted(bytes: &[u8]) -> Result<(&[u8], &[u8]), Unread>
    ensures { Gives (λ x. (x.0.now, x.1.now)) result (counted_at bytes.now) }
{
    let (n, rest) = take_byte(bytes)?;
    take_piece(n as usize, rest)
}

/// A name, and what follows it.
#[tactic(auto, unfolding(crate::specs::Reading::name_at))]
pub fn take_name(alloc: Global, bytes: &[u8]) -> Result<(Name, &[u8]), Unread>
    ensures { Gives (λ x. (x.0, x.1.now)) result (name_at bytes.now) }
{
    let (name, rest) = take_counted(bytes)?;
    let name = Vec::from_slice(alloc, name)?;
    match Name::new(name) {
        Ok(name) => Ok((name, rest)),
        Err(_) => Err(Unread::Absent),
    }
}

// A type.
#[tactic(auto, unfolding(crate::specs::Reading::kind_at))]
fn take_kind(bytes: &[u8]) -> Result<(Kind, &[u8]), Unread>
    ensures { Gives (λ x. (x.0, x.1.now)) result (kind_at bytes.now) }
{
    let (kind, rest) = take_byte(bytes)?;
    match kind {
        8 => Ok((Kind::BigInt, rest)),
        15 => {
            let (n, rest) = take_byte(rest)?;
            Ok((Kind::VarChar(n), rest))
        }
        _ => Err(Unread::Absent),
    }
}

// A flag.
#[tactic(auto, unfolding(crate::specs::Reading::flag_at))]
fn take_flag(bytes: &[u8]) -> Result<(bool, &[u8]), Unread>
    ensures { Gives (λ x. (x.0, x.1.now)) result (flag_at bytes.now) }
{
    let (flag, rest) = take_byte(bytes)?;
    if flag <= 1 {
        Ok((flag == 1, rest))
    } else {
        Err(Unread::Absent)
    }
}

// A column.
#[tactic(auto, unfolding(crate::specs::Reading::column_at))]
fn take_column(alloc: Global, bytes: &[u8]) -> Result<(Column, &[u8]), Unread>
    ensures { Gives (λ x. (x.0, x.1.now)) result (column_at bytes.now) }
{
    let (name, rest) = take_name(alloc, bytes)?;
    let (kind, rest) = take_kind(rest)?;
    let (nullable, rest) = take_flag(rest)?;
    Ok((
        Column {
            name,
            kind,
            nullable,
        },
        rest,
    ))
}

// So many columns.
fn take_columns(alloc: Global, count: usize, bytes: &[u8]) -> Result<(Vec<Column>, &[u8]), Unread>
    ensures { Gives (λ x. (x.0.items, x.1.now)) result (columns_at count bytes.now) }
{
    let mut columns = Vec::new(alloc);
    let mut rest = bytes;
    let mut left = count;
    while left > 0 {
        let (column, behind) = take_column(alloc, rest)?;
        columns.push(column)?;
        rest = behind;
        left -= 1;
    }
    Ok((columns, rest))
}

// The key that a byte tells.
fn key_from(byte: u8) -> Option<u8>
    ensures { result ≡ key_of_byte byte }
{
    if byte == 255 { None } else { Some(byte) }
}

/// A schema, and what follows it.
#[tactic(auto, unfolding(crate::specs::Reading::schema_at))]
pub fn take_schema(alloc: Global, bytes: &[u8]) -> Result<(Schema, &[u8]), Unread>
    ensures { Gives (λ x. (x.0, x.1.now)) result (schema_at bytes.now) }
{
    let (count, rest) = take_byte(bytes)?;
    let (key, rest) = take_byte(rest)?;
    let (columns, rest) = take_columns(alloc, count as usize, rest)?;
    match Schema::new(columns, key_from(key)) {
        Ok(schema) => Ok((schema, rest)),
        Err(_) => Err(Unread::Absent),
    }
}

/// A table map, and what follows it.
#[tactic(auto, unfolding(crate::specs::Reading::map_at))]
pub fn take_map(alloc: Global, bytes: &[u8]) -> Result<(TableMap, &[u8]), Unread>
    ensures { Gives (λ x. (x.0, x.1.now)) result (map_at bytes.now) }
{
    let (table, rest) = take_name(alloc, bytes)?;
    let (schema, rest) = take_schema(alloc, rest)?;
    Ok((TableMap { table, schema }, rest))
}

// The bits of a row with so many columns.
#[tactic(auto, unfolding(crate::specs::Reading::bits_at, crate::specs::Reading::piece_at))]
fn take_bits(count: usize, bytes: &[u8]) -> Result<(u16, &[u8]), Unread>
    ensures { Gives (λ x. (x.0, x.1.now)) result (bits_at count bytes.now) }
{
    if count <= 8 {
        let (bits, rest) = take_byte(bytes)?;
        return Ok((u16::from(bits), rest));
    }
    match bytes.split_first_chunk::<2>() {
        Some((bits, rest)) => Ok((u16::from_le_bytes(*bits), rest)),
        None => Err(Unread::Absent),
    }
}

// A number.
#[tactic(auto, unfolding(crate::specs::Reading::int_at, crate::specs::Reading::piece_at))]
fn take_int(bytes: &[u8]) -> Result<(i64, &[u8]), Unread>
    ensures { Gives (λ x. (x.0, x.1.now)) result (int_at bytes.now) }
{
    match bytes.split_first_chunk::<8>() {
        Some((int, rest)) => Ok((i64::from_le_bytes(*int), rest)),
        None => Err(Unread::Absent),
    }
}

// A value that is not Null.
#[tactic(auto, unfolding(crate::specs::Reading::filled_at))]
fn take_filled(alloc: Global, kind: Kind, bytes: &[u8]) -> Result<(Value, &[u8]), Unread>
    ensures { Gives (λ x. (x.0, x.1.now)) result (filled_at kind bytes.now) }
{
    match kind {
        Kind::BigInt => {
            let (int, rest) = take_int(bytes)?;
            Ok((Value::Int(int), rest))
        }
        Kind::VarChar(n) => {
            let (text, rest) = take_counted(bytes)?;
            if text.len() > n as usize {
                return Err(Unread::Absent);
            }
            let text = Text::new(Vec::from_slice(alloc, text)?);
            Ok((Value::Text(text), rest))
        }
    }
}

// A value, by whether its bit says Null.
#[tactic(auto, unfolding(crate::specs::Reading::value_at))]
fn take_value<'a>(
    alloc: Global,
    column: &Column,
    is_null: bool,
    bytes: &'a [u8],
) -> Result<(Value, &'a [u8]), Unread>
    ensures { Gives (λ x. (x.0, x.1.now)) result (value_at column.now is_null bytes.now) }
{
    if !is_null {
        return take_filled(alloc, column.kind, bytes);
    }
    if column.nullable {
        Ok((Value::Null, bytes))
    } else {
        Err(Unread::Absent)
    }
}

// The values of these columns.
fn take_values<'a>(
    alloc: Global,
    columns: &[Column],
    bits: u16,
    bytes: &'a [u8],
) -> Result<(Vec<Value>, &'a [u8]), Unread>
    ensures { Gives (λ x. (x.0.items, x.1.now)) result (values_at columns.now bits bytes.now) }
{
    let mut values = Vec::new(alloc);
    let mut rest = bytes;
    let mut bits_left = bits;
    let mut i = 0;
    while i < columns.len() {
        let (value, behind) = take_value(alloc, &columns[i], bits_left % 2 == 1, rest)?;
        values.push(value)?;
        rest = behind;
        bits_left /= 2;
        i += 1;
    }
    if bits_left == 0 {
        Ok((values, rest))
    } else {
        Err(Unread::Absent)
    }
}

/// A row image of a table with this schema, and what follows it.
#[tactic(auto, unfolding(crate::specs::Reading::row_at))]
pub fn take_row<'a>(
    alloc: Global,
    schema: &Schema,
    bytes: &'a [u8],
) -> Result<(Row, &'a [u8]), Unread>
    ensures { Gives (λ x. (x.0, x.1.now)) result (row_at schema.now bytes.now) }
{
    let columns = schema.columns.as_slice();
    let (bits, rest) = take_bits(columns.len(), bytes)?;
    let (values, rest) = take_values(alloc, columns, bits, rest)?;
    Ok((Row::new(values), rest))
}
