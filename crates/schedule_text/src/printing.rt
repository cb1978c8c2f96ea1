//! How values and rows are printed.
ghost use Rattle.std.specs.Prelude.{◌≡◌, ◌++◌, codes, OnOk, OnErr};
ghost use Rattle.schedule_text.specs.Printed.{letter_of, escaped, quoted, value_text, further_text};
ghost use Rattle.schedule_text.specs.Printed.{row_text, count_line, row_line, rows_text};
ghost use Rattle.schedule_text.specs.Inside.{IsPrefix};

use itoa::Buffer;
use sql_value::{Row, Value};
use std::alloc::AllocError;

/// Appends the rows of a session: a line with their number, and a line for each row.
///
/// `AllocError` for want of memory; then nothing is appended.
pub fn put_rows(session: u32, rows: &[Row], out: &mut Vec<u8>) -> Result<(), AllocError>
    ensures ok { OnOk result (out.new.items ≡ out.old.items ++ rows_text session rows.now) }
    ensures err { OnErr result (out.new.items ≡ out.old.items) }
{
    let len = out.len();
    let done = add_rows(session, rows, out);
    if done.is_err() {
        out.truncate(len);
    }
    done
}

/// Appends a value: `NULL`, a number in decimal, or a text in quotes.
///
/// `AllocError` for want of memory; then nothing is appended.
pub fn put_value(value: &Value, out: &mut Vec<u8>) -> Result<(), AllocError>
    ensures ok { OnOk result (out.new.items ≡ out.old.items ++ value_text value.now) }
    ensures err { OnErr result (out.new.items ≡ out.old.items) }
{
    let len = out.len();
    let done = add_value(value, out);
    if done.is_err() {
        out.truncate(len);
    }
    done
}

// Appends the lines of the rows, or a first part of them.
fn add_rows(session: u32, rows: &[Row], out: &mut Vec<u8>) -> Result<(), AllocError>
    ensures ok { OnOk result (out.new.items ≡ out.old.items ++ rows_text session rows.now) }
    ensures err { OnErr result (IsPrefix out.old.items out.new.items) }
{
    add_count(session, rows.len(), out)?;
    for row in rows {
        add_row(session, row.values(), out)?;
    }
    Ok(())
}

// Appends the line with the number of rows, or a first part of it.
fn add_count(session: u32, count: usize, out: &mut Vec<u8>) -> Result<(), AllocError>
    ensures ok { OnOk result (out.new.items ≡ out.old.items ++ count_line session count) }
    ensures err { OnErr result (IsPrefix out.old.items out.new.items) }
{
    let mut buffer = Buffer::new();
    out.extend_from_slice(buffer.format(session).as_bytes())?;
    out.extend_from_slice(b" rows ")?;
    out.extend_from_slice(buffer.format(count).as_bytes())?;
    out.push(b'\n')?;
    Ok(())
}

// Appends the line of a row, or a first part of it.
fn add_row(session: u32, values: &[Value], out: &mut Vec<u8>) -> Result<(), AllocError>
    ensures ok { OnOk result (out.new.items ≡ out.old.items ++ row_line session values.now) }
    ensures err { OnErr result (IsPrefix out.old.items out.new.items) }
{
    let mut buffer = Buffer::new();
    out.extend_from_slice(buffer.format(session).as_bytes())?;
    out.extend_from_slice(b" | ")?;
    add_values(values, out)?;
    out.push(b'\n')?;
    Ok(())
}

// Appends the values of a row with a comma and a space between each two, or a first part of them.
fn add_values(values: &[Value], out: &mut Vec<u8>) -> Result<(), AllocError>
    ensures ok { OnOk result (out.new.items ≡ out.old.items ++ row_text values.now) }
    ensures err { OnErr result (IsPrefix out.old.items out.new.items) }
{
    match values.split_first() {
        None => Ok(()),
        Some((first, rest)) => {
            add_value(first, out)?;
            add_further(rest, out)
        }
    }
}

// Appends the values behind the first, each behind a comma and a space, or a first part of them.
fn add_further(values: &[Value], out: &mut Vec<u8>) -> Result<(), AllocError>
    ensures ok { OnOk result (out.new.items ≡ out.old.items ++ further_text values.now) }
    ensures err { OnErr result (IsPrefix out.old.items out.new.items) }
{
    for value in values {
        add_behind_comma(value, out)?;
    }
    Ok(())
}

// Appends a comma, a space and the text of a value, or a first part of them.
fn add_behind_comma(value: &Value, out: &mut Vec<u8>) -> Result<(), AllocError>
    ensures ok { OnOk result (out.new.items ≡ out.old.items ++ codes ", " ++ value_text value.now) }
    ensures err { OnErr result (IsPrefix out.old.items out.new.items) }
{
    out.extend_from_slice(b", ")?;
    add_value(value, out)
}

// Appends the text of a value, or a first part of it.
fn add_value(value: &Value, out: &mut Vec<u8>) -> Result<(), AllocError>
    ensures ok { OnOk result (out.new.items ≡ out.old.items ++ value_text value.now) }
    ensures err { OnErr result (IsPrefix out.old.items out.new.items) }
{
    match value {
        Value::Null => out.extend_from_slice(b"NULL"),
        Value::Int(number) => {
            let mut buffer = Buffer::new();
            out.extend_from_slice(buffer.format(*number).as_bytes())
        }
        Value::Text(text) => add_quoted(text.as_bytes(), out),
    }
}

// Appends a text in quotes, or a first part of it.
fn add_quoted(text: &[u8], out: &mut Vec<u8>) -> Result<(), AllocError>
    ensures ok { OnOk result (out.new.items ≡ out.old.items ++ quoted text.now) }
    ensures err { OnErr result (IsPrefix out.old.items out.new.items) }
{
    out.push(b'\'')?;
    for byte in text {
        add_escaped(*byte, out)?;
    }
    out.push(b'\'')?;
    Ok(())
}

// Appends a byte of a text.
fn add_escaped(byte: u8, out: &mut Vec<u8>) -> Result<(), AllocError>
    ensures ok { OnOk result (out.new.items ≡ out.old.items ++ escaped byte) }
    ensures err { OnErr result (out.new.items ≡ out.old.items) }
{
    match letter_of(byte) {
        Some(letter) => out.extend_from_slice(&[b'\\', letter]),
        None => out.extend_from_slice(&[byte]),
    }
}

// What stands behind a backslash for a byte that is escaped.
fn letter_of(byte: u8) -> Option<u8>
    ensures { result ≡ letter_of byte }
{
    match byte {
        b'\\' | b'\'' => Some(byte),
        b'\n' => Some(b'n'),
        b'\r' => Some(b'r'),
        b'\t' => Some(b't'),
        0 => Some(b'0'),
        _ => None,
    }
}
