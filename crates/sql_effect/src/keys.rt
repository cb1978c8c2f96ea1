//! Whether a row has a place among others.
ghost use Rattle.std.specs.Prelude.{◌≡◌, ◌++◌};
ghost use Rattle.std.specs.Option.{option_copied};
ghost use Rattle.std.specs.Result.{result_err};
ghost use Rattle.log_tables.specs.Keys.{key_in, row_with};
ghost use Rattle.engine_api.specs.Live.{is_key_taken};
ghost use Rattle.sql_effect.specs.Insert.{place_refusal};

use crate::sizes::check_room;
use log_tables::{has_key, value_at};
use sql_value::{Refusal, Row, Value};

// The first row that has this key.
fn find_key<'a>(rows: &'a [Row], key: &Value, column: usize) -> Option<&'a Row>
    ensures { option_copied result ≡ row_with column key.now rows.now }
{
    rows.iter().find(|row| has_key(row, key, column))
}

// The first row that has the key of this one.
fn find_key_of<'a>(rows: &'a [Row], row: &Row, column: usize) -> Option<&'a Row>
    ensures { option_copied result ≡ row_with column (key_in column row.now) rows.now }
{
    let null = Value::Null;
    find_key(rows, value_at(row, column, &null), column)
}

// Whether one of the rows has the key of this one, where there are keys.
fn is_key_taken(key: Option<u8>, rows: &[Row], row: &Row) -> bool
    ensures { result ≡ is_key_taken key rows.now row.now }
{
    match key {
        None => false,
        Some(column) => find_key_of(rows, row, column as usize).is_some(),
    }
}

// Whether one of two lists of rows has it.
fn is_taken_in_two(key: Option<u8>, front: &[Row], back: &[Row], row: &Row) -> bool
    ensures { result ≡ is_key_taken key (front.now ++ back.now) row.now }
{
    is_key_taken(key, front, row) || is_key_taken(key, back, row)
}

/// Refuses a row whose key one of two lists of rows has, or that makes too many live bytes of the engine.
pub(crate) fn check_place(
    key: Option<u8>,
    front: &[Row],
    back: &[Row],
    row: &Row,
    live: u128,
) -> Result<(), Refusal>
    ensures { result_err result ≡ place_refusal key (front.now ++ back.now) row.now live }
{
    if is_taken_in_two(key, front, back, row) {
        return Err(Refusal::DuplicateEntry);
    }
    check_room(live)
}
