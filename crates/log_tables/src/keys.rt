//! The key of a row: its value in the key column, or NULL where it has no such column.
ghost use Rattle.std.specs.Prelude.{◌≡◌};
ghost use Rattle.sql_value.specs.declared.value.Value.TheVariants.{Null};
ghost use Rattle.log_tables.specs.Keys.{key_in, has_key};

use row_format::{Row, Value, is_same_value};

/// The value of a row in a column, or `null` where it has no such column.
pub fn value_at<'a>(row: &'a Row, column: usize, null: &'a Value) -> &'a Value
    requires { null.now ≡ Null }
    ensures { result.now ≡ key_in column row.now }
{
    match row.values().get(column) {
        Some(value) => value,
        None => null,
    }
}

/// Whether a row has this key in this column.
pub fn has_key(row: &Row, key: &Value, column: usize) -> bool
    ensures { result ≡ has_key column key.now row.now }
{
    let null = Value::Null;
    is_same_value(value_at(row, column, &null), key)
}
