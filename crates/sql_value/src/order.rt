//! The order of values.
ghost use Rattle.std.specs.Prelude.{◌≡◌};
ghost use Rattle.sql_value.specs.Values.{value_cmp};

use crate::Value;
use std::cmp::Ordering;

/// How one value stands to another in the order of all values: Null, then numbers, then texts byte by byte.
pub fn value_order(a: &Value, b: &Value) -> Ordering
    ensures { result ≡ value_cmp a.now b.now }
{
    match (a, b) {
        (Value::Null, Value::Null) => Ordering::Equal,
        (Value::Null, _) => Ordering::Less,
        (Value::Int(_), Value::Null) => Ordering::Greater,
        (Value::Int(m), Value::Int(n)) => m.cmp(n),
        (Value::Int(_), Value::Text(_)) => Ordering::Less,
        (Value::Text(s), Value::Text(t)) => s.as_bytes().cmp(t.as_bytes()),
        (Value::Text(_), _) => Ordering::Greater,
    }
}
