//! How two values compare.
ghost use Rattle.std.specs.Prelude.{◌≡◌, IsTrue};
ghost use Rattle.sql_value.specs.Comparison.{compare, are_comparable};

use crate::Value;
use std::cmp::Ordering;

/// Compares numbers as numbers and texts byte by byte.
///
/// None exactly where one of the two is Null.
pub fn compare(a: &Value, b: &Value) -> Option<Ordering>
    requires { IsTrue (are_comparable a.now b.now) }
    ensures { result ≡ compare a.now b.now }
{
    match (a, b) {
        (Value::Int(x), Value::Int(y)) => Some(x.cmp(y)),
        (Value::Text(s), Value::Text(t)) => Some(s.as_bytes().cmp(t.as_bytes())),
        _ => None,
    }
}

/// Whether the two may be compared: one is Null, or both are of one type.
pub fn are_comparable(a: &Value, b: &Value) -> bool
    ensures { result ≡ are_comparable a.now b.now }
{
    match (a, b) {
        (Value::Int(_), Value::Text(_)) | (Value::Text(_), Value::Int(_)) => false,
        _ => true,
    }
}
