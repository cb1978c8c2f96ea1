//! Whether two schemas, two table maps, or two rows, are the same.
ghost use Rattle.std.specs.Prelude.{◌≡◌};
ghost use Rattle.std.specs.Cmp.Lexicographic.{pointwise};
ghost use Rattle.sql_value.specs.Values.{same_value};
ghost use Rattle.row_format.specs.Schemas.{same_kind, same_column, same_key, same_schema, same_map};
ghost use Rattle.row_format.specs.Rows.{same_row};

use crate::{Column, Kind, Row, Schema, TableMap, Value};

fn is_same_kind(a: Kind, b: Kind) -> bool
    ensures { result ≡ same_kind a b }
{
    match (a, b) {
        (Kind::BigInt, Kind::BigInt) => true,
        (Kind::VarChar(m), Kind::VarChar(n)) => m == n,
        _ => false,
    }
}

fn is_same_column(a: &Column, b: &Column) -> bool
    ensures { result ≡ same_column a.now b.now }
{
    a.name.is_same(&b.name) && is_same_kind(a.kind, b.kind) && a.nullable == b.nullable
}

fn is_same_columns(a: &[Column], b: &[Column]) -> bool
    ensures { result ≡ pointwise same_column a.now b.now }
{
    if a.len() != b.len() {
        return false;
    }
    let mut i = 0;
    while i < a.len() {
        if !is_same_column(&a[i], &b[i]) {
            return false;
        }
        i += 1;
    }
    true
}

fn is_same_key(a: Option<u8>, b: Option<u8>) -> bool
    ensures { result ≡ same_key a b }
{
    match (a, b) {
        (None, None) => true,
        (Some(x), Some(y)) => x == y,
        _ => false,
    }
}

impl Schema {
    /// Whether it has the same columns and the same key as another.
    pub fn is_same(&self, other: &Schema) -> bool
        ensures { result ≡ same_schema self.now other.now }
    {
        is_same_columns(self.columns.as_slice(), other.columns.as_slice())
            && is_same_key(self.key, other.key)
    }
}

impl TableMap {
    /// Whether it has the same table and the same schema as another.
    pub fn is_same(&self, other: &TableMap) -> bool
        ensures { result ≡ same_map self.now other.now }
    {
        self.table.is_same(&other.table) && self.schema.is_same(&other.schema)
    }
}

/// Whether two values are the same, NULL and NULL too.
pub fn is_same_value(a: &Value, b: &Value) -> bool
    ensures { result ≡ same_value a.now b.now }
{
    match (a, b) {
        (Value::Null, Value::Null) => true,
        (Value::Int(m), Value::Int(n)) => m == n,
        (Value::Text(s), Value::Text(t)) => s.is_same(t),
        _ => false,
    }
}

fn is_same_values(a: &[Value], b: &[Value]) -> bool
    ensures { result ≡ pointwise same_value a.now b.now }
{
    if a.len() != b.len() {
        return false;
    }
    let mut i = 0;
    while i < a.len() {
        if !is_same_value(&a[i], &b[i]) {
            return false;
        }
        i += 1;
    }
    true
}

/// Whether two rows have the same values.
pub fn is_same_row(a: &Row, b: &Row) -> bool
    ensures { result ≡ same_row a.now b.now }
{
    is_same_values(a.values(), b.values())
}
