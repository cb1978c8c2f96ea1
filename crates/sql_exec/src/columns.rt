//! The columns of a row that a SELECT names.
ghost use Rattle.std.specs.Prelude.{◌≡◌, map, IfOk};
ghost use Rattle.sql_effect.specs.Select.{picked};
ghost use Rattle.sql_effect.specs.Values.{value_named};
ghost use Rattle.sql_exec.specs.Seen.{value_seen};

use crate::seen::Seen;
use crate::sums::see_named;
use row_format::Column;
use sql_text::ListOf;
use sql_value::{Name, Row, Text, Value};
use std::alloc::{AllocError, Global};

// The value that is looked at, to keep.
fn keep(alloc: Global, seen: Seen) -> Result<Value, AllocError>
    ensures { IfOk result (λ it. it ≡ value_seen seen.entry) }
{
    match seen {
        Seen::Null => Ok(Value::Null),
        Seen::Int(n) => Ok(Value::Int(n)),
        Seen::Text(bytes) => Ok(Value::Text(Text::new(bytes.to_vec(alloc)?))),
    }
}

// The columns of a row of these names.
fn values_named(
    alloc: Global,
    columns: &[Column],
    names: &[Name],
    row: &[Value],
) -> Result<Vec<Value>, AllocError>
    ensures { IfOk result (λ it.
        it.items ≡ map (λ name. value_named columns.now name row.now) names.now) }
{
    let mut values = Vec::with_capacity(alloc, names.len())?;
    for name in names {
        values.push(keep(alloc, see_named(columns, name, row))?)?;
    }
    Ok(values)
}

/// The columns of a row that are named, or the row itself where all are meant. What is not named is not copied, and a whole row is handed
/// on as it is.
///
/// `AllocError` for want of memory.
pub fn pick(
    alloc: Global,
    columns: &[Column],
    names: &Option<ListOf<Name>>,
    row: Row,
) -> Result<Row, AllocError>
    ensures { IfOk result (λ it. it ≡ picked columns.now names.now row) }
{
    match names {
        None => Ok(row),
        Some(names) => Ok(Row::new(values_named(alloc, columns, names.as_slice(), row.values())?)),
    }
}
