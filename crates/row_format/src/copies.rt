//! A schema, a table map, a value or a row once more.
ghost use Rattle.std.specs.Prelude.{◌≡◌, IfOk};

use crate::{Column, Columns, Row, Schema, TableMap, Value};
use std::alloc::{AllocError, Global};

fn copy_column(column: &Column) -> Result<Column, AllocError>
    ensures { IfOk result (λ c. c ≡ column.now) }
{
    Ok(Column {
        name: column.name.copy()?,
        kind: column.kind,
        nullable: column.nullable,
    })
}

fn copy_columns(alloc: Global, columns: &[Column]) -> Result<Vec<Column>, AllocError>
    ensures { IfOk result (λ v. v.items ≡ columns.now) }
{
    let mut copy = Vec::with_capacity(alloc, columns.len())?;
    for column in columns {
        copy.push(copy_column(column)?)?;
    }
    Ok(copy)
}

impl Schema {
    /// The same schema once more.
    ///
    /// `AllocError` for want of memory.
    pub fn copy(&self, alloc: Global) -> Result<Schema, AllocError>
        ensures { IfOk result (λ s. s ≡ self.now) }
    {
        let columns = copy_columns(alloc, self.columns.as_slice())?;
        Ok(Schema {
            columns: Columns::new(columns),
            key: self.key,
        })
    }
}

impl TableMap {
    /// The same table map once more.
    ///
    /// `AllocError` for want of memory.
    pub fn copy(&self, alloc: Global) -> Result<TableMap, AllocError>
        ensures { IfOk result (λ m. m ≡ self.now) }
    {
        let table = self.table.copy()?;
        let schema = self.schema.copy(alloc)?;
        Ok(TableMap { table, schema })
    }
}

/// The same value once more.
///
/// `AllocError` for want of memory.
pub fn copy_value(value: &Value) -> Result<Value, AllocError>
    ensures { IfOk result (λ v. v ≡ value.now) }
{
    match value {
        Value::Null => Ok(Value::Null),
        Value::Int(n) => Ok(Value::Int(*n)),
        Value::Text(text) => Ok(Value::Text(text.copy()?)),
    }
}

/// The same values once more, in the same order.
///
/// `AllocError` for want of memory.
pub fn copy_values(alloc: Global, values: &[Value]) -> Result<Vec<Value>, AllocError>
    ensures { IfOk result (λ v. v.items ≡ values.now) }
{
    let mut copy = Vec::with_capacity(alloc, values.len())?;
    for value in values {
        copy.push(copy_value(value)?)?;
    }
    Ok(copy)
}

/// The same row once more.
///
/// `AllocError` for want of memory.
pub fn copy_row(alloc: Global, row: &Row) -> Result<Row, AllocError>
    ensures { IfOk result (λ r. r ≡ row.now) }
{
    Ok(Row::new(copy_values(alloc, row.values())?))
}
