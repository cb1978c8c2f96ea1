//! Whether tables are such as the program takes.
ghost use Rattle.std.specs.Prelude.{◌≡◌, true, false, All, IfOk};
ghost use Rattle.row_format.specs.Rows.{IsRow};
ghost use Rattle.row_format.specs.Schemas.{IsSchema};
ghost use Rattle.sql_effect.specs.Effects.{IsTable, AreTables};

use log_tables::Table;
use row_format::{Row, Schema, check_row};
use std::alloc::{AllocError, Global};

// Whether a schema is one.
fn is_schema(alloc: Global, schema: &Schema) -> Result<bool, AllocError>
    ensures yes { IfOk result (λ so. so ≡ true → IsSchema schema.now) }
    ensures no { IfOk result (λ so. IsSchema schema.now → so ≡ true) }
{
    let copy = schema.copy(alloc)?;
    Ok(Schema::new(copy.columns.into_columns(), copy.key).is_ok())
}

// Whether a row goes into a table with this schema.
fn is_row(schema: &Schema, row: &Row) -> bool
    ensures yes { result ≡ true → IsRow schema.now row.now }
    ensures no { IsRow schema.now row.now → result ≡ true }
{
    check_row(schema, row).is_ok()
}

// Whether each row does.
fn are_rows(schema: &Schema, rows: &[Row]) -> bool
    ensures yes { result ≡ true → All (IsRow schema.now) rows.now }
    ensures no { All (IsRow schema.now) rows.now → result ≡ true }
{
    let mut i = 0;
    while i < rows.len() {
        if !is_row(schema, &rows[i]) {
            return false;
        }
        i += 1;
    }
    true
}

// Whether it is a table whose rows have places that can be told.
fn is_table(alloc: Global, table: &Table) -> Result<bool, AllocError>
    ensures yes { IfOk result (λ so. so ≡ true → IsTable table.now) }
    ensures no { IfOk result (λ so. IsTable table.now → so ≡ true) }
{
    let _name = table.definition.table.as_bytes();
    let schema = &table.definition.schema;
    let rows = table.rows.as_slice();
    if rows.len() >= 1 << 32 || !are_rows(schema, rows) {
        return Ok(false);
    }
    is_schema(alloc, schema)
}

/// Whether each of the tables has a schema that is one, and rows that go into it, fewer than 2^32.
///
/// `AllocError` for want of memory.
pub fn are_tables(alloc: Global, tables: &[Table]) -> Result<bool, AllocError>
    ensures yes { IfOk result (λ so. so ≡ true → AreTables tables.now) }
    ensures no { IfOk result (λ so. AreTables tables.now → so ≡ true) }
{
    let mut i = 0;
    while i < tables.len() {
        if !is_table(alloc, &tables[i])? {
            return Ok(false);
        }
        i += 1;
    }
    Ok(true)
}
