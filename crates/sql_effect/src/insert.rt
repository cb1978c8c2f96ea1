//! Which rows an INSERT adds, and why it adds none.
ghost use Rattle.std.specs.Prelude.{◌≡◌, ◌<◌, ◌^◌, ◌++◌, All, map, IfOk, OnOk};
ghost use Rattle.std.specs.Result.{result_err};
ghost use Rattle.row_format.specs.Rows.{IsRow};
ghost use Rattle.row_format.specs.Schemas.{IsSchema};
ghost use Rattle.sql_effect.specs.Insert.{written, insert_refusal, inserts_refusal, inserts};
ghost use Rattle.sql_effect.specs.Values.{literal_value};

use crate::keys::check_place;
use crate::values::literal_value;
use row_format::{Change, Schema, TableMap, check_row, image_len};
use sql_text::{Literal, Literals};
use sql_value::{Name, Refusal, Row};
use std::alloc::{AllocError, Global};

// The row that is written out.
fn write_row(alloc: Global, literals: &[Literal]) -> Result<Row, AllocError>
    ensures { IfOk result (λ it. it ≡ map literal_value literals.now) }
{
    let mut values = Vec::with_capacity(alloc, literals.len())?;
    for literal in literals {
        values.push(literal_value(literal)?)?;
    }
    Ok(Row::new(values))
}

/// The rows that are written out in an INSERT.
///
/// `AllocError` for want of memory.
pub fn write_rows(alloc: Global, rows: &[Literals]) -> Result<Vec<Row>, AllocError>
    ensures { IfOk result (λ it. it.items ≡ written rows.now) }
{
    let mut made = Vec::with_capacity(alloc, rows.len())?;
    for row in rows {
        made.push(write_row(alloc, row.values.as_slice())?)?;
    }
    Ok(made)
}

// Refuses a row that is not inserted behind others, which come to those that are there.
fn check_insert(
    keeps: bool,
    schema: &Schema,
    live: u128,
    there: &[Row],
    before: &[Row],
    row: &Row,
) -> Result<(), Refusal>
    requires schema { IsSchema schema.now }
    requires live { live < 2 ^ 127 }
    ensures value { result_err result
        ≡ insert_refusal keeps schema.now live (there.now ++ before.now) row.now }
    ensures row { OnOk result (IsRow schema.now row.now) }
{
    check_row(schema, row)?;
    if !keeps {
        return Ok(());
    }
    let live = live + image_len(schema, row) as u128;
    check_place(schema.key, there, before, row, live)
}

/// Refuses rows that are not inserted: the first of them that is refused, behind those before it.
pub(crate) fn check_inserts(
    keeps: bool,
    schema: &Schema,
    live: u64,
    there: &[Row],
    rows: &[Row],
) -> Result<(), Refusal>
    requires { IsSchema schema.now }
    ensures value { result_err result
        ≡ inserts_refusal keeps schema.now live there.now rows.now }
    ensures rows { OnOk result (All (IsRow schema.now) rows.now) }
{
    let mut held = u128::from(live);
    let mut i = 0;
    while i < rows.len() {
        let row = &rows[i];
        check_insert(keeps, schema, held, there, &rows[..i], row)?;
        held += image_len(schema, row) as u128;
        i += 1;
    }
    Ok(())
}

/// A table as row changes name it.
pub(crate) fn map_of(alloc: Global, table: &Name, schema: &Schema) -> Result<TableMap, AllocError>
    ensures { IfOk result (λ it. it ≡ record { table = table.now; schema = schema.now }) }
{
    Ok(TableMap {
        table: table.copy()?,
        schema: schema.copy(alloc)?,
    })
}

/// The change for each row that an INSERT adds to a table.
///
/// `AllocError` for want of memory.
pub fn inserts(
    alloc: Global,
    table: &Name,
    schema: &Schema,
    rows: Vec<Row>,
) -> Result<Vec<Change>, AllocError>
    ensures { IfOk result (λ it. it.items
        ≡ inserts (record { table = table.now; schema = schema.now }) rows.items) }
{
    let mut changes = Vec::with_capacity(alloc, rows.len())?;
    for row in rows {
        let map = map_of(alloc, table, schema)?;
        changes.push(Change::Insert { map, row })?;
    }
    Ok(changes)
}
