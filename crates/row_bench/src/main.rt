//! Adds 60,000 rows to a table, by rising keys or by keys in no order: what `checks/row-speed` takes the time of.
//!
//! It stands on `row_store`. It is no part of the server.
#![tactic(auto)]

ghost use Rattle.std.specs.Prelude.{◌≡◌, ◌<◌, suc, length, OnOk, IfOk};

use row_format::{Column, Columns, Kind, Name, Row, Schema, Value};
use row_store::RowTable;
use std::alloc::{AllocError, Global};
use std::io;

// How many rows are added.
const ROWS: u32 = 60_000;

fn main(rt: HostRuntime) -> io::Result<()> {
    for line in rt.lines(rt.alloc()) {
        let in_order = line?.as_str() == "rising";
        let rows = filled(rt.alloc(), in_order)?;
        println!(rt; "{rows} rows")?;
    }
    Ok(())
}

// A table of one number, its key, with a row for each key; how many rows it then has.
fn filled(alloc: Global, in_order: bool) -> Result<usize, AllocError>
    ensures rows { IfOk result (λ rows. rows ≡ 60000) }
{
    let Ok(name) = Name::new([b'k'].to_vec(alloc)?) else {
        return Err(AllocError);
    };
    let mut columns = Vec::new(alloc);
    columns.push(Column {
        name,
        kind: Kind::BigInt,
        nullable: false,
    })?;
    let columns = Columns::new(columns);
    let schema = Schema {
        columns,
        key: Some(0),
    };
    let mut table = RowTable::new(schema, alloc);
    let mut seed = 88_172_645_463_325_252u64;
    for i in 0..ROWS {
        seed = seed
            .wrapping_mul(6_364_136_223_846_793_005)
            .wrapping_add(1_442_695_040_888_963_407);
        let key = if in_order {
            i64::from(i)
        } else {
            (seed >> 1) as i64
        };
        add(&mut table, alloc, key)?;
    }
    Ok(table.len())
}

// Makes room for rows, where there is none.
fn make_room(table: &mut RowTable) -> Result<(), AllocError>
    ensures rows { table.new.rows ≡ table.old.rows }
    ensures room { OnOk result (0 < table.new.spare) }
{
    if table.spare() > 0 {
        return Ok(());
    }
    table.reserve(1_024)
}

// Adds a row whose key is not there yet.
fn put(table: &mut RowTable, row: Row) -> Result<(), AllocError>
    requires room { 0 < table.old.spare }
    ensures one_more { OnOk result (length table.new.rows ≡ suc (length table.old.rows)) }
{
    let Ok(_) = table.insert(row) else {
        return Err(AllocError);
    };
    Ok(())
}

// Adds the row of a key that is not there yet.
fn add(table: &mut RowTable, alloc: Global, key: i64) -> Result<(), AllocError>
    ensures one_more { OnOk result (length table.new.rows ≡ suc (length table.old.rows)) }
{
    let mut values = Vec::new(alloc);
    values.push(Value::Int(key))?;
    make_room(table)?;
    put(table, Row::new(values))
}
