//! The tables of a log in the simplest way: a plain program beside the definition, for tests.
ghost use Rattle.std.specs.Prelude.{◌≡◌, OnOk, IfOk, is_some, unwrap_or, Some};
ghost use Rattle.std.specs.Option.{option_copied};
ghost use Rattle.row_format.specs.declared.change.Change.TheVariants.{Create, Drop, Insert, Update, Delete};
ghost use Rattle.log_tables.specs.Keys.{key_in, row_with, without_key, place_above, is_row, inserted, deleted, updated};
ghost use Rattle.log_tables.specs.Tables.{place_named};
ghost use Rattle.log_tables.specs.Changes.{after_change, with_rows, rows_after, after_changes, tables_after};

use crate::keys::{has_key, value_at};
use crate::{Definition, Rows, Table, Tables};
use row_format::{Change, Changes, Name, Row, Schema, TableMap, Transaction, Value, is_same_row};
use sql_value::value_order;
use std::alloc::{AllocError, Global};
use std::cmp::Ordering;

// Where the table of this name stands, or the number of tables.
fn place_of(tables: &[Table], name: &Name) -> usize
    ensures { result ≡ place_named name.now tables.now }
{
    let mut i = 0;
    while i < tables.len() {
        if tables[i].definition.table.is_same(name) {
            return i;
        }
        i += 1;
    }
    i
}

// Adds a table with no rows where its name is free.
fn create(
    alloc: Global,
    tables: &mut Vec<Table>,
    table: Name,
    engine: Name,
    schema: Schema,
) -> Result<(), AllocError>
    ensures { OnOk result
        (tables.new.items ≡ after_change (Create table engine schema) tables.old.items) }
{
    if place_of(tables, &table) == tables.len() {
        let definition = Definition {
            table,
            engine,
            schema,
        };
        let rows = Rows::new(Vec::new(alloc));
        tables.push(Table { definition, rows })?;
    }
    Ok(())
}

// The first row that has this key.
fn find_row<'a>(rows: &'a [Row], key: &Value, column: usize) -> Option<&'a Row>
    ensures { option_copied result ≡ row_with column key.now rows.now }
{
    let mut i = 0;
    while i < rows.len() {
        if has_key(&rows[i], key, column) {
            return Some(&rows[i]);
        }
        i += 1;
    }
    None
}

// The first row that has the key of this one.
fn find_row_of<'a>(rows: &'a [Row], row: &Row, column: usize) -> Option<&'a Row>
    ensures { option_copied result ≡ row_with column (key_in column row.now) rows.now }
{
    let null = Value::Null;
    find_row(rows, value_at(row, column, &null), column)
}

// Whether a row was found, and it is this one.
fn is_found(found: Option<&Row>, row: &Row) -> bool
    ensures { result ≡ is_row (option_copied found.entry) row.now }
{
    match found {
        Some(it) => is_same_row(it, row),
        None => false,
    }
}

// Where the first row of a greater key stands, or the number of rows.
fn place_for(rows: &[Row], row: &Row, column: usize) -> usize
    ensures { result ≡ place_above column row.now rows.now }
{
    let no_key = Value::Null;
    let key = value_at(row, column, &no_key);
    let null = Value::Null;
    let mut i = 0;
    while i < rows.len() {
        if value_order(key, value_at(&rows[i], column, &null)) == Ordering::Less {
            return i;
        }
        i += 1;
    }
    i
}

fn has_key_of(rows: &[Row], row: &Row, column: usize) -> bool
    ensures { result ≡ is_some (row_with column (key_in column row.now) rows.now) }
{
    find_row_of(rows, row, column).is_some()
}

// Adds a row before the first of a greater key where its key is free.
fn insert_in_order(rows: &mut Rows, column: usize, row: Row) -> Result<(), AllocError>
    ensures { OnOk result
        (rows.new ≡ unwrap_or (inserted (Some column) row rows.old) rows.old) }
{
    if has_key_of(&rows.rows, &row, column) {
        return Ok(());
    }
    let place = place_for(&rows.rows, &row, column);
    rows.rows.insert(place, row)?;
    Ok(())
}

fn insert_row(rows: &mut Rows, key: Option<u8>, row: Row) -> Result<(), AllocError>
    ensures { OnOk result (rows.new ≡ unwrap_or (inserted key row rows.old) rows.old) }
{
    match key {
        None => {
            rows.rows.push(row)?;
            Ok(())
        }
        Some(column) => insert_in_order(rows, column as usize, row),
    }
}

fn insert_in(table: &mut Table, map: TableMap, row: Row) -> Result<(), AllocError>
    ensures { OnOk result
        (table.new ≡ with_rows table.old (rows_after (Insert map row) table.old)) }
{
    if !map.schema.is_same(&table.definition.schema) {
        return Ok(());
    }
    insert_row(&mut table.rows, table.definition.schema.key, row)
}

// Adds a row to its table, where it was made for that table's schema and its key is free.
fn insert(tables: &mut Vec<Table>, map: TableMap, row: Row) -> Result<(), AllocError>
    ensures { OnOk result (tables.new.items ≡ after_change (Insert map row) tables.old.items) }
{
    let i = place_of(tables, &map.table);
    if i < tables.len() {
        insert_in(&mut tables[i], map, row)?;
    }
    Ok(())
}

// Takes out the rows of this key.
fn remove_key(rows: &mut Rows, key: &Value, column: usize)
    ensures { rows.new ≡ without_key column key.now rows.old }
{
    rows.rows.retain(|row| !has_key(row, key, column));
}

// Takes out the rows that have the key of this one.
fn remove_key_of(rows: &mut Rows, row: &Row, column: usize)
    ensures { rows.new ≡ without_key column (key_in column row.now) rows.old }
{
    let null = Value::Null;
    remove_key(rows, value_at(row, column, &null), column);
}

// Takes out the row at a place, where it is this one.
fn delete_at(rows: &mut Rows, place: usize, before: &Row)
    ensures { rows.new ≡ unwrap_or (deleted None place before.now rows.old) rows.old }
{
    if is_found(rows.rows.get(place), before) {
        rows.rows.remove(place);
    }
}

// Takes out the row that has the key of this one, where it is this one.
fn delete_by_key(rows: &mut Rows, column: usize, before: &Row)
    ensures { rows.new ≡ unwrap_or (deleted (Some column) 0 before.now rows.old) rows.old }
{
    if is_found(find_row_of(&rows.rows, before, column), before) {
        remove_key_of(rows, before, column);
    }
}

fn delete_row(rows: &mut Rows, key: Option<u8>, place: u32, before: &Row)
    ensures { rows.new ≡ unwrap_or (deleted key place before.now rows.old) rows.old }
{
    match key {
        None => delete_at(rows, place as usize, before),
        Some(column) => delete_by_key(rows, column as usize, before),
    }
}

fn delete_in(table: &mut Table, map: TableMap, place: u32, before: Row)
    ensures { table.new ≡ with_rows table.old (rows_after (Delete map place before) table.old) }
{
    if map.schema.is_same(&table.definition.schema) {
        delete_row(&mut table.rows, table.definition.schema.key, place, &before);
    }
}

// Takes a row out of its table, where it was made for that table's schema and the row is there.
fn delete(tables: &mut Vec<Table>, map: TableMap, place: u32, before: Row)
    ensures { tables.new.items ≡ after_change (Delete map place before) tables.old.items }
{
    let i = place_of(tables, &map.table);
    if i < tables.len() {
        delete_in(&mut tables[i], map, place, before);
    }
}

// Puts a row at the place of another, where that is the one before.
fn update_at(rows: &mut Rows, place: usize, before: &Row, after: Row)
    ensures { rows.new ≡ unwrap_or (updated None place before.now after rows.old) rows.old }
{
    if is_found(rows.rows.get(place), before) {
        rows.rows[place] = after;
    }
}

// Whether a row without the key of the one before has the key of the one after.
fn is_taken(rows: &[Row], before: &Row, after: &Row, column: usize) -> bool
    ensures { result ≡ is_some (row_with column (key_in column after.now)
        (without_key column (key_in column before.now) rows.now)) }
{
    let null = Value::Null;
    if has_key(before, value_at(after, column, &null), column) {
        return false;
    }
    has_key_of(rows, after, column)
}

// Puts a row in the place of the one that has the key of the row before, where that is the row before, and no other has its key.
fn update_by_key(rows: &mut Rows, column: usize, before: &Row, after: Row) -> Result<(), AllocError>
    ensures { OnOk result
        (rows.new ≡ unwrap_or (updated (Some column) 0 before.now after rows.old) rows.old) }
{
    if !is_found(find_row_of(&rows.rows, before, column), before) {
        return Ok(());
    }
    if is_taken(&rows.rows, before, &after, column) {
        return Ok(());
    }
    remove_key_of(rows, before, column);
    insert_in_order(rows, column, after)
}

fn update_row(
    rows: &mut Rows,
    key: Option<u8>,
    place: u32,
    before: &Row,
    after: Row,
) -> Result<(), AllocError>
    ensures { OnOk result
        (rows.new ≡ unwrap_or (updated key place before.now after rows.old) rows.old) }
{
    match key {
        None => {
            update_at(rows, place as usize, before, after);
            Ok(())
        }
        Some(column) => update_by_key(rows, column as usize, before, after),
    }
}

fn update_in(
    table: &mut Table,
    map: TableMap,
    place: u32,
    before: Row,
    after: Row,
) -> Result<(), AllocError>
    ensures { OnOk result (table.new
        ≡ with_rows table.old (rows_after (Update map place before after) table.old)) }
{
    if map.schema.is_same(&table.definition.schema) {
        let key = table.definition.schema.key;
        update_row(&mut table.rows, key, place, &before, after)?;
    }
    Ok(())
}

// Puts a row in the place of another of its table, where it was made for that table's schema and the other is there.
fn update(
    tables: &mut Vec<Table>,
    map: TableMap,
    place: u32,
    before: Row,
    after: Row,
) -> Result<(), AllocError>
    ensures { OnOk result (tables.new.items
        ≡ after_change (Update map place before after) tables.old.items) }
{
    let i = place_of(tables, &map.table);
    if i < tables.len() {
        update_in(&mut tables[i], map, place, before, after)?;
    }
    Ok(())
}

// Takes out a table.
fn drop_table(tables: &mut Vec<Table>, table: Name)
    ensures { tables.new.items ≡ after_change (Drop table) tables.old.items }
{
    let i = place_of(tables, &table);
    if i < tables.len() {
        tables.remove(i);
    }
}

// Makes one change.
fn make(alloc: Global, tables: &mut Vec<Table>, change: Change) -> Result<(), AllocError>
    ensures { OnOk result (tables.new.items ≡ after_change change tables.old.items) }
{
    match change {
        Change::Create {
            table,
            engine,
            schema,
        } => create(alloc, tables, table, engine, schema),
        Change::Drop { table } => {
            drop_table(tables, table);
            Ok(())
        }
        Change::Insert { map, row } => insert(tables, map, row),
        Change::Update {
            map,
            place,
            before,
            after,
        } => update(tables, map, place, before, after),
        Change::Delete { map, place, before } => {
            delete(tables, map, place, before);
            Ok(())
        }
        Change::Install { .. } | Change::Uninstall { .. } => Ok(()),
    }
}

// Makes changes, in order.
fn make_all(alloc: Global, tables: &mut Vec<Table>, list: Changes) -> Result<(), AllocError>
    ensures { OnOk result (tables.new.items ≡ after_changes list tables.old.items) }
{
    for it in list.into_changes() {
        make(alloc, tables, it)?;
    }
    Ok(())
}

/// The tables of a log: what its transactions make of no tables, one after the other. It walks over all rows of a table at each
/// change, so it serves tests alone.
///
/// `AllocError` for want of memory.
pub fn tables_of(alloc: Global, log: Vec<Transaction>) -> Result<Tables, AllocError>
    ensures { IfOk result (λ tables. tables ≡ tables_after log.items) }
{
    let mut tables = Vec::new(alloc);
    for it in log {
        make_all(alloc, &mut tables, it.changes)?;
    }
    Ok(Tables::new(tables))
}
