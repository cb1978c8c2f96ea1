//! The committed tables, and the changes that go into them.
ghost use Rattle.std.specs.Prelude.{◌≡◌, ◌≤◌, ◌<◌, ◌^◌, IfOk, OnOk, OnErr, IfErr, position, length, sum_by, true, ◌+◌, ◌++◌};
ghost use Rattle.std.specs.Vec.{vec_len, vec_capacity};
ghost use Rattle.row_format.specs.declared.change.Change.TheVariants.{Create, Drop, Insert, Update, Delete};
ghost use Rattle.std.specs.Option.{option_copied};
ghost use Rattle.log_tables.specs.Tables.{is_named, table_named};
ghost use Rattle.engine_api.specs.Live.{schema_found, rows_found, row_found, live_bytes};
ghost use Rattle.log_tables.specs.Changes.{after_change, after_changes, applies, all_apply};
ghost use Rattle.live_tables.specs.Bytes.{capped};
ghost use Rattle.live_tables.specs.Folds.{AreMade, row_in, bytes_found, change_bytes, freed};
ghost use Rattle.live_tables.specs.Live.{most_bytes, CanMake};
ghost use Rattle.live_tables.specs.Places.{below};

use crate::bytes::{change_len, row_len};
use crate::stored::Stored;
use log_tables::Definition;
use row_format::{Change, Name, Row, Schema, TableMap, Value};
use std::alloc::Global;

/// Where the first table of this name stands.
pub(crate) fn find(tables: &[Stored], name: &Name) -> Option<usize>
    ensures { result ≡ position (is_named name.now) tables.now }
{
    tables.iter().position(|it| it.is_named(name))
}

/// The row with this key of the first table of this name; None where there is none, or the table has no key.
pub(crate) fn row<'a>(tables: &'a [Stored], name: &Name, key: &Value) -> Option<&'a Row>
    ensures { option_copied result ≡ row_found (table_named name.now tables.now) key.now }
{
    match find(tables, name) {
        Some(i) => tables[i].row(key),
        None => None,
    }
}

/// The schema of the first table of this name.
pub(crate) fn schema<'a>(tables: &'a [Stored], name: &Name) -> Option<&'a Schema>
    ensures { option_copied result ≡ schema_found (table_named name.now tables.now) }
{
    match find(tables, name) {
        Some(i) => Some(tables[i].schema()),
        None => None,
    }
}

/// How many rows the first table of this name has.
pub(crate) fn rows(tables: &[Stored], name: &Name) -> usize
    ensures value { result ≡ length (rows_found (table_named name.now tables.now)) }
    ensures small { result < 2 ^ 63 }
{
    match find(tables, name) {
        Some(i) => tables[i].len(),
        None => 0,
    }
}

/// The row at a place of the first table of this name.
pub(crate) fn row_at<'a>(tables: &'a [Stored], name: &Name, place: usize) -> Option<&'a Row>
    ensures { option_copied result ≡ row_in place (table_named name.now tables.now) }
{
    match find(tables, name) {
        Some(i) => tables[i].row_at(place),
        None => None,
    }
}

/// How many rows of the first table of this name have lower values in a column.
pub(crate) fn below(tables: &[Stored], name: &Name, column: usize, key: &Value) -> usize
    ensures value { result
        ≡ below column key.now (rows_found (table_named name.now tables.now)) }
    ensures small { result < 2 ^ 63 }
{
    match find(tables, name) {
        Some(i) => tables[i].below(column, key),
        None => 0,
    }
}

/// How many bytes the first table of this name has.
pub(crate) fn bytes(tables: &[Stored], name: &Name) -> u64
    ensures { result ≡ capped (bytes_found (table_named name.now tables.now)) }
{
    match find(tables, name) {
        Some(i) => tables[i].bytes(),
        None => 0,
    }
}

// How many bytes a change takes from the tables.
fn freed_len(tables: &[Stored], change: &Change) -> u64
    ensures { result ≡ capped (freed change.now tables.now) }
{
    match change {
        Change::Drop { table } => bytes(tables, table),
        Change::Update { before, .. } => row_len(before),
        Change::Delete { before, .. } => row_len(before),
        _ => 0,
    }
}

// The change that makes a table.
fn creation(it: Definition) -> Change
    ensures { result ≡ Create it.table it.engine it.schema }
{
    Change::Create {
        table: it.table,
        engine: it.engine,
        schema: it.schema,
    }
}

// Adds a table with no rows, where its name is free.
fn create(tables: &mut Vec<Stored>, alloc: Global, definition: Definition) -> Result<(), Change>
    ensures ok { OnOk result (tables.new.items ≡ after_change
        (Create definition.table definition.engine definition.schema) tables.old.items) }
    ensures none { OnErr result (tables.new.items ≡ tables.old.items) }
    ensures given_back { IfErr result
        (λ it. it ≡ Create definition.table definition.engine definition.schema) }
{
    if find(tables, &definition.table).is_some() {
        return Ok(());
    }
    match tables.push(Stored::new(alloc, definition)) {
        Ok(()) => Ok(()),
        Err(e) => Err(creation(e.value.into_definition())),
    }
}

// Adds a row to its table, where it was made for the table's schema and the key is free.
fn insert(tables: &mut Vec<Stored>, map: TableMap, row: Row) -> Result<(), Change>
    ensures ok { OnOk result (tables.new.items ≡ after_change (Insert map row) tables.old.items) }
    ensures none { OnErr result (tables.new.items ≡ tables.old.items) }
    ensures given_back { IfErr result (λ it. it ≡ Insert map row) }
{
    match find(tables, &map.table) {
        Some(i) => tables[i].insert(map, row),
        None => Ok(()),
    }
}

// Takes out a table.
fn drop_table(tables: &mut Vec<Stored>, table: &Name)
    ensures { tables.new.items ≡ after_change (Drop table.now) tables.old.items }
{
    if let Some(i) = find(tables, table) {
        tables.remove(i);
    }
}

// Puts a row in place of another of its table, where that is there.
fn update(tables: &mut Vec<Stored>, map: TableMap, place: u32, before: Row, after: Row)
    ensures { tables.new.items ≡ after_change (Update map place before after) tables.old.items }
{
    if let Some(i) = find(tables, &map.table) {
        tables[i].update(&map, place, &before, after);
    }
}

// Takes a row out of its table, where it is there.
fn delete(tables: &mut Vec<Stored>, map: TableMap, place: u32, before: Row)
    ensures { tables.new.items ≡ after_change (Delete map place before) tables.old.items }
{
    if let Some(i) = find(tables, &map.table) {
        tables[i].delete(&map, place, &before);
    }
}

// Makes a change. Without memory it is handed back, and all is as it was.
fn make(tables: &mut Vec<Stored>, alloc: Global, change: Change) -> Result<(), Change>
    ensures ok { OnOk result (tables.new.items ≡ after_change change tables.old.items) }
    ensures none { OnErr result (tables.new.items ≡ tables.old.items) }
    ensures given_back { IfErr result (λ it. it ≡ change) }
{
    match change {
        Change::Install { .. } | Change::Uninstall { .. } => Ok(()),
        Change::Create {
            table,
            engine,
            schema,
        } => {
            let definition = Definition {
                table,
                engine,
                schema,
            };
            create(tables, alloc, definition)
        }
        Change::Drop { table } => {
            drop_table(tables, &table);
            Ok(())
        }
        Change::Insert { map, row } => insert(tables, map, row),
        Change::Update {
            map,
            place,
            before,
            after,
        } => {
            update(tables, map, place, before, after);
            Ok(())
        }
        Change::Delete { map, place, before } => {
            delete(tables, map, place, before);
            Ok(())
        }
    }
}

// Makes a change that applies, counts the bytes of the tables, and answers how many it adds. Without memory the change is handed back, and
// all is as it was.
fn make_counted(
    tables: &mut Vec<Stored>,
    alloc: Global,
    change: Change,
    committed: &mut u64,
) -> Result<u64, Change>
    requires made { AreMade tables.old.items }
    requires fit { applies change tables.old.items ≡ true }
    requires counted { committed.old ≡ live_bytes tables.old.items }
    requires small { committed.old + change_bytes change ≤ most_bytes }
    ensures ok { OnOk result (tables.new.items ≡ after_change change tables.old.items) }
    ensures counted { committed.new ≡ live_bytes tables.new.items }
    ensures added { IfOk result (λ more. more ≡ change_bytes change) }
    ensures within { IfOk result (λ more. committed.new ≤ committed.old + more) }
    ensures none { OnErr result (tables.new.items ≡ tables.old.items) }
    ensures same { OnErr result (committed.new ≡ committed.old) }
    ensures given_back { IfErr result (λ it. it ≡ change) }
{
    let more = change_len(&change);
    let less = freed_len(tables, &change);
    make(tables, alloc, change)?;
    *committed = *committed + more - less;
    Ok(more)
}

/// Makes changes in order, as many as there is memory for, and answers how many bytes those added; the others stay.
pub(crate) fn make_some(
    tables: &mut Vec<Stored>,
    alloc: Global,
    changes: &mut Vec<Change>,
    committed: &mut u64,
) -> u64
    requires { CanMake tables.old.items changes.old.items committed.old }
    ensures same { after_changes changes.new.items tables.new.items
        ≡ after_changes changes.old.items tables.old.items }
    ensures capacity { vec_capacity changes.new ≡ vec_capacity changes.old }
    ensures fewer { vec_len changes.new ≤ vec_len changes.old }
    ensures rest { CanMake tables.new.items changes.new.items committed.new }
    ensures added { result + sum_by change_bytes changes.new.items
        ≡ sum_by change_bytes changes.old.items }
    ensures within { committed.new ≤ committed.old + result }
{
    let mut added = 0u64;
    changes.reverse();
    while let Some(change) = changes.pop() {
        match make_counted(tables, alloc, change, committed) {
            Ok(more) => added += more,
            Err(change) => {
                changes.push_reserved(change);
                break;
            }
        }
    }
    changes.reverse();
    added
}

/// Adds changes at the end of a list that has room for them.
pub(crate) fn append_reserved(done: &mut Vec<Change>, mut changes: Vec<Change>)
    requires { vec_len done.old + vec_len changes ≤ vec_capacity done.old }
    ensures items { done.new.items ≡ done.old.items ++ changes.items }
    ensures len { vec_len done.new ≡ vec_len done.old + vec_len changes }
    ensures capacity { vec_capacity done.old ≤ vec_capacity done.new }
{
    match done.append(&mut changes) {
        Ok(()) => {}
        Err(_) => unreachable!(),
    }
}
