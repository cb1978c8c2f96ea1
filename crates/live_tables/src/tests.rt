//! Transactions by hand, one at a time, and what is left in the tables.
ghost use Rattle.std.specs.Prelude.{◌≡◌, None, OnOk};
ghost use Rattle.engine_api.specs.Live.{live_schema, IsLive, IsRowFor};
ghost use Rattle.live_tables.specs.Alone.{IsAlone, IsIdle};

use crate::LiveTables;
use engine_api::{Code, EngineFault};
use log_tables::Prepared;
use row_format::{
    Change, Changes, Column, Columns, Kind, Name, Row, Schema, TableMap, Text, Value, check_row,
};
use std::alloc::{AllocError, Global};
use std::process::Abort;
use std::test::Fail;

pub(crate) fn name(rt: &impl Abort, alloc: Global, bytes: &[u8]) -> Result<Name, AllocError> {
    match Name::new(bytes.to_vec(alloc)?) {
        Ok(name) => Ok(name),
        Err(_) => rt.abort(),
    }
}

// k BIGINT, the key, and v VARCHAR(10).
pub(crate) fn pairs(rt: &impl Abort, alloc: Global) -> Result<Schema, AllocError> {
    let mut columns = Vec::new(alloc);
    columns.push(Column {
        name: name(rt, alloc, b"k")?,
        kind: Kind::BigInt,
        nullable: false,
    })?;
    columns.push(Column {
        name: name(rt, alloc, b"v")?,
        kind: Kind::VarChar(10),
        nullable: true,
    })?;
    Ok(Schema {
        columns: Columns::new(columns),
        key: Some(0),
    })
}

pub(crate) fn pair(alloc: Global, key: i64, text: &[u8]) -> Result<Row, AllocError> {
    let mut values = Vec::new(alloc);
    values.push(Value::Int(key))?;
    values.push(Value::Text(Text::new(text.to_vec(alloc)?)))?;
    Ok(Row::new(values))
}

// The row must be one for the live table.
fn has_place_for(rt: &impl Abort, tables: &LiveTables, table: &Name, row: &Row)
    ensures { IsRowFor (live_schema table.now tables.now.state) row.now }
{
    let Some(schema) = tables.schema(table) else {
        rt.abort()
    };
    match check_row(schema, row) {
        Ok(()) => {}
        Err(_) => rt.abort(),
    }
}

// No table of this name may be there.
fn is_free(rt: &impl Abort, tables: &LiveTables, table: &Name)
    ensures { live_schema table.now tables.now.state ≡ None }
{
    match tables.schema(table) {
        Some(_) => rt.abort(),
        None => {}
    }
}

pub(crate) fn create(
    rt: &impl Abort,
    tables: &mut LiveTables,
    engine: &Name,
    table: &Name,
    schema: &Schema,
) -> Result<(), EngineFault>
    requires { IsAlone 1 tables.old.state }
    ensures { IsAlone 1 tables.new.state }
{
    is_free(rt, tables, table);
    match tables.create(1, engine, table, schema) {
        Ok(()) => Ok(()),
        Err(e) => Err(e),
    }
}

pub(crate) fn insert(
    rt: &impl Abort,
    tables: &mut LiveTables,
    table: &Name,
    row: &Row,
) -> Result<(), EngineFault>
    requires { IsAlone 1 tables.old.state }
    ensures { IsAlone 1 tables.new.state }
{
    has_place_for(rt, tables, table, row);
    match tables.insert(1, table, row) {
        Ok(()) => Ok(()),
        Err(e) => Err(e),
    }
}

// A table of this name must be there.
fn is_there(rt: &impl Abort, tables: &LiveTables, table: &Name)
    ensures { IsLive table.now tables.now.state }
{
    match tables.schema(table) {
        Some(_) => {}
        None => rt.abort(),
    }
}

fn drop_table(rt: &impl Abort, tables: &mut LiveTables, table: &Name)
    requires { IsAlone 1 tables.old.state }
    ensures { IsAlone 1 tables.new.state }
{
    is_there(rt, tables, table);
    is_done(rt, tables.drop_table(1, table));
}

// Prepares and commits what is pending; between the two the xid must be told.
pub(crate) fn commit(
    rt: &impl Abort,
    tables: &mut LiveTables,
    xid: u64,
    number: u64,
) -> Result<(), AllocError>
    requires { IsAlone 1 tables.old.state }
    ensures { OnOk result (IsAlone 1 tables.new.state) }
{
    tables.reserve()?;
    tables.prepare(1, xid);
    assert_eq!(rt; tables.xid(1), Some(xid));
    let xids = tables.xids()?;
    assert!(rt; xids.as_slice() == [xid].as_slice());
    tables.commit(1, xid, number);
    Ok(())
}

// The text of the row with this key; None where there is none.
fn text_at<'a>(
    rt: &impl Abort,
    tables: &'a LiveTables,
    table: &Name,
    key: i64,
) -> Option<&'a [u8]> {
    match tables.row(table, &Value::Int(key))?.values() {
        [_, Value::Text(text)] => Some(text.as_bytes()),
        _ => rt.abort(),
    }
}

pub(crate) fn is_done(rt: &impl Abort, answer: Result<(), EngineFault>) {
    assert!(rt; answer == Ok(()));
}

#[test]
fn rows_are_there_until_they_are_rolled_back(rt: HostRuntime) -> Result<(), Fail> {
    let alloc = rt.alloc();
    let t = name(&rt, alloc, b"t")?;
    let mut tables = LiveTables::new(alloc);
    let schema = pairs(&rt, alloc)?;
    is_done(
        &rt,
        create(&rt, &mut tables, &name(&rt, alloc, b"J")?, &t, &schema),
    );
    is_done(&rt, insert(&rt, &mut tables, &t, &pair(alloc, 2, b"b")?));
    is_done(&rt, insert(&rt, &mut tables, &t, &pair(alloc, 1, b"a")?));
    let again = insert(&rt, &mut tables, &t, &pair(alloc, 2, b"c")?);
    assert!(rt; again == Err(EngineFault::Code(Code::Duplicate)));
    assert_eq!(rt; tables.records(&t), 2);
    assert_eq!(rt; tables.changes(1).len(), 3);
    commit(&rt, &mut tables, 7, 1)?;
    assert_eq!(rt; tables.changes(1).len(), 0);
    assert_eq!(rt; tables.last(), 1);
    is_done(&rt, insert(&rt, &mut tables, &t, &pair(alloc, 3, b"d")?));
    assert_eq!(rt; tables.records(&t), 3);
    assert!(rt; text_at(&rt, &tables, &t, 3) == Some(b"d".as_slice()));
    tables.rollback(1);
    assert_eq!(rt; tables.records(&t), 2);
    assert!(rt; text_at(&rt, &tables, &t, 3).is_none());
    assert!(rt; text_at(&rt, &tables, &t, 2) == Some(b"b".as_slice()));
    assert!(rt; tables.is_taken(&t, &pair(alloc, 1, b"z")?));
    Ok(())
}

#[test]
fn what_was_left_waits_for_a_number_above_the_last(rt: HostRuntime) -> Result<(), Fail> {
    let alloc = rt.alloc();
    let mut tables = LiveTables::new(alloc);
    tables.load_last(5);
    let changes = Changes::new(Vec::new(alloc));
    tables.load_prepared(Prepared { xid: 9, changes })?;
    assert_eq!(rt; tables.last(), 5);
    let xids = tables.xids()?;
    assert!(rt; xids.as_slice() == [9].as_slice());
    assert!(rt; !tables.can_commit(9, 5));
    assert!(rt; tables.can_commit(9, 6));
    assert!(rt; !tables.can_commit(8, 6));
    Ok(())
}

// Reads back what an earlier run left prepared under 9.
fn leave(tables: &mut LiveTables, changes: Vec<Change>) -> Result<(), AllocError>
    requires { IsIdle tables.old.state }
{
    let changes = Changes::new(changes);
    tables.load_prepared(Prepared { xid: 9, changes })
}

// Reads back what an earlier run left prepared under 9, and commits it.
fn replay(
    rt: &impl Abort,
    tables: &mut LiveTables,
    number: u64,
    changes: Vec<Change>,
) -> Result<(), AllocError>
    requires { IsIdle tables.old.state }
    ensures { OnOk result (IsIdle tables.new.state) }
{
    let changes = Changes::new(changes);
    tables.load_prepared(Prepared { xid: 9, changes })?;
    if !tables.can_commit(9, number) {
        rt.abort()
    }
    tables.commit_left(9, number);
    Ok(())
}

pub(crate) fn map(rt: &impl Abort, alloc: Global) -> Result<TableMap, AllocError> {
    Ok(TableMap {
        table: name(rt, alloc, b"t")?,
        schema: pairs(rt, alloc)?,
    })
}

// Takes a row out of the table t.
fn delete(rt: &impl Abort, alloc: Global, key: i64, text: &[u8]) -> Result<Change, AllocError> {
    Ok(Change::Delete {
        map: map(rt, alloc)?,
        place: 0,
        before: pair(alloc, key, text)?,
    })
}

// The table t, with the rows 1, 2 and 3.
pub(crate) fn made(rt: &impl Abort, alloc: Global) -> Result<Vec<Change>, AllocError> {
    let mut changes = Vec::new(alloc);
    changes.push(Change::Create {
        table: name(rt, alloc, b"t")?,
        engine: name(rt, alloc, b"J")?,
        schema: pairs(rt, alloc)?,
    })?;
    for key in 1..4 {
        changes.push(Change::Insert {
            map: map(rt, alloc)?,
            row: pair(alloc, key, b"a")?,
        })?;
    }
    Ok(changes)
}

// Row 1 becomes row 5, and row 2 goes.
pub(crate) fn edited(rt: &impl Abort, alloc: Global) -> Result<Vec<Change>, AllocError> {
    let mut changes = Vec::new(alloc);
    changes.push(Change::Update {
        map: map(rt, alloc)?,
        place: 0,
        before: pair(alloc, 1, b"a")?,
        after: pair(alloc, 5, b"b")?,
    })?;
    changes.push(delete(rt, alloc, 2, b"a")?)?;
    Ok(changes)
}

fn dropped(rt: &impl Abort, alloc: Global) -> Result<Vec<Change>, AllocError> {
    let mut changes = Vec::new(alloc);
    changes.push(Change::Drop {
        table: name(rt, alloc, b"t")?,
    })?;
    Ok(changes)
}

#[test]
fn changes_of_an_earlier_run_are_made(rt: HostRuntime) -> Result<(), Fail> {
    let alloc = rt.alloc();
    let t = name(&rt, alloc, b"t")?;
    let mut tables = LiveTables::new(alloc);
    replay(&rt, &mut tables, 1, made(&rt, alloc)?)?;
    replay(&rt, &mut tables, 2, edited(&rt, alloc)?)?;
    assert_eq!(rt; tables.records(&t), 2);
    assert!(rt; text_at(&rt, &tables, &t, 5) == Some(b"b".as_slice()));
    assert!(rt; text_at(&rt, &tables, &t, 1).is_none());
    assert!(rt; text_at(&rt, &tables, &t, 2).is_none());
    replay(&rt, &mut tables, 3, dropped(&rt, alloc)?)?;
    assert_eq!(rt; tables.records(&t), 0);
    assert!(rt; tables.schema(&t).is_none());
    Ok(())
}

#[test]
fn a_row_that_differs_is_not_deleted(rt: HostRuntime) -> Result<(), Fail> {
    let alloc = rt.alloc();
    let mut tables = LiveTables::new(alloc);
    replay(&rt, &mut tables, 1, made(&rt, alloc)?)?;
    let mut changes = Vec::new(alloc);
    changes.push(delete(&rt, alloc, 1, b"b")?)?;
    leave(&mut tables, changes)?;
    assert!(rt; !tables.can_commit(9, 2));
    Ok(())
}

// Seven columns VARCHAR(255), and no key.
fn wide(rt: &impl Abort, alloc: Global) -> Result<Schema, AllocError> {
    let mut columns = Vec::new(alloc);
    for letter in *b"abcdefg" {
        columns.push(Column {
            name: name(rt, alloc, [letter].as_slice())?,
            kind: Kind::VarChar(255),
            nullable: false,
        })?;
    }
    Ok(Schema {
        columns: Columns::new(columns),
        key: None,
    })
}

fn wide_row(alloc: Global) -> Result<Row, AllocError> {
    let mut values = Vec::new(alloc);
    for _ in 0..7 {
        values.push(Value::Text(Text::new(vec![in alloc; b'x'; 255]?)))?;
    }
    Ok(Row::new(values))
}

// Inserts a row so many times.
fn fill(rt: &impl Abort, tables: &mut LiveTables, table: &Name, row: &Row, count: u64)
    requires { IsAlone 1 tables.old.state }
    ensures { IsAlone 1 tables.new.state }
{
    for _ in 0..count {
        is_done(rt, insert(rt, tables, table, row));
    }
}

// The table has 2 bytes for its name and 2 + 7 * 5 for its schema, a row 1 + 7 * 256. With 9,357 rows that is 16,777,140, of 16,777,216.
#[test]
fn tables_are_full_at_16_mib(rt: HostRuntime) -> Result<(), Fail> {
    let alloc = rt.alloc();
    let t = name(&rt, alloc, b"t")?;
    let mut tables = LiveTables::new(alloc);
    let schema = wide(&rt, alloc)?;
    is_done(
        &rt,
        create(&rt, &mut tables, &name(&rt, alloc, b"J")?, &t, &schema),
    );
    let row = wide_row(alloc)?;
    fill(&rt, &mut tables, &t, &row, 9357);
    assert_eq!(rt; tables.records(&t), 9357);
    let more = insert(&rt, &mut tables, &t, &row);
    assert!(rt; more == Err(EngineFault::Code(Code::Full)));
    assert_eq!(rt; tables.records(&t), 9357);
    Ok(())
}

// The key column of the table of this name.
fn key_of(rt: &impl Abort, tables: &LiveTables, table: &Name) -> Option<u8> {
    match tables.schema(table) {
        Some(schema) => schema.key,
        None => rt.abort(),
    }
}

#[test]
fn a_dropped_table_is_there_again_after_a_rollback(rt: HostRuntime) -> Result<(), Fail> {
    let alloc = rt.alloc();
    let t = name(&rt, alloc, b"t")?;
    let engine = name(&rt, alloc, b"J")?;
    let first = pairs(&rt, alloc)?;
    let second = wide(&rt, alloc)?;
    let mut tables = LiveTables::new(alloc);
    is_done(&rt, create(&rt, &mut tables, &engine, &t, &first));
    is_done(&rt, insert(&rt, &mut tables, &t, &pair(alloc, 1, b"a")?));
    commit(&rt, &mut tables, 7, 1)?;
    is_done(&rt, insert(&rt, &mut tables, &t, &pair(alloc, 2, b"b")?));
    drop_table(&rt, &mut tables, &t);
    assert!(rt; tables.schema(&t).is_none());
    is_done(&rt, create(&rt, &mut tables, &engine, &t, &second));
    is_done(&rt, insert(&rt, &mut tables, &t, &wide_row(alloc)?));
    assert_eq!(rt; tables.records(&t), 1);
    assert_eq!(rt; key_of(&rt, &tables, &t), None);
    assert_eq!(rt; tables.changes(1).len(), 4);
    tables.rollback(1);
    assert_eq!(rt; key_of(&rt, &tables, &t), Some(0));
    assert_eq!(rt; tables.records(&t), 1);
    assert!(rt; text_at(&rt, &tables, &t, 1) == Some(b"a".as_slice()));
    drop_table(&rt, &mut tables, &t);
    is_done(&rt, create(&rt, &mut tables, &engine, &t, &second));
    commit(&rt, &mut tables, 8, 2)?;
    assert_eq!(rt; key_of(&rt, &tables, &t), None);
    assert_eq!(rt; tables.records(&t), 0);
    Ok(())
}

// As above, the table has 76 bytes less than the limit; a table without rows has 39.
#[test]
fn a_dropped_table_leaves_its_bytes_until_it_is_rolled_back(rt: HostRuntime) -> Result<(), Fail> {
    let alloc = rt.alloc();
    let t = name(&rt, alloc, b"t")?;
    let engine = name(&rt, alloc, b"J")?;
    let schema = wide(&rt, alloc)?;
    let row = wide_row(alloc)?;
    let full = Err(EngineFault::Code(Code::Full));
    let mut tables = LiveTables::new(alloc);
    is_done(&rt, create(&rt, &mut tables, &engine, &t, &schema));
    fill(&rt, &mut tables, &t, &row, 3100);
    commit(&rt, &mut tables, 7, 1)?;
    fill(&rt, &mut tables, &t, &row, 3100);
    commit(&rt, &mut tables, 8, 2)?;
    fill(&rt, &mut tables, &t, &row, 3100);
    commit(&rt, &mut tables, 9, 3)?;
    fill(&rt, &mut tables, &t, &row, 57);
    assert!(rt; insert(&rt, &mut tables, &t, &row) == full);
    drop_table(&rt, &mut tables, &t);
    is_done(&rt, create(&rt, &mut tables, &engine, &t, &schema));
    fill(&rt, &mut tables, &t, &row, 100);
    assert_eq!(rt; tables.records(&t), 100);
    tables.rollback(1);
    assert_eq!(rt; tables.records(&t), 9300);
    fill(&rt, &mut tables, &t, &row, 57);
    assert!(rt; insert(&rt, &mut tables, &t, &row) == full);
    Ok(())
}
