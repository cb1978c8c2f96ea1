//! Logs by hand, and the tables that they have.

use crate::{Table, tables_of};
use row_format::{
    Change, Changes, Column, Columns, Kind, Name, Row, Schema, TableMap, Text, Transaction, Value,
};
use std::alloc::{AllocError, Global};
use std::process::Abort;
use std::test::Fail;

fn name(rt: &impl Abort, alloc: Global, bytes: &[u8]) -> Result<Name, AllocError> {
    match Name::new(bytes.to_vec(alloc)?) {
        Ok(name) => Ok(name),
        Err(_) => rt.abort(),
    }
}

// A table's columns: k BIGINT, v VARCHAR(10), and k the key where it is asked for.
fn schema(rt: &impl Abort, alloc: Global, keyed: bool) -> Result<Schema, AllocError> {
    let mut columns = Vec::new(alloc);
    columns.push(Column {
        name: name(rt, alloc, b"k")?,
        kind: Kind::BigInt,
        nullable: false,
    })?;
    columns.push(Column {
        name: name(rt, alloc, b"v")?,
        kind: Kind::VarChar(10),
        nullable: true,
    })?;
    Ok(Schema {
        columns: Columns::new(columns),
        key: if keyed { Some(0) } else { None },
    })
}

fn row(alloc: Global, key: i64, text: &[u8]) -> Result<Row, AllocError> {
    let mut values = Vec::new(alloc);
    values.push(Value::Int(key))?;
    values.push(Value::Text(Text::new(text.to_vec(alloc)?)))?;
    Ok(Row::new(values))
}

fn create(
    rt: &impl Abort,
    alloc: Global,
    table: &[u8],
    engine: &[u8],
    keyed: bool,
) -> Result<Change, AllocError> {
    Ok(Change::Create {
        table: name(rt, alloc, table)?,
        engine: name(rt, alloc, engine)?,
        schema: schema(rt, alloc, keyed)?,
    })
}

fn insert(
    rt: &impl Abort,
    alloc: Global,
    table: &[u8],
    keyed: bool,
    key: i64,
    text: &[u8],
) -> Result<Change, AllocError> {
    let map = TableMap {
        table: name(rt, alloc, table)?,
        schema: schema(rt, alloc, keyed)?,
    };
    let row = row(alloc, key, text)?;
    Ok(Change::Insert { map, row })
}

fn map(rt: &impl Abort, alloc: Global, table: &[u8], keyed: bool) -> Result<TableMap, AllocError> {
    Ok(TableMap {
        table: name(rt, alloc, table)?,
        schema: schema(rt, alloc, keyed)?,
    })
}

fn update(
    alloc: Global,
    map: TableMap,
    place: u32,
    before: (i64, u8),
    after: (i64, u8),
) -> Result<Change, AllocError> {
    Ok(Change::Update {
        map,
        place,
        before: row(alloc, before.0, &[before.1])?,
        after: row(alloc, after.0, &[after.1])?,
    })
}

fn delete(
    alloc: Global,
    map: TableMap,
    place: u32,
    before: (i64, u8),
) -> Result<Change, AllocError> {
    Ok(Change::Delete {
        map,
        place,
        before: row(alloc, before.0, &[before.1])?,
    })
}

// Changes of t by key: of the six Updates and Deletes, those of a row that is not there, or to the key of another row, change nothing.
fn changes_by_key(rt: &impl Abort, alloc: Global) -> Result<Vec<Change>, AllocError> {
    let mut changes = Vec::new(alloc);
    for (place, before, after) in [
        (0, (2, b'b'), (5, b'e')),
        (0, (1, b'a'), (5, b'f')),
        (0, (1, b'z'), (1, b'q')),
    ] {
        changes.push(update(alloc, map(rt, alloc, b"t", true)?, place, before, after)?)?;
    }
    changes.push(delete(alloc, map(rt, alloc, b"t", true)?, 0, (7, b'g'))?)?;
    changes.push(delete(alloc, map(rt, alloc, b"t", true)?, 0, (1, b'a'))?)?;
    changes.push(insert(rt, alloc, b"t", true, 3, b"c")?)?;
    changes.push(update(alloc, map(rt, alloc, b"t", true)?, 0, (5, b'e'), (2, b'd'))?)?;
    Ok(changes)
}

// Changes of u by place, of which two do not apply, a table that is dropped twice, and an engine that is installed no more.
fn changes_by_place(rt: &impl Abort, alloc: Global) -> Result<Vec<Change>, AllocError> {
    let mut changes = Vec::new(alloc);
    for (place, before, after) in [(1, (2, b'x'), (3, b'w')), (0, (2, b'x'), (4, b'v'))] {
        changes.push(update(alloc, map(rt, alloc, b"u", false)?, place, before, after)?)?;
    }
    for (place, before) in [(0, (2, b'y')), (5, (3, b'w'))] {
        changes.push(delete(alloc, map(rt, alloc, b"u", false)?, place, before)?)?;
    }
    changes.push(create(rt, alloc, b"w", b"J", true)?)?;
    changes.push(insert(rt, alloc, b"w", true, 1, b"z")?)?;
    for _ in 0..2 {
        changes.push(Change::Drop {
            table: name(rt, alloc, b"w")?,
        })?;
    }
    changes.push(Change::Uninstall {
        name: name(rt, alloc, b"J")?,
    })?;
    Ok(changes)
}

// A log: t with a key in J and u without one in P; a second t, a key that is there, a map of another schema and a table that is not
// there change nothing.
fn log(rt: &impl Abort, alloc: Global) -> Result<Vec<Transaction>, AllocError> {
    let mut first = Vec::new(alloc);
    first.push(Change::Install {
        name: name(rt, alloc, b"J")?,
    })?;
    first.push(create(rt, alloc, b"t", b"J", true)?)?;
    first.push(create(rt, alloc, b"t", b"P", false)?)?;
    first.push(insert(rt, alloc, b"t", true, 2, b"b")?)?;
    let mut second = Vec::new(alloc);
    second.push(create(rt, alloc, b"u", b"P", false)?)?;
    second.push(insert(rt, alloc, b"t", true, 1, b"a")?)?;
    second.push(insert(rt, alloc, b"t", true, 2, b"c")?)?;
    second.push(insert(rt, alloc, b"t", false, 3, b"d")?)?;
    second.push(insert(rt, alloc, b"u", false, 2, b"y")?)?;
    second.push(insert(rt, alloc, b"u", false, 2, b"x")?)?;
    second.push(insert(rt, alloc, b"w", false, 1, b"z")?)?;
    let mut log = Vec::new(alloc);
    log.push(Transaction {
        xid: 1,
        changes: Changes::new(first),
    })?;
    log.push(Transaction {
        xid: 2,
        changes: Changes::new(second),
    })?;
    Ok(log)
}

// The keys of a table's rows, and the first letters of their texts, must be these.
fn has_rows(rt: &impl Abort, table: &Table, rows: &[(i64, u8)]) {
    let found = table.rows.as_slice();
    assert_eq!(rt; found.len(), rows.len());
    for (row, (key, letter)) in found.iter().zip(rows) {
        match row.values() {
            [Value::Int(k), Value::Text(v)] => {
                assert_eq!(rt; *k, *key);
                assert!(rt; v.as_bytes() == [*letter].as_slice(), "row of {key}");
            }
            _ => rt.abort(),
        }
    }
}

#[test]
fn rows_are_changed_and_taken_out(rt: HostRuntime) -> Result<(), Fail> {
    let mut log = log(&rt, rt.alloc())?;
    log.push(Transaction {
        xid: 3,
        changes: Changes::new(changes_by_key(&rt, rt.alloc())?),
    })?;
    log.push(Transaction {
        xid: 4,
        changes: Changes::new(changes_by_place(&rt, rt.alloc())?),
    })?;
    let tables = tables_of(rt.alloc(), log)?;
    match tables.as_slice() {
        [t, u] => {
            has_rows(&rt, t, &[(2, b'd'), (3, b'c')]);
            has_rows(&rt, u, &[(3, b'w')]);
        }
        _ => rt.abort(),
    }
    Ok(())
}

#[test]
fn tables_are_those_of_a_log(rt: HostRuntime) -> Result<(), Fail> {
    let log = log(&rt, rt.alloc())?;
    let tables = tables_of(rt.alloc(), log)?;
    match tables.as_slice() {
        [t, u] => {
            assert!(rt; t.definition.table.as_bytes() == b"t".as_slice());
            assert!(rt; t.definition.engine.as_bytes() == b"J".as_slice());
            has_rows(&rt, t, &[(1, b'a'), (2, b'b')]);
            assert!(rt; u.definition.table.as_bytes() == b"u".as_slice());
            has_rows(&rt, u, &[(2, b'y'), (2, b'x')]);
        }
        _ => rt.abort(),
    }
    Ok(())
}
