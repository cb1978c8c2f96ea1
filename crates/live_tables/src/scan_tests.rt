//! Rows by place and by key: in key order or as they were inserted, behind what is pending.
ghost use Rattle.std.specs.Prelude.{◌≡◌, OnOk};
ghost use Rattle.live_tables.specs.Alone.{IsAlone};

use crate::LiveTables;
use crate::tests::{commit, create, insert, is_done, map, name, pair, pairs};
use crate::trail::Trail;
use row_format::{Change, Name, Row, Schema, Value};
use std::alloc::{AllocError, Global};
use std::process::Abort;
use std::test::Fail;

// The same columns, and no key.
fn keyless(rt: &impl Abort, alloc: Global) -> Result<Schema, AllocError> {
    let schema = pairs(rt, alloc)?;
    Ok(Schema {
        columns: schema.columns,
        key: None,
    })
}

// The number of a row; 0 where there is none.
fn number_of(rt: &impl Abort, row: Option<&Row>) -> i64 {
    match row {
        Some(row) => match row.values() {
            [Value::Int(n), _] => *n,
            _ => rt.abort(),
        },
        None => 0,
    }
}

fn place_of(rt: &impl Abort, n: usize) -> u32 {
    match u32::try_from(n) {
        Ok(place) => place,
        Err(_) => rt.abort(),
    }
}

// The rows of the table stand in this order, and there are no more.
fn has_rows(rt: &impl Abort, tables: &LiveTables, table: &Name, numbers: &[i64]) {
    assert_eq!(rt; tables.records(table), numbers.len() as u64);
    for (place, number) in numbers.iter().enumerate() {
        let row = tables.row_at(table, place_of(rt, place));
        assert_eq!(rt; number_of(rt, row), *number);
    }
    assert!(rt; tables.row_at(table, place_of(rt, numbers.len())).is_none());
}

// Behind each of these numbers stands the next, and behind the last none.
fn has_keys(
    rt: &impl Abort,
    tables: &LiveTables,
    table: &Name,
    numbers: &[i64],
) -> Result<(), AllocError> {
    let mut last = i64::MIN;
    for number in numbers {
        let next = tables.row_above(table, &Value::Int(last))?;
        assert_eq!(rt; number_of(rt, next), *number);
        last = *number;
    }
    assert!(rt; tables.row_above(table, &Value::Int(last))?.is_none());
    Ok(())
}

fn fill(
    rt: &impl Abort,
    alloc: Global,
    tables: &mut LiveTables,
    table: &Name,
    numbers: &[i64],
) -> Result<(), AllocError>
    requires { IsAlone 1 tables.old.state }
    ensures { IsAlone 1 tables.new.state }
{
    for number in numbers {
        let row = pair(alloc, *number, b"x")?;
        is_done(rt, insert(rt, tables, table, &row));
    }
    Ok(())
}

#[test]
fn rows_with_keys_stand_in_key_order(rt: HostRuntime) -> Result<(), Fail> {
    let alloc = rt.alloc();
    let t = name(&rt, alloc, b"t")?;
    let mut tables = LiveTables::new(alloc);
    let engine = name(&rt, alloc, b"J")?;
    is_done(
        &rt,
        create(&rt, &mut tables, &engine, &t, &pairs(&rt, alloc)?),
    );
    has_rows(&rt, &tables, &t, &[]);
    has_keys(&rt, &tables, &t, &[])?;
    fill(&rt, alloc, &mut tables, &t, &[5, 1, 3])?;
    has_rows(&rt, &tables, &t, &[1, 3, 5]);
    commit(&rt, &mut tables, 7, 1)?;
    fill(&rt, alloc, &mut tables, &t, &[9, 2, -4])?;
    has_rows(&rt, &tables, &t, &[-4, 1, 2, 3, 5, 9]);
    has_keys(&rt, &tables, &t, &[-4, 1, 2, 3, 5, 9])?;
    let between = tables.row_above(&t, &Value::Int(4))?;
    assert_eq!(rt; number_of(&rt, between), 5);
    tables.rollback(1);
    has_rows(&rt, &tables, &t, &[1, 3, 5]);
    has_keys(&rt, &tables, &t, &[1, 3, 5])?;
    Ok(())
}

#[test]
fn rows_without_a_key_stand_as_they_were_inserted(rt: HostRuntime) -> Result<(), Fail> {
    let alloc = rt.alloc();
    let t = name(&rt, alloc, b"t")?;
    let mut tables = LiveTables::new(alloc);
    let engine = name(&rt, alloc, b"J")?;
    is_done(
        &rt,
        create(&rt, &mut tables, &engine, &t, &keyless(&rt, alloc)?),
    );
    fill(&rt, alloc, &mut tables, &t, &[5, 1])?;
    commit(&rt, &mut tables, 7, 1)?;
    fill(&rt, alloc, &mut tables, &t, &[3, 1])?;
    has_rows(&rt, &tables, &t, &[5, 1, 3, 1]);
    assert!(rt; tables.row_above(&t, &Value::Int(1))?.is_none());
    let u = name(&rt, alloc, b"u")?;
    assert!(rt; tables.row_at(&u, 0).is_none());
    Ok(())
}

// A table with the rows 1, 2 and 3, of which 1 becomes 5, and 2 goes; then 4 comes.
fn edits(rt: &impl Abort, alloc: Global) -> Result<Vec<Change>, AllocError> {
    let mut changes = crate::tests::made(rt, alloc)?;
    let mut more = crate::tests::edited(rt, alloc)?;
    changes.append(&mut more)?;
    changes.push(Change::Insert {
        map: map(rt, alloc)?,
        row: pair(alloc, 4, b"a")?,
    })?;
    Ok(changes)
}

#[test]
fn a_row_is_walked_back_past_updates_and_deletes(rt: HostRuntime) -> Result<(), Fail> {
    let alloc = rt.alloc();
    let t = name(&rt, alloc, b"t")?;
    let changes = edits(&rt, alloc)?;
    let none = Trail {
        tables: &[],
        done: &[],
        opens: &[],
    };
    for (place, number) in [3, 4, 5, 0].iter().enumerate() {
        match none.walk_back(&changes, &t, Some(0), place) {
            Ok(row) => assert_eq!(rt; number_of(&rt, row), *number),
            Err(_) => assert!(rt; false),
        }
    }
    Ok(())
}
