//! Lists of records by hand: how many of them fit, one behind the other.

use crate::Record;
use crate::replay::Replay;
use log_tables::{Definition, Prepared};
use row_format::{Change, Changes, Column, Kind, Name, Row, Schema, TableMap, Value};
use std::alloc::{AllocError, Global};
use std::test::Fail;

// The position that no frame ends past.
const LIMIT: u32 = 2_147_483_647;

// A name of one letter.
fn name(alloc: Global, letter: u8) -> Result<Name, Fail> {
    match Name::new([letter].to_vec(alloc)?) {
        Ok(name) => Ok(name),
        Err(_) => Err(Fail::from("no name")),
    }
}

// The schema (k BIGINT), with k as the key or with none.
fn schema(alloc: Global, key: Option<u8>) -> Result<Schema, Fail> {
    let column = Column {
        name: name(alloc, b'k')?,
        kind: Kind::BigInt,
        nullable: false,
    };
    match Schema::new(vec![in alloc; column]?, key) {
        Ok(schema) => Ok(schema),
        Err(_) => Err(Fail::from("no schema")),
    }
}

fn row(alloc: Global, key: u8) -> Result<Row, AllocError> {
    Ok(Row::new(vec![in alloc; Value::Int(i64::from(key))]?))
}

fn table(alloc: Global, letter: u8, key: Option<u8>) -> Result<Record, Fail> {
    Ok(Record::SnapTable(Definition {
        table: name(alloc, letter)?,
        engine: name(alloc, b'J')?,
        schema: schema(alloc, key)?,
    }))
}

fn snap_row(alloc: Global, letter: u8, key: u8) -> Result<Record, Fail> {
    Ok(Record::SnapRow {
        table: name(alloc, letter)?,
        row: row(alloc, key)?,
    })
}

fn create(alloc: Global, letter: u8) -> Result<Change, Fail> {
    Ok(Change::Create {
        table: name(alloc, letter)?,
        engine: name(alloc, b'J')?,
        schema: schema(alloc, Some(0))?,
    })
}

fn insert(alloc: Global, letter: u8, made_for: Option<u8>, key: u8) -> Result<Change, Fail> {
    Ok(Change::Insert {
        map: TableMap {
            table: name(alloc, letter)?,
            schema: schema(alloc, made_for)?,
        },
        row: row(alloc, key)?,
    })
}

fn prepare(xid: u64, changes: Vec<Change>) -> Record {
    Record::Prepare(Prepared {
        xid,
        changes: Changes::new(changes),
    })
}

// The record that a letter stands for; a digit is a row of t with this key.
fn record_of(alloc: Global, letter: u8) -> Result<Record, Fail> {
    let record = match letter {
        b't' => table(alloc, b't', Some(0))?,
        b'u' => table(alloc, b'u', None)?,
        b'x' => snap_row(alloc, b'u', 1)?,
        b'n' => snap_row(alloc, b'n', 1)?,
        b'l' => Record::SnapLast { number: 5 },
        b'p' => {
            let made = create(alloc, b'w')?;
            let first = insert(alloc, b'w', Some(0), 2)?;
            let second = insert(alloc, b'w', Some(0), 1)?;
            prepare(7, vec![in alloc; made, first, second]?)
        }
        b'q' => {
            let first = insert(alloc, b't', Some(0), 4)?;
            let second = insert(alloc, b't', Some(0), 4)?;
            prepare(8, vec![in alloc; first, second]?)
        }
        b'o' => {
            let other = insert(alloc, b't', None, 4)?;
            prepare(9, vec![in alloc; other]?)
        }
        b'c' => Record::Commit { xid: 7, number: 6 },
        b'e' => Record::Commit { xid: 7, number: 5 },
        b'd' => Record::Commit { xid: 8, number: 7 },
        b'f' => Record::Commit { xid: 9, number: 8 },
        b'r' => Record::Rollback { xid: 7 },
        _ => snap_row(alloc, b't', letter)?,
    };
    Ok(record)
}

// The index of these records, as far as they fit; the frame of each ends at this position.
fn index_of(alloc: Global, letters: &str, end: u32) -> Result<(Replay, Vec<Record>), Fail> {
    let mut replay = Replay::new(alloc);
    let mut records = Vec::new(alloc);
    for letter in letters.as_bytes() {
        records.push(record_of(alloc, *letter)?)?;
        if !replay.take(records.as_slice(), end)? {
            records.pop();
            return Ok((replay, records));
        }
    }
    Ok((replay, records))
}

#[test]
fn records_fit_by_their_rules(rt: HostRuntime) -> Result<(), Fail> {
    for (letters, wanted) in [
        // Two tables; a name twice; a row of no table.
        ("tu1x", 4usize),
        ("tt", 1),
        ("n", 0),
        // A key twice, also behind rows out of order; a table with no key takes all.
        ("t11", 2),
        ("t531249", 7),
        ("t5312491", 7),
        ("t5312492", 7),
        ("t5312493", 7),
        ("t5312494", 7),
        ("t5312495", 7),
        ("t5312499", 7),
        ("t5312498", 8),
        ("uxx", 3),
        // A SnapLast twice, and behind a Commit.
        ("l", 1),
        ("ll", 1),
        ("pcl", 2),
        // A Prepare of an xid twice, and again behind a Rollback.
        ("pp", 1),
        ("prp", 3),
        // A Rollback or a Commit of an xid that is not prepared, or no longer.
        ("r", 0),
        ("prr", 2),
        ("c", 0),
        ("pcc", 2),
        ("prc", 2),
        // A Commit with a number that is above the last, and with one that is not.
        ("lpc", 3),
        ("lpe", 2),
        // A second change that does not apply, a first one, and one for another schema.
        ("tqd", 2),
        ("t4qd", 3),
        ("qd", 1),
        ("tof", 2),
        // Two transactions at once; a table that is created twice.
        ("tpqc", 4),
        ("pcpd", 3),
    ] {
        let (_, records) = index_of(rt.alloc(), letters, 1000)?;
        assert_eq!(rt; records.len(), wanted, "{letters}");
    }
    Ok(())
}

#[test]
fn records_leave_room_for_commits(rt: HostRuntime) -> Result<(), Fail> {
    for (letters, end, wanted) in [
        ("l", LIMIT, 1usize),
        ("l", LIMIT + 1, 0),
        ("p", LIMIT - 39, 1),
        ("p", LIMIT - 38, 0),
        ("tpq", LIMIT - 78, 3),
        ("tpq", LIMIT - 77, 2),
        ("tpqr", LIMIT - 78, 4),
    ] {
        let (_, records) = index_of(rt.alloc(), letters, end)?;
        assert_eq!(rt; records.len(), wanted, "{letters} {end}");
    }
    Ok(())
}

#[test]
fn tables_have_their_schemas(rt: HostRuntime) -> Result<(), Fail> {
    let (replay, records) = index_of(rt.alloc(), "tupc", 1000)?;
    for (letter, wanted) in [
        (b't', Some(Some(0u8))),
        (b'u', Some(None)),
        (b'w', Some(Some(0))),
        (b'n', None),
    ] {
        let table = name(rt.alloc(), letter)?;
        let key = replay
            .schema_of(records.as_slice(), &table)
            .map(|schema| schema.key);
        assert_eq!(rt; key, wanted, "{letter}");
    }
    Ok(())
}
