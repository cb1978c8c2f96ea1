//! Changes by hand, and whether each applies behind those before it.

use crate::Record;
use crate::replay::Replay;
use log_tables::{Definition, Prepared};
use row_format::{Change, Changes, Column, Kind, Name, Row, Schema, TableMap, Value};
use std::alloc::{AllocError, Global};
use std::test::Fail;

// A name of one letter.
fn name(alloc: Global, letter: u8) -> Result<Name, Fail> {
    match Name::new([letter].to_vec(alloc)?) {
        Ok(name) => Ok(name),
        Err(_) => Err(Fail::from("no name")),
    }
}

fn column(alloc: Global, letter: u8) -> Result<Column, Fail> {
    Ok(Column {
        name: name(alloc, letter)?,
        kind: Kind::BigInt,
        nullable: false,
    })
}

// The schema (k BIGINT, v BIGINT), with k as the key or with none.
fn schema(alloc: Global, keyed: bool) -> Result<Schema, Fail> {
    let columns = vec![in alloc; column(alloc, b'k')?, column(alloc, b'v')?]?;
    let key = if keyed { Some(0) } else { None };
    match Schema::new(columns, key) {
        Ok(schema) => Ok(schema),
        Err(_) => Err(Fail::from("no schema")),
    }
}

// The value that a digit stands for.
fn value(digit: u8) -> Value {
    Value::Int(i64::from(digit) - 48)
}

fn row(alloc: Global, key: u8, other: u8) -> Result<Row, AllocError> {
    Ok(Row::new(vec![in alloc; value(key), value(other)]?))
}

// The map of t, which has a key, or of u, which has none; T is t with the schema of u, and n a table that is not there.
fn map(alloc: Global, letter: u8) -> Result<TableMap, Fail> {
    Ok(TableMap {
        table: name(alloc, letter.to_ascii_lowercase())?,
        schema: schema(alloc, letter == b't' || letter == b'n')?,
    })
}

// The change that a word stands for: a letter, the table's letter, and digits. Insert: the row. Delete: the place and the row. Update:
// the place, the row before and the row after. Create, and x for a Drop.
fn change_of(alloc: Global, word: &str) -> Result<Change, Fail> {
    let change = match word.as_bytes() {
        [b'i', table, k, v] => Change::Insert {
            map: map(alloc, *table)?,
            row: row(alloc, *k, *v)?,
        },
        [b'd', table, place, k, v] => Change::Delete {
            map: map(alloc, *table)?,
            place: u32::from(place.wrapping_sub(48)),
            before: row(alloc, *k, *v)?,
        },
        [b'u', table, place, k, v, l, w] => Change::Update {
            map: map(alloc, *table)?,
            place: u32::from(place.wrapping_sub(48)),
            before: row(alloc, *k, *v)?,
            after: row(alloc, *l, *w)?,
        },
        [b'c', table] => Change::Create {
            table: name(alloc, *table)?,
            engine: name(alloc, b'J')?,
            schema: schema(alloc, *table == b't')?,
        },
        [b'x', table] => Change::Drop {
            table: name(alloc, *table)?,
        },
        _ => return Err(Fail::from("no change")),
    };
    Ok(change)
}

// The table of this letter, and its rows.
fn add_table(
    alloc: Global,
    letter: u8,
    rows: &[(u8, u8)],
    records: &mut Vec<Record>,
) -> Result<(), Fail> {
    records.push(Record::SnapTable(Definition {
        table: name(alloc, letter)?,
        engine: name(alloc, b'J')?,
        schema: schema(alloc, letter == b't')?,
    }))?;
    for (key, other) in rows {
        records.push(Record::SnapRow {
            table: name(alloc, letter)?,
            row: row(alloc, *key, *other)?,
        })?;
    }
    Ok(())
}

// A snapshot of t and u, and a transaction with the changes of these words.
fn records_of(alloc: Global, words: &str) -> Result<Vec<Record>, Fail> {
    let mut records = Vec::new(alloc);
    let rows_of_t = [(b'4', b'7'), (b'1', b'5'), (b'2', b'6')];
    add_table(alloc, b't', &rows_of_t, &mut records)?;
    let rows_of_u = [(b'1', b'5'), (b'1', b'5'), (b'2', b'6')];
    add_table(alloc, b'u', &rows_of_u, &mut records)?;
    let mut changes = Vec::new(alloc);
    for word in words.split_whitespace() {
        changes.push(change_of(alloc, word)?)?;
    }
    records.push(Record::Prepare(Prepared {
        xid: 7,
        changes: Changes::new(changes),
    }))?;
    records.push(Record::Commit { xid: 7, number: 1 })?;
    Ok(records)
}

// Whether all these changes apply: the Commit, which is the last of ten records, fits then.
fn all_apply(alloc: Global, words: &str) -> Result<bool, Fail> {
    let mut replay = Replay::new(alloc);
    let mut records = Vec::new(alloc);
    for record in records_of(alloc, words)? {
        records.push(record)?;
        if !replay.take(records.as_slice(), 1000)? {
            return Ok(false);
        }
    }
    Ok(true)
}

// All but the last of the changes apply; the last does or does not.
const CASES: [(&str, &str, bool); 47] = [
    // By key: the row itself, another row with its key, no such key, and a row that was taken out.
    ("", "dt015", true),
    ("", "dt016", false),
    ("", "dt035", false),
    ("dt015", "dt015", false),
    ("dt015", "it18", true),
    ("dt015 it18", "dt018", true),
    ("dt026", "dt047", true),
    // The key stays.
    ("", "ut01518", true),
    ("", "ut01618", false),
    ("", "ut03539", false),
    ("ut01518", "dt015", false),
    ("ut01518", "dt018", true),
    ("ut01518", "ut01816", true),
    ("ut01518", "ut01516", false),
    // Another key: free, or taken by another row; the row moves, and those it moves over stay.
    ("", "ut01538", true),
    ("", "ut01525", false),
    ("", "ut04727", false),
    ("ut01538", "dt015", false),
    ("ut01538", "dt038", true),
    ("ut01538", "it15", true),
    ("ut01538", "it39", false),
    ("ut01595", "it26", false),
    ("ut01595", "dt047", true),
    ("ut01595", "dt095", true),
    ("ut04705", "it19", false),
    ("ut04705", "dt026", true),
    // By place: one of two rows that are the same, another row, past the end; those behind move down.
    ("", "du015", true),
    ("", "du226", true),
    ("", "du126", false),
    ("", "du326", false),
    ("du015", "du126", true),
    ("du015", "du226", false),
    ("", "uu11538", true),
    ("", "uu21538", false),
    ("uu11538", "du115", false),
    ("uu11538", "du138", true),
    ("uu11538", "du015", true),
    ("uu11538", "du226", true),
    ("uu01526", "uu02615", true),
    // Tables that are dropped, and made again without rows; the other stays.
    ("xt", "xt", false),
    ("xt", "it39", false),
    ("xt ct", "dt015", false),
    ("xt ct it15", "dt015", true),
    ("xt", "du226", true),
    // No such table, and another schema.
    ("", "dn015", false),
    ("", "dT015", false),
    ("", "uT01518", false),
];

#[test]
fn changes_apply_behind_others(rt: HostRuntime) -> Result<(), Fail> {
    let alloc = rt.alloc();
    for (words, last, applies) in CASES {
        assert!(rt; all_apply(alloc, words)?, "{words}");
        let mut all = String::new(alloc);
        all.push_str(words)?;
        all.push_str(" ")?;
        all.push_str(last)?;
        assert!(rt;
            all_apply(alloc, all.as_str())? == applies,
            "{words} {last}"
        );
    }
    Ok(())
}
