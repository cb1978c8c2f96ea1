//! Changes by hand, and many of them against a plain fold.

use crate::Dictionary;
use log_tables::{Table, tables_of};
use row_format::{
    Change, Changes, Column, Columns, Kind, Name, Row, Schema, TableMap, Transaction, Value,
};
use std::alloc::{AllocError, Global};
use std::process::Abort;
use std::test::Fail;

fn is_send<T: Send>(_: &T) {}

// A change, with each name spelt by one letter.
#[derive(Clone, Copy)]
enum Step {
    Create(u8, u8),
    Drop(u8),
    Install(u8),
    Uninstall(u8),
    Insert(u8),
}

// The engines of a fresh volume are M, B and C; all else is called by its letter.
fn name(rt: &impl Abort, alloc: Global, letter: u8) -> Result<Name, AllocError> {
    let bytes = match letter {
        b'M' => b"MEMORY".to_vec(alloc)?,
        b'B' => b"BLACKHOLE".to_vec(alloc)?,
        b'C' => b"CSV".to_vec(alloc)?,
        _ => [letter].to_vec(alloc)?,
    };
    match Name::new(bytes) {
        Ok(name) => Ok(name),
        Err(_) => rt.abort(),
    }
}

fn letter(name: &Name) -> u8 {
    match name.as_bytes().first() {
        Some(letter) => *letter,
        None => 0,
    }
}

// The schema of a table: its one column is called as the table's engine.
fn schema(rt: &impl Abort, alloc: Global, column: u8) -> Result<Schema, AllocError> {
    let mut columns = Vec::new(alloc);
    columns.push(Column {
        name: name(rt, alloc, column)?,
        kind: Kind::BigInt,
        nullable: false,
    })?;
    Ok(Schema {
        columns: Columns::new(columns),
        key: Some(0),
    })
}

fn insert(rt: &impl Abort, alloc: Global, table: u8) -> Result<Change, AllocError> {
    let map = TableMap {
        table: name(rt, alloc, table)?,
        schema: schema(rt, alloc, b'P')?,
    };
    let mut values = Vec::new(alloc);
    values.push(Value::Int(1))?;
    Ok(Change::Insert {
        map,
        row: Row::new(values),
    })
}

fn change(rt: &impl Abort, alloc: Global, step: Step) -> Result<Change, AllocError> {
    match step {
        Step::Create(table, engine) => Ok(Change::Create {
            table: name(rt, alloc, table)?,
            engine: name(rt, alloc, engine)?,
            schema: schema(rt, alloc, engine)?,
        }),
        Step::Drop(table) => Ok(Change::Drop {
            table: name(rt, alloc, table)?,
        }),
        Step::Install(engine) => Ok(Change::Install {
            name: name(rt, alloc, engine)?,
        }),
        Step::Uninstall(engine) => Ok(Change::Uninstall {
            name: name(rt, alloc, engine)?,
        }),
        Step::Insert(table) => insert(rt, alloc, table),
    }
}

fn apply(
    rt: &impl Abort,
    alloc: Global,
    dictionary: &mut Dictionary,
    step: Step,
) -> Result<(), AllocError> {
    let change = change(rt, alloc, step)?;
    dictionary.apply(&change)
}

// The dictionary must have these tables of these engines at their places, and find each, and no more.
fn has_tables(
    rt: &impl Abort,
    alloc: Global,
    dictionary: &Dictionary,
    tables: &[(u8, u8)],
) -> Result<(), AllocError> {
    for (i, (table, engine)) in tables.iter().enumerate() {
        let found = dictionary
            .find(&name(rt, alloc, *table)?)
            .expect(rt, "a table");
        assert_eq!(rt; letter(&found.table), *table);
        assert_eq!(rt; letter(&found.engine), *engine);
        let at = dictionary.at(i).expect(rt, "a place");
        assert_eq!(rt; letter(&at.table), *table);
        let column = at.schema.columns.as_slice().first().expect(rt, "a column");
        assert_eq!(rt; letter(&column.name), *engine);
    }
    assert!(rt; dictionary.at(tables.len()).is_none());
    Ok(())
}

// The installed engines must be these.
fn has_engines(rt: &impl Abort, dictionary: &Dictionary, engines: &[u8]) {
    let installed = dictionary.installed();
    assert_eq!(rt; installed.len(), engines.len());
    for (name, engine) in installed.iter().zip(engines) {
        assert_eq!(rt; letter(name), *engine);
    }
}

const A_IN_M: (u8, u8) = (b'a', b'M');

const A_IN_C: (u8, u8) = (b'a', b'C');

const B_IN_B: (u8, u8) = (b'b', b'B');

const C_IN_P: (u8, u8) = (b'c', b'P');

#[test]
fn tables_by_hand(rt: HostRuntime) -> Result<(), Fail> {
    let alloc = rt.alloc();
    let mut dictionary = Dictionary::new(alloc)?;
    is_send(&dictionary);
    let rows: [(Step, &[(u8, u8)], u64); 9] = [
        (Step::Create(b'a', b'M'), &[A_IN_M], 1),
        (Step::Create(b'b', b'B'), &[A_IN_M, B_IN_B], 2),
        (Step::Create(b'a', b'C'), &[A_IN_M, B_IN_B], 2),
        (Step::Create(b'c', b'P'), &[A_IN_M, B_IN_B, C_IN_P], 3),
        (Step::Drop(b'a'), &[B_IN_B, C_IN_P], 4),
        (Step::Drop(b'a'), &[B_IN_B, C_IN_P], 4),
        (Step::Create(b'a', b'C'), &[B_IN_B, C_IN_P, A_IN_C], 5),
        (Step::Drop(b'c'), &[B_IN_B, A_IN_C], 6),
        (Step::Insert(b'a'), &[B_IN_B, A_IN_C], 6),
    ];
    for (i, (step, tables, version)) in rows.iter().enumerate() {
        apply(&rt, alloc, &mut dictionary, *step)?;
        has_tables(&rt, alloc, &dictionary, *tables)?;
        has_engines(&rt, &dictionary, b"MBC");
        assert_eq!(rt; dictionary.version(), *version, "row {i}");
    }
    assert!(rt; dictionary.find(&name(&rt, alloc, b'c')?).is_none());
    Ok(())
}

#[test]
fn engines_by_hand(rt: HostRuntime) -> Result<(), Fail> {
    let alloc = rt.alloc();
    let mut dictionary = Dictionary::new(alloc)?;
    has_engines(&rt, &dictionary, b"MBC");
    let rows: [(Step, &[u8], u64); 6] = [
        (Step::Install(b'P'), b"MBCP", 1),
        (Step::Install(b'P'), b"MBCP", 1),
        (Step::Install(b'J'), b"MBCPJ", 2),
        (Step::Uninstall(b'B'), b"MCPJ", 3),
        (Step::Uninstall(b'B'), b"MCPJ", 3),
        (Step::Install(b'B'), b"MCPJB", 4),
    ];
    for (i, (step, engines, version)) in rows.iter().enumerate() {
        apply(&rt, alloc, &mut dictionary, *step)?;
        has_tables(&rt, alloc, &dictionary, &[])?;
        has_engines(&rt, &dictionary, *engines);
        assert_eq!(rt; dictionary.version(), *version, "row {i}");
    }
    Ok(())
}

// What is folded the plain way: letters in lists, and a count.
#[derive(Drop)]
struct Plain {
    tables: Vec<(u8, u8)>,
    engines: Vec<u8>,
    version: u64,
}

impl Plain {
    fn count(&mut self) {
        self.version = self.version.wrapping_add(1);
    }

    fn apply(&mut self, step: Step) -> Result<(), AllocError> {
        match step {
            Step::Create(table, engine) if !self.tables.iter().any(|it| it.0 == table) => {
                self.tables.push((table, engine))?;
                self.count();
            }
            Step::Drop(table) if self.tables.iter().any(|it| it.0 == table) => {
                self.tables.retain(|it| it.0 != table);
                self.count();
            }
            Step::Install(engine) if !self.engines.contains(&engine) => {
                self.engines.push(engine)?;
                self.count();
            }
            Step::Uninstall(engine) if self.engines.contains(&engine) => {
                self.engines.retain(|it| *it != engine);
                self.count();
            }
            _ => {}
        }
        Ok(())
    }
}

// A change of one of seven tables or of one of seven engines.
fn step_of(number: u32) -> Step {
    let table = b"abcdefg"[(number / 8 % 7) as usize];
    let engine = b"MBCPJQR"[(number / 64 % 7) as usize];
    match number % 8 {
        0 | 1 | 2 => Step::Create(table, engine),
        3 | 4 => Step::Drop(table),
        5 => Step::Install(engine),
        6 => Step::Uninstall(engine),
        _ => Step::Insert(table),
    }
}

// The definitions of these tables must be those of the dictionary.
fn has_definitions(rt: &impl Abort, dictionary: &Dictionary, tables: &[Table]) {
    for (i, table) in tables.iter().enumerate() {
        let at = dictionary.at(i).expect(rt, "a place");
        assert!(rt; at.table.is_same(&table.definition.table));
        assert!(rt; at.engine.is_same(&table.definition.engine));
        assert!(rt; at.schema.is_same(&table.definition.schema));
    }
    assert!(rt; dictionary.at(tables.len()).is_none());
}

#[test]
fn many_changes_as_a_plain_fold(rt: HostRuntime) -> Result<(), Fail> {
    let alloc = rt.alloc();
    let mut dictionary = Dictionary::new(alloc)?;
    let mut plain = Plain {
        tables: Vec::new(alloc),
        engines: b"MBC".to_vec(alloc)?,
        version: 0,
    };
    let mut log = Vec::new(alloc);
    let mut state = 1_u32;
    for xid in 1..=120_u64 {
        state = state.wrapping_mul(1_664_525).wrapping_add(1_013_904_223);
        let step = step_of(state >> 8);
        apply(&rt, alloc, &mut dictionary, step)?;
        plain.apply(step)?;
        has_tables(&rt, alloc, &dictionary, &plain.tables)?;
        has_engines(&rt, &dictionary, &plain.engines);
        assert_eq!(rt; dictionary.version(), plain.version, "change {xid}");
        let changes = Changes::new(vec![in alloc; change(&rt, alloc, step)?]?);
        log.push(Transaction { xid, changes })?;
    }
    let tables = tables_of(alloc, log)?;
    has_definitions(&rt, &dictionary, tables.as_slice());
    Ok(())
}
