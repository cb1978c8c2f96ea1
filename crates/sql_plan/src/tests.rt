//! Statements by hand, with how their rows are found or the number of their refusal.
ghost use Rattle.std.specs.Bool.{OnTrue};
ghost use Rattle.sql_plan.specs.Plans.{IsOnTable};

use crate::{Path, Plan, PlanFault, plan};
use engine_api::{Flags, KeyRule};
use log_tables::Definition;
use row_format::Value;
use sql_text::{Statement, parse};
use sql_value::Name;
use std::alloc::{AllocError, Global};
use std::process::Abort;
use std::test::Fail;

const KEY: u16 = 1;

const SCAN: u16 = 2;

const ROWS: u16 = 3;

fn is_send<T: Send>(_: &T) {}

fn is_on_table(statement: &Statement) -> bool
    ensures { OnTrue result (IsOnTable statement.now) }
{
    match statement {
        Statement::Create { .. } => true,
        Statement::Drop { .. } => true,
        Statement::Insert { .. } => true,
        Statement::Select { .. } => true,
        Statement::Update { .. } => true,
        Statement::Delete { .. } => true,
        _ => false,
    }
}

fn flags(key: KeyRule, nulls: bool) -> Flags {
    Flags {
        transactional: true,
        crash_safe: true,
        key,
        nulls,
    }
}

fn read(rt: &impl Abort, alloc: Global, text: &[u8]) -> Statement {
    match parse(alloc, text) {
        Ok(statement) => statement,
        Err(_) => rt.abort(),
    }
}

// How the rows are found, or the number of the refusal.
fn number_of(rt: &impl Abort, answer: Result<Plan, PlanFault>) -> u16 {
    match answer {
        Ok(plan) => match plan.path {
            Path::Key(_) => KEY,
            Path::Scan => SCAN,
            Path::Rows => ROWS,
        },
        Err(PlanFault::Refused(refusal)) => refusal.number(),
        Err(PlanFault::Memory) => rt.abort(),
    }
}

fn name(rt: &impl Abort, alloc: Global, bytes: &[u8]) -> Result<Name, AllocError> {
    match Name::new(bytes.to_vec(alloc)?) {
        Ok(name) => Ok(name),
        Err(_) => rt.abort(),
    }
}

fn planned(
    rt: &impl Abort,
    alloc: Global,
    definition: &Definition,
    text: &[u8],
    flags: Flags,
) -> Result<Plan, PlanFault> {
    let statement = read(rt, alloc, text);
    if !is_on_table(&statement) {
        rt.abort();
    }
    plan(alloc, &statement, Some(definition), flags)
}

// The table `t (k BIGINT PRIMARY KEY, v VARCHAR(10), n BIGINT)`.
fn table(rt: &impl Abort, alloc: Global) -> Result<Definition, AllocError> {
    let text = b"CREATE TABLE t (k BIGINT PRIMARY KEY, v VARCHAR(10), n BIGINT) ENGINE = JOURNAL";
    let statement = read(rt, alloc, text);
    match statement {
        Statement::Create { .. } => {
            match plan(alloc, &statement, None, flags(KeyRule::Needed, true)) {
                Ok(plan) => Ok(Definition {
                    table: name(rt, alloc, b"t")?,
                    engine: name(rt, alloc, b"JOURNAL")?,
                    schema: plan.schema,
                }),
                Err(_) => rt.abort(),
            }
        }
        _ => rt.abort(),
    }
}

fn check(
    rt: &impl Abort,
    alloc: Global,
    flags: Flags,
    cases: &[(&[u8], u16)],
) -> Result<(), AllocError> {
    let definition = table(rt, alloc)?;
    for (i, (text, number)) in cases.iter().enumerate() {
        let found = number_of(rt, planned(rt, alloc, &definition, text, flags));
        assert!(rt; found == *number, "row {i}: {found}");
    }
    Ok(())
}

#[test]
fn tables_are_made_or_do_not_suit(rt: HostRuntime) -> Result<(), Fail> {
    let cases: [(&[u8], u16); 11] = [
        (
            b"CREATE TABLE t (k BIGINT PRIMARY KEY, v VARCHAR(10)) ENGINE = CSV",
            SCAN,
        ),
        (
            b"CREATE TABLE t (k BIGINT, PRIMARY KEY (k)) ENGINE = CSV",
            SCAN,
        ),
        (b"CREATE TABLE t (k BIGINT) ENGINE = CSV", SCAN),
        (
            b"CREATE TABLE t (k BIGINT PRIMARY KEY, PRIMARY KEY (k)) ENGINE = CSV",
            9006,
        ),
        (
            b"CREATE TABLE t (k BIGINT PRIMARY KEY, n BIGINT PRIMARY KEY) ENGINE = CSV",
            9006,
        ),
        (
            b"CREATE TABLE t (k BIGINT, PRIMARY KEY (n)) ENGINE = CSV",
            9006,
        ),
        (
            b"CREATE TABLE t (k BIGINT NULL PRIMARY KEY) ENGINE = CSV",
            9006,
        ),
        (
            b"CREATE TABLE t (k BIGINT NULL, PRIMARY KEY (k)) ENGINE = CSV",
            9006,
        ),
        (
            b"CREATE TABLE t (k BIGINT NULL NOT NULL) ENGINE = CSV",
            9006,
        ),
        (b"CREATE TABLE t (k BIGINT, k BIGINT) ENGINE = CSV", 9006),
        (b"CREATE TABLE t (PRIMARY KEY (k)) ENGINE = CSV", 9006),
    ];
    check(&rt, rt.alloc(), flags(KeyRule::Allowed, true), &cases)?;
    Ok(())
}

#[test]
fn an_engine_allows_a_schema_or_does_not(rt: HostRuntime) -> Result<(), Fail> {
    let keyed: (&[u8], u16) = (b"CREATE TABLE t (k BIGINT PRIMARY KEY) ENGINE = CSV", SCAN);
    let needed: [(&[u8], u16); 2] = [keyed, (b"CREATE TABLE t (k BIGINT) ENGINE = CSV", 9006)];
    check(&rt, rt.alloc(), flags(KeyRule::Needed, true), &needed)?;
    let refused: [(&[u8], u16); 3] = [
        (b"CREATE TABLE t (k BIGINT PRIMARY KEY) ENGINE = CSV", 9006),
        (b"CREATE TABLE t (k BIGINT) ENGINE = CSV", 9006),
        (b"CREATE TABLE t (k BIGINT NOT NULL) ENGINE = CSV", SCAN),
    ];
    check(&rt, rt.alloc(), flags(KeyRule::Refused, false), &refused)?;
    Ok(())
}

#[test]
fn rows_are_inserted_or_do_not_suit(rt: HostRuntime) -> Result<(), Fail> {
    let cases: [(&[u8], u16); 8] = [
        (
            b"INSERT INTO t VALUES (1, 'a', NULL), (NULL, NULL, 2)",
            ROWS,
        ),
        (b"INSERT INTO t VALUES (1, 'a')", 1136),
        (b"INSERT INTO t VALUES ('x', 'a', 1), (1, 'a', 1, 1)", 1136),
        (b"INSERT INTO t VALUES (1, 'a', 1), ('x', 'a', 1)", 9010),
        (b"INSERT INTO t VALUES (9223372036854775808, 2, 1)", 1264),
        (b"INSERT INTO t VALUES (1, 2, 9223372036854775808)", 9010),
        (b"INSERT INTO t VALUES (-9223372036854775809, 'a', 1)", 1264),
        (
            b"INSERT INTO t VALUES (-9223372036854775808, 'a', 9223372036854775807)",
            ROWS,
        ),
    ];
    check(&rt, rt.alloc(), flags(KeyRule::Allowed, true), &cases)?;
    Ok(())
}

#[test]
fn rows_are_found_by_key_or_by_a_scan(rt: HostRuntime) -> Result<(), Fail> {
    let cases: [(&[u8], u16); 15] = [
        (b"SELECT * FROM t", SCAN),
        (b"SELECT * FROM t WHERE k = 1", KEY),
        (b"SELECT v, k FROM t WHERE (-1 = k)", KEY),
        (b"SELECT * FROM t WHERE n = 1", SCAN),
        (b"SELECT * FROM t WHERE k = NULL", SCAN),
        (b"SELECT * FROM t WHERE k < 1", SCAN),
        (b"SELECT * FROM t WHERE k = 1 + 1", SCAN),
        (b"SELECT * FROM t WHERE k = n", SCAN),
        (b"SELECT * FROM t WHERE k = 1 AND n = 1", SCAN),
        (b"SELECT * FROM t WHERE NOT k = 1", SCAN),
        (b"UPDATE t SET v = 'b', n = n + k WHERE k = 1", KEY),
        (b"UPDATE t SET v = 'b', k = 2 WHERE k = 1", SCAN),
        (b"DELETE FROM t WHERE k = 1", KEY),
        (b"DELETE FROM t", SCAN),
        (b"DROP TABLE t", SCAN),
    ];
    check(&rt, rt.alloc(), flags(KeyRule::Allowed, true), &cases)?;
    Ok(())
}

#[test]
fn columns_and_types_are_looked_at(rt: HostRuntime) -> Result<(), Fail> {
    let cases: [(&[u8], u16); 14] = [
        (b"SELECT x FROM t WHERE k = 'a'", 1054),
        (b"SELECT v FROM t WHERE k = 'a' AND x = 1", 1054),
        (b"UPDATE t SET v = 1, x = 1", 1054),
        (b"UPDATE t SET v = 1 WHERE n + x = 1", 1054),
        (b"DELETE FROM t WHERE x IS NULL", 1054),
        (b"SELECT * FROM t WHERE k = 'a'", 9010),
        (b"SELECT * FROM t WHERE v + NULL IS NULL", 9010),
        (b"SELECT * FROM t WHERE NULL = v", SCAN),
        (b"SELECT * FROM t WHERE NULL + 1 = NULL - n", SCAN),
        (b"SELECT * FROM t WHERE k = 9223372036854775808", 1264),
        (b"SELECT * FROM t WHERE 9223372036854775808 = 'a'", 1264),
        (b"UPDATE t SET v = n", 9010),
        (
            b"UPDATE t SET v = NULL, n = n - 9223372036854775808 WHERE v = 1",
            1264,
        ),
        (b"UPDATE t SET v = 'a' WHERE v = 1", 9010),
    ];
    check(&rt, rt.alloc(), flags(KeyRule::Allowed, true), &cases)?;
    Ok(())
}

#[test]
fn a_plan_has_its_parts(rt: HostRuntime) -> Result<(), Fail> {
    let alloc = rt.alloc();
    let definition = table(&rt, alloc)?;
    let flags = flags(KeyRule::Allowed, true);
    match planned(
        &rt,
        alloc,
        &definition,
        b"SELECT v FROM t WHERE k = 7",
        flags,
    ) {
        Ok(plan) => {
            is_send(&plan);
            assert!(rt; matches!(plan.path, Path::Key(Value::Int(7))));
            assert!(rt; matches!(plan.work, Statement::Select { .. }));
            assert_eq!(rt; plan.schema.columns.as_slice().len(), 3);
        }
        Err(_) => rt.abort(),
    }
    Ok(())
}
