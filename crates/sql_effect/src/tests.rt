//! Statements by hand, one after the other, each with its reply.
ghost use Rattle.std.specs.Prelude.{◌≡◌};

use crate::{Effect, EffectFault, EngineFacts, Sizes, View, are_tables, text_effect};
use engine_api::{Flags, KeyRule};
use log_tables::{Tables, tables_of};
use row_format::{Change, Changes, TableMap, Transaction};
use sql_text::ListOf;
use sql_value::{Name, Row, Text, Value};
use std::alloc::{AllocError, Global};
use std::process::Abort;
use std::test::Fail;

fn is_send<T: Send>(_: &T) {}

fn name(rt: &impl Abort, alloc: Global, bytes: &[u8]) -> Result<Name, AllocError> {
    match Name::new(bytes.to_vec(alloc)?) {
        Ok(name) => Ok(name),
        Err(_) => rt.abort(),
    }
}

fn engine(
    rt: &impl Abort,
    alloc: Global,
    called: &[u8],
    soname: &[u8],
    key: KeyRule,
    keeps_rows: bool,
) -> Result<EngineFacts, AllocError> {
    Ok(EngineFacts {
        name: name(rt, alloc, called)?,
        soname: Text::new(soname.to_vec(alloc)?),
        flags: Flags {
            transactional: false,
            crash_safe: false,
            key,
            nulls: !matches!(key, KeyRule::Refused),
        },
        keeps_rows,
    })
}

// The five engines.
fn shelf(rt: &impl Abort, alloc: Global) -> Result<Vec<EngineFacts>, AllocError> {
    let mut shelf = Vec::new(alloc);
    for (called, soname, key, keeps) in [
        (
            b"MEMORY".as_slice(),
            b"ha_memory.so".as_slice(),
            KeyRule::Allowed,
            true,
        ),
        (b"BLACKHOLE", b"ha_blackhole.so", KeyRule::Allowed, false),
        (b"CSV", b"ha_csv.so", KeyRule::Refused, true),
        (b"JOURNAL", b"ha_journal.so", KeyRule::Allowed, true),
        (b"PAGES", b"ha_pages.so", KeyRule::Needed, true),
    ] {
        shelf.push(engine(rt, alloc, called, soname, key, keeps)?)?;
    }
    Ok(shelf)
}

// No tables, and the engines of a fresh volume.
fn fresh(rt: &impl Abort, alloc: Global) -> Result<View, AllocError> {
    let mut installed = ListOf::new(alloc);
    for called in [b"MEMORY".as_slice(), b"BLACKHOLE", b"CSV"] {
        installed.push(name(rt, alloc, called)?)?;
    }
    Ok(View {
        tables: Tables::new(Vec::new(alloc)),
        installed,
    })
}

// The changes that make these tables from none.
fn rebuilt(alloc: Global, tables: Tables) -> Result<Vec<Change>, AllocError> {
    let mut changes = Vec::new(alloc);
    for table in tables.into_tables() {
        let map = TableMap {
            table: table.definition.table.copy()?,
            schema: table.definition.schema.copy(alloc)?,
        };
        changes.push(Change::Create {
            table: table.definition.table,
            engine: table.definition.engine,
            schema: table.definition.schema,
        })?;
        for row in table.rows.into_rows() {
            let map = map.copy(alloc)?;
            changes.push(Change::Insert { map, row })?;
        }
    }
    Ok(changes)
}

// The view with these changes made.
fn changed(alloc: Global, view: View, changes: Changes) -> Result<View, AllocError> {
    let mut installed = view.installed;
    let mut all = rebuilt(alloc, view.tables)?;
    for change in changes.into_changes() {
        match change {
            Change::Install { name } => installed.push(name)?,
            other => all.push(other)?,
        }
    }
    let mut log = Vec::new(alloc);
    log.push(Transaction {
        xid: 1,
        changes: Changes::new(all),
    })?;
    Ok(View {
        tables: tables_of(alloc, log)?,
        installed,
    })
}

fn put_value(out: &mut Vec<u8>, value: &Value) -> Result<(), AllocError> {
    match value {
        Value::Null => out.extend_from_slice(b"NULL"),
        Value::Int(n) => {
            let digits = n.to_string(*out.allocator())?;
            out.extend_from_slice(digits.as_bytes())
        }
        Value::Text(text) => {
            out.extend_from_slice(b"'")?;
            out.extend_from_slice(text.as_bytes())?;
            out.extend_from_slice(b"'")
        }
    }
}

fn put_row(out: &mut Vec<u8>, row: &Row) -> Result<(), AllocError> {
    out.extend_from_slice(b" |")?;
    for value in row.values() {
        out.extend_from_slice(b" ")?;
        put_value(out, value)?;
    }
    Ok(())
}

fn put_number(out: &mut Vec<u8>, words: &[u8], number: u64) -> Result<(), AllocError> {
    out.extend_from_slice(words)?;
    let digits = number.to_string(*out.allocator())?;
    out.extend_from_slice(digits.as_bytes())
}

// What is answered, in words: how many rows are changed, the rows, or the refusal.
fn put_effect(out: &mut Vec<u8>, effect: &Effect) -> Result<(), AllocError> {
    put_number(out, b"ok ", effect.count)?;
    for row in effect.rows.as_slice() {
        put_row(out, row)?;
    }
    Ok(())
}

fn effect_on(
    rt: &impl Abort,
    alloc: Global,
    shelf: &[EngineFacts],
    view: &View,
    sizes: Sizes,
    text: &[u8],
) -> Result<Result<Effect, EffectFault>, AllocError> {
    if !are_tables(alloc, view.tables.as_slice())? {
        rt.abort();
    }
    Ok(text_effect(alloc, shelf, view, sizes, text))
}

// Carries a text out, with its reply appended.
fn carry(
    rt: &impl Abort,
    alloc: Global,
    shelf: &[EngineFacts],
    view: View,
    text: &[u8],
    out: &mut Vec<u8>,
) -> Result<View, AllocError> {
    let sizes = Sizes { live: 0, open: 0 };
    match effect_on(rt, alloc, shelf, &view, sizes, text)? {
        Ok(effect) => {
            put_effect(out, &effect)?;
            changed(alloc, view, effect.changes)
        }
        Err(EffectFault::Refused(refusal)) => {
            refusal.put_text(out)?;
            Ok(view)
        }
        Err(EffectFault::Memory) => rt.abort(),
    }
}

// Carries a text out, and compares the reply.
fn check_reply(
    rt: &impl Abort,
    alloc: Global,
    shelf: &[EngineFacts],
    view: View,
    text: &[u8],
    wanted: &[u8],
) -> Result<View, AllocError> {
    let mut out = Vec::new(alloc);
    let view = carry(rt, alloc, shelf, view, text, &mut out)?;
    let asked = String::from_utf8_lossy(alloc, text)?;
    let found = String::from_utf8_lossy(alloc, &out)?;
    assert!(rt; out.as_slice() == wanted, "{asked}: {found}");
    Ok(view)
}

// Carries out the texts of a script, one after the other. Each line with a text has its reply behind it.
fn check(rt: &impl Abort, alloc: Global, script: &str) -> Result<(), Fail> {
    let shelf = shelf(rt, alloc)?;
    let mut view = fresh(rt, alloc)?;
    let mut text = "";
    for (i, line) in script.lines().enumerate() {
        if i % 2 == 0 {
            text = line;
        } else {
            view = check_reply(rt, alloc, &shelf, view, text.as_bytes(), line.as_bytes())?;
        }
    }
    Ok(())
}

// A table is made, filled and read.
const TABLE_FILLED: &str = "CREATE TABLE t (k BIGINT PRIMARY KEY, v VARCHAR(10)) ENGINE = JOURNAL
unknown engine
INSTALL PLUGIN JOURNAL SONAME 'ha_pages.so'
no such library
INSTALL PLUGIN JOURNAL SONAME 'ha_journal.so'
ok 0
INSTALL PLUGIN JOURNAL SONAME 'ha_journal.so'
plugin is installed
INSTALL PLUGIN PAGES SONAME 'x.so'
no such library
CREATE TABLE t (k BIGINT PRIMARY KEY, v VARCHAR(10)) ENGINE = JOURNAL
ok 0
CREATE TABLE t (k BIGINT) ENGINE = MEMORY
table exists
CREATE TABLE t (k BIGINT) ENGINE = NONE
table exists
CREATE TABLE u (k BIGINT) ENGINE = NONE
unknown engine
CREATE TABLE d (a BIGINT) ENGINE = CSV
schema does not suit
SELECT * FROM u
no such table
DROP TABLE u
no such table
INSERT INTO u VALUES ('a', 1)
no such table
SELECT z FROM t
unknown column
INSERT INTO t VALUES (1)
value count
INSERT INTO t VALUES ('a', 'b')
wrong type
INSERT INTO t VALUES (NULL, 'b')
column cannot be null
INSERT INTO t VALUES (1, '12345678901')
data too long
SELECT * FROM t
ok 0
INSERT INTO t VALUES (2, 'b'), (1, NULL)
ok 2
SELECT v FROM t WHERE k < 2 OR v = 'b'
ok 0 | NULL | 'b'
SELECT v, k, v FROM t WHERE v IS NOT NULL
ok 0 | 'b' 2 'b'
INSERT INTO t VALUES (3, 'c'), (2, 'd'), (NULL, 'e')
duplicate entry
INSERT INTO t VALUES (3, 'c'), (4, 'd'), (3, 'e')
duplicate entry
SELECT * FROM t
ok 0 | 1 NULL | 2 'b'
DROP TABLE t
ok 0
SELECT * FROM t
no such table";

#[test]
fn a_table_is_made_filled_and_read(rt: HostRuntime) -> Result<(), Fail> {
    check(&rt, rt.alloc(), TABLE_FILLED)
}

// Numbers at both ends of BIGINT, and past them.
const ENDS_OF_BIGINT: &str = "CREATE TABLE t (k BIGINT PRIMARY KEY, n BIGINT) ENGINE = MEMORY
ok 0
INSERT INTO t VALUES (9223372036854775807, 1)
ok 1
INSERT INTO t VALUES (-9223372036854775808, NULL)
ok 1
INSERT INTO t VALUES (9223372036854775808, 1)
out of range
INSERT INTO t VALUES (1, -9223372036854775809)
out of range
SELECT * FROM t
ok 0 | -9223372036854775808 NULL | 9223372036854775807 1
SELECT k FROM t WHERE k + 0 = k
ok 0 | -9223372036854775808 | 9223372036854775807
SELECT k FROM t WHERE k + 1 = 0
out of range
SELECT k FROM t WHERE k - 1 = 0
out of range
SELECT k FROM t WHERE k = k OR k + 1 = 0
out of range
SELECT k FROM t WHERE k <> k AND k + 1 = 0
out of range
SELECT k FROM t WHERE k + n = 0
out of range
SELECT k FROM t WHERE k - n = 0
ok 0
SELECT k FROM t WHERE NULL + k + 1 IS NULL
ok 0 | -9223372036854775808 | 9223372036854775807
SELECT k FROM t WHERE 9223372036854775807 + 1 - 1 IS NULL
out of range
UPDATE t SET k = k + 1
out of range
UPDATE t SET n = n + 1 WHERE k > 0
ok 1
SELECT n FROM t WHERE k > 0
ok 0 | 2";

#[test]
fn numbers_end_at_both_ends_of_bigint(rt: HostRuntime) -> Result<(), Fail> {
    check(&rt, rt.alloc(), ENDS_OF_BIGINT)
}

// Conditions that are true, false, or neither.
const THREE_VALUES: &str = "CREATE TABLE c (a BIGINT, s VARCHAR(5)) ENGINE = MEMORY
ok 0
INSERT INTO c VALUES (1, 'x'), (NULL, 'y'), (3, NULL), (NULL, NULL)
ok 4
SELECT a FROM c WHERE a = 1
ok 0 | 1
SELECT a FROM c WHERE a <> 1
ok 0 | 3
SELECT a FROM c WHERE NOT a = 1
ok 0 | 3
SELECT a FROM c WHERE a = NULL
ok 0
SELECT a FROM c WHERE NOT a = NULL
ok 0
SELECT a FROM c WHERE NULL = NULL
ok 0
SELECT s FROM c WHERE a IS NULL
ok 0 | 'y' | NULL
SELECT a FROM c WHERE a IS NOT NULL
ok 0 | 1 | 3
SELECT a FROM c WHERE NOT a IS NULL
ok 0 | 1 | 3
SELECT a FROM c WHERE a + NULL IS NULL AND s = 'x'
ok 0 | 1
SELECT a FROM c WHERE a = 1 AND s = NULL
ok 0
SELECT a FROM c WHERE a = 1 OR s = NULL
ok 0 | 1
SELECT a FROM c WHERE NOT (a = 2 AND s = NULL)
ok 0 | 1 | 3
SELECT a FROM c WHERE NOT (a = 2 OR s = NULL)
ok 0
SELECT a FROM c WHERE a < 3
ok 0 | 1
SELECT a FROM c WHERE a <= 3
ok 0 | 1 | 3
SELECT a FROM c WHERE a > 1
ok 0 | 3
SELECT a FROM c WHERE a >= 1
ok 0 | 1 | 3
SELECT s FROM c WHERE s < 'y'
ok 0 | 'x'
SELECT s FROM c WHERE s > 'xx'
ok 0 | 'y'
SELECT a FROM c WHERE a = 1 OR a = 2 OR a = 3
ok 0 | 1 | 3
SELECT a FROM c WHERE a = 3 OR a = 1 AND s = 'y'
ok 0 | 3
SELECT a FROM c WHERE (a = 3 OR a = 1) AND s = 'x'
ok 0 | 1
SELECT a FROM c WHERE a > 0 AND a > 1 AND a > 2 AND a < 4
ok 0 | 3
SELECT a FROM c WHERE NOT NOT NOT a = 3
ok 0 | 1
SELECT a FROM c WHERE ((a = 1))
ok 0 | 1";

#[test]
fn conditions_have_three_values(rt: HostRuntime) -> Result<(), Fail> {
    check(&rt, rt.alloc(), THREE_VALUES)
}

// Rows are changed and removed.
const ROWS_CHANGED: &str =
    "CREATE TABLE t (k BIGINT PRIMARY KEY, v VARCHAR(3), n BIGINT NOT NULL) ENGINE = MEMORY
ok 0
INSERT INTO t VALUES (1, 'a', 10), (2, 'b', 20)
ok 2
UPDATE t SET k = k + 1
duplicate entry
UPDATE t SET k = k - 1
ok 2
UPDATE t SET k = k - 1
ok 2
SELECT k FROM t
ok 0 | -1 | 0
UPDATE t SET k = 5 WHERE k = -1
ok 1
SELECT * FROM t
ok 0 | 0 'b' 20 | 5 'a' 10
UPDATE t SET n = k + n, k = n WHERE v = 'a'
ok 1
SELECT * FROM t
ok 0 | 0 'b' 20 | 15 'a' 15
UPDATE t SET n = 15, v = 'a' WHERE k = 15
ok 0
UPDATE t SET n = NULL, n = 1 WHERE k = 15
ok 1
UPDATE t SET n = NULL WHERE k = 15
column cannot be null
UPDATE t SET n = NULL WHERE k = 16
ok 0
UPDATE t SET v = 'long'
data too long
UPDATE t SET v = NULL
ok 2
UPDATE t SET v = NULL
ok 0
UPDATE t SET v = 'a' WHERE v = NULL
ok 0
UPDATE t SET k = NULL WHERE k = 0
column cannot be null
UPDATE t SET k = 15 WHERE k = 0
duplicate entry
UPDATE t SET v = 1
wrong type
UPDATE t SET z = 1
unknown column
DELETE FROM t WHERE k + 9223372036854775807 > 0
out of range
DELETE FROM t WHERE k = 0
ok 1
DELETE FROM t WHERE k = 0
ok 0
SELECT * FROM t
ok 0 | 15 NULL 1
DELETE FROM t
ok 1
SELECT * FROM t
ok 0
CREATE TABLE m (a BIGINT) ENGINE = MEMORY
ok 0
INSERT INTO m VALUES (1), (2)
ok 2
UPDATE m SET a = a + 1
ok 2
SELECT * FROM m
ok 0 | 2 | 3";

#[test]
fn rows_are_changed_and_removed(rt: HostRuntime) -> Result<(), Fail> {
    check(&rt, rt.alloc(), ROWS_CHANGED)
}

// Texts that are no statement on tables.
const OTHER_TEXTS: &str = "BEGIN
not built
COMMIT
not built
ROLLBACK
not built
SAVEPOINT a
not built
ROLLBACK TO a
not built
RELEASE SAVEPOINT a
not built
UNINSTALL PLUGIN MEMORY
not built
INSERT INTO t VALUES (1, 'x'
syntax at 28

syntax at 0
SELECT * FROM t;
no such table
SELECT * FROM t;;
syntax at 16";

#[test]
fn other_texts_are_refused(rt: HostRuntime) -> Result<(), Fail> {
    check(&rt, rt.alloc(), OTHER_TEXTS)
}

// So many of one byte.
fn many(alloc: Global, byte: u8, count: usize) -> Result<Vec<u8>, AllocError> {
    let mut bytes = Vec::new(alloc);
    for _ in 0..count {
        bytes.push(byte)?;
    }
    Ok(bytes)
}

// An INSERT of one text of so many bytes.
fn insert_of(alloc: Global, count: usize) -> Result<Vec<u8>, AllocError> {
    let mut text = b"INSERT INTO w VALUES (1, '".to_vec(alloc)?;
    text.extend_from_slice(&many(alloc, b'x', count)?)?;
    text.extend_from_slice(b"')")?;
    Ok(text)
}

#[test]
fn texts_end_at_their_lengths(rt: HostRuntime) -> Result<(), Fail> {
    let alloc = rt.alloc();
    let long = many(alloc, b' ', 65537)?;
    let blank = many(alloc, b' ', 65536)?;
    let fits = insert_of(alloc, 255)?;
    let passes = insert_of(alloc, 256)?;
    let create = b"CREATE TABLE w (k BIGINT PRIMARY KEY, v VARCHAR(255)) ENGINE = MEMORY";
    let cases: [(&[u8], &[u8]); 6] = [
        (&long, b"statement too long"),
        (&blank, b"syntax at 65536"),
        (create, b"ok 0"),
        (&passes, b"data too long"),
        (&fits, b"ok 1"),
        (b"SELECT k FROM w WHERE v >= 'x'", b"ok 0 | 1"),
    ];
    let shelf = shelf(&rt, alloc)?;
    let mut view = fresh(&rt, alloc)?;
    for (text, wanted) in cases {
        view = check_reply(&rt, alloc, &shelf, view, text, wanted)?;
    }
    Ok(())
}

// The view after these texts, which are not refused.
fn after(
    rt: &impl Abort,
    alloc: Global,
    shelf: &[EngineFacts],
    texts: &[&[u8]],
) -> Result<View, AllocError> {
    let mut view = fresh(rt, alloc)?;
    for text in texts {
        let mut out = Vec::new(alloc);
        view = carry(rt, alloc, shelf, view, text, &mut out)?;
        assert!(rt; out.as_slice().starts_with(b"ok "));
    }
    Ok(view)
}

// The reply to a text on a view, where the engine and the transaction have so many bytes.
fn reply(
    rt: &impl Abort,
    alloc: Global,
    shelf: &[EngineFacts],
    view: &View,
    sizes: Sizes,
    text: &[u8],
) -> Result<Vec<u8>, AllocError> {
    let mut out = Vec::new(alloc);
    match effect_on(rt, alloc, shelf, view, sizes, text)? {
        Ok(effect) => put_effect(&mut out, &effect)?,
        Err(EffectFault::Refused(refusal)) => refusal.put_text(&mut out)?,
        Err(EffectFault::Memory) => rt.abort(),
    }
    Ok(out)
}

// How many bytes the engine and the transaction have, a text, and its reply.
// A row (2, 'x') has 11 bytes, and its INSERT 125 as a transaction, of which 55 are its begin and end.
const SIZES_AND_REPLIES: [(u64, u64, &[u8], &[u8]); 19] = [
    (16777205, 0, b"INSERT INTO t VALUES (2, 'x')", b"ok 1"),
    (16777206, 0, b"INSERT INTO t VALUES (2, 'x')", b"table full"),
    (
        16777206,
        0,
        b"INSERT INTO t VALUES (1, 'x')",
        b"duplicate entry",
    ),
    (
        16777194,
        0,
        b"INSERT INTO t VALUES (2, 'x'), (3, 'x')",
        b"ok 2",
    ),
    (
        16777195,
        0,
        b"INSERT INTO t VALUES (2, 'x'), (3, 'x')",
        b"table full",
    ),
    (
        16777206,
        0,
        b"INSERT INTO t VALUES (2, 'x'), (2, 'x')",
        b"table full",
    ),
    (
        18446744073709551615,
        0,
        b"INSERT INTO t VALUES (2, 'x')",
        b"table full",
    ),
    (
        18446744073709551615,
        0,
        b"INSERT INTO n VALUES (2), (2)",
        b"ok 2",
    ),
    (18446744073709551615, 0, b"SELECT * FROM n", b"ok 0"),
    (16777216, 0, b"UPDATE t SET v = 'y'", b"ok 1"),
    (16777216, 0, b"UPDATE t SET v = 'yy'", b"table full"),
    (16777217, 0, b"UPDATE t SET v = 'y'", b"table full"),
    (16777217, 0, b"UPDATE t SET v = 'x'", b"ok 0"),
    (16777217, 0, b"DELETE FROM t", b"ok 1"),
    (
        16777199,
        0,
        b"CREATE TABLE u (k BIGINT) ENGINE = MEMORY",
        b"ok 0",
    ),
    (
        16777210,
        0,
        b"CREATE TABLE u (k BIGINT) ENGINE = MEMORY",
        b"table full",
    ),
    (0, 1048506, b"INSERT INTO t VALUES (2, 'x')", b"ok 1"),
    (
        0,
        1048507,
        b"INSERT INTO t VALUES (2, 'x')",
        b"transaction too large",
    ),
    (
        0,
        1048507,
        b"INSERT INTO t VALUES (1, 'x')",
        b"duplicate entry",
    ),
];

#[test]
fn engines_and_transactions_get_full(rt: HostRuntime) -> Result<(), Fail> {
    let alloc = rt.alloc();
    let shelf = shelf(&rt, alloc)?;
    let view = after(
        &rt,
        alloc,
        &shelf,
        &[
            b"CREATE TABLE t (k BIGINT PRIMARY KEY, v VARCHAR(10)) ENGINE = MEMORY",
            b"INSERT INTO t VALUES (1, 'x')",
            b"CREATE TABLE n (k BIGINT PRIMARY KEY) ENGINE = BLACKHOLE",
        ],
    )?;
    for (i, (live, open, text, wanted)) in SIZES_AND_REPLIES.iter().enumerate() {
        let sizes = Sizes {
            live: *live,
            open: *open,
        };
        let out = reply(&rt, alloc, &shelf, &view, sizes, text)?;
        let found = String::from_utf8_lossy(alloc, &out)?;
        assert!(rt; out.as_slice() == *wanted, "row {i}: {found}");
    }
    Ok(())
}

#[test]
fn a_transaction_of_long_texts_gets_full(rt: HostRuntime) -> Result<(), Fail> {
    let alloc = rt.alloc();
    let shelf = shelf(&rt, alloc)?;
    let create: &[u8] = b"CREATE TABLE w (k BIGINT PRIMARY KEY, v VARCHAR(255)) ENGINE = MEMORY";
    let view = after(&rt, alloc, &shelf, &[create])?;
    let text = insert_of(alloc, 255)?;
    // Each such row has 288 bytes. By itself the statement has 379; 3,639 rows have 1,048,123, and one row more 1,048,411.
    let cases: [(u64, &[u8]); 2] = [(1048123, b"ok 1"), (1048411, b"transaction too large")];
    for (open, wanted) in cases {
        let sizes = Sizes { live: 0, open };
        let out = reply(&rt, alloc, &shelf, &view, sizes, &text)?;
        assert!(rt; out.as_slice() == wanted, "{open}");
    }
    Ok(())
}

#[test]
fn changes_tell_their_places(rt: HostRuntime) -> Result<(), Fail> {
    let alloc = rt.alloc();
    let shelf = shelf(&rt, alloc)?;
    let view = after(
        &rt,
        alloc,
        &shelf,
        &[
            b"CREATE TABLE m (a BIGINT) ENGINE = MEMORY",
            b"INSERT INTO m VALUES (1), (1), (2), (1)",
        ],
    )?;
    let sizes = Sizes { live: 0, open: 0 };
    let cases: [(&[u8], &[u32]); 3] = [
        (b"DELETE FROM m WHERE a = 1", &[0, 0, 1]),
        (b"UPDATE m SET a = 5 WHERE a = 1", &[0, 1, 3]),
        (b"UPDATE m SET a = 2", &[0, 1, 3]),
    ];
    for (i, (text, places)) in cases.iter().enumerate() {
        match effect_on(&rt, alloc, &shelf, &view, sizes, text)? {
            Ok(effect) => {
                is_send(&effect);
                let changes = effect.changes.as_slice();
                assert_eq!(rt; changes.len(), places.len(), "row {i}");
                for (change, wanted) in changes.iter().zip(places.iter()) {
                    let place = match change {
                        Change::Update { place, .. } => *place,
                        Change::Delete { place, .. } => *place,
                        _ => rt.abort(),
                    };
                    assert_eq!(rt; place, *wanted, "row {i}");
                }
            }
            Err(_) => rt.abort(),
        }
    }
    Ok(())
}
