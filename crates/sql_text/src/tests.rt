//! Texts with the statement that they spell or the place of their fault, written by hand.
use crate::{Literal, Literals, Op, ParseFault, Statement, Step, parse};
use sql_value::Refusal;
use std::alloc::{AllocError, Global};
use std::process::Abort;
use std::test::Fail;

// Where the fault of a text is; None where it spells a statement, and -1 where it is too long.
fn fault_of(rt: &impl Abort, alloc: Global, text: &[u8]) -> Option<i64> {
    match parse(alloc, text) {
        Ok(_) => None,
        Err(ParseFault::Refused(Refusal::Syntax { at })) => Some(at as i64),
        Err(ParseFault::Refused(_)) => Some(-1),
        Err(ParseFault::Memory) => {
            assert!(rt; false, "there is memory");
            None
        }
    }
}

fn check_faults(rt: &impl Abort, alloc: Global, cases: &[(&[u8], Option<i64>)]) {
    for (i, (text, place)) in cases.iter().enumerate() {
        let found = fault_of(rt, alloc, text);
        assert!(rt; found == *place, "row {i}: {found:?}");
    }
}

#[test]
fn tables_are_created_and_dropped(rt: HostRuntime) {
    let cases: [(&[u8], Option<i64>); 8] = [
        (
            b"CREATE TABLE t (k BIGINT PRIMARY KEY, v VARCHAR(10)) ENGINE = JOURNAL",
            None,
        ),
        (
            b"create table t(k bigint not null,primary key(k))engine pages",
            None,
        ),
        (
            b"CREATE TABLE t (a BIGINT NULL NOT NULL PRIMARY KEY) ENGINE = CSV;",
            None,
        ),
        (
            b"CREATE TABLE t (a VARCHAR(010), PRIMARY KEY (b)) ENGINE MEMORY ;",
            None,
        ),
        (b"CREATE TABLE t (a VARCHAR(255)) ENGINE=MEMORY", None),
        (b"CREATE TABLE t (a VARCHAR(1)) ENGINE\t=\r MEMORY", None),
        (b"DROP TABLE t", None),
        (b"drop\ttable\rT;", None),
    ];
    check_faults(&rt, rt.alloc(), &cases);
}

#[test]
fn rows_are_inserted(rt: HostRuntime) {
    let cases: [(&[u8], Option<i64>); 6] = [
        (b"INSERT INTO t VALUES (1, 'x')", None),
        (b"INSERT INTO t VALUES(1),(2),(NULL)", None),
        (
            b"INSERT INTO t VALUES (-5, '', 'a''b', '\\'\\\"\\\\\\n\\r\\t\\0')",
            None,
        ),
        (
            b"INSERT INTO t VALUES (12345678901234567890123456789012345678)",
            None,
        ),
        (
            b"INSERT INTO t VALUES (-99999999999999999999999999999999999999)",
            None,
        ),
        (b"INSERT INTO _t9 VALUES ('\xc3\xa9')", None),
    ];
    check_faults(&rt, rt.alloc(), &cases);
}

#[test]
fn rows_are_selected(rt: HostRuntime) {
    let cases: [(&[u8], Option<i64>); 9] = [
        (b"SELECT * FROM t", None),
        (b"SELECT*FROM t", None),
        (b"SELECT a, b FROM t WHERE a = 1", None),
        (b"SELECT a FROM t WHERE a = 1OR b = 'x'AND c <> 2", None),
        (b"SELECT * FROM t WHERE ((a = 1))", None),
        (
            b"SELECT * FROM t WHERE NOT NOT (a < 1 OR b >= 2) AND c IS NOT NULL;",
            None,
        ),
        (b"SELECT * FROM t WHERE a + 1 - -2 + b != c - 5", None),
        (
            b"SELECT * FROM t WHERE a <= 1 AND b > 2 OR NOT c IS NULL",
            None,
        ),
        (b"SELECT * FROM t WHERE NULL = NULL", None),
    ];
    check_faults(&rt, rt.alloc(), &cases);
}

#[test]
fn rows_are_updated_and_deleted(rt: HostRuntime) {
    let cases: [(&[u8], Option<i64>); 5] = [
        (b"UPDATE t SET a = 1", None),
        (b"UPDATE t SET a = a + 1, b = 'x' WHERE k = 5;", None),
        (b"update t set a=-1,b=b-1 where(k=1)", None),
        (b"DELETE FROM t", None),
        (b"DELETE FROM t WHERE a IS NULL", None),
    ];
    check_faults(&rt, rt.alloc(), &cases);
}

#[test]
fn transactions_and_plugins_are_read(rt: HostRuntime) {
    let cases: [(&[u8], Option<i64>); 11] = [
        (b"BEGIN", None),
        (b" BEGIN WORK ; ", None),
        (b"START TRANSACTION", None),
        (b"COMMIT", None),
        (b"COMMIT WORK;", None),
        (b"ROLLBACK WORK TO SAVEPOINT s", None),
        (b"ROLLBACK TO s", None),
        (b"SAVEPOINT a", None),
        (b"RELEASE SAVEPOINT A;", None),
        (b"INSTALL PLUGIN JOURNAL SONAME 'ha_journal.so'", None),
        (b"uninstall plugin journal", None),
    ];
    check_faults(&rt, rt.alloc(), &cases);
}

// The place of a fault is where the first token begins that no statement has there.
#[test]
fn faults_at_the_first_words_and_behind_a_statement(rt: HostRuntime) {
    let cases: [(&[u8], Option<i64>); 14] = [
        (b"", Some(0)),
        (b"   ", Some(3)),
        (b";", Some(0)),
        (b"x", Some(0)),
        (b"TABLE", Some(0)),
        (b"CREATE", Some(6)),
        (b"CREATE  x", Some(8)),
        (b"DROP TABLE", Some(10)),
        (b"DROP TABLE t;;", Some(13)),
        (b"DROP TABLE t t", Some(13)),
        (b"DROP TABLE 1t", Some(11)),
        (b"BEGIN TRANSACTION", Some(6)),
        (b"COMMIT \xff", Some(7)),
        (b"BEGIN\n", Some(5)),
    ];
    check_faults(&rt, rt.alloc(), &cases);
}

#[test]
fn faults_in_the_items_of_a_table(rt: HostRuntime) {
    let cases: [(&[u8], Option<i64>); 15] = [
        (b"CREATE TABLE select (a BIGINT) ENGINE = X", Some(13)),
        (b"CREATE TABLE t ()", Some(16)),
        (b"CREATE TABLE t (a INT) ENGINE = X", Some(18)),
        (b"CREATE TABLE t (a BIGINT)", Some(25)),
        (b"CREATE TABLE t (a BIGINT) ENGINE = 'x'", Some(35)),
        (b"CREATE TABLE t (a BIGINT,) ENGINE = X", Some(25)),
        (b"CREATE TABLE t (a VARCHAR(0)) ENGINE = X", Some(26)),
        (b"CREATE TABLE t (a VARCHAR(256)) ENGINE = X", Some(26)),
        (b"CREATE TABLE t (a VARCHAR) ENGINE = X", Some(25)),
        (b"CREATE TABLE t (a BIGINT NULL NULL) ENGINE = X", Some(30)),
        (
            b"CREATE TABLE t (a BIGINT NOT NULL NOT NULL) ENGINE = X",
            Some(34),
        ),
        (
            b"CREATE TABLE t (a BIGINT PRIMARY KEY PRIMARY KEY) ENGINE = X",
            Some(37),
        ),
        (b"CREATE TABLE t (a BIGINT KEY) ENGINE = X", Some(25)),
        (b"CREATE TABLE t (PRIMARY KEY k) ENGINE = X", Some(28)),
        (b"CREATE TABLE t (a BIGINT) ENGINE = = X", Some(35)),
    ];
    check_faults(&rt, rt.alloc(), &cases);
}

#[test]
fn faults_in_the_rows_of_an_insert(rt: HostRuntime) {
    let cases: [(&[u8], Option<i64>); 18] = [
        (b"INSERT INTO t VALUES (1, 'x'", Some(28)),
        (b"INSERT INTO t VALUES (1, 'x", Some(27)),
        (b"INSERT INTO t VALUES ('a\\x')", Some(24)),
        (b"INSERT INTO t VALUES ('a\\", Some(24)),
        (b"INSERT INTO t VALUES ('a\\b'", Some(24)),
        (b"INSERT INTO t VALUES ('a\xff')", Some(24)),
        (b"INSERT INTO t VALUES ('\xe2\x82')", Some(23)),
        (b"INSERT INTO t VALUES 'a\\b'", Some(21)),
        (b"INSERT INTO t VALUES (- 5)", Some(22)),
        (b"INSERT INTO t VALUES (1abc)", Some(23)),
        (b"INSERT INTO t VALUES (a)", Some(22)),
        (
            b"INSERT INTO t VALUES (123456789012345678901234567890123456789)",
            Some(22),
        ),
        (
            b"INSERT INTO t VALUES (-123456789012345678901234567890123456789)",
            Some(22),
        ),
        (b"INSERT INTO t VALUES (1+1)", Some(23)),
        (b"INSERT INTO t VALUES ()", Some(22)),
        (b"INSERT INTO t VALUES (1) (2)", Some(25)),
        (b"INSERT INTO t VALUES (1),", Some(25)),
        (b"INSERT INTO t (a) VALUES (1)", Some(14)),
    ];
    check_faults(&rt, rt.alloc(), &cases);
}

#[test]
fn faults_in_columns_and_conditions(rt: HostRuntime) {
    let cases: [(&[u8], Option<i64>); 14] = [
        (b"SELECT FROM t", Some(7)),
        (b"SELECT *, a FROM t", Some(8)),
        (b"SELECT a b FROM t", Some(9)),
        (b"UPDATE t SET a + 1", Some(15)),
        (b"SELECT a FROM t WHERE 1OR a IS NULL", Some(23)),
        (b"SELECT * FROM t WHERE", Some(21)),
        (b"SELECT * FROM t WHERE a", Some(23)),
        (b"SELECT * FROM t WHERE a = ", Some(26)),
        (b"SELECT * FROM t WHERE (a = 1", Some(28)),
        (b"SELECT * FROM t WHERE a = 1)", Some(27)),
        (b"SELECT * FROM t WHERE (a) = 1", Some(24)),
        (b"SELECT * FROM t WHERE a = 1 = 2", Some(28)),
        (b"SELECT * FROM t WHERE a IS 1", Some(27)),
        (b"SELECT * FROM t WHERE a NOT NULL", Some(24)),
    ];
    check_faults(&rt, rt.alloc(), &cases);
}

#[test]
fn names_have_at_most_64_letters(rt: HostRuntime) -> Result<(), Fail> {
    let alloc = rt.alloc();
    let mut text = b"DROP TABLE ".to_vec(alloc)?;
    for _ in 0..64 {
        text.push(b'a')?;
    }
    assert!(rt; fault_of(&rt, alloc, &text) == None);
    text.push(b'a')?;
    assert!(rt; fault_of(&rt, alloc, &text) == Some(11));
    Ok(())
}

// The fault of a front and a back with a word between them.
fn fault_with(
    rt: &impl Abort,
    alloc: Global,
    front: &[u8],
    word: &[u8],
    back: &[u8],
) -> Result<Option<i64>, AllocError> {
    let mut text = front.to_vec(alloc)?;
    text.extend_from_slice(word)?;
    text.extend_from_slice(back)?;
    Ok(fault_of(rt, alloc, &text))
}

// No keyword is a name, and a keyword with a letter more is one.
fn check_words(rt: &impl Abort, alloc: Global, words: &[&[u8]]) -> Result<(), Fail> {
    for (i, word) in words.iter().enumerate() {
        let found = fault_with(rt, alloc, b"DROP TABLE ", word, b"")?;
        assert!(rt; found == Some(11), "word {i}");
        let longer = fault_with(rt, alloc, b"DROP TABLE ", word, b"_")?;
        assert!(rt; longer == None, "word {i} and a letter");
    }
    Ok(())
}

#[test]
fn keywords_that_begin_statements_are_no_names(rt: HostRuntime) -> Result<(), Fail> {
    let words: [&[u8]; 14] = [
        b"bEGIN",
        b"CoMmIt",
        b"creatE",
        b"Delete",
        b"dROP",
        b"INSERt",
        b"instAll",
        b"releasE",
        b"RollBack",
        b"savePoint",
        b"seLECt",
        b"staRT",
        b"unInstall",
        b"upDATE",
    ];
    check_words(&rt, rt.alloc(), &words)
}

#[test]
fn keywords_within_statements_are_no_names(rt: HostRuntime) -> Result<(), Fail> {
    let words: [&[u8]; 21] = [
        b"aNd",
        b"BigInt",
        b"eNGINE",
        b"fRom",
        b"Into",
        b"iS",
        b"kEY",
        b"noT",
        b"nULl",
        b"oR",
        b"plUGin",
        b"PRImary",
        b"sET",
        b"SOname",
        b"TaBlE",
        b"tO",
        b"transACTion",
        b"vaLUES",
        b"varCHAR",
        b"wHERe",
        b"WORk",
    ];
    check_words(&rt, rt.alloc(), &words)
}

#[test]
fn seven_letters_may_stand_behind_a_backslash(rt: HostRuntime) -> Result<(), Fail> {
    let letters: [(&[u8], bool); 17] = [
        (b"'", true),
        (b"\"", true),
        (b"\\", true),
        (b"n", true),
        (b"r", true),
        (b"t", true),
        (b"0", true),
        (b"N", false),
        (b"R", false),
        (b"T", false),
        (b"1", false),
        (b"Z", false),
        (b"b", false),
        (b"%", false),
        (b"_", false),
        (b" ", false),
        (b"\xff", false),
    ];
    for (i, (letter, is_read)) in letters.iter().enumerate() {
        let found = fault_with(
            &rt,
            rt.alloc(),
            b"INSERT INTO t VALUES ('a\\",
            letter,
            b"')",
        )?;
        let expected = if *is_read { None } else { Some(24) };
        assert!(rt; found == expected, "letter {i}");
    }
    Ok(())
}

#[test]
fn length_is_bounded(rt: HostRuntime) -> Result<(), Fail> {
    let alloc = rt.alloc();
    let mut text = Vec::new(alloc);
    text.resize(65536, b' ')?;
    assert!(rt; fault_of(&rt, alloc, &text) == Some(65536));
    text.push(b' ')?;
    assert!(rt; fault_of(&rt, alloc, &text) == Some(-1));
    Ok(())
}

// A front with a word many times behind it.
fn repeated(alloc: Global, front: &[u8], word: &[u8], count: usize) -> Result<Vec<u8>, AllocError> {
    let mut text = front.to_vec(alloc)?;
    for _ in 0..count {
        text.extend_from_slice(word)?;
    }
    Ok(text)
}

#[test]
fn deep_parentheses_are_answered(rt: HostRuntime) -> Result<(), Fail> {
    let alloc = rt.alloc();
    let alone = repeated(alloc, b"", b"(", 65536)?;
    assert!(rt; fault_of(&rt, alloc, &alone) == Some(0));
    let open = repeated(alloc, b"DELETE FROM t WHERE ", b"(", 65516)?;
    assert!(rt; fault_of(&rt, alloc, &open) == Some(65536));
    let half = repeated(alloc, b"DELETE FROM t WHERE ", b"(", 32756)?;
    let text = repeated(alloc, &half, b"a=1", 1)?;
    let closed = repeated(alloc, &text, b")", 32756)?;
    assert!(rt; fault_of(&rt, alloc, &closed) == None);
    Ok(())
}

#[test]
fn deep_nots_are_answered(rt: HostRuntime) -> Result<(), Fail> {
    let alloc = rt.alloc();
    let open = repeated(alloc, b"DELETE FROM t WHERE ", b"NOT ", 16379)?;
    assert!(rt; fault_of(&rt, alloc, &open) == Some(65536));
    let mut closed = repeated(alloc, b"DELETE FROM t WHERE ", b"NOT ", 16378)?;
    closed.extend_from_slice(b"a=1")?;
    assert!(rt; fault_of(&rt, alloc, &closed) == None);
    Ok(())
}

fn op_letter(op: Op) -> u8 {
    match op {
        Op::Eq => b'=',
        Op::Ne => b'!',
        Op::Lt => b'<',
        Op::Le => b'(',
        Op::Gt => b'>',
        Op::Ge => b')',
    }
}

// One or two letters for each step.
fn put_step(out: &mut Vec<u8>, step: &Step) -> Result<(), AllocError> {
    match step {
        Step::Or { members } => out.extend_from_slice(&[b'O', b'0' + (*members % 10) as u8]),
        Step::And { members } => out.extend_from_slice(&[b'A', b'0' + (*members % 10) as u8]),
        Step::Not => out.extend_from_slice(b"N"),
        Step::Compare { op, .. } => out.extend_from_slice(&[op_letter(*op)]),
        Step::IsNull { negated, .. } => {
            let letter = if *negated { b'n' } else { b'0' };
            out.extend_from_slice(&[letter])
        }
    }
}

fn put_steps(out: &mut Vec<u8>, steps: &[Step]) -> Result<(), AllocError> {
    for step in steps {
        put_step(out, step)?;
    }
    Ok(())
}

// The steps of a DELETE's condition.
fn steps_of(alloc: Global, text: &[u8]) -> Result<Vec<u8>, Fail> {
    let mut out = Vec::new(alloc);
    if let Ok(Statement::Delete { cond, .. }) = parse(alloc, text) {
        if let Some(cond) = cond {
            put_steps(&mut out, cond.steps.as_slice())?;
        }
    }
    Ok(out)
}

#[test]
fn conditions_are_steps_behind_what_they_are_about(rt: HostRuntime) -> Result<(), Fail> {
    let cases: [(&[u8], &[u8]); 10] = [
        (b"DELETE FROM t WHERE a = 1", b"="),
        (b"DELETE FROM t WHERE a <> 1 AND b IS NULL", b"!0A2"),
        (
            b"DELETE FROM t WHERE a < 1 OR b IS NOT NULL AND c <= 2",
            b"<n(A2O2",
        ),
        (b"DELETE FROM t WHERE a < 1 AND b > 1 OR c >= 2", b"<>A2)O2"),
        (b"DELETE FROM t WHERE (a = 1 OR b < 1) OR c > 1", b"=<O2>O2"),
        (b"DELETE FROM t WHERE a = 1 OR b < 1 OR c > 1", b"=<>O3"),
        (
            b"DELETE FROM t WHERE NOT NOT a = 1 AND NOT b < 2",
            b"=NN<NA2",
        ),
        (
            b"DELETE FROM t WHERE NOT (a = 1 AND (b < 2 OR c > 3))",
            b"=<>O2A2N",
        ),
        (b"DELETE FROM t WHERE ((((a = 1))))", b"="),
        (
            b"DELETE FROM T WHERE A = 1 OR NOT (b < 2 OR c IS NULL) AND d = 'x'",
            b"=<0O2N=A2O2",
        ),
    ];
    for (i, (text, steps)) in cases.iter().enumerate() {
        let found = steps_of(rt.alloc(), text)?;
        assert!(rt; found.as_slice() == *steps, "row {i}");
    }
    Ok(())
}

fn put_literal(out: &mut Vec<u8>, literal: &Literal) -> Result<(), AllocError> {
    match literal {
        Literal::Null => out.extend_from_slice(b"NULL "),
        Literal::Int(number) => {
            let digits = number.to_string(*out.allocator())?;
            out.extend_from_slice(digits.as_bytes())?;
            out.extend_from_slice(b" ")
        }
        Literal::Text(text) => {
            out.extend_from_slice(text.as_bytes())?;
            out.extend_from_slice(b" ")
        }
    }
}

fn put_row(out: &mut Vec<u8>, row: &Literals) -> Result<(), AllocError> {
    for value in row.values.as_slice() {
        put_literal(out, value)?;
    }
    out.extend_from_slice(b"/")
}

fn put_rows(out: &mut Vec<u8>, rows: &[Literals]) -> Result<(), AllocError> {
    for row in rows {
        put_row(out, row)?;
    }
    Ok(())
}

#[test]
fn values_are_read_exactly(rt: HostRuntime) -> Result<(), Fail> {
    let alloc = rt.alloc();
    let text = b"INSERT INTO Ab VALUES (-0012, NULL), ('it''s\\n\\\\', 7)";
    let mut out = Vec::new(alloc);
    if let Ok(Statement::Insert { table, rows }) = parse(alloc, text) {
        out.extend_from_slice(table.as_bytes())?;
        put_rows(&mut out, rows.as_slice())?;
    }
    assert!(rt; out.as_slice() == b"Ab-12 NULL /it's\n\\ 7 /".as_slice());
    Ok(())
}
