//! Conditions and SELECTs by hand on rows by hand.
use crate::{Chooser, ExecFault, select_rows};
use row_format::{Column, Kind};
use sql_text::{Cond, ListOf, Statement, parse};
use sql_value::{Name, Refusal, Row, Text, Truth, Value};
use std::alloc::{AllocError, Global};
use std::process::Abort;
use std::test::Fail;

fn name(rt: &impl Abort, alloc: Global, bytes: &[u8]) -> Result<Name, AllocError> {
    match Name::new(bytes.to_vec(alloc)?) {
        Ok(name) => Ok(name),
        Err(_) => rt.abort(),
    }
}

// The columns a BIGINT and s VARCHAR(5).
fn columns(rt: &impl Abort, alloc: Global) -> Result<Vec<Column>, AllocError> {
    let mut columns = Vec::new(alloc);
    columns.push(Column {
        name: name(rt, alloc, b"a")?,
        kind: Kind::BigInt,
        nullable: true,
    })?;
    columns.push(Column {
        name: name(rt, alloc, b"s")?,
        kind: Kind::VarChar(5),
        nullable: true,
    })?;
    Ok(columns)
}

fn number(n: Option<i64>) -> Value {
    match n {
        None => Value::Null,
        Some(n) => Value::Int(n),
    }
}

fn text(alloc: Global, bytes: Option<&[u8]>) -> Result<Value, AllocError> {
    match bytes {
        None => Ok(Value::Null),
        Some(bytes) => Ok(Value::Text(Text::new(bytes.to_vec(alloc)?))),
    }
}

fn row(alloc: Global, n: Option<i64>, bytes: Option<&[u8]>) -> Result<Row, AllocError> {
    let mut values = Vec::new(alloc);
    values.push(number(n))?;
    values.push(text(alloc, bytes)?)?;
    Ok(Row::new(values))
}

// The rows (1, 'x'), (NULL, 'y'), (3, NULL) and (NULL, NULL).
fn few(alloc: Global) -> Result<Vec<Row>, AllocError> {
    let mut rows = Vec::new(alloc);
    rows.push(row(alloc, Some(1), Some(b"x"))?)?;
    rows.push(row(alloc, None, Some(b"y"))?)?;
    rows.push(row(alloc, Some(3), None)?)?;
    rows.push(row(alloc, None, None)?)?;
    Ok(rows)
}

// The rows of the greatest and the least BIGINT and of NULL.
fn ends(alloc: Global) -> Result<Vec<Row>, AllocError> {
    let mut rows = Vec::new(alloc);
    rows.push(row(alloc, Some(i64::MAX), None)?)?;
    rows.push(row(alloc, Some(i64::MIN), None)?)?;
    rows.push(row(alloc, None, None)?)?;
    Ok(rows)
}

// The condition of a SELECT that ends so.
fn cond_of(rt: &impl Abort, alloc: Global, end: &[u8]) -> Result<Option<Cond>, AllocError> {
    let mut text = b"SELECT * FROM t".to_vec(alloc)?;
    text.extend_from_slice(end)?;
    match parse(alloc, &text) {
        Ok(Statement::Select { cond, .. }) => Ok(cond),
        _ => rt.abort(),
    }
}

// A truth as one letter; ! where a sum is outside BIGINT.
fn letter(truth: Option<Truth>) -> u8 {
    match truth {
        Some(Truth::Yes) => b'y',
        Some(Truth::No) => b'n',
        Some(Truth::Unknown) => b'u',
        None => b'!',
    }
}

// What a condition says of each of the rows, a letter for each.
fn said(
    rt: &impl Abort,
    alloc: Global,
    chooser: &mut Chooser,
    rows: &[Row],
    end: &[u8],
) -> Result<Vec<u8>, AllocError> {
    let columns = columns(rt, alloc)?;
    let cond = cond_of(rt, alloc, end)?;
    let mut letters = Vec::new(alloc);
    for row in rows {
        letters.push(letter(chooser.truth(&columns, &cond, row.values())?))?;
    }
    Ok(letters)
}

// Each condition must say of the rows what stands beside it. One chooser serves them all.
fn check(
    rt: &impl Abort,
    alloc: Global,
    rows: &[Row],
    cases: &[(&str, &str)],
) -> Result<(), AllocError> {
    let mut chooser = Chooser::new(alloc);
    for (end, wanted) in cases {
        let found = said(rt, alloc, &mut chooser, rows, end.as_bytes())?;
        assert!(rt; found.as_slice() == wanted.as_bytes(), "{end}");
    }
    Ok(())
}

#[test]
fn conditions_have_three_values(rt: HostRuntime) -> Result<(), Fail> {
    let alloc = rt.alloc();
    let cases: [(&str, &str); 30] = [
        ("", "yyyy"),
        (" WHERE a = 1", "yunu"),
        (" WHERE 1 = a", "yunu"),
        (" WHERE a <> 1", "nuyu"),
        (" WHERE NOT a = 1", "nuyu"),
        (" WHERE a = NULL", "uuuu"),
        (" WHERE NULL = a", "uuuu"),
        (" WHERE NOT a = NULL", "uuuu"),
        (" WHERE NULL = NULL", "uuuu"),
        (" WHERE a IS NULL", "nyny"),
        (" WHERE a IS NOT NULL", "ynyn"),
        (" WHERE NOT s IS NULL", "yynn"),
        (" WHERE a + NULL IS NULL", "yyyy"),
        (" WHERE 1 + 1 IS NULL", "nnnn"),
        (" WHERE a < 3", "yunu"),
        (" WHERE a <= 3", "yuyu"),
        (" WHERE a > 1", "nuyu"),
        (" WHERE a >= 1", "yuyu"),
        (" WHERE a - 1 = 1 - a", "yunu"),
        (" WHERE s < 'y'", "ynuu"),
        (" WHERE s >= 'xx'", "nyuu"),
        (" WHERE a = 1 AND s = NULL", "uunu"),
        (" WHERE a = 1 OR s = NULL", "yuuu"),
        (" WHERE NOT (a = 2 AND s = NULL)", "yuyu"),
        (" WHERE NOT (a = 2 OR s = NULL)", "uuuu"),
        (" WHERE a = 1 OR a = 2 OR a = 3", "yuyu"),
        (" WHERE a > 0 AND a > 1 AND a > 2 AND a < 4", "nuyu"),
        (" WHERE (a = 3 OR a = 1) AND s = 'x'", "ynuu"),
        (" WHERE a = 3 OR a = 1 AND s = 'y'", "nuyu"),
        (" WHERE NOT NOT NOT ((a = 3))", "yunu"),
    ];
    check(&rt, alloc, &few(alloc)?, &cases)?;
    Ok(())
}

#[test]
fn sums_end_at_both_ends_of_bigint(rt: HostRuntime) -> Result<(), Fail> {
    let alloc = rt.alloc();
    let cases: [(&str, &str); 12] = [
        (" WHERE a + 0 = a", "yyu"),
        (" WHERE a - a = 0", "yyu"),
        (" WHERE a + 1 = 0", "!nu"),
        (" WHERE a - 1 = 0", "n!u"),
        (" WHERE a + 1 IS NULL", "!ny"),
        (" WHERE a = a OR a + 1 = 0", "!yu"),
        (" WHERE a <> a AND a + 1 = 0", "!nu"),
        (" WHERE NULL + a + 1 IS NULL", "yyy"),
        (" WHERE 9223372036854775807 + 1 - 1 IS NULL", "!!!"),
        (" WHERE 9223372036854775807 - 1 + 1 >= a", "yyu"),
        (" WHERE -9223372036854775808 < a", "ynu"),
        (" WHERE -1 - a >= 0", "nyu"),
    ];
    check(&rt, alloc, &ends(alloc)?, &cases)?;
    Ok(())
}

// A condition behind so many openings, with as many endings behind it.
fn nested(
    alloc: Global,
    opening: &[u8],
    ending: &[u8],
    depth: usize,
) -> Result<Vec<u8>, AllocError> {
    let mut text = b" WHERE ".to_vec(alloc)?;
    for _ in 0..depth {
        text.extend_from_slice(opening)?;
    }
    text.extend_from_slice(b"a = 1")?;
    for _ in 0..depth {
        text.extend_from_slice(ending)?;
    }
    Ok(text)
}

#[test]
fn a_condition_may_be_deep_and_long(rt: HostRuntime) -> Result<(), Fail> {
    let alloc = rt.alloc();
    let rows = few(alloc)?;
    let mut chooser = Chooser::new(alloc);
    // what stands before it, what stands behind it, how often, and what it says
    let cases: [(&[u8], &[u8], usize, &[u8]); 5] = [
        (b"NOT ", b"", 15001, b"nuyu"),
        (b"NOT (", b")", 8001, b"nuyu"),
        (b"(", b")", 30000, b"yunu"),
        (b"a = 3 OR ", b"", 6000, b"yuyu"),
        (b"a = 3 AND (a = 1 OR ", b")", 3000, b"nunu"),
    ];
    for (opening, ending, depth, wanted) in cases {
        let text = nested(alloc, opening, ending, depth)?;
        let found = said(&rt, alloc, &mut chooser, &rows, &text)?;
        assert!(rt; found.as_slice() == wanted);
    }
    Ok(())
}

// The columns and the condition of a SELECT that reads so.
fn select_of(
    rt: &impl Abort,
    alloc: Global,
    text: &[u8],
) -> Result<(Option<ListOf<Name>>, Option<Cond>), AllocError> {
    match parse(alloc, text) {
        Ok(Statement::Select { columns, cond, .. }) => Ok((columns, cond)),
        _ => rt.abort(),
    }
}

// A value as one letter: its digit, the first letter of its text, or - for NULL.
fn sign(value: &Value) -> u8 {
    match value {
        Value::Null => b'-',
        Value::Int(n) => b'0' + (*n & 7) as u8,
        Value::Text(text) => text.as_bytes().first().copied().unwrap_or(b' '),
    }
}

fn is_out_of_range(fault: &ExecFault) -> bool {
    match fault {
        ExecFault::Refused(refusal) => matches!(refusal, Refusal::OutOfRange),
        _ => false,
    }
}

// The rows that a SELECT answers of the few rows, a letter for each value and a stroke behind each row; ! where it is refused.
fn answered(rt: &impl Abort, alloc: Global, text: &[u8]) -> Result<Vec<u8>, AllocError> {
    let columns = columns(rt, alloc)?;
    let (names, cond) = select_of(rt, alloc, text)?;
    let mut letters = Vec::new(alloc);
    match select_rows(alloc, &columns, &names, &cond, few(alloc)?) {
        Ok(rows) => {
            for row in rows.as_slice() {
                for value in row.values() {
                    letters.push(sign(value))?;
                }
                letters.push(b'|')?;
            }
        }
        Err(fault) => {
            assert!(rt; is_out_of_range(&fault));
            letters.push(b'!')?;
        }
    }
    Ok(letters)
}

#[test]
fn a_select_answers_the_chosen_rows(rt: HostRuntime) -> Result<(), Fail> {
    let alloc = rt.alloc();
    for (text, wanted) in [
        ("SELECT * FROM t", "1x|-y|3-|--|"),
        ("SELECT s, a, s FROM t WHERE a >= 1", "x1x|-3-|"),
        ("SELECT a FROM t WHERE s = NULL", ""),
        ("SELECT s FROM t WHERE a IS NULL", "y|-|"),
        ("SELECT a FROM t WHERE a + 9223372036854775807 = a", "!"),
    ] {
        let found = answered(&rt, alloc, text.as_bytes())?;
        assert!(rt; found.as_slice() == wanted.as_bytes(), "{text}");
    }
    Ok(())
}
