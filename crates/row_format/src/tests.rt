//! Values from outside: bytes that were spelt by hand, and what stands there; limits of schemas; refusals of rows.

use crate::{
    Column, Kind, Name, Row, Schema, Text, Value, check_row, copy_row, image_len, is_same_row,
    key_of, name_of, put_name, put_row, put_schema, row_of, schema_len, schema_of,
};
use std::alloc::Global;
use std::test::Fail;

// The schema of t (k BIGINT PRIMARY KEY, v VARCHAR(10)).
const SCHEMA: [u8; 11] = [2, 0, 1, b'k', 8, 0, 1, b'v', 15, 10, 1];

// The image of the row (1, 'x') of t.
const ROW: [u8; 11] = [0, 1, 0, 0, 0, 0, 0, 0, 0, 1, b'x'];

// The spelling of the name JOURNAL.
const NAME: [u8; 8] = [7, b'J', b'O', b'U', b'R', b'N', b'A', b'L'];

#[test]
fn rows_are_read_and_written(rt: HostRuntime) -> Result<(), Fail> {
    let Some((schema, used)) = schema_of(rt.alloc(), &SCHEMA)? else {
        return Err(Fail::from("no schema"));
    };
    assert_eq!(rt; used, SCHEMA.len());
    assert_eq!(rt; schema_len(&schema), SCHEMA.len() as u64);
    let mut out = Vec::new(rt.alloc());
    put_schema(&schema, &mut out)?;
    assert_eq!(rt; out.as_slice(), SCHEMA.as_slice());
    let Some((row, used)) = row_of(rt.alloc(), &schema, &ROW)? else {
        return Err(Fail::from("no row"));
    };
    assert_eq!(rt; used, ROW.len());
    assert_eq!(rt; image_len(&schema, &row), ROW.len());
    let key = key_of(&schema, &row);
    assert!(rt; matches!(key, Some(Value::Int(1))));
    let mut out = Vec::new(rt.alloc());
    put_row(&schema, &row, &mut out)?;
    assert_eq!(rt; out.as_slice(), ROW.as_slice());
    let copy = copy_row(rt.alloc(), &row)?;
    assert!(rt; is_same_row(&copy, &row));
    assert!(rt; row_of(rt.alloc(), &schema, &ROW[..10])?.is_none());
    let Some((name, used)) = name_of(rt.alloc(), &NAME)? else {
        return Err(Fail::from("no name"));
    };
    assert_eq!(rt; used, 8);
    let mut out = Vec::new(rt.alloc());
    put_name(&name, &mut out)?;
    assert_eq!(rt; out.as_slice(), NAME.as_slice());
    Ok(())
}

// A column with a name of one letter.
fn column(alloc: Global, letter: u8, kind: Kind, nullable: bool) -> Result<Column, Fail> {
    match Name::new([letter].to_vec(alloc)?) {
        Ok(name) => Ok(Column {
            name,
            kind,
            nullable,
        }),
        Err(_) => Err(Fail::from("no name")),
    }
}

// So many columns of one type, named from b on, and one more column named by its letter.
fn columns(
    alloc: Global,
    count: u8,
    kind: Kind,
    letter: u8,
    last: Kind,
) -> Result<Vec<Column>, Fail> {
    let mut columns = Vec::new(alloc);
    for i in 0..count.min(99) {
        columns.push(column(alloc, b'b' + i, kind, false)?)?;
    }
    columns.push(column(alloc, letter, last, true)?)?;
    Ok(columns)
}

#[test]
fn schemas_keep_their_limits(rt: HostRuntime) -> Result<(), Fail> {
    let big = Kind::BigInt;
    let text = Kind::VarChar(255);
    for (what, count, kind, letter, last, key, wanted) in [
        ("one column", 0u8, big, b'a', big, None, true),
        ("16 columns", 15, big, b'a', big, Some(14u8), true),
        ("17 columns", 16, big, b'a', big, None, false),
        ("two equal names", 3, big, b'd', big, None, false),
        (
            "a VARCHAR of length 0",
            1,
            big,
            b'a',
            Kind::VarChar(0),
            None,
            false,
        ),
        ("a key that is no column", 1, big, b'a', big, Some(2), false),
        ("a key that is nullable", 1, big, b'a', big, Some(1), false),
        (
            "an image of 2,000 bytes",
            7,
            text,
            b'a',
            Kind::VarChar(206),
            None,
            true,
        ),
        (
            "an image of 2,001 bytes",
            7,
            text,
            b'a',
            Kind::VarChar(207),
            None,
            false,
        ),
    ] {
        let columns = columns(rt.alloc(), count, kind, letter, last)?;
        assert_eq!(rt; Schema::new(columns, key).is_ok(), wanted, "{what}");
    }
    let none = Vec::new(rt.alloc());
    assert!(rt; Schema::new(none, None).is_err());
    Ok(())
}

#[test]
fn rows_are_refused(rt: HostRuntime) -> Result<(), Fail> {
    let Some((schema, _)) = schema_of(rt.alloc(), &SCHEMA)? else {
        return Err(Fail::from("no schema"));
    };
    let long = Text::new([b'x'; 11].to_vec(rt.alloc())?);
    let short = Text::new([b'x'; 10].to_vec(rt.alloc())?);
    for (values, wanted) in [
        (vec![in rt.alloc(); Value::Int(1)]?, Some(1136)),
        (
            vec![in rt.alloc(); Value::Int(1), Value::Int(1)]?,
            Some(9010),
        ),
        (vec![in rt.alloc(); Value::Null, Value::Null]?, Some(1048)),
        // Both columns offend: the first one counts.
        (vec![in rt.alloc(); Value::Null, Value::Int(1)]?, Some(1048)),
        (
            vec![in rt.alloc(); Value::Int(1), Value::Text(long)]?,
            Some(1406),
        ),
        (
            vec![in rt.alloc(); Value::Int(1), Value::Text(short)]?,
            None,
        ),
        (vec![in rt.alloc(); Value::Int(1), Value::Null]?, None),
    ] {
        let refused = check_row(&schema, &Row::new(values)).err();
        assert_eq!(rt; refused.map(|refusal| refusal.number()), wanted);
    }
    Ok(())
}
