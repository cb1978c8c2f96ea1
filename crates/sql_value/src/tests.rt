//! Tables of values, sums and refusals, written by hand.
use crate::{Cycle, Name, Refusal, Text, Value, are_comparable, checked_add, checked_sub, compare};
use std::alloc::{AllocError, Global};
use std::cmp::Ordering;
use std::test::Fail;

fn text(alloc: Global, bytes: &[u8]) -> Result<Value, AllocError> {
    Ok(Value::Text(Text::new(bytes.to_vec(alloc)?)))
}

#[test]
fn values_compare_within_one_type(rt: HostRuntime) -> Result<(), Fail> {
    let alloc = rt.alloc();
    let cases = [
        (Value::Int(-1), Value::Int(1), Some(Ordering::Less)),
        (Value::Int(7), Value::Int(7), Some(Ordering::Equal)),
        (
            Value::Int(i64::MAX),
            Value::Int(i64::MIN),
            Some(Ordering::Greater),
        ),
        (
            text(alloc, b"a")?,
            text(alloc, b"ab")?,
            Some(Ordering::Less),
        ),
        (text(alloc, b"B")?, text(alloc, b"a")?, Some(Ordering::Less)),
        (
            text(alloc, b"\xff")?,
            text(alloc, b"z")?,
            Some(Ordering::Greater),
        ),
        (text(alloc, b"")?, text(alloc, b"")?, Some(Ordering::Equal)),
        (Value::Null, Value::Int(0), None),
        (text(alloc, b"NULL")?, Value::Null, None),
        (Value::Null, Value::Null, None),
    ];
    for (i, (a, b, expected)) in cases.iter().enumerate() {
        assert!(rt; are_comparable(a, b), "row {i}");
        assert!(rt; compare(a, b) == *expected, "row {i}");
    }
    assert!(rt; !are_comparable(&Value::Int(1), &text(alloc, b"1")?));
    assert!(rt; !are_comparable(&text(alloc, b"1")?, &Value::Int(1)));
    Ok(())
}

#[test]
fn sums_end_at_the_limits_of_bigint(rt: HostRuntime) {
    // a, b, a + b, a - b
    let cases: [(i64, i64, Option<i64>, Option<i64>); 6] = [
        (2, 3, Some(5), Some(-1)),
        (9223372036854775807, 1, None, Some(9223372036854775806)),
        (-9223372036854775808, 1, Some(-9223372036854775807), None),
        (-1, -9223372036854775808, None, Some(9223372036854775807)),
        (0, -9223372036854775808, Some(-9223372036854775808), None),
        (
            9223372036854775807,
            0,
            Some(9223372036854775807),
            Some(9223372036854775807),
        ),
    ];
    for (i, (a, b, sum, difference)) in cases.iter().enumerate() {
        assert!(rt; checked_add(*a, *b) == *sum, "sum of row {i}");
        assert!(rt; checked_sub(*a, *b) == *difference, "difference of row {i}");
    }
}

#[test]
fn refusals_have_their_numbers_and_texts(rt: HostRuntime) -> Result<(), Fail> {
    let alloc = rt.alloc();
    let waits = Cycle::new([2, 1, 64].to_vec(alloc)?);
    let cases: [(Refusal, u16, &[u8]); 24] = [
        (Refusal::StatementTooLong, 9007, b"statement too long"),
        (Refusal::Syntax { at: 28 }, 1064, b"syntax at 28"),
        (Refusal::Deadlock { cycle: waits }, 1213, b"deadlock 2 1 64"),
        (Refusal::NoSuchSavepoint, 1305, b"no such savepoint"),
        (Refusal::NoSuchTable, 1146, b"no such table"),
        (Refusal::TableExists, 1050, b"table exists"),
        (Refusal::PluginInstalled, 9001, b"plugin is installed"),
        (Refusal::PluginDying, 9002, b"plugin is dying"),
        (Refusal::NoSuchLibrary, 9003, b"no such library"),
        (
            Refusal::PluginNotInstalled,
            9004,
            b"plugin is not installed",
        ),
        (Refusal::PluginSlotsSpent, 9005, b"plugin slots spent"),
        (Refusal::UnknownEngine, 1286, b"unknown engine"),
        (Refusal::SchemaUnsuitable, 9006, b"schema does not suit"),
        (Refusal::UnknownColumn, 1054, b"unknown column"),
        (Refusal::ValueCount, 1136, b"value count"),
        (Refusal::WrongType, 9010, b"wrong type"),
        (Refusal::OutOfRange, 1264, b"out of range"),
        (Refusal::ColumnNotNullable, 1048, b"column cannot be null"),
        (Refusal::DataTooLong, 1406, b"data too long"),
        (Refusal::DuplicateEntry, 1062, b"duplicate entry"),
        (Refusal::TableFull, 1114, b"table full"),
        (Refusal::TransactionTooLarge, 9008, b"transaction too large"),
        (Refusal::LogSpent, 9009, b"log spent"),
        (Refusal::NotBuilt, 9099, b"not built"),
    ];
    for (i, (refusal, number, text)) in cases.iter().enumerate() {
        assert!(rt; refusal.number() == *number, "row {i}");
        let mut out = b"- ".to_vec(alloc)?;
        refusal.put_text(&mut out)?;
        assert!(rt; out.len() > 2);
        assert!(rt; &out[2..] == *text, "row {i}");
    }
    Ok(())
}

#[test]
fn greatest_place_is_printed_whole(rt: HostRuntime) -> Result<(), Fail> {
    let mut out = Vec::new(rt.alloc());
    Refusal::Syntax { at: 4294967295 }.put_text(&mut out)?;
    assert!(rt; out.as_slice() == b"syntax at 4294967295".as_slice());
    Ok(())
}

#[test]
fn names_have_1_to_64_bytes(rt: HostRuntime) -> Result<(), Fail> {
    let alloc = rt.alloc();
    // how many bytes, and whether they are a name
    let cases: [(usize, bool); 4] = [(0, false), (1, true), (64, true), (65, false)];
    for (i, (len, is_name)) in cases.iter().enumerate() {
        let mut bytes = Vec::new(alloc);
        bytes.resize(*len, b'a')?;
        match Name::new(bytes) {
            Ok(name) => {
                assert!(rt; *is_name, "row {i}");
                assert!(rt; name.copy()?.is_same(&name), "row {i}");
            }
            Err(bad) => assert!(rt; !*is_name && bad.bytes.len() == *len, "row {i}"),
        }
    }
    Ok(())
}

#[test]
fn texts_are_the_same_byte_by_byte(rt: HostRuntime) -> Result<(), Fail> {
    let alloc = rt.alloc();
    let word = Text::new(b"Ab".to_vec(alloc)?);
    assert!(rt; word.copy()?.is_same(&word));
    assert!(rt; !Text::new(b"ab".to_vec(alloc)?).is_same(&word));
    Ok(())
}
