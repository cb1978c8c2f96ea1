//! Rows that were worked out by hand, and many calls beside a plain list.
use crate::RowTable;
use row_format::{Change, Column, Columns, Kind, Name, Row, Schema, TableMap, Text, Value};
use std::alloc::{AllocError, Global};
use std::test::Fail;

// A table can be sent to another thread.
fn is_send<T: Send>(_: &T) {}

fn name(alloc: Global, letter: u8) -> Result<Name, AllocError> {
    match Name::new([letter].to_vec(alloc)?) {
        Ok(name) => Ok(name),
        Err(_) => Err(AllocError),
    }
}

fn column(alloc: Global, letter: u8, kind: Kind) -> Result<Column, Fail> {
    Ok(Column {
        name: name(alloc, letter)?,
        kind,
        nullable: false,
    })
}

// A table of a number and a text, with this key column.
fn table(alloc: Global, key: Option<u8>) -> Result<RowTable, Fail> {
    let mut columns = Vec::new(alloc);
    columns.push(column(alloc, b'k', Kind::BigInt)?)?;
    columns.push(column(alloc, b'v', Kind::VarChar(10))?)?;
    let columns = Columns::new(columns);
    Ok(RowTable::new(Schema { columns, key }, alloc))
}

fn row(alloc: Global, key: i64, letter: u8) -> Result<Row, AllocError> {
    let mut values = Vec::new(alloc);
    values.push(Value::Int(key))?;
    values.push(Value::Text(Text::new([letter].to_vec(alloc)?)))?;
    Ok(Row::new(values))
}

// The number in the first column.
fn key_of(row: &Row) -> i64 {
    match row.values().first() {
        Some(Value::Int(key)) => *key,
        _ => -1,
    }
}

// The numbers of all rows, in order.
fn keys_of(alloc: Global, table: &RowTable) -> Result<Vec<i64>, AllocError> {
    let mut keys = Vec::new(alloc);
    for place in 0..table.len().min(1_000) {
        if let Some(row) = table.at_place(place as u32) {
            keys.push(key_of(row))?;
        }
    }
    Ok(keys)
}

// Adds a row where its key is free, and tells its place.
fn add(table: &mut RowTable, row: Row) -> Result<Option<u32>, AllocError> {
    table.reserve(1)?;
    Ok(table.insert(row).ok())
}

// Puts a row in place of another; None where there is no such place, else whether the key was free.
fn put(table: &mut RowTable, place: u32, row: Row) -> Option<bool> {
    if (place as usize) < table.len() {
        Some(table.replace(place, row).is_ok())
    } else {
        None
    }
}

// Takes a row out, if there is one at this place.
fn take(table: &mut RowTable, place: u32) -> Option<i64> {
    if (place as usize) < table.len() {
        Some(key_of(&table.remove(place)))
    } else {
        None
    }
}

#[test]
fn rows_stand_in_key_order(rt: HostRuntime) -> Result<(), Fail> {
    let alloc = rt.alloc();
    let mut rows = table(alloc, Some(0))?;
    is_send(&rows);
    assert_eq!(rt; add(&mut rows, row(alloc, 3, b'a')?)?, Some(0));
    assert_eq!(rt; add(&mut rows, row(alloc, 1, b'b')?)?, Some(0));
    assert_eq!(rt; add(&mut rows, row(alloc, 2, b'c')?)?, Some(1));
    assert_eq!(rt; add(&mut rows, row(alloc, 2, b'd')?)?, None);
    assert!(rt; keys_of(alloc, &rows)?.as_slice() == [1, 2, 3].as_slice());
    assert_eq!(rt; rows.at_key(&Value::Int(3)), Some(2));
    assert_eq!(rt; rows.at_key(&Value::Int(4)), None);
    assert_eq!(rt; put(&mut rows, 0, row(alloc, 5, b'e')?), Some(true));
    assert!(rt; keys_of(alloc, &rows)?.as_slice() == [2, 3, 5].as_slice());
    assert_eq!(rt; put(&mut rows, 0, row(alloc, 5, b'f')?), Some(false));
    assert_eq!(rt; put(&mut rows, 1, row(alloc, 3, b'g')?), Some(true));
    assert!(rt; keys_of(alloc, &rows)?.as_slice() == [2, 3, 5].as_slice());
    assert_eq!(rt; take(&mut rows, 1), Some(3));
    assert!(rt; keys_of(alloc, &rows)?.as_slice() == [2, 5].as_slice());
    assert!(rt; rows.at_place(2).is_none());
    Ok(())
}

#[test]
fn a_row_that_is_replaced_goes_where_its_key_goes(rt: HostRuntime) -> Result<(), Fail> {
    let alloc = rt.alloc();
    let mut rows = table(alloc, Some(0))?;
    for key in [10, 20, 30, 40] {
        assert!(rt; add(&mut rows, row(alloc, key, b'a')?)?.is_some());
    }
    let cases = [
        (1, 20, true, [10, 20, 30, 40]),
        (1, 25, true, [10, 25, 30, 40]),
        (1, 35, true, [10, 30, 35, 40]),
        (2, 5, true, [5, 10, 30, 40]),
        (0, 30, false, [5, 10, 30, 40]),
        (3, 10, false, [5, 10, 30, 40]),
        (3, 50, true, [5, 10, 30, 50]),
        (0, 60, true, [10, 30, 50, 60]),
    ];
    for (place, key, free, keys) in cases {
        assert_eq!(rt;
            put(&mut rows, place, row(alloc, key, b'b')?),
            Some(free),
            "key {key}"
        );
        assert!(rt;
            keys_of(alloc, &rows)?.as_slice() == keys.as_slice(),
            "key {key}"
        );
    }
    Ok(())
}

#[test]
fn the_first_key_above_is_found(rt: HostRuntime) -> Result<(), Fail> {
    let alloc = rt.alloc();
    let mut rows = table(alloc, Some(0))?;
    let mut heap = table(alloc, None)?;
    for key in [10, 20, 30] {
        assert!(rt; add(&mut rows, row(alloc, key, b'a')?)?.is_some());
        assert!(rt; add(&mut heap, row(alloc, key, b'a')?)?.is_some());
    }
    let cases = [
        (9, Some(0)),
        (10, Some(1)),
        (11, Some(1)),
        (20, Some(2)),
        (29, Some(2)),
        (30, None),
        (31, None),
    ];
    for (key, place) in cases {
        assert_eq!(rt; rows.above_key(&Value::Int(key)), place, "key {key}");
    }
    assert_eq!(rt; rows.above_key(&Value::Null), Some(0));
    assert_eq!(rt; heap.above_key(&Value::Int(9)), None);
    Ok(())
}

#[test]
fn rows_without_a_key_stand_as_they_came(rt: HostRuntime) -> Result<(), Fail> {
    let alloc = rt.alloc();
    let mut rows = table(alloc, None)?;
    for key in [3, 1, 3] {
        assert!(rt; add(&mut rows, row(alloc, key, b'a')?)?.is_some());
    }
    assert!(rt; keys_of(alloc, &rows)?.as_slice() == [3, 1, 3].as_slice());
    assert_eq!(rt; rows.at_key(&Value::Int(3)), None);
    assert_eq!(rt; put(&mut rows, 1, row(alloc, 7, b'b')?), Some(true));
    assert_eq!(rt; take(&mut rows, 0), Some(3));
    assert!(rt; keys_of(alloc, &rows)?.as_slice() == [7, 3].as_slice());
    Ok(())
}

#[test]
fn what_was_taken_out_goes_back_without_room_made_for_it(rt: HostRuntime) -> Result<(), Fail> {
    let alloc = rt.alloc();
    let columns = Columns::new(Vec::new(alloc));
    let mut rows = RowTable::new(Schema { columns, key: None }, alloc);
    rows.reserve(2)?;
    assert_eq!(rt; rows.spare(), 2);
    assert!(rt; rows.insert(row(alloc, 4, b'a')?).is_ok());
    assert_eq!(rt; (rows.len(), rows.spare()), (1, 1));
    let before = take(&mut rows, 0);
    assert_eq!(rt; (before, rows.len(), rows.spare()), (Some(4), 0, 2));
    put_back(&mut rows, row(alloc, 4, b'a')?);
    assert_eq!(rt; (rows.len(), rows.spare()), (1, 1));
    Ok(())
}

#[test]
fn many_rows_come_and_go_at_the_front(rt: HostRuntime) -> Result<(), Fail> {
    let alloc = rt.alloc();
    let mut rows = table(alloc, Some(0))?;
    for key in (0..3_000).rev() {
        assert_eq!(rt; add(&mut rows, row(alloc, key, b'a')?)?, Some(0));
    }
    for place in [0, 1_023, 1_024, 2_047, 2_048, 2_999] {
        assert_eq!(rt; rows.at_place(place).map(key_of), Some(i64::from(place)));
    }
    for key in 0..1_500 {
        assert_eq!(rt; take(&mut rows, 0), Some(key));
    }
    for place in [0, 1_023, 1_024, 1_499] {
        let wanted = i64::from(place) + 1_500;
        assert_eq!(rt; rows.at_place(place).map(key_of), Some(wanted));
        assert_eq!(rt; rows.at_key(&Value::Int(wanted)), Some(place));
    }
    assert!(rt; rows.at_place(1_500).is_none());
    Ok(())
}

// Puts a row at the front of a table that has no key, where there is room.
fn put_back(table: &mut RowTable, row: Row) {
    if table.schema().key.is_none() && table.spare() > 0 {
        table.insert_at(0, row);
    }
}

// Adds a number to a plain list in order; where it goes, if it is not there.
fn add_plain(keys: &mut Vec<i64>, key: i64) -> Result<Option<usize>, AllocError> {
    let mut place = 0;
    for (i, it) in keys.iter().enumerate() {
        if *it == key {
            return Ok(None);
        }
        if *it < key {
            place = i + 1;
        }
    }
    let place = place.min(keys.len());
    keys.insert(place, key)?;
    Ok(Some(place))
}

#[test]
fn many_calls_do_what_a_plain_list_does(rt: HostRuntime) -> Result<(), Fail> {
    let alloc = rt.alloc();
    let mut rows = table(alloc, Some(0))?;
    let mut plain: Vec<i64> = Vec::new(alloc);
    let mut seed = 12_345u32;
    for round in 0..400 {
        seed = seed.wrapping_mul(1_664_525).wrapping_add(1_013_904_223);
        let key = i64::from(seed >> 24);
        if seed & 3 == 0 && !plain.is_empty() {
            let place = (key as usize).min(plain.len() - 1);
            let was = plain.remove(place);
            assert_eq!(rt; take(&mut rows, place as u32), Some(was), "round {round}");
        } else {
            let wanted = add_plain(&mut plain, key)?;
            let place = add(&mut rows, row(alloc, key, b'a')?)?;
            assert_eq!(rt; place.map(|it| it as usize), wanted, "round {round}");
        }
        assert!(rt;
            keys_of(alloc, &rows)?.as_slice() == plain.as_slice(),
            "round {round}"
        );
    }
    Ok(())
}

// A row by its number and its letter, where there is one.
fn row_if(alloc: Global, cells: Option<(i64, u8)>) -> Result<Option<Row>, AllocError> {
    match cells {
        Some((key, letter)) => Ok(Some(row(alloc, key, letter)?)),
        None => Ok(None),
    }
}

// A change at a place: from a row, or from none, to another, or to none.
type Step = (u32, Option<(i64, u8)>, Option<(i64, u8)>);

// The change of a table, as the log would have it.
fn change(alloc: Global, table: &RowTable, step: Step) -> Result<Change, AllocError> {
    let (place, before, after) = step;
    let map = TableMap {
        table: name(alloc, b't')?,
        schema: table.schema().copy(alloc)?,
    };
    match (row_if(alloc, before)?, row_if(alloc, after)?) {
        (None, Some(row)) => Ok(Change::Insert { map, row }),
        (Some(before), None) => Ok(Change::Delete { map, place, before }),
        (Some(before), Some(after)) => Ok(Change::Update {
            map,
            place,
            before,
            after,
        }),
        (None, None) => Err(AllocError),
    }
}

// Makes a change and undoes it; the keys in between, or None where it does not apply.
fn there_and_back(
    table: &mut RowTable,
    alloc: Global,
    change: Change,
) -> Result<Option<Vec<i64>>, AllocError> {
    if !table.applies(&change) {
        return Ok(None);
    }
    table.make(&change, alloc)?;
    let keys = keys_of(alloc, table)?;
    table.undo(change);
    Ok(Some(keys))
}

// Whether the keys are these between a change and its undoing, and those that they were again afterwards.
fn sees(table: &mut RowTable, alloc: Global, step: Step, keys: &[i64]) -> Result<bool, AllocError> {
    let before = keys_of(alloc, table)?;
    let change = change(alloc, table, step)?;
    let seen = there_and_back(table, alloc, change)?;
    let after = keys_of(alloc, table)?;
    match seen {
        Some(seen) => Ok(seen.as_slice() == keys && before.as_slice() == after.as_slice()),
        None => Ok(false),
    }
}

// Whether a change applies.
fn applies(table: &RowTable, alloc: Global, step: Step) -> Result<bool, AllocError> {
    Ok(table.applies(&change(alloc, table, step)?))
}

#[test]
fn changes_by_key_are_made_and_undone(rt: HostRuntime) -> Result<(), Fail> {
    let alloc = rt.alloc();
    let mut rows = table(alloc, Some(0))?;
    for key in [1, 2, 3] {
        assert!(rt; add(&mut rows, row(alloc, key, b'a')?)?.is_some());
    }
    let deletes = (0, Some((2, b'a')), None);
    assert!(rt; sees(&mut rows, alloc, deletes, [1, 3].as_slice())?);
    assert_eq!(rt; rows.spare(), 0);
    let moves = (0, Some((1, b'a')), Some((4, b'b')));
    assert!(rt; sees(&mut rows, alloc, moves, [2, 3, 4].as_slice())?);
    let stays = (0, Some((2, b'a')), Some((2, b'b')));
    assert!(rt; sees(&mut rows, alloc, stays, [1, 2, 3].as_slice())?);
    let inserts = (0, None, Some((0, b'b')));
    assert!(rt; sees(&mut rows, alloc, inserts, [0, 1, 2, 3].as_slice())?);
    Ok(())
}

#[test]
fn changes_by_place_are_made_and_undone(rt: HostRuntime) -> Result<(), Fail> {
    let alloc = rt.alloc();
    let mut rows = table(alloc, None)?;
    for key in [3, 1, 3] {
        assert!(rt; add(&mut rows, row(alloc, key, b'a')?)?.is_some());
    }
    let deletes = (1, Some((1, b'a')), None);
    assert!(rt; sees(&mut rows, alloc, deletes, [3, 3].as_slice())?);
    let stays = (2, Some((3, b'a')), Some((1, b'b')));
    assert!(rt; sees(&mut rows, alloc, stays, [3, 1, 1].as_slice())?);
    let inserts = (0, None, Some((3, b'b')));
    assert!(rt; sees(&mut rows, alloc, inserts, [3, 1, 3, 3].as_slice())?);
    Ok(())
}

#[test]
fn changes_of_other_rows_do_not_apply(rt: HostRuntime) -> Result<(), Fail> {
    let alloc = rt.alloc();
    let mut rows = table(alloc, Some(0))?;
    for key in [1, 2, 3] {
        assert!(rt; add(&mut rows, row(alloc, key, b'a')?)?.is_some());
    }
    assert!(rt; !applies(&rows, alloc, (0, None, Some((3, b'b'))))?);
    assert!(rt; !applies(&rows, alloc, (0, Some((9, b'a')), None))?);
    assert!(rt; !applies(&rows, alloc, (0, Some((1, b'b')), None))?);
    assert!(rt; !applies(&rows, alloc, (0, Some((1, b'a')), Some((3, b'b'))))?);
    Ok(())
}

#[test]
fn there_is_no_room_for_more_rows_than_have_numbers(rt: HostRuntime) -> Result<(), Fail> {
    let alloc = rt.alloc();
    let mut rows = table(alloc, Some(0))?;
    assert!(rt; rows.reserve(4_294_967_296).is_err());
    assert!(rt; add(&mut rows, row(alloc, 1, b'a')?)?.is_some());
    assert!(rt; rows.reserve(4_294_967_295).is_err());
    assert_eq!(rt; (rows.len(), rows.spare()), (1, 0));
    Ok(())
}
