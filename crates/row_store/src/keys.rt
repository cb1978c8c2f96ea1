//! Rows by key: a row is found by binary search, over slots that are read in key order.
ghost use Rattle.std.specs.Prelude.{◌≡◌, ◌≤◌, ◌<◌, [], length, get_or, IfSome, IfOk, IfErr, Some, None};
ghost use Rattle.std.specs.List.{position};
ghost use Rattle.sql_value.specs.Values.{value_cmp};
ghost use Rattle.log_tables.specs.Keys.{key_in, IsInKeyOrder, IsOrdered};
ghost use Rattle.row_store.specs.Slots.{row_in as row_of, rows_in};
ghost use Rattle.row_store.specs.Rows.{is_key_below, is_key_above, first_above, AreParted, Finds, Takes, IsAtKey, Moves};

use crate::order::Order;
use crate::slots::row_in;
use row_format::{Row, Value};
use sql_value::value_order;
use std::cmp::Ordering;

// How the key of a row stands to a value.
fn row_order(row: &Row, column: usize, key: &Value) -> Ordering
    ensures { result ≡ value_cmp (key_in column row.now) key.now }
{
    match row.values().get(column) {
        Some(found) => value_order(found, key),
        None => value_order(&Value::Null, key),
    }
}

// How the key of the row in a slot stands to a value.
fn key_order(slots: &[Option<Row>], slot: u32, column: usize, key: &Value) -> Ordering
    ensures { result ≡ value_cmp (key_in column (row_of slots.now slot)) key.now }
{
    match row_in(slots, slot) {
        Some(row) => row_order(row, column, key),
        None => value_order(&Value::Null, key),
    }
}

// Whether the row at a place has a lower key.
fn is_below(slots: &[Option<Row>], order: &Order, i: usize, column: usize, key: &Value) -> bool
    requires within { i < length order.now.items }
    ensures { result ≡ is_key_below column key.now
        (get_or (rows_in slots.now order.now.items) i []) }
{
    match order.get(i) {
        Some(slot) => key_order(slots, slot, column, key) == Ordering::Less,
        None => unreachable!(),
    }
}

// How many of the rows, from the first, have lower keys, where they are in key order.
fn count_below(slots: &[Option<Row>], order: &Order, column: usize, key: &Value) -> usize
    ensures within { result ≤ length order.now.items }
    ensures parted { IsInKeyOrder column (rows_in slots.now order.now.items)
        → AreParted column key.now (rows_in slots.now order.now.items) result }
{
    let mut low = 0;
    let mut high = order.len();
    while low < high {
        let middle = low + (high - low) / 2;
        if is_below(slots, order, middle, column, key) {
            low = middle + 1;
        } else {
            high = middle;
        }
    }
    low
}

// Where the row with this key stands among rows in key order; as an Err the place for it, where none has it.
fn find_key(
    slots: &[Option<Row>],
    order: &Order,
    column: usize,
    key: &Value,
) -> Result<usize, usize>
    ensures there { IfOk result (λ i. i < length order.now.items) }
    ensures within { IfErr result (λ i. i ≤ length order.now.items) }
    ensures found { IsInKeyOrder column (rows_in slots.now order.now.items)
        → Finds column key.now (rows_in slots.now order.now.items) result }
{
    let i = count_below(slots, order, column, key);
    match order.get(i) {
        None => Err(i),
        Some(slot) => {
            if key_order(slots, slot, column, key) == Ordering::Equal {
                Ok(i)
            } else {
                Err(i)
            }
        }
    }
}

/// The same for the key of a row.
pub(crate) fn find_row(
    slots: &[Option<Row>],
    order: &Order,
    column: usize,
    row: &Row,
) -> Result<usize, usize>
    ensures there { IfOk result (λ i. i < length order.now.items) }
    ensures within { IfErr result (λ i. i ≤ length order.now.items) }
    ensures found { IsInKeyOrder column (rows_in slots.now order.now.items)
        → Finds column (key_in column row.now) (rows_in slots.now order.now.items) result }
{
    match row.values().get(column) {
        Some(key) => find_key(slots, order, column, key),
        None => find_key(slots, order, column, &Value::Null),
    }
}

/// Where the row with this key stands; None where none has it, or there is no key.
pub(crate) fn place_at(
    key: Option<u8>,
    slots: &[Option<Row>],
    order: &Order,
    wanted: &Value,
) -> Option<usize>
    ensures within { IfSome result (λ i. i < length order.now.items) }
    ensures found { IsOrdered key (rows_in slots.now order.now.items)
        → IsAtKey key wanted.now (rows_in slots.now order.now.items) result }
{
    match key {
        Some(column) => find_key(slots, order, column as usize, wanted).ok(),
        None => None,
    }
}

/// Where a row goes, in key order or at the end; None where a row has its key.
pub(crate) fn place_in(
    key: Option<u8>,
    slots: &[Option<Row>],
    order: &Order,
    row: &Row,
) -> Option<usize>
    ensures within { IfSome result (λ i. i ≤ length order.now.items) }
    ensures end { key ≡ None → IfSome result (λ i. i ≡ length order.now.items) }
    ensures found { IsOrdered key (rows_in slots.now order.now.items)
        → Takes key row.now (rows_in slots.now order.now.items) result }
{
    match key {
        Some(column) => find_row(slots, order, column as usize, row).err(),
        None => Some(order.len()),
    }
}

// Where a row goes among the others in key order, in place of the one at a place; None where another has its key.
fn place_by_key(
    slots: &[Option<Row>],
    order: &Order,
    column: usize,
    i: usize,
    row: &Row,
) -> Option<usize>
    requires { i < length order.now.items }
    ensures within { IfSome result (λ j. j < length order.now.items) }
    ensures found { IsInKeyOrder column (rows_in slots.now order.now.items)
        → Moves (Some column) i row.now (rows_in slots.now order.now.items) result }
{
    match find_row(slots, order, column, row) {
        Ok(j) => { if j == i { Some(i) } else { None } }
        Err(j) => { if j > i { Some(j - 1) } else { Some(j) } }
    }
}

/// Where a row goes among the others, in place of the one at a place: by its key, or there where there is no key; None where another row
/// has its key.
pub(crate) fn place_beside(
    key: Option<u8>,
    slots: &[Option<Row>],
    order: &Order,
    i: usize,
    row: &Row,
) -> Option<usize>
    requires { i < length order.now.items }
    ensures within { IfSome result (λ j. j < length order.now.items) }
    ensures found { IsOrdered key (rows_in slots.now order.now.items)
        → Moves key i row.now (rows_in slots.now order.now.items) result }
{
    match key {
        Some(column) => place_by_key(slots, order, column as usize, i, row),
        None => Some(i),
    }
}

// Where the first row with a key above this one stands among rows in key order; None where there is none.
fn next_above(slots: &[Option<Row>], order: &Order, column: usize, low: &Value) -> Option<usize>
    ensures within { IfSome result (λ i. i < length order.now.items) }
    ensures found { IsInKeyOrder column (rows_in slots.now order.now.items)
        → result ≡ position (is_key_above column low.now)
        (rows_in slots.now order.now.items) }
{
    let len = order.len();
    match find_key(slots, order, column, low) {
        Ok(i) => (i + 1 < len).then_some(i + 1),
        Err(i) => (i < len).then_some(i),
    }
}

/// The same; None also where there is no key.
pub(crate) fn place_above(
    key: Option<u8>,
    slots: &[Option<Row>],
    order: &Order,
    low: &Value,
) -> Option<usize>
    ensures within { IfSome result (λ i. i < length order.now.items) }
    ensures found { IsOrdered key (rows_in slots.now order.now.items)
        → result ≡ first_above key low.now (rows_in slots.now order.now.items) }
{
    match key {
        Some(column) => next_above(slots, order, column as usize, low),
        None => None,
    }
}
