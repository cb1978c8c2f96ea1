//! A committed table: rows in key order, or as they were inserted.
//!
//! Invariant: the rows of a table with a key are in key order, so that a row is found by binary search (`IsOrdered`).
ghost use Rattle.std.specs.Prelude.{◌≡◌, ◌≤◌, ◌<◌, ◌^◌, [], Some, length, insert, remove, slice_get, unwrap_or, IfSome, IfErr, OnOk, OnErr, is_some};
ghost use Rattle.std.specs.Option.{option_copied};
ghost use Rattle.std.specs.Vec.{vec_len, vec_capacity};
ghost use Rattle.log_tables.specs.Keys.{key_in, row_with, inserted, IsInKeyOrder};
ghost use Rattle.log_tables.specs.Tables.{is_named};
ghost use Rattle.row_format.specs.declared.change.Change.TheVariants.{Insert, Update, Delete};
ghost use Rattle.log_tables.specs.Changes.{with_rows, rows_after};
ghost use Rattle.log_tables.specs.Keys.{IsOrdered};
ghost use Rattle.sql_value.specs.Values.{value_cmp};
ghost use Rattle.engine_api.specs.Live.{row_at, table_bytes};
ghost use Rattle.live_tables.specs.Bytes.{capped};
ghost use Rattle.live_tables.specs.Places.{below};
ghost use Rattle.live_tables.specs.Stored.{is_key_below, AreParted, Finds, Takes, with_row, moved, StandsAt};

use crate::bytes::{rows_len, schema_len};
use log_tables::Definition;
use row_format::{Change, Name, Row, Schema, TableMap, Value, is_same_row};
use sql_value::value_order;
use std::alloc::Global;
use std::cmp::Ordering;
use std::marker::Model;

/// A committed table.
#[derive(Drop)]
pub(crate) struct Stored {
    definition: Definition,
    rows: Vec<Row>,
}

impl Model for Stored {
    ghost use Rattle.log_tables.specs.declared.table.Table.{Table};
    ghost use Rattle.log_tables.specs.Keys.{IsOrdered};

    ghost Value = { Table };

    ghost view = { λ s. record { definition = s.definition; rows = s.rows.items } };

    ghost invariant = { λ s. IsOrdered s.definition.schema.key s.rows.items };
}

// How the key of a row stands to a value.
fn key_order(row: &Row, column: usize, key: &Value) -> Ordering
    ensures { result ≡ value_cmp (key_in column row.now) key.now }
{
    match row.values().get(column) {
        Some(found) => value_order(found, key),
        None => value_order(&Value::Null, key),
    }
}

/// Whether the key of a row is below a value.
pub(crate) fn is_below(row: &Row, column: usize, key: &Value) -> bool
    ensures { result ≡ is_key_below column key.now row.now }
{
    key_order(row, column, key).is_lt()
}

// How many of the rows have lower keys, in whatever order they are.
fn count_all_below(rows: &[Row], column: usize, key: &Value) -> usize
    ensures value { result ≡ below column key.now rows.now }
    ensures within { result ≤ length rows.now }
{
    let mut low = 0;
    let mut i = 0;
    while i < rows.len() {
        if is_below(&rows[i], column, key) {
            low += 1;
        }
        i += 1;
    }
    low
}

// How many of the rows, from the first, have lower keys, where they are in key order.
fn count_below(rows: &[Row], column: usize, key: &Value) -> usize
    ensures within { result ≤ length rows.now }
    ensures parted { IsInKeyOrder column rows.now → AreParted column key.now rows.now result }
{
    rows.partition_point(|row| key_order(row, column, key) == Ordering::Less)
}

// The row with this key, where the rows are in key order.
fn row_of<'a>(rows: &'a [Row], column: usize, key: &Value) -> Option<&'a Row>
    ensures { IsInKeyOrder column rows.now
        → option_copied result ≡ row_with column key.now rows.now }
{
    let row = rows.get(count_below(rows, column, key))?;
    if key_order(row, column, key) == Ordering::Equal {
        Some(row)
    } else {
        None
    }
}

// Where a row with this key goes among rows in key order; None where one of them has it.
fn place_for(rows: &[Row], column: usize, key: &Value) -> Option<usize>
    ensures within { IfSome result (λ i. i ≤ length rows.now) }
    ensures found { IsInKeyOrder column rows.now → Finds column key.now rows.now result }
{
    let i = count_below(rows, column, key);
    match rows.get(i) {
        None => Some(i),
        Some(row) => {
            if key_order(row, column, key) == Ordering::Equal {
                None
            } else {
                Some(i)
            }
        }
    }
}

// Where a row goes among rows in key order; None where one of them has its key.
fn place_of(rows: &[Row], column: usize, row: &Row) -> Option<usize>
    ensures within { IfSome result (λ i. i ≤ length rows.now) }
    ensures found { IsInKeyOrder column rows.now
        → Finds column (key_in column row.now) rows.now result }
{
    match row.values().get(column) {
        Some(key) => place_for(rows, column, key),
        None => place_for(rows, column, &Value::Null),
    }
}

// Where a row goes, in key order or at the end; None where a row has its key.
fn place_in(key: Option<u8>, rows: &[Row], row: &Row) -> Option<usize>
    ensures within { IfSome result (λ i. i ≤ length rows.now) }
    ensures found { IsOrdered key rows.now → Takes key row.now rows.now result }
{
    match key {
        Some(column) => place_of(rows, column as usize, row),
        None => Some(rows.len()),
    }
}

// How many of the rows, from the first, have lower keys than this one, where they are in key order.
fn count_below_row(rows: &[Row], column: usize, row: &Row) -> usize
    ensures within { result ≤ length rows.now }
    ensures parted { IsInKeyOrder column rows.now
        → AreParted column (key_in column row.now) rows.now result }
{
    match row.values().get(column) {
        Some(key) => count_below(rows, column, key),
        None => count_below(rows, column, &Value::Null),
    }
}

// Where the row stands that a row change names; None where it is another, or there is none.
fn place_before(key: Option<u8>, rows: &[Row], place: u32, before: &Row) -> Option<usize>
    ensures within { IfSome result (λ i. i < length rows.now) }
    ensures found { IsOrdered key rows.now → StandsAt key place before.now rows.now result }
{
    let i = match key {
        Some(column) => count_below_row(rows, column as usize, before),
        None => place as usize,
    };
    let row = rows.get(i)?;
    if is_same_row(row, before) {
        Some(i)
    } else {
        None
    }
}

// Puts a row at a place among rows that have room for one more.
fn insert_reserved(rows: &mut Vec<Row>, i: usize, row: Row)
    requires within { i ≤ vec_len rows.old }
    requires room { vec_len rows.old < vec_capacity rows.old }
    ensures items { rows.new.items ≡ insert rows.old.items i row }
{
    match rows.insert(i, row) {
        Ok(()) => {}
        Err(_) => unreachable!(),
    }
}

// Puts a row where its key goes, in place of the one at a place, where no other has its key. No memory is taken.
fn move_by_key(rows: &mut Vec<Row>, column: usize, i: usize, after: Row)
    requires { i < vec_len rows.old }
    ensures { IsInKeyOrder column rows.old.items → rows.new.items
        ≡ unwrap_or (inserted (Some column) after (remove rows.old.items i)) rows.old.items }
{
    let before = rows.remove(i);
    match place_of(rows, column, &after) {
        Some(j) => insert_reserved(rows, j, after),
        None => insert_reserved(rows, i, before),
    }
}

// Puts a row in place of the one at a place: there where there is no key, else where its key goes. No memory is taken.
fn move_row(key: Option<u8>, rows: &mut Vec<Row>, i: usize, after: Row)
    requires { i < vec_len rows.old }
    ensures { IsOrdered key rows.old.items
        → rows.new.items ≡ unwrap_or (moved key i after rows.old.items) rows.old.items }
{
    match key {
        None => rows[i] = after,
        Some(column) => move_by_key(rows, column as usize, i, after),
    }
}

impl Stored {
    /// A table with no rows. No memory is taken.
    pub(crate) fn new(alloc: Global, definition: Definition) -> Stored
        ensures { result ≡ record { definition = definition; rows = [] } }
    {
        Stored {
            definition,
            rows: Vec::new(alloc),
        }
    }

    /// What the dictionary has of it, to keep; its rows are dropped.
    pub(crate) fn into_definition(self) -> Definition
        ensures { result ≡ self.definition }
    {
        self.definition
    }

    pub(crate) fn is_named(&self, name: &Name) -> bool
        ensures { result ≡ is_named name.now self.now }
    {
        self.definition.table.is_same(name)
    }

    pub(crate) fn schema(&self) -> &Schema
        ensures { result.now ≡ self.now.definition.schema }
    {
        &self.definition.schema
    }

    /// How many rows it has.
    pub(crate) fn len(&self) -> usize
        ensures value { result ≡ length self.now.rows }
        ensures small { result < 2 ^ 63 }
    {
        self.rows.len()
    }

    /// Its row with this key; None where there is none, or it has no key.
    pub(crate) fn row(&self, key: &Value) -> Option<&Row>
        ensures { option_copied result
            ≡ row_at self.now.definition.schema.key self.now.rows key.now }
    {
        match self.definition.schema.key {
            Some(column) => row_of(&self.rows, column as usize, key),
            None => None,
        }
    }

    /// Adds a row, in key order or at the end, where its key is free. Without memory the row is handed back, and all is as it was.
    pub(crate) fn add(&mut self, row: Row) -> Result<(), Row>
        ensures ok { OnOk result (self.new ≡ with_row row self.old) }
        ensures none { OnErr result (self.new ≡ self.old) }
        ensures given_back { IfErr result (λ it. it ≡ row) }
    {
        let Some(i) = place_in(self.definition.schema.key, &self.rows, &row) else {
            return Ok(());
        };
        match self.rows.insert(i, row) {
            Ok(()) => Ok(()),
            Err(e) => Err(e.value),
        }
    }

    /// Adds a row that was made for this schema, where it is the table's and the key is free. Without memory the change is handed back,
    /// and all is as it was.
    pub(crate) fn insert(&mut self, map: TableMap, row: Row) -> Result<(), Change>
        ensures ok { OnOk result (self.new
            ≡ with_rows self.old (rows_after (Insert map row) self.old)) }
        ensures none { OnErr result (self.new ≡ self.old) }
        ensures given_back { IfErr result (λ it. it ≡ Insert map row) }
    {
        if !map.schema.is_same(&self.definition.schema) {
            return Ok(());
        }
        match self.add(row) {
            Ok(()) => Ok(()),
            Err(row) => Err(Change::Insert { map, row }),
        }
    }

    /// Takes out a row that stands as a Delete says, of one that was made for this schema. No memory is taken.
    pub(crate) fn delete(&mut self, map: &TableMap, place: u32, before: &Row)
        ensures { self.new ≡ with_rows self.old
            (rows_after (Delete map.now place before.now) self.old) }
    {
        if !map.schema.is_same(&self.definition.schema) {
            return;
        }
        if let Some(i) = place_before(self.definition.schema.key, &self.rows, place, before) {
            self.rows.remove(i);
        }
    }

    /// Puts a row in place of one that stands as an Update says, of one that was made for this schema. No memory is taken.
    pub(crate) fn update(&mut self, map: &TableMap, place: u32, before: &Row, after: Row)
        ensures { self.new ≡ with_rows self.old
            (rows_after (Update map.now place before.now after) self.old) }
    {
        if !map.schema.is_same(&self.definition.schema) {
            return;
        }
        let key = self.definition.schema.key;
        if let Some(i) = place_before(key, &self.rows, place, before) {
            move_row(key, &mut self.rows, i, after);
        }
    }

    /// Its row at a place.
    pub(crate) fn row_at(&self, place: usize) -> Option<&Row>
        ensures { option_copied result ≡ slice_get self.now.rows place }
    {
        self.rows.get(place)
    }

    /// How many of its rows have lower values in a column. Where that is the key column, they are found by binary search.
    pub(crate) fn below(&self, column: usize, key: &Value) -> usize
        ensures value { result ≡ below column key.now self.now.rows }
        ensures small { result < 2 ^ 63 }
    {
        match self.definition.schema.key {
            Some(own) => {
                if own as usize == column {
                    count_below(&self.rows, column, key)
                } else {
                    count_all_below(&self.rows, column, key)
                }
            }
            None => count_all_below(&self.rows, column, key),
        }
    }

    /// How many bytes it has: its name, its schema and its rows.
    pub(crate) fn bytes(&self) -> u64
        ensures { result ≡ capped (table_bytes self.now) }
    {
        schema_len(&self.definition.schema)
            .saturating_add(1 + self.definition.table.as_bytes().len() as u64)
            .saturating_add(rows_len(&self.rows))
    }
}
