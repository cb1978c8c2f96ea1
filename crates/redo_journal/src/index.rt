//! The tables of a list of records as an index: the places of their definitions and rows.
//!
//! Invariant: the rows of a table with a key are in key order, so that a place is found by binary search (`IsTableAt`).
ghost use Rattle.std.specs.Prelude.{◌≡◌, ◌≤◌, ◌<◌, ℕ, length, List, IfOk, IfErr, IfSome, Some, None, position, slice_get, option_and_then};
ghost use Rattle.sql_value.specs.declared.value.Value.{Value as Cell};
ghost use Rattle.sql_value.specs.Values.{same_value};
ghost use Rattle.log_tables.specs.declared.table.Table.{Table};
ghost use Rattle.log_tables.specs.Keys.{key_in, is_row, IsInKeyOrder};
ghost use Rattle.redo_journal.specs.Index.{key_at, row_at, is_named_at, is_key_below, AreParted, AreRowsAt, IsTableAt, Finds, FindsRow, IsRowFound, HasRows, adding, replacing, removing};

use crate::Record;
use crate::place::{Place, key_order, name_at, row_at, schema_at, value_in};
use row_format::{Name, Row, is_same_row};
use sql_value::Value;
use std::alloc::AllocError;
use std::cmp::Ordering;

/// A table as places: where its definition stands, and its rows, in key order or as they were inserted.
#[derive(Drop)]
pub(crate) struct Indexed {
    pub(crate) definition: Place,
    pub(crate) rows: Vec<Place>,
}

// Whether a table has this name.
fn is_named_at(records: &[Record], name: &Name, it: &Indexed) -> bool
    ensures { result ≡ is_named_at records.now name.now it.now }
{
    match name_at(records, it.definition) {
        Some(found) => found.is_same(name),
        None => false,
    }
}

/// Which of the tables has this name, from 0.
pub(crate) fn find(tables: &[Indexed], records: &[Record], name: &Name) -> Option<usize>
    ensures { result ≡ position (is_named_at records.now name.now) tables.now }
{
    tables.iter().position(|it| is_named_at(records, name, it))
}

// Whether the key of the row at this place is below a value.
fn is_below(records: &[Record], column: usize, place: Place, key: &Value) -> bool
    ensures { result ≡ is_key_below records.now column key.now place }
{
    key_order(records, column, place, key) == Ordering::Less
}

// How many of the places, from the first, have rows with lower keys, where the rows are in key order.
fn count_below(places: &[Place], records: &[Record], column: usize, key: &Value) -> usize
    ensures within { result ≤ length places.now }
    ensures parted { (rows : List (List Cell)) → AreRowsAt records.now places.now rows
        → IsInKeyOrder column rows → AreParted records.now column key.now places.now result }
{
    places.partition_point(|place| is_below(records, column, *place, key))
}

// Where the row with this key stands among rows in key order, or where one would go.
fn place_for(
    places: &[Place],
    records: &[Record],
    column: usize,
    key: &Value,
) -> Result<usize, usize>
    ensures there { IfOk result (λ i. i < length places.now) }
    ensures within { IfErr result (λ i. i ≤ length places.now) }
    ensures found { (rows : List (List Cell)) → AreRowsAt records.now places.now rows
        → IsInKeyOrder column rows → Finds column key.now rows result }
{
    let i = count_below(places, records, column, key);
    match places.get(i) {
        None => Err(i),
        Some(place) => {
            if key_order(records, column, *place, key) == Ordering::Equal {
                Ok(i)
            } else {
                Err(i)
            }
        }
    }
}

// Where the row with the key of this one stands among rows in key order, or where this one would go.
fn place_of(places: &[Place], records: &[Record], column: usize, row: &Row) -> Result<usize, usize>
    ensures there { IfOk result (λ i. i < length places.now) }
    ensures within { IfErr result (λ i. i ≤ length places.now) }
    ensures found { (rows : List (List Cell)) → AreRowsAt records.now places.now rows
        → IsInKeyOrder column rows → Finds column (key_in column row.now) rows result }
{
    match value_in(row, column) {
        Some(key) => place_for(places, records, column, key),
        None => place_for(places, records, column, &Value::Null),
    }
}

// Whether the row that stands at one of the places, counted from 0, is this one.
fn is_row_at(places: &[Place], records: &[Record], i: usize, before: &Row) -> bool
    ensures { result
        ≡ is_row (option_and_then (row_at records.now) (slice_get places.now i)) before.now }
{
    match places.get(i) {
        Some(place) => match row_at(records, *place) {
            Some(row) => is_same_row(row, before),
            None => false,
        },
        None => false,
    }
}

// Whether the row at a place has the key of this row.
fn has_key_of(records: &[Record], column: usize, place: Place, row: &Row) -> bool
    ensures { result ≡ same_value (key_at records.now column place) (key_in column row.now) }
{
    match value_in(row, column) {
        Some(key) => key_order(records, column, place, key) == Ordering::Equal,
        None => key_order(records, column, place, &Value::Null) == Ordering::Equal,
    }
}

impl Indexed {
    // Where this row stands in a table with a key; None where it is not there.
    fn find_keyed(&self, records: &[Record], column: usize, before: &Row) -> Option<usize>
        ensures within { IfSome result (λ i. i < length self.now.rows.items) }
        ensures found { (table : Table) (at : ℕ) → IsTableAt records.now self.now table
            → table.definition.schema.key ≡ Some column
            → FindsRow (Some column) at before.now table.rows result }
    {
        let Ok(i) = place_of(&self.rows, records, column, before) else {
            return None;
        };
        if !is_row_at(&self.rows, records, i, before) {
            return None;
        }
        Some(i)
    }

    // This place, from 0, where this row stands there; None where it does not.
    fn find_at(&self, records: &[Record], at: usize, before: &Row) -> Option<usize>
        ensures within { IfSome result (λ i. i < length self.now.rows.items) }
        ensures found { (table : Table) → IsTableAt records.now self.now table
            → FindsRow None at before.now table.rows result }
    {
        if !is_row_at(&self.rows, records, at, before) {
            return None;
        }
        Some(at)
    }

    // Where the row stands that a change takes out: by its key, or by this place where there is no key; None where it is not there.
    fn find_row(&self, records: &[Record], key: Option<u8>, at: u32, before: &Row) -> Option<usize>
        ensures within { IfSome result (λ i. i < length self.now.rows.items) }
        ensures found { (table : Table) → IsTableAt records.now self.now table
            → table.definition.schema.key ≡ key
            → FindsRow key at before.now table.rows result }
    {
        match key {
            Some(column) => self.find_keyed(records, column as usize, before),
            None => self.find_at(records, at as usize, before),
        }
    }

    // Adds the row at this place in key order; false where a row has its key.
    fn add_keyed(
        &mut self,
        records: &[Record],
        column: usize,
        place: Place,
    ) -> Result<bool, AllocError>
        ensures { (table : Table) (row : List Cell) → IsTableAt records.now self.old table
            → table.definition.schema.key ≡ Some column → row_at records.now place ≡ Some row
            → IfOk result (λ b. HasRows b records.now self.new (adding row table) table) }
    {
        let Some(row) = row_at(records, place) else {
            return Ok(false);
        };
        let Err(i) = place_of(&self.rows, records, column, row) else {
            return Ok(false);
        };
        self.rows.insert(i, place)?;
        Ok(true)
    }

    /// Adds the row at this place: in key order, or at the end where the table has no key; false where a row has its key.
    pub(crate) fn add_row(&mut self, records: &[Record], place: Place) -> Result<bool, AllocError>
        ensures { (table : Table) (row : List Cell) → IsTableAt records.now self.old table
            → row_at records.now place ≡ Some row
            → IfOk result (λ b. HasRows b records.now self.new (adding row table) table) }
    {
        let Some(schema) = schema_at(records, self.definition) else {
            return Ok(false);
        };
        match schema.key {
            Some(column) => self.add_keyed(records, column as usize, place),
            None => {
                self.rows.push(place)?;
                Ok(true)
            }
        }
    }

    // Puts the row at a place in place of one that was found, which has this key; false where another row has the new key.
    fn replace_keyed(
        &mut self,
        records: &[Record],
        column: usize,
        i: usize,
        before: &Row,
        place: Place,
    ) -> Result<bool, AllocError>
        requires { i < length self.old.rows.items }
        ensures { (table : Table) (after : List Cell) (at : ℕ)
            → IsTableAt records.now self.old table
            → table.definition.schema.key ≡ Some column
            → IsRowFound (Some column) at before.now table.rows i
            → row_at records.now place ≡ Some after
            → IfOk result (λ b. HasRows b records.now self.new
            (replacing at before.now after table) table) }
    {
        if has_key_of(records, column, place, before) {
            self.rows[i] = place;
            return Ok(true);
        }
        self.rows.remove(i);
        self.add_keyed(records, column, place)
    }

    /// Puts the row at a place among the records in place of the row before, which is found by its key, or at `at`, from 0, where the
    /// table has no key; false where that row is not there, or another row has the new key.
    pub(crate) fn replace_row(
        &mut self,
        records: &[Record],
        at: u32,
        before: &Row,
        place: Place,
    ) -> Result<bool, AllocError>
        ensures { (table : Table) (after : List Cell) → IsTableAt records.now self.old table
            → row_at records.now place ≡ Some after
            → IfOk result (λ b. HasRows b records.now self.new
            (replacing at before.now after table) table) }
    {
        let Some(schema) = schema_at(records, self.definition) else {
            return Ok(false);
        };
        let Some(i) = self.find_row(records, schema.key, at, before) else {
            return Ok(false);
        };
        match schema.key {
            Some(column) => self.replace_keyed(records, column as usize, i, before, place),
            None => {
                self.rows[i] = place;
                Ok(true)
            }
        }
    }

    /// Takes out a row, which is found by its key, or at `at`, from 0, where the table has no key; false where it is not there.
    pub(crate) fn remove_row(&mut self, records: &[Record], at: u32, before: &Row) -> bool
        ensures { (table : Table) → IsTableAt records.now self.old table
            → HasRows result records.now self.new (removing at before.now table) table }
    {
        let Some(schema) = schema_at(records, self.definition) else {
            return false;
        };
        let Some(i) = self.find_row(records, schema.key, at, before) else {
            return false;
        };
        self.rows.remove(i);
        true
    }
}
