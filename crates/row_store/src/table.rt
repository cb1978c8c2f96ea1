//! The rows of one table.
ghost use Rattle.std.specs.Prelude.{◌≡◌, ◌≤◌, ◌<◌, ◌+◌, None, [], length, insert, remove, slice_get, Some, OnOk, OnErr, IfOk, is_some};
ghost use Rattle.std.specs.Option.{option_copied};
ghost use Rattle.log_tables.specs.Keys.{inserted, IsOrdered};
ghost use Rattle.row_store.specs.Rows.{Inserts, Replaces, IsAtKey, Names, first_above, replaced};

use crate::edits::turn;
use crate::keys::{find_row, place_above, place_at, place_beside, place_in};
use crate::order::Order;
use crate::slots::{fill, row_in, swap, take};
use row_format::{Row, Schema, Value};
use std::alloc::{AllocError, Global};
use std::marker::Model;

// The most rows that a table has: each has a slot, and a slot a number of 32 bits.
const MOST: usize = 4_294_967_295;

/// The rows of one table: in key order where its schema has a key, else as they were inserted. A row is found by its key, or by its place
/// in this order, from 0. (This project's own.)
///
/// `spare` is for how many rows more there is memory: `reserve` makes it, an insert takes one, and a removal gives one back. So a change
/// can be undone without memory. No call asks that a row has passed `check_row`.
#[derive(Drop)]
pub struct RowTable {
    schema: Schema,
    // Each row in a slot of its own, and slots that are free.
    slots: Vec<Option<Row>>,
    // The slots with a row, in order.
    order: Order,
    // The free slots.
    free: Vec<u32>,
    spare: usize,
}

impl Model for RowTable {
    ghost use Rattle.std.specs.Vec.{vec_capacity};
    ghost use Rattle.log_tables.specs.Keys.{IsOrdered};
    ghost use Rattle.row_store.specs.Slots.{rows_in, AreKept};
    ghost use Rattle.row_store.specs.Rows.{Held};

    ghost Value = { Held };

    ghost view = { λ t. record {
      schema = t.schema;
      rows = rows_in t.slots.items t.order.items;
      spare = t.spare;
    } };

    ghost invariant = { λ t. AreKept t.slots.items t.order.items t.free.items t.spare
        (vec_capacity t.slots) t.order.room (vec_capacity t.free)
        × IsOrdered t.schema.key (rows_in t.slots.items t.order.items) };
}

impl RowTable {
    /// No rows, and room for none. No memory is taken.
    pub fn new(schema: Schema, alloc: Global) -> RowTable
        ensures { result ≡ record { schema = schema; rows = []; spare = 0 } }
    {
        RowTable {
            schema,
            slots: Vec::new(alloc),
            order: Order::new(alloc),
            free: Vec::new(alloc),
            spare: 0,
        }
    }

    /// The schema of the table. Its rows are in the order of its key.
    pub fn schema(&self) -> &Schema
        ensures value { result.now ≡ self.now.schema }
        ensures ordered { IsOrdered self.now.schema.key self.now.rows }
    {
        &self.schema
    }

    /// How many rows there are.
    pub fn len(&self) -> usize
        ensures value { result ≡ length self.now.rows }
        ensures most { result ≤ 4294967295 }
    {
        self.order.len()
    }

    /// For how many rows more there is memory.
    pub fn spare(&self) -> usize
        ensures { result ≡ self.now.spare }
    {
        self.spare
    }

    /// Makes room for so many rows more, where there is not as much.
    ///
    /// `AllocError` for want of memory, or where these would be more than 4,294,967,295 rows with those there are; then all is as it was.
    pub fn reserve(&mut self, n: usize) -> Result<(), AllocError>
        ensures schema { self.new.schema ≡ self.old.schema }
        ensures rows { self.new.rows ≡ self.old.rows }
        ensures no_less { self.old.spare ≤ self.new.spare }
        ensures room { OnOk result (n ≤ self.new.spare) }
        ensures most { length self.new.rows + self.new.spare ≤ 4294967295 }
        ensures err { OnErr result (self.new ≡ self.old) }
    {
        if n <= self.spare {
            return Ok(());
        }
        if n > MOST - self.order.len() {
            return Err(AllocError);
        }
        self.slots.reserve(n)?;
        self.order.reserve(n)?;
        let slots = self.slots.len() + n;
        self.free.reserve(slots)?;
        self.spare = n;
        Ok(())
    }

    /// Where the row with this key stands; None where there is none, or the table has no key.
    pub fn at_key(&self, key: &Value) -> Option<u32>
        ensures { IsAtKey self.now.schema.key key.now self.now.rows result }
    {
        match place_at(self.schema.key, &self.slots, &self.order, key) {
            Some(place) => Some(place as u32),
            None => None,
        }
    }

    /// Where the first row with a key above this one stands; None where there is none, or the table has no key.
    pub fn above_key(&self, key: &Value) -> Option<u32>
        ensures { result ≡ first_above self.now.schema.key key.now self.now.rows }
    {
        match place_above(self.schema.key, &self.slots, &self.order, key) {
            Some(place) => Some(place as u32),
            None => None,
        }
    }

    /// Where a Delete or an Update looks for the row that it names: where the row with its key stands, or at its place.
    pub(crate) fn seek(&self, place: u32, row: &Row) -> Option<u32>
        ensures names { Names self.now.schema.key place row.now self.now.rows result }
        ensures ordered { IsOrdered self.now.schema.key self.now.rows }
    {
        let Some(column) = self.schema.key else {
            return Some(place);
        };
        match find_row(&self.slots, &self.order, column as usize, row) {
            Ok(i) => Some(i as u32),
            Err(_) => None,
        }
    }

    /// Whether a row can be added: whether no row has its key.
    pub(crate) fn can_insert(&self, row: &Row) -> bool
        ensures { result ≡ is_some (inserted self.now.schema.key row.now self.now.rows) }
    {
        place_in(self.schema.key, &self.slots, &self.order, row).is_some()
    }

    /// Whether a row can take the place of the one there: whether no other row has its key.
    pub(crate) fn can_replace(&self, place: u32, row: &Row) -> bool
        requires { place < length self.now.rows }
        ensures { result ≡ is_some
            (replaced self.now.schema.key place row.now self.now.rows) }
    {
        let i = place as usize;
        place_beside(self.schema.key, &self.slots, &self.order, i, row).is_some()
    }

    /// The row at a place; None exactly where there is no such place.
    pub fn at_place(&self, place: u32) -> Option<&Row>
        ensures { option_copied result ≡ slice_get self.now.rows place }
    {
        match self.order.get(place as usize) {
            Some(slot) => row_in(&self.slots, slot),
            None => None,
        }
    }

    /// Adds a row, in key order, or at the end where there is no key, and tells its place. The row is handed back exactly where its key is
    /// there. No memory is taken.
    pub fn insert(&mut self, row: Row) -> Result<u32, Row>
        requires spare { 0 < self.old.spare }
        ensures inserts { Inserts row self.old self.new result }
        ensures end { self.old.schema.key ≡ None
            → IfOk result (λ place. place ≡ length self.old.rows) }
    {
        let Some(i) = place_in(self.schema.key, &self.slots, &self.order, &row) else {
            return Err(row);
        };
        let slot = fill(&mut self.slots, &mut self.free, row);
        self.order.insert_reserved(i, slot);
        self.spare -= 1;
        Ok(i as u32)
    }

    /// Puts a row at a place of a table without a key, before the row that stands there. No memory is taken.
    pub fn insert_at(&mut self, place: u32, row: Row)
        requires keyless { self.old.schema.key ≡ None }
        requires place { place ≤ length self.old.rows }
        requires spare { 0 < self.old.spare }
        ensures schema { self.new.schema ≡ self.old.schema }
        ensures rows { self.new.rows ≡ insert self.old.rows place row }
        ensures spare { self.new.spare + 1 ≡ self.old.spare }
    {
        let slot = fill(&mut self.slots, &mut self.free, row);
        self.order.insert_reserved(place as usize, slot);
        self.spare -= 1;
    }

    /// Puts a row in place of the one at a place, which it gives: there, or in a table with a key where its key goes. The row is handed back
    /// exactly where another row has its key. No memory is taken.
    pub fn replace(&mut self, place: u32, row: Row) -> Result<Row, Row>
        requires place { place < length self.old.rows }
        ensures replaces { Replaces place row self.old self.new result }
    {
        let i = place as usize;
        let Some(slot) = self.order.get(i) else {
            unreachable!();
        };
        if turn(self.schema.key, &self.slots, &mut self.order, i, &row) {
            Ok(swap(&mut self.slots, slot, row))
        } else {
            Err(row)
        }
    }

    /// Takes out the row at a place. No memory is taken.
    pub fn remove(&mut self, place: u32) -> Row
        requires place { place < length self.old.rows }
        ensures schema { self.new.schema ≡ self.old.schema }
        ensures row { slice_get self.old.rows place ≡ Some result }
        ensures rows { self.new.rows ≡ remove self.old.rows place }
        ensures spare { self.new.spare ≡ self.old.spare + 1 }
    {
        let slot = self.order.remove(place as usize);
        let row = take(&mut self.slots, &mut self.free, slot);
        self.spare += 1;
        row
    }
}
