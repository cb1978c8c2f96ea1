//! Row changes of the log, made on the rows of a table and undone again.
//!
//! A change says enough to undo it: what the rows were before it is told by the change and the rows after it (`rows_before`).
ghost use Rattle.std.specs.Prelude.{◌≡◌, ◌≤◌, ◌<◌, ◌+◌, ◌-◌, length, OnOk, OnErr, Some, IsTrue, is_some};
ghost use Rattle.log_tables.specs.Keys.{inserted, deleted, updated, IsOrdered};
ghost use Rattle.row_store.specs.Rows.{StandsAt, StandsIf};
ghost use Rattle.row_store.specs.Changes.{changed_rows, made_rows, returned, undone_rows, rows_before, uses, gives};

use crate::table::RowTable;
use row_format::{Change, Row, copy_row, is_same_row};
use std::alloc::{AllocError, Global};

impl RowTable {
    // Where the row stands that a Delete or an Update names, where it applies.
    fn place_of(&self, place: u32, row: &Row) -> u32
        requires there { IsTrue (is_some
            (deleted self.now.schema.key place row.now self.now.rows)) }
        ensures stands { StandsAt self.now.schema.key place row.now self.now.rows result }
        ensures ordered { IsOrdered self.now.schema.key self.now.rows }
    {
        match self.seek(place, row) {
            Some(place) => place,
            None => unreachable!(),
        }
    }

    // Where the row stands that a Delete or an Update names; None where it is not there.
    fn place_if(&self, place: u32, row: &Row) -> Option<u32>
        ensures { StandsIf self.now.schema.key place row.now self.now.rows result }
    {
        let place = self.seek(place, row)?;
        if is_same_row(self.at_place(place)?, row) {
            Some(place)
        } else {
            None
        }
    }

    // Whether an Update applies.
    fn can_exchange(&self, place: u32, before: &Row, after: &Row) -> bool
        ensures { result ≡ is_some
            (updated self.now.schema.key place before.now after.now self.now.rows) }
    {
        match self.place_if(place, before) {
            Some(place) => self.can_replace(place, after),
            None => false,
        }
    }

    /// Whether a row change applies to the rows. What it says of the table's name and schema is not looked at.
    pub fn applies(&self, change: &Change) -> bool
        ensures { result ≡ is_some
            (changed_rows self.now.schema.key change.now self.now.rows) }
    {
        match change {
            Change::Insert { row, .. } => self.can_insert(row),
            Change::Update {
                place,
                before,
                after,
                ..
            } => self.can_exchange(*place, before, after),
            Change::Delete { place, before, .. } => self.place_if(*place, before).is_some(),
            _ => false,
        }
    }

    // Adds a row, as an Insert does.
    fn add(&mut self, row: Row)
        requires applies { IsTrue (is_some (inserted self.old.schema.key row self.old.rows)) }
        requires spare { 0 < self.old.spare }
        ensures schema { self.new.schema ≡ self.old.schema }
        ensures rows { inserted self.old.schema.key row self.old.rows ≡ Some self.new.rows }
        ensures back { deleted self.old.schema.key (length self.new.rows - 1) row self.new.rows
            ≡ Some self.old.rows }
        ensures spare { self.new.spare + 1 ≡ self.old.spare }
    {
        match self.insert(row) {
            Ok(_) => {}
            Err(_) => unreachable!(),
        }
    }

    // Takes out a row, as a Delete does.
    fn take_out(&mut self, place: u32, row: &Row)
        requires applies { IsTrue (is_some
            (deleted self.old.schema.key place row.now self.old.rows)) }
        ensures schema { self.new.schema ≡ self.old.schema }
        ensures rows { deleted self.old.schema.key place row.now self.old.rows
            ≡ Some self.new.rows }
        ensures back { returned self.old.schema.key place row.now self.new.rows
            ≡ Some self.old.rows }
        ensures spare { self.new.spare ≡ self.old.spare + 1 }
    {
        let place = self.place_of(place, row);
        self.remove(place);
    }

    // Puts a row in place of another, as an Update does.
    fn exchange(&mut self, place: u32, before: &Row, after: Row)
        requires applies { IsTrue (is_some
            (updated self.old.schema.key place before.now after self.old.rows)) }
        ensures schema { self.new.schema ≡ self.old.schema }
        ensures rows { updated self.old.schema.key place before.now after self.old.rows
            ≡ Some self.new.rows }
        ensures back { updated self.old.schema.key place after before.now self.new.rows
            ≡ Some self.old.rows }
        ensures spare { self.new.spare ≡ self.old.spare }
    {
        let place = self.place_of(place, before);
        match self.replace(place, after) {
            Ok(_) => {}
            Err(_) => unreachable!(),
        }
    }

    // Puts a row back that a Delete took out.
    fn put_back(&mut self, place: u32, row: Row)
        requires applies { IsTrue (is_some
            (returned self.old.schema.key place row self.old.rows)) }
        requires spare { 0 < self.old.spare }
        ensures schema { self.new.schema ≡ self.old.schema }
        ensures rows { returned self.old.schema.key place row self.old.rows
            ≡ Some self.new.rows }
        ensures spare { self.new.spare + 1 ≡ self.old.spare }
    {
        if self.schema().key.is_none() {
            self.insert_at(place, row);
        } else {
            self.add(row);
        }
    }

    // The place of the last row, or 0.
    fn last_place(&self) -> u32
        ensures { result ≡ length self.now.rows - 1 }
    {
        self.len().saturating_sub(1) as u32
    }

    /// Makes a row change that applies to the rows. What it says of the table's name and schema is not looked at.
    ///
    /// Room: an Insert uses one row's of what is spare, or makes it; an Update needs none; a Delete leaves one row's more.
    ///
    /// `AllocError` for want of memory, or for an Insert where there are 4,294,967,295 rows; then all is as it was.
    pub fn make(&mut self, change: &Change, alloc: Global) -> Result<(), AllocError>
        requires applies { IsTrue (is_some
            (changed_rows self.old.schema.key change.now self.old.rows)) }
        ensures schema { self.new.schema ≡ self.old.schema }
        ensures rows { OnOk result (self.new.rows
            ≡ made_rows self.old.schema.key change.now self.old.rows) }
        ensures undone { OnOk result (undone_rows self.new.schema.key change.now self.new.rows
            ≡ Some self.old.rows) }
        ensures spare { OnOk result (self.old.spare + gives change.now
            ≤ self.new.spare + uses change.now) }
        ensures room { OnOk result (gives change.now ≤ self.new.spare) }
        ensures err { OnErr result (self.new ≡ self.old) }
    {
        match change {
            Change::Insert { row, .. } => {
                let row = copy_row(alloc, row)?;
                self.reserve(1)?;
                self.add(row);
                Ok(())
            }
            Change::Update {
                place,
                before,
                after,
                ..
            } => {
                let after = copy_row(alloc, after)?;
                self.exchange(*place, before, after);
                Ok(())
            }
            Change::Delete { place, before, .. } => {
                self.take_out(*place, before);
                Ok(())
            }
            _ => unreachable!(),
        }
    }

    /// Undoes a row change that may have made these rows: they are again what they were before it. No memory is taken.
    ///
    /// Room: a Delete uses the one row's that it left; an Update needs none; an Insert leaves one row's more.
    pub fn undo(&mut self, change: Change)
        requires applies { IsTrue (is_some
            (undone_rows self.old.schema.key change self.old.rows)) }
        requires spare { gives change ≤ self.old.spare }
        ensures schema { self.new.schema ≡ self.old.schema }
        ensures rows { self.new.rows ≡ rows_before self.old.schema.key change self.old.rows }
        ensures spare { self.new.spare + gives change ≡ self.old.spare + uses change }
    {
        match change {
            Change::Insert { row, .. } => self.take_out(self.last_place(), &row),
            Change::Update {
                place,
                before,
                after,
                ..
            } => self.exchange(place, &after, before),
            Change::Delete { place, before, .. } => self.put_back(place, before),
            _ => unreachable!(),
        }
    }
}
