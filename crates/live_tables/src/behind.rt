//! The tables behind two lists of changes, of which the second is one of the transaction that is looked at.
ghost use Rattle.std.specs.Prelude.{◌≡◌, ◌++◌, ◌<◌, ◌≤◌, ◌+◌, ◌^◌, length, true, Some};
ghost use Rattle.std.specs.Option.{option_copied};
ghost use Rattle.row_format.specs.declared.change.Change.TheVariants.{Insert, Update, Delete};
ghost use Rattle.log_tables.specs.declared.table.Table.{Table};
ghost use Rattle.log_tables.specs.Keys.{key_in};
ghost use Rattle.log_tables.specs.Tables.{table_named};
ghost use Rattle.log_tables.specs.Changes.{applies, takes, after_changes, all_apply};
ghost use Rattle.engine_api.specs.Live.{schema_found, rows_found, row_found, is_taken_in};
ghost use Rattle.live_tables.specs.Folds.{AreMade, Applied, IsKeyless, row_in, key_found, is_there, same_keys};

use crate::back::{Spot, walk_back};
use crate::seek::{row_through, rows_through, schema_through};
use crate::stored::Stored;
use crate::tables;
use log_tables::value_at;
use row_format::{Change, Name, Row, Schema, TableMap, Value, is_same_row, is_same_value};

/// Tables, and changes that are made on them, one list behind the other.
#[derive(Clone, Copy)]
pub(crate) struct Behind<'a> {
    pub(crate) tables: &'a [Stored],
    pub(crate) done: &'a [Change],
    pub(crate) more: &'a [Change],
}

// Whether two rows have the same key, or there is none.
fn has_same_key(key: Option<u8>, before: &Row, after: &Row) -> bool
    ensures { result ≡ same_keys key before.now after.now }
{
    let null = Value::Null;
    match key {
        None => true,
        Some(column) => is_same_value(
            value_at(before, column as usize, &null),
            value_at(after, column as usize, &null),
        ),
    }
}

impl<'a> Behind<'a> {
    // The schema of the table of this name.
    fn schema(&self, name: &Name) -> Option<&'a Schema>
        ensures { AreMade self.now.tables.now → option_copied result
            ≡ schema_found (table_named name.now
            (after_changes (self.now.done.now ++ self.now.more.now) self.now.tables.now)) }
    {
        let stored = tables::schema(self.tables, name);
        let done = schema_through(self.done, name, stored);
        schema_through(self.more, name, done)
    }

    // The key column of the table of this name, where it has one.
    fn key(&self, name: &Name) -> Option<u8>
        ensures { AreMade self.now.tables.now → result ≡ key_found (table_named name.now
            (after_changes (self.now.done.now ++ self.now.more.now) self.now.tables.now)) }
    {
        match self.schema(name) {
            Some(schema) => schema.key,
            None => None,
        }
    }

    // How many rows the table of this name has.
    fn count(&self, name: &Name) -> u64
        requires { length self.now.done.now + length self.now.more.now < 2 ^ 63 }
        ensures value { Applied self.now.tables.now (self.now.done.now ++ self.now.more.now)
            → result ≡ length (rows_found (table_named name.now
            (after_changes (self.now.done.now ++ self.now.more.now) self.now.tables.now))) }
        ensures few { length (rows_found (table_named name.now self.now.tables.now)) < 2 ^ 63 }
    {
        let stored = tables::rows(self.tables, name) as u64;
        let done = rows_through(self.done, name, stored);
        rows_through(self.more, name, done)
    }

    // The row with this key of the table of this name, in its key column.
    fn row(&self, name: &Name, column: usize, key: &Value) -> Option<&'a Row>
        ensures { Applied self.now.tables.now (self.now.done.now ++ self.now.more.now)
            → key_found (table_named name.now
            (after_changes (self.now.done.now ++ self.now.more.now) self.now.tables.now))
            ≡ Some column → option_copied result ≡ row_found (table_named name.now
            (after_changes (self.now.done.now ++ self.now.more.now) self.now.tables.now)) key.now }
    {
        let stored = tables::row(self.tables, name, key);
        let done = row_through(self.done, name, column, key, stored);
        row_through(self.more, name, column, key, done)
    }

    // The row that has the key of this one.
    fn row_of(&self, name: &Name, column: usize, row: &Row) -> Option<&'a Row>
        ensures { Applied self.now.tables.now (self.now.done.now ++ self.now.more.now)
            → key_found (table_named name.now
            (after_changes (self.now.done.now ++ self.now.more.now) self.now.tables.now))
            ≡ Some column → option_copied result ≡ row_found (table_named name.now
            (after_changes (self.now.done.now ++ self.now.more.now) self.now.tables.now))
            (key_in column row.now) }
    {
        let null = Value::Null;
        self.row(name, column, value_at(row, column, &null))
    }

    // The row at a place of the table of this name, which has no key.
    fn row_at(&self, name: &Name, place: u32) -> Option<&'a Row>
        requires { length self.now.done.now + length self.now.more.now < 2 ^ 63 }
        ensures { Applied self.now.tables.now (self.now.done.now ++ self.now.more.now)
            → IsKeyless (table_named name.now
            (after_changes (self.now.done.now ++ self.now.more.now) self.now.tables.now))
            → option_copied result ≡ row_in place (table_named name.now
            (after_changes (self.now.done.now ++ self.now.more.now) self.now.tables.now)) }
    {
        let at = Spot {
            place: place as usize,
            count: self.count(name),
        };
        match walk_back(self.more, name, at) {
            Ok(found) => found,
            Err(at) => match walk_back(self.done, name, at) {
                Ok(found) => found,
                Err(at) => tables::row_at(self.tables, name, at.place),
            },
        }
    }

    // Whether the row that a row change names stands in its table, whose key column this is.
    fn has_before(&self, name: &Name, key: Option<u8>, place: u32, before: &Row) -> bool
        requires { length self.now.done.now + length self.now.more.now < 2 ^ 63 }
        ensures { (t : Table) → Applied self.now.tables.now (self.now.done.now ++ self.now.more.now)
            → table_named name.now
            (after_changes (self.now.done.now ++ self.now.more.now) self.now.tables.now) ≡ Some t
            → t.definition.schema.key ≡ key → result ≡ is_there key place before.now t.rows }
    {
        let found = match key {
            Some(column) => self.row_of(name, column as usize, before),
            None => self.row_at(name, place),
        };
        match found {
            Some(row) => is_same_row(row, before),
            None => false,
        }
    }

    // Whether the table of this name has a row with the key of this one.
    fn is_taken(&self, name: &Name, row: &Row) -> bool
        ensures { Applied self.now.tables.now (self.now.done.now ++ self.now.more.now)
            → result ≡ is_taken_in (table_named name.now
            (after_changes (self.now.done.now ++ self.now.more.now) self.now.tables.now)) row.now }
    {
        match self.key(name) {
            Some(column) => self.row_of(name, column as usize, row).is_some(),
            None => false,
        }
    }

    // Whether an Insert applies.
    fn can_insert(&self, map: &TableMap, row: &Row) -> bool
        ensures { Applied self.now.tables.now (self.now.done.now ++ self.now.more.now)
            → result ≡ takes (Insert map.now row.now) (table_named map.now.table
            (after_changes (self.now.done.now ++ self.now.more.now) self.now.tables.now)) }
    {
        match self.schema(&map.table) {
            Some(schema) => map.schema.is_same(schema) && !self.is_taken(&map.table, row),
            None => false,
        }
    }

    // Whether a Delete applies.
    fn can_delete(&self, map: &TableMap, place: u32, before: &Row) -> bool
        requires { length self.now.done.now + length self.now.more.now < 2 ^ 63 }
        ensures { Applied self.now.tables.now (self.now.done.now ++ self.now.more.now)
            → result ≡ takes (Delete map.now place before.now) (table_named map.now.table
            (after_changes (self.now.done.now ++ self.now.more.now) self.now.tables.now)) }
    {
        match self.schema(&map.table) {
            Some(schema) => {
                map.schema.is_same(schema) && self.has_before(&map.table, schema.key, place, before)
            }
            None => false,
        }
    }

    // Whether an Update applies.
    fn can_update(&self, map: &TableMap, place: u32, before: &Row, after: &Row) -> bool
        requires { length self.now.done.now + length self.now.more.now < 2 ^ 63 }
        ensures { Applied self.now.tables.now (self.now.done.now ++ self.now.more.now)
            → result ≡ takes (Update map.now place before.now after.now)
            (table_named map.now.table
            (after_changes (self.now.done.now ++ self.now.more.now) self.now.tables.now)) }
    {
        if !self.can_delete(map, place, before) {
            return false;
        }
        has_same_key(map.schema.key, before, after) || !self.is_taken(&map.table, after)
    }

    // Whether a change applies.
    fn applies(&self, change: &Change) -> bool
        requires { length self.now.done.now + length self.now.more.now < 2 ^ 63 }
        ensures { Applied self.now.tables.now (self.now.done.now ++ self.now.more.now)
            → result ≡ applies change.now
            (after_changes (self.now.done.now ++ self.now.more.now) self.now.tables.now) }
    {
        match change {
            Change::Install { .. } | Change::Uninstall { .. } => true,
            Change::Create { table, .. } => self.schema(table).is_none(),
            Change::Drop { table } => self.schema(table).is_some(),
            Change::Insert { map, row } => self.can_insert(map, row),
            Change::Update {
                map,
                place,
                before,
                after,
            } => self.can_update(map, *place, before, after),
            Change::Delete { map, place, before } => self.can_delete(map, *place, before),
        }
    }
}

/// Whether changes apply, one after the other, to tables and the changes that are done on them.
pub(crate) fn all_fit(tables: &[Stored], done: &[Change], changes: &[Change]) -> bool
    requires { length done.now + length changes.now < 2 ^ 63 }
    ensures { AreMade tables.now → all_apply done.now tables.now ≡ true
        → result ≡ all_apply changes.now (after_changes done.now tables.now) }
{
    for i in 0..changes.len() {
        let behind = Behind {
            tables,
            done,
            more: &changes[..i],
        };
        if !behind.applies(&changes[i]) {
            return false;
        }
    }
    true
}
