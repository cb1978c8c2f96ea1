//! The tables that records make, as an index: each change is made on it, where it applies.
ghost use Rattle.std.specs.Prelude.{◌≡◌, ◌<◌, ◌++◌, ◌∷◌, [], length, List, IfOk, IfSome, Some, option_map, is_some, is_none};
ghost use Rattle.std.specs.Option.{option_copied};
ghost use Rattle.sql_value.specs.declared.value.Value.{Value as Cell};
ghost use Rattle.row_format.specs.declared.change.Change.{Change};
ghost use Rattle.log_tables.specs.declared.table.Table.{Table};
ghost use Rattle.log_tables.specs.declared.table.Definition.{Definition};
ghost use Rattle.log_tables.specs.declared.gist.Prepared.{Prepared};
ghost use Rattle.log_tables.specs.Tables.{table_named, at_table};
ghost use Rattle.log_tables.specs.Changes.{applies, after_change, all_apply, after_changes};
ghost use Rattle.redo_journal.specs.Index.{definition_at, row_at, change_at, prepared_at, AreTablesAt, suits_at, FindsTable, adding, replacing, removing, Edits, Becomes};

use crate::Record;
use crate::index::{Indexed, find};
use crate::place::{Place, change_at, name_at, prepared_at, schema_at};
use row_format::{Change, Name, Row, Schema, TableMap};
use std::alloc::{AllocError, Global};

/// The tables, in order of creation.
#[derive(Drop)]
pub(crate) struct TableIndex {
    alloc: Global,
    tables: Vec<Indexed>,
}

// Whether a row that was made for this schema, or for any, suits the table whose definition stands at this place.
fn suits(records: &[Record], place: Place, made_for: Option<&Schema>) -> bool
    ensures { result ≡ suits_at (option_copied made_for.entry) (definition_at records.now place) }
{
    match made_for {
        None => true,
        Some(schema) => match schema_at(records, place) {
            Some(found) => schema.is_same(found),
            None => false,
        },
    }
}

impl TableIndex {
    /// No table.
    pub(crate) fn new(alloc: Global) -> TableIndex
        ensures { AreTablesAt [] result.tables.items [] }
    {
        TableIndex {
            alloc,
            tables: Vec::new(alloc),
        }
    }

    /// The schema of the table with this name, where there is one.
    pub(crate) fn schema_of<'a>(&self, records: &'a [Record], name: &Name) -> Option<&'a Schema>
        ensures { (tables : List Table) → AreTablesAt records.now self.now.tables.items tables
            → option_copied result
            ≡ option_map (λ t. t.definition.schema) (table_named name.now tables) }
    {
        match find(&self.tables, records, name) {
            Some(i) => schema_at(records, self.tables[i].definition),
            None => None,
        }
    }

    /// Adds the table whose definition stands at this place; false where its name is taken.
    pub(crate) fn create(&mut self, records: &[Record], place: Place) -> Result<bool, AllocError>
        ensures { (tables : List Table) (it : Definition)
            → AreTablesAt records.now self.old.tables.items tables
            → definition_at records.now place ≡ Some it
            → IfOk result (Becomes (is_none (table_named it.table tables))
            (AreTablesAt records.now self.new.tables.items
            (tables ++ record { definition = it; rows = [] } ∷ []))) }
    {
        let Some(name) = name_at(records, place) else {
            return Ok(false);
        };
        if find(&self.tables, records, name).is_some() {
            return Ok(false);
        }
        self.tables.push(Indexed {
            definition: place,
            rows: Vec::new(self.alloc),
        })?;
        Ok(true)
    }

    /// Takes out the table with this name; false where there is none.
    pub(crate) fn drop_table(&mut self, records: &[Record], name: &Name) -> bool
        ensures { (tables : List Table) → AreTablesAt records.now self.old.tables.items tables
            → Becomes (is_some (table_named name.now tables))
            (AreTablesAt records.now self.new.tables.items (at_table name.now (λ _. []) tables))
            result }
    {
        let Some(i) = find(&self.tables, records, name) else {
            return false;
        };
        self.tables.remove(i);
        true
    }

    // Which of the tables has this name, where it suits a row that was made for this schema, or for any.
    fn find_suiting(
        &self,
        records: &[Record],
        name: &Name,
        made_for: Option<&Schema>,
    ) -> Option<usize>
        ensures within { IfSome result (λ i. i < length self.now.tables.items) }
        ensures found { FindsTable records.now name.now (option_copied made_for.entry)
            self.now.tables.items result }
    {
        let Some(i) = find(&self.tables, records, name) else {
            return None;
        };
        if !suits(records, self.tables[i].definition, made_for) {
            return None;
        }
        Some(i)
    }

    /// Adds the row at this place, which was made for this schema or for any, to the table with this name; false where there is no
    /// such table, it has another schema, or a row has the key.
    pub(crate) fn insert(
        &mut self,
        records: &[Record],
        name: &Name,
        made_for: Option<&Schema>,
        place: Place,
    ) -> Result<bool, AllocError>
        ensures { (tables : List Table) (row : List Cell)
            → AreTablesAt records.now self.old.tables.items tables
            → row_at records.now place ≡ Some row
            → IfOk result (Edits (option_copied made_for.entry) (adding row) name.now tables
            records.now self.new.tables.items) }
    {
        let Some(i) = self.find_suiting(records, name, made_for) else {
            return Ok(false);
        };
        self.tables[i].add_row(records, place)
    }

    // Puts the row at a place in place of the row before, in the table that the map names; false where there is no such table, it has
    // another schema, the row before is not there, or another row has the new key.
    fn update(
        &mut self,
        records: &[Record],
        map: &TableMap,
        at: u32,
        before: &Row,
        place: Place,
    ) -> Result<bool, AllocError>
        ensures { (tables : List Table) (after : List Cell)
            → AreTablesAt records.now self.old.tables.items tables
            → row_at records.now place ≡ Some after
            → IfOk result (Edits (Some map.now.schema) (replacing at before.now after)
            map.now.table tables records.now self.new.tables.items) }
    {
        let Some(i) = self.find_suiting(records, &map.table, Some(&map.schema)) else {
            return Ok(false);
        };
        self.tables[i].replace_row(records, at, before, place)
    }

    // Takes a row out of the table that the map names; false where there is no such table, it has another schema, or the row is not
    // there.
    fn delete(&mut self, records: &[Record], map: &TableMap, at: u32, before: &Row) -> bool
        ensures { (tables : List Table) → AreTablesAt records.now self.old.tables.items tables
            → Edits (Some map.now.schema) (removing at before.now) map.now.table tables
            records.now self.new.tables.items result }
    {
        let Some(i) = self.find_suiting(records, &map.table, Some(&map.schema)) else {
            return false;
        };
        self.tables[i].remove_row(records, at, before)
    }

    // Makes the change at this place; false where it does not apply.
    fn apply(&mut self, records: &[Record], place: Place) -> Result<bool, AllocError>
        ensures { (tables : List Table) (it : Change)
            → AreTablesAt records.now self.old.tables.items tables
            → change_at records.now place ≡ Some it
            → IfOk result (Becomes (applies it tables)
            (AreTablesAt records.now self.new.tables.items (after_change it tables))) }
    {
        match change_at(records, place) {
            Some(Change::Create { .. }) => self.create(records, place),
            Some(Change::Drop { table }) => Ok(self.drop_table(records, table)),
            Some(Change::Insert { map, .. }) => {
                self.insert(records, &map.table, Some(&map.schema), place)
            }
            Some(
                Change::Update {
                    map,
                    place: at,
                    before,
                    ..
                },
            ) => self.update(records, map, *at, before, place),
            Some(
                Change::Delete {
                    map,
                    place: at,
                    before,
                },
            ) => Ok(self.delete(records, map, *at, before)),
            Some(Change::Install { .. } | Change::Uninstall { .. }) => Ok(true),
            None => Ok(false),
        }
    }

    /// Makes the changes of the Prepare with this number, one after the other; false where one of them does not apply.
    pub(crate) fn apply_all(
        &mut self,
        records: &[Record],
        number: usize,
    ) -> Result<bool, AllocError>
        ensures { (tables : List Table) (it : Prepared)
            → AreTablesAt records.now self.old.tables.items tables
            → prepared_at records.now number ≡ Some it
            → IfOk result (Becomes (all_apply it.changes tables)
            (AreTablesAt records.now self.new.tables.items (after_changes it.changes tables))) }
    {
        let Some(it) = prepared_at(records, number) else {
            return Ok(false);
        };
        let count = it.changes.as_slice().len();
        for change in 0..count {
            if !self.apply(records, Place { number, change })? {
                return Ok(false);
            }
        }
        Ok(true)
    }
}
