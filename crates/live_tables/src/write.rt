//! Changes of transactions: a table made or dropped, or a row.
ghost use Rattle.std.specs.Prelude.{◌≡◌, ◌≤◌, ◌+◌, ◌∷◌, [], None, Err, OnOk, OnErr, IsTrue, false, true, IfOk, Some, nat_le, is_some};
ghost use Rattle.row_format.specs.declared.change.Change.{Change};
ghost use Rattle.row_format.specs.declared.change.Change.TheVariants.{Create, Drop};
ghost use Rattle.row_format.specs.Schemas.{IsSchema};
ghost use Rattle.log_tables.specs.Changes.{applies};
ghost use Rattle.engine_api.specs.States.{with_change, live_tables};
ghost use Rattle.engine_api.specs.Live.{live_schema, IsRowFor, IsApart, IsInsertApart, insert_into, wrote_state, is_under, is_taken, HasRoom, IsLive};
ghost use Rattle.engine_api.specs.Calls.{AnswersAlone};
ghost use Rattle.engine_api.specs.declared.fault.EngineFault.TheVariants.{Code as code};
ghost use Rattle.engine_api.specs.declared.fault.Code.TheVariants.{Duplicate, Full};
ghost use Rattle.live_tables.specs.Live.{most_bytes, Adds};

use crate::LiveTables;
use crate::bytes::change_len;
use crate::gone::is_within;
use crate::pending::add_change;
use crate::tables::make_some;
use engine_api::{Code, EngineFault};
use row_format::{Change, Name, Row, Schema, TableMap, copy_row};
use std::alloc::AllocError;

/// How many bytes the live tables of an engine may have.
pub const LIVE_LIMIT: u64 = 16_777_216;

// How many bytes are counted at most.
const MOST_BYTES: u64 = 9_223_372_036_854_775_808;

/// Whether so many bytes can be counted.
pub(crate) fn is_countable(committed: u64, opened: u64, waits: u64, more: u64) -> bool
    ensures { result ≡ nat_le (committed + opened + waits + more) most_bytes }
{
    committed
        .saturating_add(opened)
        .saturating_add(waits)
        .saturating_add(more)
        <= MOST_BYTES
}

impl LiveTables {
    // Makes what is done on the tables, as far as there is memory.
    pub(crate) fn settle(&mut self)
        ensures { self.new.state ≡ self.old.state }
    {
        let added = make_some(
            &mut self.tables,
            self.alloc,
            &mut self.done,
            &mut self.committed,
        );
        self.waits -= added;
    }

    // Adds a change that applies to what a transaction has pending, whatever the live bytes are then.
    fn push(&mut self, txn: u32, change: Change) -> Result<(), AllocError>
        requires applies { applies change (live_tables self.old.state) ≡ true }
        requires unprepared { is_under txn self.old.state ≡ false }
        requires apart { IsApart txn change self.old.state }
        ensures ok { OnOk result (self.new.state ≡ with_change txn change self.old.state) }
        ensures none { OnErr result (self.new.state ≡ self.old.state) }
    {
        let more = change_len(&change);
        if !is_countable(self.committed, self.opened, self.waits, more) {
            return Err(AllocError);
        }
        self.done.reserve(self.waiting + 1)?;
        add_change(&mut self.pending, self.alloc, txn, change)?;
        self.opened += more;
        self.waiting += 1;
        Ok(())
    }

    // Whether the live bytes are within their limit with a change more: else 135. What is done must be in the tables.
    fn has_room(&self, txn: u32, change: &Change) -> Result<(), EngineFault>
        requires applies { applies change.now (live_tables self.now.state) ≡ true }
        requires unprepared { is_under txn self.now.state ≡ false }
        requires apart { IsApart txn change.now self.now.state }
        ensures full { result ≡ Err (code Full)
            → HasRoom (with_change txn change.now self.now.state) → ⊥ }
        ensures not_full { OnOk result (HasRoom (with_change txn change.now self.now.state)) }
        ensures answers { AnswersAlone (Full ∷ []) result }
    {
        let more = change_len(change);
        if !self.done.is_empty() || !is_countable(self.committed, self.opened, self.waits, more) {
            return Err(EngineFault::Memory);
        }
        let counted = self.committed + self.opened + more;
        if !is_within(&self.tables, &self.pending, change, counted) {
            return Err(EngineFault::Code(Code::Full));
        }
        Ok(())
    }

    // Adds a change that applies to what a transaction has pending, where the live bytes are within their limit then.
    fn add(&mut self, txn: u32, change: Change) -> Result<(), EngineFault>
        requires applies { applies change (live_tables self.old.state) ≡ true }
        requires unprepared { is_under txn self.old.state ≡ false }
        requires apart { IsApart txn change self.old.state }
        ensures adds { Adds result (with_change txn change self.old.state)
            self.old.state self.new.state }
        ensures answers { AnswersAlone (Full ∷ []) result }
    {
        self.settle();
        self.has_room(txn, &change)?;
        self.push(txn, change)?;
        Ok(())
    }

    /// Makes a table.
    ///
    /// 135 exactly where the live bytes would pass their limit. `Memory`.
    pub fn create(
        &mut self,
        txn: u32,
        engine: &Name,
        table: &Name,
        schema: &Schema,
    ) -> Result<(), EngineFault>
        requires free { live_schema table.now self.old.state ≡ None }
        requires unprepared { is_under txn self.old.state ≡ false }
        requires apart { IsApart txn (Create table.now engine.now schema.now) self.old.state }
        ensures adds { Adds result
            (with_change txn (Create table.now engine.now schema.now) self.old.state)
            self.old.state self.new.state }
        ensures answers { AnswersAlone (Full ∷ []) result }
    {
        let change = Change::Create {
            table: table.copy()?,
            engine: engine.copy()?,
            schema: schema.copy(self.alloc)?,
        };
        self.add(txn, change)
    }

    /// Drops a table.
    ///
    /// `Memory`.
    pub fn drop_table(&mut self, txn: u32, table: &Name) -> Result<(), EngineFault>
        requires live { IsLive table.now self.old.state }
        requires unprepared { is_under txn self.old.state ≡ false }
        requires apart { IsApart txn (Drop table.now) self.old.state }
        ensures ok { OnOk result
            (self.new.state ≡ with_change txn (Drop table.now) self.old.state) }
        ensures none { OnErr result (self.new.state ≡ self.old.state) }
        ensures answers { AnswersAlone [] result }
    {
        let name = table.copy()?;
        let dropped = Change::Drop { table: name };
        self.settle();
        self.push(txn, dropped)?;
        Ok(())
    }

    // The name and the schema of a live table, for a change on it.
    pub(crate) fn map_of(&self, table: &Name) -> Result<TableMap, AllocError>
        requires { IsTrue (is_some (live_schema table.now self.now.state)) }
        ensures table { IfOk result (λ it. it.table ≡ table.now) }
        ensures schema { IfOk result (λ it. Some it.schema ≡ live_schema table.now self.now.state) }
    {
        let Some(schema) = self.schema(table) else {
            unreachable!();
        };
        Ok(TableMap {
            table: table.copy()?,
            schema: schema.copy(self.alloc)?,
        })
    }

    // The change that adds a row to the live table of this name.
    fn insert_of(&self, table: &Name, row: &Row) -> Result<Change, AllocError>
        requires { IsRowFor (live_schema table.now self.now.state) row.now }
        ensures { IfOk result (λ it. Some it
            ≡ insert_into table.now (live_schema table.now self.now.state) row.now) }
    {
        let map = self.map_of(table)?;
        let row = copy_row(self.alloc, row)?;
        Ok(Change::Insert { map, row })
    }

    /// Adds a row.
    ///
    /// 121 exactly where its key is there; else 135 exactly where the live bytes would pass their limit. `Memory`.
    pub fn insert(&mut self, txn: u32, table: &Name, row: &Row) -> Result<(), EngineFault>
        requires row { IsRowFor (live_schema table.now self.old.state) row.now }
        requires unprepared { is_under txn self.old.state ≡ false }
        requires apart { IsInsertApart txn
            (insert_into table.now (live_schema table.now self.old.state) row.now) self.old.state }
        ensures adds { Adds result (wrote_state txn table.now row.now self.old.state)
            self.old.state self.new.state }
        ensures duplicate { result ≡ Err (code Duplicate)
            → IsTrue (is_taken table.now row.now self.old.state) }
        ensures not_duplicate { OnOk result (is_taken table.now row.now self.old.state ≡ false) }
        ensures free { result ≡ Err (code Full)
            → is_taken table.now row.now self.old.state ≡ false }
        ensures answers { AnswersAlone (Duplicate ∷ Full ∷ []) result }
    {
        if self.is_taken(table, row) {
            return Err(EngineFault::Code(Code::Duplicate));
        }
        let change = self.insert_of(table, row)?;
        self.add(txn, change)
    }
}
