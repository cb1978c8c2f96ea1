//! What the files of an engine tell, read back one by one: tables, rows, the number of the last commit, and what is prepared.
//!
//! Each call needs that nothing is pending.
ghost use Rattle.std.specs.Prelude.{◌≡◌, ◌++◌, ◌∷◌, [], None, Some, IsTrue, OnOk, OnErr, IfOk, true, false, is_some};
ghost use Rattle.log_tables.specs.Tables.{table_named, at_table, new_table};
ghost use Rattle.log_tables.specs.Changes.{after_change, applies};
ghost use Rattle.log_tables.specs.Gists.{is_prepared, after_prepare};
ghost use Rattle.engine_api.specs.States.{begun_state};
ghost use Rattle.engine_api.specs.Live.{live_schema};
ghost use Rattle.live_tables.specs.Stored.{with_row};
ghost use Rattle.live_tables.specs.Loads.{with_tables, with_last, CanTake};

use crate::LiveTables;
use crate::bytes::{change_len, changes_len};
use crate::write::is_countable;
use log_tables::{Definition, Prepared};
use row_format::{Change, Name, Row};
use std::alloc::AllocError;

impl LiveTables {
    // Makes a change that applies to the committed tables.
    fn load(&mut self, change: Change) -> Result<(), AllocError>
        requires idle { self.old.state.pending ≡ [] }
        requires applies { applies change self.old.state.gist.tables ≡ true }
        ensures ok { OnOk result (self.new.state ≡ begun_state (with_tables
            (after_change change self.old.state.gist.tables) self.old.state.gist)) }
        ensures none { OnErr result (self.new.state ≡ self.old.state) }
    {
        let len = change_len(&change);
        if !is_countable(self.committed, self.opened, self.waits, len) {
            return Err(AllocError);
        }
        self.done.reserve(self.waiting + 1)?;
        self.done.push_reserved(change);
        self.waits += len;
        self.settle();
        Ok(())
    }

    /// A committed table with no rows. Its bytes are counted, and no limit is looked at.
    ///
    /// `AllocError` for want of memory.
    pub fn load_table(&mut self, definition: Definition) -> Result<(), AllocError>
        requires idle { self.old.state.pending ≡ [] }
        requires free { table_named definition.table self.old.state.gist.tables ≡ None }
        ensures ok { OnOk result (self.new.state ≡ begun_state (with_tables
            (self.old.state.gist.tables
            ++ new_table definition.table definition.engine definition.schema ∷ [])
            self.old.state.gist)) }
        ensures none { OnErr result (self.new.state ≡ self.old.state) }
    {
        self.load(Change::Create {
            table: definition.table,
            engine: definition.engine,
            schema: definition.schema,
        })
    }

    /// A committed row of a table that is there. Its bytes are counted, and no limit is looked at.
    ///
    /// `AllocError` for want of memory.
    pub fn load_row(&mut self, table: &Name, row: Row) -> Result<(), AllocError>
        requires idle { self.old.state.pending ≡ [] }
        requires row { CanTake row (table_named table.now self.old.state.gist.tables) }
        ensures ok { OnOk result (self.new.state ≡ begun_state (with_tables
            (at_table table.now (λ it. with_row row it ∷ []) self.old.state.gist.tables)
            self.old.state.gist)) }
        ensures none { OnErr result (self.new.state ≡ self.old.state) }
    {
        let map = self.map_of(table)?;
        self.load(Change::Insert { map, row })
    }

    /// The number of the last commit.
    pub fn load_last(&mut self, number: u64)
        requires idle { self.old.state.pending ≡ [] }
        ensures { self.new.state ≡ begun_state (with_last number self.old.state.gist) }
    {
        self.last = number;
    }

    /// A transaction that is prepared, and that no transaction of this run is.
    ///
    /// `AllocError` for want of memory.
    pub fn load_prepared(&mut self, it: Prepared) -> Result<(), AllocError>
        requires idle { self.old.state.pending ≡ [] }
        requires fresh { is_prepared it.xid self.old.state.gist.prepared ≡ false }
        ensures ok { OnOk result (self.new.state
            ≡ begun_state (after_prepare it self.old.state.gist)) }
        ensures none { OnErr result (self.new.state ≡ self.old.state) }
    {
        let bytes = changes_len(it.changes.as_slice());
        if !is_countable(self.committed, self.opened, self.waits, bytes) {
            return Err(AllocError);
        }
        let waiting = self.waiting + it.changes.as_slice().len();
        self.done.reserve(waiting)?;
        self.left.push(it)?;
        self.waits += bytes;
        self.waiting = waiting;
        Ok(())
    }
}
