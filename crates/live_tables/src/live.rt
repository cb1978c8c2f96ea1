//! The tables of an engine in memory, and what stands in them.
//!
//! Invariant: what is pending applies, the counts are right, and there is room for each change that may be committed (`AreSound`,
//! `AreCounted`).
ghost use Rattle.std.specs.Prelude.{◌≡◌, ◌∷◌, ◌+◌, ◌≤◌, [], None, Some, false, true, length, map, IfOk, nat_le};
ghost use Rattle.std.specs.Option.{option_copied};
ghost use Rattle.log_tables.specs.Gists.{empty_gist};
ghost use Rattle.engine_api.specs.States.{begun_state, changes_by, xid_by};
ghost use Rattle.engine_api.specs.Live.{live_schema, live_rows, live_row, is_taken, live_limit};

use crate::pending::{self, Open};
use crate::seek::{row_by, row_through, rows_by, rows_through, schema_by, schema_through};
use crate::stored::Stored;
use crate::tables;
use log_tables::Prepared;
use row_format::{Change, Name, Row, Schema, Value};
use std::alloc::{AllocError, Global};
use std::marker::Model;

/// The committed tables of an engine, and what its transactions have pending.
#[derive(Drop)]
pub struct LiveTables {
    pub(crate) alloc: Global,
    pub(crate) tables: Vec<Stored>,
    // Committed changes that are not in the tables yet.
    pub(crate) done: Vec<Change>,
    // What an earlier run prepared.
    pub(crate) left: Vec<Prepared>,
    pub(crate) pending: Vec<Open>,
    pub(crate) last: u64,
    // The bytes of the tables, of what is pending, and of what is done or left.
    pub(crate) committed: u64,
    pub(crate) opened: u64,
    pub(crate) waits: u64,
    // How many changes are pending or left, and may be committed.
    pub(crate) waiting: usize,
}

impl Model for LiveTables {
    ghost use Rattle.std.specs.Prelude.{◌-◌, ◌+◌, ◌≤◌};
    ghost use Rattle.std.specs.Vec.{vec_len, vec_capacity};
    ghost use Rattle.live_tables.specs.Live.{Live, state_of, AreSound, AreCounted};

    ghost Value = { Live };

    ghost view = { λ l. record {
      state = state_of l.tables.items l.done.items l.left.items l.pending.items l.last;
      spare = vec_capacity l.pending - vec_len l.pending;
    } };

    ghost invariant = { λ l. AreSound l.tables.items l.done.items l.left.items l.pending.items
        × AreCounted l.tables.items l.done.items l.left.items l.pending.items
        l.committed l.opened l.waits l.waiting
        × (vec_len l.done + l.waiting ≤ vec_capacity l.done) };
}

impl LiveTables {
    /// No table, and nothing pending. No memory is taken.
    pub fn new(alloc: Global) -> LiveTables
        ensures { result.state ≡ begun_state empty_gist }
    {
        LiveTables {
            alloc,
            tables: Vec::new(alloc),
            done: Vec::new(alloc),
            left: Vec::new(alloc),
            pending: Vec::new(alloc),
            last: 0,
            committed: 0,
            opened: 0,
            waits: 0,
            waiting: 0,
        }
    }

    /// The schema of the live table of this name; None exactly where there is none.
    pub fn schema(&self, table: &Name) -> Option<&Schema>
        ensures { option_copied result ≡ live_schema table.now self.now.state }
    {
        let stored = tables::schema(&self.tables, table);
        let done = schema_through(&self.done, table, stored);
        schema_by(&self.pending, table, done)
    }

    /// How many rows the live table of this name has; 0 where there is none.
    pub fn records(&self, table: &Name) -> u64
        ensures { result ≡ length (live_rows table.now self.now.state) }
    {
        let stored = tables::rows(&self.tables, table) as u64;
        let done = rows_through(&self.done, table, stored);
        rows_by(&self.pending, table, done)
    }

    /// The row with this key of the live table of this name; None where there is none, or the table has no key.
    pub fn row(&self, table: &Name, key: &Value) -> Option<&Row>
        ensures { option_copied result ≡ live_row table.now key.now self.now.state }
    {
        let column = self.schema(table)?.key? as usize;
        let stored = tables::row(&self.tables, table, key);
        let done = row_through(&self.done, table, column, key, stored);
        row_by(&self.pending, table, column, key, done)
    }

    /// Whether the live table of this name has a row with the key of this one.
    pub fn is_taken(&self, table: &Name, row: &Row) -> bool
        ensures { result ≡ is_taken table.now row.now self.now.state }
    {
        let Some(schema) = self.schema(table) else {
            return false;
        };
        let Some(column) = schema.key else {
            return false;
        };
        match row.values().get(column as usize) {
            Some(key) => self.row(table, key).is_some(),
            None => self.row(table, &Value::Null).is_some(),
        }
    }

    /// The changes that a transaction has pending, in order.
    pub fn changes(&self, txn: u32) -> &[Change]
        ensures { result.now ≡ changes_by txn self.now.state.pending }
    {
        match pending::find(&self.pending, txn) {
            Some(it) => it.changes(),
            None => &[],
        }
    }

    /// The xid under which a transaction is prepared, if it is.
    pub fn xid(&self, txn: u32) -> Option<u64>
        ensures { result ≡ xid_by txn self.now.state.pending }
    {
        match pending::find(&self.pending, txn) {
            Some(it) => it.under(),
            None => None,
        }
    }

    /// The number of the last commit.
    pub fn last(&self) -> u64
        ensures { result ≡ self.now.state.gist.last }
    {
        self.last
    }
}
