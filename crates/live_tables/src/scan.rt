//! The rows of a live table by place, and one after the other by key.
ghost use Rattle.std.specs.Prelude.{◌≡◌, ◌<◌, ◌^◌, slice_get, IfOk};
ghost use Rattle.std.specs.Option.{option_copied};
ghost use Rattle.log_tables.specs.Tables.{table_named};
ghost use Rattle.engine_api.specs.States.{live_tables};
ghost use Rattle.engine_api.specs.Live.{live_rows};
ghost use Rattle.engine_api.specs.Scans.{live_above};
ghost use Rattle.live_tables.specs.Folds.{key_found};

use crate::trail::{Trail, walk_opens};
use crate::{LiveTables, tables};
use row_format::{Name, Row, Value};
use std::alloc::AllocError;

// More rows than any memory has.
const MOST_ROWS: usize = 4_611_686_018_427_387_904;

impl LiveTables {
    // The key column of the live table of this name, where it has one.
    fn key(&self, table: &Name) -> Option<u8>
        ensures { result ≡ key_found (table_named table.now (live_tables self.now.state)) }
    {
        match self.schema(table) {
            Some(schema) => schema.key,
            None => None,
        }
    }

    // The row at a place of the live table of this name.
    fn row_there(&self, table: &Name, place: usize) -> Option<&Row>
        requires { place < 2 ^ 63 }
        ensures { option_copied result ≡ slice_get (live_rows table.now self.now.state) place }
    {
        let key = self.key(table);
        let spot = match walk_opens(&self.tables, &self.done, &self.pending, table, key, place) {
            Ok(found) => return found,
            Err(before) => before,
        };
        let settled = Trail {
            tables: &self.tables,
            done: &[],
            opens: &[],
        };
        match settled.walk_back(&self.done, table, key, spot) {
            Ok(found) => found,
            Err(before) => tables::row_at(&self.tables, table, before),
        }
    }

    /// The row at a place, from 0, of the live table of this name; None where it has none there, or there is no such table.
    pub fn row_at(&self, table: &Name, place: u32) -> Option<&Row>
        ensures { option_copied result ≡ slice_get (live_rows table.now self.now.state) place }
    {
        self.row_there(table, place as usize)
    }

    /// The row of the least key above this one of the live table of this name; None where there is none, or the table has no key.
    ///
    /// `AllocError` where there are more rows below than any memory has.
    pub fn row_above(&self, table: &Name, after: &Value) -> Result<Option<&Row>, AllocError>
        ensures { IfOk result (λ row. option_copied row
            ≡ live_above table.now after.now self.now.state) }
    {
        let Some(column) = self.key(table) else {
            return Ok(None);
        };
        let whole = Trail {
            tables: &self.tables,
            done: &self.done,
            opens: &self.pending,
        };
        let low = whole.below(&[], table, column as usize, after);
        if low >= MOST_ROWS {
            return Err(AllocError);
        }
        if self.row(table, after).is_some() {
            Ok(self.row_there(table, low + 1))
        } else {
            Ok(self.row_there(table, low))
        }
    }
}
