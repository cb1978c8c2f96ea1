//! Changes, and transactions of them, as values.
ghost use Rattle.std.specs.Prelude.{◌≡◌};

use crate::{Name, Row, Schema};
use std::marker::Model;

/// The table that a row change names, and the schema that it was made for.
/// (MySQL Internals Manual, "TABLE_MAP_EVENT"; what it holds is this project's.)
#[derive(Drop)]
pub struct TableMap {
    pub table: Name,
    pub schema: Schema,
}

/// One change that a transaction makes.
#[derive(Drop)]
pub enum Change {
    /// INSTALL PLUGIN: the engine is installed.
    Install {
        name: Name,
    },
    /// UNINSTALL PLUGIN: the engine is installed no more.
    Uninstall {
        name: Name,
    },
    /// CREATE TABLE: a table of this engine, with this schema.
    Create {
        table: Name,
        engine: Name,
        schema: Schema,
    },
    /// DROP TABLE: the table is there no more.
    Drop {
        table: Name,
    },
    /// INSERT: one row more in the table.
    Insert {
        map: TableMap,
        row: Row,
    },
    /// UPDATE: a row is another now. The place is that of the row before, from 0, or 0 in a table with a key.
    Update {
        map: TableMap,
        place: u32,
        before: Row,
        after: Row,
    },
    /// DELETE: a row is there no more. The place is that of the row, from 0, or 0 in a table with a key.
    Delete {
        map: TableMap,
        place: u32,
        before: Row,
    },
}

/// The changes of a transaction, in order.
#[derive(Drop)]
pub struct Changes {
    changes: Vec<Change>,
}

impl Model for Changes {
    ghost use Rattle.std.specs.Prelude.{List};
    ghost use Rattle.row_format.specs.declared.change.Change.{Change};

    ghost Value = { List Change };

    ghost view = { λ c. c.changes.items };
}

impl Changes {
    /// The list of these changes. No memory is taken.
    pub fn new(changes: Vec<Change>) -> Changes
        ensures { result ≡ changes.items }
    {
        Changes { changes }
    }

    /// The changes, in order.
    pub fn as_slice(&self) -> &[Change]
        ensures { result.now ≡ self.now }
    {
        self.changes.as_slice()
    }

    /// The changes, to keep. No memory is taken.
    pub fn into_changes(self) -> Vec<Change>
        ensures { result.items ≡ self }
    {
        self.changes
    }
}

/// A transaction as the log has it: its identity, and its changes.
#[derive(Drop)]
pub struct Transaction {
    pub xid: u64,
    pub changes: Changes,
}
