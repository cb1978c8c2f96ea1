//! Tables as values: a definition, and rows by key or as they were inserted.
ghost use Rattle.std.specs.Prelude.{◌≡◌};

use row_format::{Name, Row, Schema};
use std::marker::Model;

/// What the dictionary has of a table.
#[derive(Drop)]
pub struct Definition {
    pub table: Name,
    pub engine: Name,
    pub schema: Schema,
}

/// The rows of a table, in key order, or as they were inserted where it has no key.
#[derive(Drop)]
pub struct Rows {
    pub(crate) rows: Vec<Row>,
}

impl Model for Rows {
    ghost use Rattle.std.specs.Prelude.{List};
    ghost use Rattle.sql_value.specs.declared.value.Value.{Value as Cell};

    ghost Value = { List (List Cell) };

    ghost view = { λ r. r.rows.items };
}

impl Rows {
    /// The list of these rows. No memory is taken.
    pub fn new(rows: Vec<Row>) -> Rows
        ensures { result ≡ rows.items }
    {
        Rows { rows }
    }

    /// The rows, in order.
    pub fn as_slice(&self) -> &[Row]
        ensures { result.now ≡ self.now }
    {
        self.rows.as_slice()
    }

    /// The rows, to keep. No memory is taken.
    pub fn into_rows(self) -> Vec<Row>
        ensures { result.items ≡ self }
    {
        self.rows
    }
}

/// A table: what the dictionary has of it, and its rows.
#[derive(Drop)]
pub struct Table {
    pub definition: Definition,
    pub rows: Rows,
}

/// Tables, in order of creation.
#[derive(Drop)]
pub struct Tables {
    tables: Vec<Table>,
}

impl Model for Tables {
    ghost use Rattle.std.specs.Prelude.{List};
    ghost use Rattle.log_tables.specs.declared.table.Table.{Table};

    ghost Value = { List Table };

    ghost view = { λ t. t.tables.items };
}

impl Tables {
    /// The list of these tables. No memory is taken.
    pub fn new(tables: Vec<Table>) -> Tables
        ensures { result ≡ tables.items }
    {
        Tables { tables }
    }

    /// The tables, in order of creation.
    pub fn as_slice(&self) -> &[Table]
        ensures { result.now ≡ self.now }
    {
        self.tables.as_slice()
    }

    /// The tables, to keep. No memory is taken.
    pub fn into_tables(self) -> Vec<Table>
        ensures { result.items ≡ self }
    {
        self.tables
    }
}
