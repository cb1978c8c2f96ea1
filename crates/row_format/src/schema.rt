//! Schemas: the columns of a table, and its key.
ghost use Rattle.std.specs.Prelude.{◌≡◌, ◌≤◌, ◌+◌, length, is_ok, IfOk, IfErr, IsTrue, All, sum_by};
ghost use Rattle.std.specs.List.{list_any, list_all};
ghost use Rattle.sql_value.specs.Names.{IsName};
ghost use Rattle.row_format.specs.Schemas.{is_called, are_distinct, has_room, is_key, greatest, greatest_image, is_well_made, is_allowed, IsSchema};

use crate::Name;
use std::marker::Model;

/// The type of a column. (MySQL 5.7 Reference Manual, "Data Types", of which there are these two.)
#[derive(Clone, Copy, Debug, PartialEq, Eq)]
pub enum Kind {
    /// A signed number of 64 bits.
    BigInt,
    /// A text of at most so many bytes, from 1 to 255.
    VarChar(u8),
}

/// A column: its name, its type, and whether its values may be Null.
#[derive(Drop)]
pub struct Column {
    pub name: Name,
    pub kind: Kind,
    pub nullable: bool,
}

/// The columns of a table, in order.
#[derive(Drop)]
pub struct Columns {
    columns: Vec<Column>,
}

impl Model for Columns {
    ghost use Rattle.std.specs.Prelude.{List};
    ghost use Rattle.row_format.specs.declared.schema.Column.{Column};

    ghost Value = { List Column };

    ghost view = { λ c. c.columns.items };
}

impl Columns {
    /// The list of these columns. No memory is taken.
    pub fn new(columns: Vec<Column>) -> Columns
        ensures { result ≡ columns.items }
    {
        Columns { columns }
    }

    /// The columns, in order.
    pub fn as_slice(&self) -> &[Column]
        ensures { result.now ≡ self.now }
    {
        self.columns.as_slice()
    }

    /// The columns, to keep. No memory is taken.
    pub fn into_columns(self) -> Vec<Column>
        ensures { result.items ≡ self }
    {
        self.columns
    }
}

/// The schema of a table: its columns, and the place of its key column, from 0, where it has one. `Schema::new` makes it.
#[derive(Drop)]
pub struct Schema {
    pub columns: Columns,
    pub key: Option<u8>,
}

/// Columns that are no schema with the key that was named. They are handed back.
#[derive(Drop)]
pub struct BadSchema {
    pub columns: Vec<Column>,
}

// Whether a column has this name.
fn is_taken(name: &Name, columns: &[Column]) -> bool
    ensures value { result ≡ list_any (is_called name.now) columns.now }
    ensures name { IsName name.now }
{
    let _bytes = name.as_bytes();
    columns.iter().any(|column| name.is_same(&column.name))
}

// Whether no two columns have one name.
fn are_different(columns: &[Column]) -> bool
    ensures value { result ≡ are_distinct columns.now }
    ensures named { IsTrue result → All (λ it. IsName it.name) columns.now }
{
    let mut i = 0;
    while i < columns.len() {
        if is_taken(&columns[i].name, &columns[i + 1..]) {
            return false;
        }
        i += 1;
    }
    true
}

// Whether a text column has room for at least one byte; more than 255 it cannot have.
fn is_roomy(column: &Column) -> bool
    ensures { result ≡ has_room column.now }
{
    match column.kind {
        Kind::BigInt => true,
        Kind::VarChar(n) => n != 0,
    }
}

// Whether each text column has.
fn are_roomy(columns: &[Column]) -> bool
    ensures { result ≡ list_all has_room columns.now }
{
    columns.iter().all(|column| is_roomy(column))
}

// Whether the key, where there is one, is a column that is not nullable.
fn may_be_key(columns: &[Column], key: Option<u8>) -> bool
    ensures { result ≡ is_key columns.now key }
{
    match key {
        None => true,
        Some(place) => match columns.get(place as usize) {
            Some(column) => !column.nullable,
            None => false,
        },
    }
}

// The most bytes that a value of this type has in a row image.
fn most(kind: Kind) -> u32
    ensures value { result ≡ greatest kind }
    ensures small { result ≤ 256 }
{
    match kind {
        Kind::BigInt => 8,
        Kind::VarChar(n) => 1 + u32::from(n),
    }
}

// The most bytes that a row image has.
fn most_bytes(columns: &[Column]) -> u32
    requires { length columns.now ≤ 16 }
    ensures { result ≡ greatest_image columns.now }
{
    let mut sum = if columns.len() <= 8 { 1 } else { 2 };
    for column in columns {
        sum += most(column.kind);
    }
    sum
}

// Whether the names are different, each VARCHAR has room, and the key may be one.
fn is_sound(columns: &[Column], key: Option<u8>) -> bool
    ensures value { result ≡ is_well_made columns.now key }
    ensures named { IsTrue result → All (λ it. IsName it.name) columns.now }
{
    are_different(columns) && are_roomy(columns) && may_be_key(columns, key)
}

// Whether the columns are a schema with this key.
fn is_schema(columns: &[Column], key: Option<u8>) -> bool
    ensures value { result ≡ is_allowed columns.now key }
    ensures named { IsTrue result → All (λ it. IsName it.name) columns.now }
{
    if columns.is_empty() || columns.len() > 16 {
        return false;
    }
    is_sound(columns, key) && most_bytes(columns) <= 2000
}

impl Schema {
    /// The schema of these columns, with the key column at this place, from 0, or with none. No memory is taken.
    ///
    /// `BadSchema` exactly where there are not 1 to 16 columns, two names are equal, a VARCHAR has length 0, the key is not a column
    /// or is nullable, or the greatest row image has more than 2,000 bytes.
    pub fn new(columns: Vec<Column>, key: Option<u8>) -> Result<Schema, BadSchema>
        ensures exact { is_ok result ≡ is_allowed columns.items key }
        ensures ok { IfOk result (λ s. (s.columns ≡ columns.items) × (s.key ≡ key)) }
        ensures schema { IfOk result IsSchema }
        ensures bad_schema { IfErr result (λ e. e.columns.items ≡ columns.items) }
    {
        if is_schema(&columns, key) {
            Ok(Schema {
                columns: Columns::new(columns),
                key,
            })
        } else {
            Err(BadSchema { columns })
        }
    }
}
