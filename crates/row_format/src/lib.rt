//! Rows, schemas and changes, and how names, schemas and rows are spelt in files.
//!
//! One idea makes it right: each thing has one spelling, a function of its value, and none is a proper first part of another. So what
//! is written is that spelling, and what is read is the one thing that it spells, whatever follows.
#![tactic(auto)]

mod change;
mod check;
mod copies;
mod fault;
mod image;
mod laws;
mod len;
mod put;
mod read;
mod same;
mod schema;
mod take;
#[cfg(test)]
mod tests;

pub use change::{Change, Changes, TableMap, Transaction};
pub use check::{check_row, key_of};
pub use copies::{copy_row, copy_value, copy_values};
pub use fault::Unread;
pub use image::put_image;
pub use laws::{one_name, one_row, one_schema};
pub use len::{image_len, row_len, schema_len};
pub use put::{add_counted, add_map, add_row, add_schema, finish, put_name, put_row, put_schema};
pub use read::{name_of, row_of, schema_of};
pub use same::{is_same_row, is_same_value};
pub use schema::{BadSchema, Column, Columns, Kind, Schema};
pub use sql_value::{BadName, Name, Row, Text, Value};
pub use take::{take_byte, take_map, take_name, take_row, take_schema};
