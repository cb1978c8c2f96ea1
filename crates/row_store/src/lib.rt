//! The rows of one table, in key order or as they were inserted.
//!
//! One idea makes it right: a row stays in the slot that it came into, and a list of small numbers says in which order the slots are read.
//! So a row that comes or goes moves numbers and no rows, and few numbers, since the list stands in blocks (`order`). Room that was made
//! beforehand serves whichever row comes.
//!
//! It stands on `row_format` (rows and schemas) and `log_tables` (what a row change makes of rows).
#![tactic(auto)]

mod block;
mod changes;
mod edits;
mod keys;
mod laws;
mod order;
mod pack;
mod slots;
mod table;
#[cfg(test)]
mod tests;

pub use laws::{made_and_undone, made_as_logged};
pub use table::RowTable;
