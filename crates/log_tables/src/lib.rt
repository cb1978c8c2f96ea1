//! The tables of a log: what changes, transactions and a whole log make of the tables, from nothing.
//!
//! One idea makes it right: the tables are a list in order of creation, and a change is one step of a fold over it. The dictionary,
//! an engine's part, its journal and recovery all speak of this one fold.
#![tactic(auto)]

mod gist;
mod keys;
mod laws;
mod plain;
mod table;
#[cfg(test)]
mod tests;

pub use gist::{Gist, Prepared, PreparedList};
pub use keys::{has_key, value_at};
pub use laws::{installed_goes_on, log_goes_on, no_name_twice, other_parts_stay, part_goes_on};
pub use plain::tables_of;
pub use table::{Definition, Rows, Table, Tables};
