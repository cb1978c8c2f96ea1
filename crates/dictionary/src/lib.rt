//! The dictionary: the definitions of the tables that there are, in order of creation, and the installed engines.
//!
//! One idea makes it right: a dictionary is what the changes of a log make, one step for each change (`dictionary_change`), by the
//! same definitions as the tables of the log. A change that takes no effect leaves all as it is.
//!
//! It stands on `log_tables` (what changes make of tables and of the installed engines) and `indexmap` (entries in order, each found
//! by its key).
#![tactic(auto)]

mod dictionary;
mod laws;
#[cfg(test)]
mod tests;

pub use dictionary::Dictionary;
pub use laws::{changes_of_a_log, definition_of_a_table, rows_make_no_difference};
