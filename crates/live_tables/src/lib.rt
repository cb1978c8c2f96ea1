//! The tables of an engine in memory: the committed ones, and what each transaction changes.
//!
//! One idea makes it right: a change stands once, in the list of its transaction, until it is committed. So a rollback drops a list, and a
//! commit takes no memory: the changes are appended to a list that has had room for them since they were made.
//!
//! It stands on `log_tables` (what changes make of tables) and `engine_api` (the state that an engine tells).
#![tactic(auto)]

mod back;
mod behind;
mod below;
mod bytes;
mod finish;
mod gone;
mod laws;
mod left;
mod live;
mod load;
mod moves;
mod pending;
mod scan;
#[cfg(test)]
mod scan_tests;
mod seek;
mod stored;
mod tables;
#[cfg(test)]
mod tests;
mod trail;
mod write;

pub use live::LiveTables;
pub use write::LIVE_LIMIT;
