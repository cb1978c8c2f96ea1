//! The journal of a crash-safe engine: records in two files, of which one is read.
//!
//! One idea makes it right: a file counts only once its gate is open, and the gate is opened by a write of its own behind a sync of
//! all else. Behind the header records are only added, so that a crash leaves a first part of them, with all that were synced.
//!
//! It stands on `disk_model` (files and their crash images), `frame_codec` and `framed_file` (chained frames), `row_format` (how rows
//! are spelt), `binlog_events` (how changes are) and `log_tables` (what changes make of tables).
#![tactic(auto)]

mod append;
#[cfg(test)]
mod change_tests;
mod choose;
mod create;
mod fault;
mod front;
mod header;
mod index;
mod journal;
mod laws;
mod open_journal;
mod place;
mod prepared;
mod record;
#[cfg(test)]
mod record_tests;
mod replay;
#[cfg(test)]
mod replay_tests;
mod scan;
mod settle;
mod spell;
mod tables;
mod take;
#[cfg(test)]
mod tests;
mod walk;

pub use fault::JournalFault;
pub use journal::{Journal, Side};
pub use laws::one_journal;
pub use record::Record;
pub use spell::record_len;
