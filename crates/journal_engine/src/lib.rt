//! The engine JOURNAL: tables in memory, and a journal of prepared and committed transactions in two files.
//!
//! One idea makes it right: what the engine has is what the records of its journal stand for (`StandsFor`), and one record more is one
//! step of it. So a call writes one record, makes it durable, and only then changes the tables; a crash leaves the record or not.
//!
//! It stands on `redo_journal` (the journal), `live_tables` (the tables, and what is pending) and `engine_api` (the trait).
#![tactic(auto)]

mod calls;
mod copies;
#[cfg(test)]
mod crash_tests;
mod engine;
#[cfg(test)]
mod fixture;
mod replay;
mod room;
#[cfg(test)]
mod scan_tests;
#[cfg(test)]
mod tests;
mod write;

pub use engine::JournalEngine;
