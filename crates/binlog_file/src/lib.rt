//! The binary log's file: a header, and transactions as chained frames.
//!
//! One idea makes it right: the file is only added to, and a transaction is there exactly where all its frames are (`IsLogged`). So a
//! crash image has every transaction that was synced, and of the others a first part (`Holds`). It stands on `row_format` and
//! `binlog_events` (transactions, and how they are spelt), `fault_counts`, `disk_model`, `frame_codec`, `framed_file` and, for the
//! printed forms of its errors, `thiserror`.
#![tactic(auto)]

mod binlog;
mod cut_off;
mod fault;
mod laws;
mod open_log;
mod plain;
mod scan;
mod settle;
#[cfg(test)]
mod tests;
mod visit;
mod walk;

pub use binlog::Binlog;
pub use fault::BinlogFault;
pub use laws::one_log;
pub use open_log::Opened;
pub use plain::logged_in;
pub use visit::Visit;
