//! Storage engines, as the server calls them.
//!
//! One idea makes it right: an engine tells one plain value, its state, and each call says which state is next. What its files stand
//! for in a crash is said at each moment of each call, of its own files alone; all other files stay as they were.
//!
//! It stands on `disk_model` (files and their crash images), `row_format` (rows, schemas, changes) and `log_tables` (what changes make
//! of tables).
#![tactic(auto)]

mod cursor;
mod engine;
mod fault;
mod flags;
mod flush;
#[cfg(test)]
mod tests;

pub use cursor::Cursor;
pub use engine::Engine;
pub use fault::{Code, EngineFault};
pub use flags::{Flags, KeyRule, Use};
pub use flush::flush_all;
pub use log_tables::{Definition, Gist, Prepared, Table};
