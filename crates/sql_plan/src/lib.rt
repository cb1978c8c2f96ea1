//! What a statement is planned to: how its rows are found, and with which schema; or why it is refused before a row is looked at.
//!
//! One idea makes the refusals right: a statement is looked through once, from the left, with one function for each part of it, and each
//! answers for its part what the definition of that part says. It stands on `sql_text`, on `row_format` for schemas, and on `engine_api` for
//! what an engine can do.
#![tactic(auto)]

mod copies;
mod names;
mod paths;
mod planning;
mod shape;
mod tables;
#[cfg(test)]
mod tests;
mod types;

pub use planning::plan;
pub use shape::{Path, Plan, PlanFault};
pub use types::ValueType;
