//! A statement's text, taken to what it comes to on an engine.
//!
//! One idea makes it right: the table of a statement is looked for twice, in the dictionary and in the engine, and only where both have it
//! with one schema is the statement planned. So its effect on that engine is its effect on the dictionary's tables, and each refusal is one of
//! these. It stands on `sql_text` (statements), `sql_plan` (plans), `sql_exec` (which carries them out) and `dictionary`.
#![tactic(auto)]

mod laws;
mod looking;
mod outcome;
mod step;

pub use laws::{changes_apply, one_engine_is_installed, tables_are_allowed};
pub use outcome::Outcome;
pub use step::carry_out;
