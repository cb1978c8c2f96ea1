//! What a statement does, as functions of tables: the rows that it answers, how many rows it changes, and its changes.
//!
//! One idea makes it right: the definitions say of each statement what it does to a list of tables, without a word of how it is done,
//! and a plain program is proved to do just that. It stands on `sql_text` for statements, on `sql_plan` for what is refused before a row
//! is looked at, on `log_tables` for tables, and on `binlog_events` for the size of a transaction.
#![tactic(auto)]

mod conditions;
mod effects;
mod insert;
mod keys;
mod laws;
mod rewrite;
mod select;
mod shape;
mod sizes;
mod tables;
#[cfg(test)]
mod tests;
mod texts;
mod values;

pub use effects::{answers, effect_of, makes, sized};
pub use insert::{inserts, write_rows};
pub use laws::{
    insert_goes_on, one_effect, sound_after_changes, sound_of_log, truth_of_and, truth_of_not,
    truth_of_or, truth_of_steps,
};
pub use shape::{Effect, EffectFault, EngineFacts, Sizes, View};
pub use tables::are_tables;
pub use texts::text_effect;
