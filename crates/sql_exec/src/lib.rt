//! The executor of statements on one engine.
//!
//! One idea makes it fast: a row is looked at where it stands. The values that a condition compares are borrowed from the row and from the
//! statement, and what it says of a row is worked out in one list that is kept from row to row. What is right is said by `sql_effect`,
//! whose definitions each answer is held to; statements are those of `sql_text`, plans those of `sql_plan`, and engines meet the trait of
//! `engine_api`.
#![tactic(auto)]

mod calls;
mod columns;
mod conditions;
mod executing;
mod fault;
mod inserting;
mod laws;
mod making;
mod search;
mod seen;
mod selecting;
mod sums;
#[cfg(test)]
mod tests;

pub use columns::pick;
pub use conditions::Chooser;
pub use executing::execute;
pub use fault::ExecFault;
pub use laws::{
    chosen_by_key, idle_can_execute, key_of_plan_fits, same_effect_on_view, same_refusal_on_view,
};
pub use search::select_rows;
