//! Values of SQL, and the names and texts that they are made of.
//!
//! One idea makes it right: contracts see a name and a text as their bytes, and a row as the list of its values.
#![tactic(auto)]

mod comparison;
mod name;
mod order;
mod refusal;
mod sums;
#[cfg(test)]
mod tests;
mod text;
mod truth;
mod value;

pub use comparison::{are_comparable, compare};
pub use name::{BadName, Name};
pub use order::value_order;
pub use refusal::{Cycle, Refusal};
pub use sums::{checked_add, checked_sub};
pub use text::Text;
pub use truth::Truth;
pub use value::{Row, Value};
