//! The texts of a schedule: what a line of the input asks for, and how rows are printed.
//!
//! One idea makes it right: a line is the text of what it asks for, so two readings of one line are one, and its first bytes decide.
//!
//! It stands on `sql_value` (values and rows) and `itoa` of the kit (numbers in decimal).
#![tactic(auto)]

mod laws;
mod lines;
mod printing;
#[cfg(test)]
mod tests;

pub use laws::{front_decides, one_meaning};
pub use lines::{Line, MAX_LINE, line_of};
pub use printing::{put_rows, put_value};
