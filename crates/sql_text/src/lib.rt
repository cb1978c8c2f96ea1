//! Statements of SQL, read from their text.
//!
//! Two steps: a text is cut into tokens (`tokens_of`), and a statement is read from the tokens. One idea makes the place of a
//! fault right: a statement is read one token at a time, and each part that is read can be completed (`Reading`), so the first
//! token that is not read is the first that no statement has there. It stands on `sql_value`.
#![tactic(auto)]

mod create;
mod filter;
mod insert;
mod keyword;
mod lexeme;
mod list;
mod number;
mod opening;
mod parser;
mod plugin;
mod quoted;
mod reading;
mod select;
mod statement;
mod step;
mod sum;
#[cfg(test)]
mod tests;
mod token;
mod transaction;
mod update;

pub use list::ListOf;
pub use parser::{ParseFault, parse};
pub use statement::{
    Assign, Cond, Item, Literal, Literals, Op, Operand, Statement, Step, Sum, Term, TypeName,
};
