//! The slotted page of 4,096 bytes: a finite map from the numbers of slots to records.
//!
//! One idea makes it right: a page is its bytes and nothing else, and they are a page by the format (`IsPage`) before and after each
//! call. So what is written to a file is what was asked for, and what is read back is the same map. It stands on std alone. The format is
//! this project's own.
#![tactic(auto)]

mod directory;
mod form;
mod laws;
mod numbers;
mod page;
mod place;
#[cfg(test)]
mod tests;

pub use laws::one_page;
pub use page::{NoRoom, Page};
