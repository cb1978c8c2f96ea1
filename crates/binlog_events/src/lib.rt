//! The events of a transaction: as which events its changes stand in the log and in an engine's journal, and how they are read back.
//!
//! One idea makes it right: a transaction is one list of events, a function of its value, and no such list begins another. So what is
//! written is that list, and what is read is the one transaction that it tells, whatever follows it.
//!
//! It stands on `row_format` (changes, and how names, schemas and rows are spelt) and `frame_codec` (an event as a frame).
#![tactic(auto)]

mod events;
mod found;
mod items;
mod laws;
mod len;
mod log;
mod spell;
#[cfg(test)]
mod tests;
mod walk;

pub use events::Found;
pub use found::transaction_at;
pub use items::{items_of, put_items};
pub use laws::{one_list, one_transaction};
pub use len::{items_len, transaction_len};
pub use log::put_transaction;
