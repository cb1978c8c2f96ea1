//! The lock table of a server: which owner holds which lock, which one waits, and for whom.
//!
//! One idea makes it right: an owner that waits waits for each owner that is in its way, and not for the first alone. So a
//! wait is let stand only where no cycle of waits would, and there is always somebody who can go on.
//!
//! It stands on `sql_value` (names, values, and the cycle that a refusal tells).
#![tactic(auto)]

mod cycle;
mod lock;
mod marks;
#[cfg(test)]
mod plain;
mod requests;
mod table;
#[cfg(test)]
mod tests;
mod want;

pub use lock::{Lock, LockName, Mode, Request};
pub use table::LockTable;
pub use want::Want;
