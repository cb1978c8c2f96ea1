//! The plugins of an opening: their slots, who refers to each, and when one may be ended.
//!
//! One idea makes it right: a slot is used once. Its name may be installed again only when the slot is gone, and then gets another one, so
//! whoever referred to the plugin before is never taken for one who refers to it now.
//!
//! It stands on `sql_value` (names).
#![tactic(auto)]

mod fault;
mod holder;
mod laws;
mod registry;
mod slot;
#[cfg(test)]
mod tests;

pub use fault::{GetFault, InstallFault, UninstallFault};
pub use holder::Holder;
pub use registry::{Registry, SLOT_LIMIT};
pub use slot::Phase;
