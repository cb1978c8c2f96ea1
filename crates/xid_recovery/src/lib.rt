//! Recovery by xid: each crash-safe engine is brought to what the log says.
//!
//! One idea makes it right: what an engine has prepared of the log is committed in the log's order, and what the log does not have is
//! rolled back, so at each moment the engine trails the log (`Trails` of `recovery_rules`), and at the end it is at it.
#![tactic(auto)]

mod calls;
mod one;
mod report;
mod settle;

pub use one::recover_one;
pub use report::{EngineReport, OpenFault};
