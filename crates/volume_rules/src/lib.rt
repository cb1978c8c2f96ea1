//! Which crash images of a volume with a log and engines are recoverable and which are recovered, and how a transaction on its way from
//! prepare to commit keeps them so: definitions, and laws that upper crates cite.
//!
//! One idea makes it right: at each moment the images of the log's file lie between two logs, and those of each engine's files read as one
//! of a few gists; where any of them go together, each crash leaves what recovery can mend (`Stands`).
#![tactic(auto)]

mod laws;

pub use laws::{each_is_recoverable, each_is_recovered};
