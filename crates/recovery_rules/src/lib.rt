//! What it means that engines can be brought to a log, and that they are: definitions, and laws that upper crates cite.
//!
//! One idea makes it right: an engine commits the log's transactions in order, so one number says what it has, and what it has prepared
//! says the rest (`Trails`). Each step of a commit, a recovery or a shorter log keeps that.
#![tactic(auto)]

mod laws;

pub use laws::{
    append_stays_recoverable, commit_stays_recoverable, cut_stays_recoverable, distinct_xids,
    next_applies, next_is_first_prepared, none_prepared_is_recovered, nothing_is_recovered,
    prepare_stays_recoverable, recovered_is_recoverable, rollback_stays_recoverable,
};
