//! What it means that a count of faults rose: the one word for the cause of an answer that blames a device, a source or a sink.
//!
//! Counts are `u64` and stand still at their last value, so a count rose where it is one more or more, or stands there.
//! Definitions over std, and laws that they meet.
#![tactic(auto)]

mod laws;

pub use laws::{at_last_it_rose, below_last_it_is_greater, last_is_greatest, rose_over_more_calls};
