//! Where the bytes of a run come from and go to: a source, a sink, both in memory, and adapters over std's reader and writer.
//!
//! A source tells what is left to read and a sink what it holds, where that is known, and each counts its faults.
#![tactic(auto)]

mod ends;
mod memory_sink;
mod memory_source;
mod std_ends;
#[cfg(test)]
mod tests;
mod writing;

pub use ends::{Failed, Sink, Source};
pub use memory_sink::MemorySink;
pub use memory_source::MemorySource;
pub use std_ends::{StdSink, StdSource};
pub use writing::write_all;
