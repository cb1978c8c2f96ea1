//! Files named by numbers, and what a crash at any moment may leave of them.
//!
//! One idea makes it right: a storage tells one thing, each file at each moment so far (`Disk`), and a file is data, its bytes, what
//! it was at its last sync and what was asked of it since (`File`). Crash images and intended states are definitions over it.
#![tactic(auto)]

mod calls;
mod choice;
mod files;
mod fresh;
mod images;
mod memory;
pub(crate) mod past;
mod storage;
#[cfg(test)]
mod tests;
mod veiled;
mod volume;

pub use choice::Choice;
pub use memory::MemoryStorage;
pub use past::FileBytes;
pub use storage::{Failed, Storage};
pub use veiled::Veiled;
pub use volume::Volume;
