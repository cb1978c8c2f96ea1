//! Chained frames, and the checksum that chains them.
//!
//! One idea makes it right: a frame is the spelling of an event at a position behind a checksum (`frame_of`), so what is written is
//! that spelling, and what is read is the one event that it spells, or there is none. It stands on std alone.
#![tactic(auto)]

mod checksum;
mod header;
mod laws;
mod read;
mod short;
mod tables;
#[cfg(test)]
mod tests;
mod write;

pub use checksum::crc;
pub use laws::{crc_goes_on, frame_in_parts, one_event_at_a_place};
pub use read::{Frame, frame_at};
pub use short::ShortFrame;
pub use write::{close_frame, open_frame, put_frame, short_frame};
