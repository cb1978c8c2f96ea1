//! What a reply acknowledged.

/// A transaction that was acknowledged: its number in the log, from 1, and how many device calls there were then. A crash image at
/// any moment since that call has it.
#[derive(Clone, Copy, Debug, PartialEq, Eq)]
pub struct Ack {
    pub number: u64,
    pub call: u64,
}
