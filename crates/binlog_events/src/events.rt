//! Transactions as the log has them: chained frames of BEGIN, the events of the changes, and XID.
//!
//! Invariant: the frames that were written or read so far stand one directly after the other, and the next one is chained to the last
//! (`Chains`, `IsNext`).
use row_format::Transaction;

/// A transaction that stands at a place: what it is, how many bytes it has, and the checksum of its last frame.
#[derive(Drop)]
pub struct Found {
    pub txn: Transaction,
    pub len: usize,
    pub crc: u32,
}

/// Where the next frame goes, and the checksum to which it is chained.
#[derive(Clone, Copy, Debug, PartialEq, Eq)]
pub(crate) struct End {
    pub at: u32,
    pub crc: u32,
}
