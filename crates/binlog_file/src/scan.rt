//! How far a reading of the log has come.
ghost use Rattle.std.specs.Prelude.{◌≤◌};

/// How many bytes the header has: the first transaction begins there.
pub(crate) const HEADER_LEN: usize = 32;

/// The header of a log: the word, version 1, sequence 1, no transactions before this file, zero, and their checksum.
pub(crate) const HEADER: [u8; 32] = [
    0x50, 0x4c, 0x55, 0x47, 0x44, 0x4c, 0x4f, 0x47, 1, 0, 0, 0, 1, 0, 0, 0, 0, 0, 0, 0, 0, 0, 0, 0,
    0, 0, 0, 0, 0x76, 0x59, 0x64, 0x2b,
];

/// The checksum of the header, to which the first frame is chained.
pub(crate) const HEADER_CRC: u32 = 0x2b645976;

/// How many transactions were found, where the last one ends, and its checksum.
#[derive(Clone, Copy, Debug, PartialEq, Eq)]
pub(crate) struct Scan {
    /// How many transactions were found.
    pub count: u64,
    /// The file position behind the last one.
    pub len: u32,
    /// The checksum of its last frame, or the header's.
    pub crc: u32,
    ghost counted: { count ≤ len },
    ghost fits: { len ≤ 2147483647 },
}
