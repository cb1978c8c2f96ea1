//! The header of an area, spelled and read: 32 bytes, of which byte 27 is the gate byte.
//!
//! The word, version 1, the sequence, seven zeros, the gate byte (1 where the area is open), and the checksum of the first 27 bytes.
ghost use Rattle.std.specs.Prelude.{◌≡◌};
ghost use Rattle.redo_journal.specs.Areas.{area_fields, area_checksum, area_header, open_sequence};

use frame_codec::crc;

/// How many bytes the header has: the first record's frame begins there.
pub(crate) const HEADER_LEN: usize = 32;

/// Where the gate byte stands.
pub(crate) const GATE_PLACE: u64 = 27;

/// The gate byte of an area that is not open yet.
pub(crate) const GATE_CLOSED: u8 = 0;

/// The gate byte of an area that is open.
pub(crate) const GATE_OPEN: u8 = 1;

// What stands before the gate byte.
fn fields(sequence: u64) -> [u8; 27]
    ensures { result ≡ area_fields sequence }
{
    let [s0, s1, s2, s3, s4, s5, s6, s7] = sequence.to_le_bytes();
    [
        0x50, 0x4c, 0x55, 0x47, 0x44, 0x4a, 0x52, 0x4e, 1, 0, 0, 0, s0, s1, s2, s3, s4, s5, s6, s7,
        0, 0, 0, 0, 0, 0, 0,
    ]
}

/// The checksum of the header of the area with this sequence, to which its first frame is chained.
pub(crate) fn area_checksum(sequence: u64) -> u32
    ensures { result ≡ area_checksum sequence }
{
    crc(0, &fields(sequence))
}

/// The header of the area with this sequence and this gate byte.
pub(crate) fn header(sequence: u64, gate: u8) -> [u8; HEADER_LEN]
    ensures { result ≡ area_header sequence gate }
{
    let [s0, s1, s2, s3, s4, s5, s6, s7] = sequence.to_le_bytes();
    let [c0, c1, c2, c3] = area_checksum(sequence).to_le_bytes();
    [
        0x50, 0x4c, 0x55, 0x47, 0x44, 0x4a, 0x52, 0x4e, 1, 0, 0, 0, s0, s1, s2, s3, s4, s5, s6, s7,
        0, 0, 0, 0, 0, 0, 0, gate, c0, c1, c2, c3,
    ]
}

/// The sequence of the area that begins with these bytes; None where they are no open header.
pub(crate) fn open_sequence(front: &[u8; HEADER_LEN]) -> Option<u64>
    ensures { result ≡ open_sequence front.now }
{
    let sequence = u64::from_le_bytes([
        front[12], front[13], front[14], front[15], front[16], front[17], front[18], front[19],
    ]);
    if *front == header(sequence, GATE_OPEN) {
        Some(sequence)
    } else {
        None
    }
}
