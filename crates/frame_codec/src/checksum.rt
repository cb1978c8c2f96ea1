//! The checksum that chains frames: a CRC-32 that goes on from an earlier one.
//!
//! By its definition (`register`) the register loses one bit a step. Here it loses a byte by one look-up, and eight by eight:
//! the step is linear, so what the register becomes is the exclusive or of what its bytes become, each from its table.
ghost use Rattle.std.specs.Prelude.{◌≡◌, ◌<◌, ◌+◌, bit_xor};
ghost use Rattle.frame_codec.specs.Crc.{crc_of};
ghost use Rattle.frame_codec.specs.Tables.{shifted_bytes};

use crate::tables::TABLES;

// What the register becomes that holds this byte alone, when the byte and so many zero bytes above it have left.
fn entry(above: usize, byte: usize) -> u32
    requires above { above < 8 }
    requires byte { byte < 256 }
    ensures value { result ≡ shifted_bytes (above + 1) byte }
{
    TABLES[above][byte]
}

// The register after one more byte.
fn after_byte(register: u32, byte: u8) -> u32
    ensures { result ≡ shifted_bytes 1 (bit_xor register byte) }
{
    let mixed = register ^ u32::from(byte);
    entry(0, (mixed & 0xff) as usize) ^ (mixed >> 8)
}

// The register after eight more bytes; `word` is what they are, the first lowest, exclusive or the register before.
fn after_word(word: u64) -> u32
    ensures { result ≡ shifted_bytes 8 word }
{
    entry(7, (word & 0xff) as usize)
        ^ entry(6, (word >> 8 & 0xff) as usize)
        ^ entry(5, (word >> 16 & 0xff) as usize)
        ^ entry(4, (word >> 24 & 0xff) as usize)
        ^ entry(3, (word >> 32 & 0xff) as usize)
        ^ entry(2, (word >> 40 & 0xff) as usize)
        ^ entry(1, (word >> 48 & 0xff) as usize)
        ^ entry(0, (word >> 56) as usize)
}

/// The checksum of bytes that follow bytes with the checksum `start`; 0 is that of no bytes.
pub fn crc(start: u32, bytes: &[u8]) -> u32
    ensures { result ≡ crc_of start bytes.now }
{
    let (words, rest) = bytes.as_chunks::<8>();
    let mut register = start ^ u32::MAX;
    'words: for word in words {
        register = after_word(u64::from_le_bytes(*word) ^ u64::from(register));
    }
    'rest: for byte in rest {
        register = after_byte(register, *byte);
    }
    register ^ u32::MAX
}
