//! Reading the frame that stands at a position behind a checksum.
ghost use Rattle.std.specs.Prelude.{◌≡◌, IfSome, IfNone};
ghost use Rattle.frame_codec.specs.Frame.{Event, IsFrameAt};
ghost use Rattle.frame_codec.specs.Read.{Reads};

use crate::checksum::crc;
use crate::header::{CHECKSUM_LEN, HEADER_LEN, LIMIT, header};

/// A frame that stands at the front of some bytes.
#[derive(Clone, Copy, Debug, PartialEq, Eq)]
pub struct Frame {
    /// The event's type.
    pub kind: u8,
    /// Where the event's body begins in those bytes.
    pub body_start: usize,
    /// Where the body ends there.
    pub body_end: usize,
    /// The file position behind the frame.
    pub end: u32,
    /// The frame's checksum, behind which the next one is chained.
    pub crc: u32,
}

/// The frame that stands at the front of `bytes`, those from the file position `at` on, behind a frame with the checksum `prev`;
/// None where none stands there whole.
pub fn frame_at(bytes: &[u8], at: u32, prev: u32) -> Option<Frame>
    ensures some { IfSome result (Reads prev at bytes.now) }
    ensures none { IfNone result ((event : Event) → IsFrameAt prev at bytes.now event → ⊥) }
{
    let first = bytes.first_chunk::<HEADER_LEN>()?;
    let size = u32::from_le_bytes([first[9], first[10], first[11], first[12]]);
    let end = at.checked_add(size)?;
    if end > LIMIT || (size as usize) < HEADER_LEN + CHECKSUM_LEN || bytes.len() < size as usize {
        return None;
    }
    let kind = first[4];
    if !bytes.starts_with(&header(kind, size, end)) {
        return None;
    }
    let body_end = size as usize - CHECKSUM_LEN;
    let sum = crc(prev, &bytes[..body_end]);
    if !bytes[body_end..].starts_with(&sum.to_le_bytes()) {
        return None;
    }
    Some(Frame {
        kind,
        body_start: HEADER_LEN,
        body_end,
        end,
        crc: sum,
    })
}
