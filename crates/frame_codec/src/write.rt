//! Writing the frame of an event: at the end of some bytes, or in an array.
ghost use Rattle.std.specs.Prelude.{◌≡◌, ◌<◌, ◌≤◌, ◌+◌, ◌++◌, length, take, drop, vec_len, vec_capacity, OnOk, OnErr, IfOk};
ghost use Rattle.frame_codec.specs.Bytes.{le32};
ghost use Rattle.frame_codec.specs.Crc.{crc_of};
ghost use Rattle.frame_codec.specs.Frame.{frame_of, checksum_of};
ghost use Rattle.frame_codec.specs.Header.{head_of};
ghost use Rattle.frame_codec.specs.Short.{short_bytes};

use crate::checksum::crc;
use crate::header::{CHECKSUM_LEN, HEADER_LEN, header};
use crate::short::{SHORT_LEN, ShortFrame};
use std::alloc::AllocError;

/// Begins the frame of an event of the type `kind` with a body of `body_len` bytes, for the file position `at`: appends the 19 bytes
/// before the body, and makes room for the body and the checksum. Where there is no memory, `out` holds what it held.
pub fn open_frame(at: u32, kind: u8, body_len: usize, out: &mut Vec<u8>) -> Result<(), AllocError>
    requires { at + 23 + body_len ≤ 2147483647 }
    ensures ok { OnOk result (out.new.items ≡ out.old.items ++ head_of at kind body_len) }
    ensures room { OnOk result (vec_len out.new + body_len + 4 ≤ vec_capacity out.new) }
    ensures err { OnErr result (out.new.items ≡ out.old.items) }
{
    let size = HEADER_LEN + body_len + CHECKSUM_LEN;
    out.reserve(size)?;
    out.extend_from_slice(&header(kind, size as u32, at + size as u32))
}

/// Ends the frame that begins at `start` in `out` and has its whole body there, behind a frame with the checksum `prev`: appends its
/// checksum, and answers it. Where there is no memory, `out` holds what it held.
pub fn close_frame(prev: u32, start: usize, out: &mut Vec<u8>) -> Result<u32, AllocError>
    requires { start ≤ length out.old.items }
    ensures ok { OnOk result (out.new.items
        ≡ out.old.items ++ le32 (crc_of prev (drop start out.old.items))) }
    ensures value { IfOk result (λ sum. sum ≡ crc_of prev (drop start out.old.items)) }
    ensures err { OnErr result (out.new.items ≡ out.old.items) }
    ensures full { OnErr result (vec_capacity out.old < vec_len out.old + 4) }
{
    let sum = crc(prev, &out[start..]);
    out.extend_from_slice(&sum.to_le_bytes())?;
    Ok(sum)
}

/// Appends the frame of an event of the type `kind` to `out`, for the file position `at` behind a frame with the checksum `prev`,
/// and answers its checksum. Where there is no memory, `out` holds what it held.
pub fn put_frame(
    prev: u32,
    at: u32,
    kind: u8,
    body: &[u8],
    out: &mut Vec<u8>,
) -> Result<u32, AllocError>
    requires { at + 23 + length body.now ≤ 2147483647 }
    ensures ok { OnOk result (out.new.items
        ≡ out.old.items ++ frame_of prev at (record { kind = kind; body = body.now })) }
    ensures value { IfOk result (λ sum. sum
        ≡ checksum_of prev at (record { kind = kind; body = body.now })) }
    ensures err { OnErr result (out.new.items ≡ out.old.items) }
{
    let start = out.len();
    open_frame(at, kind, body.len(), out)?;
    out.extend_from_slice(body)?;
    close_frame(prev, start, out)
}

// Puts a piece at a place of the array.
fn put_at(bytes: &mut [u8; SHORT_LEN], at: usize, piece: &[u8])
    requires { at + length piece.now ≤ 39 }
    ensures { take (at + length piece.now) bytes.new ≡ take at bytes.old ++ piece.now }
{
    bytes[at..at + piece.len()].copy_from_slice(piece);
}

/// The frame of an event of the type `kind` with a body of at most 16 bytes, for the file position `at` behind a frame with the
/// checksum `prev`. No memory is taken.
pub fn short_frame(prev: u32, at: u32, kind: u8, body: &[u8]) -> ShortFrame
    requires short { length body.now ≤ 16 }
    requires room { at + 23 + length body.now ≤ 2147483647 }
    ensures bytes { short_bytes result
        ≡ frame_of prev at (record { kind = kind; body = body.now }) }
    ensures crc { result.crc ≡ checksum_of prev at (record { kind = kind; body = body.now }) }
{
    let body_end = HEADER_LEN + body.len();
    let len = body_end + CHECKSUM_LEN;
    let mut bytes = [0; SHORT_LEN];
    put_at(&mut bytes, 0, &header(kind, len as u32, at + len as u32));
    put_at(&mut bytes, HEADER_LEN, body);
    let crc = crc(prev, &bytes[..body_end]);
    put_at(&mut bytes, body_end, &crc.to_le_bytes());
    ShortFrame { bytes, len, crc }
}
