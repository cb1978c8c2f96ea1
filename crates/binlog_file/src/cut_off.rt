//! Telling a transaction that the end of a piece cuts off from one that is not there.
//!
//! A transaction ends with the first XID event, and the size of a frame stands in its head. So where whole frames stand, none of an XID,
//! and behind them the front of one more, each transaction there has at least the bytes of all of these.
ghost use Rattle.std.specs.Prelude.{◌≡◌, ◌≤◌, ◌<◌, ◌^◌, ◌++◌, ℕ, List, length, IfSome, IfNone};
ghost use Rattle.frame_codec.specs.Frame.{Event, size_of, IsFrameAt};
ghost use Rattle.binlog_events.specs.Found.{NoTransactionAt};
ghost use Rattle.binlog_file.specs.Opening.{Needs, NeverAt};

use frame_codec::frame_at;

/// The type of an XID event, which ends a transaction.
const XID: u8 = 16;

/// How many bytes a frame's checksum has.
const CHECKSUM_LEN: usize = 4;

/// How many bytes stand before a frame's body; they tell its size.
const HEAD_LEN: usize = 19;

/// How many bytes a frame has at least.
const LEAST: usize = 23;

/// No frame ends past this position.
const LIMIT: usize = 2_147_483_647;

// How many bytes a frame has that begins with these, as far as they tell.
fn least_size(bytes: &[u8]) -> usize
    ensures least { (prev at : ℕ) (event : Event) (beyond : List ℕ)
        → IsFrameAt prev at (bytes.now ++ beyond) event → result ≤ size_of event }
    ensures exact { result ≤ length bytes.now → (prev at : ℕ) (event : Event) (beyond : List ℕ)
        → IsFrameAt prev at (bytes.now ++ beyond) event → result ≡ size_of event }
    ensures small { result < 2 ^ 32 }
{
    match bytes.first_chunk::<HEAD_LEN>() {
        None => LEAST,
        Some(front) => u32::from_le_bytes([front[9], front[10], front[11], front[12]]) as usize,
    }
}

/// How many bytes the transaction has at least whose front these bytes are, where no whole one stands in them; None where they are the
/// front of none, whatever follows. They are those from the file position `at` on, behind a frame with the checksum `prev`.
pub(crate) fn needed(bytes: &[u8], at: u32, prev: u32) -> Option<usize>
    requires within { at ≤ 2147483647 }
    requires none { NoTransactionAt prev at bytes.now }
    ensures some { IfSome result (Needs prev at bytes.now) }
    ensures none { IfNone result (NeverAt prev at bytes.now) }
{
    let mut rest = bytes;
    let mut end = at;
    let mut crc = prev;
    while let Some(frame) = frame_at(rest, end, crc) {
        if frame.kind == XID {
            return None;
        }
        end = frame.end;
        crc = frame.crc;
        rest = &rest[frame.body_end + CHECKSUM_LEN..];
    }
    let size = least_size(rest);
    if size <= rest.len() || size > LIMIT - end as usize {
        return None;
    }
    Some(bytes.len() - rest.len() + size)
}
