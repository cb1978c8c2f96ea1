//! Laws of the definitions, which callers may cite: functions that do nothing, each with a law for its contract.
ghost use Rattle.std.specs.Prelude.{◌≡◌, ℕ, List, ◌++◌, length};
ghost use Rattle.frame_codec.specs.Bytes.{le32};
ghost use Rattle.frame_codec.specs.Crc.{crc_of};
ghost use Rattle.frame_codec.specs.Frame.{Event, frame_of, IsFrameAt};
ghost use Rattle.frame_codec.specs.Header.{head_of};

/// A checksum goes on from that of the bytes before: both together have the checksum of the whole.
pub fn crc_goes_on()
    ensures { (start : ℕ) (front back : List ℕ)
        → crc_of (crc_of start front) back ≡ crc_of start (front ++ back) }
{}

/// Two events whose frames stand at one place behind one checksum are one.
pub fn one_event_at_a_place()
    ensures { (prev at : ℕ) (bytes : List ℕ) (one other : Event)
        → IsFrameAt prev at bytes one → IsFrameAt prev at bytes other → one ≡ other }
{}

/// What `open_frame` appends, the body, and what `close_frame` appends are the frame.
pub fn frame_in_parts()
    ensures { (prev at : ℕ) (event : Event) (front : List ℕ)
        → front ≡ head_of at event.kind (length event.body) ++ event.body
        → front ++ le32 (crc_of prev front) ≡ frame_of prev at event }
{}
