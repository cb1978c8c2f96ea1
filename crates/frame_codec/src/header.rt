//! The bytes of a frame before its body, and the sizes that writing and reading share.
ghost use Rattle.std.specs.Prelude.{◌≡◌};
ghost use Rattle.frame_codec.specs.Header.{header_of};

/// How many bytes stand before the body.
pub(crate) const HEADER_LEN: usize = 19;

/// How many bytes the checksum behind the body has.
pub(crate) const CHECKSUM_LEN: usize = 4;

/// No frame ends past this position.
pub(crate) const LIMIT: u32 = 2_147_483_647;

/// The bytes before the body, for the size of the whole frame and the position of its end.
pub(crate) fn header(kind: u8, size: u32, end: u32) -> [u8; HEADER_LEN]
    ensures { result ≡ header_of kind size end }
{
    let [s0, s1, s2, s3] = size.to_le_bytes();
    let [e0, e1, e2, e3] = end.to_le_bytes();
    [
        0, 0, 0, 0, kind, 1, 0, 0, 0, s0, s1, s2, s3, e0, e1, e2, e3, 0, 0,
    ]
}
