//! A frame that was made in an array.
ghost use Rattle.std.specs.Prelude.{◌≡◌, ◌≤◌, take};

/// How many bytes a short frame has at most.
pub(crate) const SHORT_LEN: usize = 39;

/// A frame of at most 39 bytes, in an array.
#[derive(Clone, Copy, Debug)]
pub struct ShortFrame {
    pub(crate) bytes: [u8; SHORT_LEN],
    pub(crate) len: usize,
    /// The frame's checksum, behind which the next one is chained.
    pub crc: u32,
    ghost fits: { len ≤ 39 },
}

impl ShortFrame {
    /// Its bytes.
    pub fn as_slice(&self) -> &[u8]
        ensures { result.now ≡ take self.now.len self.now.bytes }
    {
        &self.bytes[..self.len]
    }
}
