//! Numbers in a page, their lowest byte first.
ghost use Rattle.std.specs.Prelude.{◌≡◌, ◌≤◌, ◌<◌, ◌+◌, ◌^◌};
ghost use Rattle.page_format.specs.Format.{two_at, four_at};
ghost use Rattle.page_format.specs.Writes.{PutsTwo, PutsFour};

/// How many bytes a page has.
pub(crate) const PAGE_LEN: usize = 4096;

/// The number of two bytes at a place.
#[tactic(auto, unfolding(crate::specs::Format::two_at))]
pub(crate) fn two_at(bytes: &[u8; PAGE_LEN], at: usize) -> u16
    requires { at + 2 ≤ 4096 }
    ensures { result ≡ two_at bytes.now at }
{
    u16::from_le_bytes([bytes[at], bytes[at + 1]])
}

/// The number of four bytes at a place.
#[tactic(auto, unfolding(crate::specs::Format::two_at, crate::specs::Format::four_at))]
pub(crate) fn four_at(bytes: &[u8; PAGE_LEN], at: usize) -> u32
    requires { at + 4 ≤ 4096 }
    ensures { result ≡ four_at bytes.now at }
{
    u32::from_le_bytes([bytes[at], bytes[at + 1], bytes[at + 2], bytes[at + 3]])
}

/// Writes a number of two bytes at a place.
#[tactic(auto, unfolding(crate::specs::Format::two_at))]
pub(crate) fn put_two(bytes: &mut [u8; PAGE_LEN], at: usize, value: u16)
    requires { at + 2 ≤ 4096 }
    ensures { PutsTwo at value bytes.old bytes.new }
{
    let [low, high] = value.to_le_bytes();
    bytes[at] = low;
    bytes[at + 1] = high;
}

/// Writes a number of four bytes at a place.
#[tactic(auto, unfolding(crate::specs::Format::two_at, crate::specs::Format::four_at))]
pub(crate) fn put_four(bytes: &mut [u8; PAGE_LEN], at: usize, value: u32)
    requires { at + 4 ≤ 4096 }
    ensures { PutsFour at value bytes.old bytes.new }
{
    let low = value % 0x1_0000;
    let high = value / 0x1_0000;
    put_two(bytes, at, low as u16);
    put_two(bytes, at + 2, high as u16);
}
