//! The directory of a page: how many slots there are, and of each the place and the length of its record.
ghost use Rattle.std.specs.Prelude.{◌≡◌, ◌≤◌, ◌<◌, ◌+◌, ◌*◌, length, sum_by};
ghost use Rattle.page_format.specs.Pages.{lowest_empty};
ghost use Rattle.page_format.specs.Format.{two_at, place_of, length_of, row_at};
ghost use Rattle.page_format.specs.Kept.{count_in, slots_of, IsLaid};
ghost use Rattle.page_format.specs.Writes.{StandAbove};

use crate::numbers::{PAGE_LEN, two_at};

/// How many bytes stand before the directory.
pub(crate) const HEADER_LEN: usize = 8;

/// How many bytes the entry of a slot has.
pub(crate) const ENTRY_LEN: usize = 4;

/// Where the number of slots stands.
pub(crate) const COUNT_AT: usize = 4;

/// How many slots there are.
pub(crate) fn count(bytes: &[u8; PAGE_LEN]) -> usize
    ensures value { result ≡ count_in bytes.now }
    ensures small { result < 65536 }
{
    usize::from(two_at(bytes, COUNT_AT))
}

/// Where the record of a slot begins, by its entry.
#[tactic(auto, unfolding(crate::specs::Format::place_of))]
pub(crate) fn place_of(bytes: &[u8; PAGE_LEN], slot: usize) -> usize
    requires { 12 + 4 * slot ≤ 4096 }
    ensures value { result ≡ place_of bytes.now slot }
    ensures small { result < 65536 }
{
    usize::from(two_at(bytes, HEADER_LEN + ENTRY_LEN * slot))
}

/// How many bytes the record of a slot has, by its entry.
#[tactic(auto, unfolding(crate::specs::Format::length_of))]
pub(crate) fn length_of(bytes: &[u8; PAGE_LEN], slot: usize) -> usize
    requires { 12 + 4 * slot ≤ 4096 }
    ensures value { result ≡ length_of bytes.now slot }
    ensures small { result < 65536 }
{
    usize::from(two_at(bytes, HEADER_LEN + ENTRY_LEN * slot + 2))
}

/// The record of a slot; no bytes where it is empty.
pub(crate) fn row_at(bytes: &[u8; PAGE_LEN], slot: usize) -> &[u8]
    requires laid { IsLaid bytes.now }
    requires there { slot < count_in bytes.now }
    ensures value { result.now ≡ row_at bytes.now slot }
    ensures size { length result.now ≡ length_of bytes.now slot }
{
    let len = length_of(bytes, slot);
    if len == 0 {
        return &[];
    }
    let place = place_of(bytes, slot);
    &bytes[place..place + len]
}

/// The lowest empty slot; where none is empty, the number of slots.
pub(crate) fn first_empty(bytes: &[u8; PAGE_LEN]) -> usize
    requires { IsLaid bytes.now }
    ensures value { result ≡ lowest_empty (slots_of bytes.now) }
    ensures within { result ≤ count_in bytes.now }
{
    let slots = count(bytes);
    for slot in 0..slots {
        if length_of(bytes, slot) == 0 {
            return slot;
        }
    }
    slots
}

/// How many bytes all records have together.
pub(crate) fn rows_len(bytes: &[u8; PAGE_LEN]) -> usize
    requires { IsLaid bytes.now }
    ensures value { result ≡ sum_by length (slots_of bytes.now) }
    ensures small { result ≤ 65536 * 1022 }
{
    let mut sum = 0;
    for slot in 0..count(bytes) {
        sum += length_of(bytes, slot);
    }
    sum
}

/// Where the lowest record begins; the end of the page where there is none.
pub(crate) fn lowest(bytes: &[u8; PAGE_LEN]) -> usize
    requires { IsLaid bytes.now }
    ensures within { result ≤ 4096 }
    ensures above { StandAbove result bytes.now }
{
    let mut low = PAGE_LEN;
    for slot in 0..count(bytes) {
        if length_of(bytes, slot) != 0 {
            low = low.min(place_of(bytes, slot));
        }
    }
    low
}
