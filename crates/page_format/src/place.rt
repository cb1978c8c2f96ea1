//! Where a record goes in a page: below all others, which are moved together where there is no room below them.
ghost use Rattle.std.specs.Prelude.{◌≡◌, ◌≤◌, ◌<◌, ◌+◌, ◌*◌, max, length, sum_by};
ghost use Rattle.page_format.specs.Pages.{with_row, without_row};
ghost use Rattle.page_format.specs.Kept.{count_in, slots_of, IsLaid};
ghost use Rattle.page_format.specs.Writes.{PutsEntry, PutsRow, Becomes, StandAbove};

use crate::directory::{COUNT_AT, ENTRY_LEN, HEADER_LEN, count, lowest, row_at};
use crate::numbers::{PAGE_LEN, put_two};

// Writes the entry of a slot.
#[tactic(auto, unfolding(crate::specs::Format::place_of, crate::specs::Format::length_of))]
fn put_entry(bytes: &mut [u8; PAGE_LEN], slot: usize, place: u16, len: u16)
    requires { 12 + 4 * slot ≤ 4096 }
    ensures { PutsEntry slot place len bytes.old bytes.new }
{
    put_two(bytes, HEADER_LEN + ENTRY_LEN * slot, place);
    put_two(bytes, HEADER_LEN + ENTRY_LEN * slot + 2, len);
}

// Puts a record at a place behind the entry of its slot, and tells of it there.
fn put_row(bytes: &mut [u8; PAGE_LEN], slot: usize, place: usize, row: &[u8])
    requires behind { 12 + 4 * slot ≤ place }
    requires within { place + length row.now ≤ 4096 }
    ensures put { PutsRow slot place row.now bytes.old bytes.new }
{
    bytes[place..place + row.len()].copy_from_slice(row);
    put_entry(bytes, slot, place as u16, row.len() as u16);
}

// Moves all records to the end of the page, and answers where the lowest one begins then. They are copied from the page as it was, one
// below the other, so that none is written over before it is read.
fn pack(bytes: &mut [u8; PAGE_LEN]) -> usize
    requires laid { IsLaid bytes.old }
    requires room { 8 + 4 * count_in bytes.old + sum_by length (slots_of bytes.old) ≤ 4096 }
    ensures end { result + sum_by length (slots_of bytes.old) ≡ 4096 }
    ensures above { StandAbove result bytes.new }
    ensures slots { Becomes (slots_of bytes.old) bytes.old bytes.new }
{
    let old = *bytes;
    let mut low = PAGE_LEN;
    for slot in 0..count(&old) {
        let row = row_at(&old, slot);
        low -= row.len();
        put_row(bytes, slot, low, row);
    }
    low
}

/// A place with no record below it, at or above `end`. The records are moved together only where there is none as they stand.
pub(crate) fn place_above(bytes: &mut [u8; PAGE_LEN], end: usize) -> usize
    requires laid { IsLaid bytes.old }
    requires directory { 8 + 4 * count_in bytes.old ≤ end }
    requires room { end + sum_by length (slots_of bytes.old) ≤ 4096 }
    ensures least { end ≤ result }
    ensures most { result ≤ 4096 }
    ensures above { StandAbove result bytes.new }
    ensures slots { Becomes (slots_of bytes.old) bytes.old bytes.new }
{
    let low = lowest(bytes);
    if end <= low { low } else { pack(bytes) }
}

/// Puts a record at a place below all others, and tells of it in the entry of a slot: one that is there, or the next.
pub(crate) fn add_row(bytes: &mut [u8; PAGE_LEN], slot: usize, place: usize, row: &[u8])
    requires laid { IsLaid bytes.old }
    requires next { slot ≤ count_in bytes.old }
    requires directory { 8 + 4 * max (count_in bytes.old) (slot + 1) ≤ place }
    requires page { place + length row.now ≤ 4096 }
    requires above { StandAbove (place + length row.now) bytes.old }
    ensures slots { Becomes (with_row slot row.now (slots_of bytes.old)) bytes.old bytes.new }
{
    let slots = count(bytes).max(slot + 1);
    put_row(bytes, slot, place, row);
    put_two(bytes, COUNT_AT, slots as u16);
}

/// Empties a slot. The bytes of its record stay where they are, and are of no record.
pub(crate) fn clear(bytes: &mut [u8; PAGE_LEN], slot: usize)
    requires laid { IsLaid bytes.old }
    requires there { slot < count_in bytes.old }
    ensures slots { Becomes (without_row slot (slots_of bytes.old)) bytes.old bytes.new }
{
    put_two(bytes, HEADER_LEN + ENTRY_LEN * slot + 2, 0);
}
