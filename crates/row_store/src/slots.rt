//! Slots: each has a row, or is free. The free ones are told by a list, so a row goes into one without a search (`AreFree`).
ghost use Rattle.std.specs.Prelude.{◌≡◌, ◌≤◌, ◌<◌, ◌+◌, IsTrue, is_some};
ghost use Rattle.std.specs.Option.{option_copied};
ghost use Rattle.std.specs.Vec.{vec_len, vec_capacity};
ghost use Rattle.row_store.specs.Slots.{at, AreFree, Fills, Frees, Swaps};

use row_format::Row;

/// The row in a slot.
pub(crate) fn row_in(slots: &[Option<Row>], slot: u32) -> Option<&Row>
    ensures { option_copied result ≡ at slots.now slot }
{
    match slots.get(slot as usize) {
        Some(Some(row)) => Some(row),
        _ => None,
    }
}

/// Puts a row into a free slot, or into a new one where none is free, and tells which. No memory is taken.
pub(crate) fn fill(slots: &mut Vec<Option<Row>>, free: &mut Vec<u32>, row: Row) -> u32
    requires free { AreFree slots.old.items free.old.items }
    requires room { vec_len slots.old < vec_capacity slots.old + vec_len free.old }
    requires few { vec_len slots.old < 4294967295 + vec_len free.old }
    ensures fills { Fills slots.old.items free.old.items row result slots.new.items free.new.items }
    ensures slots_room { vec_capacity slots.old ≤ vec_capacity slots.new }
    ensures free_room { vec_capacity free.old ≤ vec_capacity free.new }
{
    match free.pop() {
        Some(slot) => {
            slots[slot as usize] = Some(row);
            slot
        }
        None => {
            let slot = slots.len() as u32;
            let _ = slots.push(Some(row));
            slot
        }
    }
}

/// Takes the row out of a slot, which is then free. No memory is taken.
pub(crate) fn take(slots: &mut Vec<Option<Row>>, free: &mut Vec<u32>, slot: u32) -> Row
    requires taken { IsTrue (is_some (at slots.old.items slot)) }
    requires free { AreFree slots.old.items free.old.items }
    requires room { vec_len free.old < vec_capacity free.old }
    ensures frees { Frees slots.old.items free.old.items slot result
        slots.new.items free.new.items }
    ensures slots_room { vec_capacity slots.old ≤ vec_capacity slots.new }
    ensures free_room { vec_capacity free.old ≤ vec_capacity free.new }
{
    let row = match slots[slot as usize].take() {
        Some(row) => row,
        None => unreachable!(),
    };
    let _ = free.push(slot);
    row
}

/// Puts another row into a slot that has one, and gives the one that it had. No memory is taken.
pub(crate) fn swap(slots: &mut Vec<Option<Row>>, slot: u32, row: Row) -> Row
    requires taken { IsTrue (is_some (at slots.old.items slot)) }
    ensures swaps { Swaps slots.old.items slot row result slots.new.items }
    ensures slots_room { vec_capacity slots.old ≤ vec_capacity slots.new }
{
    match slots[slot as usize].replace(row) {
        Some(before) => before,
        None => unreachable!(),
    }
}
