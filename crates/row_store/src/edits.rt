//! The order of the slots, where the row in one gives way to another.
ghost use Rattle.std.specs.Prelude.{◌≡◌, ◌≤◌, ◌<◌, length};
ghost use Rattle.log_tables.specs.Keys.{IsOrdered};
ghost use Rattle.row_store.specs.Slots.{rows_in};
ghost use Rattle.row_store.specs.Turns.{Turns};

use crate::keys::place_beside;
use crate::order::Order;
use row_format::Row;

/// Puts the slot at a place where this row goes, if no other row has its key; it stays where that is its place, or there is no key. Tells
/// whether the key is free. No memory is taken.
pub(crate) fn turn(
    key: Option<u8>,
    slots: &[Option<Row>],
    order: &mut Order,
    i: usize,
    row: &Row,
) -> bool
    requires within { i < length order.old.items }
    requires few { length order.old.items ≤ 4294967295 }
    requires room { length order.old.items ≤ order.old.room }
    ensures turns { IsOrdered key (rows_in slots.now order.old.items)
        → Turns key slots.now i row.now order.old.items order.new.items result }
    ensures room { order.new.room ≡ order.old.room }
{
    let Some(j) = place_beside(key, slots, order, i, row) else {
        return false;
    };
    if j != i {
        let slot = order.remove(i);
        order.insert_reserved(j, slot);
    }
    true
}
