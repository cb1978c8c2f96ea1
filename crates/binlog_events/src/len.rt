//! How many bytes lists of changes and transactions have, told without writing them.
ghost use Rattle.std.specs.Prelude.{◌≡◌, ◌≤◌, ◌<◌, ◌+◌, ◌*◌, ◌^◌, ℕ, length, sum_by, IfSome, None};
ghost use Rattle.std.specs.Option.{option_copied};
ghost use Rattle.frame_codec.specs.Frame.{size_of};
ghost use Rattle.row_format.specs.Changes.{IsMap, IsFitChange, AreFitChanges};
ghost use Rattle.row_format.specs.Spelling.{map_spelling};
ghost use Rattle.binlog_events.specs.Changes.{change_event, map_told, map_events, change_events};
ghost use Rattle.binlog_events.specs.Transaction.{events_of};
ghost use Rattle.binlog_events.specs.Items.{AreListed, list_spelling};

use crate::items::count_items;
use crate::spell::{map_needed, own_map};
use row_format::{Change, Changes, TableMap, image_len, schema_len};

/// How many bytes the body of a table map's event has.
pub(crate) fn map_len(map: &TableMap) -> u64
    requires { IsMap map.now }
    ensures value { result ≡ length (map_spelling map.now) }
    ensures small { result ≤ 1177 }
{
    1 + map.table.as_bytes().len() as u64 + schema_len(&map.schema)
}

// How many bytes the event of a table map has, where there is one.
fn map_size(map: Option<&TableMap>) -> u64
    requires { IfSome map (λ m. IsMap m.now) }
    ensures value { result ≡ sum_by size_of (map_told (option_copied map.entry)) }
    ensures small { result ≤ 1200 }
{
    match map {
        None => 0,
        Some(map) => 23 + map_len(map),
    }
}

/// How many bytes the body of a change's event has.
#[tactic(auto, using(crate::proofs::LenLemmas::update_len, crate::proofs::LenLemmas::delete_len))]
pub(crate) fn body_len(change: &Change) -> u64
    requires { IsFitChange change.now }
    ensures value { result ≡ length (change_event change.now).body }
    ensures small { result ≤ 4077 }
{
    match change {
        Change::Install { name } => 2 + name.as_bytes().len() as u64,
        Change::Uninstall { name } => 2 + name.as_bytes().len() as u64,
        Change::Drop { table } => 2 + table.as_bytes().len() as u64,
        Change::Create {
            table,
            engine,
            schema,
        } => {
            3 + table.as_bytes().len() as u64 + engine.as_bytes().len() as u64 + schema_len(schema)
        }
        Change::Insert { map, row } => image_len(&map.schema, row) as u64,
        Change::Update {
            map,
            before,
            after,
            ..
        } => 4 + image_len(&map.schema, before) as u64 + image_len(&map.schema, after) as u64,
        Change::Delete { map, before, .. } => 4 + image_len(&map.schema, before) as u64,
    }
}

// How many bytes the events of a change have, behind a change with this table map or with none.
fn change_size(before: Option<&TableMap>, change: &Change) -> u64
    requires { IsFitChange change.now }
    ensures value { result ≡ sum_by size_of (map_events (option_copied before.entry) change.now)
        + size_of (change_event change.now) }
    ensures small { result ≤ 5300 }
{
    map_size(map_needed(before, change)) + 23 + body_len(change)
}

// How many bytes the events of changes have.
fn changes_size(changes: &[Change]) -> u64
    requires fit { AreFitChanges changes.now }
    requires few { length changes.now < 2 ^ 32 }
    ensures value { result ≡ sum_by size_of (change_events None changes.now) }
    ensures small { result ≤ 5300 * 2 ^ 32 }
{
    let mut sum = 0;
    let mut before = None;
    let mut i = 0;
    while i < changes.len() {
        let change = &changes[i];
        sum += change_size(before, change);
        before = own_map(change);
        i += 1;
    }
    sum
}

/// How many bytes the frames of a transaction of these changes have, whatever its xid. No memory is taken.
pub fn transaction_len(changes: &Changes) -> u64
    requires fit { AreFitChanges changes.now }
    requires few { length changes.now < 2 ^ 31 }
    ensures value { (xid : ℕ) → result
        ≡ sum_by size_of (events_of (record { xid = xid; changes = changes.now })) }
{
    55 + changes_size(changes.as_slice())
}

/// How many bytes the list form of changes on tables has. No memory is taken.
pub fn items_len(changes: &Changes) -> u64
    requires { AreListed changes.now }
    ensures value { result ≡ length (list_spelling changes.now) }
    ensures small { result < 2 ^ 45 }
{
    // An item has its type and its body: 22 bytes less than its frame.
    let items = u64::from(count_items(changes.as_slice()));
    4 + changes_size(changes.as_slice()) - 22 * items
}
