//! How many bytes changes take from the tables: those that are pending, and one behind them.
//!
//! A Drop takes the bytes that its table has at that moment. They are counted from the committed table on, through the changes before the
//! Drop.
ghost use Rattle.std.specs.Prelude.{◌≡◌, ◌≤◌, ◌<◌, ◌+◌, ◌^◌, ◌++◌, ◌∷◌, [], sum_by, nat_le};
ghost use Rattle.log_tables.specs.Tables.{table_named};
ghost use Rattle.log_tables.specs.Changes.{after_changes};
ghost use Rattle.engine_api.specs.States.{changes_in};
ghost use Rattle.engine_api.specs.Live.{live_bytes, live_limit};
ghost use Rattle.live_tables.specs.Bytes.{capped};
ghost use Rattle.live_tables.specs.Folds.{through, bytes_found, change_bytes, freed};
ghost use Rattle.live_tables.specs.Gone.{gone, bytes_step};
ghost use Rattle.live_tables.specs.Live.{CanMake, CanAdd};

use crate::back::is_of;
use crate::bytes::{change_len, row_len};
use crate::pending::Open;
use crate::stored::Stored;
use crate::tables;
use crate::write::LIVE_LIMIT;
use row_format::{Change, Name};

// How many bytes stand under a name after a change.
fn bytes_step(change: &Change, name: &Name, count: u64) -> u64
    requires { count + change_bytes change.now < 2 ^ 64 }
    ensures value { result ≡ bytes_step name.now change.now count }
    ensures within { result ≤ count + change_bytes change.now }
{
    if !is_of(change, name) {
        return count;
    }
    match change {
        Change::Drop { .. } => 0,
        Change::Update { before, after, .. } => {
            (count + row_len(after)).saturating_sub(row_len(before))
        }
        Change::Delete { before, .. } => count.saturating_sub(row_len(before)),
        _ => count + change_len(change),
    }
}

// How many bytes stand under a name after changes, where there were so many before.
fn bytes_through(changes: &[Change], name: &Name, count: u64) -> u64
    requires { count + sum_by change_bytes changes.now < 2 ^ 64 }
    ensures value { result ≡ through (bytes_step name.now) changes.now count }
    ensures within { result ≤ count + sum_by change_bytes changes.now }
{
    let mut bytes = count;
    let mut i = 0;
    while i < changes.len() {
        bytes = bytes_step(&changes[i], name, bytes);
        i += 1;
    }
    bytes
}

// How many bytes stand under a name after what is pending, where there were so many before.
fn bytes_by(pending: &[Open], name: &Name, count: u64) -> u64
    requires { count + sum_by change_bytes (changes_in pending.now) < 2 ^ 64 }
    ensures value { result ≡ through (bytes_step name.now) (changes_in pending.now) count }
    ensures within { result ≤ count + sum_by change_bytes (changes_in pending.now) }
{
    let mut bytes = count;
    let mut i = 0;
    while i < pending.len() {
        bytes = bytes_through(pending[i].changes(), name, bytes);
        i += 1;
    }
    bytes
}

// How many bytes the table of a name has behind what is pending, and then these changes.
fn bytes_behind(tables: &[Stored], pending: &[Open], own: &[Change], name: &Name) -> u64
    requires { CanMake tables.now (changes_in pending.now ++ own.now) (live_bytes tables.now) }
    ensures { result ≡ bytes_found (table_named name.now
        (after_changes (changes_in pending.now ++ own.now) tables.now)) }
{
    let stored = tables::bytes(tables, name);
    let before = bytes_by(pending, name, stored);
    bytes_through(own, name, before)
}

// How many bytes a change takes behind what is pending, and then these changes.
fn freed_behind(tables: &[Stored], pending: &[Open], own: &[Change], change: &Change) -> u64
    requires { CanMake tables.now (changes_in pending.now ++ own.now) (live_bytes tables.now) }
    ensures { result ≡ capped (freed change.now
        (after_changes (changes_in pending.now ++ own.now) tables.now)) }
{
    match change {
        Change::Drop { table } => bytes_behind(tables, pending, own, table),
        Change::Update { before, .. } => row_len(before),
        Change::Delete { before, .. } => row_len(before),
        _ => 0,
    }
}

// How many bytes changes take behind what is pending.
fn gone_through(tables: &[Stored], pending: &[Open], changes: &[Change]) -> u64
    requires { CanMake tables.now (changes_in pending.now ++ changes.now) (live_bytes tables.now) }
    ensures { result ≡ capped
        (gone changes.now (after_changes (changes_in pending.now) tables.now)) }
{
    let mut sum = 0u64;
    let mut i = 0;
    while i < changes.len() {
        let freed = freed_behind(tables, pending, &changes[..i], &changes[i]);
        sum = sum.saturating_add(freed);
        i += 1;
    }
    sum
}

// How many bytes what is pending takes.
fn gone_len(tables: &[Stored], pending: &[Open]) -> u64
    requires { CanMake tables.now (changes_in pending.now) (live_bytes tables.now) }
    ensures { result ≡ capped (gone (changes_in pending.now) tables.now) }
{
    let mut sum = 0u64;
    let mut i = 0;
    while i < pending.len() {
        let gone = gone_through(tables, &pending[..i], pending[i].changes());
        sum = sum.saturating_add(gone);
        i += 1;
    }
    sum
}

// How many bytes the tables have behind what is pending, and then a change; `counted` are theirs, and those that all these add.
fn next_len(tables: &[Stored], pending: &[Open], change: &Change, counted: u64) -> u64
    requires { CanAdd tables.now pending.now change.now counted }
    ensures { result ≡ live_bytes
        (after_changes (changes_in pending.now ++ change.now ∷ []) tables.now) }
{
    counted - gone_len(tables, pending) - freed_behind(tables, pending, &[], change)
}

/// Whether the tables are within the limit of live bytes behind what is pending, and then a change. Nothing is walked over where `counted`
/// is, the bytes of the tables and those that all these add.
pub(crate) fn is_within(tables: &[Stored], pending: &[Open], change: &Change, counted: u64) -> bool
    requires { CanAdd tables.now pending.now change.now counted }
    ensures { result ≡ nat_le (live_bytes
        (after_changes (changes_in pending.now ++ change.now ∷ []) tables.now)) live_limit }
{
    counted <= LIVE_LIMIT || next_len(tables, pending, change, counted) <= LIVE_LIMIT
}
