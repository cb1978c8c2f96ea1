//! How many rows under a name have keys below a value, brought through lists of changes.
ghost use Rattle.std.specs.Prelude.{◌≡◌, ◌≤◌, ◌<◌, ◌+◌, ◌^◌, length};
ghost use Rattle.engine_api.specs.States.{changes_in};
ghost use Rattle.live_tables.specs.Folds.{through};
ghost use Rattle.live_tables.specs.Places.{one_below, sum_step};

use crate::back::is_of;
use crate::pending::Open;
use crate::stored::is_below;
use row_format::{Change, Name, Row, Value};

/// One where the key of a row is below a value, else 0.
pub(crate) fn one_below(row: &Row, column: usize, key: &Value) -> u64
    ensures value { result ≡ one_below column key.now row.now }
    ensures within { result ≤ 1 }
{
    if is_below(row, column, key) { 1 } else { 0 }
}

// How many rows under a name have lower keys after a change, where so many had before.
fn below_step(change: &Change, name: &Name, column: usize, key: &Value, count: u64) -> u64
    requires { count + 1 < 2 ^ 64 }
    ensures value { result ≡ sum_step (one_below column key.now) name.now change.now count }
    ensures within { result ≤ count + 1 }
{
    if !is_of(change, name) {
        return count;
    }
    match change {
        Change::Drop { .. } => 0,
        Change::Insert { row, .. } => count + one_below(row, column, key),
        Change::Update { before, after, .. } => {
            (count + one_below(after, column, key)).saturating_sub(one_below(before, column, key))
        }
        Change::Delete { before, .. } => count.saturating_sub(one_below(before, column, key)),
        _ => count,
    }
}

/// How many rows under a name have lower keys after changes, where so many had before.
pub(crate) fn below_through(
    changes: &[Change],
    name: &Name,
    column: usize,
    key: &Value,
    count: u64,
) -> u64
    requires { count + length changes.now < 2 ^ 64 }
    ensures value { result
        ≡ through (sum_step (one_below column key.now) name.now) changes.now count }
    ensures within { result ≤ count + length changes.now }
{
    let mut low = count;
    let mut i = 0;
    while i < changes.len() {
        low = below_step(&changes[i], name, column, key, low);
        i += 1;
    }
    low
}

/// How many rows under a name have lower keys after what is pending, where so many had before.
pub(crate) fn below_by(pending: &[Open], name: &Name, column: usize, key: &Value, count: u64) -> u64
    requires { count + length (changes_in pending.now) < 2 ^ 64 }
    ensures value { result ≡ through (sum_step (one_below column key.now) name.now)
        (changes_in pending.now) count }
    ensures within { result ≤ count + length (changes_in pending.now) }
{
    let mut low = count;
    let mut i = 0;
    while i < pending.len() {
        low = below_through(pending[i].changes(), name, column, key, low);
        i += 1;
    }
    low
}
