//! Where the row at a place of a table without a key stood before changes.
ghost use Rattle.std.specs.Prelude.{◌≡◌, ◌≤◌, ◌<◌, ◌+◌, ◌-◌, ◌^◌, ℕ, List, Option, true, length, min, IfOk, IfErr};
ghost use Rattle.std.specs.Option.{option_copied};
ghost use Rattle.log_tables.specs.declared.table.Table.{Table};
ghost use Rattle.log_tables.specs.Tables.{table_named};
ghost use Rattle.log_tables.specs.Changes.{after_changes, names_table};
ghost use Rattle.live_tables.specs.Folds.{found_after, row_in, CameTo, AllCameTo, StoodAt};

use row_format::{Change, Name, Row};

/// A place in a table of so many rows.
#[derive(Clone, Copy)]
pub(crate) struct Spot {
    pub(crate) place: usize,
    pub(crate) count: u64,
}

// Where the row stood before a Delete.
fn before_delete(at: Spot, place: u32) -> Spot
    requires { at.place + 1 < 2 ^ 64 }
    ensures below { at.place < place → result.place ≡ at.place }
    ensures above { place ≤ at.place → result.place ≡ at.place + 1 }
    ensures count { result.count ≡ min (at.count + 1) (2 ^ 64 - 1) }
    ensures within { result.place ≤ at.place + 1 }
{
    let count = at.count.saturating_add(1);
    if at.place < place as usize {
        Spot {
            place: at.place,
            count,
        }
    } else {
        Spot {
            place: at.place + 1,
            count,
        }
    }
}

/// Whether a change is one of the table with this name, or of its rows.
pub(crate) fn is_of(change: &Change, name: &Name) -> bool
    ensures { result ≡ names_table name.now change.now }
{
    match change {
        Change::Create { table, .. } => table.is_same(name),
        Change::Drop { table } => table.is_same(name),
        Change::Insert { map, .. } => map.table.is_same(name),
        Change::Update { map, .. } => map.table.is_same(name),
        Change::Delete { map, .. } => map.table.is_same(name),
        Change::Install { .. } | Change::Uninstall { .. } => false,
    }
}

// What a change of its table made of the row at a place: Ok with the row that it put there, or with none, else where the row stood before.
fn step_within<'a>(change: &'a Change, at: Spot) -> Result<Option<&'a Row>, Spot>
    requires { at.place + 1 < 2 ^ 64 }
    ensures told { (name : List ℕ) (found : Option Table) → names_table name change.now ≡ true
        → CameTo name change.now found at.count
        → IfOk result (λ r. row_in at.place (found_after name change.now found)
        ≡ option_copied r) }
    ensures stood { (name : List ℕ) (found : Option Table) → names_table name change.now ≡ true
        → CameTo name change.now found at.count
        → IfErr result (λ s. StoodAt found
        (row_in at.place (found_after name change.now found)) s.place s.count) }
    ensures within { IfErr result (λ s. s.place ≤ at.place + 1) }
{
    match change {
        Change::Create { .. } => Ok(None),
        Change::Drop { .. } => Ok(None),
        Change::Insert { row, .. } => {
            if at.place as u64 + 1 == at.count {
                Ok(Some(row))
            } else {
                Err(Spot {
                    place: at.place,
                    count: at.count.saturating_sub(1),
                })
            }
        }
        Change::Update { place, after, .. } => {
            if at.place == *place as usize {
                Ok(Some(after))
            } else {
                Err(at)
            }
        }
        Change::Delete { place, .. } => Err(before_delete(at, *place)),
        Change::Install { .. } | Change::Uninstall { .. } => Err(at),
    }
}

// What a change made of the row at a place under a name: Ok with the row that it put there, or with none, else where the row stood before.
fn step_back<'a>(change: &'a Change, name: &Name, at: Spot) -> Result<Option<&'a Row>, Spot>
    requires { at.place + 1 < 2 ^ 64 }
    ensures told { (found : Option Table) → CameTo name.now change.now found at.count
        → IfOk result (λ r. row_in at.place (found_after name.now change.now found)
        ≡ option_copied r) }
    ensures stood { (found : Option Table) → CameTo name.now change.now found at.count
        → IfErr result (λ s. StoodAt found
        (row_in at.place (found_after name.now change.now found)) s.place s.count) }
    ensures within { IfErr result (λ s. s.place ≤ at.place + 1) }
{
    if is_of(change, name) {
        step_within(change, at)
    } else {
        Err(at)
    }
}

/// What changes made of the row at a place under a name: Ok with the row that they put there, or with none, else where it stood before.
pub(crate) fn walk_back<'a>(
    changes: &'a [Change],
    name: &Name,
    at: Spot,
) -> Result<Option<&'a Row>, Spot>
    requires { at.place + length changes.now + 1 < 2 ^ 64 }
    ensures told { (tables : List Table) → AllCameTo name.now changes.now tables at.count
        → IfOk result (λ r. row_in at.place
        (table_named name.now (after_changes changes.now tables)) ≡ option_copied r) }
    ensures stood { (tables : List Table) → AllCameTo name.now changes.now tables at.count
        → IfErr result (λ s. StoodAt (table_named name.now tables) (row_in at.place
        (table_named name.now (after_changes changes.now tables))) s.place s.count) }
    ensures within { IfErr result (λ s. s.place ≤ at.place + length changes.now) }
{
    let mut spot = at;
    let mut i = changes.len();
    while i > 0 {
        i -= 1;
        match step_back(&changes[i], name, spot) {
            Ok(found) => return Ok(found),
            Err(before) => spot = before,
        }
    }
    Err(spot)
}
