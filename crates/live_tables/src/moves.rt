//! Where a row change takes a row out, and where it puts one in; and where a row stood before.
ghost use Rattle.std.specs.Prelude.{◌≡◌, ◌≤◌, ◌<◌, ◌+◌, ◌^◌, List, slice_get, IfOk, IfErr};
ghost use Rattle.std.specs.Option.{option_copied};
ghost use Rattle.sql_value.specs.declared.value.Value.{Value};
ghost use Rattle.live_tables.specs.Places.{new_row, without_at, edited, AreWithin};

use row_format::{Change, Row};

/// Where a change takes a row out, if it takes one, and where it puts one in then, if it puts one.
#[derive(Clone, Copy)]
pub(crate) struct Moves {
    pub(crate) from: Option<usize>,
    pub(crate) to: Option<usize>,
}

/// The row that a change puts in.
pub(crate) fn new_row(change: &Change) -> Option<&Row>
    ensures { option_copied result ≡ new_row change.now }
{
    match change {
        Change::Insert { row, .. } => Some(row),
        Change::Update { after, .. } => Some(after),
        _ => None,
    }
}

// Where the row at a place stood before one was taken out.
fn before_out(from: Option<usize>, place: usize) -> usize
    requires { place + 1 < 2 ^ 64 }
    ensures out { (rows : List (List Value)) → slice_get (without_at from rows) place
        ≡ slice_get rows result }
    ensures within { result ≤ place + 1 }
{
    match from {
        Some(i) => { if place < i { place } else { place + 1 } }
        None => place,
    }
}

/// Which row moves put at a place: Ok with it, else where the row there stood before.
pub(crate) fn stood<'a>(
    moves: Moves,
    row: Option<&'a Row>,
    place: usize,
) -> Result<Option<&'a Row>, usize>
    requires { place + 1 < 2 ^ 64 }
    ensures told { (rows : List (List Value)) → AreWithin moves (option_copied row.entry) rows
        → IfOk result (λ r. slice_get (edited moves (option_copied row.entry) rows) place
        ≡ option_copied r) }
    ensures stood { (rows : List (List Value)) → AreWithin moves (option_copied row.entry) rows
        → IfErr result (λ p. slice_get (edited moves (option_copied row.entry) rows) place
        ≡ slice_get rows p) }
    ensures within { IfErr result (λ p. p ≤ place + 1) }
{
    let Some(to) = moves.to else {
        return Err(before_out(moves.from, place));
    };
    if place == to {
        return Ok(row);
    }
    let between = if place < to { place } else { place - 1 };
    Err(before_out(moves.from, between))
}
