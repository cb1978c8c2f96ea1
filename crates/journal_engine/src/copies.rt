//! Changes once more, for a record of them.
ghost use Rattle.std.specs.Prelude.{◌≡◌, IfOk};

use row_format::{Change, copy_row};
use std::alloc::{AllocError, Global};

fn copy_change(alloc: Global, change: &Change) -> Result<Change, AllocError>
    ensures { IfOk result (λ c. c ≡ change.now) }
{
    match change {
        Change::Install { name } => Ok(Change::Install { name: name.copy()? }),
        Change::Uninstall { name } => Ok(Change::Uninstall { name: name.copy()? }),
        Change::Create {
            table,
            engine,
            schema,
        } => Ok(Change::Create {
            table: table.copy()?,
            engine: engine.copy()?,
            schema: schema.copy(alloc)?,
        }),
        Change::Drop { table } => Ok(Change::Drop {
            table: table.copy()?,
        }),
        Change::Insert { map, row } => Ok(Change::Insert {
            map: map.copy(alloc)?,
            row: copy_row(alloc, row)?,
        }),
        Change::Update {
            map,
            place,
            before,
            after,
        } => Ok(Change::Update {
            map: map.copy(alloc)?,
            place: *place,
            before: copy_row(alloc, before)?,
            after: copy_row(alloc, after)?,
        }),
        Change::Delete { map, place, before } => Ok(Change::Delete {
            map: map.copy(alloc)?,
            place: *place,
            before: copy_row(alloc, before)?,
        }),
    }
}

/// The same changes once more.
pub(crate) fn copy_changes(alloc: Global, changes: &[Change]) -> Result<Vec<Change>, AllocError>
    ensures { IfOk result (λ v. v.items ≡ changes.now) }
{
    let mut copy = Vec::with_capacity(alloc, changes.len())?;
    for change in changes {
        copy.push(copy_change(alloc, change)?)?;
    }
    Ok(copy)
}
