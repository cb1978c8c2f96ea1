//! Which rows a SELECT answers, row by row.
ghost use Rattle.std.specs.Prelude.{◌≡◌, ◌++◌, ◌∷◌, [], None, OnOk, IfOk, IfErr};
ghost use Rattle.sql_effect.specs.Select.{search_refusal, picked, selected};
ghost use Rattle.sql_exec.specs.Faults.{FailsFor};

use crate::columns::pick;
use crate::conditions::Chooser;
use crate::fault::ExecFault;
use row_format::Column;
use sql_text::{Cond, ListOf};
use sql_value::{Name, Refusal, Row, Truth};
use std::alloc::{AllocError, Global};

/// Adds what is picked of a row.
pub(crate) fn add_picked(
    alloc: Global,
    columns: &[Column],
    names: &Option<ListOf<Name>>,
    row: Row,
    found: &mut Vec<Row>,
) -> Result<(), AllocError>
    ensures { OnOk result (found.new.items
        ≡ found.old.items ++ picked columns.now names.now row ∷ []) }
{
    found.push(pick(alloc, columns, names, row)?)?;
    Ok(())
}

/// Adds what is picked of a row, where the condition chooses it.
pub(crate) fn add_chosen(
    alloc: Global,
    chooser: &mut Chooser,
    columns: &[Column],
    names: &Option<ListOf<Name>>,
    cond: &Option<Cond>,
    row: Row,
    found: &mut Vec<Row>,
) -> Result<(), ExecFault>
    ensures granted { OnOk result (search_refusal columns.now cond.now (row ∷ []) ≡ None) }
    ensures ok { OnOk result (found.new.items
        ≡ found.old.items ++ selected columns.now names.now cond.now (row ∷ [])) }
    ensures err { IfErr result (FailsFor (search_refusal columns.now cond.now (row ∷ []))) }
{
    match chooser.truth(columns, cond, row.values())? {
        None => return Err(ExecFault::Refused(Refusal::OutOfRange)),
        Some(Truth::Yes) => add_picked(alloc, columns, names, row, found)?,
        Some(_) => {}
    }
    Ok(())
}

/// The rows that a SELECT answers, of these rows of its table.
///
/// `Refused` with `OutOfRange` exactly where a sum of the condition goes outside BIGINT on one of them, unless memory runs out. `Memory`
/// for want of memory.
pub fn select_rows(
    alloc: Global,
    columns: &[Column],
    names: &Option<ListOf<Name>>,
    cond: &Option<Cond>,
    rows: Vec<Row>,
) -> Result<Vec<Row>, ExecFault>
    ensures granted { OnOk result (search_refusal columns.now cond.now rows.items ≡ None) }
    ensures ok { IfOk result (λ it.
        it.items ≡ selected columns.now names.now cond.now rows.items) }
    ensures err { IfErr result (FailsFor (search_refusal columns.now cond.now rows.items)) }
{
    let mut chooser = Chooser::new(alloc);
    let mut found = Vec::new(alloc);
    for row in rows {
        add_chosen(alloc, &mut chooser, columns, names, cond, row, &mut found)?;
    }
    Ok(found)
}
