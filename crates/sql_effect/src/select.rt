//! Which rows a condition chooses, and what a SELECT answers.
ghost use Rattle.std.specs.Prelude.{◌≡◌, ◌++◌, ◌∷◌, [], map, None, IfOk, IfErr, OnOk};
ghost use Rattle.sql_effect.specs.Outcomes.{Gives, FailsFor};
ghost use Rattle.sql_effect.specs.Rewrite.{refused_or};
ghost use Rattle.sql_effect.specs.Select.{is_yes, is_decided, search_refusal, picked, selected};
ghost use Rattle.sql_effect.specs.Values.{value_named};

use crate::conditions::cond_truth;
use crate::shape::EffectFault;
use crate::values::value_named;
use row_format::{Column, copy_values};
use sql_text::{Cond, ListOf};
use sql_value::{Name, Refusal, Row, Truth, Value};
use std::alloc::{AllocError, Global};

// Whether it is known, and Yes.
fn is_yes(truth: Option<Truth>) -> bool
    ensures { result ≡ is_yes truth }
{
    matches!(truth, Some(Truth::Yes))
}

// Whether on this row each sum of the condition is a BIGINT.
fn is_decided(
    alloc: Global,
    columns: &[Column],
    cond: &Option<Cond>,
    row: &Row,
) -> Result<bool, AllocError>
    ensures { IfOk result (λ it. it ≡ is_decided columns.now cond.now row.now) }
{
    Ok(cond_truth(alloc, columns, cond, row.values())?.is_some())
}

// Refuses rows, unless each sum of the condition is a BIGINT on each of them.
fn check_search(
    alloc: Global,
    columns: &[Column],
    cond: &Option<Cond>,
    rows: &[Row],
) -> Result<(), EffectFault>
    ensures { Gives result (refused_or (search_refusal columns.now cond.now rows.now) (Ok tt)) }
{
    let mut i = 0;
    while i < rows.len() {
        if !is_decided(alloc, columns, cond, &rows[i])? {
            return Err(EffectFault::Refused(Refusal::OutOfRange));
        }
        i += 1;
    }
    Ok(())
}

// The columns of a row of these names.
fn values_named(
    alloc: Global,
    columns: &[Column],
    names: &[Name],
    row: &[Value],
) -> Result<Vec<Value>, AllocError>
    ensures { IfOk result (λ it.
        it.items ≡ map (λ name. value_named columns.now name row.now) names.now) }
{
    let mut values = Vec::with_capacity(alloc, names.len())?;
    for name in names {
        values.push(value_named(columns, name, row)?)?;
    }
    Ok(values)
}

// The columns of a row that are named, or all of it.
fn picked(
    alloc: Global,
    columns: &[Column],
    names: &Option<ListOf<Name>>,
    row: &[Value],
) -> Result<Row, AllocError>
    ensures { IfOk result (λ it. it ≡ picked columns.now names.now row.now) }
{
    match names {
        None => Ok(Row::new(copy_values(alloc, row)?)),
        Some(names) => Ok(Row::new(values_named(alloc, columns, names.as_slice(), row)?)),
    }
}

// Adds what is picked of a row, where the condition chooses it.
fn add_chosen(
    alloc: Global,
    columns: &[Column],
    names: &Option<ListOf<Name>>,
    cond: &Option<Cond>,
    row: &Row,
    rows: &mut Vec<Row>,
) -> Result<(), AllocError>
    ensures { OnOk result (rows.new.items ≡ rows.old.items
        ++ selected columns.now names.now cond.now (row.now ∷ [])) }
{
    if is_yes(cond_truth(alloc, columns, cond, row.values())?) {
        rows.push(picked(alloc, columns, names, row.values())?)?;
    }
    Ok(())
}

// The rows that the condition chooses, with the columns that are named.
fn selected(
    alloc: Global,
    columns: &[Column],
    names: &Option<ListOf<Name>>,
    cond: &Option<Cond>,
    rows: &[Row],
) -> Result<Vec<Row>, AllocError>
    ensures { IfOk result (λ it. it.items ≡ selected columns.now names.now cond.now rows.now) }
{
    let mut found = Vec::new(alloc);
    for row in rows {
        add_chosen(alloc, columns, names, cond, row, &mut found)?;
    }
    Ok(found)
}

/// The rows that a SELECT answers.
pub(crate) fn select_rows(
    alloc: Global,
    columns: &[Column],
    names: &Option<ListOf<Name>>,
    cond: &Option<Cond>,
    rows: &[Row],
) -> Result<Vec<Row>, EffectFault>
    ensures granted { OnOk result (search_refusal columns.now cond.now rows.now ≡ None) }
    ensures ok { IfOk result (λ it.
        it.items ≡ selected columns.now names.now cond.now rows.now) }
    ensures err { IfErr result (λ fault.
        FailsFor (search_refusal columns.now cond.now rows.now) fault) }
{
    check_search(alloc, columns, cond, rows)?;
    Ok(selected(alloc, columns, names, cond, rows)?)
}
