//! Whether the table has each column that a statement names.
ghost use Rattle.std.specs.Prelude.{◌≡◌};
ghost use Rattle.std.specs.List.{list_all};
ghost use Rattle.sql_plan.specs.Names.{has_column, operand_known, term_known, sum_known, step_known, cond_known, assign_known, select_known};

use row_format::Column;
use sql_text::{Assign, Cond, ListOf, Operand, Step, Sum, Term};
use sql_value::Name;

/// Whether there is a column of this name.
pub(crate) fn is_there(columns: &[Column], name: &Name) -> bool
    ensures { result ≡ has_column columns.now name.now }
{
    columns.iter().any(|column| name.is_same(&column.name))
}

// Whether there is the column that an operand names.
fn knows_operand(columns: &[Column], operand: &Operand) -> bool
    ensures { result ≡ operand_known columns.now operand.now }
{
    match operand {
        Operand::Literal(_) => true,
        Operand::Column(name) => is_there(columns, name),
    }
}

// Whether there is each column that the rest of a sum names.
fn knows_terms(columns: &[Column], terms: &[Term]) -> bool
    ensures { result ≡ list_all (term_known columns.now) terms.now }
{
    terms
        .iter()
        .all(|term| knows_operand(columns, &term.operand))
}

// Whether there is each column that a sum names.
fn knows_sum(columns: &[Column], sum: &Sum) -> bool
    ensures { result ≡ sum_known columns.now sum.now }
{
    knows_operand(columns, &sum.first) && knows_terms(columns, sum.rest.as_slice())
}

// Whether there is each column that a step names.
fn knows_step(columns: &[Column], step: &Step) -> bool
    ensures { result ≡ step_known columns.now step.now }
{
    match step {
        Step::Compare { left, right, .. } => knows_sum(columns, left) && knows_sum(columns, right),
        Step::IsNull { sum, .. } => knows_sum(columns, sum),
        _ => true,
    }
}

// Whether there is each column that steps name.
fn knows_steps(columns: &[Column], steps: &[Step]) -> bool
    ensures { result ≡ list_all (step_known columns.now) steps.now }
{
    steps.iter().all(|step| knows_step(columns, step))
}

/// Whether there is each column that a condition names.
pub(crate) fn knows_cond(columns: &[Column], cond: &Option<Cond>) -> bool
    ensures { result ≡ cond_known columns.now cond.now }
{
    match cond {
        None => true,
        Some(cond) => knows_steps(columns, cond.steps.as_slice()),
    }
}

// Whether there is the column that is set, and each that is read for it.
fn knows_set(columns: &[Column], set: &Assign) -> bool
    ensures { result ≡ assign_known columns.now set.now }
{
    is_there(columns, &set.column) && knows_sum(columns, &set.sum)
}

/// Whether there is each column that is set, and each that is read for it.
pub(crate) fn knows_sets(columns: &[Column], sets: &[Assign]) -> bool
    ensures { result ≡ list_all (assign_known columns.now) sets.now }
{
    sets.iter().all(|set| knows_set(columns, set))
}

// Whether there is a column of each name.
fn are_there(columns: &[Column], names: &[Name]) -> bool
    ensures { result ≡ list_all (has_column columns.now) names.now }
{
    names.iter().all(|name| is_there(columns, name))
}

/// Whether there is each column that is selected, where they are named.
pub(crate) fn knows_selected(columns: &[Column], names: &Option<ListOf<Name>>) -> bool
    ensures { result ≡ select_known columns.now names.now }
{
    match names {
        None => true,
        Some(names) => are_there(columns, names.as_slice()),
    }
}
