//! What a statement is planned to, or why it is refused.
ghost use Rattle.std.specs.Prelude.{◌≡◌, IfOk, IfErr, OnOk, Some, None};
ghost use Rattle.std.specs.List.{list_all};
ghost use Rattle.std.specs.Option.{option_copied};
ghost use Rattle.std.specs.Result.{result_err};
ghost use Rattle.sql_plan.specs.Plans.{unless, create_refusal, use_refusal, plan_refusal, path_of, IsFault, IsOnTable, HasDefinition, IsPlanOf, IsPlan};
ghost use Rattle.sql_plan.specs.Tables.{created_schema};
ghost use Rattle.sql_plan.specs.declared.shape.Path.TheVariants as path;
ghost use Rattle.sql_plan.specs.Types.{is_counted, rows_refusal};
ghost use Rattle.row_format.specs.Rows.{first_of_two};
ghost use Rattle.sql_value.specs.declared.refusal.Refusal.TheVariants.{UnknownColumn, ValueCount};

use crate::copies::copy_work;
use crate::names::{knows_cond, knows_selected, knows_sets};
use crate::paths::find_path;
use crate::shape::{Path, Plan, PlanFault};
use crate::tables::create_schema;
use crate::types::{check_cond, check_rows, check_sets};
use engine_api::Flags;
use log_tables::Definition;
use row_format::{Column, Schema};
use sql_text::{Item, Literals, Statement};
use sql_value::Refusal;
use std::alloc::Global;

// Refuses, unless each column that is named is there.
fn check_names(known: bool) -> Result<(), Refusal>
    ensures { result_err result ≡ unless known UnknownColumn }
{
    if known {
        Ok(())
    } else {
        Err(Refusal::UnknownColumn)
    }
}

// Whether each row has a value for each column.
fn are_counted(columns: &[Column], rows: &[Literals]) -> bool
    ensures { result ≡ list_all (is_counted columns.now) rows.now }
{
    rows.iter()
        .all(|row| row.values.as_slice().len() == columns.len())
}

// Refuses rows with another number of values, then values that do not suit.
fn check_inserted(columns: &[Column], rows: &[Literals]) -> Result<(), Refusal>
    ensures { result_err result ≡ first_of_two
        (unless (list_all (is_counted columns.now) rows.now) ValueCount)
        (rows_refusal columns.now rows.now) }
{
    if !are_counted(columns, rows) {
        return Err(Refusal::ValueCount);
    }
    check_rows(columns, rows)
}

// Refuses a statement on a table with these columns.
fn check_use(columns: &[Column], statement: &Statement) -> Result<(), Refusal>
    ensures { result_err result ≡ use_refusal statement.now columns.now }
{
    match statement {
        Statement::Insert { rows, .. } => check_inserted(columns, rows.as_slice()),
        Statement::Select {
            columns: names,
            cond,
            ..
        } => {
            check_names(knows_selected(columns, names) && knows_cond(columns, cond))?;
            check_cond(columns, cond)
        }
        Statement::Update { sets, cond, .. } => {
            check_names(knows_sets(columns, sets.as_slice()) && knows_cond(columns, cond))?;
            check_sets(columns, sets.as_slice())?;
            check_cond(columns, cond)
        }
        Statement::Delete { cond, .. } => {
            check_names(knows_cond(columns, cond))?;
            check_cond(columns, cond)
        }
        _ => Ok(()),
    }
}

// The plan of a CREATE.
fn plan_create(
    alloc: Global,
    statement: &Statement,
    items: &[Item],
    flags: Flags,
) -> Result<Plan, PlanFault>
    requires { IsOnTable statement.now }
    ensures ok { IfOk result (λ plan. IsPlanOf statement.now
        (created_schema flags items.now) path.Scan plan) }
    ensures err { IfErr result (λ fault.
        IsFault (create_refusal (created_schema flags items.now)) fault) }
{
    let schema = create_schema(alloc, flags, items)?;
    Ok(Plan {
        path: Path::Scan,
        work: copy_work(alloc, statement)?,
        schema,
    })
}

// The plan of a statement on a table with this schema.
fn plan_use(alloc: Global, statement: &Statement, schema: &Schema) -> Result<Plan, PlanFault>
    requires { IsOnTable statement.now }
    ensures granted { OnOk result (use_refusal statement.now schema.now.columns ≡ None) }
    ensures ok { IfOk result (λ plan. IsPlanOf statement.now
        (Some schema.now) (path_of statement.now schema.now) plan) }
    ensures err { IfErr result (λ fault.
        IsFault (use_refusal statement.now schema.now.columns) fault) }
{
    if let Err(refusal) = check_use(schema.columns.as_slice(), statement) {
        return Err(PlanFault::Refused(refusal));
    }
    Ok(Plan {
        path: find_path(statement, schema)?,
        work: copy_work(alloc, statement)?,
        schema: schema.copy(alloc)?,
    })
}

/// What a statement about a table is planned to. `definition` is that of the table; it is not looked at where the table is to be made.
///
/// `Refused` comes exactly where the statement is refused before a row is looked at: with `SchemaUnsuitable` where a CREATE asks for a
/// schema that is none, or that an engine with these `flags` does not allow; else with `UnknownColumn` for a column that is not there;
/// else with `ValueCount` for a row with another number of values; else with `WrongType` or `OutOfRange` for the first value, from
/// the left, of a type that does not go with the others there, or outside BIGINT. `Memory` comes for want of memory. (MySQL 5.7
/// Server Error Message Reference, ER_BAD_FIELD_ERROR, ER_WRONG_VALUE_COUNT_ON_ROW; the order is this project's.)
pub fn plan(
    alloc: Global,
    statement: &Statement,
    definition: Option<&Definition>,
    flags: Flags,
) -> Result<Plan, PlanFault>
    requires on_table { IsOnTable statement.now }
    requires definition { HasDefinition statement.now (option_copied definition) }
    ensures ok { IfOk result (λ plan.
        IsPlan statement.now (option_copied definition.entry) flags plan) }
    ensures err { IfErr result (λ fault. IsFault
        (plan_refusal statement.now (option_copied definition.entry) flags) fault) }
{
    match statement {
        Statement::Create { items, .. } => plan_create(alloc, statement, items.as_slice(), flags),
        _ => match definition {
            None => unreachable!(),
            Some(definition) => plan_use(alloc, statement, &definition.schema),
        },
    }
}
