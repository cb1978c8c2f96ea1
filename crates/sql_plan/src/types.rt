//! Which types the values of a statement have, and whether they go together.
ghost use Rattle.std.specs.Prelude.{◌≡◌, IfOk, Some};
ghost use Rattle.std.specs.Result.{result_err};
ghost use Rattle.sql_plan.specs.Types.{type_of_kind, type_of_literal, type_named, type_of, range_refusal, operand_range, same_type, may_stand, seen_after, operand_refusal, terms_refusal, seen_behind, sum_refusal, sum_seen, step_refusal, steps_refusal, cond_refusal, sets_refusal, value_refusal, values_refusal, rows_refusal};

use row_format::{Column, Kind};
use sql_text::{Assign, Cond, Literal, Literals, Operand, Step, Sum, Term};
use sql_value::{Name, Refusal};

/// The type of a value that is not NULL. (MySQL 5.7 Reference Manual, "Data Types", of which there are these two.)
#[derive(Clone, Copy, Debug, PartialEq, Eq)]
pub enum ValueType {
    /// A signed number of 64 bits.
    Number,
    Text,
}

// The type of a column.
fn type_of_column(kind: Kind) -> ValueType
    ensures { result ≡ type_of_kind kind }
{
    match kind {
        Kind::BigInt => ValueType::Number,
        Kind::VarChar(_) => ValueType::Text,
    }
}

// The type of a literal; NULL has none.
fn type_of_value(literal: &Literal) -> Option<ValueType>
    ensures { result ≡ type_of_literal literal.now }
{
    match literal {
        Literal::Null => None,
        Literal::Int(_) => Some(ValueType::Number),
        Literal::Text(_) => Some(ValueType::Text),
    }
}

// The type of the column of this name.
fn type_by_name(columns: &[Column], name: &Name) -> Option<ValueType>
    ensures { result ≡ type_named columns.now name.now }
{
    let column = columns.iter().find(|column| name.is_same(&column.name))?;
    Some(type_of_column(column.kind))
}

// The type of an operand.
fn type_of_operand(columns: &[Column], operand: &Operand) -> Option<ValueType>
    ensures { result ≡ type_of columns.now operand.now }
{
    match operand {
        Operand::Literal(literal) => type_of_value(literal),
        Operand::Column(name) => type_by_name(columns, name),
    }
}

// Whether a literal is no number outside BIGINT.
fn check_range(literal: &Literal) -> Result<(), Refusal>
    ensures { result_err result ≡ range_refusal literal.now }
{
    match literal {
        Literal::Int(n) if i64::try_from(*n).is_err() => Err(Refusal::OutOfRange),
        _ => Ok(()),
    }
}

// Whether an operand is no literal outside BIGINT.
fn check_operand_range(operand: &Operand) -> Result<(), Refusal>
    ensures { result_err result ≡ operand_range operand.now }
{
    match operand {
        Operand::Literal(literal) => check_range(literal),
        Operand::Column(_) => Ok(()),
    }
}

// Whether two types are one.
fn is_same(a: ValueType, b: ValueType) -> bool
    ensures { result ≡ same_type a b }
{
    match a {
        ValueType::Number => matches!(b, ValueType::Number),
        ValueType::Text => matches!(b, ValueType::Text),
    }
}

// Whether one of this type may stand where these were seen before: in a sum of several operands no text may.
fn stands_as(several: bool, seen: Option<ValueType>, it: ValueType) -> bool
    ensures { result ≡ may_stand several seen (Some it) }
{
    if several && matches!(it, ValueType::Text) {
        return false;
    }
    match seen {
        None => true,
        Some(seen) => is_same(seen, it),
    }
}

// Whether what has this type, or none, may stand there.
fn stands(several: bool, seen: Option<ValueType>, it: Option<ValueType>) -> bool
    ensures { result ≡ may_stand several seen it }
{
    match it {
        None => true,
        Some(it) => stands_as(several, seen, it),
    }
}

// Checks one operand more, and tells which type was seen behind it: the first that was.
fn check_operand(
    columns: &[Column],
    several: bool,
    seen: Option<ValueType>,
    operand: &Operand,
) -> Result<Option<ValueType>, Refusal>
    ensures value { result_err result ≡ operand_refusal columns.now several seen operand.now }
    ensures seen { IfOk result (λ it.
        it ≡ seen_after seen (type_of columns.now operand.now)) }
{
    let it = type_of_operand(columns, operand);
    if !stands(several, seen, it) {
        return Err(Refusal::WrongType);
    }
    check_operand_range(operand)?;
    Ok(seen.or(it))
}

// Checks the operands behind the first one.
fn check_terms(
    columns: &[Column],
    seen: Option<ValueType>,
    terms: &[Term],
) -> Result<Option<ValueType>, Refusal>
    ensures value { result_err result ≡ terms_refusal columns.now seen terms.now }
    ensures seen { IfOk result (λ it. it ≡ seen_behind columns.now seen terms.now) }
{
    let mut it = seen;
    let mut i = 0;
    while i < terms.len() {
        it = check_operand(columns, true, it, &terms[i].operand)?;
        i += 1;
    }
    Ok(it)
}

// Checks a sum that stands where this type was seen before.
fn check_sum(
    columns: &[Column],
    seen: Option<ValueType>,
    sum: &Sum,
) -> Result<Option<ValueType>, Refusal>
    ensures value { result_err result ≡ sum_refusal columns.now seen sum.now }
    ensures seen { IfOk result (λ it. it ≡ sum_seen columns.now seen sum.now) }
{
    let terms = sum.rest.as_slice();
    let it = check_operand(columns, !terms.is_empty(), seen, &sum.first)?;
    check_terms(columns, it, terms)
}

// Checks a step of a condition.
fn check_step(columns: &[Column], step: &Step) -> Result<(), Refusal>
    ensures { result_err result ≡ step_refusal columns.now step.now }
{
    match step {
        Step::Compare { left, right, .. } => {
            let seen = check_sum(columns, None, left)?;
            check_sum(columns, seen, right)?;
            Ok(())
        }
        Step::IsNull { sum, .. } => {
            check_sum(columns, None, sum)?;
            Ok(())
        }
        _ => Ok(()),
    }
}

// Checks the steps of a condition, in order.
fn check_steps(columns: &[Column], steps: &[Step]) -> Result<(), Refusal>
    ensures { result_err result ≡ steps_refusal columns.now steps.now }
{
    let mut i = 0;
    while i < steps.len() {
        check_step(columns, &steps[i])?;
        i += 1;
    }
    Ok(())
}

/// Checks a condition: the first place from the left where types are mixed, or a literal is out of range, tells why it is refused.
pub(crate) fn check_cond(columns: &[Column], cond: &Option<Cond>) -> Result<(), Refusal>
    ensures { result_err result ≡ cond_refusal columns.now cond.now }
{
    match cond {
        None => Ok(()),
        Some(cond) => check_steps(columns, cond.steps.as_slice()),
    }
}

/// Checks what is set, in order, as a condition is.
pub(crate) fn check_sets(columns: &[Column], sets: &[Assign]) -> Result<(), Refusal>
    ensures { result_err result ≡ sets_refusal columns.now sets.now }
{
    let mut i = 0;
    while i < sets.len() {
        check_sum(
            columns,
            type_by_name(columns, &sets[i].column),
            &sets[i].sum,
        )?;
        i += 1;
    }
    Ok(())
}

// Checks a literal that is to stand in a column.
fn check_value(column: &Column, literal: &Literal) -> Result<(), Refusal>
    ensures { result_err result ≡ value_refusal column.now literal.now }
{
    if !stands(
        false,
        Some(type_of_column(column.kind)),
        type_of_value(literal),
    ) {
        return Err(Refusal::WrongType);
    }
    check_range(literal)
}

// Checks the values of a row.
fn check_values(columns: &[Column], values: &[Literal]) -> Result<(), Refusal>
    ensures { result_err result ≡ values_refusal columns.now values.now }
{
    let mut i = 0;
    while i < columns.len() && i < values.len() {
        check_value(&columns[i], &values[i])?;
        i += 1;
    }
    Ok(())
}

/// Checks the values of rows, in order.
pub(crate) fn check_rows(columns: &[Column], rows: &[Literals]) -> Result<(), Refusal>
    ensures { result_err result ≡ rows_refusal columns.now rows.now }
{
    let mut i = 0;
    while i < rows.len() {
        check_values(columns, rows[i].values.as_slice())?;
        i += 1;
    }
    Ok(())
}
