//! How the rows of a statement are found.
ghost use Rattle.std.specs.Prelude.{◌≡◌, cond, Some, None, IfOk};
ghost use Rattle.std.specs.Str.{bytes_eq};
ghost use Rattle.std.specs.List.{list_any};
ghost use Rattle.std.specs.Option.{option_copied};
ghost use Rattle.sql_plan.specs.Plans.{value_of, key_literal, key_of_sums, key_if, key_in_step, key_in_steps, key_in_cond, key_of_schema, by_value, by_cond, sets_key, path_of};

use crate::shape::Path;
use row_format::{Schema, Value};
use sql_text::{Assign, Cond, Literal, Op, Operand, Statement, Step, Sum};
use sql_value::Name;
use std::alloc::AllocError;

// The value of a literal; None of NULL, and of a number outside BIGINT.
fn value_of_literal(literal: &Literal) -> Result<Option<Value>, AllocError>
    ensures { IfOk result (λ it. it ≡ value_of literal.now) }
{
    match literal {
        Literal::Null => Ok(None),
        Literal::Int(n) => match i64::try_from(*n) {
            Ok(n) => Ok(Some(Value::Int(n))),
            Err(_) => Ok(None),
        },
        Literal::Text(text) => Ok(Some(Value::Text(text.copy()?))),
    }
}

// The literal, where the column beside it is the key.
fn if_key<'a>(key: &Name, name: &Name, literal: &'a Literal) -> Option<&'a Literal>
    ensures { option_copied result ≡ cond (bytes_eq key.now name.now) (Some literal.now) None }
{
    if key.is_same(name) {
        Some(literal)
    } else {
        None
    }
}

// The one of two operands that is a literal, where the other is the key.
fn literal_of<'a>(key: &Name, left: &'a Operand, right: &'a Operand) -> Option<&'a Literal>
    ensures { option_copied result ≡ key_literal key.now left.now right.now }
{
    match left {
        Operand::Column(name) => match right {
            Operand::Column(_) => None,
            Operand::Literal(literal) => if_key(key, name, literal),
        },
        Operand::Literal(literal) => match right {
            Operand::Column(name) => if_key(key, name, literal),
            Operand::Literal(_) => None,
        },
    }
}

// The same of two sums that are one operand each.
fn literal_of_sums<'a>(key: &Name, left: &'a Sum, right: &'a Sum) -> Option<&'a Literal>
    ensures { option_copied result ≡ key_of_sums key.now left.now right.now }
{
    if !left.rest.as_slice().is_empty() || !right.rest.as_slice().is_empty() {
        return None;
    }
    literal_of(key, &left.first, &right.first)
}

// The literal that a step compares the key with.
fn literal_in_step<'a>(key: &Name, step: &'a Step) -> Option<&'a Literal>
    ensures { option_copied result ≡ key_in_step key.now step.now }
{
    match step {
        Step::Compare { left, op, right } => match op {
            Op::Eq => literal_of_sums(key, left, right),
            _ => None,
        },
        _ => None,
    }
}

// The literal that the only step compares the key with.
fn literal_in_steps<'a>(key: &Name, steps: &'a [Step]) -> Option<&'a Literal>
    ensures { option_copied result ≡ key_in_steps key.now steps.now }
{
    match steps {
        [step] => literal_in_step(key, step),
        _ => None,
    }
}

// The value that the whole condition compares the key with.
fn value_in_cond(key: &Name, cond: &Option<Cond>) -> Result<Option<Value>, AllocError>
    ensures { IfOk result (λ it. it ≡ key_in_cond key.now cond.now) }
{
    match cond {
        None => Ok(None),
        Some(cond) => match literal_in_steps(key, cond.steps.as_slice()) {
            None => Ok(None),
            Some(literal) => value_of_literal(literal),
        },
    }
}

// The name of the key column.
fn key_name(schema: &Schema) -> Option<&Name>
    ensures { option_copied result ≡ key_of_schema schema.now }
{
    match schema.key {
        None => None,
        Some(place) => match schema.columns.as_slice().get(place as usize) {
            None => None,
            Some(column) => Some(&column.name),
        },
    }
}

// By key where the condition compares it with a value, else by a scan.
fn path_by_cond(key: Option<&Name>, cond: &Option<Cond>) -> Result<Path, AllocError>
    ensures { IfOk result (λ it. it ≡ by_cond (option_copied key.entry) cond.now) }
{
    match key {
        None => Ok(Path::Scan),
        Some(key) => match value_in_cond(key, cond)? {
            None => Ok(Path::Scan),
            Some(value) => Ok(Path::Key(value)),
        },
    }
}

// Whether one of these sets the column of this name.
fn is_set(name: &Name, sets: &[Assign]) -> bool
    ensures { result ≡ list_any (λ it. bytes_eq name.now it.column) sets.now }
{
    sets.iter().any(|set| name.is_same(&set.column))
}

// Whether the key is set.
fn is_key_set(key: Option<&Name>, sets: &[Assign]) -> bool
    ensures { result ≡ sets_key (option_copied key.entry) sets.now }
{
    match key {
        None => false,
        Some(name) => is_set(name, sets),
    }
}

/// How the rows of a statement on a table are found.
pub(crate) fn find_path(statement: &Statement, schema: &Schema) -> Result<Path, AllocError>
    ensures { IfOk result (λ it. it ≡ path_of statement.now schema.now) }
{
    let key = key_name(schema);
    match statement {
        Statement::Insert { .. } => Ok(Path::Rows),
        Statement::Select { cond, .. } => path_by_cond(key, cond),
        Statement::Update { sets, cond, .. } => {
            if is_key_set(key, sets.as_slice()) {
                return Ok(Path::Scan);
            }
            path_by_cond(key, cond)
        }
        Statement::Delete { cond, .. } => path_by_cond(key, cond),
        _ => Ok(Path::Scan),
    }
}
