//! The values of operands and sums on a row.
ghost use Rattle.std.specs.Prelude.{◌≡◌, IfOk, slice_get, unwrap_or, option_and_then};
ghost use Rattle.std.specs.List.{position};
ghost use Rattle.sql_value.specs.declared.value.Value.TheVariants.{Null};
ghost use Rattle.row_format.specs.Schemas.{is_called};
ghost use Rattle.sql_effect.specs.Values.{value_named, literal_value, operand_value, big_int, number_after, value_after, terms_value, sum_value};

use row_format::{Column, copy_value};
use sql_text::{Literal, Operand, Sum, Term};
use sql_value::{Name, Value};
use std::alloc::AllocError;

/// Where the column of this name stands.
pub(crate) fn place_named(columns: &[Column], name: &Name) -> Option<usize>
    ensures { result ≡ position (is_called name.now) columns.now }
{
    columns.iter().position(|column| name.is_same(&column.name))
}

// What a row has at a place; NULL where there is none.
fn value_at(row: &[Value], place: Option<usize>) -> Result<Value, AllocError>
    ensures { IfOk result (λ it.
        it ≡ unwrap_or (option_and_then (slice_get row.now) place) Null) }
{
    match place {
        None => Ok(Value::Null),
        Some(place) => match row.get(place) {
            None => Ok(Value::Null),
            Some(value) => copy_value(value),
        },
    }
}

/// What a row has in the column of this name.
pub(crate) fn value_named(
    columns: &[Column],
    name: &Name,
    row: &[Value],
) -> Result<Value, AllocError>
    ensures { IfOk result (λ it. it ≡ value_named columns.now name.now row.now) }
{
    value_at(row, place_named(columns, name))
}

/// The value of a literal.
pub(crate) fn literal_value(literal: &Literal) -> Result<Value, AllocError>
    ensures { IfOk result (λ it. it ≡ literal_value literal.now) }
{
    match literal {
        Literal::Null => Ok(Value::Null),
        Literal::Int(n) => match i64::try_from(*n) {
            Ok(n) => Ok(Value::Int(n)),
            Err(_) => Ok(Value::Null),
        },
        Literal::Text(text) => Ok(Value::Text(text.copy()?)),
    }
}

// The value of an operand on a row.
fn operand_value(columns: &[Column], row: &[Value], operand: &Operand) -> Result<Value, AllocError>
    ensures { IfOk result (λ it. it ≡ operand_value columns.now row.now operand.now) }
{
    match operand {
        Operand::Literal(literal) => literal_value(literal),
        Operand::Column(name) => value_named(columns, name, row),
    }
}

// The number, where it is a BIGINT.
fn big_int(n: i128) -> Option<Value>
    ensures { result ≡ big_int n }
{
    match i64::try_from(n) {
        Ok(n) => Some(Value::Int(n)),
        Err(_) => None,
    }
}

// The first number and the second, or the first less the second, where that is a BIGINT.
fn number_after(a: i64, minus: bool, b: i64) -> Option<Value>
    ensures { result ≡ number_after a minus b }
{
    if minus {
        big_int(i128::from(a) - i128::from(b))
    } else {
        big_int(i128::from(a) + i128::from(b))
    }
}

// A sum of two values, or a difference: NULL where one of them is NULL.
fn value_after(a: &Value, minus: bool, b: &Value) -> Option<Value>
    ensures { result ≡ value_after a.now minus b.now }
{
    match a {
        Value::Int(a) => match b {
            Value::Int(b) => number_after(*a, minus, *b),
            _ => Some(Value::Null),
        },
        _ => Some(Value::Null),
    }
}

// The value so far with one term put to it.
fn term_after(
    columns: &[Column],
    row: &[Value],
    so_far: &Value,
    term: &Term,
) -> Result<Option<Value>, AllocError>
    ensures { IfOk result (λ it. it ≡ value_after so_far.now term.now.minus
        (operand_value columns.now row.now term.now.operand)) }
{
    let value = operand_value(columns, row, &term.operand)?;
    Ok(value_after(so_far, term.minus, &value))
}

// The value of the first operand with terms put to it, from the left.
fn terms_value(
    columns: &[Column],
    row: &[Value],
    first: Value,
    terms: &[Term],
) -> Result<Option<Value>, AllocError>
    ensures { IfOk result (λ it. it ≡ terms_value columns.now row.now first terms.now) }
{
    let mut so_far = first;
    let mut i = 0;
    while i < terms.len() {
        match term_after(columns, row, &so_far, &terms[i])? {
            None => return Ok(None),
            Some(next) => so_far = next,
        }
        i += 1;
    }
    Ok(Some(so_far))
}

/// The value of a sum on a row; None where it goes outside BIGINT.
pub(crate) fn sum_value(
    columns: &[Column],
    row: &[Value],
    sum: &Sum,
) -> Result<Option<Value>, AllocError>
    ensures { IfOk result (λ it. it ≡ sum_value columns.now row.now sum.now) }
{
    let first = operand_value(columns, row, &sum.first)?;
    terms_value(columns, row, first, sum.rest.as_slice())
}
