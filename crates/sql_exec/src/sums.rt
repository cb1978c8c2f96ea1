//! The values of operands and sums on a row, looked at where they stand.
ghost use Rattle.std.specs.Prelude.{◌≡◌, option_map};
ghost use Rattle.std.specs.List.{position};
ghost use Rattle.row_format.specs.Schemas.{is_called};
ghost use Rattle.sql_effect.specs.Values.{value_named, operand_value, big_int, number_after, value_after, terms_value, sum_value};
ghost use Rattle.sql_exec.specs.Seen.{value_seen};

use crate::seen::{Seen, see_at, see_literal};
use row_format::Column;
use sql_text::{Operand, Sum, Term};
use sql_value::{Name, Value};

// Where the column of this name stands.
fn place_named(columns: &[Column], name: &Name) -> Option<usize>
    ensures { result ≡ position (is_called name.now) columns.now }
{
    columns.iter().position(|column| name.is_same(&column.name))
}

/// What a row has in the column of this name; NULL where there is none.
pub(crate) fn see_named<'a>(columns: &[Column], name: &Name, row: &'a [Value]) -> Seen<'a>
    ensures { value_seen result ≡ value_named columns.now name.now row.now }
{
    see_at(row, place_named(columns, name))
}

// The value of an operand on a row.
fn see_operand<'a>(columns: &[Column], row: &'a [Value], operand: &'a Operand) -> Seen<'a>
    ensures { value_seen result ≡ operand_value columns.now row.now operand.now }
{
    match operand {
        Operand::Literal(literal) => see_literal(literal),
        Operand::Column(name) => see_named(columns, name, row),
    }
}

// The number, where it is a BIGINT.
fn big_int<'a>(n: i128) -> Option<Seen<'a>>
    ensures { option_map value_seen result ≡ big_int n }
{
    match i64::try_from(n) {
        Ok(n) => Some(Seen::Int(n)),
        Err(_) => None,
    }
}

// The first number and the second, or the first less the second, where that is a BIGINT.
fn number_after<'a>(a: i64, minus: bool, b: i64) -> Option<Seen<'a>>
    ensures { option_map value_seen result ≡ number_after a minus b }
{
    if minus {
        big_int(i128::from(a) - i128::from(b))
    } else {
        big_int(i128::from(a) + i128::from(b))
    }
}

// A sum of two values, or a difference: NULL where one of them is NULL.
fn see_after<'a>(a: Seen<'a>, minus: bool, b: Seen<'a>) -> Option<Seen<'a>>
    ensures { option_map value_seen result
        ≡ value_after (value_seen a.entry) minus (value_seen b.entry) }
{
    match a {
        Seen::Int(a) => match b {
            Seen::Int(b) => number_after(a, minus, b),
            _ => Some(Seen::Null),
        },
        _ => Some(Seen::Null),
    }
}

// The value so far with one term put to it.
fn see_term<'a>(
    columns: &[Column],
    row: &'a [Value],
    so_far: Seen<'a>,
    term: &'a Term,
) -> Option<Seen<'a>>
    ensures { option_map value_seen result ≡ value_after (value_seen so_far.entry) term.now.minus
        (operand_value columns.now row.now term.now.operand) }
{
    see_after(so_far, term.minus, see_operand(columns, row, &term.operand))
}

// The value of the first operand with terms put to it, from the left.
fn see_terms<'a>(
    columns: &[Column],
    row: &'a [Value],
    first: Seen<'a>,
    terms: &'a [Term],
) -> Option<Seen<'a>>
    ensures { option_map value_seen result
        ≡ terms_value columns.now row.now (value_seen first.entry) terms.now }
{
    let mut so_far = first;
    let mut i = 0;
    while i < terms.len() {
        match see_term(columns, row, so_far, &terms[i]) {
            None => return None,
            Some(next) => so_far = next,
        }
        i += 1;
    }
    Some(so_far)
}

/// The value of a sum on a row; None where it goes outside BIGINT.
pub(crate) fn see_sum<'a>(columns: &[Column], row: &'a [Value], sum: &'a Sum) -> Option<Seen<'a>>
    ensures { option_map value_seen result ≡ sum_value columns.now row.now sum.now }
{
    let first = see_operand(columns, row, &sum.first);
    see_terms(columns, row, first, sum.rest.as_slice())
}
