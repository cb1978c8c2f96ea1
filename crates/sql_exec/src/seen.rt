//! Values that are looked at where they stand: in a row, or in a statement. No text is copied.
ghost use Rattle.std.specs.Prelude.{◌≡◌, slice_get, unwrap_or, option_and_then};
ghost use Rattle.sql_value.specs.Comparison.{compare};
ghost use Rattle.sql_value.specs.declared.value.Value.TheVariants.{Null};
ghost use Rattle.sql_effect.specs.Values.{literal_value};
ghost use Rattle.sql_effect.specs.Conditions.{null_truth, truth_if};
ghost use Rattle.sql_exec.specs.Seen.{value_seen};

use sql_text::Literal;
use sql_value::{Truth, Value};
use std::cmp::Ordering;

/// A value that is looked at where it stands.
#[derive(Clone, Copy)]
pub(crate) enum Seen<'a> {
    Null,
    Int(i64),
    /// The bytes of a text.
    Text(&'a [u8]),
}

/// A value, as it is looked at.
fn see<'a>(value: &'a Value) -> Seen<'a>
    ensures { value_seen result ≡ value.now }
{
    match value {
        Value::Null => Seen::Null,
        Value::Int(n) => Seen::Int(*n),
        Value::Text(text) => Seen::Text(text.as_bytes()),
    }
}

/// What a row has at a place; NULL where there is none.
pub(crate) fn see_at<'a>(row: &'a [Value], place: Option<usize>) -> Seen<'a>
    ensures { value_seen result
        ≡ unwrap_or (option_and_then (slice_get row.now) place) Null }
{
    match place {
        None => Seen::Null,
        Some(place) => match row.get(place) {
            None => Seen::Null,
            Some(value) => see(value),
        },
    }
}

/// The value of a literal; NULL of a number outside BIGINT, which planning refuses.
pub(crate) fn see_literal<'a>(literal: &'a Literal) -> Seen<'a>
    ensures { value_seen result ≡ literal_value literal.now }
{
    match literal {
        Literal::Null => Seen::Null,
        Literal::Int(n) => match i64::try_from(*n) {
            Ok(n) => Seen::Int(n),
            Err(_) => Seen::Null,
        },
        Literal::Text(text) => Seen::Text(text.as_bytes()),
    }
}

/// How two values compare: numbers as numbers, texts byte by byte. None where one of them is NULL.
pub(crate) fn compare_seen(a: Seen, b: Seen) -> Option<Ordering>
    ensures { result ≡ compare (value_seen a.entry) (value_seen b.entry) }
{
    match a {
        Seen::Null => None,
        Seen::Int(m) => match b {
            Seen::Null => None,
            Seen::Int(n) => Some(m.cmp(&n)),
            Seen::Text(_) => Some(Ordering::Less),
        },
        Seen::Text(s) => match b {
            Seen::Null => None,
            Seen::Int(_) => Some(Ordering::Greater),
            Seen::Text(t) => Some(s.cmp(t)),
        },
    }
}

/// Yes where it is so, else No.
pub(crate) fn truth_if(so: bool) -> Truth
    ensures { result ≡ truth_if so }
{
    if so { Truth::Yes } else { Truth::No }
}

/// IS NULL, or IS NOT NULL, of a value.
pub(crate) fn null_truth(negated: bool, value: Seen) -> Truth
    ensures { result ≡ null_truth negated (value_seen value.entry) }
{
    match value {
        Seen::Null => truth_if(!negated),
        _ => truth_if(negated),
    }
}
