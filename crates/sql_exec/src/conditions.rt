//! Whether a condition holds on a row.
//!
//! Its steps are gone through once, with the truths of the parts that stand before a step kept in a list. The list is emptied between rows,
//! and keeps its memory.
ghost use Rattle.std.specs.Prelude.{◌≡◌, ◌≤◌, ◌-◌, ◌++◌, ◌∷◌, [], length, take, option_map, IfOk, OnOk};
ghost use Rattle.sql_value.specs.Truth.{truth_not};
ghost use Rattle.sql_effect.specs.Conditions.{does_hold, compared, null_truth, comparison_truth, all_of, one_of, last_joined, with_truth, truths_after, truths_behind, cond_truth};
ghost use Rattle.sql_effect.specs.Values.{sum_value};
ghost use Rattle.sql_effect.specs.Outcomes.{where_so};
ghost use Rattle.sql_exec.specs.Seen.{value_seen};

use crate::seen::{Seen, compare_seen, null_truth, truth_if};
use crate::sums::see_sum;
use row_format::Column;
use sql_text::{Cond, Op, Step, Sum};
use sql_value::{Truth, Value};
use std::alloc::{AllocError, Global};
use std::cmp::Ordering;

// Whether the sign of a comparison holds of two values that stand so to each other.
fn does_hold(op: Op, ordering: Ordering) -> bool
    ensures { result ≡ does_hold op ordering }
{
    match op {
        Op::Eq => ordering.is_eq(),
        Op::Ne => ordering.is_ne(),
        Op::Lt => ordering.is_lt(),
        Op::Le => ordering.is_le(),
        Op::Gt => ordering.is_gt(),
        Op::Ge => ordering.is_ge(),
    }
}

// What a comparison says of two values that stand so to each other.
fn compared(op: Op, ordering: Option<Ordering>) -> Truth
    ensures { result ≡ compared op ordering }
{
    match ordering {
        None => Truth::Unknown,
        Some(ordering) => truth_if(does_hold(op, ordering)),
    }
}

// A comparison of two sums on a row.
fn comparison_truth(
    columns: &[Column],
    row: &[Value],
    left: &Sum,
    op: Op,
    right: &Sum,
) -> Option<Truth>
    ensures { result ≡ comparison_truth columns.now row.now left.now op right.now }
{
    let a = see_sum(columns, row, left)?;
    let b = see_sum(columns, row, right)?;
    Some(compared(op, compare_seen(a, b)))
}

// IS NULL, or IS NOT NULL, of a sum on a row.
fn sum_null_truth(columns: &[Column], row: &[Value], sum: &Sum, negated: bool) -> Option<Truth>
    ensures { result ≡ option_map (null_truth negated)
        (sum_value columns.now row.now sum.now) }
{
    let value = see_sum(columns, row, sum)?;
    Some(null_truth(negated, value))
}

// Whether all of them hold.
fn all_of(truths: &[Truth]) -> Truth
    ensures { result ≡ all_of truths.now }
{
    let mut all = Truth::Yes;
    let mut i = truths.len();
    while i > 0 {
        i -= 1;
        all = truths[i].and(all);
    }
    all
}

// Whether one of them holds.
fn one_of(truths: &[Truth]) -> Truth
    ensures { result ≡ one_of truths.now }
{
    let mut one = Truth::No;
    let mut i = truths.len();
    while i > 0 {
        i -= 1;
        one = truths[i].or(one);
    }
    one
}

// Where the last few of them begin.
fn start_of(truths: &[Truth], members: usize) -> usize
    ensures value { result ≡ length truths.now - members }
    ensures within { result ≤ length truths.now }
{
    truths.len().saturating_sub(members)
}

// Puts one truth in the place of those from there on.
fn put_at(truths: &mut Vec<Truth>, start: usize, it: Truth) -> Result<(), AllocError>
    ensures { OnOk result (truths.new.items ≡ take start truths.old.items ++ it ∷ []) }
{
    truths.truncate(start);
    truths.push(it)?;
    Ok(())
}

// Adds a truth, where there is one. Tells whether there is.
fn add(truths: &mut Vec<Truth>, it: Option<Truth>) -> Result<bool, AllocError>
    ensures { IfOk result (λ so. where_so so truths.new.items
        ≡ option_map (with_truth truths.old.items) it) }
{
    match it {
        None => Ok(false),
        Some(it) => {
            truths.push(it)?;
            Ok(true)
        }
    }
}

// Puts the last few together into whether one of them holds.
fn join_by_or(truths: &mut Vec<Truth>, members: usize) -> Result<(), AllocError>
    ensures { OnOk result (truths.new.items ≡ last_joined members one_of truths.old.items) }
{
    let start = start_of(truths, members);
    let it = one_of(&truths[start..]);
    put_at(truths, start, it)
}

// Puts the last few together into whether all of them hold.
fn join_by_and(truths: &mut Vec<Truth>, members: usize) -> Result<(), AllocError>
    ensures { OnOk result (truths.new.items ≡ last_joined members all_of truths.old.items) }
{
    let start = start_of(truths, members);
    let it = all_of(&truths[start..]);
    put_at(truths, start, it)
}

// Turns the last one round.
fn turn_last(truths: &mut Vec<Truth>) -> Result<(), AllocError>
    ensures { OnOk result (truths.new.items
        ≡ last_joined 1 (λ it. truth_not (all_of it)) truths.old.items) }
{
    let start = start_of(truths, 1);
    let it = all_of(&truths[start..]).not();
    put_at(truths, start, it)
}

// Makes the truths what they are behind a step. False where a sum of it goes outside BIGINT.
fn pass_step(
    columns: &[Column],
    row: &[Value],
    step: &Step,
    truths: &mut Vec<Truth>,
) -> Result<bool, AllocError>
    ensures { IfOk result (λ so. where_so so truths.new.items
        ≡ truths_after columns.now row.now step.now truths.old.items) }
{
    match step {
        Step::Or { members } => {
            join_by_or(truths, *members as usize)?;
            Ok(true)
        }
        Step::And { members } => {
            join_by_and(truths, *members as usize)?;
            Ok(true)
        }
        Step::Not => {
            turn_last(truths)?;
            Ok(true)
        }
        Step::Compare { left, op, right } => {
            let it = comparison_truth(columns, row, left, *op, right);
            add(truths, it)
        }
        Step::IsNull { sum, negated } => {
            let it = sum_null_truth(columns, row, sum, *negated);
            add(truths, it)
        }
    }
}

// What steps say of a row, all that they leave taken together. The truths that were there are forgotten.
fn steps_truth(
    truths: &mut Vec<Truth>,
    columns: &[Column],
    row: &[Value],
    steps: &[Step],
) -> Result<Option<Truth>, AllocError>
    ensures { IfOk result (λ it. it
        ≡ option_map all_of (truths_behind columns.now row.now steps.now [])) }
{
    truths.clear();
    let mut i = 0;
    while i < steps.len() {
        if !pass_step(columns, row, &steps[i], truths)? {
            return Ok(None);
        }
        i += 1;
    }
    Ok(Some(all_of(truths)))
}

/// What tells whether a condition holds on a row. It keeps the memory that it took from row to row.
#[derive(Drop)]
pub struct Chooser {
    truths: Vec<Truth>,
}

impl Chooser {
    /// One that has looked at no row. No memory is taken.
    pub fn new(alloc: Global) -> Chooser {
        Chooser {
            truths: Vec::new(alloc),
        }
    }

    /// What a condition says of a row; None where a sum of it goes outside BIGINT. With no condition, Yes. What it said of rows before is
    /// no matter.
    ///
    /// `AllocError` for want of memory, after which it may be asked again.
    pub fn truth(
        &mut self,
        columns: &[Column],
        cond: &Option<Cond>,
        row: &[Value],
    ) -> Result<Option<Truth>, AllocError>
        ensures { IfOk result (λ it. it ≡ cond_truth columns.now cond.now row.now) }
    {
        match cond {
            None => Ok(Some(Truth::Yes)),
            Some(cond) => steps_truth(&mut self.truths, columns, row, cond.steps.as_slice()),
        }
    }
}
