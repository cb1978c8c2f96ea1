//! Conditions.
//!
//! A condition is read into steps, each behind what it is about. `level` is what has been read within the innermost open
//! parenthesis, and `outer` has the levels around it, from the outside in.
ghost use Rattle.std.specs.Prelude.{◌≡◌, ◌++◌, replicate, ℕ, List, Option, None};
ghost use Rattle.sql_text.specs.Filter as spec;
ghost use Rattle.sql_text.specs.Steps.{Gives};

use crate::keyword::Keyword;
use crate::lexeme::{Lexeme, Sign};
use crate::list::ListOf;
use crate::reading::{Reading, whole};
use crate::statement::{Assign, Cond, Op, Statement, Step, Sum};
use crate::step::StepFault;
use crate::sum::{SumStep, Summing};
use sql_value::Name;
use std::alloc::Global;

/// A statement that may have a condition, without it.
#[derive(Drop)]
pub enum Head {
    Select {
        table: Name,
        columns: Option<ListOf<Name>>,
    },
    Update {
        table: Name,
        sets: ListOf<Assign>,
    },
    Delete {
        table: Name,
    },
}

/// A statement with a part of its condition.
#[derive(Drop)]
pub struct Filtering {
    pub head: Head,
    pub tests: Tests,
    pub due: FilterDue,
}

/// The steps that have been read, and the levels of parentheses.
#[derive(Drop)]
pub struct Tests {
    pub steps: ListOf<Step>,
    pub outer: ListOf<Level>,
    pub level: Level,
}

/// What has been read within a parenthesis.
#[derive(Clone, Copy, Debug, PartialEq, Eq)]
pub struct Level {
    /// How many members of an OR are whole.
    pub ors: u32,
    /// How many members of the AND are, behind them.
    pub ands: u32,
    /// How many NOTs stand before the member that is due.
    pub nots: u32,
}

/// What is due.
#[derive(Drop)]
pub enum FilterDue {
    /// NOT, `(` or a sum.
    Member,
    /// The sum on the left.
    Left { summing: Summing },
    /// NOT or NULL behind IS.
    Is { sum: Sum },
    /// NULL behind IS NOT.
    IsNot { sum: Sum },
    /// The sum on the right.
    Right { left: Sum, op: Op, summing: Summing },
    /// AND, OR, `)` or the end.
    More,
}

const EMPTY: Level = Level {
    ors: 0,
    ands: 0,
    nots: 0,
};

// One more. A number past 32 bits would be a condition that no memory holds.
fn raised(count: u32) -> Result<u32, StepFault>
    ensures { Gives result (spec.raised count) }
{
    count.checked_add(1).ok_or(StepFault::Memory)
}

fn with_nots(mut steps: ListOf<Step>, nots: u32) -> Result<ListOf<Step>, StepFault>
    ensures { Gives result (spec.with_nots steps nots) }
{
    for _ in 0..nots {
        steps.push(Step::Not)?;
    }
    Ok(steps)
}

fn inner(mut outer: ListOf<Level>) -> Option<(ListOf<Level>, Level)>
    ensures { result ≡ spec.pop_last outer }
{
    match outer.pop() {
        Some(level) => Some((outer, level)),
        None => None,
    }
}

impl Tests {
    // A NOT before the member that is due.
    #[tactic(auto, unfolding(crate::specs::Filter::with_not))]
    fn with_not(self) -> Result<Tests, StepFault>
        ensures { Gives result (spec.with_not self) }
    {
        let Tests {
            steps,
            outer,
            level,
        } = self;
        let nots = raised(level.nots)?;
        let level = Level {
            ors: level.ors,
            ands: level.ands,
            nots,
        };
        Ok(Tests {
            steps,
            outer,
            level,
        })
    }

    // A parenthesis opens.
    fn opened(self) -> Result<Tests, StepFault>
        ensures { Gives result (spec.opened self) }
    {
        let Tests {
            steps,
            mut outer,
            level,
        } = self;
        outer.push(level)?;
        Ok(Tests {
            steps,
            outer,
            level: EMPTY,
        })
    }

    // A member is whole but for its NOTs.
    #[tactic(auto, unfolding(crate::specs::Filter::with_member))]
    fn with_member(self) -> Result<Tests, StepFault>
        ensures { Gives result (spec.with_member self) }
    {
        let Tests {
            steps,
            outer,
            level,
        } = self;
        let steps = with_nots(steps, level.nots)?;
        let ands = raised(level.ands)?;
        let level = Level {
            ors: level.ors,
            ands,
            nots: 0,
        };
        Ok(Tests {
            steps,
            outer,
            level,
        })
    }

    // A test is a member.
    #[tactic(auto, unfolding(crate::specs::Filter::with_test))]
    fn with_test(self, step: Step) -> Result<Tests, StepFault>
        ensures { Gives result (spec.with_test self step) }
    {
        let Tests {
            mut steps,
            outer,
            level,
        } = self;
        steps.push(step)?;
        let tests = Tests {
            steps,
            outer,
            level,
        };
        tests.with_member()
    }

    // The AND is whole.
    #[tactic(auto, unfolding(crate::specs::Filter::with_and))]
    fn with_and(self) -> Result<Tests, StepFault>
        ensures { Gives result (spec.with_and self) }
    {
        let Tests {
            steps,
            outer,
            level,
        } = self;
        let steps = joined_ands(steps, level.ands)?;
        let ors = raised(level.ors)?;
        let level = Level {
            ors,
            ands: 0,
            nots: level.nots,
        };
        Ok(Tests {
            steps,
            outer,
            level,
        })
    }

    // The condition of the level is whole.
    #[tactic(auto, unfolding(crate::specs::Filter::with_or))]
    fn with_or(self) -> Result<Tests, StepFault>
        ensures { Gives result (spec.with_or self) }
    {
        let Tests {
            steps,
            outer,
            level,
        } = self.with_and()?;
        let steps = joined_ors(steps, level.ors)?;
        Ok(Tests {
            steps,
            outer,
            level,
        })
    }

    // A parenthesis closes.
    #[tactic(auto, unfolding(crate::specs::Filter::closed))]
    fn closed(self) -> Result<Tests, StepFault>
        ensures { Gives result (spec.closed self) }
    {
        let Tests { steps, outer, .. } = self.with_or()?;
        match inner(outer) {
            Some((outer, level)) => {
                let tests = Tests {
                    steps,
                    outer,
                    level,
                };
                tests.with_member()
            }
            None => Err(StepFault::Unexpected),
        }
    }
}

fn joined_ands(mut steps: ListOf<Step>, members: u32) -> Result<ListOf<Step>, StepFault>
    ensures { Gives result (spec.joined_ands steps members) }
{
    if members > 1 {
        steps.push(Step::And { members })?;
    }
    Ok(steps)
}

fn joined_ors(mut steps: ListOf<Step>, members: u32) -> Result<ListOf<Step>, StepFault>
    ensures { Gives result (spec.joined_ors steps members) }
{
    if members > 1 {
        steps.push(Step::Or { members })?;
    }
    Ok(steps)
}

impl Lexeme {
    fn op(&self) -> Option<Op>
        ensures { result ≡ spec.op_in self.now }
    {
        match self {
            Lexeme::Sign(sign) => op_of(*sign),
            _ => None,
        }
    }
}

fn op_of(sign: Sign) -> Option<Op>
    ensures { result ≡ spec.op_of sign }
{
    match sign {
        Sign::Equal => Some(Op::Eq),
        Sign::NotEqual => Some(Op::Ne),
        Sign::Less => Some(Op::Lt),
        Sign::LessEqual => Some(Op::Le),
        Sign::Greater => Some(Op::Gt),
        Sign::GreaterEqual => Some(Op::Ge),
        _ => None,
    }
}

impl Head {
    fn finish(self, cond: Option<Cond>) -> Statement
        ensures { result ≡ spec.finish self cond }
    {
        match self {
            Head::Select { table, columns } => Statement::Select {
                table,
                columns,
                cond,
            },
            Head::Update { table, sets } => Statement::Update { table, sets, cond },
            Head::Delete { table } => Statement::Delete { table, cond },
        }
    }

    /// WHERE, or the end of the statement.
    pub fn next(self, alloc: Global, lexeme: &Lexeme) -> Result<Reading, StepFault>
        ensures { Gives result (spec.head_next self lexeme.now) }
    {
        if !lexeme.is_word(Keyword::Where) {
            return whole(self.finish(None), lexeme);
        }
        let tests = Tests {
            steps: ListOf::new(alloc),
            outer: ListOf::new(alloc),
            level: EMPTY,
        };
        Ok(with_due(self, tests, FilterDue::Member))
    }
}

fn with_due(head: Head, tests: Tests, due: FilterDue) -> Reading
    ensures { result ≡ spec.with_due head tests due }
{
    Reading::Filtering(Filtering { head, tests, due })
}

#[tactic(auto, unfolding(crate::specs::Filter::finished))]
fn finished(head: Head, tests: Tests, lexeme: &Lexeme) -> Result<Reading, StepFault>
    ensures { Gives result (spec.finished head tests lexeme.now) }
{
    let Tests { steps, .. } = tests.with_or()?;
    whole(head.finish(Some(Cond { steps })), lexeme)
}

#[tactic(auto, unfolding(crate::specs::Filter::at_end))]
fn at_end(head: Head, tests: Tests, lexeme: &Lexeme) -> Result<Reading, StepFault>
    ensures { Gives result (spec.at_end head tests lexeme.now) }
{
    if tests.outer.as_slice().is_empty() {
        finished(head, tests, lexeme)
    } else {
        Err(StepFault::Unexpected)
    }
}

#[tactic(auto, unfolding(crate::specs::Filter::more))]
fn more(head: Head, tests: Tests, lexeme: &Lexeme) -> Result<Reading, StepFault>
    ensures { Gives result (spec.more head tests lexeme.now) }
{
    if lexeme.is_word(Keyword::And) {
        Ok(with_due(head, tests, FilterDue::Member))
    } else if lexeme.is_word(Keyword::Or) {
        let tests = tests.with_and()?;
        Ok(with_due(head, tests, FilterDue::Member))
    } else if lexeme.is_sign(Sign::Close) {
        let tests = tests.closed()?;
        Ok(with_due(head, tests, FilterDue::More))
    } else {
        at_end(head, tests, lexeme)
    }
}

#[tactic(auto, unfolding(crate::specs::Filter::op))]
fn op(head: Head, tests: Tests, sum: Sum, lexeme: &Lexeme) -> Result<Reading, StepFault>
    ensures { Gives result (spec.op head tests sum lexeme.now) }
{
    if lexeme.is_word(Keyword::Is) {
        return Ok(with_due(head, tests, FilterDue::Is { sum }));
    }
    match lexeme.op() {
        Some(op) => {
            let due = FilterDue::Right {
                left: sum,
                op,
                summing: Summing::First,
            };
            Ok(with_due(head, tests, due))
        }
        None => Err(StepFault::Unexpected),
    }
}

#[tactic(auto, unfolding(crate::specs::Filter::left))]
fn left(
    alloc: Global,
    head: Head,
    tests: Tests,
    summing: Summing,
    lexeme: &Lexeme,
) -> Result<Reading, StepFault>
    ensures { Gives result (spec.left head tests summing lexeme.now) }
{
    match summing.step(alloc, lexeme)? {
        SumStep::Goes { summing } => Ok(with_due(head, tests, FilterDue::Left { summing })),
        SumStep::Ends { sum } => op(head, tests, sum, lexeme),
    }
}

#[tactic(auto, unfolding(crate::specs::Filter::member))]
fn member(alloc: Global, head: Head, tests: Tests, lexeme: &Lexeme) -> Result<Reading, StepFault>
    ensures { Gives result (spec.member head tests lexeme.now) }
{
    if lexeme.is_word(Keyword::Not) {
        let tests = tests.with_not()?;
        Ok(with_due(head, tests, FilterDue::Member))
    } else if lexeme.is_sign(Sign::Open) {
        let tests = tests.opened()?;
        Ok(with_due(head, tests, FilterDue::Member))
    } else {
        left(alloc, head, tests, Summing::First, lexeme)
    }
}

#[tactic(auto, unfolding(crate::specs::Filter::null))]
fn null(
    head: Head,
    tests: Tests,
    sum: Sum,
    negated: bool,
    lexeme: &Lexeme,
) -> Result<Reading, StepFault>
    ensures { Gives result (spec.null head tests sum negated lexeme.now) }
{
    if !lexeme.is_word(Keyword::Null) {
        return Err(StepFault::Unexpected);
    }
    let tests = tests.with_test(Step::IsNull { sum, negated })?;
    Ok(with_due(head, tests, FilterDue::More))
}

fn is(head: Head, tests: Tests, sum: Sum, lexeme: &Lexeme) -> Result<Reading, StepFault>
    ensures { Gives result (spec.is head tests sum lexeme.now) }
{
    if lexeme.is_word(Keyword::Not) {
        Ok(with_due(head, tests, FilterDue::IsNot { sum }))
    } else {
        null(head, tests, sum, false, lexeme)
    }
}

#[tactic(auto, unfolding(crate::specs::Filter::compared))]
fn compared(head: Head, tests: Tests, step: Step, lexeme: &Lexeme) -> Result<Reading, StepFault>
    ensures { Gives result (spec.compared head tests step lexeme.now) }
{
    let tests = tests.with_test(step)?;
    more(head, tests, lexeme)
}

impl Filtering {
    #[tactic(auto, unfolding(crate::specs::Filter::next))]
    pub fn next(self, alloc: Global, lexeme: &Lexeme) -> Result<Reading, StepFault>
        ensures { Gives result (spec.next self lexeme.now) }
    {
        let Filtering { head, tests, due } = self;
        match due {
            FilterDue::Member => member(alloc, head, tests, lexeme),
            FilterDue::Left { summing } => left(alloc, head, tests, summing, lexeme),
            FilterDue::Is { sum } => is(head, tests, sum, lexeme),
            FilterDue::IsNot { sum } => null(head, tests, sum, true, lexeme),
            FilterDue::Right { left, op, summing } => match summing.step(alloc, lexeme)? {
                SumStep::Goes { summing } => {
                    Ok(with_due(head, tests, FilterDue::Right { left, op, summing }))
                }
                SumStep::Ends { sum } => {
                    let step = Step::Compare {
                        left,
                        op,
                        right: sum,
                    };
                    compared(head, tests, step, lexeme)
                }
            },
            FilterDue::More => more(head, tests, lexeme),
        }
    }
}
