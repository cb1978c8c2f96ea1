//! UPDATE, up to its condition.
ghost use Rattle.std.specs.Prelude.{◌≡◌};
ghost use Rattle.sql_text.specs.Starts as starts;
ghost use Rattle.sql_text.specs.Update as spec;
ghost use Rattle.sql_text.specs.Steps.{Gives};

use crate::filter::Head;
use crate::lexeme::{Lexeme, Sign};
use crate::list::ListOf;
use crate::reading::Reading;
use crate::statement::Assign;
use crate::step::StepFault;
use crate::sum::{SumStep, Summing};
use sql_value::Name;
use std::alloc::Global;

/// An UPDATE with its table and the columns that it sets.
#[derive(Drop)]
pub struct Updating {
    pub table: Name,
    pub sets: ListOf<Assign>,
    pub due: UpdateDue,
}

/// What is due.
#[derive(Drop)]
pub enum UpdateDue {
    Column,
    /// `=` behind this column.
    Equal { column: Name },
    /// A part of the sum for this column.
    Sum { column: Name, summing: Summing },
}

/// An UPDATE of this table.
pub fn begin_update(alloc: Global, table: Name) -> Reading
    ensures { result ≡ starts.updating table }
{
    with_due(table, ListOf::new(alloc), UpdateDue::Column)
}

fn with_due(table: Name, sets: ListOf<Assign>, due: UpdateDue) -> Reading
    ensures { result ≡ spec.with_due table sets due }
{
    Reading::Updating(Updating { table, sets, due })
}

#[tactic(auto, unfolding(crate::specs::Update::column))]
fn column(table: Name, sets: ListOf<Assign>, lexeme: &Lexeme) -> Result<Reading, StepFault>
    ensures { Gives result (spec.column table sets lexeme.now) }
{
    let column = lexeme.column()?;
    Ok(with_due(table, sets, UpdateDue::Equal { column }))
}

fn equal(
    table: Name,
    sets: ListOf<Assign>,
    column: Name,
    lexeme: &Lexeme,
) -> Result<Reading, StepFault>
    ensures { Gives result (spec.equal table sets column lexeme.now) }
{
    if lexeme.is_sign(Sign::Equal) {
        let summing = Summing::First;
        Ok(with_due(table, sets, UpdateDue::Sum { column, summing }))
    } else {
        Err(StepFault::Unexpected)
    }
}

fn after_set(
    alloc: Global,
    table: Name,
    sets: ListOf<Assign>,
    lexeme: &Lexeme,
) -> Result<Reading, StepFault>
    ensures { Gives result (spec.after_set table sets lexeme.now) }
{
    if lexeme.is_sign(Sign::Comma) {
        Ok(with_due(table, sets, UpdateDue::Column))
    } else {
        Head::Update { table, sets }.next(alloc, lexeme)
    }
}

fn with_set(
    alloc: Global,
    table: Name,
    mut sets: ListOf<Assign>,
    assign: Assign,
    lexeme: &Lexeme,
) -> Result<Reading, StepFault>
    ensures { Gives result (spec.with_set table sets assign lexeme.now) }
{
    sets.push(assign)?;
    after_set(alloc, table, sets, lexeme)
}

impl Updating {
    #[tactic(auto, unfolding(crate::specs::Update::next))]
    pub fn next(self, alloc: Global, lexeme: &Lexeme) -> Result<Reading, StepFault>
        ensures { Gives result (spec.next self lexeme.now) }
    {
        let Updating { table, sets, due } = self;
        match due {
            UpdateDue::Column => column(table, sets, lexeme),
            UpdateDue::Equal { column } => equal(table, sets, column, lexeme),
            UpdateDue::Sum { column, summing } => match summing.step(alloc, lexeme)? {
                SumStep::Goes { summing } => {
                    Ok(with_due(table, sets, UpdateDue::Sum { column, summing }))
                }
                SumStep::Ends { sum } => {
                    with_set(alloc, table, sets, Assign { column, sum }, lexeme)
                }
            },
        }
    }
}
