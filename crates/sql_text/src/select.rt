//! SELECT, up to its condition.
ghost use Rattle.std.specs.Prelude.{◌≡◌};
ghost use Rattle.sql_text.specs.Select as spec;
ghost use Rattle.sql_text.specs.Starts as starts;
ghost use Rattle.sql_text.specs.Steps.{Gives};

use crate::filter::Head;
use crate::keyword::Keyword;
use crate::lexeme::{Lexeme, Sign};
use crate::list::ListOf;
use crate::reading::Reading;
use crate::step::StepFault;
use sql_value::Name;
use std::alloc::Global;

/// A SELECT with its columns.
#[derive(Drop)]
pub struct Selecting {
    pub columns: ListOf<Name>,
    pub due: SelectDue,
}

/// What is due.
#[derive(Clone, Copy, Debug, PartialEq, Eq)]
pub enum SelectDue {
    /// `*` or a column.
    Columns,
    Column,
    /// `,` or FROM.
    More,
    /// FROM behind `*`.
    AllFrom,
    /// The table behind `* FROM`.
    AllTable,
    /// The table behind columns and FROM.
    Table,
}

/// A SELECT.
pub fn begin_select(alloc: Global) -> Reading
    ensures { result ≡ starts.selecting }
{
    Reading::Selecting(Selecting {
        columns: ListOf::new(alloc),
        due: SelectDue::Columns,
    })
}

impl Selecting {
    fn with_due(self, due: SelectDue) -> Reading
        ensures { result ≡ spec.with_due self due }
    {
        let Selecting { columns, due: _ } = self;
        Reading::Selecting(Selecting { columns, due })
    }

    #[tactic(auto, unfolding(crate::specs::Select::column))]
    fn column(self, lexeme: &Lexeme) -> Result<Reading, StepFault>
        ensures { Gives result (spec.column self lexeme.now) }
    {
        let column = lexeme.column()?;
        let Selecting {
            mut columns,
            due: _,
        } = self;
        columns.push(column)?;
        Ok(Reading::Selecting(Selecting {
            columns,
            due: SelectDue::More,
        }))
    }

    fn columns(self, lexeme: &Lexeme) -> Result<Reading, StepFault>
        ensures { Gives result (spec.columns self lexeme.now) }
    {
        if lexeme.is_sign(Sign::Star) {
            Ok(self.with_due(SelectDue::AllFrom))
        } else {
            self.column(lexeme)
        }
    }

    fn more(self, lexeme: &Lexeme) -> Result<Reading, StepFault>
        ensures { Gives result (spec.more self lexeme.now) }
    {
        if lexeme.is_sign(Sign::Comma) {
            Ok(self.with_due(SelectDue::Column))
        } else if lexeme.is_word(Keyword::From) {
            Ok(self.with_due(SelectDue::Table))
        } else {
            Err(StepFault::Unexpected)
        }
    }

    fn all_from(self, lexeme: &Lexeme) -> Result<Reading, StepFault>
        ensures { Gives result (spec.all_from self lexeme.now) }
    {
        if lexeme.is_word(Keyword::From) {
            Ok(self.with_due(SelectDue::AllTable))
        } else {
            Err(StepFault::Unexpected)
        }
    }

    #[tactic(auto, unfolding(crate::specs::Select::table))]
    fn table(self, lexeme: &Lexeme) -> Result<Reading, StepFault>
        ensures { Gives result (spec.table self lexeme.now) }
    {
        let table = lexeme.table()?;
        let Selecting { columns, due: _ } = self;
        Ok(Reading::Head(Head::Select {
            table,
            columns: Some(columns),
        }))
    }

    #[tactic(auto, unfolding(crate::specs::Select::next))]
    pub fn next(self, lexeme: &Lexeme) -> Result<Reading, StepFault>
        ensures { Gives result (spec.next self lexeme.now) }
    {
        match self.due {
            SelectDue::Columns => self.columns(lexeme),
            SelectDue::Column => self.column(lexeme),
            SelectDue::More => self.more(lexeme),
            SelectDue::AllFrom => self.all_from(lexeme),
            SelectDue::AllTable => all_table(lexeme),
            SelectDue::Table => self.table(lexeme),
        }
    }
}

#[tactic(auto, unfolding(crate::specs::Select::all_table))]
fn all_table(lexeme: &Lexeme) -> Result<Reading, StepFault>
    ensures { Gives result (spec.all_table lexeme.now) }
{
    let table = lexeme.table()?;
    Ok(Reading::Head(Head::Select {
        table,
        columns: None,
    }))
}
