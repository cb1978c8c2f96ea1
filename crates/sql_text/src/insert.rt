//! INSERT: rows of literals.
//!
//! VALUES --`(`--> values with commas --`)`--> `,` and a further row, or the end of the statement.
ghost use Rattle.std.specs.Prelude.{◌≡◌};
ghost use Rattle.sql_text.specs.Insert as spec;
ghost use Rattle.sql_text.specs.Starts as starts;
ghost use Rattle.sql_text.specs.Steps.{Gives};

use crate::keyword::Keyword;
use crate::lexeme::{Lexeme, Sign};
use crate::list::ListOf;
use crate::reading::{Reading, whole};
use crate::statement::{Literal, Literals, Statement};
use crate::step::StepFault;
use sql_value::Name;
use std::alloc::Global;

/// An INSERT with its table: the rows, and the values of the row that is being read.
#[derive(Drop)]
pub struct Inserting {
    pub table: Name,
    pub rows: ListOf<Literals>,
    pub values: ListOf<Literal>,
    pub due: InsertDue,
}

/// What is due.
#[derive(Clone, Copy, Debug, PartialEq, Eq)]
pub enum InsertDue {
    /// VALUES.
    Values,
    /// `(`
    Open,
    Value,
    /// A number behind its `-`.
    Number,
    /// `,` or `)`
    More,
    /// `,` or the end of the statement.
    Rows,
}

/// An INSERT into this table.
pub fn begin_insert(alloc: Global, table: Name) -> Reading
    ensures { result ≡ starts.inserting table }
{
    Reading::Inserting(Inserting {
        table,
        rows: ListOf::new(alloc),
        values: ListOf::new(alloc),
        due: InsertDue::Values,
    })
}

impl Inserting {
    fn with_due(self, due: InsertDue) -> Reading
        ensures { result ≡ spec.with_due self due }
    {
        let Inserting {
            table,
            rows,
            values,
            due: _,
        } = self;
        Reading::Inserting(Inserting {
            table,
            rows,
            values,
            due,
        })
    }

    fn with_value(self, value: Literal) -> Result<Reading, StepFault>
        ensures { Gives result (spec.with_value self value) }
    {
        let Inserting {
            table,
            rows,
            mut values,
            due: _,
        } = self;
        values.push(value)?;
        Ok(Reading::Inserting(Inserting {
            table,
            rows,
            values,
            due: InsertDue::More,
        }))
    }

    fn with_row(self, alloc: Global) -> Result<Reading, StepFault>
        ensures { Gives result (spec.with_row self) }
    {
        let Inserting {
            table,
            mut rows,
            values,
            due: _,
        } = self;
        rows.push(Literals { values })?;
        Ok(Reading::Inserting(Inserting {
            table,
            rows,
            values: ListOf::new(alloc),
            due: InsertDue::Rows,
        }))
    }

    #[tactic(auto, unfolding(crate::specs::Insert::value))]
    fn value(self, lexeme: &Lexeme) -> Result<Reading, StepFault>
        ensures { Gives result (spec.value self lexeme.now) }
    {
        if lexeme.is_tight() {
            return Ok(self.with_due(InsertDue::Number));
        }
        let value = lexeme.literal()?;
        self.with_value(value)
    }

    #[tactic(auto, unfolding(crate::specs::Insert::number))]
    fn number(self, lexeme: &Lexeme) -> Result<Reading, StepFault>
        ensures { Gives result (spec.number self lexeme.now) }
    {
        let number = lexeme.negative()?;
        self.with_value(Literal::Int(number))
    }

    fn more(self, alloc: Global, lexeme: &Lexeme) -> Result<Reading, StepFault>
        ensures { Gives result (spec.more self lexeme.now) }
    {
        if lexeme.is_sign(Sign::Comma) {
            Ok(self.with_due(InsertDue::Value))
        } else if lexeme.is_sign(Sign::Close) {
            self.with_row(alloc)
        } else {
            Err(StepFault::Unexpected)
        }
    }

    fn after_row(self, lexeme: &Lexeme) -> Result<Reading, StepFault>
        ensures { Gives result (spec.after_row self lexeme.now) }
    {
        if lexeme.is_sign(Sign::Comma) {
            return Ok(self.with_due(InsertDue::Open));
        }
        let Inserting { table, rows, .. } = self;
        whole(Statement::Insert { table, rows }, lexeme)
    }

    #[tactic(auto, unfolding(crate::specs::Insert::next))]
    pub fn next(self, alloc: Global, lexeme: &Lexeme) -> Result<Reading, StepFault>
        ensures { Gives result (spec.next self lexeme.now) }
    {
        match self.due {
            InsertDue::Values if lexeme.is_word(Keyword::Values) => {
                Ok(self.with_due(InsertDue::Open))
            }
            InsertDue::Open if lexeme.is_sign(Sign::Open) => Ok(self.with_due(InsertDue::Value)),
            InsertDue::Values | InsertDue::Open => Err(StepFault::Unexpected),
            InsertDue::Value => self.value(lexeme),
            InsertDue::Number => self.number(lexeme),
            InsertDue::More => self.more(alloc, lexeme),
            InsertDue::Rows => self.after_row(lexeme),
        }
    }
}
