//! The first words of statements on tables.
ghost use Rattle.std.specs.Prelude.{◌≡◌};
ghost use Rattle.sql_text.specs.Opening as spec;
ghost use Rattle.sql_text.specs.Steps.{Gives};

use crate::create::begin_create;
use crate::filter::Head;
use crate::insert::begin_insert;
use crate::keyword::Keyword;
use crate::lexeme::Lexeme;
use crate::reading::Reading;
use crate::statement::Statement;
use crate::step::StepFault;
use crate::update::begin_update;
use sql_value::Name;
use std::alloc::Global;

/// The word or the name that is due.
#[derive(Drop)]
pub enum Opening {
    /// TABLE of a CREATE.
    CreateTable,
    CreateName,
    /// TABLE of a DROP.
    DropTable,
    DropName,
    /// INTO of an INSERT.
    InsertInto,
    InsertName,
    UpdateName,
    /// SET of an UPDATE.
    UpdateSet { table: Name },
    /// FROM of a DELETE.
    DeleteFrom,
    DeleteName,
}

// This word, and what has been read then.
fn after_word(lexeme: &Lexeme, word: Keyword, opening: Opening) -> Result<Reading, StepFault>
    ensures { Gives result (spec.after_word lexeme.now word opening) }
{
    if lexeme.is_word(word) {
        Ok(Reading::Opening(opening))
    } else {
        Err(StepFault::Unexpected)
    }
}

// The name of the table, and what has been read then.
fn after_name(alloc: Global, opening: Opening, table: Name) -> Result<Reading, StepFault>
    ensures { Gives result (spec.after_name opening table) }
{
    match opening {
        Opening::CreateName => Ok(begin_create(alloc, table)),
        Opening::DropName => Ok(Reading::Whole(Statement::Drop { table })),
        Opening::InsertName => Ok(begin_insert(alloc, table)),
        Opening::UpdateName => Ok(Reading::Opening(Opening::UpdateSet { table })),
        Opening::DeleteName => Ok(Reading::Head(Head::Delete { table })),
        _ => Err(StepFault::Unexpected),
    }
}

// A name, where one is due.
fn named(alloc: Global, lexeme: &Lexeme, opening: Opening) -> Result<Reading, StepFault>
    ensures { Gives result (spec.named opening lexeme.now) }
{
    let table = lexeme.table()?;
    after_name(alloc, opening, table)
}

impl Opening {
    #[tactic(auto, unfolding(crate::specs::Opening::next))]
    pub fn next(self, alloc: Global, lexeme: &Lexeme) -> Result<Reading, StepFault>
        ensures { Gives result (spec.next self lexeme.now) }
    {
        match self {
            Opening::CreateTable => after_word(lexeme, Keyword::Table, Opening::CreateName),
            Opening::DropTable => after_word(lexeme, Keyword::Table, Opening::DropName),
            Opening::InsertInto => after_word(lexeme, Keyword::Into, Opening::InsertName),
            Opening::DeleteFrom => after_word(lexeme, Keyword::From, Opening::DeleteName),
            Opening::UpdateSet { table } => {
                if lexeme.is_word(Keyword::Set) {
                    Ok(begin_update(alloc, table))
                } else {
                    Err(StepFault::Unexpected)
                }
            }
            Opening::CreateName => named(alloc, lexeme, Opening::CreateName),
            Opening::DropName => named(alloc, lexeme, Opening::DropName),
            Opening::InsertName => named(alloc, lexeme, Opening::InsertName),
            Opening::UpdateName => named(alloc, lexeme, Opening::UpdateName),
            Opening::DeleteName => named(alloc, lexeme, Opening::DeleteName),
        }
    }
}
