//! A statement is read lexeme by lexeme.
//!
//! `Start` --first word--> the parts of its statement --the last of them--> `Whole` --`;`--> `Closed` --the end--> `Done`.
//! A whole statement may also end at once. Each arrow is `Reading::next`.
ghost use Rattle.std.specs.Prelude.{◌≡◌};
ghost use Rattle.sql_text.specs.Reading as spec;
ghost use Rattle.sql_text.specs.Steps.{Gives};
ghost use Rattle.sql_text.specs.Whole as ends;

use crate::create::Creating;
use crate::filter::{Filtering, Head};
use crate::insert::Inserting;
use crate::keyword::Keyword;
use crate::lexeme::{Lexeme, Sign};
use crate::opening::Opening;
use crate::plugin::Plugging;
use crate::select::{Selecting, begin_select};
use crate::statement::Statement;
use crate::step::StepFault;
use crate::transaction::Transacting;
use crate::update::Updating;
use std::alloc::Global;

/// What has been read of a statement.
#[derive(Drop)]
pub enum Reading {
    /// Nothing.
    Start,
    /// The first words of a statement on a table.
    Opening(Opening),
    /// A part of a statement on transactions.
    Transacting(Transacting),
    /// A part of a statement on plugins.
    Plugging(Plugging),
    Creating(Creating),
    Inserting(Inserting),
    Selecting(Selecting),
    Updating(Updating),
    /// All but a condition.
    Head(Head),
    /// A part of a condition.
    Filtering(Filtering),
    /// All of it.
    Whole(Statement),
    /// All of it, and the `;`.
    Closed(Statement),
    /// All of it, and the end of the text.
    Done(Statement),
}

fn start_word(alloc: Global, word: Keyword) -> Result<Reading, StepFault>
    ensures { Gives result (spec.start_word word) }
{
    match word {
        Keyword::Create => Ok(Reading::Opening(Opening::CreateTable)),
        Keyword::Drop => Ok(Reading::Opening(Opening::DropTable)),
        Keyword::Insert => Ok(Reading::Opening(Opening::InsertInto)),
        Keyword::Select => Ok(begin_select(alloc)),
        Keyword::Update => Ok(Reading::Opening(Opening::UpdateName)),
        Keyword::Delete => Ok(Reading::Opening(Opening::DeleteFrom)),
        Keyword::Begin => Ok(Reading::Transacting(Transacting::BeginWork)),
        Keyword::Start => Ok(Reading::Transacting(Transacting::StartTransaction)),
        Keyword::Commit => Ok(Reading::Transacting(Transacting::CommitWork)),
        Keyword::Rollback => Ok(Reading::Transacting(Transacting::RollbackWork)),
        Keyword::Savepoint => Ok(Reading::Transacting(Transacting::SavepointName)),
        Keyword::Release => Ok(Reading::Transacting(Transacting::ReleaseSavepoint)),
        Keyword::Install => Ok(Reading::Plugging(Plugging::InstallPlugin)),
        Keyword::Uninstall => Ok(Reading::Plugging(Plugging::UninstallPlugin)),
        _ => Err(StepFault::Unexpected),
    }
}

#[tactic(auto, unfolding(crate::specs::Reading::start))]
fn start(alloc: Global, lexeme: &Lexeme) -> Result<Reading, StepFault>
    ensures { Gives result (spec.start lexeme.now) }
{
    match lexeme {
        Lexeme::Keyword(word) => start_word(alloc, *word),
        _ => Err(StepFault::Unexpected),
    }
}

/// What follows a whole statement: `;` or the end.
pub fn whole(statement: Statement, lexeme: &Lexeme) -> Result<Reading, StepFault>
    ensures { Gives result (ends.whole statement lexeme.now) }
{
    if lexeme.is_sign(Sign::Semicolon) {
        Ok(Reading::Closed(statement))
    } else {
        closed(statement, lexeme)
    }
}

fn closed(statement: Statement, lexeme: &Lexeme) -> Result<Reading, StepFault>
    ensures { Gives result (ends.closed statement lexeme.now) }
{
    if lexeme.is_end() {
        Ok(Reading::Done(statement))
    } else {
        Err(StepFault::Unexpected)
    }
}

impl Reading {
    /// What has been read once this lexeme is.
    ///
    /// `Unexpected` and `InText` exactly where no statement has it there, `Memory` for want of memory.
    #[tactic(auto, unfolding(crate::specs::Reading::next))]
    pub fn next(self, alloc: Global, lexeme: &Lexeme) -> Result<Reading, StepFault>
        ensures { Gives result (spec.next self lexeme.now) }
    {
        match self {
            Reading::Start => start(alloc, lexeme),
            Reading::Opening(opening) => opening.next(alloc, lexeme),
            Reading::Transacting(transacting) => transacting.next(lexeme),
            Reading::Plugging(plugging) => plugging.next(lexeme),
            Reading::Creating(creating) => creating.next(lexeme),
            Reading::Inserting(inserting) => inserting.next(alloc, lexeme),
            Reading::Selecting(selecting) => selecting.next(lexeme),
            Reading::Updating(updating) => updating.next(alloc, lexeme),
            Reading::Head(head) => head.next(alloc, lexeme),
            Reading::Filtering(filtering) => filtering.next(alloc, lexeme),
            Reading::Whole(statement) => whole(statement, lexeme),
            Reading::Closed(statement) => closed(statement, lexeme),
            Reading::Done(_) => Err(StepFault::Unexpected),
        }
    }
}
