//! Statements on transactions.
ghost use Rattle.std.specs.Prelude.{◌≡◌};
ghost use Rattle.sql_text.specs.Transactions as spec;
ghost use Rattle.sql_text.specs.Steps.{Gives};

use crate::keyword::Keyword;
use crate::lexeme::Lexeme;
use crate::reading::{Reading, whole};
use crate::statement::Statement;
use crate::step::StepFault;

/// The word or the name that is due, or may come.
#[derive(Clone, Copy, Debug, PartialEq, Eq)]
pub enum Transacting {
    /// WORK may follow BEGIN.
    BeginWork,
    StartTransaction,
    /// WORK may follow COMMIT.
    CommitWork,
    /// WORK or TO may follow ROLLBACK.
    RollbackWork,
    /// TO may follow ROLLBACK WORK.
    RollbackTo,
    /// SAVEPOINT or a name is due behind TO.
    ToSavepoint,
    ToName,
    SavepointName,
    ReleaseSavepoint,
    ReleaseName,
}

fn rollback_to(lexeme: &Lexeme) -> Result<Reading, StepFault>
    ensures { Gives result (spec.rollback_to lexeme.now) }
{
    if lexeme.is_word(Keyword::To) {
        Ok(Reading::Transacting(Transacting::ToSavepoint))
    } else {
        whole(Statement::Rollback, lexeme)
    }
}

#[tactic(auto, unfolding(crate::specs::Transactions::to_name))]
fn to_name(lexeme: &Lexeme) -> Result<Reading, StepFault>
    ensures { Gives result (spec.to_name lexeme.now) }
{
    let point = lexeme.column()?;
    Ok(Reading::Whole(Statement::RollbackTo { point }))
}

fn may_work(lexeme: &Lexeme, statement: Statement) -> Result<Reading, StepFault>
    ensures { Gives result (spec.may_work lexeme.now statement) }
{
    if lexeme.is_word(Keyword::Work) {
        Ok(Reading::Whole(statement))
    } else {
        whole(statement, lexeme)
    }
}

fn start_transaction(lexeme: &Lexeme) -> Result<Reading, StepFault>
    ensures { Gives result (spec.start_transaction lexeme.now) }
{
    if lexeme.is_word(Keyword::Transaction) {
        Ok(Reading::Whole(Statement::Begin))
    } else {
        Err(StepFault::Unexpected)
    }
}

fn release_savepoint(lexeme: &Lexeme) -> Result<Reading, StepFault>
    ensures { Gives result (spec.release_savepoint lexeme.now) }
{
    if lexeme.is_word(Keyword::Savepoint) {
        Ok(Reading::Transacting(Transacting::ReleaseName))
    } else {
        Err(StepFault::Unexpected)
    }
}

fn to_savepoint(lexeme: &Lexeme) -> Result<Reading, StepFault>
    ensures { Gives result (spec.to_savepoint lexeme.now) }
{
    if lexeme.is_word(Keyword::Savepoint) {
        Ok(Reading::Transacting(Transacting::ToName))
    } else {
        to_name(lexeme)
    }
}

fn rollback_work(lexeme: &Lexeme) -> Result<Reading, StepFault>
    ensures { Gives result (spec.rollback_work lexeme.now) }
{
    if lexeme.is_word(Keyword::Work) {
        Ok(Reading::Transacting(Transacting::RollbackTo))
    } else {
        rollback_to(lexeme)
    }
}

impl Transacting {
    #[tactic(auto, unfolding(crate::specs::Transactions::next))]
    pub fn next(self, lexeme: &Lexeme) -> Result<Reading, StepFault>
        ensures { Gives result (spec.next self lexeme.now) }
    {
        match self {
            Transacting::BeginWork => may_work(lexeme, Statement::Begin),
            Transacting::StartTransaction => start_transaction(lexeme),
            Transacting::CommitWork => may_work(lexeme, Statement::Commit),
            Transacting::RollbackWork => rollback_work(lexeme),
            Transacting::RollbackTo => rollback_to(lexeme),
            Transacting::ToSavepoint => to_savepoint(lexeme),
            Transacting::ToName => to_name(lexeme),
            Transacting::SavepointName => {
                let point = lexeme.column()?;
                Ok(Reading::Whole(Statement::Savepoint { point }))
            }
            Transacting::ReleaseSavepoint => release_savepoint(lexeme),
            Transacting::ReleaseName => {
                let point = lexeme.column()?;
                Ok(Reading::Whole(Statement::Release { point }))
            }
        }
    }
}
