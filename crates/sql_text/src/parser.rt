//! A statement from its text.
ghost use Rattle.std.specs.Prelude.{◌≡◌, ◌⊎◌, ◌≤◌, ◌<◌, ℕ, length, IsTrue};
ghost use Rattle.sql_text.specs.Run.{run, refusal_of, text_place, ends_last, ReadsAs};
ghost use Rattle.sql_text.specs.Statements.{Spells, HasFault, Parses};
ghost use Rattle.sql_text.specs.Tokens.{tokens_of};
ghost use Rattle.sql_text.specs.declared.statement.Statement.{Statement};
ghost use Rattle.sql_text.specs.declared.reading.Reading.TheVariants.{Start};

use crate::lexeme::Lexeme;
use crate::reading::Reading;
use crate::statement::Statement;
use crate::step::StepFault;
use crate::token::{Token, tokens};
use sql_value::Refusal;
use std::alloc::{AllocError, Global};

/// Why a text is not read.
#[derive(Debug, Drop)]
pub enum ParseFault {
    /// `StatementTooLong`, or `Syntax` with the place of the fault.
    Refused(Refusal),
    Memory,
}

impl From<AllocError> for ParseFault {
    ghost use Rattle.std.specs.Prelude.{◌≡◌};
    ghost use Rattle.sql_text.specs.declared.parser.ParseFault.TheVariants.{Memory};

    ghost from_gives = { λ _ e. e ≡ Memory };

    fn from(_: AllocError) -> ParseFault {
        ParseFault::Memory
    }
}

// Where the fault in a text stands, or the token where no text may stand.
fn text_place(token: &Token) -> u32
    ensures { result ≡ text_place token.now.at token.now.lexeme }
{
    match token.lexeme {
        Lexeme::BadText { fault } => fault,
        _ => token.at,
    }
}

fn refusal(token: &Token, fault: StepFault) -> ParseFault
    ensures { result ≡ refusal_of token.now fault }
{
    match fault {
        StepFault::Unexpected => ParseFault::Refused(Refusal::Syntax { at: token.at }),
        StepFault::InText => ParseFault::Refused(Refusal::Syntax {
            at: text_place(token),
        }),
        StepFault::Memory => ParseFault::Memory,
    }
}

fn read(alloc: Global, tokens: &[Token]) -> Result<Statement, ParseFault>
    requires { IsTrue (ends_last tokens.now) }
    ensures { ReadsAs result (run Start tokens.now) }
{
    let mut reading = Reading::Start;
    let mut rest = tokens;
    while let [token, behind @ ..] = rest {
        match reading.next(alloc, &token.lexeme) {
            Ok(next) => reading = next,
            Err(fault) => return Err(refusal(token, fault)),
        }
        rest = behind;
    }
    match reading {
        Reading::Done(statement) => Ok(statement),
        _ => unreachable!(),
    }
}

fn read_text(alloc: Global, bytes: &[u8]) -> Result<Statement, ParseFault>
    requires { length bytes.now ≤ 65536 }
    ensures { ReadsAs result (run Start (tokens_of bytes.now)) }
{
    let tokens = tokens(alloc, bytes)?;
    read(alloc, &tokens)
}

/// The statement that a text spells.
///
/// `StatementTooLong` exactly where the text has more than 65,536 bytes. Otherwise `Syntax` exactly where it spells no statement,
/// with the byte where the first token begins that no statement has there. `Memory` for want of memory.
pub fn parse(alloc: Global, bytes: &[u8]) -> Result<Statement, ParseFault>
    // A statement that is spelt, or why none is.
    ensures answer { Parses bytes.now result }
    ensures too_long { 65536 < length bytes.now
        → result ≡ Err (ParseFault.Refused Refusal.StatementTooLong) }
    // What is spelt is read, unless memory runs out.
    ensures only { (statement : Statement) → length bytes.now ≤ 65536 → Spells bytes.now statement
        → (result ≡ Ok statement) ⊎ (result ≡ Err ParseFault.Memory) }
    ensures one { (a b : Statement) → Spells bytes.now a → Spells bytes.now b → a ≡ b }
    // A text with a fault is refused for it, unless memory runs out.
    ensures syntax { (at : ℕ) → length bytes.now ≤ 65536 → HasFault bytes.now at
        → (result ≡ Err (ParseFault.Refused (Refusal.Syntax at))) ⊎ (result ≡ Err ParseFault.Memory) }
    ensures one_place { (a b : ℕ) → HasFault bytes.now a → HasFault bytes.now b → a ≡ b }
{
    if bytes.len() > 65536 {
        return Err(ParseFault::Refused(Refusal::StatementTooLong));
    }
    read_text(alloc, bytes)
}
