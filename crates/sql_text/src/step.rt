//! What one lexeme is, where a statement has it.
ghost use Rattle.std.specs.Prelude.{◌≡◌, length, map, IfOk, Result};
ghost use Rattle.std.specs.Char.{to_ascii_lowercase, to_ascii_uppercase};
ghost use Rattle.sql_text.specs.Steps as spec;
ghost use Rattle.sql_text.specs.Steps.{Gives};

use crate::keyword::Keyword;
use crate::lexeme::{Lexeme, Sign};
use sql_value::{Name, Text};
use std::alloc::AllocError;

/// Why a lexeme is not read.
#[derive(Clone, Copy, Debug, PartialEq, Eq)]
pub enum StepFault {
    /// No statement has it there.
    Unexpected,
    /// A text may stand there, but this one has a fault in it.
    InText,
    Memory,
}

impl From<AllocError> for StepFault {
    ghost use Rattle.std.specs.Prelude.{◌≡◌};
    ghost use Rattle.sql_text.specs.declared.step.StepFault.TheVariants.{Memory};

    ghost from_gives = { λ _ e. e ≡ Memory };

    fn from(_: AllocError) -> StepFault {
        StepFault::Memory
    }
}

#[tactic(auto, unfolding(crate::specs::Steps::same_keyword))]
fn is_same_keyword(a: Keyword, b: Keyword) -> bool
    ensures { result ≡ spec.same_keyword a b }
{
    a == b
}

#[tactic(auto, unfolding(crate::specs::Steps::same_sign))]
fn is_same_sign(a: Sign, b: Sign) -> bool
    ensures { result ≡ spec.same_sign a b }
{
    a == b
}

impl Lexeme {
    pub fn is_word(&self, keyword: Keyword) -> bool
        ensures { result ≡ spec.is_word keyword self.now }
    {
        match self {
            Lexeme::Keyword(word) => is_same_keyword(*word, keyword),
            _ => false,
        }
    }

    pub fn is_sign(&self, sign: Sign) -> bool
        ensures { result ≡ spec.is_sign sign self.now }
    {
        match self {
            Lexeme::Sign(other) => is_same_sign(*other, sign),
            _ => false,
        }
    }

    pub fn is_end(&self) -> bool
        ensures { result ≡ spec.is_end self.now }
    {
        match self {
            Lexeme::End => true,
            _ => false,
        }
    }

    /// The name of a table, as it is written.
    #[tactic(auto, unfolding(crate::specs::Steps::name_in))]
    pub fn table(&self) -> Result<Name, StepFault>
        ensures { Gives result (spec.name_in self.now) }
    {
        match self {
            Lexeme::Name(name) => Ok(name.copy()?),
            _ => Err(StepFault::Unexpected),
        }
    }

    /// The name of a column or a savepoint, in lower case.
    #[tactic(auto, unfolding(crate::specs::Steps::column_in))]
    pub fn column(&self) -> Result<Name, StepFault>
        ensures { Gives result (spec.column_in self.now) }
    {
        let name = self.table()?;
        Ok(lower(name))
    }

    /// The name of an engine, in upper case.
    #[tactic(auto, unfolding(crate::specs::Steps::engine_in))]
    pub fn engine(&self) -> Result<Name, StepFault>
        ensures { Gives result (spec.engine_in self.now) }
    {
        let name = self.table()?;
        Ok(upper(name))
    }

    /// A text.
    #[tactic(auto, unfolding(crate::specs::Steps::text_in))]
    pub fn text(&self) -> Result<Text, StepFault>
        ensures { Gives result (spec.text_in self.now) }
    {
        match self {
            Lexeme::Text(text) => Ok(text.copy()?),
            Lexeme::BadText { .. } => Err(StepFault::InText),
            _ => Err(StepFault::Unexpected),
        }
    }
}

fn lower(name: Name) -> Name
    ensures { result ≡ map to_ascii_lowercase name }
{
    let _ = name.as_bytes();
    let mut bytes = name.into_bytes();
    bytes.make_ascii_lowercase();
    match Name::new(bytes) {
        Ok(name) => name,
        Err(_) => unreachable!(),
    }
}

fn upper(name: Name) -> Name
    ensures { result ≡ map to_ascii_uppercase name }
{
    let _ = name.as_bytes();
    let mut bytes = name.into_bytes();
    bytes.make_ascii_uppercase();
    match Name::new(bytes) {
        Ok(name) => name,
        Err(_) => unreachable!(),
    }
}
