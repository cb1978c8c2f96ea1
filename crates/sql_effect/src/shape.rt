//! What a statement is given, and what it does.
use engine_api::Flags;
use log_tables::{Rows, Tables};
use row_format::Changes;
use sql_text::ListOf;
use sql_value::{Name, Refusal, Text};
use std::alloc::AllocError;

/// What is known of an engine that was handed in. It is fixed.
#[derive(Drop)]
pub struct EngineFacts {
    pub name: Name,
    /// The name of its library.
    pub soname: Text,
    pub flags: Flags,
    /// Whether the rows of its tables are kept. Where they are not, an INSERT changes nothing but the log.
    pub keeps_rows: bool,
}

/// What a statement looks at: the tables with their rows, and the engines that are installed.
#[derive(Drop)]
pub struct View {
    pub tables: Tables,
    pub installed: ListOf<Name>,
}

/// Numbers of bytes that limits are asked of.
#[derive(Clone, Copy, Debug, PartialEq, Eq)]
pub struct Sizes {
    /// The live bytes of the engine that the statement uses.
    pub live: u64,
    /// The bytes in the log of the session's open transaction, where the statement joins one that has changes; else 0.
    pub open: u64,
}

/// What a statement does.
#[derive(Drop)]
pub struct Effect {
    /// The rows that a SELECT answers.
    pub rows: Rows,
    /// How many rows an INSERT, an UPDATE or a DELETE changes.
    pub count: u64,
    pub changes: Changes,
}

/// Why a statement does nothing.
#[derive(Drop)]
pub enum EffectFault {
    Refused(Refusal),
    Memory,
}

impl From<AllocError> for EffectFault {
    ghost use Rattle.std.specs.Prelude.{◌≡◌};
    ghost use Rattle.sql_effect.specs.declared.shape.EffectFault.TheVariants.{Memory};

    ghost from_gives = { λ _ e. e ≡ Memory };

    fn from(_: AllocError) -> EffectFault {
        EffectFault::Memory
    }
}

impl From<Refusal> for EffectFault {
    ghost use Rattle.std.specs.Prelude.{◌≡◌};
    ghost use Rattle.sql_effect.specs.declared.shape.EffectFault.TheVariants.{Refused};

    ghost from_gives = { λ refusal e. e ≡ Refused refusal };

    fn from(refusal: Refusal) -> EffectFault {
        EffectFault::Refused(refusal)
    }
}
