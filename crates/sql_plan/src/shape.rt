//! Plans, and why there is none.
use row_format::{Schema, Value};
use sql_text::Statement;
use sql_value::Refusal;
use std::alloc::AllocError;

/// How the rows of a statement are found.
#[derive(Drop)]
pub enum Path {
    /// By this value of the key.
    Key(Value),
    /// All rows of the table, in their order.
    Scan,
    /// The rows are those of the statement itself.
    Rows,
}

/// What a statement is planned to. (This project's own.)
#[derive(Drop)]
pub struct Plan {
    pub path: Path,
    /// The statement.
    pub work: Statement,
    /// Of the table that the statement is about; of a CREATE, what it makes.
    pub schema: Schema,
}

/// Why a statement is not planned.
#[derive(Drop)]
pub enum PlanFault {
    /// It is refused, and no row was looked at.
    Refused(Refusal),
    Memory,
}

impl From<AllocError> for PlanFault {
    ghost use Rattle.std.specs.Prelude.{◌≡◌};
    ghost use Rattle.sql_plan.specs.declared.shape.PlanFault.TheVariants.{Memory};

    ghost from_gives = { λ _ e. e ≡ Memory };

    fn from(_: AllocError) -> PlanFault {
        PlanFault::Memory
    }
}
