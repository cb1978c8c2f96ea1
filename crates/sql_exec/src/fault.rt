//! Why a statement is not carried out.
ghost use Rattle.std.specs.Prelude.{◌≡◌};
ghost use Rattle.sql_exec.specs.declared.fault.ExecFault.TheVariants.{Memory};

use sql_value::Refusal;
use std::alloc::AllocError;

/// Why a statement is not carried out.
#[derive(Drop)]
pub enum ExecFault {
    /// It is refused, and all is as it was.
    Refused(Refusal),
    /// The device failed. The engine is only dropped then, or begun anew.
    Device,
    /// This file of the engine is not what its format says.
    NotAVolume { file: u32 },
    /// There was no memory, and all is as it was.
    Memory,
}

impl From<AllocError> for ExecFault {
    ghost from_gives = { λ _ e. e ≡ Memory };

    fn from(_: AllocError) -> ExecFault {
        ExecFault::Memory
    }
}
