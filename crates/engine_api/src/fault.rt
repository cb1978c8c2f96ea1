//! Why a call of an engine was refused.
ghost use Rattle.std.specs.Prelude.{◌≡◌};
ghost use Rattle.engine_api.specs.Codes.{code_number};
ghost use Rattle.engine_api.specs.declared.fault.EngineFault.TheVariants.{Memory};

use std::alloc::AllocError;

/// The handler codes that are used. (MySQL Internals Manual, "Custom Engines"; the numbers are those of `my_base.h`.)
#[derive(Clone, Copy, Debug, PartialEq, Eq)]
pub enum Code {
    /// 120: no row has this key, or no row stands at this place.
    KeyNotFound,
    /// 121: a row has this key.
    Duplicate,
    /// 135: the engine's live bytes, or its journal, would pass their limit.
    Full,
    /// 137: no row stands at the cursor's position, or none has a greater key.
    EndOfFile,
}

impl Code {
    /// Its number.
    pub fn number(self) -> u16
        ensures { result ≡ code_number self }
    {
        match self {
            Code::KeyNotFound => 120,
            Code::Duplicate => 121,
            Code::Full => 135,
            Code::EndOfFile => 137,
        }
    }
}

/// Why a call of an engine was refused.
#[derive(Clone, Copy, Debug, PartialEq, Eq)]
pub enum EngineFault {
    /// A handler code.
    Code(Code),
    /// The device failed. The engine is only dropped then, or begun anew by `init`.
    Device,
    /// This file of the engine is not what its format says.
    NotAVolume { file: u32 },
    /// There was no memory. All is as it was, unless the call was `init`.
    Memory,
}

impl From<AllocError> for EngineFault {
    ghost from_gives = { λ _ e. e ≡ Memory };

    fn from(_: AllocError) -> Self {
        EngineFault::Memory
    }
}
