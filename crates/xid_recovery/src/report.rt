//! What a recovery answers.
ghost use Rattle.std.specs.Prelude.{◌≡◌};
ghost use Rattle.engine_api.specs.declared.fault.Code.{Code};
ghost use Rattle.engine_api.specs.declared.fault.EngineFault.TheVariants.{Code as code};
ghost use Rattle.xid_recovery.specs.Faults.{opened};

use engine_api::EngineFault;
use row_format::Name;

/// What was done of one engine: its name, the number of its last commit, and of how many xids that it had prepared it was told to
/// commit, and to roll back.
#[derive(Drop)]
pub struct EngineReport {
    pub name: Name,
    pub last: u64,
    pub committed: u64,
    pub rolled_back: u64,
}

/// Why a volume is not opened.
#[derive(Drop)]
pub enum OpenFault {
    /// The device failed.
    Device,
    /// This file is not what its format says.
    NotAVolume {
        file: u32,
    },
    /// The log names an engine that is not there.
    EngineMissing {
        name: Name,
    },
    /// The last number of this engine exceeds the log's.
    Ahead {
        engine: Name,
        engine_last: u64,
        log_last: u64,
    },
    /// There was no memory.
    Memory,
}

// The fault of an engine, as one of an opening. No code comes of the calls that an opening makes.
pub(crate) fn open_fault(fault: EngineFault) -> OpenFault
    requires no_code { (it : Code) → fault ≡ code it → ⊥ }
    ensures { result ≡ opened fault }
{
    match fault {
        EngineFault::Device => OpenFault::Device,
        EngineFault::NotAVolume { file } => OpenFault::NotAVolume { file },
        EngineFault::Memory => OpenFault::Memory,
        EngineFault::Code(_) => unreachable!(),
    }
}
