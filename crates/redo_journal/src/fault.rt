//! Why a call of the journal was refused.
ghost use Rattle.std.specs.Prelude.{◌≡◌};
ghost use Rattle.redo_journal.specs.declared.fault.JournalFault.TheVariants.{Device, Memory};

use disk_model::Failed;
use std::alloc::AllocError;
use thiserror::Error;

/// Why a call of the journal was refused.
#[derive(Clone, Copy, Debug, PartialEq, Eq, Error)]
pub enum JournalFault {
    /// The device failed. The journal is only dropped then, or opened again from the volume.
    #[error("the device failed")]
    Device,
    /// The files of the journal are none: this one, the first, has more than 32 bytes, or an area is wanted that is not there.
    #[error("file {file} begins no journal")]
    NotAVolume { file: u32 },
    /// There was no memory.
    #[error("no memory")]
    Memory,
}

impl From<Failed> for JournalFault {
    ghost from_gives = { λ _ e. e ≡ Device };

    fn from(_: Failed) -> Self {
        JournalFault::Device
    }
}

impl From<AllocError> for JournalFault {
    ghost from_gives = { λ _ e. e ≡ Memory };

    fn from(_: AllocError) -> Self {
        JournalFault::Memory
    }
}
