//! Why a log is not opened.
ghost use Rattle.std.specs.Prelude.{◌≡◌};
ghost use Rattle.binlog_file.specs.declared.fault.BinlogFault.TheVariants.{Device, Memory};

use disk_model::Failed;
use std::alloc::AllocError;
use thiserror::Error;

/// Why an opening was refused.
#[derive(Clone, Copy, Debug, PartialEq, Eq, Error)]
pub enum BinlogFault {
    /// The device failed: its count of faults rose.
    #[error("the device failed")]
    Device,
    /// The file has more than 32 bytes and no valid header.
    #[error("file {file} is no log")]
    NotAVolume {
        /// The file's number: 0, the log.
        file: u32,
    },
    /// There was no memory.
    #[error("no memory")]
    Memory,
}

impl From<Failed> for BinlogFault {
    ghost from_gives = { λ _ e. e ≡ Device };

    fn from(_: Failed) -> Self {
        BinlogFault::Device
    }
}

impl From<AllocError> for BinlogFault {
    ghost from_gives = { λ _ e. e ≡ Memory };

    fn from(_: AllocError) -> Self {
        BinlogFault::Memory
    }
}
