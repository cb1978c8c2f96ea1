//! Why a call of a registry was refused. The numbers from 9001 on are this project's, 1286 is of MySQL 5.7 Error Message Reference.
ghost use Rattle.std.specs.Prelude.{◌≡◌};
ghost use Rattle.plugin_registry.specs.declared.fault.InstallFault.TheVariants.{Memory as no_memory_to_install};
ghost use Rattle.plugin_registry.specs.declared.fault.GetFault.TheVariants.{Memory as no_memory_to_get};

use std::alloc::{AllocError, AllocFailed};

/// Why a plugin was not installed.
#[derive(Clone, Copy, Debug, PartialEq, Eq)]
pub enum InstallFault {
    /// 9001: the plugin is installed.
    Installed,
    /// 9002: the plugin is dying.
    Dying,
    /// 9005: the plugin slots of this opening are spent.
    SlotsSpent,
    /// There was no memory. All is as it was.
    Memory,
}

impl From<AllocError> for InstallFault {
    ghost from_gives = { λ _ e. e ≡ no_memory_to_install };

    fn from(_: AllocError) -> Self {
        InstallFault::Memory
    }
}

impl<T: Drop> From<AllocFailed<T>> for InstallFault {
    ghost from_gives = { λ _ e. e ≡ no_memory_to_install };

    fn from(_: AllocFailed<T>) -> Self {
        InstallFault::Memory
    }
}

/// Why a plugin was not got.
#[derive(Clone, Copy, Debug, PartialEq, Eq)]
pub enum GetFault {
    /// 1286: the name is not that of a live plugin, and the holder has none of it.
    UnknownEngine,
    /// There was no memory. All is as it was.
    Memory,
}

impl From<AllocError> for GetFault {
    ghost from_gives = { λ _ e. e ≡ no_memory_to_get };

    fn from(_: AllocError) -> Self {
        GetFault::Memory
    }
}

impl<T: Drop> From<AllocFailed<T>> for GetFault {
    ghost from_gives = { λ _ e. e ≡ no_memory_to_get };

    fn from(_: AllocFailed<T>) -> Self {
        GetFault::Memory
    }
}

/// Why the uninstall of a plugin was not accepted.
#[derive(Clone, Copy, Debug, PartialEq, Eq)]
pub enum UninstallFault {
    /// 9002: the plugin is dying.
    Dying,
    /// 9004: the plugin is not installed.
    NotInstalled,
}
