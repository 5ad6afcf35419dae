// Why a call on a store is refused.
ghost use Rattle.std.specs.Prelude.{◌≡◌};
ghost use Rattle.store_files.specs.declared.refusals.StoreRefused.TheVariants as refused;
ghost use Rattle.store_files.specs.Attachments.{as_store};

use aria_base::{Failed, Memory};
use disk_model::LogRefused;
use std::alloc::AllocFailed;
use thiserror::Error;

/// A refused call on a store.
#[derive(Clone, Copy, Debug, PartialEq, Eq, Error)]
pub enum StoreRefused {
    #[error("no memory")]
    Memory,
    /// A call on the disk failed.
    #[error("the disk failed")]
    DiskFault,
    /// Neither slot's gate is open.
    #[error("no store")]
    NoStore,
    /// There is a store already.
    #[error("there is a store")]
    Exists,
    /// What stands at this offset of the file is not what was to be read there.
    #[error("file {file} is damaged at {at}")]
    Damaged { file: u8, at: u64 },
    /// The disk failed in an earlier call, after which its count of faults was this.
    #[error("closed after {faults} faults of the disk")]
    Closed { faults: u64 },
}

impl From<Failed> for StoreRefused {
    ghost from_gives = { λ _ e. e ≡ refused.DiskFault };

    fn from(_: Failed) -> StoreRefused {
        StoreRefused::DiskFault
    }
}

impl From<Memory> for StoreRefused {
    ghost from_gives = { λ _ e. e ≡ refused.Memory };

    fn from(_: Memory) -> StoreRefused {
        StoreRefused::Memory
    }
}

impl<T: Drop> From<AllocFailed<T>> for StoreRefused {
    ghost from_gives = { λ _ e. e ≡ refused.Memory };

    fn from(_: AllocFailed<T>) -> StoreRefused {
        StoreRefused::Memory
    }
}

impl From<LogRefused> for StoreRefused {
    ghost from_gives = { λ r e. e ≡ as_store r };

    fn from(file: LogRefused) -> StoreRefused {
        match file {
            LogRefused::Memory => StoreRefused::Memory,
            LogRefused::DiskFault => StoreRefused::DiskFault,
            LogRefused::Damaged { file, at } => StoreRefused::Damaged { file, at },
        }
    }
}
