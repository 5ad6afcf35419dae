// Why a call on a file of the store is refused.
ghost use Rattle.std.specs.Prelude.{◌≡◌};
ghost use Rattle.disk_model.specs.declared.refusals.LogRefused.TheVariants as refused;

use aria_base::Failed;
use std::alloc::{AllocError, AllocFailed};
use thiserror::Error;

/// A refused call on one file of a disk: of a log, or of a checkpoint's slot.
#[derive(Clone, Copy, Debug, PartialEq, Eq, Error)]
pub enum LogRefused {
    #[error("no memory")]
    Memory,
    /// A call on the disk failed.
    #[error("the disk failed")]
    DiskFault,
    /// What stands at this offset of the file is not what was to be read there.
    #[error("file {file} is damaged at {at}")]
    Damaged { file: u8, at: u64 },
}

impl From<Failed> for LogRefused {
    ghost from_gives = { λ _ e. e ≡ refused.DiskFault };

    fn from(_: Failed) -> LogRefused {
        LogRefused::DiskFault
    }
}

impl From<AllocError> for LogRefused {
    ghost from_gives = { λ _ e. e ≡ refused.Memory };

    fn from(_: AllocError) -> LogRefused {
        LogRefused::Memory
    }
}

impl<T: Drop> From<AllocFailed<T>> for LogRefused {
    ghost from_gives = { λ _ e. e ≡ refused.Memory };

    fn from(_: AllocFailed<T>) -> LogRefused {
        LogRefused::Memory
    }
}
