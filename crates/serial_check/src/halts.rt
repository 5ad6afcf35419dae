// Why a check goes no further.
ghost use Rattle.std.specs.Prelude.{◌≡◌};
ghost use Rattle.serial_check.specs.declared.halts.Halt.TheVariants as halt;

use crate::findings::Flaw;
use aria_base::Memory;
use std::alloc::{AllocError, AllocFailed};

/// Why a check goes no further.
#[derive(Debug, Drop)]
pub(crate) enum Halt {
    /// There was no memory.
    Memory,
    /// The report does not hold.
    Flaw(Flaw),
}

impl From<Memory> for Halt {
    ghost from_gives = { λ _ made. made ≡ halt.Memory };

    fn from(_: Memory) -> Halt {
        Halt::Memory
    }
}

impl From<AllocError> for Halt {
    ghost from_gives = { λ _ made. made ≡ halt.Memory };

    fn from(_: AllocError) -> Halt {
        Halt::Memory
    }
}

impl<T: Drop> From<AllocFailed<T>> for Halt {
    ghost from_gives = { λ _ made. made ≡ halt.Memory };

    fn from(_: AllocFailed<T>) -> Halt {
        Halt::Memory
    }
}
