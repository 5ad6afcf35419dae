// Why a reading of JSON gives nothing.
ghost use Rattle.std.specs.Prelude.{◌≡◌};
ghost use Rattle.cat_read.specs.declared.faults.Fault.TheVariants as fault;

use aria_base::Memory;
use proc_lang::Path;
use std::alloc::{AllocError, AllocFailed};

/// Why there is no reading.
#[derive(Debug, Drop)]
pub enum Fault {
    /// There was no memory.
    Memory,
    /// This place is the first in the walk that does not have the stated form.
    Shape(Path),
}

impl From<Memory> for Fault {
    ghost from_gives = { λ _ made. made ≡ fault.Memory };

    fn from(_: Memory) -> Fault {
        Fault::Memory
    }
}

impl From<AllocError> for Fault {
    ghost from_gives = { λ _ made. made ≡ fault.Memory };

    fn from(_: AllocError) -> Fault {
        Fault::Memory
    }
}

impl<T: Drop> From<AllocFailed<T>> for Fault {
    ghost from_gives = { λ _ made. made ≡ fault.Memory };

    fn from(_: AllocFailed<T>) -> Fault {
        Fault::Memory
    }
}
