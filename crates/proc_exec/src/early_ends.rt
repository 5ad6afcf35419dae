// Why an evaluation or a run stops early.
ghost use Rattle.std.specs.Prelude.{◌≡◌};
ghost use Rattle.proc_exec.specs.declared.early_ends.EvalFault.TheVariants as fault;
ghost use Rattle.proc_exec.specs.declared.early_ends.RunStop.TheVariants as stop;
ghost use Rattle.proc_exec.specs.Faults.{stop_of};

use aria_base::{Key, Memory};
use proc_lang::Trap;
use std::alloc::{AllocError, AllocFailed};

/// Why an evaluation has no value.
#[derive(Clone, Copy, Debug, PartialEq, Eq)]
pub enum EvalFault {
    /// There was no memory.
    Memory,
    /// The run is to end with this trap.
    Trap(Trap),
}

/// Why a run goes no further.
#[derive(Debug, Drop, PartialEq, Eq)]
pub enum RunStop {
    /// There was no memory.
    Memory,
    /// It ends by its own failure, with this code.
    Back(u16),
    /// It ends with this trap.
    Trap(Trap),
    /// Its next access, of this key, is not declared. The key stands apart, so that each step hands on a
    /// few bytes.
    Moved(Box<Key>),
}

impl From<Memory> for EvalFault {
    ghost from_gives = { λ _ made. made ≡ fault.Memory };

    fn from(_: Memory) -> EvalFault {
        EvalFault::Memory
    }
}

impl From<AllocError> for EvalFault {
    ghost from_gives = { λ _ made. made ≡ fault.Memory };

    fn from(_: AllocError) -> EvalFault {
        EvalFault::Memory
    }
}

impl<T: Drop> From<AllocFailed<T>> for EvalFault {
    ghost from_gives = { λ _ made. made ≡ fault.Memory };

    fn from(_: AllocFailed<T>) -> EvalFault {
        EvalFault::Memory
    }
}

impl From<Memory> for RunStop {
    ghost from_gives = { λ _ made. made ≡ stop.Memory };

    fn from(_: Memory) -> RunStop {
        RunStop::Memory
    }
}

impl From<AllocFailed<Key>> for RunStop {
    ghost from_gives = { λ _ made. made ≡ stop.Memory };

    fn from(_: AllocFailed<Key>) -> RunStop {
        RunStop::Memory
    }
}

impl From<EvalFault> for RunStop {
    ghost from_gives = { λ fault made. made ≡ stop_of fault };

    fn from(fault: EvalFault) -> RunStop {
        match fault {
            EvalFault::Memory => RunStop::Memory,
            EvalFault::Trap(trap) => RunStop::Trap(trap),
        }
    }
}
