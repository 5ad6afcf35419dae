// Why the check of statements goes no further.
ghost use Rattle.std.specs.Prelude.{◌≡◌};
ghost use Rattle.proc_verify.specs.declared.progress.CheckStop.TheVariants as stop;

use crate::registers::SetRegisters;
use aria_base::Memory;

/// How far the check has come.
#[derive(Drop)]
pub struct Reached {
    /// The number of the next statement.
    pub next: u32,
    /// Which registers are set before it.
    pub set: SetRegisters,
}

/// Why the check stops.
#[derive(Clone, Copy, Debug, PartialEq, Eq)]
pub enum CheckStop {
    /// There was no memory.
    Memory,
    /// The statement at this place fails, for this cause.
    Flaw { place: u32, cause: u8 },
}

impl From<Memory> for CheckStop {
    ghost from_gives = { λ _ made. made ≡ stop.Memory };

    fn from(_: Memory) -> CheckStop {
        CheckStop::Memory
    }
}
