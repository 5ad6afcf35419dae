// Why a list of events is refused.
ghost use Rattle.std.specs.Prelude.{◌≡◌};
ghost use Rattle.core_machine.specs.declared.refusals.CoreRefused.TheVariants as refused;

use aria_base::Memory;
use thiserror::Error;

/// Why a list of events does not run to its end.
#[derive(Clone, Copy, Debug, PartialEq, Eq, Error)]
pub enum CoreRefused {
    #[error("no memory")]
    Memory,
    /// The event at this place of the list, from 0, is the first one that is not due when it comes.
    #[error("event {at} is not due")]
    NotDue { at: usize },
}

impl From<Memory> for CoreRefused {
    ghost from_gives = { λ _ e. e ≡ refused.Memory };

    fn from(_: Memory) -> CoreRefused {
        CoreRefused::Memory
    }
}
