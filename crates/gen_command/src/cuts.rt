// Why a script is not given whole.
ghost use Rattle.std.specs.Prelude.{◌≡◌};
ghost use Rattle.gen_command.specs.declared.cuts.Cut.TheVariants as cut;

use aria_base::{Failed, Memory};

/// Why a script is not given whole.
#[derive(Clone, Copy, Debug, PartialEq, Eq)]
pub(crate) enum Cut {
    /// There was no memory.
    NoMemory,
    /// The sink failed.
    NoWrite,
}

impl From<Memory> for Cut {
    ghost from_gives = { λ _ e. e ≡ cut.NoMemory };

    fn from(_: Memory) -> Cut {
        Cut::NoMemory
    }
}

impl From<Failed> for Cut {
    ghost from_gives = { λ _ e. e ≡ cut.NoWrite };

    fn from(_: Failed) -> Cut {
        Cut::NoWrite
    }
}
