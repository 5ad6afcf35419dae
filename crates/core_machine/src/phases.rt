// The phases of the machine, one after the other.
ghost use Rattle.std.specs.Prelude.{◌≡◌, min, ◌+◌};
ghost use Rattle.core_machine.specs.Phases.{ended};

/// How far a commit phase has come. Each phase asks for its own events, and ends by a turn.
#[derive(Clone, Copy, Debug, PartialEq, Eq)]
pub(crate) enum Phase {
    Executing,
    Marking,
    Deciding,
    Installing,
    Settled,
}

impl Phase {
    /// How many phases have ended.
    pub(crate) fn ended(self) -> u8
        ensures { result ≡ ended self }
    {
        match self {
            Phase::Executing => 0,
            Phase::Marking => 1,
            Phase::Deciding => 2,
            Phase::Installing => 3,
            Phase::Settled => 4,
        }
    }

    /// The phase that a turn leads to.
    pub(crate) fn next(self) -> Phase
        ensures { ended result ≡ min (ended self + 1) 4 }
    {
        match self {
            Phase::Executing => Phase::Marking,
            Phase::Marking => Phase::Deciding,
            Phase::Deciding => Phase::Installing,
            Phase::Installing | Phase::Settled => Phase::Settled,
        }
    }
}
