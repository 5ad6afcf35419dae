// Why a line of a file cannot be followed.
use aria_base::{Memory, TxtRefused};
use std::alloc::{AllocError, AllocFailed};

/// Why a line cannot be followed.
#[derive(Clone, Copy, Debug, PartialEq, Eq)]
pub enum Wrong {
    Memory,
    /// The rule that it breaks, in words.
    Form(&'static str),
}

impl From<Memory> for Wrong {
    fn from(_: Memory) -> Wrong {
        Wrong::Memory
    }
}

impl From<AllocError> for Wrong {
    fn from(_: AllocError) -> Wrong {
        Wrong::Memory
    }
}

impl<T: Drop> From<AllocFailed<T>> for Wrong {
    fn from(_: AllocFailed<T>) -> Wrong {
        Wrong::Memory
    }
}

impl From<TxtRefused> for Wrong {
    fn from(refused: TxtRefused) -> Wrong {
        match refused {
            TxtRefused::Memory => Wrong::Memory,
            _ => Wrong::Form("a text has at most 500 letters"),
        }
    }
}
