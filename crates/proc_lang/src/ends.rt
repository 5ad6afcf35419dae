// How a run of a procedure ends, and what it gave.
use crate::limits::MOST_GIVEN;
use aria_base::{Duplicate, Few, Memory, Value};
use std::alloc::Global;

/// Why a run was stopped by the language itself.
#[derive(Clone, Copy, Debug, PartialEq, Eq)]
pub enum Trap {
    /// A result outside the 64-bit numbers.
    Overflow,
    /// A divisor 0.
    Zero,
    /// A row that has to be there is absent.
    Absent,
    /// A joined text longer than a text may be.
    Long,
    /// More than 256 accesses, or more than 256 given values.
    Many,
}

/// The values that a run gave, in order.
pub type Gives = Few<Value, 0, MOST_GIVEN>;

/// How a run ended.
#[derive(Debug, Drop, PartialEq, Eq)]
pub enum End {
    /// At the end of its body, with the values that it gave.
    Done(Gives),
    /// By its own failure, with its code, from 1 to 999.
    Back(u16),
    /// By a trap.
    Trap(Trap),
}

impl Duplicate for End {
    fn duplicate(&self, alloc: Global) -> Result<Self, Memory> {
        match self {
            End::Done(gives) => Ok(End::Done(gives.duplicate(alloc)?)),
            End::Back(code) => Ok(End::Back(*code)),
            End::Trap(trap) => Ok(End::Trap(*trap)),
        }
    }
}
