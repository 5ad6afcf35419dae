// Calls of procedures with their arguments, and the requests that they become.
ghost use Rattle.std.specs.Prelude.{◌≡◌, IfOk};

use crate::copies::Duplicate;
use crate::limits::MOST_ARGS;
use crate::lists::{Few, Items};
use crate::memory::Memory;
use crate::texts::Txt;
use crate::tuples::Tuple;
use std::alloc::Global;

/// A list of tuples.
pub type Tuples = Items<Tuple>;

/// An argument of a call.
#[derive(Debug, Drop, PartialEq, Eq)]
pub enum Arg {
    /// A whole number.
    Int(i64),
    /// A text of at most 500 bytes.
    Text(Txt),
    /// Tuples of whole numbers.
    List(Tuples),
}

/// The arguments of a call, from the left: at most [`MOST_ARGS`].
pub type Args = Few<Arg, 0, MOST_ARGS>;

/// A call of a procedure.
#[derive(Debug, Drop, PartialEq, Eq)]
pub struct Call {
    /// The procedure's place in the catalogue, from 0.
    pub proc: u16,
    /// What it is called with.
    pub args: Args,
}

/// A call that was asked for, with its number.
#[derive(Debug, Drop, PartialEq, Eq)]
pub struct Request {
    /// The request's number: a database numbers its requests 1, 2, 3 and never begins again.
    pub q: u64,
    /// What is asked for.
    pub call: Call,
}

impl Duplicate for Arg {
    fn duplicate(&self, alloc: Global) -> Result<Self, Memory> {
        match self {
            Arg::Int(number) => Ok(Arg::Int(*number)),
            Arg::Text(text) => Ok(Arg::Text(text.duplicate(alloc)?)),
            Arg::List(tuples) => Ok(Arg::List(tuples.duplicate(alloc)?)),
        }
    }
}

impl Duplicate for Call {
    fn duplicate(&self, alloc: Global) -> Result<Self, Memory> {
        Ok(Call {
            proc: self.proc,
            args: self.args.duplicate(alloc)?,
        })
    }
}

impl Duplicate for Request {
    fn duplicate(&self, alloc: Global) -> Result<Self, Memory> {
        Ok(Request {
            q: self.q,
            call: self.call.duplicate(alloc)?,
        })
    }
}

/// A call equal to this one, or that there was no memory.
pub fn copy_call(alloc: Global, call: &Call) -> Result<Call, Memory>
    ensures { IfOk result (λ copy. copy ≡ call.now) }
{
    call.duplicate(alloc)
}
