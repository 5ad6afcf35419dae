// Where expressions are evaluated, and statements run.
ghost use Rattle.std.specs.Prelude.{◌≡◌, IfOk, pos, slice_get, slice_index_or};
ghost use Rattle.proc_lang.specs.Values.{me_of, tuples_of, value_of_arg};

use aria_base::{Arg, Duplicate, Memory, Request, Tuple, Value};
use std::alloc::Global;

/// Where an expression is evaluated: what it may name besides registers, and where the memory of its
/// value comes from.
#[derive(Clone, Copy)]
pub struct RunScope<'a> {
    /// Where memory comes from.
    pub alloc: Global,
    /// The request that is run.
    pub request: &'a Request,
    /// The tuple of the `Each` around whose turn it is; outside of one it has no numbers.
    pub item: &'a [i64],
}

/// Where a statement is run: what stays the same from one statement of a block to the next.
#[derive_where(Clone, Copy)]
pub struct Setting<'a, L, S> {
    /// Where its expressions are evaluated.
    pub scope: RunScope<'a>,
    /// What its accesses may touch.
    pub limits: &'a L,
    /// How it reads rows.
    pub reads: &'a S,
}

impl<'a> RunScope<'a> {
    /// The value of an argument, 0 where it is a list or absent.
    pub fn argument(&self, at: u32) -> Result<Value, Memory>
        ensures { IfOk result (λ v. v ≡ value_of_arg (slice_get self.now.request.now.call.args at)) }
    {
        match self.request.call.args.as_slice().get(at as usize) {
            Some(Arg::Int(number)) => Ok(Value::Int(*number)),
            Some(Arg::Text(text)) => Ok(Value::Text(text.duplicate(self.alloc)?)),
            Some(Arg::List(_)) | None => Ok(Value::Int(0)),
        }
    }

    /// The tuples of a list argument, none where it is another one or absent.
    pub fn tuples(&self, at: u32) -> &'a [Tuple]
        ensures { result.now ≡ tuples_of (slice_get self.now.request.now.call.args at) }
    {
        let request = self.request;
        match request.call.args.as_slice().get(at as usize) {
            Some(Arg::List(tuples)) => tuples.as_slice(),
            _ => &[],
        }
    }

    /// A number of the tuple, 0 where there is none.
    pub fn number(&self, at: u32) -> i64
        ensures { result ≡ slice_index_or self.now.item.now at (pos 0) }
    {
        match self.item.get(at as usize) {
            Some(number) => *number,
            None => 0,
        }
    }

    /// The request number, 0 where it is no 64-bit number.
    pub fn own_number(&self) -> Value
        ensures { result ≡ me_of self.now.request.now.q }
    {
        match i64::try_from(self.request.q) {
            Ok(number) => Value::Int(number),
            Err(_) => Value::Int(0),
        }
    }
}
