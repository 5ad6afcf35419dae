// Values that a routine gives, its ends, and results that may be out of range.
ghost use Rattle.std.specs.Prelude.{◌≡◌, pos, ◌+ℤ◌, ◌-ℤ◌, ◌++◌, map, IfOk, OnOk};
ghost use Rattle.aria_base.specs.declared.values.Value.TheVariants as value;
ghost use Rattle.proc_lang.specs.declared.ends.Trap.TheVariants.{Overflow};
ghost use Rattle.proc_lang.specs.declared.ends.End.TheVariants.{Trap as Trapped};
ghost use Rattle.range_rules.specs.declared.routines.Action.TheVariants.{Stop};
ghost use Rattle.range_rules.specs.Walks.{strange};
ghost use Rattle.tpcc_routines.specs.Routines as routines;

use aria_base::{Memory, Value};
use proc_lang::{End, Gives, MOST_GIVEN, Trap};
use range_rules::Action;
use std::alloc::Global;

/// A row is absent, or an answer is one that consistent tables cannot give.
pub(crate) fn absent() -> Action
    ensures { result ≡ strange }
{
    Action::Stop(End::Trap(Trap::Absent))
}

/// A result is not a number of 64 bits.
pub(crate) fn overflow() -> Action
    ensures { result ≡ Stop (Trapped Overflow) }
{
    Action::Stop(End::Trap(Trap::Overflow))
}

/// The end of a run that gives these values, or that traps, since they are too many.
pub(crate) fn given(values: Vec<Value>) -> Action
    ensures { result ≡ Stop (routines.given_end values.items) }
{
    if values.len() > MOST_GIVEN {
        return Action::Stop(End::Trap(Trap::Many));
    }
    Action::Stop(End::Done(Gives::from_vec(values)))
}

/// The number, if it is one of 64 bits.
fn in_range(exact: i128) -> Option<i64>
    ensures { result ≡ routines.in_range exact }
{
    match i64::try_from(exact) {
        Ok(number) => Some(number),
        Err(_) => None,
    }
}

/// The sum of two numbers, if it is a number of 64 bits.
pub(crate) fn sum(a: i64, b: i64) -> Option<i64>
    ensures { result ≡ routines.in_range (a +ℤ b) }
{
    in_range(i128::from(a) + i128::from(b))
}

/// The number less so many, if it is a number of 64 bits.
pub(crate) fn less(a: &i64, b: u32) -> Option<i64>
    ensures { result ≡ routines.in_range (a.now -ℤ pos b) }
{
    in_range(i128::from(*a) - i128::from(b))
}

/// These numbers as values.
pub(crate) fn values(alloc: Global, numbers: &[i64]) -> Result<Vec<Value>, Memory>
    ensures { IfOk result (λ values. values.items ≡ map value.Int numbers.now) }
{
    let mut values = Vec::with_capacity(alloc, numbers.len())?;
    push_all(&mut values, numbers)?;
    Ok(values)
}

/// Pushes these numbers as values.
pub(crate) fn push_all(values: &mut Vec<Value>, numbers: &[i64]) -> Result<(), Memory>
    ensures { OnOk result (values.new.items ≡ values.old.items ++ map value.Int numbers.now) }
{
    for number in numbers {
        values.push(Value::Int(*number))?;
    }
    Ok(())
}
