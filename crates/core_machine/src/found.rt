// What stands with a TID.
ghost use Rattle.std.specs.Prelude.{◌≡◌};
ghost use Rattle.std.specs.Option.{option_copied};
ghost use Rattle.core_machine.specs.Found.{at_tid, outcome_of, read_at, write_at};

use aria_base::{Key, Row};
use proc_exec::Outcome;

/// The item of this TID, which counts from 1.
pub(crate) fn at_tid<T>(items: &[T], tid: u32) -> Option<&T>
    ensures { option_copied result ≡ at_tid items.now tid }
{
    if tid == 0 {
        return None;
    }
    items.get(tid as usize - 1)
}

/// The outcome of the request with this TID, once it ran.
pub(crate) fn outcome_of(outcomes: &[Option<Outcome>], tid: u32) -> Option<&Outcome>
    ensures { option_copied result ≡ outcome_of outcomes.now tid }
{
    match at_tid(outcomes, tid) {
        Some(Some(outcome)) => Some(outcome),
        Some(None) => None,
        None => None,
    }
}

/// The key at this place of its read set.
pub(crate) fn read_at(outcomes: &[Option<Outcome>], tid: u32, place: u32) -> Option<&Key>
    ensures { option_copied result ≡ read_at outcomes.now tid place }
{
    match outcome_of(outcomes, tid) {
        Some(outcome) => outcome.reads.as_slice().get(place as usize),
        None => None,
    }
}

/// The key at this place of its write set, with the row that it leaves there.
pub(crate) fn write_at(
    outcomes: &[Option<Outcome>],
    tid: u32,
    place: u32,
) -> Option<&(Key, Option<Row>)>
    ensures { option_copied result ≡ write_at outcomes.now tid place }
{
    match outcome_of(outcomes, tid) {
        Some(outcome) => outcome.writes.as_slice().get(place as usize),
        None => None,
    }
}
