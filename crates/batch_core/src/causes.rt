// Causes and orders by request numbers.
ghost use Rattle.std.specs.Prelude.{◌≡◌, map, IfOk};
ghost use Rattle.batch_core.specs.Steps.{number_in, wait_by};

use crate::answers::Wait;
use aria_base::Memory;
use batch_rules::verdicts::Cause;
use std::alloc::Global;

/// A cause by the request numbers of a batch's list. No memory.
pub fn wait_in(numbers: &[u64], cause: Cause) -> Wait
    ensures { result ≡ wait_by (number_in numbers.now) cause }
{
    match cause {
        Cause::Waw(waw) => Wait::Waw(number_in(numbers, waw)),
        Cause::Raw(raw) => Wait::Raw(number_in(numbers, raw)),
        Cause::Both(raw, war) => Wait::Both(number_in(numbers, raw), number_in(numbers, war)),
    }
}

/// The number of the request with this TID, from 1; 0 where the list has none. No memory.
pub fn number_in(numbers: &[u64], tid: u32) -> u64
    ensures { result ≡ number_in numbers.now tid }
{
    match numbers.get((tid as usize).saturating_sub(1)) {
        Some(&q) => q,
        None => 0,
    }
}

/// The numbers of the requests with these TIDs. An error: there was no memory.
pub fn numbers_in(alloc: Global, numbers: &[u64], tids: &[u32]) -> Result<Vec<u64>, Memory>
    ensures { IfOk result (λ order. order.items ≡ map (number_in numbers.now) tids.now) }
{
    let mut order = Vec::with_capacity(alloc, tids.len())?;
    for tid in tids {
        order.push(number_in(numbers, *tid))?;
    }
    Ok(order)
}
