// What is found of all queues before the first step.
ghost use Rattle.std.specs.Prelude.{◌≡◌, ◌<◌, ◌≤◌, ◌+◌, ◌^◌, ◌++◌, [], ◌∷◌, length, map, All, IfOk, OnOk, count_by, slice_index, nat_lt, nat_eq, if◌then◌else◌};
ghost use Rattle.baton_crew.specs.Courses.{IsCourse};
ghost use Rattle.baton_crew.specs.Plans.{AreFirsts, AreNexts, AreCounts, noted, looked_up};
ghost use Rattle.baton_crew.specs.Rule.{first_ready};

use crate::courses::Course;
use crate::lists::Lists;
use aria_base::Memory;
use std::alloc::Global;

/// For each item, from the last one, the next items of its slots; and for each slot the first one. The count of
/// items stands for none.
pub(crate) fn queues<W: Course>(alloc: Global, work: &W) -> Result<(Lists<u32>, Vec<u32>), Memory>
    requires { IsCourse (W.plan work.now) }
    ensures nexts { IfOk result (λ r. AreNexts (W.plan work.now) 0 r.0) }
    ensures firsts { IfOk result (λ r. AreFirsts (W.plan work.now) 0 r.1.items) }
{
    let mut item = work.items();
    let mut firsts = repeated(alloc, item, work.slots())?;
    let mut nexts = Lists::with_capacity(alloc, item as usize)?;
    let mut list = Vec::new(alloc);
    while item > 0 {
        item -= 1;
        let touched = work.touches(item);
        look_up(&mut list, &firsts, touched)?;
        nexts.push(list.as_slice())?;
        note(&mut firsts, touched, item);
    }
    Ok((nexts, firsts))
}

/// The number, so many times.
fn repeated(alloc: Global, number: u32, count: usize) -> Result<Vec<u32>, Memory>
    ensures { IfOk result (λ v. (length v.items ≡ count) × All (λ n. n ≡ number) v.items) }
{
    let mut numbers = Vec::with_capacity(alloc, count)?;
    for _ in 0..count {
        numbers.push(number)?;
    }
    Ok(numbers)
}

/// What stands at the slots, in the place of what was in the list.
fn look_up(list: &mut Vec<u32>, firsts: &[u32], touched: &[usize]) -> Result<(), Memory>
    requires { All (λ k. k < length firsts.now) touched.now }
    ensures { OnOk result (list.new.items ≡ looked_up firsts.now touched.now) }
{
    list.clear();
    for slot in touched {
        list.push(firsts[*slot])?;
    }
    Ok(())
}

/// Notes the item at its slots.
fn note(firsts: &mut Vec<u32>, touched: &[usize], item: u32)
    requires { All (λ k. k < length firsts.old.items) touched.now }
    ensures { firsts.new.items ≡ noted item firsts.old.items touched.now }
{
    for slot in touched {
        firsts[*slot] = item;
    }
}

/// The words that the board begins with, and the items that wait for nothing.
pub(crate) fn counts<W: Course>(
    alloc: Global,
    work: &W,
    firsts: &[u32],
) -> Result<(Vec<u64>, Vec<u32>), Memory>
    requires course { IsCourse (W.plan work.now) }
    requires firsts { AreFirsts (W.plan work.now) 0 firsts.now }
    ensures counts { IfOk result (λ r. AreCounts (W.plan work.now) (W.plan work.now).items r.0.items) }
    ensures ready { IfOk result (λ r. r.1.items ≡ first_ready (W.plan work.now)) }
{
    let items = work.items();
    let mut words = Vec::with_capacity(alloc, items as usize + 1)?;
    words.push(0)?;
    let mut ready = Vec::new(alloc);
    for item in 0..items {
        let count = count(firsts, work.touches(item), item);
        words.push(count)?;
        add_ready(&mut ready, count, item)?;
    }
    Ok((words, ready))
}

/// Adds the item where it waits for nothing.
fn add_ready(ready: &mut Vec<u32>, count: u64, item: u32) -> Result<(), Memory>
    ensures { OnOk result (ready.new.items ≡ ready.old.items ++ (if nat_eq count 0 then item ∷ [] else [])) }
{
    if count == 0 {
        ready.push(item)?;
    }
    Ok(())
}

/// On how many of the slots the first item comes before this one.
fn count(firsts: &[u32], touched: &[usize], item: u32) -> u64
    requires { All (λ k. k < length firsts.now) touched.now }
    ensures count { result ≡ count_by (λ k. nat_lt (slice_index firsts.now k) item) touched.now }
    ensures small { result < 2 ^ 63 }
{
    let mut count = 0;
    for slot in touched {
        if firsts[*slot] < item {
            count += 1;
        }
    }
    count
}
