// The numbers of the keys that waiting requests declare.
ghost use Rattle.std.specs.Prelude.{◌≡◌, ◌++◌, ◌∷◌, [], map, All, IfOk, OnOk};
ghost use Rattle.dep_rules.specs.Sheets.{IsSheet, IsTid, reads_at, writes_at};

use aria_base::Memory;
use baton_crew::Lists;
use dep_rules::Numbered;
use std::alloc::Global;

/// Of each request the numbers of the keys that it declares: of those that it reads and of those that it writes.
#[derive(Drop)]
pub(crate) struct Numbers {
    pub(crate) reads: Lists<usize>,
    pub(crate) writes: Lists<usize>,
    /// All numbers are below this one.
    pub(crate) keys: usize,
}

/// The numbers that stand at these TIDs.
pub(crate) fn numbers_at(
    alloc: Global,
    numbered: &Numbered,
    tids: &[u32],
) -> Result<Numbers, Memory>
    requires { All (λ tid. IsTid numbered.now tid) tids.now }
    ensures reads { IfOk result (λ numbers. numbers.reads ≡ map (reads_at numbered.now) tids.now) }
    ensures writes { IfOk result (λ numbers. numbers.writes ≡ map (writes_at numbered.now) tids.now) }
    ensures keys { IfOk result (λ numbers. numbers.keys ≡ numbered.now.keys) }
    ensures sheet { IfOk result (λ _. IsSheet numbered.now) }
{
    let count = tids.len().min(numbered.len() as usize);
    let mut reads = Lists::with_capacity(alloc, count)?;
    let mut writes = Lists::with_capacity(alloc, count)?;
    let mut list = Vec::new(alloc);
    for tid in tids {
        add(&mut reads, &mut list, numbered.reads_of(*tid))?;
        add(&mut writes, &mut list, numbered.writes_of(*tid))?;
    }
    Ok(Numbers {
        reads,
        writes,
        keys: numbered.keys() as usize,
    })
}

/// Adds the numbers as a list, by way of a list that is overwritten.
fn add(lists: &mut Lists<usize>, list: &mut Vec<usize>, numbers: &[u32]) -> Result<(), Memory>
    ensures { OnOk result (lists.new ≡ lists.old ++ numbers.now ∷ []) }
{
    list.clear();
    widen(list, numbers)?;
    lists.push(list.as_slice())
}

/// Appends the numbers.
fn widen(list: &mut Vec<usize>, numbers: &[u32]) -> Result<(), Memory>
    ensures { OnOk result (list.new.items ≡ list.old.items ++ numbers.now) }
{
    for number in numbers {
        list.push(*number as usize)?;
    }
    Ok(())
}
