// The list of a batch, apart by what is decided of its works.
ghost use Rattle.std.specs.Prelude.{◌≡◌, ◌+◌, ◌<◌, ◌^◌, ◌++◌, ◌∷◌, [], length, map, IfOk, OnOk};
ghost use Rattle.range_rules.specs.Batches.{numbered};
ghost use Rattle.range_resv.specs.Lists.{waiting_among};

use aria_base::{Changes, Memory};
use batch_rules::verdicts::Verdict;
use proc_lang::End;
use range_rules::{NumberedWork, Ran, Work};
use std::alloc::Global;

/// The list of a batch: what is carried, then the new works with the next request numbers.
pub(crate) fn number_works(
    carried: Vec<NumberedWork>,
    new: Vec<Work>,
    requests: u64,
) -> Result<Vec<NumberedWork>, Memory>
    requires { requests + length new.items < 2 ^ 64 }
    ensures { IfOk result (λ list. list.items ≡ carried.items ++ numbered requests new.items) }
{
    let mut list = carried;
    let mut q = requests;
    list.reserve(new.len())?;
    for work in new {
        q += 1;
        list.push(NumberedWork { q, work })?;
    }
    Ok(list)
}

/// The request numbers of a list.
pub(crate) fn numbers_of(alloc: Global, list: &[NumberedWork]) -> Result<Vec<u64>, Memory>
    ensures { IfOk result (λ numbers. numbers.items ≡ map (λ w. w.q) list.now) }
{
    let mut numbers = Vec::with_capacity(alloc, list.len())?;
    for work in list {
        numbers.push(work.q)?;
    }
    Ok(numbers)
}

/// What the works of a batch came to, apart by who needs it.
#[derive(Drop)]
pub(crate) struct Runs {
    /// The rows that each writes.
    pub changes: Vec<Changes>,
    /// How each ends.
    pub ends: Vec<End>,
}

/// The rows and the ends of runs.
pub(crate) fn take_apart(alloc: Global, rans: Vec<Ran>) -> Result<Runs, Memory>
    ensures changes { IfOk result (λ runs. runs.changes.items ≡ map (λ ran. ran.writes) rans.items) }
    ensures ends { IfOk result (λ runs. runs.ends.items ≡ map (λ ran. ran.end) rans.items) }
{
    let mut changes = Vec::with_capacity(alloc, rans.len())?;
    let mut ends = Vec::with_capacity(alloc, rans.len())?;
    for ran in rans {
        changes.push(ran.writes)?;
        ends.push(ran.end)?;
    }
    Ok(Runs { changes, ends })
}

/// The works that wait, in the order of the list.
pub(crate) fn waiting_of(
    alloc: Global,
    list: Vec<NumberedWork>,
    verdicts: &[Verdict],
) -> Result<Vec<NumberedWork>, Memory>
    ensures { IfOk result (λ waiting. waiting.items ≡ waiting_among list.items verdicts.now) }
{
    let mut waiting = Vec::new(alloc);
    let mut rest = verdicts;
    for work in list {
        let Some((verdict, later)) = rest.split_first() else {
            return Ok(waiting);
        };
        rest = later;
        keep_if_it_waits(&mut waiting, work, verdict)?;
    }
    Ok(waiting)
}

/// Appends a work where it waits.
fn keep_if_it_waits(
    waiting: &mut Vec<NumberedWork>,
    work: NumberedWork,
    verdict: &Verdict,
) -> Result<(), Memory>
    ensures { OnOk result (waiting.new.items ≡ waiting.old.items ++ waiting_among (work ∷ []) (verdict.now ∷ [])) }
{
    match verdict {
        Verdict::Finish { raw: _ } => Ok(()),
        Verdict::Wait(_) => {
            waiting.push(work)?;
            Ok(())
        }
    }
}
