// Made-up batches that are numbered, marked by several workers, and decided in both forms.
ghost use Rattle.std.specs.Prelude.{◌≡◌, ◌≤◌, ◌*◌, length, IfOk};
ghost use Rattle.aria_base.specs.Reserved.{AreAbove};
ghost use Rattle.aria_base.specs.declared.limits.TheConstants.{MOST_WORKERS};
ghost use Rattle.worked_phases.specs.declared.decisions.TheConstants.{TAG};

use crate::accounts::{holds, sets};
use aria_base::{Draws, Free, Memory, TAG_SPAN};
use dep_rules::{Rule, Sets, decide, decide_listed};
use key_numbering::{may_be_numbered, number};
use resv_phase::reserve;
use std::alloc::Global;
use std::process::Abort;
use std::test::Fail;
use std::thread::Threads;

/// The tag of the batches.
const TAG: u64 = 7;

/// How many batches there are.
const BATCHES: u32 = 300;

/// None to three of eight accounts.
fn made_up_accounts(alloc: Global, draws: &mut Draws) -> Result<Vec<u32>, Memory> {
    let mut numbers = Vec::new(alloc);
    for _place in 0..draws.word() % 4 {
        numbers.push(draws.word() % 8)?;
    }
    Ok(numbers)
}

/// None to 23 requests that read and write such accounts.
fn made_up(alloc: Global, draws: &mut Draws) -> Result<Vec<Sets>, Memory> {
    let mut list = Vec::new(alloc);
    for _place in 0..draws.word() % 24 {
        let reads = made_up_accounts(alloc, draws)?;
        let writes = made_up_accounts(alloc, draws)?;
        list.push(sets(alloc, &reads, &writes)?)?;
    }
    Ok(list)
}

/// The words of a batch before, one for each key.
fn words_before(alloc: Global, keys: u32) -> Result<Vec<u64>, Memory>
    ensures count { IfOk result (λ old. length old.items ≡ keys) }
    ensures above { IfOk result (λ old. AreAbove TAG old.items) }
{
    let mut old = Vec::new(alloc);
    for key in 0..keys {
        old.push((TAG + 1) * TAG_SPAN + u64::from(key))?;
    }
    Ok(old)
}

/// Asserts that both forms decide alike of each request of the batch, by both rules.
pub fn alike<R: Abort + Threads + Sync>(
    rt: &R,
    alloc: Global,
    sets: &[Sets],
    workers: u32,
) -> Result<(), Fail>
    requires { (1 ≤ workers) × (workers ≤ MOST_WORKERS) }
{
    if !may_be_numbered(sets) {
        panic!(rt; "too many sets");
    }
    let numbered = number(alloc, sets)?;
    let old = words_before(alloc, numbered.keys())?;
    let closed = reserve(rt, alloc, &numbered, old, TAG, workers, &Free)?;
    let words = closed.words();
    for tid in 1..=numbered.len() {
        for rule in [Rule::Plain, Rule::Reorder] {
            let found = decide(&numbered, words, TAG, tid, rule);
            let wanted = decide_listed(sets, tid, rule);
            holds(rt, "both forms decide alike", tid, found == wanted);
        }
    }
    Ok(())
}

#[test]
fn both_forms_decide_alike(rt: HostRuntime) -> Result<(), Fail> {
    let alloc = rt.alloc();
    let mut draws = Draws::of(2, 0);
    for place in 0..BATCHES {
        let sets = made_up(alloc, &mut draws)?;
        alike(&rt, alloc, &sets, place % 4 + 1)?;
    }
    Ok(())
}
