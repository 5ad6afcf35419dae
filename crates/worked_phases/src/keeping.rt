// More keys are kept than a batch may find.
ghost use Rattle.std.specs.Prelude.{◌≤◌};

use crate::accounts::{holds, sets};
use dep_rules::Sets;
use key_numbering::{Kept, may_be_numbered};
use std::alloc::Global;
use std::process::Abort;
use std::test::Fail;
use std::thread::Threads;

/// Each request writes so many accounts.
const WRITTEN: u32 = 250;

/// The sets of so many requests that each write accounts of their own, from this one on.
fn apart(alloc: Global, from: u32, count: u32) -> Result<Vec<Sets>, Fail> {
    let mut list = Vec::new(alloc);
    let mut next = from;
    for _place in 0..count {
        let mut numbers = Vec::new(alloc);
        for _number in 0..WRITTEN {
            numbers.push(next)?;
            next = next.wrapping_add(1);
        }
        list.push(sets(alloc, &[], &numbers)?)?;
    }
    Ok(list)
}

/// The keys after a batch of these sets, and how many there are.
fn kept_after<R: Abort + Threads + Sync>(
    rt: &R,
    kept: Kept,
    sets: &[Sets],
) -> Result<(Kept, u32), Fail> {
    if kept.full() || !may_be_numbered(sets) {
        panic!(rt; "too many keys or sets");
    }
    let (kept, numbered) = kept.number(rt, sets, 4)?;
    Ok((kept, numbered.keys()))
}

#[test]
fn past_a_million_keys_it_is_full(rt: HostRuntime) -> Result<(), Fail> {
    let alloc = rt.alloc();
    let million = apart(alloc, 0, 4_000)?;
    let (kept, count) = kept_after(&rt, Kept::new(alloc), &million)?;
    holds(&rt, "the keys", 1, count == 1_000_000 && !kept.full());
    let (kept, count) = kept_after(&rt, kept, &apart(alloc, 0, 1)?)?;
    holds(&rt, "the keys", 2, count == 1_000_000 && !kept.full());
    let one = vec![in alloc; sets(alloc, &[1_000_000], &[])?]?;
    let (kept, count) = kept_after(&rt, kept, &one)?;
    holds(&rt, "the keys", 3, count == 1_000_001 && kept.full());
    Ok(())
}
