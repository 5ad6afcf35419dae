// Ten thousand requests on one account.
ghost use Rattle.std.specs.Prelude.{◌≤◌};
ghost use Rattle.aria_base.specs.declared.limits.TheConstants.{MOST_WORKERS};

use crate::banks::{MEMORY, are_alike, bank, run_by_batons, tables, waiting};
use crate::drawn::crew_of;
use aria_base::Free;
use proc_lang::Catalog;
use std::alloc::Global;
use std::process::Abort;
use std::thread::Threads;
use test_banks::ADD;

/// As many requests as a batch may have.
const MANY: usize = 10_000;

/// Asserts that each of these requests, of which each adds 1 to account 1, is run once, by so many workers.
fn all_count<R: Abort + Threads + Sync>(rt: &R, alloc: Global, catalog: &Catalog, workers: u32)
    requires { (1 ≤ workers) × (workers ≤ MOST_WORKERS) }
{
    let first = tables(rt, alloc, &[(1, 10)]);
    let asks = Vec::from_elem(alloc, (ADD, 1, 1), MANY).expect(rt, MEMORY);
    let waiting = waiting(rt, alloc, catalog, &first, &asks);
    let (left, lates) = run_by_batons(rt, alloc, catalog, first, &waiting, workers, &Free);
    assert!(rt;
        are_alike(rt, &left, &tables(rt, alloc, &[(1, 10_010)])),
        "the account, by {workers}"
    );
    assert_eq!(rt; lates.len(), MANY);
}

#[test]
fn ten_thousand_on_one_account_are_each_run_once(rt: HostRuntime) {
    let alloc = rt.alloc();
    let catalog = bank(&rt, alloc);
    for list in 0..3 {
        all_count(&rt, alloc, &catalog, crew_of(list));
    }
}
