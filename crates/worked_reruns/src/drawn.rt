// Drawn requests, which come to the same by handed rows and one after the other.
ghost use Rattle.std.specs.Prelude.{◌≤◌};
ghost use Rattle.aria_base.specs.declared.limits.TheConstants.{MOST_WORKERS};

use crate::banks::{MEMORY, are_alike, bank, run_by_batons, run_in_turn, tables, waiting};
use aria_base::{Draws, Free};
use proc_lang::Catalog;
use std::alloc::Global;
use std::process::Abort;
use std::thread::Threads;
use test_banks::{Account, Ask, drawn, drawn_ask};

/// How many lists of requests are drawn.
const LISTS: u32 = 500;

/// How many workers run a list.
pub fn crew_of(list: u32) -> u32
    ensures { (1 ≤ result) × (result ≤ MOST_WORKERS) }
{
    match list % 3 {
        0 => 1,
        1 => 2,
        _ => 7,
    }
}

/// Accounts from 1 to 7, each of which may be missing, with drawn amounts.
fn drawn_accounts(rt: &impl Abort, alloc: Global, draws: &mut Draws) -> Vec<Account> {
    let mut accounts = Vec::new(alloc);
    for number in 1..8_i64 {
        if drawn(draws, 6) != 1 {
            let amount = i64::from(drawn(draws, 9));
            accounts.push((number, amount)).expect(rt, MEMORY);
        }
    }
    accounts
}

/// Up to 40 calls.
fn drawn_asks(rt: &impl Abort, alloc: Global, draws: &mut Draws) -> Vec<Ask> {
    let mut asks = Vec::new(alloc);
    for _ in 0..drawn(draws, 40) {
        asks.push(drawn_ask(draws)).expect(rt, MEMORY);
    }
    asks
}

/// Asserts that drawn requests come to the same by so many workers as one after the other. The keys that they declare
/// are those of runs on other accounts than those that they are run again on.
fn come_to_the_same<R: Abort + Threads + Sync>(
    rt: &R,
    alloc: Global,
    catalog: &Catalog,
    list: u32,
    workers: u32,
)
    requires { (1 ≤ workers) × (workers ≤ MOST_WORKERS) }
{
    let mut draws = Draws::of(list, u64::from(workers));
    let before = drawn_accounts(rt, alloc, &mut draws);
    let now = drawn_accounts(rt, alloc, &mut draws);
    let asks = drawn_asks(rt, alloc, &mut draws);
    let first = tables(rt, alloc, &before);
    let waiting = waiting(rt, alloc, catalog, &first, &asks);
    let plain = run_in_turn(rt, alloc, catalog, tables(rt, alloc, &now), &waiting);
    let handed = run_by_batons(
        rt,
        alloc,
        catalog,
        tables(rt, alloc, &now),
        &waiting,
        workers,
        &Free,
    );
    assert!(rt;
        are_alike(rt, &plain.0, &handed.0),
        "the rows of list {list} by {workers}"
    );
    assert!(rt;
        plain.1.as_slice() == handed.1.as_slice(),
        "the ends of list {list} by {workers}"
    );
}

#[test]
fn drawn_requests_come_to_what_they_come_to_in_turn(rt: HostRuntime) {
    let alloc = rt.alloc();
    let catalog = bank(&rt, alloc);
    for list in 0..LISTS {
        come_to_the_same(&rt, alloc, &catalog, list, crew_of(list));
    }
}
