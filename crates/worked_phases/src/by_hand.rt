// What no clause shows: that the definitions say what the rules mean, by verdicts and orders worked out by hand; and
// that both forms of a decision give them.
use crate::accounts::{holds, sets};
use crate::decisions::alike;
use aria_base::{Duplicate, Memory};
use dep_rules::{Cause, Rule, Sets, Verdict, decide_listed};
use reorder::{order, place};
use std::alloc::Global;
use std::process::Abort;
use std::test::Fail;

const AHEAD: Verdict = Verdict::Finish { raw: true };

const IN_TURN: Verdict = Verdict::Finish { raw: false };

const WAITS: Verdict = Verdict::Wait(Cause::Both(2, 1));

/// The sets of requests by the accounts that they read and write in turn.
fn sets_of(alloc: Global, requests: &[[&[u32]; 2]]) -> Result<Vec<Sets>, Memory> {
    let mut list = Vec::new(alloc);
    for accounts in requests {
        list.push(sets(alloc, accounts[0], accounts[1])?)?;
    }
    Ok(list)
}

/// Asserts the verdict of one request, plain and with the reorder rule.
fn decides(rt: &impl Abort, sets: &[Sets], tid: u32, plain: Verdict, reorder: Verdict) {
    if tid == 0 || tid as usize > sets.len() {
        panic!(rt; "no request {tid}");
    }
    let found = decide_listed(sets, tid, Rule::Plain);
    holds(rt, "the rule plain", tid, found == plain);
    let found = decide_listed(sets, tid, Rule::Reorder);
    holds(rt, "the rule reorder", tid, found == reorder);
}

/// Asserts that a copy of each request's sets is equal to them.
fn copies(rt: &impl Abort, alloc: Global, sets: &[Sets]) -> Result<(), Memory> {
    for one in sets {
        let copy = one.duplicate(alloc)?;
        holds(rt, "a copy is equal", 0, copy == *one);
    }
    Ok(())
}

#[test]
fn ring_of_copies(rt: HostRuntime) -> Result<(), Fail> {
    let alloc = rt.alloc();
    let ring = sets_of(alloc, &[[&[1], &[2]], [&[2], &[3]], [&[3], &[1]]])?;
    decides(&rt, &ring, 1, IN_TURN, IN_TURN);
    decides(&rt, &ring, 2, Verdict::Wait(Cause::Raw(1)), AHEAD);
    decides(&rt, &ring, 3, Verdict::Wait(Cause::Raw(2)), WAITS);
    alike(&rt, alloc, &ring, 1)
}

#[test]
fn least_writer_is_named_before_all(rt: HostRuntime) -> Result<(), Fail> {
    let alloc = rt.alloc();
    let sets = sets_of(
        alloc,
        &[[&[], &[5]], [&[7], &[6]], [&[], &[6]], [&[5, 6], &[7, 6]]],
    )?;
    let least = Verdict::Wait(Cause::Waw(2));
    decides(&rt, &sets, 4, least, least);
    copies(&rt, alloc, &sets)?;
    alike(&rt, alloc, &sets, 1)
}

/// Asserts which requests are placed, and the printed order.
fn orders(
    rt: &impl Abort,
    alloc: Global,
    verdicts: &[Verdict],
    ended: &[bool],
    placed: &[u32],
    ordered: &[u32],
) -> Result<(), Memory> {
    if ended.len() != verdicts.len() || verdicts.len() > 10_000 {
        panic!(rt; "a verdict and an end for each request");
    }
    let found = place(alloc, verdicts)?;
    holds(rt, "the places", 0, found.as_slice() == placed);
    let found = order(alloc, verdicts, ended)?;
    holds(rt, "the order", 0, found.as_slice() == ordered);
    Ok(())
}

#[test]
fn orders_are_those_worked_out_by_hand(rt: HostRuntime) -> Result<(), Fail> {
    let cases: [(&[Verdict], &[bool], &[u32], &[u32]); 5] = [
        (&[], &[], &[], &[]),
        (
            &[IN_TURN, AHEAD, WAITS],
            &[true, true, false],
            &[2, 1],
            &[2, 1],
        ),
        (
            &[IN_TURN, AHEAD, WAITS, AHEAD, AHEAD],
            &[false; 5],
            &[5, 4, 2, 1],
            &[5, 4, 2, 1],
        ),
        (&[IN_TURN, WAITS, WAITS], &[true; 3], &[1], &[1, 2, 3]),
        (
            &[IN_TURN, AHEAD, WAITS, IN_TURN, WAITS, AHEAD],
            &[false, false, false, false, true, false],
            &[6, 2, 1, 4],
            &[6, 2, 1, 4, 5],
        ),
    ];
    for (verdicts, ended, placed, ordered) in cases {
        orders(&rt, rt.alloc(), verdicts, ended, placed, ordered)?;
    }
    Ok(())
}
