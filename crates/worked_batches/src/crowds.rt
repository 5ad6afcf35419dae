// Batches that are filled to the last place.
use crate::banks::{MEMORY, calls, engine, holds, in_turn, is_count, replicas, run, run_replicas};
use answer_text::{print_answer, print_state};
use aria_base::{Call, Free};
use batch_core::{Answer, Reply, Wait};
use batch_engine::Engine;
use batch_rules::verdicts::Rule;
use dep_rules::Config;
use replica_run::Replicas;
use std::alloc::Global;
use std::process::Abort;
use test_banks::{ADD, Ask, SET};

const CONFIG: Config = Config {
    rule: Rule::Reorder,
    fallback: 101,
    workers: 3,
    batons: false,
};

/// So many times the same call.
fn crowd(rt: &impl Abort, alloc: Global, ask: Ask, count: usize) -> Vec<Call> {
    let asks = Vec::from_elem(alloc, ask, count).expect(rt, MEMORY);
    calls(rt, alloc, &asks)
}

/// Asserts that the next batch has so much room, and how many requests have a number.
fn leaves(rt: &impl Abort, bank: &Engine, room: u32, requests: u64) {
    is_count(rt, "room", u64::from(bank.room()), u64::from(room));
    is_count(rt, "requests", bank.requests(), requests);
}

/// Asserts that these requests finish, in this order.
fn finish(rt: &impl Abort, answer: &Answer, order: &[u64]) {
    holds(rt, "these finish", answer.order.as_slice() == order);
}

#[test]
fn what_waits_takes_places_of_the_next_batch(rt: HostRuntime) {
    let alloc = rt.alloc();
    let bank = engine(&rt, alloc, &[(1, 10), (2, 20)]);
    let three = crowd(&rt, alloc, (ADD, 1, 1), 3);
    let (bank, _answer) = run(&rt, alloc, bank, three, &CONFIG, &Free);
    leaves(&rt, &bank, 9_998, 3);
    let rest = crowd(&rt, alloc, (SET, 2, 7), 9_998);
    let (bank, answer) = run(&rt, alloc, bank, rest, &CONFIG, &Free);
    leaves(&rt, &bank, 2, 10_001);
    finish(&rt, &answer, &[2, 4]);
}

/// Asserts that there are three replicas, that the next batch of each has so much room, and how many
/// requests have a number in each.
fn each_leaves(rt: &impl Abort, three: Replicas, room: u32, requests: u64) {
    is_count(rt, "replicas", u64::from(three.count()), 3);
    for bank in three.parts().as_slice() {
        leaves(rt, bank, room, requests);
    }
}

#[test]
fn what_waits_takes_places_in_each_replica(rt: HostRuntime) {
    let alloc = rt.alloc();
    let banks = replicas(&rt, alloc, &[(1, 10), (2, 20)], 3);
    let three = crowd(&rt, alloc, (ADD, 1, 1), 3);
    let (banks, _answer) = run_replicas(&rt, alloc, banks, three, &CONFIG, &Free);
    leaves(&rt, banks.first(), 9_998, 3);
    let rest = crowd(&rt, alloc, (SET, 2, 7), 9_998);
    let (banks, answer) = run_replicas(&rt, alloc, banks, rest, &CONFIG, &Free);
    finish(&rt, &answer, &[2, 4]);
    each_leaves(&rt, banks, 2, 10_001);
}

/// How many lines say that their request waits since request 1 writes what it writes.
fn behind_the_first(answer: &Answer) -> u64 {
    let mut count = 0_u64;
    for line in answer.lines.as_slice() {
        if matches!(line.reply, Reply::Waits(Wait::Waw(1))) {
            count = count.wrapping_add(1);
        }
    }
    count
}

/// Asserts that all other requests of so many wait since request 1 writes what they write.
fn others_wait(rt: &impl Abort, answer: &Answer, requests: u64) {
    is_count(rt, "lines", answer.lines.as_slice().len() as u64, requests);
    let waiting = behind_the_first(answer);
    is_count(rt, "that wait", waiting.wrapping_add(1), requests);
}

/// Asserts that an answer of the bank is printed with this beginning.
fn begins(rt: &impl Abort, alloc: Global, bank: &Engine, answer: &Answer, wanted: &[u8]) {
    let text = print_answer(alloc, bank.catalog(), answer).expect(rt, MEMORY);
    holds(rt, "this is printed first", text.starts_with(wanted));
}

#[test]
fn of_ten_thousand_that_put_one_account_one_finishes(rt: HostRuntime) {
    let alloc = rt.alloc();
    let bank = engine(&rt, alloc, &[(1, 10)]);
    let all = crowd(&rt, alloc, (SET, 1, 7), 10_000);
    let (bank, answer) = run(&rt, alloc, bank, all, &CONFIG, &Free);
    others_wait(&rt, &answer, 10_000);
    finish(&rt, &answer, &[1]);
    begins(
        &rt,
        alloc,
        &bank,
        &answer,
        b"batch 1\n1 ok 7\n2 wait waw 1\n",
    );
}

/// Asserts that so many requests finish, in the order of their numbers from 1.
fn all_finish(rt: &impl Abort, answer: &Answer, requests: u64) {
    let finished = in_turn(answer.order.as_slice()).unwrap_or(0);
    is_count(rt, "that finish in turn", finished, requests);
}

/// Asserts that the rows behind the first batch are printed so.
fn same_state(rt: &impl Abort, alloc: Global, bank: &Engine, wanted: &[u8]) {
    let text = print_state(alloc, bank.catalog(), bank.tables(), 1).expect(rt, MEMORY);
    holds(rt, "these rows are printed", text.as_slice() == wanted);
}

/// Asserts that there are three replicas, and that the rows of each behind the first batch are printed so.
fn each_state(rt: &impl Abort, alloc: Global, three: Replicas, wanted: &[u8]) {
    is_count(rt, "replicas", u64::from(three.count()), 3);
    for bank in three.parts().as_slice() {
        same_state(rt, alloc, bank, wanted);
    }
}

#[test]
fn in_each_replica_one_of_ten_thousand_finishes(rt: HostRuntime) {
    let alloc = rt.alloc();
    let banks = replicas(&rt, alloc, &[(1, 10)], 3);
    let all = crowd(&rt, alloc, (SET, 1, 7), 10_000);
    let (banks, answer) = run_replicas(&rt, alloc, banks, all, &CONFIG, &Free);
    others_wait(&rt, &answer, 10_000);
    finish(&rt, &answer, &[1]);
    begins(
        &rt,
        alloc,
        banks.first(),
        &answer,
        b"batch 1\n1 ok 7\n2 wait waw 1\n",
    );
    each_state(&rt, alloc, banks, b"state 1\nrow acct 1 = 7\nend state\n");
}

#[test]
fn ten_thousand_on_one_account_finish_late(rt: HostRuntime) {
    let alloc = rt.alloc();
    let config = Config {
        fallback: 0,
        ..CONFIG
    };
    let bank = engine(&rt, alloc, &[(1, 10)]);
    let all = crowd(&rt, alloc, (ADD, 1, 1), 10_000);
    let (bank, answer) = run(&rt, alloc, bank, all, &config, &Free);
    all_finish(&rt, &answer, 10_000);
    same_state(
        &rt,
        alloc,
        &bank,
        b"state 1\nrow acct 1 = 10010\nend state\n",
    );
}
