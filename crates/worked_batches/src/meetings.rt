// Workers are at work at once, and each step is told.
use crate::banks::{MEMORY, calls, engine, holds, in_turn, is_count, replicas, run, run_replicas};
use aria_base::{Pace, Place};
use batch_core::Answer;
use batch_rules::verdicts::Rule;
use dep_rules::Config;
use std::alloc::Global;
use std::process::Abort;
use std::thread::Threads;
use test_banks::{Account, Ask, COPY, SET};
use test_paces::{Gate, Steps};

/// By two workers, and what waits is run again.
const CONFIG: Config = Config {
    rule: Rule::Plain,
    fallback: 0,
    workers: 2,
    batons: false,
};

const ACCOUNTS: [Account; 3] = [(1, 10), (2, 20), (3, 30)];

/// Three that go round.
const RING: [Ask; 3] = [(COPY, 1, 2), (COPY, 2, 3), (COPY, 3, 1)];

/// The answer of a batch of these calls on three accounts, run at this pace.
fn run_at<P: Pace + Sync, R: Abort + Threads + Sync>(
    rt: &R,
    alloc: Global,
    asks: &[Ask],
    pace: &P,
) -> Answer {
    let bank = engine(rt, alloc, &ACCOUNTS);
    let (_bank, answer) = run(rt, alloc, bank, calls(rt, alloc, asks), &CONFIG, pace);
    answer
}

/// The answer of three replicas.
fn run_three_at<P: Pace + Sync, R: Abort + Threads + Sync>(
    rt: &R,
    alloc: Global,
    asks: &[Ask],
    pace: &P,
) -> Answer {
    let three = replicas(rt, alloc, &ACCOUNTS, 3);
    let (_three, answer) = run_replicas(rt, alloc, three, calls(rt, alloc, asks), &CONFIG, pace);
    answer
}

/// Asserts how often it was told that a request runs on the batch's start, and that one runs again.
fn told(rt: &impl Abort, steps: &Steps, executes: u64, reruns: u64) {
    is_count(rt, "runs", steps.told(Place::Execute), executes);
    is_count(rt, "runs again", steps.told(Place::Rerun), reruns);
}

#[test]
fn each_run_of_a_request_is_told(rt: HostRuntime) {
    let steps = Steps::new();
    let _answer = run_at(&rt, rt.alloc(), &RING, &steps);
    told(&rt, &steps, 3, 2);
}

#[test]
fn each_replica_runs_each_request(rt: HostRuntime) {
    let steps = Steps::new();
    let _answer = run_three_at(&rt, rt.alloc(), &RING, &steps);
    told(&rt, &steps, 9, 6);
}

/// Three thousand calls that each put an account of its own: so many that two workers mark them.
fn apart(rt: &impl Abort, alloc: Global) -> Vec<Ask> {
    let mut asks = Vec::new(alloc);
    for account in 0..3_000_i64 {
        asks.push((SET, account, 7)).expect(rt, MEMORY);
    }
    asks
}

/// Asserts that two workers met at the gate, how many steps there were, and that so many requests
/// finished, in the order of their numbers from 1.
fn met(rt: &impl Abort, gate: &Gate, answer: &Answer, steps: u64, finished: u64) {
    holds(rt, "both are there", !gate.was_missed());
    is_count(rt, "steps", gate.steps(), steps);
    let order = in_turn(answer.order.as_slice()).unwrap_or(0);
    is_count(rt, "that finish in turn", order, finished);
}

#[test]
fn two_workers_meet_before_their_first_mark(rt: HostRuntime) {
    let gate = Gate::before(Place::Mark);
    let asks = apart(&rt, rt.alloc());
    let answer = run_at(&rt, rt.alloc(), &asks, &gate);
    met(&rt, &gate, &answer, 3_000, 3_000);
}

/// Forty calls of which all but the first wait for it, and are of one wave, since none writes what another one reads or
/// writes. They are so many that they are run again in waves, and by two workers.
fn fan(rt: &impl Abort, alloc: Global) -> Vec<Ask> {
    let mut asks = Vec::new(alloc);
    asks.push((SET, 1, 5)).expect(rt, MEMORY);
    for account in 2..=40_i64 {
        asks.push((COPY, 1, account)).expect(rt, MEMORY);
    }
    asks
}

#[test]
fn two_of_one_wave_meet_as_they_run_again(rt: HostRuntime) {
    let gate = Gate::before(Place::Rerun);
    let asks = fan(&rt, rt.alloc());
    let answer = run_at(&rt, rt.alloc(), &asks, &gate);
    met(&rt, &gate, &answer, 39, 40);
}
