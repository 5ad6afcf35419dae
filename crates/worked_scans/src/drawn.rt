// Drawn batches, which come to what they come to by the rules in their plainest form.
use crate::engines::{DROP, GET, MEMORY, ROUTINE, SET, engine, holds, run, work};
use crate::plain::{Ask, Plain, run_plainly};
use crate::steps::{DELETE, PUT, PUT_AT, READ, SCAN, SCAN_PAIRS, TRAP, pair};
use aria_base::{Draws, Row, Value};
use batch_core::{Answer, Reply, Wait};
use dep_rules::Rule;
use proc_lang::End;
use range_resv::{ScanEngine, Work};
use std::alloc::Global;
use std::process::Abort;
use std::thread::Threads;

/// How many batches are drawn.
const BATCHES: u32 = 500;

/// More works wait at most before no new ones come.
const CROWD: usize = 24;

const RULES: [Rule; 2] = [Rule::Plain, Rule::Reorder];

const WORKERS: [u32; 3] = [1, 2, 7];

/// What a drawn work calls.
const KINDS: [u16; 10] = [
    SET, SET, SET, GET, DROP, ROUTINE, ROUTINE, ROUTINE, ROUTINE, ROUTINE,
];

/// What a drawn step does: a long run has the first ten of these alone.
const OPS: [i64; 12] = [
    READ, READ, PUT, PUT, PUT, DELETE, DELETE, SCAN, SCAN, SCAN, PUT_AT, SCAN_PAIRS,
];

/// A number below this one.
fn drawn(draws: &mut Draws, below: u32) -> i64 {
    i64::from(draws.word() % below.max(1))
}

/// Up to four steps on few pairs, of which one in twelve traps.
fn short_steps(rt: &impl Abort, alloc: Global, draws: &mut Draws) -> Vec<i64> {
    let mut steps = Vec::new(alloc);
    for _ in 0..drawn(draws, 5) {
        let op = OPS[(draws.word() % 12) as usize];
        let traps = drawn(draws, 12) == 0;
        steps.push(if traps { TRAP } else { op }).expect(rt, MEMORY);
        steps.push(drawn(draws, 6)).expect(rt, MEMORY);
        steps.push(drawn(draws, 6)).expect(rt, MEMORY);
    }
    steps
}

/// Two hundred steps on more pairs, none of them on all.
fn long_steps(rt: &impl Abort, alloc: Global, draws: &mut Draws) -> Vec<i64> {
    let mut steps = Vec::new(alloc);
    for _ in 0..200 {
        let op = OPS[(draws.word() % 10) as usize];
        steps.push(op).expect(rt, MEMORY);
        steps.push(drawn(draws, 60)).expect(rt, MEMORY);
        steps.push(drawn(draws, 2)).expect(rt, MEMORY);
    }
    steps
}

/// A call of the routine, or of a procedure on few pairs.
fn drawn_ask(rt: &impl Abort, alloc: Global, draws: &mut Draws) -> Ask {
    let kind = KINDS[(draws.word() % 10) as usize];
    if kind == ROUTINE && drawn(draws, 20) == 0 {
        return (kind, long_steps(rt, alloc, draws));
    }
    if kind == ROUTINE {
        return (kind, short_steps(rt, alloc, draws));
    }
    let mut numbers = Vec::new(alloc);
    let count = if kind == SET { 3 } else { 2 };
    for _ in 0..count {
        numbers.push(drawn(draws, 6)).expect(rt, MEMORY);
    }
    (kind, numbers)
}

/// Up to five works or, one time of twenty, up to forty; and none where many wait.
fn drawn_asks(rt: &impl Abort, alloc: Global, draws: &mut Draws, waiting: usize) -> Vec<Ask> {
    let mut asks = Vec::new(alloc);
    if waiting > CROWD {
        return asks;
    }
    let most = if drawn(draws, 20) == 0 { 41 } else { 6 };
    for _ in 0..drawn(draws, most) {
        asks.push(drawn_ask(rt, alloc, draws)).expect(rt, MEMORY);
    }
    asks
}

/// The works that are asked for.
fn works(rt: &impl Abort, alloc: Global, asks: &[Ask]) -> Vec<Work> {
    let mut works = Vec::new(alloc);
    for (kind, numbers) in asks {
        let work = work(rt, alloc, *kind, numbers);
        works.push(work).expect(rt, MEMORY);
    }
    works
}

fn number_in(row: Option<&Row>) -> Option<i64> {
    match row?.as_slice() {
        [Value::Int(number)] => Some(*number),
        _ => None,
    }
}

/// Asserts that a batch is answered as by the plainest form, and leaves as many works and the same rows.
fn same(rt: &impl Abort, engine: &ScanEngine, answer: &Answer, plain: &Plain, wanted: &Answer) {
    let at = wanted.number;
    holds(rt, "the answer", at, answer == wanted);
    let waiting = engine.waiting().len() == plain.waiting.len();
    holds(rt, "what waits", at, waiting);
    let mut count = 0_usize;
    for &((a, b), number) in &plain.rows {
        let found = number_in(engine.tables().get(&pair(&a, &b)));
        holds(rt, "a row", at, found == number);
        if number.is_some() {
            count = count.wrapping_add(1);
        }
    }
    let rows = engine.tables().rows().expect(rt, MEMORY);
    holds(rt, "as many rows", at, rows.len() == count);
}

/// Counts the three causes of waiting, traps, other ends, and last the answers in which a work finishes that looked past an earlier write.
fn count(counts: &mut [u32; 6], answer: &Answer) {
    for line in answer.lines.as_slice() {
        match &line.reply {
            Reply::Waits(Wait::Waw(_)) => counts[0] = counts[0].wrapping_add(1),
            Reply::Waits(Wait::Raw(_)) => counts[1] = counts[1].wrapping_add(1),
            Reply::Waits(_) => counts[2] = counts[2].wrapping_add(1),
            Reply::Ended(End::Trap(_)) => counts[3] = counts[3].wrapping_add(1),
            Reply::Ended(_) => counts[4] = counts[4].wrapping_add(1),
        }
    }
    if let [first, second, ..] = answer.order.as_slice() {
        if second < first {
            counts[5] = counts[5].wrapping_add(1);
        }
    }
}

/// Runs a batch by so many workers and by the plainest form, and asserts that both come to the same.
pub fn run_both<T: Abort + Threads + Sync>(
    rt: &T,
    alloc: Global,
    engine: ScanEngine,
    plain: &mut Plain,
    asks: Vec<Ask>,
    rule: Rule,
    workers: u32,
) -> (ScanEngine, Answer) {
    let works = works(rt, alloc, &asks);
    let wanted = run_plainly(rt, alloc, plain, asks, rule);
    let (engine, answer) = run(rt, alloc, engine, works, rule, workers);
    same(rt, &engine, &answer, plain, &wanted);
    (engine, answer)
}

/// Runs a drawn batch by 1, 2 or 7 workers and by the plainest form.
fn run_drawn<T: Abort + Threads + Sync>(
    rt: &T,
    alloc: Global,
    draws: &mut Draws,
    engine: ScanEngine,
    plain: &mut Plain,
    counts: &mut [u32; 6],
) -> ScanEngine {
    let rule = RULES[(draws.word() % 2) as usize];
    let workers = WORKERS[(draws.word() % 3) as usize];
    let asks = drawn_asks(rt, alloc, draws, plain.waiting.len());
    let (engine, answer) = run_both(rt, alloc, engine, plain, asks, rule, workers);
    count(counts, &answer);
    engine
}

#[test]
fn five_hundred_batches_are_as_by_the_plainest_form(rt: HostRuntime) {
    let alloc = rt.alloc();
    let mut draws = Draws::of(31, 1);
    let mut counts = [0; 6];
    let mut plain = Plain::begin(alloc);
    let mut pairs = engine(&rt, alloc);
    for _ in 0..BATCHES {
        pairs = run_drawn(&rt, alloc, &mut draws, pairs, &mut plain, &mut counts);
    }
    for count in counts {
        holds(
            &rt,
            "each kind came ten times",
            u64::from(count),
            count >= 10,
        );
    }
}
