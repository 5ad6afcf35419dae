// Runs and lists as long as they may be, and want of memory.
use crate::drawn::run_both;
use crate::engines::{MEMORY, ROUTINE, SET, engine, holds, try_run, work};
use crate::examples::run_printed;
use crate::plain::{Ask, Plain};
use crate::steps::{DELETE, PUT, READ, SCAN, Steps};
use answer_text::append_answer;
use dep_rules::Rule;
use std::alloc::Global;
use std::process::Abort;
use std::thread::Threads;

/// How many pairs a run reads, writes and scans here, one after the other.
const MANY: i64 = 40;

/// Works that scan under one number each and write under another.
fn thousand(rt: &impl Abort, alloc: Global) -> Vec<Ask> {
    let mut asks = Vec::new(alloc);
    for a in 0..1_000_i64 {
        let numbers = [SCAN, a, 0, PUT, a + 1_000, 0];
        let numbers = numbers.to_vec(alloc).expect(rt, MEMORY);
        asks.push((ROUTINE, numbers)).expect(rt, MEMORY);
    }
    asks
}

#[test]
fn a_batch_may_have_a_thousand_works(rt: HostRuntime) {
    let alloc = rt.alloc();
    for workers in [1, 2, 7] {
        let asks = thousand(&rt, alloc);
        let mut plain = Plain::begin(alloc);
        let none = engine(&rt, alloc);
        let (_many, answer) = run_both(&rt, alloc, none, &mut plain, asks, Rule::Plain, workers);
        let finished = answer.order.as_slice().len();
        holds(&rt, "all finish", u64::from(workers), finished == 1_000);
    }
}

/// Asserts that a run which puts so many pairs prints this, and how many stand there then.
fn puts<T: Abort + Threads + Sync>(rt: &T, alloc: Global, count: i64, wanted: &str, left: usize) {
    let mut numbers = Vec::new(alloc);
    for a in 0..count {
        let put = [PUT, a, 0];
        numbers.extend_from_slice(&put).expect(rt, MEMORY);
    }
    let mut out = Vec::new(alloc);
    let none = engine(rt, alloc);
    let asks = [(ROUTINE, numbers.as_slice())];
    let some = run_printed(rt, alloc, &mut out, none, Rule::Plain, &asks, 2);
    let printed = out.as_slice() == wanted.as_bytes();
    holds(rt, "what is printed", 1, printed);
    let rows = some.tables().rows().expect(rt, MEMORY);
    holds(rt, "the rows", 1, rows.len() == left);
}

#[test]
fn a_run_may_have_2560_actions_and_no_more(rt: HostRuntime) {
    let alloc = rt.alloc();
    puts(
        &rt,
        alloc,
        2_560,
        "batch 1\n1 ok 0\norder 1\nend 1\n",
        2_560,
    );
    puts(
        &rt,
        alloc,
        2_561,
        "batch 1\n1 trap many\norder 1\nend 1\n",
        0,
    );
}

/// What one run does with each of the forty pairs: it reads it, puts another one beside it, scans both, deletes the first, scans what is left
/// and reads it.
fn many_steps(rt: &impl Abort, alloc: Global) -> Vec<i64> {
    let mut steps = Vec::new(alloc);
    for (op, b) in [
        (READ, 0),
        (PUT, 1),
        (SCAN, 0),
        (DELETE, 0),
        (SCAN, 0),
        (READ, 1),
    ] {
        for a in 0..MANY {
            let step = [op, a, b];
            steps.extend_from_slice(&step).expect(rt, MEMORY);
        }
    }
    steps
}

fn many_sets(rt: &impl Abort, alloc: Global) -> Vec<Ask> {
    let mut asks = Vec::new(alloc);
    for a in 0..MANY {
        let numbers = [a, 0, a].to_vec(alloc).expect(rt, MEMORY);
        asks.push((SET, numbers)).expect(rt, MEMORY);
    }
    asks
}

/// The same run, one that scans what it wrote, and one that also writes where it scanned.
fn crowd(rt: &impl Abort, alloc: Global) -> Vec<Ask> {
    let past = [SCAN, MANY - 1, 0, PUT, 99, 0];
    let both = [SCAN, MANY - 2, 0, PUT, MANY - 1, 7];
    let mut asks = Vec::new(alloc);
    let many = many_steps(rt, alloc);
    asks.push((ROUTINE, many)).expect(rt, MEMORY);
    for steps in [past, both] {
        let steps = steps.to_vec(alloc).expect(rt, MEMORY);
        asks.push((ROUTINE, steps)).expect(rt, MEMORY);
    }
    asks
}

#[test]
fn a_run_may_touch_more_than_lists_are_searched_for(rt: HostRuntime) {
    let alloc = rt.alloc();
    for workers in [1, 2, 7] {
        let mut plain = Plain::begin(alloc);
        let (sets, asks) = (many_sets(&rt, alloc), crowd(&rt, alloc));
        let none = engine(&rt, alloc);
        let (pairs, _sets) = run_both(&rt, alloc, none, &mut plain, sets, Rule::Plain, workers);
        let (pairs, answer) = run_both(&rt, alloc, pairs, &mut plain, asks, Rule::Reorder, workers);
        let mut out = Vec::new(alloc);
        append_answer(&mut out, pairs.catalog(), &answer).expect(&rt, MEMORY);
        let wanted = b" 40 200\n42 ok 39 1\n43 wait both 41 41\norder 42 41\nend 2\n";
        let ends = out.ends_with(wanted);
        holds(&rt, "the end", u64::from(workers), ends);
    }
}

/// Asserts that there is neither an engine nor an answer where the routine has no memory after so many answers, of which its run has two.
fn starves<T: Abort + Threads + Sync>(rt: &T, alloc: Global, answers: usize, workers: u32) {
    let routines = Steps {
        fails_after: Some(answers),
    };
    let mut works = Vec::new(alloc);
    let set = work(rt, alloc, SET, &[1, 2, 3]);
    works.push(set).expect(rt, MEMORY);
    let counts = work(rt, alloc, ROUTINE, &[SCAN, 1, 0, PUT, 2, 0]);
    works.push(counts).expect(rt, MEMORY);
    let none = engine(rt, alloc);
    let ran = try_run(rt, alloc, none, &routines, works, Rule::Plain, workers);
    let starves = answers < 3;
    holds(
        rt,
        "want of memory",
        answers as u64,
        ran.is_err() == starves,
    );
}

#[test]
fn a_routine_without_memory_leaves_no_engine_and_no_answer(rt: HostRuntime) {
    for answers in 0..4 {
        starves(&rt, rt.alloc(), answers, 1);
        starves(&rt, rt.alloc(), answers, 7);
    }
}
