// The rules of a batch of works that scan in their plainest form: lists of numbers, one worker, no index and no words.
use crate::engines::{GET, MEMORY, ROUTINE};
use crate::steps::{DELETE, PUT, PUT_AT, READ, SCAN, SCAN_PAIRS, done};
use aria_base::{Items, Value};
use batch_core::{Answer, Line, Reply, Wait};
use dep_rules::Rule;
use proc_lang::{End, MOST_GIVEN, Trap};
use std::alloc::Global;
use std::mem;
use std::process::Abort;

/// The two parts of a key.
pub type Pair = (i64, i64);

/// The number at a pair, or that there is none.
pub type Row = (Pair, Option<i64>);

/// What a work calls, and with which numbers.
pub type Ask = (u16, Vec<i64>);

/// Where a run looks: at one pair, at those under a first part, or at all.
type Look = (Option<i64>, Option<i64>);

/// The first earlier request that writes what this one writes, that writes where this one looks, and that looks where this one writes.
type Least = (Option<u64>, Option<u64>, Option<u64>);

/// A database between two batches.
#[derive(Drop)]
pub struct Plain {
    pub rows: Vec<Row>,
    pub waiting: Vec<(u64, Ask)>,
    pub batches: u64,
    pub requests: u64,
}

impl Plain {
    /// One without rows, before its first batch.
    pub fn begin(alloc: Global) -> Plain {
        Plain {
            rows: Vec::new(alloc),
            waiting: Vec::new(alloc),
            batches: 0,
            requests: 0,
        }
    }
}

/// A run of a request: the rows as it has them by now, where it looked, what it wrote, the numbers that it found, and whether it trapped.
#[derive(Drop)]
struct Run {
    q: u64,
    ask: Ask,
    rows: Vec<Row>,
    looks: Vec<Look>,
    writes: Vec<Row>,
    found: Vec<i64>,
    traps: bool,
}

fn place_of(rows: &[Row], pair: Pair) -> usize {
    for (place, row) in rows.iter().enumerate() {
        if row.0 == pair {
            return place;
        }
    }
    rows.len()
}

/// Sets what stands at a pair.
fn set(rt: &impl Abort, rows: &mut Vec<Row>, row: Row) {
    let place = place_of(rows, row.0);
    if place < rows.len() {
        rows[place] = row;
        return;
    }
    rows.push(row).expect(rt, MEMORY);
}

fn is_in((first, second): Look, pair: Pair) -> bool {
    first.unwrap_or(pair.0) == pair.0 && second.unwrap_or(pair.1) == pair.1
}

/// Finds the numbers there, in the order of the pairs. A pair that the run wrote before does not count as read.
fn find(rt: &impl Abort, alloc: Global, run: &mut Run, look: Look) {
    let mut found = Vec::new(alloc);
    for &(pair, number) in &run.rows {
        if let Some(number) = number {
            if is_in(look, pair) {
                found.push((pair, number)).expect(rt, MEMORY);
            }
        }
    }
    found.sort().expect(rt, MEMORY);
    for (_, number) in found {
        run.found.push(number).expect(rt, MEMORY);
    }
    let pair = (look.0.unwrap_or(0), look.1.unwrap_or(0));
    let written = place_of(&run.writes, pair) < run.writes.len();
    if look.1.is_none() || !written {
        run.looks.push(look).expect(rt, MEMORY);
    }
}

fn write(rt: &impl Abort, run: &mut Run, row: Row) {
    set(rt, &mut run.rows, row);
    set(rt, &mut run.writes, row);
}

fn step(rt: &impl Abort, alloc: Global, run: &mut Run, op: i64, a: i64, b: i64) {
    let count = run.found.len().min(1_000) as i64;
    match op {
        READ => find(rt, alloc, run, (Some(a), Some(b))),
        PUT => write(rt, run, ((a, b), Some(count))),
        PUT_AT => write(rt, run, ((a, count), Some(b))),
        DELETE => write(rt, run, ((a, b), None)),
        SCAN => find(rt, alloc, run, (Some(a), None)),
        SCAN_PAIRS => find(rt, alloc, run, (None, None)),
        _ => run.traps = true,
    }
}

/// The steps of a routine, up to one that traps. It gives how much it found, too.
fn take_steps(rt: &impl Abort, alloc: Global, run: &mut Run, steps: &[i64]) {
    for one in steps.chunks(3) {
        if let [op, a, b] = one {
            step(rt, alloc, run, *op, *a, *b);
        }
        if run.traps {
            return;
        }
    }
    let count = run.found.len().min(1_000) as i64;
    run.found.push(count).expect(rt, MEMORY);
}

/// A procedure: one that puts has three numbers, the others have two.
fn call(rt: &impl Abort, alloc: Global, run: &mut Run, proc: u16, numbers: &[i64]) {
    if let [a, b, number] = numbers {
        write(rt, run, ((*a, *b), Some(*number)));
    }
    if let [a, b] = numbers {
        if proc != GET {
            write(rt, run, ((*a, *b), None));
            return;
        }
        find(rt, alloc, run, (Some(*a), Some(*b)));
        if run.found.is_empty() {
            run.found.push(0).expect(rt, MEMORY);
        }
    }
}

/// The run of a request on these rows. One that traps writes nothing.
fn run_of(rt: &impl Abort, alloc: Global, rows: &[Row], q: u64, ask: Ask) -> Run {
    let (kind, numbers) = ask;
    let mut run = Run {
        q,
        ask: (kind, numbers.to_vec(alloc).expect(rt, MEMORY)),
        rows: rows.to_vec(alloc).expect(rt, MEMORY),
        looks: Vec::new(alloc),
        writes: Vec::new(alloc),
        found: Vec::new(alloc),
        traps: false,
    };
    if kind == ROUTINE {
        take_steps(rt, alloc, &mut run, &numbers);
    } else {
        call(rt, alloc, &mut run, kind, &numbers);
    }
    if run.traps || run.found.len() > MOST_GIVEN {
        run.writes = Vec::new(alloc);
    }
    run
}

fn end_of(rt: &impl Abort, alloc: Global, run: &Run) -> End {
    if run.traps {
        return End::Trap(Trap::Absent);
    }
    let mut values = Vec::new(alloc);
    for number in &run.found {
        values.push(Value::Int(*number)).expect(rt, MEMORY);
    }
    done(values)
}

/// Whether one run looks where the other one writes.
fn looks_into(one: &Run, other: &Run) -> bool {
    for row in &other.writes {
        for look in &one.looks {
            if is_in(*look, row.0) {
                return true;
            }
        }
    }
    false
}

/// Whether both write one pair.
fn meet(one: &Run, other: &Run) -> bool {
    for row in &one.writes {
        if place_of(&other.writes, row.0) < other.writes.len() {
            return true;
        }
    }
    false
}

/// Whom the run at this place meets.
fn least_of(runs: &[Run], place: usize, me: &Run) -> Least {
    let (mut waw, mut raw, mut war) = (None, None, None);
    for other in runs.iter().take(place) {
        if meet(me, other) {
            waw = waw.or(Some(other.q));
        }
        if looks_into(me, other) {
            raw = raw.or(Some(other.q));
        }
        if looks_into(other, me) {
            war = war.or(Some(other.q));
        }
    }
    (waw, raw, war)
}

/// For whom a request waits, where it does.
fn wait_of((waw, raw, war): Least, rule: Rule) -> Option<Wait> {
    if let Some(waw) = waw {
        return Some(Wait::Waw(waw));
    }
    let raw = raw?;
    if rule == Rule::Plain {
        return Some(Wait::Raw(raw));
    }
    Some(Wait::Both(raw, war?))
}

/// The runs of what waits and of what is new.
fn runs_of(rt: &impl Abort, alloc: Global, plain: &mut Plain, asks: Vec<Ask>) -> Vec<Run> {
    let mut runs = Vec::new(alloc);
    for (q, ask) in mem::replace(&mut plain.waiting, Vec::new(alloc)) {
        let run = run_of(rt, alloc, &plain.rows, q, ask);
        runs.push(run).expect(rt, MEMORY);
    }
    for ask in asks {
        plain.requests = plain.requests.wrapping_add(1);
        let run = run_of(rt, alloc, &plain.rows, plain.requests, ask);
        runs.push(run).expect(rt, MEMORY);
    }
    runs
}

/// What becomes of a run that meets these: its writes are made, or it waits.
fn settle(
    rt: &impl Abort,
    alloc: Global,
    plain: &mut Plain,
    run: &Run,
    wait: Option<Wait>,
) -> Line {
    let q = run.q;
    if let Some(wait) = wait {
        let numbers = run.ask.1.to_vec(alloc).expect(rt, MEMORY);
        let waiting = (q, (run.ask.0, numbers));
        plain.waiting.push(waiting).expect(rt, MEMORY);
        let reply = Reply::Waits(wait);
        return Line { q, reply };
    }
    for row in &run.writes {
        set(rt, &mut plain.rows, *row);
    }
    let reply = Reply::Ended(end_of(rt, alloc, run));
    Line { q, reply }
}

/// Runs the next batch.
pub fn run_plainly(
    rt: &impl Abort,
    alloc: Global,
    plain: &mut Plain,
    asks: Vec<Ask>,
    rule: Rule,
) -> Answer {
    let runs = runs_of(rt, alloc, plain, asks);
    let mut lines = Vec::new(alloc);
    let mut past = Vec::new(alloc);
    let mut others = Vec::new(alloc);
    for (place, run) in runs.iter().enumerate() {
        let least = least_of(&runs, place, run);
        let wait = wait_of(least, rule);
        if wait.is_none() {
            let finished = if least.1.is_some() {
                &mut past
            } else {
                &mut others
            };
            finished.push(run.q).expect(rt, MEMORY);
        }
        let line = settle(rt, alloc, plain, run, wait);
        lines.push(line).expect(rt, MEMORY);
    }
    past.reverse();
    past.append(&mut others).expect(rt, MEMORY);
    plain.batches = plain.batches.wrapping_add(1);
    Answer {
        number: plain.batches,
        lines: Items::from_vec(lines),
        order: Items::from_vec(past),
    }
}
