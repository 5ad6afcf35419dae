// Drawn batches of a bank, and what they come to by other ways.
ghost use Rattle.std.specs.Prelude.{◌≤◌, ◌<◌};
ghost use Rattle.aria_base.specs.declared.limits.TheConstants.{MOST_PERCENT};

use crate::banks::{MEMORY, calls, engine, run, same};
use aria_base::{Draws, Duplicate, Free, Items, Request};
use batch_core::{Answer, Reply, Wait};
use batch_engine::Engine;
use dep_rules::Config;
use std::alloc::Global;
use std::process::Abort;
use std::thread::Threads;
use tbl_rows::Tables;
use test_banks::{Account, Ask, Plain, SET, drawn, drawn_ask, drawn_rule, run_plainly};

/// More requests wait at most before no new ones come.
const CROWD: usize = 24;

/// Accounts that hold their own numbers.
const ACCOUNTS: [Account; 6] = [(1, 1), (2, 2), (3, 3), (4, 4), (5, 5), (6, 6)];

/// At most eight calls, and none where many wait. One batch in a hundred puts 100 accounts.
fn drawn_asks(rt: &impl Abort, alloc: Global, draws: &mut Draws, waiting: usize) -> Vec<Ask> {
    let mut asks = Vec::new(alloc);
    if waiting > CROWD {
        return asks;
    }
    if drawn(draws, 100) == 1 {
        for account in 1..101_i64 {
            asks.push((SET, account, account % 7 + 1))
                .expect(rt, MEMORY);
        }
    }
    for _ in 1..drawn(draws, 9) {
        asks.push(drawn_ask(draws)).expect(rt, MEMORY);
    }
    asks
}

/// Any settings, and in one of four batches up to three workers: to start them takes most of the time.
fn drawn_config(draws: &mut Draws) -> Config
    ensures { (result.fallback ≤ MOST_PERCENT) × (1 ≤ result.workers) × (result.workers ≤ 3) }
{
    let rule = drawn_rule(draws);
    let workers = if drawn(draws, 4) == 1 {
        drawn(draws, 3)
    } else {
        1
    };
    Config {
        rule,
        fallback: drawn(draws, 102) - 1,
        workers,
        batons: drawn(draws, 2) == 1,
    }
}

/// Which cause of waiting this is.
fn cause(wait: &Wait) -> usize
    ensures { result < 4 }
{
    match wait {
        Wait::Waw(_) => 0,
        Wait::Raw(_) => 1,
        Wait::Both(_, _) => 2,
        Wait::Moved(_) => 3,
    }
}

/// Counts the causes for which requests wait.
fn count(causes: &mut [u32; 4], answer: &Answer) {
    for line in answer.lines.as_slice() {
        if let Reply::Waits(wait) = &line.reply {
            let at = cause(wait);
            causes[at] = causes[at].wrapping_add(1);
        }
    }
}

/// Asserts that a batch by these settings is answered as it is by the plainest form.
fn same_answer(rt: &impl Abort, config: &Config, found: &Answer, wanted: &Answer) {
    same(rt, config, found, wanted);
}

/// Asserts that behind a batch by these settings the same requests wait as by the plainest form.
fn same_waiting(rt: &impl Abort, config: &Config, found: &[Request], wanted: &[Request]) {
    same(rt, config, &found, &wanted);
}

/// Asserts that these tables hold the rows that they hold by the plainest form.
fn same_rows(rt: &impl Abort, found: &Tables, wanted: &Tables) {
    let found = found.rows().expect(rt, MEMORY);
    let wanted = wanted.rows().expect(rt, MEMORY);
    same(rt, &"rows", &found, &wanted);
}

/// Runs a batch by one worker on a copy of the engine.
fn by_one_worker<R: Abort + Threads + Sync>(
    rt: &R,
    alloc: Global,
    engine: &Engine,
    asks: &[Ask],
    config: &Config,
) -> Answer
    requires { config.now.fallback ≤ MOST_PERCENT }
{
    let alone = Config {
        rule: config.rule,
        fallback: config.fallback,
        workers: 1,
        batons: false,
    };
    let copy = engine.copy(alloc).expect(rt, MEMORY);
    let (_copy, answer) = run(rt, alloc, copy, calls(rt, alloc, asks), &alone, &Free);
    answer
}

/// Runs a drawn batch on an engine and by the plainest form of the rules, and each tenth batch also on a
/// copy of the engine. Asserts that all answer the same, and that the same requests wait.
fn run_both<R: Abort + Threads + Sync>(
    rt: &R,
    alloc: Global,
    draws: &mut Draws,
    (engine, plain): (Engine, Plain),
    causes: &mut [u32; 4],
) -> (Engine, Plain) {
    let config = drawn_config(draws);
    let asks = drawn_asks(rt, alloc, draws, plain.waiting.len());
    let new = calls(rt, alloc, &asks);
    let ran = run_plainly(alloc, engine.catalog(), plain, new, &config);
    let (plain, wanted) = ran.expect(rt, MEMORY).expect(rt, "there is room");
    if wanted.number % 10 == 0 {
        let alone = by_one_worker(rt, alloc, &engine, &asks, &config);
        same_answer(rt, &config, &alone, &wanted);
    }
    let new = calls(rt, alloc, &asks);
    let (engine, answer) = run(rt, alloc, engine, new, &config, &Free);
    same_answer(rt, &config, &answer, &wanted);
    same_waiting(rt, &config, engine.carried(), &plain.waiting);
    count(causes, &answer);
    (engine, plain)
}

#[test]
fn a_thousand_batches_are_as_by_the_plainest_form(rt: HostRuntime) {
    let alloc = rt.alloc();
    let mut draws = Draws::of(17, 1);
    let mut causes = [0_u32; 4];
    let bank = engine(&rt, alloc, &ACCOUNTS);
    let plain = Plain::begin(alloc, bank.tables().copy().expect(&rt, MEMORY));
    let mut both = (bank, plain);
    for _ in 0..1000 {
        both = run_both(&rt, alloc, &mut draws, both, &mut causes);
    }
    let (bank, plain) = both;
    same_rows(&rt, bank.tables(), &plain.tables);
    for count in causes {
        assert!(&rt; count >= 10, "each cause came: {causes:?}");
    }
}
