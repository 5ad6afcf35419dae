// Batches of all five requests, whose answers no worker changes; and tables that are taken, or are not.
ghost use Rattle.aria_base.specs.Schemas.{IsConsistent};
ghost use Rattle.cat_builtin.specs.Tpcc.{tpcc};

use crate::databases::{MEMORY, key};
use crate::steps::holds;
use aria_base::{Draws, Free, Key, MOST_WORKERS};
use batch_core::{Answer, Reply};
use dep_rules::{Config, Rule};
use proc_lang::End;
use std::alloc::Global;
use std::process::Abort;
use std::thread::Threads;
use tbl_rows::Tables;
use tpcc_load::Tpcc;
use tpcc_more::{Mix, Soundness, Taken, first_failure, more_batch};

const SMALL: Tpcc = Tpcc {
    number: 5,
    warehouses: 1,
    customers: 30,
    items: 100,
};

/// How many batches are run.
const BATCHES: u64 = 2;

/// How many requests a batch has, if there is room.
const SIZE: u32 = 20;

/// Runs the next batch.
fn next<T: Abort + Threads + Sync>(
    rt: &T,
    alloc: Global,
    mix: Mix,
    draws: &mut Draws,
    rule: Rule,
    workers: u32,
) -> (Mix, Answer) {
    let number = mix.batches();
    assert!(rt; number < 1_000, "few batches");
    assert!(rt; mix.requests() < 1_000_000, "few requests");
    let size = mix.room().min(SIZE);
    let works = more_batch(alloc, &SMALL, draws, number + 1, size).expect(rt, MEMORY);
    let has_room = works.len() <= mix.room() as usize;
    assert!(rt; has_room, "room");
    let config = Config {
        rule,
        fallback: 101,
        workers: workers.clamp(1, MOST_WORKERS),
        batons: false,
    };
    let ran = mix.run_batch(rt, alloc, works, &config, &Free);
    ran.expect(rt, MEMORY)
}

/// The database behind the batches by this rule and so many workers, and their answers.
fn course<T: Abort + Threads + Sync>(
    rt: &T,
    alloc: Global,
    rule: Rule,
    workers: u32,
) -> (Mix, Vec<Answer>) {
    let mut mix = Mix::head(alloc, &SMALL).expect(rt, MEMORY);
    let mut draws = Draws::of(SMALL.number, 2);
    let mut answers = Vec::new(alloc);
    for _ in 0..BATCHES {
        let (behind, answer) = next(rt, alloc, mix, &mut draws, rule, workers);
        answers.push(answer).expect(rt, MEMORY);
        mix = behind;
    }
    (mix, answers)
}

/// Whether one of the requests trapped.
fn traps(answer: &Answer) -> bool {
    for line in answer.lines.as_slice() {
        if matches!(line.reply, Reply::Ended(End::Trap(_))) {
            return true;
        }
    }
    false
}

/// Asserts that one worker and four come to the same by this rule, and that nobody trapped.
fn same<T: Abort + Threads + Sync>(rt: &T, alloc: Global, rule: Rule) {
    let (one, first) = course(rt, alloc, rule, 1);
    let (four, second) = course(rt, alloc, rule, 4);
    holds(rt, "the answers", 0, first == second);
    holds(rt, "what waits", 0, one.left() == four.left());
    crate::steps::same_rows(rt, one.tables(), four.tables());
    for answer in &first {
        holds(rt, "no trap", 0, !traps(answer));
    }
}

#[test]
fn no_worker_changes_a_batch(rt: HostRuntime) {
    same(&rt, rt.alloc(), Rule::Plain);
}

#[test]
fn no_worker_changes_a_batch_that_is_reordered(rt: HostRuntime) {
    same(&rt, rt.alloc(), Rule::Reorder);
}

/// A copy of the rows.
#[tactic(auto, using(crate::proofs::Ready::fit_copy))]
fn copied(rt: &impl Abort, mix: &Mix) -> Tables
    ensures { IsConsistent tpcc.tables result }
{
    mix.ready();
    mix.tables().copy().expect(rt, MEMORY)
}

/// These tables without this row, which is to be there.
#[tactic(auto, using(crate::proofs::Ready::fit_without))]
fn without(rt: &impl Abort, tables: Tables, key: &Key) -> Tables
    requires { IsConsistent tpcc.tables tables }
    ensures { IsConsistent tpcc.tables result }
{
    let mut changed = tables;
    let there = changed.delete(key);
    holds(rt, "a row to delete", 0, there);
    changed
}

/// What fails first where tables are taken: the condition, or 0 where they are sound.
fn failure(rt: &impl Abort, alloc: Global, tables: Tables) -> u8
    requires { IsConsistent tpcc.tables tables }
{
    match Mix::take(alloc, tables).expect(rt, MEMORY) {
        Taken::Ready(_) => 0,
        Taken::Fails { condition, .. } => condition,
    }
}

/// What batches leave is taken. Without the row of a line it is not.
#[test]
fn sound_tables_are_taken(rt: HostRuntime) {
    let alloc = rt.alloc();
    let (mix, _answers) = course(&rt, alloc, Rule::Reorder, 2);
    let found = first_failure(alloc, mix.tables()).expect(&rt, MEMORY);
    holds(&rt, "sound", 0, found == Soundness::Sound);
    holds(&rt, "taken", 0, failure(&rt, alloc, copied(&rt, &mix)) == 0);
    let line = key(&rt, alloc, 6, &[1, 1, 1, 1]);
    let unsound = without(&rt, copied(&rt, &mix), &line);
    holds(&rt, "not taken", 0, failure(&rt, alloc, unsound) == 4);
}
