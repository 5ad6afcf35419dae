// Examples that were worked out by hand.
ghost use Rattle.std.specs.Prelude.{◌≤◌};
ghost use Rattle.aria_base.specs.declared.limits.TheConstants.{MOST_PERCENT, MOST_WORKERS};

use crate::banks::{MEMORY, calls, engine, is_count, replicas, run, run_replicas, same};
use answer_text::{append_answer, append_state};
use aria_base::Free;
use batch_engine::Engine;
use batch_rules::verdicts::Rule;
use batch_rules::verdicts::Rule::{Plain, Reorder};
use dep_rules::Config;
use std::alloc::Global;
use std::process::Abort;
use std::thread::Threads;
use test_banks::{ADD, Account, Ask, COPY, DROP, HOP, SET, SUM};

/// The accounts before, the calls of each batch, the rule and the percentage from which on those that
/// wait are run again, and what the batches print, with the rows that they leave.
type Example = (
    &'static [Account],
    &'static [&'static [Ask]],
    Rule,
    u32,
    &'static str,
);

/// Three accounts.
const HEAD: &[Account] = &[(1, 10), (2, 20), (3, 30)];

/// Each puts what the account behind its own holds, and they go round.
const RING: &[&[Ask]] = &[&[(COPY, 1, 2), (COPY, 2, 3), (COPY, 3, 1)]];

/// Two write one account.
const TWO: &[&[Ask]] = &[&[(ADD, 1, 5), (ADD, 1, 7)]];

/// The second reads what the first puts, where nothing was before.
const NEW: &[&[Ask]] = &[&[(SET, 9, 4), (ADD, 9, 1)]];

/// No percentage reaches it.
const NEVER: u32 = 101;

const EXAMPLES: [Example; 14] = [
    // what waits is run in the next batch
    (
        HEAD,
        &[&[(ADD, 1, 5), (ADD, 1, 7)], &[]],
        Reorder,
        NEVER,
        "batch 1\n1 ok 15\n2 wait waw 1\norder 1\nend 1\nbatch 2\n2 ok 22\norder 2\nend 2\nstate 2\nrow acct 1 = 22\nrow acct 2 = 20\nrow acct 3 = 30\nend state\n",
    ),
    // one that read too early alone stands before what it read past
    (
        HEAD,
        RING,
        Reorder,
        NEVER,
        "batch 1\n1 ok 10\n2 ok 20\n3 wait both 2 1\norder 2 1\nend 1\nstate 1\nrow acct 1 = 10\nrow acct 2 = 10\nrow acct 3 = 20\nend state\n",
    ),
    // by the rule plain the third waits for one that itself waits
    (
        HEAD,
        RING,
        Plain,
        NEVER,
        "batch 1\n1 ok 10\n2 wait raw 1\n3 wait raw 2\norder 1\nend 1\nstate 1\nrow acct 1 = 10\nrow acct 2 = 10\nrow acct 3 = 30\nend state\n",
    ),
    // one of two waits, which is 50 of a hundred
    (
        HEAD,
        TWO,
        Reorder,
        50,
        "batch 1\n1 ok 15\n2 ok 22\norder 1 2\nend 1\nstate 1\nrow acct 1 = 22\nrow acct 2 = 20\nrow acct 3 = 30\nend state\n",
    ),
    (
        HEAD,
        TWO,
        Reorder,
        0,
        "batch 1\n1 ok 15\n2 ok 22\norder 1 2\nend 1\nstate 1\nrow acct 1 = 22\nrow acct 2 = 20\nrow acct 3 = 30\nend state\n",
    ),
    (
        HEAD,
        TWO,
        Reorder,
        51,
        "batch 1\n1 ok 15\n2 wait waw 1\norder 1\nend 1\nstate 1\nrow acct 1 = 15\nrow acct 2 = 20\nrow acct 3 = 30\nend state\n",
    ),
    // the first run wrote account 10, and the next one would write account 3
    (
        HEAD,
        &[&[(SET, 1, 3), (HOP, 1, 99)], &[]],
        Plain,
        0,
        "batch 1\n1 ok 3\n2 wait moved acct 3\norder 1\nend 1\nbatch 2\n2 ok 99\norder 2\nend 2\nstate 2\nrow acct 1 = 3\nrow acct 2 = 20\nrow acct 3 = 99\nend state\n",
    ),
    // one that finds no row fails by itself, before the one that puts it
    (
        HEAD,
        NEW,
        Reorder,
        NEVER,
        "batch 1\n1 ok 4\n2 back 1\norder 2 1\nend 1\nstate 1\nrow acct 1 = 10\nrow acct 2 = 20\nrow acct 3 = 30\nrow acct 9 = 4\nend state\n",
    ),
    // its first run wrote nothing, so the next one may not
    (
        HEAD,
        NEW,
        Plain,
        0,
        "batch 1\n1 ok 4\n2 wait moved acct 9\norder 1\nend 1\nstate 1\nrow acct 1 = 10\nrow acct 2 = 20\nrow acct 3 = 30\nrow acct 9 = 4\nend state\n",
    ),
    (
        HEAD,
        &[&[(SET, 1, 0), (SUM, 1, 2)]],
        Reorder,
        NEVER,
        "batch 1\n1 ok 0\n2 ok 30\norder 2 1\nend 1\nstate 1\nrow acct 1 = 0\nrow acct 2 = 20\nrow acct 3 = 30\nend state\n",
    ),
    // one that traps finishes, and leaves nothing
    (
        &[(1, 9223372036854775807)],
        &[&[(ADD, 1, 1)]],
        Reorder,
        NEVER,
        "batch 1\n1 trap overflow\norder 1\nend 1\nstate 1\nrow acct 1 = 9223372036854775807\nend state\n",
    ),
    // to delete what is not there is a write
    (
        HEAD,
        &[&[(DROP, 9, 0), (SET, 9, 4)]],
        Reorder,
        NEVER,
        "batch 1\n1 ok\n2 wait waw 1\norder 1\nend 1\nstate 1\nrow acct 1 = 10\nrow acct 2 = 20\nrow acct 3 = 30\nend state\n",
    ),
    // the two that wait are run again one after the other
    (
        HEAD,
        RING,
        Plain,
        0,
        "batch 1\n1 ok 10\n2 ok 10\n3 ok 10\norder 1 2 3\nend 1\nstate 1\nrow acct 1 = 10\nrow acct 2 = 10\nrow acct 3 = 10\nend state\n",
    ),
    // what waits stands before the new calls, which have the next numbers
    (
        HEAD,
        &[&[(ADD, 1, 1), (ADD, 1, 2)], &[(ADD, 1, 4)], &[]],
        Reorder,
        NEVER,
        "batch 1\n1 ok 11\n2 wait waw 1\norder 1\nend 1\nbatch 2\n2 ok 13\n3 wait waw 2\norder 2\nend 2\nbatch 3\n3 ok 17\norder 3\nend 3\nstate 3\nrow acct 1 = 17\nrow acct 2 = 20\nrow acct 3 = 30\nend state\n",
    ),
];

/// The settings of an example on so many workers, in one way or the other of running again what waits.
fn config_of(rt: &impl Abort, example: &Example, workers: u32, batons: bool) -> Config
    requires { (1 ≤ workers) × (workers ≤ MOST_WORKERS) }
    ensures { (result.fallback ≤ MOST_PERCENT) × (1 ≤ result.workers) × (result.workers ≤ MOST_WORKERS) }
{
    let (_, _, rule, fallback, _) = *example;
    assert!(rt; fallback <= NEVER);
    Config {
        rule,
        fallback,
        workers,
        batons,
    }
}

/// Asserts that answers, with the engine's rows behind them, are what the example prints.
fn same_text(rt: &impl Abort, case: &Config, answers: &mut Vec<u8>, engine: &Engine, wanted: &str) {
    let (catalog, tables) = (engine.catalog(), engine.tables());
    append_state(answers, catalog, tables, engine.batches()).expect(rt, MEMORY);
    let found = str::from_utf8(answers).unwrap_or("?");
    same(rt, case, &found, &wanted);
}

/// Asserts that an engine on so many workers prints what the example does, whether what waits is run again in waves
/// or by handed rows.
fn engine_prints<R: Abort + Threads + Sync>(
    rt: &R,
    alloc: Global,
    example: &Example,
    workers: u32,
    batons: bool,
)
    requires { (1 ≤ workers) × (workers ≤ MOST_WORKERS) }
{
    let config = config_of(rt, example, workers, batons);
    let (accounts, batches, _, _, wanted) = *example;
    let mut engine = engine(rt, alloc, accounts);
    let mut answers = Vec::new(alloc);
    for asks in batches {
        let new = calls(rt, alloc, asks);
        let (next, answer) = run(rt, alloc, engine, new, &config, &Free);
        append_answer(&mut answers, next.catalog(), &answer).expect(rt, MEMORY);
        engine = next;
    }
    same_text(rt, &config, &mut answers, &engine, wanted);
}

/// Asserts that three replicas print what the example does, and that the rows of each are those.
fn replicas_print<R: Abort + Threads + Sync>(rt: &R, alloc: Global, example: &Example) {
    let config = config_of(rt, example, 2, true);
    let (accounts, batches, _, _, wanted) = *example;
    let mut replicas = replicas(rt, alloc, accounts, 3);
    let mut answers = Vec::new(alloc);
    for asks in batches {
        let new = calls(rt, alloc, asks);
        let (next, answer) = run_replicas(rt, alloc, replicas, new, &config, &Free);
        append_answer(&mut answers, next.first().catalog(), &answer).expect(rt, MEMORY);
        replicas = next;
    }
    is_count(rt, "replicas", u64::from(replicas.count()), 3);
    let printed = answers.len();
    for engine in replicas.parts().as_slice() {
        same_text(rt, &config, &mut answers, engine, wanted);
        answers.truncate(printed);
    }
}

#[test]
fn engines_print_what_was_worked_out(rt: HostRuntime) {
    for example in &EXAMPLES {
        for workers in [1, 2, 7_u32] {
            for batons in [false, true] {
                engine_prints(&rt, rt.alloc(), example, workers, batons);
            }
        }
    }
}

#[test]
fn replicas_print_what_was_worked_out(rt: HostRuntime) {
    for example in &EXAMPLES {
        replicas_print(&rt, rt.alloc(), example);
    }
}
