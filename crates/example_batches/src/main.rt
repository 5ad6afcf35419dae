//! Accounts on the engine as a library, without a store. Three batches run on three replicas of two workers each,
//! and each answer is printed. At the end come the rows of each replica, which are equal.
#![tactic(auto)]

ghost use Rattle.std.specs.Prelude.{IfOk};
ghost use Rattle.replica_run.specs.Replicas.{MayRun};

mod accounts;

use crate::accounts::{add_call, catalog};
use answer_text::{print_answer, print_state};
use aria_base::{Call, FileSink, Free, GREATEST_NUMBER, MOST_REQUESTS, Memory, Sink, TxtRefused};
use batch_engine::Engine;
use batch_rules::verdicts::Rule;
use dep_rules::Config;
use proc_verify::VerifyRefused;
use replica_run::Replicas;
use std::alloc::Global;
use std::io::{Print, writer};
use std::process::ExitCode;
use std::thread::Threads;
use tbl_rows::Tables;
use thiserror::Error;

/// What is added to which account. In the second batch two requests write account 1: the later one waits, and
/// finishes in the third batch.
const BATCHES: [&[(i64, i64)]; 3] = [
    &[(1, 100), (2, 20)],
    &[(1, -30), (1, -15), (2, 45)],
    &[(3, 5)],
];

/// What waits is never run again in its own batch.
const CONFIG: Config = Config {
    rule: Rule::Reorder,
    fallback: 101,
    workers: 2,
    batons: false,
};

/// Why the program stops.
#[derive(Debug, Drop, Error)]
enum Fault {
    #[error("{0}")]
    Memory(#[from] Memory),
    #[error("a name is refused: {0}")]
    Name(#[from] TxtRefused),
    #[error("a procedure is refused: {0}")]
    Procedure(#[from] VerifyRefused),
    #[error("the catalogue does not take the call")]
    NotTaken,
    #[error("the batch has no room for the calls")]
    NoRoom,
    #[error("no numbers of batches or requests are left")]
    NoNumbers,
    #[error("the output is not written")]
    NoWrite,
}

fn main(rt: HostRuntime) -> ExitCode {
    let Err(fault) = run(&rt) else {
        return ExitCode::SUCCESS;
    };
    let _ = eprintln!(&rt; "batches: {fault}");
    ExitCode::FAILURE
}

/// Runs the batches on three replicas, and prints the answers and the rows of each replica.
fn run<R: AllocGlobal + Print + Threads + Sync>(rt: &R) -> Result<(), Fault> {
    let alloc = rt.alloc();
    let mut out = FileSink::new(writer(rt));
    let catalog = catalog(alloc)?;
    let first = Engine::begin(catalog, Tables::new(alloc)?, Vec::new(alloc), 0, 0);
    let mut replicas = Replicas::begin(alloc, first, 3)?;
    for asked in BATCHES {
        let calls = calls_for(alloc, replicas.first(), asked)?;
        let (next, answer) = replicas.run_batch(rt, alloc, calls, &CONFIG, &Free)?;
        replicas = next;
        let text = print_answer(alloc, replicas.first().catalog(), &answer)?;
        out.give(&text).map_err(|_| Fault::NoWrite)?;
    }
    for engine in replicas.parts().as_slice() {
        let rows = print_state(alloc, engine.catalog(), engine.tables(), engine.batches())?;
        out.give(&rows).map_err(|_| Fault::NoWrite)?;
    }
    Ok(())
}

/// The calls that are asked for, where the engine may run them as its next batch.
fn calls_for(alloc: Global, engine: &Engine, asked: &[(i64, i64)]) -> Result<Vec<Call>, Fault>
    ensures { IfOk result (λ calls. MayRun CONFIG calls.items engine.now) }
{
    let mut calls = Vec::new(alloc);
    for &(account, amount) in asked {
        let call = add_call(alloc, account, amount)?;
        if !engine.catalog().takes(&call) {
            return Err(Fault::NotTaken);
        }
        calls.push(call).map_err(|_| Memory)?;
    }
    if engine.carried().len() + calls.len() > MOST_REQUESTS {
        return Err(Fault::NoRoom);
    }
    let most = GREATEST_NUMBER - calls.len() as u64;
    if engine.batches() >= GREATEST_NUMBER || engine.requests() > most {
        return Err(Fault::NoNumbers);
    }
    Ok(calls)
}
