//! Three nodes over a network in memory that loses a third of the messages, repeats a third, and turns their order. In the end all
//! messages are delivered until the nodes have settled, and the answers and rows are printed: they are those of one database.
#![tactic(auto)]

ghost use Rattle.std.specs.Prelude.{IfOk};
ghost use Rattle.part_nodes.specs.Ready.{AreReady};

use answer_text::{print_answer, print_state};
use aria_base::{
    Arg, Args, Call, FileSink, Key, MOST_REQUESTS, Memory, Part, Parts, Row, Sink, Value,
};
use batch_rules::verdicts::Rule;
use cat_builtin::builtin;
use part_nodes::{NetEvent, Nodes, NodesRefused};
use proc_lang::Catalog;
use std::alloc::Global;
use std::io::{Print, writer};
use std::process::ExitCode;
use tbl_rows::Tables;
use thiserror::Error;

/// Each batch copies what accounts hold to others. In the first one three go round, so that one of them waits.
const BATCHES: [&[(i64, i64)]; 2] = [&[(1, 2), (2, 3), (3, 1)], &[(1, 4), (4, 1)]];

/// The procedure `copy` in the catalogue of accounts.
const COPY: u16 = 1;

/// The accounts, and what they hold.
const ACCOUNTS: [(i64, i64); 4] = [(1, 10), (2, 20), (3, 30), (4, 40)];

/// Why the program stops.
#[derive(Debug, Drop, Error)]
enum Fault {
    #[error("{0}")]
    Memory(#[from] Memory),
    #[error("{0}")]
    Refused(#[from] NodesRefused),
    #[error("there is no catalogue of accounts")]
    NoBank,
    #[error("no more calls can be started")]
    NoRoom,
    #[error("a batch is not complete")]
    NotComplete,
    #[error("the output is not written")]
    NoWrite,
}

fn main(rt: HostRuntime) -> ExitCode {
    let Err(fault) = run(&rt) else {
        return ExitCode::SUCCESS;
    };
    let _ = eprintln!(&rt; "nodes: {fault}");
    ExitCode::FAILURE
}

/// Runs the batches on three nodes, and prints the answers and the rows.
fn run<R: AllocGlobal + Print>(rt: &R) -> Result<(), Fault> {
    let alloc = rt.alloc();
    let mut out = FileSink::new(writer(rt));
    let mut nodes = Nodes::begin(alloc, bank(alloc)?, accounts(alloc)?, 3, Rule::Reorder)?;
    for copies in BATCHES {
        nodes = start(alloc, nodes, copies)?;
        nodes = bad_network(nodes)?;
    }
    let nodes = nodes.settle()?;
    let catalog = bank(alloc)?;
    for number in 1..=nodes.batches() {
        let Some(answer) = nodes.answer(number)? else {
            return Err(Fault::NotComplete);
        };
        let text = print_answer(alloc, &catalog, &answer)?;
        out.give(&text).map_err(|_| Fault::NoWrite)?;
    }
    let text = print_state(alloc, &catalog, &nodes.tables()?, nodes.batches())?;
    out.give(&text).map_err(|_| Fault::NoWrite)?;
    Ok(())
}

/// Starts a batch that copies accounts.
fn start(alloc: Global, nodes: Nodes, copies: &[(i64, i64)]) -> Result<Nodes, Fault>
    requires { AreReady nodes }
    ensures { IfOk result (λ n. AreReady n) }
{
    let mut calls = Vec::new(alloc);
    for &(from, to) in copies {
        calls.push(copy(alloc, from, to)?).map_err(|_| Memory)?;
    }
    let started = nodes.requests() as usize;
    if started > MOST_REQUESTS || calls.len() > MOST_REQUESTS - started {
        return Err(Fault::NoRoom);
    }
    Ok(nodes.step(NetEvent::Start(calls))?)
}

/// Of what was sent the last one comes first. A third is lost, a third comes once, and a third twice.
fn bad_network(nodes: Nodes) -> Result<Nodes, Fault>
    requires { AreReady nodes }
    ensures { IfOk result (λ n. AreReady n) }
{
    let mut nodes = nodes;
    for k in (0..nodes.sent()).rev() {
        for _ in 0..k % 3 {
            nodes = nodes.step(NetEvent::Deliver(k))?;
        }
    }
    Ok(nodes)
}

/// The catalogue of accounts.
fn bank(alloc: Global) -> Result<Catalog, Fault> {
    builtin(alloc, b"bank")?.ok_or(Fault::NoBank)
}

/// Four accounts.
fn accounts(alloc: Global) -> Result<Tables, Fault> {
    let mut rows = Tables::new(alloc)?;
    for (account, held) in ACCOUNTS {
        let key = Key {
            table: 0,
            parts: Parts::one(Part::Int(account)),
        };
        let row = Row::from_vec(vec![in alloc; Value::Int(held)].map_err(|_| Memory)?);
        rows.put(key, row).map_err(|_| Memory)?;
    }
    Ok(rows)
}

/// The call that puts what the first account holds into the second.
fn copy(alloc: Global, from: i64, to: i64) -> Result<Call, Memory> {
    Ok(Call {
        proc: COPY,
        args: Args::from_vec(vec![in alloc; Arg::Int(from), Arg::Int(to)]?),
    })
}
