//! A ledger on the engine as a library, in a store that outlives the program. Three batches run on three replicas,
//! each in the store before a byte of its answer is printed. The answer of a fourth comes as a value. Then the store
//! is opened again.
#![tactic(auto)]

mod batches;
mod outcomes;

use crate::batches::{answer, serve};
use crate::outcomes::outcomes;
use answer_text::{print_answer, print_state};
use aria_base::{FileSink, Free, Memory, Sink};
use aria_store::{Image, Store, StoreRefused};
use batch_core::Answer;
use batch_rules::verdicts::Rule;
use cat_read::{CatRefused, read_catalog};
use dir_disk::DirDisk;
use disk_model::Disk;
use serving::{Delivery, Live};
use std::alloc::Global;
use std::fs::Files;
use std::io::{Print, writer};
use std::process::ExitCode;
use std::thread::Threads;
use store_openings::{NotOpened, RunSettings, open};
use tbl_rows::Tables;
use thiserror::Error;

/// `pay` credits the payee first. Where the payer has too little, the run fails, and that is undone.
const CATALOG: &str = r#"{"tables":[{"name":"account","key":["int"],"cols":["int","text"]}],
"procs":[{"name":"open","args":["int","text","int"],"regs":["int","text","int"],"body":[
["find","account",[["arg",0]],[0,1],2],["if",["reg",2],[["fail",1]],[]],
["put","account",[["arg",0]],[["arg",2],["arg",1]]]]},
{"name":"pay","args":["int","int","int"],"regs":["int","text"],"body":[
["need","account",[["arg",1]],[0,1],2],["put","account",[["arg",1]],[["add",["reg",0],["arg",2]],["reg",1]]],
["need","account",[["arg",0]],[0,1],2],["if",["or",["lt",["arg",2],0],["lt",["reg",0],["arg",2]]],[["fail",3]],[]],
["put","account",[["arg",0]],[["sub",["reg",0],["arg",2]],["reg",1]]]]},
{"name":"balance","args":["int"],"regs":["int","text"],"body":[
["need","account",[["arg",0]],[0,1],2],["give",["reg",0]],["give",["reg",1]]]}]}"#;

/// The batches whose answers are printed, each call a line.
const BATCHES: [&str; 3] = [
    "tx open 1 \"ada\" 100\ntx open 2 \"bob\" 20\n",
    "tx pay 1 2 30\ntx pay 2 1 500\ntx balance 1\n",
    "tx pay 2 1 15\ntx pay 2 1 10\ntx balance 2\n",
];

/// The batch whose answer is taken as a value.
const LAST: &str = "tx pay 1 2 5\ntx pay 2 1 90\ntx balance 2\n";

/// Three replicas of two workers each, and a checkpoint behind each second batch.
const SETTINGS: RunSettings = RunSettings {
    replicas: 3,
    workers: 2,
    batons: false,
    each: false,
    checkpoint: 2,
};

/// Why the program stops.
#[derive(Debug, Drop, Error)]
enum Fault {
    #[error("{0}")]
    Memory(#[from] Memory),
    #[error("the catalogue is refused: {0}")]
    Catalog(#[from] CatRefused),
    #[error("{0}")]
    Store(#[from] StoreRefused),
    #[error("the store is not opened: {0:?}")]
    NotOpened(NotOpened),
    #[error("the lines are not calls of the catalogue")]
    NoCalls,
    #[error("the line of a call is longer than a line may be")]
    TooLong,
    #[error("the batch has no room for the calls")]
    NoRoom,
    #[error("no numbers are left")]
    NoNumbers,
    #[error("the answer is not given: {0:?}")]
    NotDelivered(Delivery),
}

fn main(rt: HostRuntime) -> ExitCode {
    let Err(fault) = run(&rt) else {
        return ExitCode::SUCCESS;
    };
    let _ = eprintln!(&rt; "ledger: {fault}");
    ExitCode::FAILURE
}

/// Runs the batches on a new ledger, and prints what each replica has once its store is opened again.
fn run<R: AllocGlobal + Files + Print + Threads + Sync>(rt: &R) -> Result<(), Fault> {
    let alloc = rt.alloc();
    let mut out = FileSink::new(writer(rt));
    let mut disk = DirDisk::new(alloc, rt, "ledger-store")?;
    create(alloc, &mut disk)?;
    let mut ledger = open(rt, alloc, &SETTINGS, &mut disk, &Free).map_err(Fault::NotOpened)?;
    for lines in BATCHES {
        ledger = serve(rt, alloc, ledger, lines, &mut out, &mut disk)?;
    }
    let (ledger, answer) = answer(rt, alloc, ledger, LAST, &mut disk)?;
    tell(alloc, &ledger, &answer, &mut out)?;
    let ledger = open(rt, alloc, &SETTINGS, &mut disk, &Free).map_err(Fault::NotOpened)?;
    for engine in ledger.replicas.parts().as_slice() {
        let rows = print_state(alloc, engine.catalog(), engine.tables(), engine.batches())?;
        give(&rows, &mut out)?;
    }
    Ok(())
}

/// Makes the store, without accounts. It is refused where there is one.
fn create<D: Disk>(alloc: Global, disk: &mut D) -> Result<(), Fault> {
    let image = Image {
        format: 2,
        rule: Rule::Reorder,
        fallback: 0,
        generation: 1,
        batches: 0,
        requests: 0,
        catalog: read_catalog(alloc, CATALOG.as_bytes())?,
        tables: Tables::new(alloc)?,
        held: Vec::new(alloc),
    };
    Store::create(alloc, disk, false, &image)?;
    Ok(())
}

/// Prints an answer, and what became of each of its requests.
fn tell<K: Sink>(alloc: Global, ledger: &Live, answer: &Answer, out: &mut K) -> Result<(), Fault> {
    let catalog = ledger.replicas.first().catalog();
    let text = print_answer(alloc, catalog, answer)?;
    give(&text, out)?;
    give(outcomes(alloc, answer)?.as_bytes(), out)
}

fn give<K: Sink>(bytes: &[u8], out: &mut K) -> Result<(), Fault> {
    out.give(bytes)
        .map_err(|_| Fault::NotDelivered(Delivery::NoWrite))
}
