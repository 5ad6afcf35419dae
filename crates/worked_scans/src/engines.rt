// Databases of pairs between two batches, and the next batch.
ghost use Rattle.std.specs.Prelude.{◌≡◌, true};
ghost use Rattle.std.specs.List.{list_all};
ghost use Rattle.range_suits.specs.Suits.{is_taken};
ghost use Rattle.worked_scans.specs.Ready.{HasTables, MayRun};
ghost use Rattle.worked_scans.specs.Steps.{takes_any};

use crate::steps::{Steps, longest, pair, row};
use aria_base::{Arg, Args, Call, Free, Items, Key, MOST_ARGS, MOST_WORKERS, Memory, Part, Parts};
use batch_core::Answer;
use cat_read::read_catalog;
use dep_rules::{Config, Rule};
use proc_lang::Catalog;
use range_resv::{NumberedWork, RoutineCall, ScanEngine, Work};
use std::alloc::Global;
use std::process::Abort;
use std::thread::Threads;
use tbl_rows::Tables;

/// What a test says that finds no memory.
pub const MEMORY: &str = "memory";

/// More batches, and more requests, than any test here has.
const MANY: u64 = 1_000_000;

const TEXT: &str = concat!(
    r#"{"tables":[{"name":"pair","key":["int","int"],"cols":["int"]},"#,
    r#"{"name":"named","key":["text","int"],"cols":["int"]}],"procs":["#,
    r#"{"name":"set","args":["int","int","int"],"regs":[],"body":[["put","pair",[["arg",0],["arg",1]],[["arg",2]]]]},"#,
    r#"{"name":"get","args":["int","int"],"regs":["int","int"],"body":["#,
    r#"["find","pair",[["arg",0],["arg",1]],[0],1],["give",["reg",0]]]},"#,
    r#"{"name":"drop","args":["int","int"],"regs":[],"body":[["del","pair",[["arg",0],["arg",1]]]]},"#,
    r#"{"name":"name","args":["text","int"],"regs":[],"body":[["put","named",[["arg",0],["arg",1]],[["arg",1]]]]}]}"#,
);

/// Puts the third number at the pair of the first two.
pub const SET: u16 = 0;

/// Gives the number at a pair, and 0 where there is none.
pub const GET: u16 = 1;

/// Deletes a pair.
pub const DROP: u16 = 2;

/// Puts the number under the longest text and itself.
pub const NAME: u16 = 3;

/// No procedure: the routine, whose steps the numbers are.
pub const ROUTINE: u16 = 4;

/// Asserts that this holds. An assertion in place costs its function several seconds of proof, and a call of this one next to none.
pub fn holds(rt: &impl Abort, what: &str, at: u64, found: bool) {
    assert!(rt; found, "{what} at {at}");
}

/// An engine without rows, before its first batch.
#[tactic(auto, using(aria_base::proofs::Fitting::none_fit))]
pub fn engine(rt: &impl Abort, alloc: Global) -> ScanEngine {
    let catalog = read_catalog(alloc, TEXT.as_bytes()).expect(rt, "a catalogue");
    let tables = Tables::new(alloc).expect(rt, MEMORY);
    ScanEngine::begin(alloc, catalog, tables)
}

/// An engine on the rows of this one, before its first batch.
#[tactic(auto, using(crate::proofs::Readiness::fit_again))]
pub fn begun_again(rt: &impl Abort, alloc: Global, engine: &ScanEngine) -> ScanEngine {
    engine.ready();
    let catalog = engine.catalog().copy(alloc).expect(rt, MEMORY);
    let tables = engine.tables().copy().expect(rt, MEMORY);
    ScanEngine::begin(alloc, catalog, tables)
}

/// A call of the routine, or of a procedure, with these numbers.
pub fn work(rt: &impl Abort, alloc: Global, kind: u16, numbers: &[i64]) -> Work {
    if kind == ROUTINE {
        let nums = numbers.to_vec(alloc).expect(rt, MEMORY);
        return Work::Routine(RoutineCall {
            kind: 0,
            nums: Items::from_vec(nums),
        });
    }
    let mut args = Vec::new(alloc);
    if kind == NAME {
        let text = longest(alloc).expect(rt, MEMORY);
        args.push(Arg::Text(text)).expect(rt, MEMORY);
    }
    for number in numbers {
        args.push(Arg::Int(*number)).expect(rt, MEMORY);
    }
    assert!(rt; args.len() <= MOST_ARGS, "so many arguments");
    Work::Proc(Call {
        proc: kind,
        args: Args::from_vec(args),
    })
}

fn has_tables(rt: &impl Abort, alloc: Global, catalog: &Catalog) -> bool
    ensures { result ≡ true → HasTables catalog.now.tables }
{
    let sample = row(alloc, &0).expect(rt, MEMORY);
    if !catalog.schema().fits(&pair(&0, &0), &sample) {
        return false;
    }
    let text = longest(alloc).expect(rt, MEMORY);
    let key = Key {
        table: 1,
        parts: Parts::two(Part::Text(text), Part::Int(0)),
    };
    catalog.schema().fits(&key, &sample)
}

fn are_taken(engine: &ScanEngine, routines: &Steps, works: &[Work]) -> bool
    ensures { result ≡ list_all (is_taken engine.now.plan takes_any) works.now }
{
    for work in works {
        if !engine.takes(routines, work) {
            return false;
        }
    }
    true
}

fn waiting_taken(engine: &ScanEngine, routines: &Steps, waiting: &[NumberedWork]) -> bool
    ensures { result ≡ list_all (λ w. is_taken engine.now.plan takes_any w.work) waiting.now }
{
    for one in waiting {
        if !engine.takes(routines, &one.work) {
            return false;
        }
    }
    true
}

/// Whether a batch of these works may be run on the engine.
#[tactic(auto, using(crate::proofs::Readiness::all_taken))]
fn may_run(
    rt: &impl Abort,
    alloc: Global,
    engine: &ScanEngine,
    routines: &Steps,
    works: &Vec<Work>,
) -> bool
    ensures { result ≡ true → MayRun engine.now works.now.items }
{
    if !has_tables(rt, alloc, engine.catalog()) {
        return false;
    }
    if !waiting_taken(engine, routines, engine.waiting()) {
        return false;
    }
    if !are_taken(engine, routines, works) {
        return false;
    }
    let waiting = engine.waiting().len();
    if waiting > 1_000 {
        return false;
    }
    if works.len() > 1_000 - waiting {
        return false;
    }
    if engine.batches() > MANY {
        return false;
    }
    engine.requests() <= MANY
}

/// Runs the next batch by these routines, where there is memory.
pub fn try_run<T: Abort + Threads + Sync>(
    rt: &T,
    alloc: Global,
    engine: ScanEngine,
    routines: &Steps,
    works: Vec<Work>,
    rule: Rule,
    workers: u32,
) -> Result<(ScanEngine, Answer), Memory> {
    let may = may_run(rt, alloc, &engine, routines, &works);
    assert!(rt; may, "the works fit and have room");
    let config = Config {
        rule,
        fallback: 101,
        workers: workers.clamp(1, MOST_WORKERS),
        batons: false,
    };
    engine.run_batch(rt, alloc, routines, works, &config, &Free)
}

/// Runs the next batch.
pub fn run<T: Abort + Threads + Sync>(
    rt: &T,
    alloc: Global,
    engine: ScanEngine,
    works: Vec<Work>,
    rule: Rule,
    workers: u32,
) -> (ScanEngine, Answer) {
    let routines = Steps { fails_after: None };
    let ran = try_run(rt, alloc, engine, &routines, works, rule, workers);
    ran.expect(rt, MEMORY)
}
