// Banks between two batches: accounts, calls on them, and the next batch.
ghost use Rattle.std.specs.Prelude.{◌≡◌, ◌≤◌, true};
ghost use Rattle.std.specs.List.{All, list_all};
ghost use Rattle.aria_base.specs.Schemas.{IsConsistent};
ghost use Rattle.aria_base.specs.declared.limits.TheConstants.{MOST_PERCENT, MOST_REPLICAS, MOST_WORKERS};
ghost use Rattle.proc_lang.specs.Catalogs.{takes};
ghost use Rattle.worked_batches.specs.Rooms.{HasRoom};

use aria_base::{Call, Pace};
use batch_core::Answer;
use batch_engine::Engine;
use cat_builtin::builtin;
use dep_rules::Config;
use proc_lang::Catalog;
use replica_run::Replicas;
use std::alloc::Global;
use std::fmt::Debug;
use std::process::Abort;
use std::thread::Threads;
use tbl_rows::Tables;
use test_banks::{Account, Ask, row_of};

/// What a test says that finds no memory.
pub const MEMORY: &str = "memory";

/// More batches, and more requests, than any test here has.
const MANY: u64 = 1_000_000;

/// Asserts that this holds. An assertion in place costs its function several seconds of proof, a generic one more, and
/// a call of this one next to none.
pub fn holds(rt: &impl Abort, what: &str, found: bool) {
    assert!(rt; found, "{what}");
}

/// Asserts that there are so many of what this names.
pub fn is_count(rt: &impl Abort, what: &str, found: u64, wanted: u64) {
    assert_eq!(rt; found, wanted, "{what}");
}

/// Asserts that what was found in this case is what was worked out for it.
pub fn same<T: PartialEq + Debug>(rt: &impl Abort, case: &impl Debug, found: &T, wanted: &T) {
    assert_eq!(rt; found, wanted, "at {case:?}");
}

/// How many numbers there are, where they are 1, 2, 3 and so on.
pub fn in_turn(order: &[u64]) -> Option<u64> {
    let mut last = 0_u64;
    for &number in order {
        last = last.wrapping_add(1);
        if number != last {
            return None;
        }
    }
    Some(last)
}

/// These calls.
pub fn calls(rt: &impl Abort, alloc: Global, asks: &[Ask]) -> Vec<Call> {
    test_banks::calls(alloc, asks).expect(rt, MEMORY)
}

/// Puts an account.
#[tactic(auto, using(aria_base::proofs::Fitting::fit_with))]
fn put(rt: &impl Abort, alloc: Global, catalog: &Catalog, tables: &mut Tables, account: Account)
    requires { IsConsistent catalog.now.tables tables.old }
    ensures { IsConsistent catalog.now.tables tables.new }
{
    let (key, row) = row_of(alloc, account).expect(rt, MEMORY);
    assert!(rt; catalog.schema().fits(&key, &row), "an account fits");
    tables.put(key, row).expect(rt, MEMORY);
}

/// The tables of these accounts.
#[tactic(auto, using(aria_base::proofs::Fitting::none_fit))]
fn tables(rt: &impl Abort, alloc: Global, catalog: &Catalog, accounts: &[Account]) -> Tables
    ensures { IsConsistent catalog.now.tables result }
{
    let mut tables = Tables::new(alloc).expect(rt, MEMORY);
    for &account in accounts {
        put(rt, alloc, catalog, &mut tables, account);
    }
    tables
}

/// An engine with the built-in catalogue of this name and these accounts, before its first batch.
#[tactic(auto, using(crate::proofs::Readiness::ready_at_first))]
pub fn engine_of(rt: &impl Abort, alloc: Global, name: &[u8], accounts: &[Account]) -> Engine {
    let found = builtin(alloc, name).expect(rt, MEMORY);
    let catalog = found.expect(rt, "a built-in catalogue");
    let tables = tables(rt, alloc, &catalog, accounts);
    Engine::begin(catalog, tables, Vec::new(alloc), 0, 0)
}

/// A bank of these accounts before its first batch.
pub fn engine(rt: &impl Abort, alloc: Global, accounts: &[Account]) -> Engine {
    engine_of(rt, alloc, b"bank", accounts)
}

fn are_taken(catalog: &Catalog, calls: &[Call]) -> bool
    ensures { result ≡ list_all (takes catalog.now) calls.now }
{
    for call in calls {
        if !catalog.takes(call) {
            return false;
        }
    }
    true
}

#[tactic(auto, using(crate::proofs::Readiness::all_taken))]
fn can_take(engine: &Engine, calls: &Vec<Call>) -> bool
    ensures { result ≡ true → All (λ call. takes engine.now.plan call ≡ true) calls.now.items }
{
    are_taken(engine.catalog(), calls)
}

/// Whether a batch of these calls may be run on the engine, by settings that allow it.
fn has_room(engine: &Engine, calls: &Vec<Call>) -> bool
    ensures { result ≡ true → HasRoom engine.now calls.now.items }
{
    if !can_take(engine, calls) {
        return false;
    }
    let waiting = engine.carried().len();
    if waiting > 10_000 {
        return false;
    }
    if calls.len() > 10_000 - waiting {
        return false;
    }
    if engine.batches() > MANY {
        return false;
    }
    engine.requests() <= MANY
}

/// Runs the next batch.
pub fn run<P: Pace + Sync, R: Abort + Threads + Sync>(
    rt: &R,
    alloc: Global,
    engine: Engine,
    calls: Vec<Call>,
    config: &Config,
    pace: &P,
) -> (Engine, Answer)
    requires percent { config.now.fallback ≤ MOST_PERCENT }
    requires workers { (1 ≤ config.now.workers) × (config.now.workers ≤ MOST_WORKERS) }
{
    assert!(rt; has_room(&engine, &calls), "the calls fit and have room");
    let run = engine.run_batch(rt, alloc, calls, config, pace);
    run.expect(rt, MEMORY)
}

/// Replicas of a bank of these accounts before their first batch.
pub fn replicas(rt: &impl Abort, alloc: Global, accounts: &[Account], count: u32) -> Replicas
    requires { (1 ≤ count) × (count ≤ MOST_REPLICAS) }
{
    let first = engine(rt, alloc, accounts);
    Replicas::begin(alloc, first, count).expect(rt, MEMORY)
}

/// Runs the next batch on all replicas.
#[tactic(auto, using(crate::proofs::Readiness::all_may_run))]
pub fn run_replicas<P: Pace + Sync, R: Abort + Threads + Sync>(
    rt: &R,
    alloc: Global,
    replicas: Replicas,
    calls: Vec<Call>,
    config: &Config,
    pace: &P,
) -> (Replicas, Answer)
    requires percent { config.now.fallback ≤ MOST_PERCENT }
    requires workers { (1 ≤ config.now.workers) × (config.now.workers ≤ MOST_WORKERS) }
{
    assert!(rt;
        has_room(replicas.first(), &calls),
        "the calls fit and have room"
    );
    let run = replicas.run_batch(rt, alloc, calls, config, pace);
    run.expect(rt, MEMORY)
}
