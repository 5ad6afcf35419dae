// Requests and rows of small workloads. The words are those of the published generator, and what is drawn
// from them was worked out beside the code.
ghost use Rattle.std.specs.Prelude.{◌≤◌, length};
ghost use Rattle.load_gen.specs.Ycsb.{IsWithin};

use aria_base::{Arg, Args, Call, Draws, Memory, Part, Parts, Tuple, Tuples, Value};
use load_gen::{Ycsb, batch, head};
use std::alloc::Global;
use std::fmt::Debug;
use std::process::Abort;
use std::test::Fail;

/// A request: the number that it writes or adds, and of each access the key and what it does there.
type Wanted = (i64, &'static [(i64, i64)]);

/// Three accesses of a request: half of them read, a quarter writes anew, and a fifth prefers key 0.
const MIXED: Ycsb = Ycsb {
    number: 1,
    keys: 100,
    ops: 3,
    reads: 50,
    updates: 25,
    hot: 20,
};

/// The first four requests of `MIXED`.
const MIXED_REQUESTS: [Wanted; 4] = [
    (18, &[(15, 0), (11, 2), (75, 1)]),
    (41, &[(7, 0), (29, 2), (78, 0)]),
    (51, &[(33, 2), (83, 0), (50, 1)]),
    (73, &[(66, 2), (4, 0), (0, 0)]),
];

/// All accesses change one of the first ten keys.
const HOT: Ycsb = Ycsb {
    number: 7,
    keys: 1_000,
    ops: 2,
    reads: 0,
    updates: 0,
    hot: 100,
};

/// The first two requests of `HOT`.
const HOT_REQUESTS: [Wanted; 2] = [(13, &[(0, 2), (1, 2)]), (78, &[(4, 2), (5, 2)])];

/// Asserts that what was found in this case is what is wanted.
fn same<T: PartialEq + Debug>(rt: &impl Abort, case: &impl Debug, found: &T, wanted: &T) {
    assert_eq!(rt; found, wanted, "at {case:?}");
}

/// The call that asks for this.
fn call(alloc: Global, wanted: &Wanted) -> Result<Call, Memory> {
    let mut accesses = Vec::new(alloc);
    for &(key, op) in wanted.1 {
        accesses.push(Tuple::from_slice(&[key, op]))?;
    }
    let accesses = Arg::List(Tuples::from_vec(accesses));
    Ok(Call {
        proc: 0,
        args: Args::from_vec(vec![in alloc; accesses, Arg::Int(wanted.0)]?),
    })
}

/// The calls that ask for these.
fn calls(alloc: Global, wanted: &[Wanted]) -> Result<Vec<Call>, Memory> {
    let mut calls = Vec::new(alloc);
    for one in wanted {
        calls.push(call(alloc, one)?)?;
    }
    Ok(calls)
}

/// Asserts that the first requests of a workload are these, and that the word behind them is the next.
fn begins_with(
    rt: &impl Abort,
    alloc: Global,
    settings: &Ycsb,
    wanted: &[Wanted],
    word: u32,
) -> Result<(), Fail>
    requires within { IsWithin settings.now }
    requires few { length wanted.now ≤ 100 }
{
    let mut draws = Draws::of(settings.number, 2);
    let first = batch(alloc, settings, &mut draws, 1, 1)?;
    let others = batch(alloc, settings, &mut draws, 2, 1)?;
    same(rt, &"the word behind", &draws.word(), &word);
    let mut draws = Draws::of(settings.number, 2);
    let all = batch(alloc, settings, &mut draws, 1, wanted.len() as u32)?;
    same(rt, &"all", &all, &calls(alloc, wanted)?);
    same(rt, &"the first", &first.get(0), &all.get(0));
    same(rt, &"the second", &others.get(0), &all.get(1));
    Ok(())
}

#[test]
fn requests_are_drawn_in_order(rt: HostRuntime) -> Result<(), Fail> {
    let alloc = rt.alloc();
    begins_with(&rt, alloc, &MIXED, &MIXED_REQUESTS, 766_758_450)?;
    begins_with(&rt, alloc, &HOT, &HOT_REQUESTS, 1_283_243_383)
}

#[test]
fn rows_are_zeros_at_all_keys(rt: HostRuntime) -> Result<(), Fail> {
    let alloc = rt.alloc();
    let (_catalog, tables) = head(alloc, &MIXED)?;
    let rows = tables.rows()?;
    same(&rt, &"rows", &rows.len(), &100);
    let mut number = 0_i64;
    for (key, row) in rows {
        let wanted = Parts::one(Part::Int(number));
        same(&rt, &number, &(key.table, &key.parts), &(0, &wanted));
        same(&rt, &number, &row.as_slice().len(), &10);
        for column in row.as_slice() {
            same(&rt, &number, column, &Value::Int(0));
        }
        number = number.wrapping_add(1);
    }
    Ok(())
}
