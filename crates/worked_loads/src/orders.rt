// The smallest head, and requests of one and of four warehouses. What is wanted was worked out beside the
// code, by a program of its own that follows the benchmark's text.
ghost use Rattle.std.specs.Prelude.{◌≤◌, length};

use aria_base::{Arg, Args, Call, Draws, Key, Memory, Part, Row, Tuple, Tuples, Value};
use std::alloc::Global;
use std::fmt::Debug;
use std::process::Abort;
use std::test::Fail;
use tpcc_load::{Tpcc, batch, head};

/// The smallest database.
const SMALLEST: Tpcc = Tpcc {
    number: 1,
    warehouses: 1,
    customers: 30,
    items: 100,
};

/// How many rows each of its tables has, and the sum of all numbers in them.
const TOTALS: [(u64, i64); 11] = [
    (1, 30_000_099),
    (10, 30_012_415),
    (300, 1_493_234_372),
    (0, 0),
    (90, 0),
    (300, 9_373),
    (2_977, 451_068_183),
    (100, 512_180),
    (100, 5_523),
    (100, 300),
    (300, 4_650),
];

/// Asserts that what was found in this case is what is wanted.
fn same<T: PartialEq + Debug>(rt: &impl Abort, case: &impl Debug, found: &T, wanted: &T) {
    assert_eq!(rt; found, wanted, "at {case:?}");
}

/// The sum of the numbers of a row.
fn sum_of(row: &Row) -> i64 {
    let mut sum = 0_i64;
    for column in row.as_slice() {
        if let Value::Int(number) = column {
            sum = sum.wrapping_add(*number);
        }
    }
    sum
}

#[test]
fn the_smallest_head_has_its_rows(rt: HostRuntime) -> Result<(), Fail> {
    let alloc = rt.alloc();
    let (_catalog, tables) = head(alloc, &SMALLEST)?;
    let mut totals = vec![in alloc; (0_u64, 0_i64); 11]?;
    for (key, row) in tables.rows()? {
        if let Some(total) = totals.get_mut(usize::from(key.table)) {
            total.0 = total.0.wrapping_add(1);
            total.1 = total.1.wrapping_add(sum_of(row));
        }
    }
    same(&rt, &"totals", &totals.as_slice(), &TOTALS.as_slice());
    Ok(())
}

/// A request: the place of its procedure, its whole numbers, and behind them its lines, if it has any.
struct Wanted {
    proc: u16,
    numbers: &'static [i64],
    lines: &'static [[i64; 3]],
}

/// The first six requests of the smallest database, in the batch of number 7.
const FIRST: [Wanted; 6] = [
    Wanted {
        proc: 1,
        numbers: &[1, 6, 1, 6, 1, 3, 141803, 7],
        lines: &[],
    },
    Wanted {
        proc: 1,
        numbers: &[1, 1, 1, 1, 1, 7, 21521, 7],
        lines: &[],
    },
    Wanted {
        proc: 1,
        numbers: &[1, 8, 1, 8, 1, 6, 410317, 7],
        lines: &[],
    },
    Wanted {
        proc: 1,
        numbers: &[1, 2, 1, 2, 1, 1, 449775, 7],
        lines: &[],
    },
    Wanted {
        proc: 0,
        numbers: &[1, 3, 24, 7],
        lines: &[
            [19, 1, 7],
            [65, 1, 8],
            [52, 1, 8],
            [70, 1, 8],
            [88, 1, 3],
            [26, 1, 10],
            [14, 1, 2],
            [28, 1, 4],
            [42, 1, 2],
        ],
    },
    Wanted {
        proc: 1,
        numbers: &[1, 2, 1, 2, 1, 7, 328893, 7],
        lines: &[],
    },
];

/// The word behind them.
const BEHIND_FIRST: u32 = 635861513;

/// Four warehouses, which trade with each other.
const FOUR: Tpcc = Tpcc {
    number: 5,
    warehouses: 4,
    customers: 30,
    items: 100,
};

/// Some of the first sixty requests there, in the batch of number 9, by their places from 0: payments of
/// customers of another warehouse, an order with a line from another warehouse, and one that is to fail.
const SOME: [(usize, Wanted); 5] = [
    (
        2,
        Wanted {
            proc: 1,
            numbers: &[3, 4, 4, 10, 0, 10, 444802, 9],
            lines: &[],
        },
    ),
    (
        17,
        Wanted {
            proc: 1,
            numbers: &[4, 8, 3, 8, 1, 1, 309156, 9],
            lines: &[],
        },
    ),
    (
        46,
        Wanted {
            proc: 0,
            numbers: &[3, 3, 2, 9],
            lines: &[
                [96, 3, 9],
                [36, 3, 7],
                [71, 3, 4],
                [56, 3, 1],
                [79, 3, 6],
                [76, 3, 6],
                [7, 3, 2],
                [51, 3, 4],
                [31, 1, 7],
                [80, 3, 4],
                [52, 3, 1],
                [28, 3, 3],
                [63, 3, 9],
                [91, 3, 5],
            ],
        },
    ),
    (
        55,
        Wanted {
            proc: 1,
            numbers: &[4, 7, 2, 8, 0, 15, 452317, 9],
            lines: &[],
        },
    ),
    (
        57,
        Wanted {
            proc: 0,
            numbers: &[1, 9, 10, 9],
            lines: &[
                [56, 1, 1],
                [64, 1, 9],
                [97, 1, 8],
                [13, 1, 4],
                [76, 1, 5],
                [14, 1, 8],
                [7, 1, 4],
                [76, 1, 10],
                [20, 1, 10],
                [60, 1, 9],
                [80, 1, 5],
                [101, 1, 3],
            ],
        },
    ),
];

/// The word behind the sixty.
const BEHIND_SIXTY: u32 = 1958334000;

/// The call that asks for this.
fn call(alloc: Global, wanted: &Wanted) -> Result<Call, Memory>
    requires { length wanted.now.numbers.now ≤ 15 }
{
    let mut args = Vec::new(alloc);
    for &number in wanted.numbers {
        args.push(Arg::Int(number))?;
    }
    if !wanted.lines.is_empty() {
        args.push(Arg::List(lines(alloc, wanted.lines)?))?;
    }
    Ok(Call {
        proc: wanted.proc,
        args: Args::from_vec(args),
    })
}

/// These lines as tuples.
fn lines(alloc: Global, wanted: &[[i64; 3]]) -> Result<Tuples, Memory> {
    let mut lines = Vec::new(alloc);
    for &[item, from, quantity] in wanted {
        lines.push(Tuple::from_slice(&[item, from, quantity]))?;
    }
    Ok(Tuples::from_vec(lines))
}

#[test]
fn requests_of_one_warehouse_are_drawn_in_order(rt: HostRuntime) -> Result<(), Fail> {
    let alloc = rt.alloc();
    let mut draws = Draws::of(SMALLEST.number, 2);
    let calls = batch(alloc, &SMALLEST, &mut draws, 7, 6)?;
    for (place, wanted) in FIRST.iter().enumerate() {
        same(&rt, &place, &calls.get(place), &Some(&call(alloc, wanted)?));
    }
    same(&rt, &"the word behind", &draws.word(), &BEHIND_FIRST);
    Ok(())
}

#[test]
fn warehouses_trade_with_each_other(rt: HostRuntime) -> Result<(), Fail> {
    let alloc = rt.alloc();
    let mut draws = Draws::of(FOUR.number, 2);
    let calls = batch(alloc, &FOUR, &mut draws, 9, 60)?;
    for (place, wanted) in &SOME {
        same(&rt, place, &calls.get(*place), &Some(&call(alloc, wanted)?));
    }
    same(&rt, &"the word behind", &draws.word(), &BEHIND_SIXTY);
    Ok(())
}
