// The draws of two batches, worked out by a program of their own.
use crate::databases::MEMORY;
use crate::runs::call;
use crate::steps::holds;
use aria_base::{Arg, Args, Call, Draws, Tuple, Tuples};
use range_rules::Work;
use std::alloc::Global;
use std::process::Abort;
use tpcc_load::Tpcc;
use tpcc_routines::{DELIVERY, ORDER_STATUS, STOCK_LEVEL, more_batch};

const FOUR: Tpcc = Tpcc {
    number: 5,
    warehouses: 4,
    customers: 30,
    items: 100,
};

/// A request that is wanted at a place, from 0: of a routine with these numbers, a payment, or an order with these lines.
#[derive(Clone, Copy, Debug)]
enum Wanted {
    Routine(u16, &'static [i64]),
    Payment([i64; 8]),
    Order([i64; 4], &'static [[i64; 3]]),
}

/// The first fifteen requests, as batch 1.
const FIRST: [(usize, Wanted); 6] = [
    (0, Wanted::Payment([2, 3, 2, 3, 1, 6, 134_989, 1])),
    (2, Wanted::Routine(DELIVERY, &[4, 10, 1])),
    (4, Wanted::Routine(ORDER_STATUS, &[1, 3, 1, 7])),
    (
        5,
        Wanted::Order(
            [4, 3, 22, 1],
            &[
                [76, 4, 7],
                [44, 4, 4],
                [88, 4, 7],
                [56, 4, 1],
                [64, 4, 5],
                [93, 4, 1],
                [94, 4, 9],
            ],
        ),
    ),
    (10, Wanted::Payment([3, 2, 3, 2, 0, 21, 265_701, 1])),
    (14, Wanted::Routine(STOCK_LEVEL, &[4, 4, 15])),
];

/// The forty behind them, as batch 2.
const SECOND: [(usize, Wanted); 7] = [
    (10, Wanted::Routine(ORDER_STATUS, &[3, 7, 1, 3])),
    (12, Wanted::Routine(STOCK_LEVEL, &[4, 8, 16])),
    (18, Wanted::Routine(DELIVERY, &[4, 5, 2])),
    (24, Wanted::Routine(DELIVERY, &[2, 6, 2])),
    (26, Wanted::Payment([4, 3, 2, 9, 1, 9, 127_453, 2])),
    (30, Wanted::Routine(ORDER_STATUS, &[3, 2, 1, 0])),
    (38, Wanted::Routine(STOCK_LEVEL, &[3, 7, 16])),
];

/// The word behind both.
const BEHIND: u32 = 1_085_611_382;

/// The work that is wanted.
fn work(rt: &impl Abort, alloc: Global, wanted: &Wanted) -> Work {
    match wanted {
        Wanted::Routine(kind, numbers) => Work::Routine(call(rt, alloc, *kind, numbers)),
        Wanted::Payment(numbers) => Work::Proc(Call {
            proc: 1,
            args: args(rt, alloc, numbers, None),
        }),
        Wanted::Order(numbers, lines) => Work::Proc(Call {
            proc: 0,
            args: args(rt, alloc, numbers, Some(lines_of(rt, alloc, lines))),
        }),
    }
}

/// Numbers and lines as arguments, of which there are at most 16.
fn args(rt: &impl Abort, alloc: Global, numbers: &[i64], lines: Option<Tuples>) -> Args {
    let mut args = Vec::new(alloc);
    for number in numbers {
        args.push(Arg::Int(*number)).expect(rt, MEMORY);
    }
    if let Some(lines) = lines {
        args.push(Arg::List(lines)).expect(rt, MEMORY);
    }
    assert!(rt; args.len() <= 16, "so many arguments");
    Args::from_vec(args)
}

/// These lines as tuples.
fn lines_of(rt: &impl Abort, alloc: Global, lines: &[[i64; 3]]) -> Tuples {
    let mut tuples = Vec::new(alloc);
    for line in lines {
        tuples.push(Tuple::from_slice(line)).expect(rt, MEMORY);
    }
    Tuples::from_vec(tuples)
}

/// Asserts that the works have these among them.
fn have(rt: &impl Abort, alloc: Global, works: &[Work], wanted: &[(usize, Wanted)]) {
    for (place, wanted) in wanted {
        let work = work(rt, alloc, wanted);
        holds(rt, "a work", *place, works.get(*place) == Some(&work));
    }
}

#[test]
fn batches_follow_each_other_in_the_words(rt: HostRuntime) {
    let alloc = rt.alloc();
    let mut draws = Draws::of(FOUR.number, 2);
    let first = more_batch(alloc, &FOUR, &mut draws, 1, 15).expect(&rt, MEMORY);
    have(&rt, alloc, &first, &FIRST);
    let second = more_batch(alloc, &FOUR, &mut draws, 2, 40).expect(&rt, MEMORY);
    have(&rt, alloc, &second, &SECOND);
    assert!(rt; draws.word() == BEHIND);
}
