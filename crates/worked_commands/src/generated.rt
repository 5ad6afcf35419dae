// Workloads as scripts, through the top call: stretches of one, and sinks that fail. Whole scripts are cases of
// `worked_cases`. What is wanted was worked out beside the code, by a program of its own that follows the benchmarks'
// texts.
use crate::outcomes::{Case, empty_disk, holds, outcome, smooth};
use aria_base::Free;
use aria_top::{DONE, WRITE_FAULT};
use std::process::Abort;
use std::thread::Threads;

/// The status of a command that reads nothing, and what it prints where the sink's call of this number fails.
fn printed<R: AllocGlobal + Threads + Abort + Sync>(
    rt: &R,
    words: &str,
    failing_give: u64,
) -> (u8, Vec<u8>) {
    let case = Case {
        failing_take: 1,
        failing_give,
        ..smooth(words, "end")
    };
    let mut disk = empty_disk(rt, rt.alloc(), 0);
    outcome(rt, &case, &mut disk, &Free)
}

/// Order entry at its smallest.
const ORDERS: &str = "gen --kind tpcc --batches 2 --size 3";

/// Stretches of that script, in their order: each table's first rows or last ones, customers with
/// a name of their own and with a drawn one, an order that is delivered and one that is open, holders of a name.
const ROWS_OF_ORDERS: [&str; 13] = [
    "catalog tpcc\nrow warehouse 1 = 99 30000000\nrow district 1 1 = 1751 3000000 31\n",
    "\nrow district 1 10 = 770 3000000 31\nrow customer 1 1 1 = 0 1901688 0 2167 -1000 1000 1 \"\"\n",
    "\nrow customer 1 1 10 = 9 9137811 0 2321 -1000 1000 1 \"\"
row customer 1 1 11 = 1 89786 0 1397 -1000 1000 1 \"\"\n",
    "\nrow customer 1 10 30 = 4 3241937 0 318 -1000 1000 1 \"\"\nrow new_order 1 1 22 =\n",
    "\nrow orders 1 1 1 = 18 1 8 7 1\n",
    "\nrow orders 1 1 21 = 8 1 6 6 1\nrow orders 1 1 22 = 2 1 0 5 1\n",
    "\nrow order_line 1 1 1 1 = 80 1 1 5 0
row order_line 1 1 1 2 = 42 1 1 5 0
row order_line 1 1 1 3 = 71 1 1 5 0
row order_line 1 1 1 4 = 78 1 1 5 0
row order_line 1 1 1 5 = 99 1 1 5 0
row order_line 1 1 1 6 = 27 1 1 5 0
row order_line 1 1 1 7 = 51 1 1 5 0
row order_line 1 1 2 1 = ",
    "\nrow order_line 1 1 22 1 = 58 1 0 5 267976
row order_line 1 1 22 2 = 13 1 0 5 148452
row order_line 1 1 22 3 = 31 1 0 5 243030
row order_line 1 1 22 4 = 40 1 0 5 695490
row order_line 1 1 22 5 = 6 1 0 5 331318
row order_line 1 1 23 1 = ",
    "\nrow item 1 = 1291 0\n",
    "\nrow item 100 = 5673 0\nrow stock 1 1 = 42 0 0 0 0\n",
    "\nrow stock 1 100 = 12 0 0 0 0\nrow name_count 1 1 0 = 1\nrow name_count 1 1 1 = 5\n",
    "\nrow name_place 1 1 0 1 = 1
row name_place 1 1 1 1 = 11
row name_place 1 1 1 2 = 2
row name_place 1 1 1 3 = 12
row name_place 1 1 1 4 = 21
row name_place 1 1 1 5 = 28
row name_place 1 1 2 1 = 3\n",
    "\nrow name_place 1 10 9 2 = 24\nrow name_place 1 10 9 3 = 10\ntx ",
];

#[test]
fn rows_of_the_smallest_head(rt: HostRuntime) {
    let (_, script) = printed(&rt, ORDERS, 0);
    let text = str::from_utf8(&script).unwrap_or("?");
    for rows in ROWS_OF_ORDERS {
        holds(&rt, rows, 0, text.contains(rows));
    }
}

/// Two batches of two requests that also write rows anew, and prefer one key.
const MIXED: &str = "gen --batches 2 --size 2 --keys 100 --ops 3 --updates 25 --hot 20";

/// How the command ends where the sink's first call fails, the second one and so on, and how many bytes it was given
/// by then: nothing, the catalogue's line, the rows, the first batch. The fifth call is never made.
const CUTS: [(u64, u8, usize); 5] = [
    (1, WRITE_FAULT, 0),
    (2, WRITE_FAULT, 13),
    (3, WRITE_FAULT, 3_403),
    (4, WRITE_FAULT, 3_462),
    (5, DONE, 3_520),
];

#[test]
fn sinks_that_fail(rt: HostRuntime) {
    let (_, whole) = printed(&rt, MIXED, 0);
    for (call, status, count) in CUTS {
        let (ending, script) = printed(&rt, MIXED, call);
        let right = ending == status && script.len() == count && whole.starts_with(&script);
        holds(&rt, "the beginning is given", call, right);
    }
}
