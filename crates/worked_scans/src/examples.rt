// Batches worked out by hand.
use crate::engines::{MEMORY, NAME, ROUTINE, SET, begun_again, engine, holds, run, work};
use crate::steps::{DELETE, PUT, PUT_AT, READ, SCAN, SCAN_LONGEST, SCAN_PAIRS, SCAN_TEXTS, TRAP};
use answer_text::append_answer;
use dep_rules::Rule;
use dep_rules::Rule::{Plain, Reorder};
use range_resv::ScanEngine;
use std::alloc::Global;
use std::process::Abort;
use std::thread::Threads;

/// What a work calls, and with which numbers.
pub type Ask<'a> = (u16, &'a [i64]);

/// The rule of each batch and its new works, and what the batches print, the first one on no rows.
type Example = (&'static [(Rule, &'static [Ask<'static>])], &'static str);

const MIN: i64 = i64::MIN;

const MAX: i64 = i64::MAX;

const EXAMPLES: [Example; 12] = [
    // the second scans where the first writes: it counts as run before
    (
        &[(
            Reorder,
            &[
                (ROUTINE, &[SCAN, 1, 0, PUT, 2, 0]),
                (ROUTINE, &[SCAN, 2, 0, PUT, 3, 0]),
            ],
        )],
        "batch 1\n1 ok 0\n2 ok 0\norder 2 1\nend 1\n",
    ),
    // each scans where the other one writes
    (
        &[(
            Reorder,
            &[
                (ROUTINE, &[SCAN, 1, 0, PUT, 2, 0]),
                (ROUTINE, &[SCAN, 2, 0, PUT, 1, 0]),
            ],
        )],
        "batch 1\n1 ok 0\n2 wait both 1 1\norder 1\nend 1\n",
    ),
    // both write one pair
    (
        &[(
            Reorder,
            &[
                (ROUTINE, &[SCAN, 1, 0, PUT, 2, 0]),
                (ROUTINE, &[SCAN, 3, 0, PUT, 2, 0]),
            ],
        )],
        "batch 1\n1 ok 0\n2 wait waw 1\norder 1\nend 1\n",
    ),
    // two write under one prefix, which is no write of one pair
    (
        &[(
            Reorder,
            &[
                (ROUTINE, &[SCAN, 1, 0, PUT, 2, 0]),
                (ROUTINE, &[PUT, 2, 1]),
                (ROUTINE, &[SCAN, 2, 0, PUT, 5, 0]),
            ],
        )],
        "batch 1\n1 ok 0\n2 ok 0\n3 ok 0\norder 3 1 2\nend 1\n",
    ),
    // a scan of a whole table meets each earlier write into it, and none of another table
    (
        &[
            (
                Plain,
                &[
                    (NAME, &[7]),
                    (ROUTINE, &[SCAN_PAIRS, 0, 0, PUT, 1, 0]),
                    (SET, &[5, 5, 8]),
                    (ROUTINE, &[SCAN_PAIRS, 0, 0]),
                ],
            ),
            (
                Reorder,
                &[
                    (ROUTINE, &[SCAN_PAIRS, 0, 0, PUT, 2, 0]),
                    (ROUTINE, &[SCAN_PAIRS, 0, 0, PUT, 3, 0]),
                    (ROUTINE, &[SCAN_PAIRS, 0, 0]),
                ],
            ),
        ],
        "batch 1\n1 ok\n2 ok 0\n3 ok\n4 wait raw 2\norder 1 2 3\nend 1\nbatch 2\n4 ok 0 8 2\n5 ok 0 8 2\n6 wait both 5 4\n7 ok 0 8 2\norder 7 4 5\nend 2\n",
    ),
    // the greatest and the least number end a prefix, and a whole table has none
    (
        &[
            (
                Plain,
                &[
                    (SET, &[MIN, MIN, 1]),
                    (SET, &[MIN, MAX, 2]),
                    (SET, &[MAX - 1, MAX, 3]),
                    (SET, &[MAX, MIN, 4]),
                    (SET, &[MAX, 0, 5]),
                    (SET, &[MAX, MAX, 6]),
                ],
            ),
            (
                Plain,
                &[
                    (ROUTINE, &[SCAN, MAX, 0]),
                    (ROUTINE, &[SCAN, MIN, 0]),
                    (ROUTINE, &[SCAN, 0, 0]),
                    (ROUTINE, &[SCAN_PAIRS, 0, 0]),
                    (ROUTINE, &[SCAN_TEXTS, 0, 0]),
                    (ROUTINE, &[SCAN, MAX, 0, DELETE, MAX, 0, SCAN, MAX, 0]),
                ],
            ),
            (Plain, &[(ROUTINE, &[SCAN_PAIRS, 0, 0])]),
        ],
        "batch 1\n1 ok\n2 ok\n3 ok\n4 ok\n5 ok\n6 ok\norder 1 2 3 4 5 6\nend 1\nbatch 2\n7 ok 4 5 6 3\n8 ok 1 2 2\n9 ok 0\n10 ok 1 2 3 4 5 6 6\n11 ok 0\n12 ok 4 5 6 4 6 5\norder 7 8 9 10 11 12\nend 2\nbatch 3\n13 ok 1 2 3 4 6 5\norder 13\nend 3\n",
    ),
    // the longest text ends a prefix
    (
        &[
            (Plain, &[(NAME, &[7]), (NAME, &[MIN]), (NAME, &[MAX])]),
            (
                Reorder,
                &[
                    (ROUTINE, &[SCAN_LONGEST, 0, 0]),
                    (ROUTINE, &[SCAN_TEXTS, 0, 0]),
                    (ROUTINE, &[SCAN_PAIRS, 0, 0]),
                    (NAME, &[8]),
                    (ROUTINE, &[SCAN_LONGEST, 0, 0]),
                ],
            ),
            (Plain, &[(ROUTINE, &[SCAN_LONGEST, 0, 0])]),
        ],
        "batch 1\n1 ok\n2 ok\n3 ok\norder 1 2 3\nend 1\nbatch 2\n4 ok -9223372036854775808 7 9223372036854775807 3\n5 ok -9223372036854775808 7 9223372036854775807 3\n6 ok 0\n7 ok\n8 ok -9223372036854775808 7 9223372036854775807 3\norder 8 4 5 6 7\nend 2\nbatch 3\n9 ok -9223372036854775808 7 8 9223372036854775807 4\norder 9\nend 3\n",
    ),
    // a run scans one prefix again, after its own write and after its own deletion under it
    (
        &[
            (
                Plain,
                &[(SET, &[1, 4, 9]), (SET, &[1, 6, 8]), (SET, &[2, 5, 7])],
            ),
            (
                Plain,
                &[
                    (ROUTINE, &[SCAN, 1, 0, SCAN, 1, 0]),
                    (
                        ROUTINE,
                        &[SCAN, 1, 0, PUT, 1, 5, SCAN, 1, 0, DELETE, 1, 5, SCAN, 1, 0],
                    ),
                ],
            ),
            (Plain, &[(ROUTINE, &[DELETE, 1, 4, SCAN, 1, 0])]),
            (
                Plain,
                &[(
                    ROUTINE,
                    &[
                        PUT, 1, 9, DELETE, 1, 9, PUT, 1, 9, SCAN, 1, 0, READ, 1, 9, PUT_AT, 1, 5,
                    ],
                )],
            ),
            (Plain, &[(ROUTINE, &[SCAN, 1, 0])]),
        ],
        "batch 1\n1 ok\n2 ok\n3 ok\norder 1 2 3\nend 1\nbatch 2\n4 ok 9 8 9 8 4\n5 ok 9 8 9 2 8 9 8 7\norder 4 5\nend 2\nbatch 3\n6 ok 8 1\norder 6\nend 3\nbatch 4\n7 ok 8 0 0 3\norder 7\nend 4\nbatch 5\n8 ok 5 8 0 3\norder 8\nend 5\n",
    ),
    // a run that traps writes nothing, and has scanned what it scanned
    (
        &[(
            Plain,
            &[
                (ROUTINE, &[PUT, 3, 3, SCAN, 3, 0, TRAP, 0, 0]),
                (ROUTINE, &[SCAN, 3, 0]),
                (SET, &[4, 0, 1]),
                (ROUTINE, &[SCAN, 4, 0, TRAP, 0, 0]),
            ],
        )],
        "batch 1\n1 trap absent\n2 ok 0\n3 ok\n4 wait raw 3\norder 1 2 3\nend 1\n",
    ),
    // what waits is run first, with the number that it had, and sees what was written
    (
        &[
            (
                Plain,
                &[
                    (SET, &[1, 4, 9]),
                    (SET, &[1, -4, 6]),
                    (SET, &[2, 0, 7]),
                    (SET, &[0, 1, 1]),
                ],
            ),
            (
                Plain,
                &[
                    (ROUTINE, &[SCAN, 1, 0, PUT, 2, 0]),
                    (ROUTINE, &[SCAN, 2, 0, PUT, 3, 0]),
                    (ROUTINE, &[SCAN, 1, 0, PUT, 7, 0]),
                ],
            ),
            (
                Reorder,
                &[(SET, &[1, 9, 5]), (ROUTINE, &[SCAN, 1, 0, PUT, 8, 0])],
            ),
            (Reorder, &[(ROUTINE, &[SCAN, 1, 0, PUT, 1, 0])]),
            (
                Plain,
                &[(
                    ROUTINE,
                    &[READ, 1, 0, READ, 3, 0, READ, 7, 0, READ, 8, 0, READ, 9, 9],
                )],
            ),
        ],
        "batch 1\n1 ok\n2 ok\n3 ok\n4 ok\norder 1 2 3 4\nend 1\nbatch 2\n5 ok 6 9 2\n6 wait raw 5\n7 ok 6 9 2\norder 5 7\nend 2\nbatch 3\n6 ok 2 1\n8 ok\n9 ok 6 9 2\norder 9 6 8\nend 3\nbatch 4\n10 ok 6 9 5 3\norder 10\nend 4\nbatch 5\n11 ok 3 1 2 2 4\norder 11\nend 5\n",
    ),
    // a deletion under a prefix is a write under it, also of a pair that is not there
    (
        &[(
            Plain,
            &[
                (ROUTINE, &[DELETE, 1, 1]),
                (ROUTINE, &[SCAN, 1, 0]),
                (ROUTINE, &[READ, 1, 2]),
                (ROUTINE, &[READ, 1, 1]),
            ],
        )],
        "batch 1\n1 ok 0\n2 wait raw 1\n3 ok 0\n4 wait raw 1\norder 1 3\nend 1\n",
    ),
    // a batch without works
    (&[(Plain, &[])], "batch 1\norder\nend 1\n"),
];

/// Runs the next batch, and appends what it prints.
pub fn run_printed<T: Abort + Threads + Sync>(
    rt: &T,
    alloc: Global,
    out: &mut Vec<u8>,
    engine: ScanEngine,
    rule: Rule,
    asks: &[Ask],
    workers: u32,
) -> ScanEngine {
    let mut works = Vec::new(alloc);
    for &(kind, numbers) in asks {
        let work = work(rt, alloc, kind, numbers);
        works.push(work).expect(rt, MEMORY);
    }
    let (engine, answer) = run(rt, alloc, engine, works, rule, workers);
    append_answer(out, engine.catalog(), &answer).expect(rt, MEMORY);
    engine
}

/// Asserts that so many workers print what was worked out for the example at this place.
fn prints<T: Abort + Threads + Sync>(
    rt: &T,
    alloc: Global,
    place: u64,
    (batches, wanted): Example,
    workers: u32,
) {
    let mut engine = engine(rt, alloc);
    let mut out = Vec::new(alloc);
    for &(rule, asks) in batches {
        engine = run_printed(rt, alloc, &mut out, engine, rule, asks, workers);
    }
    let printed = out.as_slice() == wanted.as_bytes();
    holds(rt, "an example", place, printed);
}

#[test]
fn engines_print_what_was_worked_out(rt: HostRuntime) {
    for (place, &example) in EXAMPLES.iter().enumerate() {
        for workers in [1, 2, 7] {
            prints(&rt, rt.alloc(), place as u64, example, workers);
        }
    }
}

#[test]
fn an_engine_begins_with_rows(rt: HostRuntime) {
    let alloc = rt.alloc();
    let mut out = Vec::new(alloc);
    let none = engine(&rt, alloc);
    let sets: &[Ask] = &[(SET, &[2, 1, 5]), (SET, &[1, 1, 6]), (SET, &[2, 0, 7])];
    let first = run_printed(&rt, alloc, &mut out, none, Plain, sets, 2);
    out.clear();
    let again = begun_again(&rt, alloc, &first);
    let scans: &[Ask] = &[(ROUTINE, &[SCAN, 2, 0]), (ROUTINE, &[SCAN_PAIRS, 0, 0])];
    let _again = run_printed(&rt, alloc, &mut out, again, Plain, scans, 2);
    let wanted = "batch 1\n1 ok 7 5 2\n2 ok 6 7 5 3\norder 1 2\nend 1\n";
    let printed = out.as_slice() == wanted.as_bytes();
    holds(&rt, "an engine on rows", 1, printed);
}
