// What is sound.
use crate::steps::Step::{Delete, Finds, Put};
use crate::steps::{Step, after};

/// A line is missing, one is of an order that is still to come, and then the audit fails first again.
const FAILURES: [Step; 7] = [
    Finds(0),
    Delete(6, &[1, 1, 2, 1]),
    Finds(4),
    Put((6, &[1, 1, 3, 1], &[1, 1, 0, 5, 1])),
    Finds(5),
    Put((6, &[1, 1, 3, 2], &[1, 1, 0, 5, 1])),
    Finds(4),
];

/// A line of a district that has no row is no failure, and one of a number far below is none.
const ELSEWHERE: [Step; 5] = [
    Put((6, &[1, 2, 9, 1], &[1, 1, 0, 5, 1])),
    Finds(0),
    Delete(6, &[1, 1, 2, 1]),
    Put((6, &[1, 1, -7, 1], &[1, 1, 0, 5, 1])),
    Finds(0),
];

#[test]
fn failures_are_found(rt: HostRuntime) {
    let _failures = after(&rt, rt.alloc(), &FAILURES);
    let _elsewhere = after(&rt, rt.alloc(), &ELSEWHERE);
}
