// Delivery, by carrier 7 on day 3.
use crate::runs::Wanted::{Gives, Traps};
use crate::steps::Step::{Call, Customer, Delete, Put};
use crate::steps::{Step, after, same_rows};
use proc_lang::Trap::{Absent, Overflow};
use tpcc_routines::DELIVERY;

const SEVEN: &[i64] = &[1, 7, 3];

/// The one open order is delivered.
const FIRST: Step = Call(DELIVERY, SEVEN, Gives(&[2, 0, 0, 0, 0, 0, 0, 0, 0, 0]));

/// No order is open.
const NONE: Step = Call(DELIVERY, SEVEN, Gives(&[0, 0, 0, 0, 0, 0, 0, 0, 0, 0]));

/// The rows that are wanted behind the delivery.
const DELIVERED: [Step; 4] = [
    Delete(4, &[1, 1, 2]),
    Put((5, &[1, 1, 2], &[1, 0, 7, 1, 1])),
    Put((6, &[1, 1, 2, 1], &[1, 1, 3, 5, 5_000])),
    Customer(1, 1_500),
];

#[test]
fn the_open_order_is_delivered(rt: HostRuntime) {
    let alloc = rt.alloc();
    let wanted = after(&rt, alloc, &DELIVERED);
    same_rows(&rt, &after(&rt, alloc, &[FIRST]), &wanted);
    same_rows(&rt, &after(&rt, alloc, &[FIRST, NONE]), &wanted);
}

/// The least of the open orders comes first, whatever day they were entered on.
const TWO: [Step; 6] = [
    Put((4, &[1, 1, 3], &[])),
    Put((5, &[1, 1, 3], &[1, 0, 0, 1, 1])),
    Put((6, &[1, 1, 3, 1], &[1, 1, 0, 5, 1])),
    FIRST,
    Call(DELIVERY, SEVEN, Gives(&[3, 0, 0, 0, 0, 0, 0, 0, 0, 0])),
    NONE,
];

/// A second line makes the sum too large, and the third one would make it smaller again.
const LARGE_SUM: [Step; 4] = [
    Put((6, &[1, 1, 2, 1], &[1, 1, 0, 5, i64::MAX])),
    Put((6, &[1, 1, 2, 2], &[1, 1, 0, 5, 1])),
    Put((6, &[1, 1, 2, 3], &[1, 1, 0, 5, -9])),
    Call(DELIVERY, SEVEN, Traps(Overflow)),
];

const LARGE_BALANCE: [Step; 2] = [
    Customer(1, i64::MAX - 4_999),
    Call(DELIVERY, SEVEN, Traps(Overflow)),
];

const LARGEST_BALANCE: [Step; 2] = [Customer(1, i64::MAX - 5_000), FIRST];

/// The order of an open one is to be there, and its customer.
const NO_ORDER: [Step; 2] = [Delete(5, &[1, 1, 2]), Call(DELIVERY, SEVEN, Traps(Absent))];

const NO_CUSTOMER: [Step; 2] = [
    Put((5, &[1, 1, 2], &[2, 0, 0, 1, 1])),
    Call(DELIVERY, SEVEN, Traps(Absent)),
];

/// An order without lines, and a warehouse without rows.
const EMPTY: [Step; 3] = [
    Delete(6, &[1, 1, 2, 1]),
    FIRST,
    Call(DELIVERY, &[9, 7, 3], Gives(&[0, 0, 0, 0, 0, 0, 0, 0, 0, 0])),
];

const CASES: [&[Step]; 7] = [
    &TWO,
    &LARGE_SUM,
    &LARGE_BALANCE,
    &LARGEST_BALANCE,
    &NO_ORDER,
    &NO_CUSTOMER,
    &EMPTY,
];

#[test]
fn deliveries_end_so(rt: HostRuntime) {
    for steps in &CASES {
        let _tables = after(&rt, rt.alloc(), steps);
    }
}
