// Order-Status.
use crate::runs::Wanted::{Fails, Gives, Many, Traps};
use crate::steps::Step::{Call, Customer, Lines, Put};
use crate::steps::{Step, after};
use proc_lang::Trap::{Absent, Many as TooMany, Overflow};
use tpcc_routines::ORDER_STATUS;

/// Four customers share the name 7: those of the places 1 to 4 have the numbers 4, 1, 3 and 2. Three have the name 8.
/// The customers 1 and 3 have further orders, and so has another district.
const TOLD: [Step; 25] = [
    Put((9, &[1, 1, 7], &[4])),
    Put((10, &[1, 1, 7, 1], &[4])),
    Put((10, &[1, 1, 7, 2], &[1])),
    Put((10, &[1, 1, 7, 3], &[3])),
    Put((10, &[1, 1, 7, 4], &[2])),
    Put((9, &[1, 1, 8], &[3])),
    Put((10, &[1, 1, 8, 2], &[2])),
    Put((9, &[1, 1, 9], &[1])),
    Put((9, &[1, 1, 10], &[i64::MAX])),
    Put((5, &[1, 1, 1], &[1, 0, 4, 1, 1])),
    Put((5, &[1, 1, 3], &[3, 8, 9, 2, 1])),
    Put((5, &[1, 2, 7], &[1, 0, 0, 1, 1])),
    Put((6, &[1, 1, 3, 1], &[1, 1, 6, 5, 10])),
    Put((6, &[1, 1, 3, 2], &[2, 1, 6, 4, 20])),
    Customer(2, 20),
    Customer(3, 30),
    Call(
        ORDER_STATUS,
        &[1, 1, 0, 1],
        Gives(&[1, -3_500, 2, 0, 0, 1, 1, 5, 5_000, 0]),
    ),
    Call(
        ORDER_STATUS,
        &[1, 1, 1, 7],
        Gives(&[1, -3_500, 2, 0, 0, 1, 1, 5, 5_000, 0]),
    ),
    Call(ORDER_STATUS, &[1, 1, 0, 2], Gives(&[2, 20, 0])),
    Call(ORDER_STATUS, &[1, 1, 1, 8], Gives(&[2, 20, 0])),
    Call(
        ORDER_STATUS,
        &[1, 1, 0, 3],
        Gives(&[3, 30, 3, 8, 9, 1, 1, 5, 10, 6, 2, 1, 4, 20, 6]),
    ),
    Call(ORDER_STATUS, &[1, 1, 1, 6], Fails(2)),
    Call(ORDER_STATUS, &[1, 1, 1, 9], Traps(Absent)),
    Call(ORDER_STATUS, &[1, 1, 1, 10], Traps(Overflow)),
    Call(ORDER_STATUS, &[1, 2, 0, 1], Traps(Absent)),
];

/// What is told of order 2 with fifteen lines.
const FIFTEEN: &[i64] = &[
    1, -3_500, 2, 0, 0, 1, 1, 5, 5, 0, 1, 1, 5, 5, 0, 1, 1, 5, 5, 0, 1, 1, 5, 5, 0, 1, 1, 5, 5, 0,
    1, 1, 5, 5, 0, 1, 1, 5, 5, 0, 1, 1, 5, 5, 0, 1, 1, 5, 5, 0, 1, 1, 5, 5, 0, 1, 1, 5, 5, 0, 1, 1,
    5, 5, 0, 1, 1, 5, 5, 0, 1, 1, 5, 5, 0, 1, 1, 5, 5, 0,
];

/// Fifty lines come to 255 values with the five of the order, and one line more to too many.
const LONG: [Step; 6] = [
    Lines(15),
    Call(ORDER_STATUS, &[1, 1, 0, 1], Gives(FIFTEEN)),
    Lines(50),
    Call(ORDER_STATUS, &[1, 1, 0, 1], Many(255)),
    Lines(51),
    Call(ORDER_STATUS, &[1, 1, 0, 1], Traps(TooMany)),
];

#[test]
fn the_last_order_is_told(rt: HostRuntime) {
    let _told = after(&rt, rt.alloc(), &TOLD);
    let _long = after(&rt, rt.alloc(), &LONG);
}
