// Stock-Level.
use crate::runs::Wanted::{Gives, Traps};
use crate::steps::Step::{Call, Put};
use crate::steps::{Step, after};
use proc_lang::Trap::{Absent, Overflow};
use tpcc_routines::STOCK_LEVEL;

/// Only what is less than the quantity counts.
const LOW: [Step; 2] = [
    Call(STOCK_LEVEL, &[1, 1, 101], Gives(&[1])),
    Call(STOCK_LEVEL, &[1, 1, 100], Gives(&[0])),
];

/// The next order is 25: the orders 5 to 24 count, and 4 and 25 do not. Item 1 is in two lines and counts once. Item 2
/// has no stock.
const MANY: [Step; 12] = [
    Put((1, &[1, 1], &[700, 32_500, 25])),
    Put((6, &[1, 1, 4, 1], &[9, 1, 0, 5, 1])),
    Put((6, &[1, 1, 5, 1], &[3, 1, 0, 5, 1])),
    Put((6, &[1, 1, 24, 1], &[1, 1, 0, 5, 1])),
    Put((6, &[1, 1, 24, 2], &[1, 1, 0, 5, 1])),
    Put((6, &[1, 1, 25, 1], &[8, 1, 0, 5, 1])),
    Put((8, &[1, 3], &[14, 0, 0, 0, 0])),
    Call(STOCK_LEVEL, &[1, 1, 15], Gives(&[1])),
    Call(STOCK_LEVEL, &[1, 1, 101], Gives(&[2])),
    Put((6, &[1, 1, 6, 1], &[2, 1, 0, 5, 1])),
    Call(STOCK_LEVEL, &[1, 1, 15], Traps(Absent)),
    Call(STOCK_LEVEL, &[1, 2, 15], Traps(Absent)),
];

/// The numbers before the first order are looked at as well; where there are none, the run traps.
const FIRST: [Step; 6] = [
    Put((1, &[1, 1], &[0, 0, 1])),
    Call(STOCK_LEVEL, &[1, 1, 101], Gives(&[0])),
    Put((1, &[1, 1], &[0, 0, i64::MIN + 19])),
    Call(STOCK_LEVEL, &[1, 1, 101], Traps(Overflow)),
    Put((1, &[1, 1], &[0, 0, i64::MIN + 20])),
    Call(STOCK_LEVEL, &[1, 1, 101], Gives(&[0])),
];

#[test]
fn low_stock_is_counted(rt: HostRuntime) {
    let _low = after(&rt, rt.alloc(), &LOW);
    let _many = after(&rt, rt.alloc(), &MANY);
    let _first = after(&rt, rt.alloc(), &FIRST);
}
