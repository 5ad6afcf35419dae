// The routines of order entry.
ghost use Rattle.std.specs.Prelude.{◌≡◌, IfOk};
ghost use Rattle.range_rules.specs.Walks.{follow};
ghost use Rattle.tpcc_routines.specs.Routines as routines;

use crate::calls::{DELIVERY, Delivery, ORDER_STATUS, STOCK_LEVEL};
use crate::deliveries::delivery;
use crate::ends::absent;
use crate::levels::stock_level;
use crate::statuses::order_status;
use aria_base::Memory;
use range_rules::{Action, Routine, RoutineCall, Seen};
use std::alloc::Global;
use tpcc_audit::District;

/// Order-Status, Delivery and Stock-Level. A call has the kind [`ORDER_STATUS`], [`DELIVERY`] or [`STOCK_LEVEL`], and as
/// many numbers as that kind needs.
#[derive(Clone, Copy, Debug, Drop)]
pub struct More;

impl Routine for More {
    ghost use Rattle.range_rules.specs.Walks.{follow};
    ghost use Rattle.tpcc_routines.specs.Routines.{walk_of, is_more};

    ghost taken = { λ _ call. is_more call };

    ghost act = { λ _ q call. follow (walk_of call) };

    fn takes(&self, call: &RoutineCall) -> bool {
        let count = call.nums.as_slice().len();
        match call.kind {
            ORDER_STATUS => count == 4,
            DELIVERY => count == 3,
            STOCK_LEVEL => count == 3,
            _ => false,
        }
    }

    fn next(
        &self,
        alloc: Global,
        _q: u64,
        call: &RoutineCall,
        seen: &[Seen],
    ) -> Result<Action, Memory> {
        let nums = call.nums.as_slice();
        match call.kind {
            ORDER_STATUS => status_by(alloc, nums, seen),
            DELIVERY => delivery_by(alloc, nums, seen),
            STOCK_LEVEL => level_by(alloc, nums, seen),
            _ => Ok(absent()),
        }
    }
}

/// Order-Status, called with these numbers.
fn status_by(alloc: Global, nums: &[i64], seen: &[Seen]) -> Result<Action, Memory>
    ensures { IfOk result (λ action. action ≡ follow (routines.status_by nums.now) seen.now) }
{
    match nums {
        [w, d, by, id] => order_status(alloc, District { w: *w, d: *d }, by, id, seen),
        _ => Ok(absent()),
    }
}

/// Delivery, called with these numbers.
fn delivery_by(alloc: Global, nums: &[i64], seen: &[Seen]) -> Result<Action, Memory>
    ensures { IfOk result (λ action. action ≡ follow (routines.delivery_by nums.now) seen.now) }
{
    match nums {
        [w, carrier, date] => delivery(
            alloc,
            Delivery {
                w: *w,
                carrier: *carrier,
                date: *date,
            },
            seen,
        ),
        _ => Ok(absent()),
    }
}

/// Stock-Level, called with these numbers.
fn level_by(alloc: Global, nums: &[i64], seen: &[Seen]) -> Result<Action, Memory>
    ensures { IfOk result (λ action. action ≡ follow (routines.level_by nums.now) seen.now) }
{
    match nums {
        [w, d, t] => stock_level(alloc, District { w: *w, d: *d }, t, seen),
        _ => Ok(absent()),
    }
}
