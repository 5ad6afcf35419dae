// Delivery: the oldest open order of each district.
ghost use Rattle.std.specs.Prelude.{◌≡◌, ◌+◌, ◌<◌, ℤ, pos, IfOk};
ghost use Rattle.range_rules.specs.Walks.{Walk, follow};
ghost use Rattle.tpcc_load.specs.declared.districts.TheConstants.{DISTRICTS_EACH};
ghost use Rattle.tpcc_routines.specs.Routines as routines;
ghost use Rattle.tpcc_routines.specs.Turns.{Turns};

use crate::answers::{are_lines, are_numbers, are_open_orders, is_customer};
use crate::calls::Delivery;
use crate::columns::{C_BALANCE, O_C_ID, O_CARRIER_ID, OL_AMOUNT, OL_DELIVERY_D, ORDER_COLUMNS};
use crate::ends::{absent, given, overflow, sum};
use crate::rows::{district_prefix, key_in, line_prefix, with_number};
use crate::turns::Turn;
use aria_base::{Duplicate, Key, Memory, Row, Value};
use range_rules::{Action, Seen};
use std::alloc::Global;
use tpcc_audit::{District, column_at, part_at};
use tpcc_load::DISTRICTS_EACH;
use tpcc_load::tables::{CUSTOMERS, OPEN_ORDERS, ORDERS};

/// All districts of the warehouse, one by one.
pub(crate) fn delivery(alloc: Global, what: Delivery, seen: &[Seen]) -> Result<Action, Memory>
    ensures { IfOk result (λ action. action ≡ follow (routines.delivery what) seen.now) }
{
    let mut left = seen;
    let mut orders = Vec::with_capacity(alloc, DISTRICTS_EACH as usize)?;
    for district in 0..DISTRICTS_EACH {
        match deliver(alloc, what, district_of(what, district), left)? {
            Turn::Asks(action) => return Ok(action),
            Turn::Goes(rest, order) => {
                left = rest;
                orders.push(Value::Int(order))?;
            }
        }
    }
    Ok(given(orders))
}

/// The district behind so many of the warehouse.
fn district_of(what: Delivery, before: u32) -> District
    requires { before < DISTRICTS_EACH }
    ensures { result ≡ record { w = what.w; d = pos (before + 1) } }
{
    District {
        w: what.w,
        d: i64::from(before + 1),
    }
}

/// A district, which goes on with the order that is delivered, or 0.
#[tactic(auto, unfolding(crate::specs::Routines::deliver))]
fn deliver<'a>(
    alloc: Global,
    what: Delivery,
    at: District,
    seen: &'a [Seen],
) -> Result<Turn<'a>, Memory>
    ensures { IfOk result (λ turn. (next : ℤ → Walk) → Turns (routines.deliver what at next) next seen.now turn) }
{
    match seen {
        [] => Ok(Turn::Asks(Action::Scan(district_prefix(OPEN_ORDERS, at)))),
        [Seen::Many(orders), rest @ ..] => {
            let orders = orders.as_slice();
            if !are_open_orders(at, orders) {
                return Ok(Turn::Asks(absent()));
            }
            let turn = oldest(alloc, what, at, orders, rest)?;
            Ok(turn)
        }
        _ => Ok(Turn::Asks(absent())),
    }
}

/// The district behind its open orders.
fn oldest<'a>(
    alloc: Global,
    what: Delivery,
    at: District,
    orders: &[(Key, Row)],
    seen: &'a [Seen],
) -> Result<Turn<'a>, Memory>
    ensures { IfOk result (λ turn. (next : ℤ → Walk) → Turns (routines.oldest what at next orders.now) next seen.now turn) }
{
    match orders {
        [] => Ok(Turn::Goes(seen, 0)),
        [(key, _), ..] => {
            let turn = closed(alloc, what, at, &part_at(key, 2), seen)?;
            Ok(turn)
        }
    }
}

/// The district with the number of its oldest open order.
#[tactic(auto, unfolding(crate::specs::Routines::closed))]
fn closed<'a>(
    alloc: Global,
    what: Delivery,
    at: District,
    o: &i64,
    seen: &'a [Seen],
) -> Result<Turn<'a>, Memory>
    ensures { IfOk result (λ turn. (next : ℤ → Walk) → Turns (routines.closed what at o.now next) next seen.now turn) }
{
    match seen {
        [] => Ok(Turn::Asks(Action::Write(key_in(alloc, OPEN_ORDERS, at, *o)?, None))),
        [Seen::Wrote, rest @ ..] => {
            let turn = with_carrier(alloc, what, at, o, rest)?;
            Ok(turn)
        }
        _ => Ok(Turn::Asks(absent())),
    }
}

/// The district whose order is no longer open.
#[tactic(auto, unfolding(crate::specs::Routines::with_carrier))]
fn with_carrier<'a>(
    alloc: Global,
    what: Delivery,
    at: District,
    o: &i64,
    seen: &'a [Seen],
) -> Result<Turn<'a>, Memory>
    ensures { IfOk result (λ turn. (next : ℤ → Walk) → Turns (routines.with_carrier what at o.now next) next seen.now turn) }
{
    match seen {
        [] => Ok(Turn::Asks(Action::Read(key_in(alloc, ORDERS, at, *o)?))),
        [Seen::One(Some(order)), rest @ ..] => {
            if !are_numbers(ORDER_COLUMNS, order) {
                return Ok(Turn::Asks(absent()));
            }
            let turn = carried(alloc, what, at, o, order, rest)?;
            Ok(turn)
        }
        _ => Ok(Turn::Asks(absent())),
    }
}

/// The district with the order's row.
#[tactic(auto, unfolding(crate::specs::Routines::carried))]
fn carried<'a>(
    alloc: Global,
    what: Delivery,
    at: District,
    o: &i64,
    order: &Row,
    seen: &'a [Seen],
) -> Result<Turn<'a>, Memory>
    ensures { IfOk result (λ turn. (next : ℤ → Walk) → Turns (routines.carried what at o.now order.now next) next seen.now turn) }
{
    match seen {
        [] => {
            let row = with_number(alloc, order, O_CARRIER_ID, what.carrier)?;
            Ok(Turn::Asks(Action::Write(key_in(alloc, ORDERS, at, *o)?, Some(row))))
        }
        [Seen::Wrote, rest @ ..] => {
            let turn = dated(alloc, what, at, o, &column_at(order, O_C_ID), rest)?;
            Ok(turn)
        }
        _ => Ok(Turn::Asks(absent())),
    }
}

/// The district whose order has its carrier, and is one of this customer.
#[tactic(auto, unfolding(crate::specs::Routines::dated))]
fn dated<'a>(
    alloc: Global,
    what: Delivery,
    at: District,
    o: &i64,
    c: &i64,
    seen: &'a [Seen],
) -> Result<Turn<'a>, Memory>
    ensures { IfOk result (λ turn. (next : ℤ → Walk) → Turns (routines.dated what at o.now c.now next) next seen.now turn) }
{
    match seen {
        [] => Ok(Turn::Asks(Action::Scan(line_prefix(at, *o)))),
        [Seen::Many(lines), rest @ ..] => {
            let lines = lines.as_slice();
            if !are_lines(at, *o, lines) {
                return Ok(Turn::Asks(absent()));
            }
            let turn = with_dates(alloc, what, at, o, c, lines, rest)?;
            Ok(turn)
        }
        _ => Ok(Turn::Asks(absent())),
    }
}

/// The district with the order's lines.
#[tactic(auto, unfolding(crate::specs::Routines::with_dates))]
fn with_dates<'a>(
    alloc: Global,
    what: Delivery,
    at: District,
    o: &i64,
    c: &i64,
    lines: &[(Key, Row)],
    seen: &'a [Seen],
) -> Result<Turn<'a>, Memory>
    ensures { IfOk result (λ turn. (next : ℤ → Walk)
        → Turns (routines.with_dates what at o.now c.now lines.now next) next seen.now turn) }
{
    match each_dated(alloc, what, lines, seen)? {
        Turn::Asks(action) => Ok(Turn::Asks(action)),
        Turn::Goes(rest, amount) => {
            let turn = credited(alloc, at, o, c, &amount, rest)?;
            Ok(turn)
        }
    }
}

/// Each line gets the date; it goes on with the sum of their amounts.
#[tactic(auto, unfolding(crate::specs::Routines::each_dated))]
fn each_dated<'a>(
    alloc: Global,
    what: Delivery,
    lines: &[(Key, Row)],
    seen: &'a [Seen],
) -> Result<Turn<'a>, Memory>
    ensures { IfOk result (λ turn. (next : ℤ → Walk) → Turns (routines.all_dated what.date lines.now next) next seen.now turn) }
{
    let mut left = seen;
    let mut amount = 0;
    for (key, line) in lines {
        match line_dated(alloc, what, &amount, key, line, left)? {
            Turn::Asks(action) => return Ok(Turn::Asks(action)),
            Turn::Goes(rest, more) => {
                left = rest;
                amount = more;
            }
        }
    }
    Ok(Turn::Goes(left, amount))
}

/// The line gets the date; it goes on with its amount added to the sum.
fn line_dated<'a>(
    alloc: Global,
    what: Delivery,
    amount: &i64,
    key: &Key,
    line: &Row,
    seen: &'a [Seen],
) -> Result<Turn<'a>, Memory>
    ensures { IfOk result (λ turn. (next : ℤ → Walk)
        → Turns (routines.line_dated what.date amount.now (key.now, line.now) next) next seen.now turn) }
{
    match seen {
        [] => {
            let row = with_number(alloc, line, OL_DELIVERY_D, what.date)?;
            Ok(Turn::Asks(Action::Write(key.duplicate(alloc)?, Some(row))))
        }
        [Seen::Wrote, rest @ ..] => match sum(*amount, column_at(line, OL_AMOUNT)) {
            Some(more) => Ok(Turn::Goes(rest, more)),
            None => Ok(Turn::Asks(overflow())),
        },
        _ => Ok(Turn::Asks(absent())),
    }
}

/// The customer's row, for the order's amount.
#[tactic(auto, unfolding(crate::specs::Routines::credited))]
fn credited<'a>(
    alloc: Global,
    at: District,
    o: &i64,
    c: &i64,
    amount: &i64,
    seen: &'a [Seen],
) -> Result<Turn<'a>, Memory>
    ensures { IfOk result (λ turn. (next : ℤ → Walk) → Turns (routines.credited at o.now c.now amount.now next) next seen.now turn) }
{
    match seen {
        [] => Ok(Turn::Asks(Action::Read(key_in(alloc, CUSTOMERS, at, *c)?))),
        [Seen::One(Some(customer)), rest @ ..] => {
            if !is_customer(customer) {
                return Ok(Turn::Asks(absent()));
            }
            match sum(column_at(customer, C_BALANCE), *amount) {
                Some(balance) => {
                    let turn = with_balance(alloc, at, o, c, customer, &balance, rest)?;
                    Ok(turn)
                }
                None => Ok(Turn::Asks(overflow())),
            }
        }
        _ => Ok(Turn::Asks(absent())),
    }
}

/// The customer's new balance.
#[tactic(auto, unfolding(crate::specs::Routines::with_balance))]
fn with_balance<'a>(
    alloc: Global,
    at: District,
    o: &i64,
    c: &i64,
    customer: &Row,
    balance: &i64,
    seen: &'a [Seen],
) -> Result<Turn<'a>, Memory>
    ensures { IfOk result (λ turn. (next : ℤ → Walk)
        → Turns (routines.with_balance at o.now c.now customer.now balance.now next) next seen.now turn) }
{
    match seen {
        [] => {
            let row = with_number(alloc, customer, C_BALANCE, *balance)?;
            Ok(Turn::Asks(Action::Write(key_in(alloc, CUSTOMERS, at, *c)?, Some(row))))
        }
        [Seen::Wrote, rest @ ..] => Ok(Turn::Goes(rest, *o)),
        _ => Ok(Turn::Asks(absent())),
    }
}
