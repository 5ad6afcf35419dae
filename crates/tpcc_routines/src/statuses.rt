// Order-Status: a customer's last order.
ghost use Rattle.std.specs.Prelude.{◌≡◌, [], ◌∷◌, ◌++◌, None, IfOk, OnOk};
ghost use Rattle.aria_base.specs.declared.values.Value.TheVariants as value;
ghost use Rattle.range_rules.specs.declared.routines.Action.TheVariants.{Stop};
ghost use Rattle.range_rules.specs.Walks.{follow};
ghost use Rattle.tpcc_routines.specs.Routines as routines;

use crate::answers::{are_lines, are_numbers, are_orders, is_customer};
use crate::columns::{
    C_BALANCE, NAME_C_ID, NAME_COLUMNS, NAME_COUNT, O_C_ID, O_CARRIER_ID, O_ENTRY_D, OL_AMOUNT,
    OL_DELIVERY_D, OL_I_ID, OL_QUANTITY, OL_SUPPLY_W_ID,
};
use crate::ends::{absent, given, overflow, push_all, sum, values};
use crate::rows::{district_prefix, key_in, line_prefix, place_key};
use aria_base::{Key, Memory, Row, Value};
use proc_lang::End;
use range_rules::{Action, Seen};
use std::alloc::Global;
use tpcc_audit::{District, column_at, part_at};
use tpcc_load::tables::{CUSTOMERS, NAME_COUNTS, ORDERS};

/// The code of a run whose customer has a name that nobody has.
const NOBODY: u16 = 2;

/// What is told of an order.
#[derive(Clone, Copy, Debug)]
pub(crate) struct LastOrder {
    pub o: i64,
    /// The day of its entry.
    pub entry: i64,
    /// Who carries it; 0 where it is not delivered.
    pub carrier: i64,
}

/// The customer is `id` where `by` is 0, else the one in the middle of those whose name is `id`.
#[tactic(auto, unfolding(crate::specs::Routines::order_status))]
pub(crate) fn order_status(
    alloc: Global,
    at: District,
    by: &i64,
    id: &i64,
    seen: &[Seen],
) -> Result<Action, Memory>
    ensures { IfOk result (λ action. action ≡ follow (routines.order_status at by.now id.now) seen.now) }
{
    if *by == 0 {
        let action = status_of(alloc, at, id, seen)?;
        return Ok(action);
    }
    match seen {
        [] => Ok(Action::Read(key_in(alloc, NAME_COUNTS, at, *id)?)),
        [Seen::One(row), rest @ ..] => {
            let action = namesake(alloc, at, id, row, rest)?;
            Ok(action)
        }
        _ => Ok(absent()),
    }
}

/// The walk behind how many have the name.
fn namesake(
    alloc: Global,
    at: District,
    name: &i64,
    row: &Option<Row>,
    seen: &[Seen],
) -> Result<Action, Memory>
    ensures { IfOk result (λ action. action ≡ follow (routines.namesake at name.now row.now) seen.now) }
{
    let Some(row) = row else {
        return Ok(Action::Stop(End::Back(NOBODY)));
    };
    if !are_numbers(NAME_COLUMNS, row) {
        return Ok(absent());
    }
    match sum(column_at(row, NAME_COUNT), 1) {
        Some(more) => {
            let action = at_place(alloc, at, name, &more.div_euclid(2), seen)?;
            Ok(action)
        }
        None => Ok(overflow()),
    }
}

/// The walk with the place of the customer among those of the name.
#[tactic(auto, unfolding(crate::specs::Routines::at_place))]
fn at_place(
    alloc: Global,
    at: District,
    name: &i64,
    place: &i64,
    seen: &[Seen],
) -> Result<Action, Memory>
    ensures { IfOk result (λ action. action ≡ follow (routines.at_place at name.now place.now) seen.now) }
{
    match seen {
        [] => Ok(Action::Read(place_key(alloc, at, *name, *place)?)),
        [Seen::One(Some(row)), rest @ ..] => {
            if !are_numbers(NAME_COLUMNS, row) {
                return Ok(absent());
            }
            let action = status_of(alloc, at, &column_at(row, NAME_C_ID), rest)?;
            Ok(action)
        }
        _ => Ok(absent()),
    }
}

/// The walk with the customer's number.
#[tactic(auto, unfolding(crate::specs::Routines::status_of))]
fn status_of(alloc: Global, at: District, c: &i64, seen: &[Seen]) -> Result<Action, Memory>
    ensures { IfOk result (λ action. action ≡ follow (routines.status_of at c.now) seen.now) }
{
    match seen {
        [] => Ok(Action::Read(key_in(alloc, CUSTOMERS, at, *c)?)),
        [Seen::One(Some(row)), rest @ ..] => {
            if !is_customer(row) {
                return Ok(absent());
            }
            let action = orders_of(alloc, at, c, &column_at(row, C_BALANCE), rest)?;
            Ok(action)
        }
        _ => Ok(absent()),
    }
}

/// The walk behind the customer's row.
#[tactic(auto, unfolding(crate::specs::Routines::orders_of))]
fn orders_of(
    alloc: Global,
    at: District,
    c: &i64,
    balance: &i64,
    seen: &[Seen],
) -> Result<Action, Memory>
    ensures { IfOk result (λ action. action ≡ follow (routines.orders_of at c.now balance.now) seen.now) }
{
    match seen {
        [] => Ok(Action::Scan(district_prefix(ORDERS, at))),
        [Seen::Many(orders), rest @ ..] => {
            let orders = orders.as_slice();
            if !are_orders(at, orders) {
                return Ok(absent());
            }
            let action = with_last(alloc, at, c, balance, last_order(c, orders), rest)?;
            Ok(action)
        }
        _ => Ok(absent()),
    }
}

/// The last one of the customer's orders, if there is one.
fn last_order(c: &i64, orders: &[(Key, Row)]) -> Option<LastOrder>
    ensures { result ≡ routines.last_order c.now None orders.now }
{
    let mut found = None;
    for (key, row) in orders {
        if column_at(row, O_C_ID) == *c {
            found = Some(told_of(key, row));
        }
    }
    found
}

/// What is told of the order.
fn told_of(key: &Key, row: &Row) -> LastOrder
    ensures { result ≡ routines.told_of (key.now, row.now) }
{
    LastOrder {
        o: part_at(key, 2),
        entry: column_at(row, O_ENTRY_D),
        carrier: column_at(row, O_CARRIER_ID),
    }
}

/// The walk behind the customer's orders.
fn with_last(
    alloc: Global,
    at: District,
    c: &i64,
    balance: &i64,
    last: Option<LastOrder>,
    seen: &[Seen],
) -> Result<Action, Memory>
    ensures { IfOk result (λ action. action ≡ follow (routines.with_last at c.now balance.now last) seen.now) }
{
    match last {
        Some(order) => {
            let action = with_order(alloc, at, c, balance, order, seen)?;
            Ok(action)
        }
        None => Ok(given(values(alloc, &[*c, *balance, 0])?)),
    }
}

/// The walk with the customer's last order.
#[tactic(auto, unfolding(crate::specs::Routines::with_order))]
fn with_order(
    alloc: Global,
    at: District,
    c: &i64,
    balance: &i64,
    order: LastOrder,
    seen: &[Seen],
) -> Result<Action, Memory>
    ensures { IfOk result (λ action. action ≡ follow (routines.with_order at c.now balance.now order) seen.now) }
{
    match seen {
        [] => Ok(Action::Scan(line_prefix(at, order.o))),
        [Seen::Many(lines), ..] => {
            let lines = lines.as_slice();
            if !are_lines(at, order.o, lines) {
                return Ok(absent());
            }
            let action = told(alloc, c, balance, order, lines)?;
            Ok(action)
        }
        _ => Ok(absent()),
    }
}

/// The end that tells the order.
fn told(
    alloc: Global,
    c: &i64,
    balance: &i64,
    order: LastOrder,
    lines: &[(Key, Row)],
) -> Result<Action, Memory>
    ensures { IfOk result (λ action. action ≡ Stop (routines.given_end (routines.with_lines (value.Int c.now ∷ value.Int balance.now
        ∷ value.Int order.o ∷ value.Int order.entry ∷ value.Int order.carrier ∷ []) lines.now))) }
{
    let first = values(alloc, &[*c, *balance, order.o, order.entry, order.carrier])?;
    let all = with_lines(first, lines)?;
    Ok(given(all))
}

/// These values, and behind them those of each line.
fn with_lines(first: Vec<Value>, lines: &[(Key, Row)]) -> Result<Vec<Value>, Memory>
    ensures { IfOk result (λ all. all.items ≡ routines.with_lines first.items lines.now) }
{
    let mut all = first;
    for (_, line) in lines {
        push_line(&mut all, line)?;
    }
    Ok(all)
}

/// Pushes the values that are told of a line.
fn push_line(values: &mut Vec<Value>, line: &Row) -> Result<(), Memory>
    ensures { OnOk result (values.new.items ≡ values.old.items ++ routines.line_values line.now) }
{
    push_all(
        values,
        &[
            column_at(line, OL_I_ID),
            column_at(line, OL_SUPPLY_W_ID),
            column_at(line, OL_QUANTITY),
            column_at(line, OL_AMOUNT),
            column_at(line, OL_DELIVERY_D),
        ],
    )
}
