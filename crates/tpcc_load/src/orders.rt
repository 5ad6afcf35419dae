// The orders that a district begins with: one of each customer, and the last ones open.
ghost use Rattle.std.specs.Prelude.{◌≡◌, ◌≤◌, ◌<◌, ◌^◌, length, nat_le, All, OnOk};
ghost use Rattle.tpcc_load.specs.Draws.{over};
ghost use Rattle.tpcc_load.specs.Rows.{laid, laid_drawn};
ghost use Rattle.tpcc_load.specs.Heads as heads;

use crate::rows::put;
use crate::settings::Tpcc;
use crate::tables::{OPEN_ORDERS, ORDER_LINES, ORDERS};
use aria_base::{Draws, Memory};
use load_gen::random;
use std::alloc::Global;
use tbl_rows::Tables;

/// A district, by its warehouse's number and its own.
#[derive(Clone, Copy, Debug)]
pub(crate) struct District {
    pub w: u32,
    pub d: u32,
}

/// The greatest number of an order that is delivered.
fn delivered(settings: &Tpcc) -> u32
    requires { heads.IsWithin settings.now }
    ensures { result ≡ heads.delivered settings.now }
{
    settings.customers - settings.customers * 3 / 10
}

/// Lays the rows of all orders of a district, each by the customer who stands at its place.
pub(crate) fn orders(
    alloc: Global,
    settings: &Tpcc,
    draws: &mut Draws,
    tables: &mut Tables,
    at: District,
    places: &[u32],
) -> Result<(), Memory>
    requires within { heads.IsWithin settings.now }
    requires places { length places.now ≡ settings.now.customers }
    ensures { OnOk result ((tables.new, draws.new)
        ≡ laid_drawn tables.old (over settings.now.customers (heads.order settings.now at.w at.d places.now) draws.old)) }
{
    for place in 0..settings.customers {
        let customer = places[place as usize];
        order(alloc, settings, draws, tables, at, place + 1, customer)?;
    }
    Ok(())
}

/// Lays the rows of an order of this customer.
fn order(
    alloc: Global,
    settings: &Tpcc,
    draws: &mut Draws,
    tables: &mut Tables,
    at: District,
    o: u32,
    customer: u32,
) -> Result<(), Memory>
    requires within { heads.IsWithin settings.now }
    ensures { OnOk result ((tables.new, draws.new)
        ≡ laid_drawn tables.old (heads.order_of settings.now at.w at.d customer o draws.old)) }
{
    let done = o <= delivered(settings);
    let carrier = carrier(draws, done);
    let count = random(draws, 5, 15);
    let columns = [
        i64::from(customer),
        1,
        i64::from(carrier),
        i64::from(count),
        1,
    ];
    put(alloc, tables, ORDERS, &[at.w, at.d, o], &columns)?;
    lines(alloc, settings, draws, tables, at, o, count)?;
    if done {
        return Ok(());
    }
    put(alloc, tables, OPEN_ORDERS, &[at.w, at.d, o], &[])?;
    Ok(())
}

/// Who carries an order; 0 is nobody.
fn carrier(draws: &mut Draws, done: bool) -> u32
    ensures { (result, draws.new) ≡ heads.carrier done draws.old }
{
    if done { random(draws, 1, 10) } else { 0 }
}

/// Lays the rows of so many lines of an order.
fn lines(
    alloc: Global,
    settings: &Tpcc,
    draws: &mut Draws,
    tables: &mut Tables,
    at: District,
    o: u32,
    count: u32,
) -> Result<(), Memory>
    requires within { heads.IsWithin settings.now }
    requires count { count < 2 ^ 31 }
    ensures { OnOk result ((tables.new, draws.new)
        ≡ laid_drawn tables.old (over count (heads.order_line settings.now at.w at.d o) draws.old)) }
{
    for line in 0..count {
        one_line(alloc, settings, draws, tables, at, o, line + 1)?;
    }
    Ok(())
}

/// Lays a line's row.
fn one_line(
    alloc: Global,
    settings: &Tpcc,
    draws: &mut Draws,
    tables: &mut Tables,
    at: District,
    o: u32,
    line: u32,
) -> Result<(), Memory>
    requires within { heads.IsWithin settings.now }
    ensures { OnOk result ((tables.new, draws.new)
        ≡ laid_drawn tables.old (heads.order_line settings.now at.w at.d o line draws.old)) }
{
    let done = o <= delivered(settings);
    let item = random(draws, 1, settings.items);
    let amount = amount(draws, done);
    let columns = [
        i64::from(item),
        i64::from(at.w),
        i64::from(done),
        5,
        i64::from(amount),
    ];
    put(alloc, tables, ORDER_LINES, &[at.w, at.d, o, line], &columns)
}

/// What a line costs, where it is not delivered.
fn amount(draws: &mut Draws, done: bool) -> u32
    ensures { (result, draws.new) ≡ heads.line_amount done draws.old }
{
    if done { 0 } else { random(draws, 1, 999_999) }
}
