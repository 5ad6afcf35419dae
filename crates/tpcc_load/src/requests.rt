// Batches of requests, and new orders.
ghost use Rattle.std.specs.Prelude.{◌&&◌, ◌==◌, ◌≡◌, ◌≤◌, ◌<◌, [], ◌∷◌, pos, IfOk, OnOk, All, true};
ghost use Rattle.aria_base.specs.declared.limits.TheConstants.{GREATEST_NUMBER};
ghost use Rattle.proc_lang.specs.Catalogs.{takes};
ghost use Rattle.cat_builtin.specs.Tpcc.{tpcc};
ghost use Rattle.load_gen.specs.Draws.{times, IsPast};
ghost use Rattle.tpcc_load.specs.Draws.{over};
ghost use Rattle.tpcc_load.specs.Heads.{IsWithin};
ghost use Rattle.tpcc_load.specs.Requests as requests;

use crate::chances::{drawn_customer, drawn_item, other_warehouse};
use crate::districts::DISTRICTS_EACH;
use crate::payments::{numbers, payment};
use crate::settings::Tpcc;
use aria_base::{Arg, Args, Call, Draws, Memory, Tuple, Tuples};
use load_gen::random;
use std::alloc::Global;

/// The calls of the batch of this number, so many, which come next in the words. Behind them `draws` stands
/// at the word that they did not use; where there was no memory, it stands some words further than before.
pub fn batch(
    alloc: Global,
    settings: &Tpcc,
    draws: &mut Draws,
    number: u64,
    size: u32,
) -> Result<Vec<Call>, Memory>
    requires within { IsWithin settings.now }
    requires number { number ≤ GREATEST_NUMBER }
    ensures calls { IfOk result (λ calls. calls.items ≡ (times size (requests.request settings.now number) draws.old).0) }
    ensures past { OnOk result (draws.new ≡ (times size (requests.request settings.now number) draws.old).1) }
    ensures fit { IfOk result (λ calls. All (λ call. takes tpcc call ≡ true) calls.items) }
    ensures further { IsPast draws.old draws.new }
{
    let mut calls = Vec::with_capacity(alloc, size as usize)?;
    for _ in 0..size {
        calls.push(request(alloc, settings, draws, number)?)?;
    }
    Ok(calls)
}

/// The next request.
fn request(alloc: Global, settings: &Tpcc, draws: &mut Draws, number: u64) -> Result<Call, Memory>
    requires within { IsWithin settings.now }
    requires number { number ≤ GREATEST_NUMBER }
    ensures call { IfOk result (λ call. call ≡ (requests.request settings.now number draws.old).0) }
    ensures past { OnOk result (draws.new ≡ (requests.request settings.now number draws.old).1) }
    ensures further { IsPast draws.old draws.new }
{
    if random(draws, 0, 87) < 45 {
        let call = new_order(alloc, settings, draws, number)?;
        return Ok(call);
    }
    let call = payment(alloc, settings, draws, number)?;
    Ok(call)
}

/// What is drawn of a new order before its lines.
#[derive(Clone, Copy, Debug)]
struct Start {
    w: u32,
    d: u32,
    c: u32,
    count: u32,
    fails: bool,
}

/// The next new order, in a batch of this number. Where there was no memory, some of its words are taken.
pub fn new_order(
    alloc: Global,
    settings: &Tpcc,
    draws: &mut Draws,
    number: u64,
) -> Result<Call, Memory>
    requires within { IsWithin settings.now }
    requires number { number ≤ GREATEST_NUMBER }
    ensures call { IfOk result (λ call. call ≡ (requests.new_order settings.now number draws.old).0) }
    ensures past { OnOk result (draws.new ≡ (requests.new_order settings.now number draws.old).1) }
    ensures further { IsPast draws.old draws.new }
{
    let start = order_start(settings, draws);
    let lines = lines(alloc, settings, draws, start)?;
    let call = order_call(alloc, number, start, lines)?;
    Ok(call)
}

/// Who orders where, how many lines, and whether the order is to fail.
fn order_start(settings: &Tpcc, draws: &mut Draws) -> Start
    requires { IsWithin settings.now }
    ensures drawn { (result, draws.new) ≡ requests.order_start settings.now draws.old }
    ensures count { result.count ≤ 15 }
{
    let w = random(draws, 1, settings.warehouses);
    let d = random(draws, 1, DISTRICTS_EACH);
    let c = drawn_customer(draws, settings.customers);
    let count = random(draws, 5, 15);
    let fails = random(draws, 1, 100) == 1;
    Start {
        w,
        d,
        c,
        count,
        fails,
    }
}

/// The call of a new order with these lines.
fn order_call(alloc: Global, number: u64, start: Start, lines: Tuples) -> Result<Call, Memory>
    requires { number ≤ GREATEST_NUMBER }
    ensures { IfOk result (λ call. call ≡ requests.order_call number start lines) }
{
    let mut args = numbers(alloc, &[start.w, start.d, start.c], number)?;
    args.push(Arg::List(lines))?;
    Ok(Call {
        proc: 0,
        args: Args::from_vec(args),
    })
}

/// The lines of an order, of which the last one may fail.
fn lines(alloc: Global, settings: &Tpcc, draws: &mut Draws, start: Start) -> Result<Tuples, Memory>
    requires within { IsWithin settings.now }
    requires count { start.count ≤ 15 }
    ensures lines { IfOk result (λ lines. lines ≡ (requests.order_lines settings.now start draws.old).0) }
    ensures past { OnOk result (draws.new ≡ (requests.order_lines settings.now start draws.old).1) }
    ensures further { IsPast draws.old draws.new }
{
    let mut lines = Vec::with_capacity(alloc, start.count as usize)?;
    for line in 0..start.count {
        let fails = fails_at(start, line + 1);
        lines.push(one_line(settings, draws, start.w, fails))?;
    }
    Ok(Tuples::from_vec(lines))
}

/// Whether the line of this number is to fail.
fn fails_at(start: Start, number: u32) -> bool
    ensures { result ≡ (start.fails && (number == start.count)) }
{
    start.fails && number == start.count
}

/// A line: its item, which there is not where it fails, the supplying warehouse, and the quantity.
fn one_line(settings: &Tpcc, draws: &mut Draws, w: u32, fails: bool) -> Tuple
    requires { IsWithin settings.now }
    ensures line { (requests.line settings.now w fails draws.old).0 ≡ result ∷ [] }
    ensures past { draws.new ≡ (requests.line settings.now w fails draws.old).1 }
{
    let item = item(settings, draws, fails);
    let from = supply(settings, draws, w);
    let quantity = random(draws, 1, 10);
    Tuple::from_slice(&[i64::from(item), i64::from(from), i64::from(quantity)])
}

/// The item of a line.
fn item(settings: &Tpcc, draws: &mut Draws, fails: bool) -> u32
    requires { IsWithin settings.now }
    ensures { (result, draws.new) ≡ requests.item settings.now fails draws.old }
{
    let drawn = drawn_item(draws, settings.items);
    if fails { settings.items + 1 } else { drawn }
}

/// The warehouse that supplies a line.
fn supply(settings: &Tpcc, draws: &mut Draws, w: u32) -> u32
    requires { IsWithin settings.now }
    ensures { (result, draws.new) ≡ requests.supply settings.now w draws.old }
{
    if settings.warehouses <= 1 || random(draws, 1, 100) != 1 {
        return w;
    }
    other_warehouse(draws, settings.warehouses, w)
}
