// Batches of all five requests.
ghost use Rattle.std.specs.Prelude.{◌≡◌, ◌≤◌, true, IfOk, OnOk, All};
ghost use Rattle.aria_base.specs.declared.limits.TheConstants.{GREATEST_NUMBER};
ghost use Rattle.cat_builtin.specs.Tpcc.{tpcc};
ghost use Rattle.load_gen.specs.Draws.{times, IsPast};
ghost use Rattle.range_suits.specs.Suits.{is_taken};
ghost use Rattle.tpcc_load.specs.Heads.{IsWithin};
ghost use Rattle.tpcc_routines.specs.Mixes as mixes;
ghost use Rattle.tpcc_routines.specs.Routines.{is_more};

use crate::calls::{DELIVERY, ORDER_STATUS, STOCK_LEVEL};
use aria_base::{Draws, Items, Memory};
use load_gen::random;
use range_rules::{RoutineCall, Work};
use std::alloc::Global;
use tpcc_load::{DISTRICTS_EACH, Tpcc, new_order, payer, payment};

/// The works of the batch of this number, so many, which come next in the words. Behind them `draws` stands at the
/// word that they did not use; where there was no memory, it stands some words further than before.
pub fn more_batch(
    alloc: Global,
    settings: &Tpcc,
    draws: &mut Draws,
    number: u64,
    size: u32,
) -> Result<Vec<Work>, Memory>
    requires within { IsWithin settings.now }
    requires number { number ≤ GREATEST_NUMBER }
    ensures works { IfOk result (λ works. works.items ≡ (times size (mixes.request settings.now number) draws.old).0) }
    ensures past { OnOk result (draws.new ≡ (times size (mixes.request settings.now number) draws.old).1) }
    ensures taken { IfOk result (λ works. All (λ work. is_taken tpcc is_more work ≡ true) works.items) }
    ensures further { IsPast draws.old draws.new }
{
    let mut works = Vec::with_capacity(alloc, size as usize)?;
    for _ in 0..size {
        works.push(request(alloc, settings, draws, number)?)?;
    }
    Ok(works)
}

/// The next request.
fn request(alloc: Global, settings: &Tpcc, draws: &mut Draws, number: u64) -> Result<Work, Memory>
    requires within { IsWithin settings.now }
    requires number { number ≤ GREATEST_NUMBER }
    ensures work { IfOk result (λ work. work ≡ (mixes.request settings.now number draws.old).0) }
    ensures past { OnOk result (draws.new ≡ (mixes.request settings.now number draws.old).1) }
    ensures further { IsPast draws.old draws.new }
{
    let kind = random(draws, 0, 99);
    let work = work_of(alloc, settings, draws, number, kind)?;
    Ok(work)
}

/// The next request, of the kind that was drawn.
fn work_of(
    alloc: Global,
    settings: &Tpcc,
    draws: &mut Draws,
    number: u64,
    kind: u32,
) -> Result<Work, Memory>
    requires within { IsWithin settings.now }
    requires number { number ≤ GREATEST_NUMBER }
    ensures work { IfOk result (λ work. work ≡ (mixes.work_of settings.now number kind draws.old).0) }
    ensures past { OnOk result (draws.new ≡ (mixes.work_of settings.now number kind draws.old).1) }
    ensures further { IsPast draws.old draws.new }
{
    if kind < 45 {
        let work = proc_order(alloc, settings, draws, number)?;
        return Ok(work);
    }
    if kind < 88 {
        let work = proc_payment(alloc, settings, draws, number)?;
        return Ok(work);
    }
    if kind < 92 {
        let work = order_status(alloc, settings, draws)?;
        return Ok(work);
    }
    if kind < 96 {
        let work = delivery(alloc, settings, draws, number)?;
        return Ok(work);
    }
    let work = stock_level(alloc, settings, draws)?;
    Ok(work)
}

/// The next new order.
#[tactic(auto, unfolding(crate::specs::Mixes::proc_order))]
fn proc_order(
    alloc: Global,
    settings: &Tpcc,
    draws: &mut Draws,
    number: u64,
) -> Result<Work, Memory>
    requires within { IsWithin settings.now }
    requires number { number ≤ GREATEST_NUMBER }
    ensures work { IfOk result (λ work. work ≡ (mixes.proc_order settings.now number draws.old).0) }
    ensures past { OnOk result (draws.new ≡ (mixes.proc_order settings.now number draws.old).1) }
    ensures further { IsPast draws.old draws.new }
{
    let call = new_order(alloc, settings, draws, number)?;
    Ok(Work::Proc(call))
}

/// The next payment. Its words are taken also where there is no memory.
#[tactic(auto, unfolding(crate::specs::Mixes::proc_payment))]
fn proc_payment(
    alloc: Global,
    settings: &Tpcc,
    draws: &mut Draws,
    number: u64,
) -> Result<Work, Memory>
    requires within { IsWithin settings.now }
    requires number { number ≤ GREATEST_NUMBER }
    ensures work { IfOk result (λ work. work ≡ (mixes.proc_payment settings.now number draws.old).0) }
    ensures past { draws.new ≡ (mixes.proc_payment settings.now number draws.old).1 }
{
    let call = payment(alloc, settings, draws, number)?;
    Ok(Work::Proc(call))
}

/// The next question for a customer's last order.
#[tactic(auto, unfolding(crate::specs::Mixes::order_status))]
fn order_status(alloc: Global, settings: &Tpcc, draws: &mut Draws) -> Result<Work, Memory>
    requires { IsWithin settings.now }
    ensures work { IfOk result (λ work. work ≡ (mixes.order_status settings.now draws.old).0) }
    ensures past { draws.new ≡ (mixes.order_status settings.now draws.old).1 }
{
    let w = random(draws, 1, settings.warehouses);
    let d = random(draws, 1, DISTRICTS_EACH);
    let (by, id) = payer(settings, draws);
    routine(
        alloc,
        ORDER_STATUS,
        &[i64::from(w), i64::from(d), i64::from(by), i64::from(id)],
    )
}

/// The next delivery, in a batch of this number.
#[tactic(auto, unfolding(crate::specs::Mixes::delivery))]
fn delivery(alloc: Global, settings: &Tpcc, draws: &mut Draws, number: u64) -> Result<Work, Memory>
    requires within { IsWithin settings.now }
    requires number { number ≤ GREATEST_NUMBER }
    ensures work { IfOk result (λ work. work ≡ (mixes.delivery settings.now number draws.old).0) }
    ensures past { draws.new ≡ (mixes.delivery settings.now number draws.old).1 }
{
    let w = random(draws, 1, settings.warehouses);
    let carrier = random(draws, 1, 10);
    routine(
        alloc,
        DELIVERY,
        &[i64::from(w), i64::from(carrier), number as i64],
    )
}

/// The next question for a district's stock.
#[tactic(auto, unfolding(crate::specs::Mixes::stock_level))]
fn stock_level(alloc: Global, settings: &Tpcc, draws: &mut Draws) -> Result<Work, Memory>
    requires { IsWithin settings.now }
    ensures work { IfOk result (λ work. work ≡ (mixes.stock_level settings.now draws.old).0) }
    ensures past { draws.new ≡ (mixes.stock_level settings.now draws.old).1 }
{
    let w = random(draws, 1, settings.warehouses);
    let d = random(draws, 1, DISTRICTS_EACH);
    let t = random(draws, 10, 20);
    routine(
        alloc,
        STOCK_LEVEL,
        &[i64::from(w), i64::from(d), i64::from(t)],
    )
}

/// A call of a routine with these numbers.
fn routine(alloc: Global, kind: u16, numbers: &[i64]) -> Result<Work, Memory>
    ensures { IfOk result (λ work. work ≡ mixes.routine kind numbers.now) }
{
    let mut nums = Vec::with_capacity(alloc, numbers.len())?;
    for number in numbers {
        nums.push(*number)?;
    }
    Ok(Work::Routine(RoutineCall {
        kind,
        nums: Items::from_vec(nums),
    }))
}
