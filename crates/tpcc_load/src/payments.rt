// Payments.
ghost use Rattle.std.specs.Prelude.{◌≡◌, ◌≤◌, ◌<◌, [], ◌∷◌, ◌++◌, map, pos, IfOk};
ghost use Rattle.aria_base.specs.declared.calls.Arg.TheVariants as arg;
ghost use Rattle.aria_base.specs.declared.limits.TheConstants.{GREATEST_NUMBER};
ghost use Rattle.tpcc_load.specs.Heads.{IsWithin};
ghost use Rattle.tpcc_load.specs.Requests as requests;

use crate::chances::{drawn_customer, drawn_name, other_warehouse};
use crate::districts::DISTRICTS_EACH;
use crate::names::names;
use crate::settings::Tpcc;
use aria_base::{Arg, Args, Call, Draws, Memory};
use load_gen::random;
use std::alloc::Global;

/// The next payment, in a batch of this number. Its words are taken also where there is no memory.
pub fn payment(
    alloc: Global,
    settings: &Tpcc,
    draws: &mut Draws,
    number: u64,
) -> Result<Call, Memory>
    requires within { IsWithin settings.now }
    requires number { number ≤ GREATEST_NUMBER }
    ensures call { IfOk result (λ call. call ≡ (requests.payment settings.now number draws.old).0) }
    ensures past { draws.new ≡ (requests.payment settings.now number draws.old).1 }
{
    let w = random(draws, 1, settings.warehouses);
    let d = random(draws, 1, DISTRICTS_EACH);
    let (cw, cd) = home(settings, draws, w, d);
    let (by, id) = payer(settings, draws);
    let amount = random(draws, 100, 500_000);
    let args = numbers(alloc, &[w, d, cw, cd, by, id, amount], number)?;
    Ok(Call {
        proc: 1,
        args: Args::from_vec(args),
    })
}

/// These numbers and the last one behind them, as arguments.
pub(crate) fn numbers(alloc: Global, first: &[u32], last: u64) -> Result<Vec<Arg>, Memory>
    requires { last ≤ GREATEST_NUMBER }
    ensures { IfOk result (λ args. args.items ≡ map (λ n. arg.Int (pos n)) first.now ++ arg.Int (pos last) ∷ []) }
{
    let mut args = Vec::with_capacity(alloc, first.len() + 2)?;
    for number in first {
        args.push(Arg::Int(i64::from(*number)))?;
    }
    args.push(Arg::Int(last as i64))?;
    Ok(args)
}

/// The warehouse and the district of the customer who pays.
fn home(settings: &Tpcc, draws: &mut Draws, w: u32, d: u32) -> (u32, u32)
    requires { IsWithin settings.now }
    ensures { (result, draws.new) ≡ requests.home settings.now w d draws.old }
{
    if settings.warehouses <= 1 || random(draws, 1, 100) > 15 {
        return (w, d);
    }
    let cw = other_warehouse(draws, settings.warehouses, w);
    (cw, random(draws, 1, DISTRICTS_EACH))
}

/// Whether the customer is told by name, 1, or by number, 0, and which name or number. No memory.
pub fn payer(settings: &Tpcc, draws: &mut Draws) -> (u32, u32)
    requires { IsWithin settings.now }
    ensures { (result, draws.new) ≡ requests.payer settings.now draws.old }
{
    if random(draws, 1, 100) <= 60 {
        return (1, drawn_name(draws, names(settings)));
    }
    (0, drawn_customer(draws, settings.customers))
}
