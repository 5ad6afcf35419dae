// The requests of a workload.
ghost use Rattle.std.specs.Prelude.{◌≡◌, ◌≤◌, ◌<◌, pos, IfOk, OnOk, All, true};
ghost use Rattle.aria_base.specs.declared.limits.TheConstants.{GREATEST_NUMBER};
ghost use Rattle.proc_lang.specs.Catalogs.{takes};
ghost use Rattle.cat_builtin.specs.Ycsb.{ycsb};
ghost use Rattle.load_gen.specs.Draws.{times, IsPast};
ghost use Rattle.load_gen.specs.Ycsb as load;

use crate::chances::{percent, random};
use crate::settings::Ycsb;
use aria_base::{Arg, Args, Call, Draws, Memory, Tuple, Tuples};
use std::alloc::Global;

/// The calls of a batch of this size, which come next in the words. The batch's number, at most 2^62, has no
/// part in them. Behind them `draws` stands at the word that they did not use; where there was no memory, it
/// stands some words further than before.
pub fn batch(
    alloc: Global,
    settings: &Ycsb,
    draws: &mut Draws,
    number: u64,
    size: u32,
) -> Result<Vec<Call>, Memory>
    requires within { load.IsWithin settings.now }
    requires number { number ≤ GREATEST_NUMBER }
    ensures calls { IfOk result (λ calls. calls.items ≡ (times size (load.request settings.now) draws.old).0) }
    ensures past { OnOk result (draws.new ≡ (times size (load.request settings.now) draws.old).1) }
    ensures fit { IfOk result (λ calls. All (λ call. takes ycsb call ≡ true) calls.items) }
    ensures further { IsPast draws.old draws.new }
{
    let _ = number;
    let mut calls = Vec::with_capacity(alloc, size as usize)?;
    for _ in 0..size {
        calls.push(request(alloc, settings, draws)?)?;
    }
    Ok(calls)
}

/// The next request. Its words are taken also where there is no memory for its call.
fn request(alloc: Global, settings: &Ycsb, draws: &mut Draws) -> Result<Call, Memory>
    requires { load.IsWithin settings.now }
    ensures call { IfOk result (λ call. call ≡ (load.request settings.now draws.old).0) }
    ensures past { OnOk result (draws.new ≡ (load.request settings.now draws.old).1) }
    ensures fits { IfOk result (λ call. takes ycsb call ≡ true) }
    ensures further { IsPast draws.old draws.new }
{
    let value = random(draws, 1, 100);
    let accesses = accesses(alloc, settings, draws)?;
    let mut args = Vec::with_capacity(alloc, 2)?;
    args.push(Arg::List(accesses))?;
    args.push(Arg::Int(i64::from(value)))?;
    Ok(Call {
        proc: 0,
        args: Args::from_vec(args),
    })
}

/// The accesses of a request.
fn accesses(alloc: Global, settings: &Ycsb, draws: &mut Draws) -> Result<Tuples, Memory>
    requires { load.IsWithin settings.now }
    ensures accesses { IfOk result (λ accesses. accesses ≡ (times settings.now.ops (load.access settings.now) draws.old).0) }
    ensures past { OnOk result (draws.new ≡ (times settings.now.ops (load.access settings.now) draws.old).1) }
    ensures further { IsPast draws.old draws.new }
{
    let mut accesses = Vec::with_capacity(alloc, settings.ops as usize)?;
    for _ in 0..settings.ops {
        accesses.push(access(settings, draws))?;
    }
    Ok(Tuples::from_vec(accesses))
}

/// The next access: its key and what it does there.
fn access(settings: &Ycsb, draws: &mut Draws) -> Tuple
    requires { load.IsWithin settings.now }
    ensures access { result ≡ (load.access settings.now draws.old).0 }
    ensures past { draws.new ≡ (load.access settings.now draws.old).1 }
{
    let key = place(settings, draws);
    let share = random(draws, 0, 99);
    let op = op_of(settings, share);
    Tuple::from_slice(&[i64::from(key), op])
}

/// The key of the next access.
fn place(settings: &Ycsb, draws: &mut Draws) -> u32
    requires { load.IsWithin settings.now }
    ensures { (result, draws.new) ≡ load.place settings.now draws.old }
{
    if percent(draws, settings.hot) {
        return random(draws, 0, (settings.keys / 100).max(1) - 1);
    }
    random(draws, 0, settings.keys - 1)
}

/// What an access with this share does.
fn op_of(settings: &Ycsb, share: u32) -> i64
    requires { load.IsWithin settings.now }
    ensures { result ≡ pos (load.op_of settings.now share) }
{
    if share < settings.reads {
        return 0;
    }
    if share < settings.reads + settings.updates {
        return 1;
    }
    2
}
