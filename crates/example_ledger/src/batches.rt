// A batch on the ledger, in two ways: its answer printed, or as a value.
ghost use Rattle.std.specs.Prelude.{◌≡◌, true, IfOk, IfSome, OnOk};
ghost use Rattle.proc_lang.specs.Catalogs.{Plan};
ghost use Rattle.serving.specs.Lives.{IsRunnable, MayServe, next_answer, next_state, plan_of};
ghost use Rattle.serving.specs.Stored.{HasLines, HasTaken, IsLogging, MayLog, logged};

use crate::Fault;
use aria_base::{Call, Free, GREATEST_NUMBER, LONGEST_LINE, MOST_REQUESTS, Memory, Sink};
use batch_core::Answer;
use disk_model::Disk;
use image_text::read_calls;
use proc_lang::Catalog;
use script_text::append_call;
use serving::{Live, renew_where_stale, serve_batch};
use std::alloc::Global;
use std::thread::Threads;

/// Runs the calls of these lines as the next batch, and prints its answer once it is in the store.
pub fn serve<K: Sink, D: Disk, R: Threads + Sync>(
    rt: &R,
    alloc: Global,
    ledger: Live,
    lines: &str,
    out: &mut K,
    disk: &mut D,
) -> Result<Live, Fault>
    requires runnable { IsRunnable ledger }
    requires logging { IsLogging (D.history disk.old) ledger }
    ensures runnable { IfOk result IsRunnable }
    ensures logging { IfOk result (IsLogging (D.history disk.new)) }
{
    let calls = calls_for(alloc, &ledger, lines)?;
    let (next, why) = serve_batch(rt, alloc, ledger, calls, out, disk, &Free);
    next.ok_or(Fault::NotDelivered(why))
}

/// Runs the calls of these lines as the next batch, once it is in the store, and gives its answer as a value. A
/// checkpoint is laid only where the log is too long.
pub fn answer<D: Disk, R: Threads + Sync>(
    rt: &R,
    alloc: Global,
    ledger: Live,
    lines: &str,
    disk: &mut D,
) -> Result<(Live, Answer), Fault>
    requires runnable { IsRunnable ledger }
    requires logging { IsLogging (D.history disk.old) ledger }
    ensures runnable { IfOk result (λ r. IsRunnable r.0) }
    ensures logging { IfOk result (λ r. IsLogging (D.history disk.new) r.0) }
{
    let calls = calls_for(alloc, &ledger, lines)?;
    let mut ledger = ledger;
    append(&mut ledger, alloc, &calls, disk)?;
    let (mut next, answer) = ledger.run(rt, alloc, calls, &Free)?;
    renew_where_stale(&mut next, alloc, disk).map_err(Fault::NotDelivered)?;
    Ok((next, answer))
}

/// Adds the next batch to the log of the store.
fn append<D: Disk>(
    ledger: &mut Live,
    alloc: Global,
    calls: &[Call],
    disk: &mut D,
) -> Result<(), Fault>
    requires may { MayServe ledger.old calls.now }
    requires logs { MayLog ledger.old calls.now (D.history disk.old) }
    ensures logged { OnOk result (ledger.new ≡ logged ledger.old calls.now) }
    ensures taken { OnOk result (IfSome ledger.new.store (HasTaken (D.history disk.new) (next_state ledger.old calls.now).batches)) }
{
    let Some(store) = &mut ledger.store else {
        return Ok(());
    };
    let catalog = ledger.replicas.first().catalog();
    let (rule, fallback) = (ledger.config.rule, ledger.config.fallback);
    store.append(alloc, disk, catalog, calls, rule, fallback)?;
    Ok(())
}

/// The calls of these lines, where they may be the next batch.
fn calls_for(alloc: Global, ledger: &Live, lines: &str) -> Result<Vec<Call>, Fault>
    requires { IsRunnable ledger.now }
    ensures may { IfOk result (λ calls. MayServe ledger.now calls.items) }
    ensures lines { IfOk result (λ calls. HasLines (plan_of ledger.now) calls.items) }
{
    let catalog = ledger.replicas.first().catalog();
    let calls = read_calls(alloc, catalog, lines.as_bytes())?.ok_or(Fault::NoCalls)?;
    if !have_lines(alloc, catalog, &calls)? {
        return Err(Fault::TooLong);
    }
    if MOST_REQUESTS - ledger.waiting() < calls.len() {
        return Err(Fault::NoRoom);
    }
    let left = GREATEST_NUMBER - ledger.requests();
    if left < calls.len() as u64 || GREATEST_NUMBER == ledger.batches() {
        return Err(Fault::NoNumbers);
    }
    Ok(calls)
}

/// Whether the line of each call is no longer than a line may be.
fn have_lines(alloc: Global, catalog: &Catalog, calls: &[Call]) -> Result<bool, Memory>
    ensures { IfOk result (λ fit. fit ≡ true → HasLines catalog.now calls.now) }
{
    let mut line = Vec::new(alloc);
    for call in calls {
        line.clear();
        append_call(&mut line, catalog.procs(), call)?;
        if LONGEST_LINE < line.len() {
            return Ok(false);
        }
    }
    Ok(true)
}
