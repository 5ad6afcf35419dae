// A batch in the log of the store, before it is run.
ghost use Rattle.std.specs.Prelude.{false, ◌≡◌, ◌≤◌, ◌<◌, ◌+◌, None, true, List, length, IfErr, IfSome, IsOk, OnOk};
ghost use Rattle.std.specs.List.{All};
ghost use Rattle.aria_base.specs.Faults.{Rose};
ghost use Rattle.aria_base.specs.declared.limits.TheConstants.{GREATEST_NUMBER, MOST_REQUESTS};
ghost use Rattle.batch_core.specs.Steps.{step};
ghost use Rattle.batch_engine.specs.Engines.{state_in, handed_by};
ghost use Rattle.disk_model.specs.Histories.{LeavesAll};
ghost use Rattle.image_text.specs.Payloads.{Batch};
ghost use Rattle.proc_lang.specs.Catalogs.{takes, run_of};
ghost use Rattle.slot_images.specs.Images.{Checkpoint};
ghost use Rattle.aria_store.specs.Stands.{added};
ghost use Rattle.serving.specs.Deliveries.{IsUntold, IsFor, IsOfWriting};
ghost use Rattle.serving.specs.Lives.{MayServe, next_state, plan_of};
ghost use Rattle.serving.specs.Stored.{MayLog, Holds, ReopensOnWay, HasTaken, logged, stored_state};

use crate::batches::Delivery;
use crate::lives::Live;
use aria_base::Call;
use aria_store::StoreRefused;
use disk_model::Disk;
use std::alloc::Global;

/// Adds the next batch to the log, where there is a store.
pub(crate) fn log_batch<D: Disk>(
    live: &mut Live,
    alloc: Global,
    calls: &[Call],
    disk: &mut D,
) -> Result<(), Delivery>
    requires may { MayServe live.old calls.now }
    requires logs { MayLog live.old calls.now (D.history disk.old) }
    ensures logged { OnOk result (live.new ≡ logged live.old calls.now) }
    ensures taken { OnOk result (IfSome live.new.store (HasTaken (D.history disk.new) (next_state live.old calls.now).batches)) }
    ensures holds { OnOk result ((c : Checkpoint) (later : List Batch)
        → Holds (D.history disk.old) (plan_of live.old) (stored_state live.old) live.old.store c later
        → Holds (D.history disk.new) (plan_of live.old) (next_state live.old calls.now) live.new.store c
        (added later live.old.config.rule live.old.config.fallback calls.now)) }
    ensures images { (c : Checkpoint) (later : List Batch) → Holds (D.history disk.old) (plan_of live.old) (stored_state live.old) live.old.store c later
        → LeavesAll (D.history disk.old) (D.history disk.new) (ReopensOnWay false c later (added later live.old.config.rule live.old.config.fallback calls.now)
        (plan_of live.old) (stored_state live.old) (next_state live.old calls.now)) }
    ensures untouched { live.old.store ≡ None → disk.new ≡ disk.old }
    ensures storeless { live.old.store ≡ None → IsOk result }
    ensures disk { OnOk result ((D.history disk.old).faults ≤ (D.history disk.new).faults) }
    ensures cause { IfErr result (λ why. IsUntold why ⊥ (Rose (D.history disk.old).faults (D.history disk.new).faults)) }
{
    let Some(store) = &mut live.store else {
        return Ok(());
    };
    let catalog = live.replicas.first().catalog();
    let (rule, fallback) = (live.config.rule, live.config.fallback);
    match store.append(alloc, disk, catalog, calls, rule, fallback) {
        Ok(()) => Ok(()),
        Err(refused) => Err(why_untold(refused)),
    }
}

/// What a store that is not closed answers where it could not write.
pub(crate) fn why_untold(refused: StoreRefused) -> Delivery
    requires { IsOfWriting refused }
    ensures { IsFor refused result }
{
    match refused {
        StoreRefused::Memory => Delivery::NoMemory,
        StoreRefused::DiskFault => Delivery::NoDisk,
        StoreRefused::NoStore
        | StoreRefused::Exists
        | StoreRefused::Damaged { .. }
        | StoreRefused::Closed { .. } => unreachable!(),
    }
}
