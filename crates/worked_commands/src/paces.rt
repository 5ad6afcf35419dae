// That workers are at work at once, and how often they are told of a step.
use crate::outcomes::{MEMORY, empty_disk, is_count, outcome, smooth};
use crate::scripts::RING;
use aria_base::Place;
use aria_top::DONE;
use std::alloc::Global;
use std::process::Abort;
use test_paces::{Gate, Steps};

/// Three thousand requests that each write an account of their own: so many that two workers mark them.
fn apart(rt: &impl Abort, alloc: Global) -> String {
    let mut script = String::from_str(alloc, "catalog bank\n").expect(rt, MEMORY);
    for account in 1..=3_000_u32 {
        write!(script, "tx set {account} 7\n").expect(rt, MEMORY);
    }
    script.push_str("end 1\n").expect(rt, MEMORY);
    script
}

#[test]
fn two_workers_mark_at_once(rt: HostRuntime) {
    let script = apart(&rt, rt.alloc());
    let case = smooth("once --workers 2", &script);
    let mut disk = empty_disk(&rt, rt.alloc(), 0);
    let gate = Gate::before(Place::Mark);
    let (status, _) = outcome(&rt, &case, &mut disk, &gate);
    let missed = u64::from(gate.was_missed());
    is_count(&rt, "status", u64::from(status), u64::from(DONE));
    is_count(&rt, "times that a worker waited in vain", missed, 0);
    is_count(&rt, "marks", gate.steps(), 3_000);
}

#[test]
fn each_replica_executes_for_itself(rt: HostRuntime) {
    let case = smooth("once --replicas 3", RING);
    let mut disk = empty_disk(&rt, rt.alloc(), 0);
    let steps = Steps::new();
    let (status, _) = outcome(&rt, &case, &mut disk, &steps);
    is_count(&rt, "status", u64::from(status), u64::from(DONE));
    is_count(&rt, "runs", steps.told(Place::Execute), 9);
}
