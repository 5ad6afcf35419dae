// Replays whose sink and disk fail at each of their calls in turn.
use crate::outcomes::{Case, case_ends, is_count, new_store, reopened, smooth};
use disk_model::MemDisk;
use std::process::Abort;
use std::thread::Threads;

/// Two batches, and what a run of them prints.
const TWO: &str = "tx add 1 5\nend 1\ntx add 2 5\nend 2\n";

const RAN: &str =
    "at 0\nbatch 1\n1 ok 15\norder 1\nend 1\nbatch 2\n2 ok 25\norder 2\nend 2\nstate 2\nrow acct 1 = 15\nrow acct 2 = 25\nrow acct 3 = 30\nend state\n";

/// What stands before the end of each answer, and of the listing.
const OUTPUT: [&str; 4] = [
    "",
    "batch 1\n1 ok 15\norder 1\nend 1\n",
    "batch 1\n1 ok 15\norder 1\nend 1\nbatch 2\n2 ok 25\norder 2\nend 2\n",
    "batch 1\n1 ok 15\norder 1\nend 1\nbatch 2\n2 ok 25\norder 2\nend 2\nstate 2\nrow acct 1 = 15\nrow acct 2 = 25\nrow acct 3 = 30\nend state\n",
];

/// A store whose log has both batches.
fn two_batches<R: AllocGlobal + Threads + Abort + Sync>(rt: &R) -> MemDisk {
    let mut disk = new_store(rt, 0);
    case_ends(rt, &smooth("run", TWO), &mut disk, 0, RAN);
    disk
}

/// The fourth call of the sink is never made.
#[test]
fn a_sink_that_fails_is_named(rt: HostRuntime) {
    let store = two_batches(&rt);
    let mut failing_give = 0_u64;
    for output in OUTPUT {
        failing_give = failing_give.wrapping_add(1);
        let case = Case {
            failing_give,
            ..smooth("replay", "")
        };
        let status = if failing_give == 4 { 0 } else { 4 };
        let mut disk = reopened(&rt, rt.alloc(), &store, 0);
        case_ends(&rt, &case, &mut disk, status, output);
    }
}

/// Each call on the disk fails in turn, before anything is printed.
#[test]
fn a_disk_that_fails_is_named(rt: HostRuntime) {
    let store = two_batches(&rt);
    let case = smooth("replay", "");
    let mut disk = reopened(&rt, rt.alloc(), &store, 0);
    case_ends(&rt, &case, &mut disk, 0, OUTPUT[3]);
    for failing in 1..=disk.calls() {
        let mut disk = reopened(&rt, rt.alloc(), &store, failing);
        case_ends(&rt, &case, &mut disk, 5, "");
        is_count(&rt, "calls on the disk", disk.calls(), failing);
    }
}
