// Summaries of order entry in contention.
use crate::outcomes::{Case, empty_disk, holds, is_count, outcome, smooth};
use aria_base::Free;
use aria_top::DONE;
use std::process::Abort;
use std::thread::Threads;

/// Order entry in contention, by one worker and by four: in one warehouse, where only the four have a second
/// replica, and in two warehouses, each on two replicas.
const CONTENDED: [(&str, &str); 2] = [
    (
        "bench --kind tpcc --batches 4 --size 20 --fallback 0 --drain",
        "bench --kind tpcc --batches 4 --size 20 --fallback 0 --drain --workers 4 --replicas 2",
    ),
    (
        "bench --kind tpcc --warehouses 2 --batches 4 --size 20 --fallback 0 --drain --replicas 2",
        "bench --kind tpcc --warehouses 2 --batches 4 --size 20 --fallback 0 --drain --replicas 2 --workers 4",
    ),
];

/// What the bench prints. It reads nothing.
fn summary<R: AllocGlobal + Threads + Abort + Sync>(rt: &R, words: &str) -> Vec<u8> {
    let case = Case {
        failing_take: 1,
        ..smooth(words, "")
    };
    let mut disk = empty_disk(rt, rt.alloc(), 0);
    let (status, text) = outcome(rt, &case, &mut disk, &Free);
    is_count(rt, words, u64::from(status), u64::from(DONE));
    text
}

/// Whether each of four times twenty requests has ended without a trap, and the audit holds.
fn is_whole(text: &str) -> bool {
    text.starts_with("bench tpcc\n")
        && text.contains("\nrequests 80\n")
        && text.contains("\ntrap 0\n")
        && text.contains("\nleft 0\n")
        && text.ends_with("\naudit holds\n")
}

/// Asserts that both lines print one summary, which is whole.
fn is_one_summary<R: AllocGlobal + Threads + Abort + Sync>(rt: &R, alone: &str, shared: &str) {
    let text = summary(rt, alone);
    let other = summary(rt, shared);
    holds(rt, "workers and replicas have no say", 0, text == other);
    let whole = is_whole(str::from_utf8(&text).unwrap_or("?"));
    holds(rt, "the summary is whole", 0, whole);
}

#[test]
fn order_entry_holds_in_contention(rt: HostRuntime) {
    for (alone, shared) in CONTENDED {
        is_one_summary(&rt, alone, shared);
    }
}
