// A source, a sink and a disk that fail at each of their calls in turn.
use crate::outcomes::{Case, holds, is_count, is_outcome, new_store, outcome, smooth};
use crate::stores::{ADD, RUN, counted, goes_on};
use aria_base::Free;
use disk_model::MemDisk;
use std::process::Abort;
use std::thread::Threads;

/// A batch, without a checkpoint and with one behind it.
const RUNS: [&str; 2] = ["run", "run --checkpoint 1"];

/// How many bytes `at 0` has with its line feed, and how many that and the answer have.
const AT: usize = 5;

const ANSWERED: usize = 35;

/// Asserts the status of a run of the batch that is cut off, and that it wrote so many bytes of what a whole
/// one writes.
fn is_cut_off<R: AllocGlobal + Threads + Abort + Sync>(
    rt: &R,
    case: &Case<'_>,
    disk: &mut MemDisk,
    status: u8,
    written: usize,
) {
    let found = outcome(rt, case, disk, &Free);
    let wanted = RUN.3.as_bytes().get(..written).unwrap_or_default();
    is_outcome(rt, case, &found, status, wanted);
}

/// Asserts how a run of the batch ends on a new store where its source or its sink fails, and whether the
/// batch is in the store then.
fn is_left_with<R: AllocGlobal + Threads + Abort + Sync>(
    rt: &R,
    case: &Case<'_>,
    status: u8,
    written: usize,
    batch: bool,
) {
    let mut disk = new_store(rt, 0);
    is_cut_off(rt, case, &mut disk, status, written);
    let has = goes_on(rt, &mut disk);
    is_count(rt, "batches in the store", u64::from(has), u64::from(batch));
}

/// The batch has 17 bytes, so that the third piece of seven bytes ends it, and the fourth call finds the end.
#[test]
fn a_source_that_fails_is_named(rt: HostRuntime) {
    for words in RUNS {
        for (failing_take, written) in [(1, AT), (2, AT), (3, AT), (4, ANSWERED)] {
            let case = Case {
                failing_take,
                ..smooth(words, ADD)
            };
            is_left_with(&rt, &case, 3, written, failing_take == 4);
        }
    }
}

/// The three calls of the sink: `at 0`, the answer, the listing. A batch whose answer was cut off is in the store.
#[test]
fn a_sink_that_fails_is_named(rt: HostRuntime) {
    for words in RUNS {
        for (failing_give, written) in [(1, 0), (2, AT), (3, ANSWERED)] {
            let case = Case {
                failing_give,
                ..smooth(words, ADD)
            };
            is_left_with(&rt, &case, 4, written, failing_give > 1);
        }
    }
}

/// How many bytes are written before this call of the disk fails: none before the store is opened, no answer
/// before its batch is in the log, and the answer before a checkpoint is laid. An append has four calls.
fn written_before(failing: u64, appended: u64) -> usize {
    if failing <= appended.saturating_sub(4) {
        return 0;
    }
    if failing <= appended {
        return AT;
    }
    ANSWERED
}

/// Asserts that the call of this number fails and ends the command, and that no answered batch is lost.
fn call_fails<R: AllocGlobal + Threads + Abort + Sync>(
    rt: &R,
    words: &str,
    failing: u64,
    appended: u64,
) {
    let mut disk = new_store(rt, failing);
    let written = written_before(failing, appended);
    is_cut_off(rt, &smooth(words, ADD), &mut disk, 5, written);
    is_count(rt, "calls on the disk", disk.calls(), failing);
    let has = goes_on(rt, &mut disk);
    holds(
        rt,
        "an answered batch is there",
        failing,
        has || failing <= appended,
    );
}

#[test]
fn a_disk_that_fails_is_named(rt: HostRuntime) {
    let (made, appended) = counted(&rt, "run");
    for words in RUNS {
        let (_, calls) = counted(&rt, words);
        for failing in made.saturating_add(1)..=calls {
            call_fails(&rt, words, failing, appended);
        }
    }
}
