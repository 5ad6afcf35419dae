// The store of three accounts, one batch on it, and what a stop leaves of it.
use crate::outcomes::{MEMORY, Row, case_ends, ends, is_outcome, new_store, outcome, smooth};
use aria_base::Free;
use disk_model::MemDisk;
use std::alloc::Global;
use std::process::Abort;
use std::thread::Threads;

/// One batch.
pub const ADD: &str = "tx add 1 5\nend 1\n";

/// That batch is run on the store; the store with the batch is opened.
pub const RUN: Row = (
    "run",
    ADD,
    0,
    "at 0\nbatch 1\n1 ok 15\norder 1\nend 1\nstate 1\nrow acct 1 = 15\nrow acct 2 = 20\nrow acct 3 = 30\nend state\n",
);

pub const OPENED: Row = (
    "run",
    "",
    0,
    "at 1\nstate 1\nrow acct 1 = 15\nrow acct 2 = 20\nrow acct 3 = 30\nend state\n",
);

/// What the batch prints on a store that has it.
const KEPT: &str =
    "at 1\nbatch 1 kept\nstate 1\nrow acct 1 = 15\nrow acct 2 = 20\nrow acct 3 = 30\nend state\n";

/// What a stop leaves of the bytes that were not synced: all of them, or 0 or 1 in the place of each.
pub const IMAGES: [(bool, u8); 3] = [(true, 0), (false, 0), (false, 1)];

/// Asserts that the store has no batch or the one of `ADD`, and that the script over it ends as if nothing
/// had been in the way; and tells whether it has the batch.
pub fn goes_on<R: AllocGlobal + Threads + Abort + Sync>(rt: &R, disk: &mut MemDisk) -> bool {
    let case = smooth("run", ADD);
    let found = outcome(rt, &case, disk, &Free);
    let has = found.1.starts_with(b"at 1\n");
    let wanted = if has { KEPT } else { RUN.3 };
    is_outcome(rt, &case, &found, 0, wanted.as_bytes());
    ends(rt, &OPENED, disk);
    has
}

/// How many calls a disk has counted when the store is made, and when these arguments have run the batch.
pub fn counted<R: AllocGlobal + Threads + Abort + Sync>(rt: &R, words: &str) -> (u64, u64) {
    let mut disk = new_store(rt, 0);
    let made = disk.calls();
    case_ends(rt, &smooth(words, ADD), &mut disk, 0, RUN.3);
    (made, disk.calls())
}

/// What a stop of the disk after so many calls leaves, or one after the last where it has made fewer.
pub fn stopped(
    rt: &impl Abort,
    alloc: Global,
    disk: &MemDisk,
    calls: u64,
    image: (bool, u8),
) -> MemDisk {
    let (kept, fill) = image;
    let left = disk.stopped(alloc, calls.min(disk.calls()), kept, fill);
    left.expect(rt, MEMORY)
}
