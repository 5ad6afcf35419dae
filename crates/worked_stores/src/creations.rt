// What a stop after each call of the disk leaves of a creation.
use crate::bases::{created, created_with};
use crate::stops::{LEFT, PAYLOAD, is_shown, stopped};
use crate::words::{SLOT, Seen, same};
use disk_model::MemDisk;
use std::alloc::Global;
use std::process::Abort;
use std::test::Fail;

// How many calls a creation still has to make behind some of its own. Behind them come three of the
// checkpoint behind its gate, two of its log, and two of the gate that is opened.

/// Behind the write of a closed gate into slot 0, which is not synced.
const FIRST_SHUT: u64 = 10;

/// Behind the write of a closed gate into slot 1, which is not synced.
const SECOND_SHUT: u64 = 8;

/// The store that is made.
const MADE: Seen = Seen::Stands(1, 0, 0, 0);

/// What is found where a creation on empty files stops so many calls before its end. Of a closed gate that
/// was not synced the byte of an open one may be left, with no head behind it.
fn of_empty_files(missing: u64, left: (bool, u8)) -> Seen {
    match (missing, left) {
        (FIRST_SHUT, (false, 1)) => Seen::Damaged(0, 1),
        (SECOND_SHUT, (false, 1)) => Seen::Damaged(1, 1),
        _ if is_shown(missing, left) => MADE,
        _ => Seen::NoStore,
    }
}

/// The same where slot 1 has a store with a batch, which may be written over: it stands until its gate
/// may be closed.
fn of_a_store(missing: u64, left: (bool, u8)) -> Seen {
    match (missing, left) {
        (FIRST_SHUT, (false, 1)) => Seen::Damaged(0, 1),
        (SECOND_SHUT, (false, 1)) => Seen::Stands(1, 1, 16, 1),
        _ if missing > SECOND_SHUT => Seen::Stands(1, 1, 16, 1),
        _ if is_shown(missing, left) => MADE,
        _ => Seen::NoStore,
    }
}

/// Asserts what a stop after each call of a creation leaves, which has begun behind the first `from`, on
/// empty files or over that store.
fn each_stop(
    rt: &impl Abort,
    alloc: Global,
    disk: &MemDisk,
    from: u64,
    over: bool,
) -> Result<(), Fail> {
    let last = disk.calls();
    for calls in from..=last {
        let missing = last - calls;
        for left in LEFT {
            let wanted = if over {
                of_a_store(missing, left)
            } else {
                of_empty_files(missing, left)
            };
            let found = stopped(alloc, disk, calls, left)?;
            same(rt, &(over, calls, left), &found, &wanted);
        }
    }
    Ok(())
}

#[test]
fn on_empty_files(rt: HostRuntime) -> Result<(), Fail> {
    let alloc = rt.alloc();
    let base = created(alloc)?;
    each_stop(&rt, alloc, &base.disk, 0, false)
}

#[test]
fn over_a_store(rt: HostRuntime) -> Result<(), Fail> {
    let alloc = rt.alloc();
    let mut old = created(alloc)?;
    old.append(alloc, PAYLOAD)?;
    let from = old.disk.calls();
    let base = created_with(alloc, old.disk, true, &SLOT[40..])?;
    each_stop(&rt, alloc, &base.disk, from, true)
}
