// Every image of a stop that memory tells: after each call on the disk, with what was not synced kept, 0 or 1.
use crate::outcomes::{case_ends, holds, new_store, smooth};
use crate::stores::{ADD, IMAGES, RUN, counted, goes_on, stopped};
use disk_model::MemDisk;
use std::process::Abort;
use std::thread::Threads;

/// Whether a stop after so many calls leaves the batch, whose append ends with the last of `appended` calls.
/// The last but one writes the gate that shows it.
fn is_left(calls: u64, appended: u64, image: (bool, u8)) -> bool {
    let (kept, fill) = image;
    let gate_written = calls == appended.saturating_sub(1);
    appended <= calls || gate_written && (kept || fill == 1)
}

/// Asserts that the script over a stop after so many calls ends as if it had not been stopped.
fn stop_leaves<R: AllocGlobal + Threads + Abort + Sync>(
    rt: &R,
    disk: &MemDisk,
    calls: u64,
    image: (bool, u8),
    batch: bool,
) {
    let mut left = stopped(rt, rt.alloc(), disk, calls, image);
    let has = goes_on(rt, &mut left);
    holds(rt, "the batch is there or not", calls, has == batch);
}

/// Stops the command of these arguments behind each of its calls on the store, whose script has one batch.
/// From the end of its append on no stop loses the batch.
fn each_stop<R: AllocGlobal + Threads + Abort + Sync>(rt: &R, words: &str) {
    let (made, appended) = counted(rt, "run");
    let mut disk = new_store(rt, 0);
    case_ends(rt, &smooth(words, ADD), &mut disk, 0, RUN.3);
    for calls in made..=disk.calls() {
        for image in IMAGES {
            stop_leaves(rt, &disk, calls, image, is_left(calls, appended, image));
        }
    }
}

#[test]
fn a_stop_of_a_batch_leaves_it_or_not(rt: HostRuntime) {
    each_stop(&rt, "run");
}

#[test]
fn a_stop_of_a_rotation_leaves_the_batch(rt: HostRuntime) {
    each_stop(&rt, "run --checkpoint 1");
}

/// Behind the end of `init` no stop loses the store. Before it there may be one, none, or one that is damaged.
#[test]
fn a_store_is_there_once_it_is_ready(rt: HostRuntime) {
    let disk = new_store(&rt, 0);
    for image in IMAGES {
        stop_leaves(&rt, &disk, disk.calls(), image, false);
    }
}
