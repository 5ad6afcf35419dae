// Stops of a store of format 1, which this program does not make.
use crate::outcomes::{CALLS, MEMORY, ROOM, copy, ends, new_store};
use crate::stores::{IMAGES, OPENED, stopped};
use disk_model::MemDisk;
use std::process::Abort;
use std::thread::Threads;

/// The log of format 1 with one batch: `tx add 1 5`.
const FIRST_LOG: [u8; 17] = [
    1, 11, 0, 0, 0, 116, 120, 32, 97, 100, 100, 32, 49, 32, 53, 10, 0,
];

/// The first 32 bytes of a checkpoint: the gate, the letters, the format, rule and fallback, and how many
/// checkpoints, batches and requests there were. This one is of format 1.
const OF_FORMAT_1: [u8; 32] = [
    1, 65, 82, 73, 65, 1, 1, 101, 1, 0, 0, 0, 0, 0, 0, 0, 0, 0, 0, 0, 0, 0, 0, 0, 0, 0, 0, 0, 0, 0,
    0, 0,
];

/// A store of the three accounts whose checkpoint begins so, and with this log.
fn store_of<R: AllocGlobal + Threads + Abort + Sync>(rt: &R, front: &[u8], log: &[u8]) -> MemDisk {
    let alloc = rt.alloc();
    let made = new_store(rt, 0);
    let rows = made.bytes(1).get(40..).unwrap_or_default();
    let length = (rows.len() as u64).to_le_bytes();
    let slot = [front, length.as_slice(), rows].concat(alloc);
    MemDisk::of(
        alloc,
        copy(rt, alloc, &[0]),
        slot.expect(rt, MEMORY),
        Vec::new(alloc),
        copy(rt, alloc, log),
        CALLS,
        ROOM,
        Vec::new(alloc),
    )
    .expect(rt, MEMORY)
}

#[test]
fn a_stop_of_the_migration_leaves_the_batch(rt: HostRuntime) {
    let mut disk = store_of(&rt, &OF_FORMAT_1, &FIRST_LOG);
    ends(&rt, &OPENED, &mut disk);
    for calls in 0..=disk.calls() {
        for image in IMAGES {
            let mut left = stopped(&rt, rt.alloc(), &disk, calls, image);
            ends(&rt, &OPENED, &mut left);
        }
    }
}
