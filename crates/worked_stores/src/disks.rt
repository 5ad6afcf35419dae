// The disk in memory: calls that fail, bytes that run out, and what a stop leaves.
ghost use Rattle.std.specs.Prelude.{◌≡◌, ◌<◌, ◌≤◌, length, true, IfSome};
ghost use Rattle.disk_model.specs.Histories.{current};
ghost use Rattle.disk_model.specs.Recorded.{history_of};

use aria_base::Failed;
use disk_model::{Disk, MemDisk, write_synced};
use std::alloc::Global;
use std::process::Abort;
use std::test::Fail;

// A disk whose file 1 has the bytes 1 to 4, with the number of one call that fails.
fn small_disk(alloc: Global, fails: &[u64]) -> Result<MemDisk, Fail> {
    Ok(MemDisk::of(
        alloc,
        Vec::new(alloc),
        [1, 2, 3, 4].to_vec(alloc)?,
        Vec::new(alloc),
        Vec::new(alloc),
        8,
        16,
        fails.to_vec(alloc)?,
    )?)
}

// Asserts that this holds. An assertion in place costs its function several seconds of proof, more where a call with
// long promises stands before it, and a call of this one next to none.
fn holds(rt: &impl Abort, what: &str, found: bool) {
    assert!(rt; found, "{what}");
}

// Whether a file reaches to an offset.
#[tactic(auto, using(disk_model::proofs::Moments::reads_now))]
fn reaches(disk: &MemDisk, file: u8, at: u64) -> bool
    requires { file < 4 }
    ensures { result ≡ true → IfSome (current (history_of disk.now) file) (λ f. at ≤ length f.seen) }
{
    at <= disk.bytes(file).len() as u64
}

// Writes from an offset on that the file has.
fn write(disk: &mut MemDisk, file: u8, at: u64, bytes: &[u8]) -> Result<(), Failed>
    requires { file < 4 }
{
    if !reaches(disk, file, at) {
        return Err(Failed);
    }
    disk.write_at(file, at, bytes)
}

// Whether it writes them.
fn writes(disk: &mut MemDisk, file: u8, at: u64, bytes: &[u8]) -> bool {
    file < 4 && write(disk, file, at, bytes).is_ok()
}

// Three bytes of file 1 from offset 2 on.
fn read(disk: &mut MemDisk) -> Result<[u8; 3], Failed> {
    if !reaches(disk, 1, 5) {
        return Err(Failed);
    }
    let mut part = [0; 3];
    disk.read_at(1, 2, &mut part)?;
    Ok(part)
}

// Whether it reads these.
fn reads(disk: &mut MemDisk, wanted: [u8; 3]) -> bool {
    match read(disk) {
        Ok(part) => part == wanted,
        Err(_) => false,
    }
}

// The length that it tells of a file, None where it fails.
fn len(disk: &mut MemDisk, file: u8) -> Option<u64> {
    if file < 4 { disk.len(file).ok() } else { None }
}

// Whether it tells this length of file 1.
fn has_len(disk: &mut MemDisk, wanted: u64) -> bool {
    match len(disk, 1) {
        Some(found) => found == wanted,
        None => false,
    }
}

// Whether it makes file 1 stable.
fn syncs(disk: &mut MemDisk) -> bool {
    disk.sync(1).is_ok()
}

// Whether a file has these bytes.
fn has(disk: &MemDisk, file: u8, bytes: &[u8]) -> bool {
    file < 4 && disk.bytes(file) == bytes
}

// Whether it counts so many calls, and of them so many that failed.
fn counts(disk: &MemDisk, calls: u64, faults: u64) -> bool {
    disk.calls() == calls && disk.faults() == faults
}

// What a stop after so many calls leaves of file 1, by which bytes come through.
fn left(alloc: Global, disk: &MemDisk, calls: u64, kept: bool, fill: u8) -> Result<Vec<u8>, Fail> {
    if calls > disk.calls() {
        return Ok(Vec::new(alloc));
    }
    let stopped = disk.stopped(alloc, calls, kept, fill)?;
    Ok(stopped.bytes(1).to_vec(alloc)?)
}

// What a stop is called, the calls after which the disk is stopped, by which bytes come through, and what is left of
// file 1.
type Stop = (&'static str, u64, bool, u8, &'static [u8]);

// Asserts that each of these stops leaves these bytes.
fn leave(rt: &impl Abort, alloc: Global, disk: &MemDisk, stops: &[Stop]) -> Result<(), Fail> {
    for (what, calls, kept, fill, bytes) in stops {
        let found = left(alloc, disk, *calls, *kept, *fill)?;
        holds(rt, what, found.as_slice() == *bytes);
    }
    Ok(())
}

// Of two writes, of which the first goes past the end, and a sync after them.
const TORN: [Stop; 5] = [
    ("no call", 0, false, 77, &[1, 2, 3, 4]),
    ("one lost", 1, false, 77, &[1, 2, 3, 77, 77, 77]),
    ("one kept", 1, true, 77, &[1, 2, 3, 7, 8, 9]),
    ("two lost", 2, false, 0, &[0, 2, 3, 0, 0, 0]),
    ("a sync", 5, false, 77, &[5, 2, 3, 7, 8, 9]),
];

#[test]
fn writes_are_read_and_torn(rt: HostRuntime) -> Result<(), Fail> {
    let alloc = rt.alloc();
    let mut disk = small_disk(alloc, &[])?;
    holds(&rt, "past its end", writes(&mut disk, 1, 3, &[7, 8, 9]));
    holds(&rt, "at its begin", writes(&mut disk, 1, 0, &[5]));
    holds(&rt, "six bytes", has_len(&mut disk, 6));
    holds(&rt, "both are read", reads(&mut disk, [3, 7, 8]));
    holds(&rt, "synced", syncs(&mut disk));
    holds(&rt, "five calls", counts(&disk, 5, 0));
    leave(&rt, alloc, &disk, &TORN)
}

// The range of a write that failed counts as written, and a sync that failed makes nothing stable.
const FAILED: [Stop; 2] = [
    ("a failed write", 1, false, 9, &[1, 9, 9, 4]),
    ("a failed sync", 3, false, 9, &[9, 9, 9, 4]),
];

#[test]
fn told_calls_fail(rt: HostRuntime) -> Result<(), Fail> {
    let alloc = rt.alloc();
    let mut disk = small_disk(alloc, &[1, 3])?;
    holds(&rt, "call 1 fails", !writes(&mut disk, 1, 1, &[7, 7]));
    holds(&rt, "as it was", has(&disk, 1, &[1, 2, 3, 4]));
    holds(&rt, "call 2 writes", writes(&mut disk, 1, 0, &[5]));
    holds(&rt, "call 3 fails", !syncs(&mut disk));
    holds(&rt, "two faults", counts(&disk, 3, 2));
    leave(&rt, alloc, &disk, &FAILED)
}

#[test]
fn calls_and_bytes_run_out(rt: HostRuntime) -> Result<(), Fail> {
    let alloc = rt.alloc();
    let mut disk = MemDisk::new(alloc, 3, 4, Vec::new(alloc))?;
    holds(&rt, "three bytes", writes(&mut disk, 0, 0, &[1, 2, 3]));
    holds(&rt, "one too many", !writes(&mut disk, 0, 3, &[4, 5]));
    holds(&rt, "the fourth", writes(&mut disk, 0, 3, &[4]));
    holds(&rt, "no fourth call", len(&mut disk, 0).is_none());
    holds(&rt, "two faults", counts(&disk, 3, 2));
    holds(&rt, "four bytes", has(&disk, 0, &[1, 2, 3, 4]));
    // A stopped disk has as much room as the first one was made with.
    let mut again = disk.stopped(alloc, 0, true, 0)?;
    holds(&rt, "room again", writes(&mut again, 2, 0, &[1, 2, 3, 4]));
    holds(&rt, "four again", has(&again, 2, &[1, 2, 3, 4]));
    Ok(())
}

// Whether it writes this byte before all others of file 1, and makes it stable.
fn is_synced(disk: &mut MemDisk, byte: u8) -> bool {
    write_synced(disk, 1, 0, &[byte]).is_ok()
}

// One write and its sync.
const SYNCED: [Stop; 1] = [("a sync", 2, false, 0, &[5, 2, 3, 4])];

#[test]
fn a_write_is_synced(rt: HostRuntime) -> Result<(), Fail> {
    let alloc = rt.alloc();
    let mut disk = small_disk(alloc, &[])?;
    holds(&rt, "it is answered", is_synced(&mut disk, 5));
    holds(&rt, "two calls", counts(&disk, 2, 0));
    leave(&rt, alloc, &disk, &SYNCED)
}
