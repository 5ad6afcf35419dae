// A log byte by byte, its calls with stops and faults between them, and what is told of a damaged one.
ghost use Rattle.std.specs.Prelude.{◌≡◌, ◌<◌, ◌≤◌, length, IfOk};
ghost use Rattle.disk_model.specs.Histories.{current, IsStable};
ghost use Rattle.disk_model.specs.Recorded.{history_of};

use disk_model::{Disk, MemDisk};
use input_log::{LogEnd, LogRefused, Payload, append, fresh, scan};
use std::alloc::Global;
use std::fmt::Debug;
use std::process::Abort;
use std::test::Fail;

// The offset up to which the tests add records, and their longest payload.
const FAR: u64 = 1 << 20;

const LONG: usize = 100;

const ADD: [u8; 11] = *b"tx add 1 5\n";

const WRITTEN: [u8; 17] = *b"\x01\x0b\0\0\0tx add 1 5\n\0";

// Asserts that what was found in this case is what was worked out for it. An assertion in place costs
// its function several seconds of proof, and a call of this one next to none.
fn same<T: PartialEq + Debug>(rt: &impl Abort, case: &impl Debug, found: &T, wanted: &T) {
    assert_eq!(rt; found, wanted, "at {case:?}");
}

// Where a log in file 3 ends.
fn end_at(at: u64, batches: u64) -> LogEnd {
    LogEnd {
        file: 3,
        at,
        batches,
    }
}

// A disk whose file 3 has these bytes.
fn logged(alloc: Global, bytes: &[u8]) -> Result<MemDisk, Fail>
    ensures { IfOk result (λ disk. IsStable (current (history_of disk) 3)) }
{
    Ok(MemDisk::of(
        alloc,
        Vec::new(alloc),
        Vec::new(alloc),
        Vec::new(alloc),
        bytes.to_vec(alloc)?,
        100,
        1000,
        Vec::new(alloc),
    )?)
}

// A fresh log in file 3 of a disk on which one call fails, after these appends. A refused one is the
// last.
fn appended(
    alloc: Global,
    payloads: &[&[u8]],
    fails: u64,
) -> Result<(MemDisk, LogEnd, Result<(), LogRefused>), Fail> {
    let mut disk = MemDisk::new(alloc, 100, 1000, vec![in alloc; fails]?)?;
    let mut end = fresh(&mut disk, 3)?;
    for payload in payloads {
        if end.at > FAR || payload.len() > LONG {
            break;
        }
        if let Err(refused) = append(alloc, &mut end, &mut disk, payload) {
            return Ok((disk, end, Err(refused)));
        }
    }
    Ok((disk, end, Ok(())))
}

fn is_last(last: &[u8], payloads: &[Payload]) -> bool {
    match payloads.last() {
        Some(payload) => payload.bytes.as_slice() == last,
        None => false,
    }
}

// How many records a log in file 3 has, or 0 where this one is not the last.
fn count_up_to(alloc: Global, disk: &mut MemDisk, last: &[u8]) -> Result<usize, LogRefused> {
    let (payloads, _) = scan(alloc, disk, 3)?;
    if is_last(last, &payloads) {
        return Ok(payloads.len());
    }
    Ok(0)
}

// How many records a log in file 3 has that stands with nothing unsynced, when one more was added.
fn count_with_one_more(alloc: Global, disk: &mut MemDisk) -> Result<usize, LogRefused>
    requires { IsStable (current (history_of disk.old) 3) }
{
    let (_, mut end) = scan(alloc, disk, 3)?;
    if end.at > FAR {
        return Ok(0);
    }
    append(alloc, &mut end, disk, b"next")?;
    count_up_to(alloc, disk, b"next")
}

#[test]
fn a_record_is_laid_out(rt: HostRuntime) -> Result<(), Fail> {
    let (disk, end, added) = appended(rt.alloc(), &[&ADD], 0)?;
    same(&rt, &"added", &added, &Ok(()));
    same(&rt, &"bytes", &disk.bytes(3), &WRITTEN.as_slice());
    same(&rt, &"end", &end, &end_at(16, 1));
    same(&rt, &"calls", &disk.calls(), &6);
    Ok(())
}

#[test]
fn a_record_behind_a_closed_gate_is_none(rt: HostRuntime) -> Result<(), Fail> {
    let mut bytes = WRITTEN;
    bytes[0] = 77;
    let mut shut = logged(rt.alloc(), &bytes)?;
    let (payloads, end) = scan(rt.alloc(), &mut shut, 3)?;
    same(&rt, &"payloads", &payloads.len(), &0);
    same(&rt, &"end", &end, &end_at(0, 0));
    Ok(())
}

// How many records a log in file 3 has, or 9 where there is one and another than the one that was added.
fn count_as_left(alloc: Global, disk: &mut MemDisk) -> Result<usize, LogRefused> {
    let (payloads, _) = scan(alloc, disk, 3)?;
    if payloads.len() == 1 && !is_last(&ADD, &payloads) {
        return Ok(9);
    }
    Ok(payloads.len())
}

// What a stop after so many calls leaves of the log in file 3: how many records it has, once as it is
// left and once with one more.
fn left(
    alloc: Global,
    disk: &MemDisk,
    calls: u64,
    kept: bool,
    fill: u8,
) -> Result<(usize, usize), Fail> {
    if calls > disk.calls() {
        return Ok((9, 9));
    }
    let mut stopped = disk.stopped(alloc, calls, kept, fill)?;
    let mut again = disk.stopped(alloc, calls, kept, fill)?;
    let count = count_as_left(alloc, &mut stopped)?;
    Ok((count, count_with_one_more(alloc, &mut again)?))
}

#[test]
fn a_stop_leaves_a_whole_record_or_none(rt: HostRuntime) -> Result<(), Fail> {
    let alloc = rt.alloc();
    let (disk, _, _) = appended(alloc, &[&ADD], 0)?;
    for (kept, fill) in [(true, 0), (false, 0), (false, 1), (false, 77)] {
        for calls in 2..7 {
            // The gate is opened by the third call, and is there for good after the fourth.
            let there = calls == 6 || calls == 5 && (kept || fill == 1);
            let wanted = if there { (1, 2) } else { (0, 1) };
            let found = left(alloc, &disk, calls, kept, fill)?;
            same(&rt, &(kept, fill, calls), &found, &wanted);
        }
    }
    Ok(())
}

// Checks a disk on which this call fails as a record is added: nothing is told to be there, and a stop
// that keeps what was written leaves so many records, and one more where one is added.
fn fails_at(rt: &impl Abort, alloc: Global, call: u64, kept: (usize, usize)) -> Result<(), Fail> {
    let (disk, end, added) = appended(alloc, &[&ADD], call)?;
    same(rt, &call, &added, &Err(LogRefused::DiskFault));
    same(rt, &call, &end, &end_at(0, 0));
    same(rt, &call, &disk.faults(), &1);
    same(rt, &call, &disk.calls(), &call);
    same(rt, &call, &left(alloc, &disk, call, true, 0)?, &kept);
    same(rt, &call, &left(alloc, &disk, call, false, 0)?, &(0, 1));
    Ok(())
}

#[test]
fn each_call_fails_in_turn(rt: HostRuntime) -> Result<(), Fail> {
    // The gate may be open only where its write came through.
    for (call, kept) in [(3, (0, 1)), (4, (0, 1)), (5, (0, 1)), (6, (1, 2))] {
        fails_at(&rt, rt.alloc(), call, kept)?;
    }
    Ok(())
}

// Checks each payload that was read, by its offset and its bytes.
fn are_read(rt: &impl Abort, payloads: &[Payload], wanted: &[(u64, &[u8])]) {
    for (payload, (at, bytes)) in payloads.iter().zip(wanted.iter()) {
        same(rt, at, &payload.at, at);
        same(rt, at, &payload.bytes.as_slice(), bytes);
    }
}

#[test]
fn all_payloads_are_read(rt: HostRuntime) -> Result<(), Fail> {
    let alloc = rt.alloc();
    let (mut disk, end, added) = appended(alloc, &[&ADD, b"", b"more"], 0)?;
    same(&rt, &"added", &added, &Ok(()));
    let (payloads, found) = scan(alloc, &mut disk, 3)?;
    same(&rt, &"end", &found, &end);
    same(&rt, &"end", &found, &end_at(30, 3));
    same(&rt, &"payloads", &payloads.len(), &3);
    are_read(&rt, &payloads, &[(0, &ADD), (16, b""), (21, b"more")]);
    Ok(())
}

#[test]
fn a_cut_log_is_damaged(rt: HostRuntime) -> Result<(), Fail> {
    let alloc = rt.alloc();
    let (disk, _, _) = appended(alloc, &[&ADD, b"more"], 0)?;
    let whole = disk.bytes(3);
    assert_eq!(rt; whole.len(), 26);
    for cut in 0..=whole.len() {
        let mut disk = logged(alloc, &whole[..cut])?;
        // The second record begins at 16, and the gate behind it stands at 25.
        match scan(alloc, &mut disk, 3) {
            Ok((payloads, _)) => assert_eq!(rt; (cut, payloads.len()), (26, 2)),
            Err(refused) => {
                let at = if cut <= 16 { 0 } else { 16 };
                assert_eq!(rt; refused, LogRefused::Damaged { file: 3, at });
                assert!(rt; cut < 26);
            }
        }
    }
    Ok(())
}
