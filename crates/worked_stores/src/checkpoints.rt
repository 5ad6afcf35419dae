// A slot byte by byte, its calls with stops and faults between them, and what is told of a damaged one.
ghost use Rattle.std.specs.Prelude.{◌<◌};

use batch_rules::verdicts::Rule;
use checkpoint::{Head, blank, head_of, lay, read_slot, show, shut};
use disk_model::{Disk, LogRefused, MemDisk};
use std::alloc::Global;
use std::fmt::Debug;
use std::process::Abort;
use std::test::Fail;

const HEAD: Head = Head {
    format: 2,
    rule: Rule::Reorder,
    fallback: 101,
    generation: 3,
    batches: 7,
    requests: 258,
};

const BODY: [u8; 5] = *b"rows\n";

// The head and the body behind an open gate.
const WRITTEN: [u8; 45] =
    *b"\x01ARIA\x02\x01\x65\x03\0\0\0\0\0\0\0\x07\0\0\0\0\0\0\0\x02\x01\0\0\0\0\0\0\x05\0\0\0\0\0\0\0rows\n";

// Asserts that what was found in this case is what was worked out for it.
fn same<T: PartialEq + Debug>(rt: &impl Abort, case: &impl Debug, found: &T, wanted: &T) {
    assert_eq!(rt; found, wanted, "at {case:?}");
}

// A disk whose slot 1 has these bytes.
fn slotted(alloc: Global, bytes: &[u8]) -> Result<MemDisk, Fail> {
    Ok(MemDisk::of(
        alloc,
        Vec::new(alloc),
        bytes.to_vec(alloc)?,
        Vec::new(alloc),
        Vec::new(alloc),
        100,
        1000,
        Vec::new(alloc),
    )?)
}

// The first checkpoint of slot 1, by seven device calls.
fn write(disk: &mut MemDisk) -> Result<(), LogRefused> {
    blank(disk, 1)?;
    lay(disk, 1, &HEAD, &BODY)?;
    show(disk, 1)
}

// A disk on which one call fails, after the checkpoint was written.
fn written(alloc: Global, fails: u64) -> Result<(MemDisk, Result<(), LogRefused>), Fail> {
    let mut disk = MemDisk::new(alloc, 100, 1000, vec![in alloc; fails]?)?;
    let answer = write(&mut disk);
    Ok((disk, answer))
}

// Whether slot 1 shows the checkpoint.
fn is_shown(alloc: Global, disk: &mut MemDisk) -> Result<bool, LogRefused> {
    match read_slot(alloc, disk, 1)? {
        Some((head, body)) => Ok(head == HEAD && body.as_slice() == BODY.as_slice()),
        None => Ok(false),
    }
}

#[test]
fn a_slot_is_laid_out(rt: HostRuntime) -> Result<(), Fail> {
    let (mut disk, answer) = written(rt.alloc(), 0)?;
    same(&rt, &"written", &answer, &Ok(()));
    same(&rt, &"bytes", &disk.bytes(1), &WRITTEN.as_slice());
    same(&rt, &"calls", &disk.calls(), &7);
    same(&rt, &"head", &head_of(&mut disk, 1), &Ok(Some(HEAD)));
    same(&rt, &"read", &is_shown(rt.alloc(), &mut disk), &Ok(true));
    same(&rt, &"other", &head_of(&mut disk, 0), &Ok(None));
    Ok(())
}

// Whether slot 1 shows the checkpoint where the disk is stopped after so many calls.
fn left(alloc: Global, disk: &MemDisk, calls: u64, kept: bool, fill: u8) -> Result<bool, Fail> {
    if calls > disk.calls() {
        return Ok(false);
    }
    let mut stopped = disk.stopped(alloc, calls, kept, fill)?;
    Ok(is_shown(alloc, &mut stopped)?)
}

#[test]
fn a_stop_leaves_the_slot_shut_or_whole(rt: HostRuntime) -> Result<(), Fail> {
    let alloc = rt.alloc();
    let (disk, _) = written(alloc, 0)?;
    for (kept, fill) in [(true, 0), (false, 0), (false, 1), (false, 77)] {
        for calls in 2..8 {
            // The gate is opened by the sixth call, and open for good after the seventh.
            let wanted = calls == 7 || calls == 6 && (kept || fill == 1);
            let found = left(alloc, &disk, calls, kept, fill)?;
            same(&rt, &(kept, fill, calls), &found, &wanted);
        }
    }
    Ok(())
}

#[test]
fn each_call_fails_in_turn(rt: HostRuntime) -> Result<(), Fail> {
    for call in 1..8 {
        let (disk, answer) = written(rt.alloc(), call)?;
        same(&rt, &call, &answer, &Err(LogRefused::DiskFault));
        same(&rt, &call, &(disk.calls(), disk.faults()), &(call, 1));
    }
    Ok(())
}

// The checkpoint in slot 1, shut after it was shown, or without having been shown.
fn shut_again(alloc: Global, shown: bool) -> Result<MemDisk, Fail> {
    let mut disk = MemDisk::new(alloc, 100, 1000, Vec::new(alloc))?;
    blank(&mut disk, 1)?;
    lay(&mut disk, 1, &HEAD, &BODY)?;
    if shown {
        show(&mut disk, 1)?;
        shut(&mut disk, 1)?;
    } else {
        shut(&mut disk, 1)?;
    }
    Ok(disk)
}

#[test]
fn only_an_open_gate_is_closed(rt: HostRuntime) -> Result<(), Fail> {
    let mut wanted = WRITTEN;
    wanted[0] = 0;
    // Seven calls to show it, and then a read, a write and a sync; or five to lay it, and a read.
    for (shown, calls) in [(true, 10), (false, 6)] {
        let disk = shut_again(rt.alloc(), shown)?;
        same(&rt, &shown, &disk.bytes(1), &wanted.as_slice());
        same(&rt, &shown, &disk.calls(), &calls);
    }
    Ok(())
}

// The offset that is named where one byte of the slot is another, or 99 where none is.
fn damage(alloc: Global, place: usize, byte: u8) -> Result<u64, Fail> {
    let mut bytes = WRITTEN;
    if place < bytes.len() {
        bytes[place] = byte;
    }
    let mut disk = slotted(alloc, &bytes)?;
    match head_of(&mut disk, 1) {
        Err(LogRefused::Damaged { at, .. }) => Ok(at),
        _ => Ok(99),
    }
}

#[test]
fn what_is_wrong_is_named(rt: HostRuntime) -> Result<(), Fail> {
    // The place of a byte, the byte, and the offset named: batches are 7, so that generation 9 stands
    // and 11 does not.
    let cases: [(usize, u8, u64); 18] = [
        (0, 1, 99),
        (0, 0, 99),
        (1, b'a', 1),
        (4, b'B', 1),
        (5, 0, 5),
        (5, 3, 5),
        (6, 2, 6),
        (7, 102, 7),
        (8, 0, 8),
        (8, 2, 8),
        (8, 9, 99),
        (8, 11, 8),
        (15, 1, 8),
        (23, 0x40, 16),
        (31, 0x40, 24),
        (32, 6, 32),
        (32, 4, 99),
        (39, 1, 32),
    ];
    for (place, byte, at) in cases {
        same(&rt, &(place, byte), &damage(rt.alloc(), place, byte)?, &at);
    }
    Ok(())
}

#[test]
fn a_cut_slot_is_damaged(rt: HostRuntime) -> Result<(), Fail> {
    for cut in 0..=WRITTEN.len() {
        let mut disk = slotted(rt.alloc(), &WRITTEN[..cut])?;
        let wanted = match cut {
            0 => Ok(None),
            1..40 => Err(LogRefused::Damaged {
                file: 1,
                at: cut as u64,
            }),
            40..45 => Err(LogRefused::Damaged { file: 1, at: 32 }),
            _ => Ok(Some(HEAD)),
        };
        same(&rt, &cut, &head_of(&mut disk, 1), &wanted);
    }
    Ok(())
}
