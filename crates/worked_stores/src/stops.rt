// What a stop after each call of the disk leaves: of a batch more, and of the next checkpoint.
ghost use Rattle.disk_model.specs.Recorded.{history_of};
ghost use Rattle.worked_stores.specs.Ready.{IsReady};

use crate::bases::{Base, created};
use crate::words::{SLOT, Seen, disk_of, found_on, same};
use aria_store::StoreRefused;
use batch_rules::verdicts::Rule;
use disk_model::MemDisk;
use std::alloc::Global;
use std::process::Abort;
use std::test::Fail;

/// The payload of a batch of one call.
pub const PAYLOAD: &[u8] = b"\x01\x65tx add 5\n";

/// What becomes of the bytes that were not synced: all come through, or one byte stands in their place.
pub const LEFT: [(bool, u8); 4] = [(true, 0), (false, 0), (false, 1), (false, 77)];

/// What is found where this disk stops after so many calls.
pub fn stopped(alloc: Global, disk: &MemDisk, calls: u64, left: (bool, u8)) -> Result<Seen, Fail> {
    if calls > disk.calls() {
        return Err(Fail::new("so many calls were made"));
    }
    let mut rest = disk.stopped(alloc, calls, left.0, left.1)?;
    found_on(alloc, &mut rest)
}

/// Whether so many calls before the end the last byte is there: it is written by the last call but one,
/// an open gate, and synced by the last.
pub fn is_shown(missing: u64, left: (bool, u8)) -> bool {
    match missing {
        0 => true,
        1 => left.0 || left.1 == 1,
        _ => false,
    }
}

/// Asserts that a stop after each call since the first `from` leaves what was there, and what is there
/// now only from the last byte on.
fn each_stop(
    rt: &impl Abort,
    alloc: Global,
    disk: &MemDisk,
    from: u64,
    was: Seen,
    is: Seen,
) -> Result<(), Fail> {
    let last = disk.calls();
    for calls in from..=last {
        for left in LEFT {
            let wanted = if is_shown(last - calls, left) {
                is
            } else {
                was
            };
            same(
                rt,
                &(calls, left),
                &stopped(alloc, disk, calls, left)?,
                &wanted,
            );
        }
    }
    Ok(())
}

#[test]
fn a_batch_more(rt: HostRuntime) -> Result<(), Fail> {
    let mut base = created(rt.alloc())?;
    let from = base.disk.calls();
    base.append(rt.alloc(), PAYLOAD)?;
    let made = base.disk.calls().saturating_sub(from);
    same(&rt, &"calls", &made, &4);
    let was = Seen::Stands(1, 0, 0, 0);
    each_stop(
        &rt,
        rt.alloc(),
        &base.disk,
        from,
        was,
        Seen::Stands(1, 1, 16, 1),
    )
}

#[test]
fn the_first_rotation(rt: HostRuntime) -> Result<(), Fail> {
    let mut base = created(rt.alloc())?;
    base.append(rt.alloc(), PAYLOAD)?;
    let from = base.disk.calls();
    base.rotate(rt.alloc(), Rule::Plain, 7, 1)?;
    let was = Seen::Stands(1, 1, 16, 1);
    each_stop(
        &rt,
        rt.alloc(),
        &base.disk,
        from,
        was,
        Seen::Stands(2, 0, 0, 0),
    )
}

/// Adds a batch of one call, and writes a checkpoint behind it.
fn turn(alloc: Global, base: &mut Base) -> Result<(), StoreRefused>
    requires { IsReady (history_of base.old.disk) base.old.store base.old.before base.old.catalog base.old.tables }
    ensures { IsReady (history_of base.new.disk) base.new.store base.new.before base.new.catalog base.new.tables }
{
    base.append(alloc, PAYLOAD)?;
    base.rotate(alloc, Rule::Reorder, 101, 2)
}

#[test]
fn the_third_of_three_rotations(rt: HostRuntime) -> Result<(), Fail> {
    let mut base = created(rt.alloc())?;
    turn(rt.alloc(), &mut base)?;
    turn(rt.alloc(), &mut base)?;
    base.append(rt.alloc(), PAYLOAD)?;
    base.append(rt.alloc(), b"\x00\x00")?;
    let from = base.disk.calls();
    base.rotate(rt.alloc(), Rule::Plain, 0, 3)?;
    let was = Seen::Stands(3, 2, 23, 1);
    each_stop(
        &rt,
        rt.alloc(),
        &base.disk,
        from,
        was,
        Seen::Stands(4, 0, 0, 0),
    )
}

#[test]
fn out_of_format_1(rt: HostRuntime) -> Result<(), Fail> {
    let mut slot = SLOT.to_vec(rt.alloc())?;
    if let Some(format) = slot.get_mut(5) {
        *format = 1;
    }
    let log = b"\x01\x09\0\0\0tx add 5\n\0";
    let disk = disk_of(rt.alloc(), [b"\0", &slot, b"", log])?;
    let mut base = Base::attached(rt.alloc(), disk)?;
    let from = base.disk.calls();
    base.rotate(rt.alloc(), Rule::Reorder, 101, 1)?;
    same(
        &rt,
        &"front",
        &base.disk.bytes(0).get(..9),
        &Some(b"\x01ARIA\x02\x01\x65\x02".as_slice()),
    );
    same(&rt, &"log", &base.disk.bytes(2), &b"\0".as_slice());
    let was = Seen::Stands(1, 1, 14, 1);
    each_stop(
        &rt,
        rt.alloc(),
        &base.disk,
        from,
        was,
        Seen::Stands(2, 0, 0, 0),
    )
}
