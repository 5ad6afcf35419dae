// Each call of the disk failing in turn.
ghost use Rattle.disk_model.specs.Recorded.{history_of};
ghost use Rattle.worked_stores.specs.Ready.{IsReady};

use crate::bases::{Base, created_with};
use crate::words::{SLOT, same};
use aria_store::StoreRefused;
use batch_rules::verdicts::Rule;
use disk_model::MemDisk;
use std::alloc::Global;
use std::test::Fail;

/// The payload of a batch of one call.
const PAYLOAD: &[u8] = b"\x01\x65tx add 5\n";

/// What the calls on a store came to: which of them was refused, why, and what the next one answered.
#[derive(Clone, Copy, Debug, PartialEq, Eq)]
enum Fate {
    Created(StoreRefused),
    Added(StoreRefused, Option<StoreRefused>),
    Rotated(StoreRefused, Option<StoreRefused>),
    Done,
}

/// What comes of a creation, and of a batch and a rotation twice, on a disk of which the call with this
/// number fails.
fn came_of(alloc: Global, number: u64) -> Result<Fate, Fail> {
    let mut fails = Vec::new(alloc);
    fails.push(number)?;
    let disk = MemDisk::new(alloc, 1000, 1_000_000, fails)?;
    match created_with(alloc, disk, false, &SLOT[40..]) {
        Ok(mut base) => Ok(written(alloc, &mut base)),
        Err(refused) => Ok(Fate::Created(refused)),
    }
}

/// What comes of a batch and a rotation, and of both once more. The first rotation finds the gate of its
/// slot closed and reads it alone; the second finds one open, which it closes by a write and a sync.
fn written(alloc: Global, base: &mut Base) -> Fate
    requires { IsReady (history_of base.old.disk) base.old.store base.old.before base.old.catalog base.old.tables }
{
    if let Err(refused) = base.append(alloc, PAYLOAD) {
        return Fate::Added(refused, base.append(alloc, PAYLOAD).err());
    }
    if let Err(refused) = base.rotate(alloc, Rule::Plain, 7, 1) {
        return Fate::Rotated(refused, base.append(alloc, PAYLOAD).err());
    }
    if let Err(refused) = base.append(alloc, PAYLOAD) {
        return Fate::Added(refused, base.append(alloc, PAYLOAD).err());
    }
    if let Err(refused) = base.rotate(alloc, Rule::Reorder, 101, 2) {
        return Fate::Rotated(refused, base.append(alloc, PAYLOAD).err());
    }
    Fate::Done
}

#[test]
fn each_call_fails_in_turn(rt: HostRuntime) -> Result<(), Fail> {
    let fault = StoreRefused::DiskFault;
    let closed = Some(StoreRefused::Closed { faults: 1 });
    let cases: [(u64, u64, Fate); 6] = [
        (1, 17, Fate::Created(fault)),
        (18, 21, Fate::Added(fault, closed)),
        (22, 29, Fate::Rotated(fault, closed)),
        (30, 33, Fate::Added(fault, closed)),
        // three calls for the open gate, three for what is behind it, two for the log, two for the gate
        (34, 43, Fate::Rotated(fault, closed)),
        (44, 47, Fate::Done),
    ];
    for (first, last, wanted) in cases {
        for number in first..=last {
            same(&rt, &number, &came_of(rt.alloc(), number)?, &wanted);
        }
    }
    Ok(())
}
