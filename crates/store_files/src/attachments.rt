// Which slot is taken.
ghost use Rattle.std.specs.Prelude.{◌≡◌, ◌<◌, IfOk, IfErr, IfSome, OnErr};
ghost use Rattle.aria_base.specs.Faults.{Rose};
ghost use Rattle.disk_model.specs.Histories.{current, MayLeave, LeavesAll, Still};
ghost use Rattle.checkpoint.specs.Slots.{is_open};
ghost use Rattle.store_files.specs.Holdings.{IsSettled};
ghost use Rattle.store_files.specs.Attachments.{pick_of, Heads, Chosen, IsTaken, ReadsAlike, TakeCause};

use crate::creations::sync_all;
use crate::refusals::StoreRefused;
use aria_base::Failed;
use checkpoint::{Head, head_of};
use disk_model::{Disk, OPEN, SHUT};

/// Whether one of the two gates is open. `Failed` comes only where a call on the disk failed.
pub fn is_taken<D: Disk>(disk: &mut D) -> Result<bool, Failed>
    ensures taken { IfOk result (IsTaken (D.history disk.old)) }
    ensures still { Still (D.history disk.old) (D.history disk.new) }
    ensures cause { OnErr result (Rose (D.history disk.old).faults (D.history disk.new).faults) }
{
    let first = gate_open(disk, 0)?;
    if first {
        return Ok(true);
    }
    let second = gate_open(disk, 1)?;
    Ok(second)
}

// Whether a slot's gate is open.
fn gate_open<D: Disk>(disk: &mut D, slot: u8) -> Result<bool, Failed>
    requires { slot < 2 }
    ensures open { IfOk result (λ shown. IfSome (current (D.history disk.old) slot) (λ f. shown ≡ is_open f.seen)) }
    ensures still { Still (D.history disk.old) (D.history disk.new) }
    ensures cause { OnErr result (Rose (D.history disk.old).faults (D.history disk.new).faults) }
{
    if disk.len(slot)? == 0 {
        return Ok(false);
    }
    let mut gate = [SHUT];
    disk.read_at(slot, 0, &mut gate)?;
    Ok(gate[0] == OPEN)
}

/// Syncs the four files and looks which slot is taken: the open one (of two, that of the greater
/// generation). The other slot's file is not empty then. No memory.
///
/// `NoStore`: neither gate is open. `Damaged`: the head of an open slot is wrong, with the first offset that
/// is, or the other slot's file has no bytes, with offset 0. `DiskFault`: a call on the disk failed.
pub fn take_slot<D: Disk>(disk: &mut D) -> Result<(u8, Head), StoreRefused>
    ensures images { LeavesAll (D.history disk.old) (D.history disk.new) (MayLeave (D.history disk.old) (D.history disk.old).now) }
    ensures reads { ReadsAlike (D.history disk.old) (D.history disk.new) }
    ensures settled { IfOk result (λ _. IsSettled (D.history disk.new)) }
    ensures chosen { IfOk result (λ r. Chosen (D.history disk.new) r.0 r.1) }
    ensures refused { IfErr result (TakeCause (D.history disk.old) (D.history disk.new)) }
{
    sync_all(disk)?;
    choose(disk)
}

// The slot that is taken, with its head.
fn choose<D: Disk>(disk: &mut D) -> Result<(u8, Head), StoreRefused>
    requires { IsSettled (D.history disk.old) }
    ensures still { Still (D.history disk.old) (D.history disk.new) }
    ensures chosen { IfOk result (λ r. Chosen (D.history disk.old) r.0 r.1) }
    ensures refused { IfErr result (TakeCause (D.history disk.old) (D.history disk.new)) }
{
    let (first, second) = heads(disk)?;
    let Some((slot, head)) = pick(first, second) else {
        return Err(StoreRefused::NoStore);
    };
    if disk.len(1 - slot)? == 0 {
        return Err(StoreRefused::Damaged {
            file: 1 - slot,
            at: 0,
        });
    }
    Ok((slot, head))
}

// The heads of both slots.
fn heads<D: Disk>(disk: &mut D) -> Result<(Option<Head>, Option<Head>), StoreRefused>
    requires { IsSettled (D.history disk.old) }
    ensures still { Still (D.history disk.old) (D.history disk.new) }
    ensures heads { IfOk result (λ r. Heads (D.history disk.old) r.0 r.1) }
    ensures refused { IfErr result (TakeCause (D.history disk.old) (D.history disk.new)) }
{
    let first = head_of(disk, 0)?;
    let second = head_of(disk, 1)?;
    Ok((first, second))
}

// The one of the greater generation.
fn pick(first: Option<Head>, second: Option<Head>) -> Option<(u8, Head)>
    ensures { result ≡ pick_of first second }
{
    match (first, second) {
        (None, None) => None,
        (Some(h), None) => Some((0, h)),
        (None, Some(i)) => Some((1, i)),
        (Some(h), Some(i)) => {
            if i.generation < h.generation {
                Some((0, h))
            } else {
                Some((1, i))
            }
        }
    }
}
