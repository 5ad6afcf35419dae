// Reading a slot: its head, and its body.
ghost use Rattle.std.specs.Prelude.{◌≡◌, ◌<◌, ◌≤◌, length, take, IfOk, IfErr, OnErr, IfSome};
ghost use Rattle.aria_base.specs.Faults.{Rose};
ghost use Rattle.disk_model.specs.Histories.{current, Still};
ghost use Rattle.checkpoint.specs.Heads.{fields_of};
ghost use Rattle.checkpoint.specs.Damage.{IsSound};
ghost use Rattle.checkpoint.specs.Slots.{slot_of, is_open, IsHead, IsLooked, IsRead};
ghost use Rattle.checkpoint.specs.Causes.{LookCause, ReadCause};

use crate::heads::{FRONT, Fields, Head};
use aria_base::{Bytes, Failed};
use disk_model::{Disk, LogRefused, OPEN, SHUT};
use std::alloc::Global;

/// A slot's head, where its gate is open; none where the gate is closed or the file has no bytes. Slots are
/// 0 and 1. No memory.
///
/// `Damaged` has the offset of what is wrong first: the file's length where that is under 40 bytes, the
/// offset of a field that cannot be, or 32 where the file ends within the body. `DiskFault` comes only where
/// a call on the disk failed.
pub fn head_of<D: Disk>(disk: &mut D, slot: u8) -> Result<Option<Head>, LogRefused>
    requires { slot < 2 }
    ensures head { IfOk result (λ found. IfSome (current (D.history disk.old) slot) (λ f. IsHead found (slot_of slot f.seen))) }
    ensures sound { IfOk result (λ found. IfSome found (IsSound slot)) }
    ensures still { Still (D.history disk.old) (D.history disk.new) }
    ensures refused { IfErr result (LookCause (D.history disk.old) (D.history disk.new) slot) }
{
    match look(disk, slot)? {
        Some((head, _)) => Ok(Some(head)),
        None => Ok(None),
    }
}

/// A slot's head and body, where its gate is open; none where the gate is closed or the file has no bytes.
/// Slots are 0 and 1.
///
/// `Damaged` has the offset of what is wrong first: the file's length where that is under 40 bytes, the
/// offset of a field of the head that cannot be, or 32 where the file ends within the body. `DiskFault`
/// comes only where a call on the disk failed, and `Memory` where there was none for the body.
pub fn read_slot<D: Disk>(
    alloc: Global,
    disk: &mut D,
    slot: u8,
) -> Result<Option<(Head, Bytes)>, LogRefused>
    requires { slot < 2 }
    ensures slot { IfOk result (λ found. IfSome (current (D.history disk.old) slot) (λ f. IsRead found (slot_of slot f.seen))) }
    ensures sound { IfOk result (λ found. IfSome found (λ r. IsSound slot r.0)) }
    ensures still { Still (D.history disk.old) (D.history disk.new) }
    ensures refused { IfErr result (ReadCause (D.history disk.old) (D.history disk.new) slot) }
{
    match look(disk, slot)? {
        Some((head, len)) => {
            let mut body = vec![in alloc; 0; len]?;
            disk.read_at(slot, FRONT as u64, &mut body)?;
            Ok(Some((head, Bytes::from_vec(body))))
        }
        None => Ok(None),
    }
}

// A slot's head, and the length of the body behind it.
fn look<D: Disk>(disk: &mut D, slot: u8) -> Result<Option<(Head, usize)>, LogRefused>
    requires { slot < 2 }
    ensures slot { IfOk result (λ found. IfSome (current (D.history disk.old) slot) (λ f. IsLooked found slot f.seen)) }
    ensures sound { IfOk result (λ found. IfSome found (λ r. IsSound slot r.0)) }
    ensures still { Still (D.history disk.old) (D.history disk.new) }
    ensures refused { IfErr result (LookCause (D.history disk.old) (D.history disk.new) slot) }
{
    let len = disk.len(slot)?;
    if !gate_open(disk, slot, len)? {
        return Ok(None);
    }
    if len < FRONT as u64 {
        return Err(LogRefused::Damaged {
            file: slot,
            at: len,
        });
    }
    let fields = read_fields(disk, slot)?;
    if let Some(at) = fields.first_fault(slot) {
        return Err(LogRefused::Damaged { file: slot, at });
    }
    if len - (FRONT as u64) < fields.body {
        return Err(LogRefused::Damaged { file: slot, at: 32 });
    }
    Ok(Some((fields.head(), fields.body as usize)))
}

// Whether the gate is open.
fn gate_open<D: Disk>(disk: &mut D, slot: u8, len: u64) -> Result<bool, Failed>
    requires slot { slot < 2 }
    requires len { IfSome (current (D.history disk.old) slot) (λ f. len ≡ length f.seen) }
    ensures open { IfOk result (λ shown. IfSome (current (D.history disk.old) slot) (λ f. shown ≡ is_open f.seen)) }
    ensures still { Still (D.history disk.old) (D.history disk.new) }
    ensures cause { OnErr result (Rose (D.history disk.old).faults (D.history disk.new).faults) }
{
    if len == 0 {
        return Ok(false);
    }
    let mut gate = [SHUT];
    disk.read_at(slot, 0, &mut gate)?;
    Ok(gate[0] == OPEN)
}

// What the first 40 bytes of a file say.
fn read_fields<D: Disk>(disk: &mut D, slot: u8) -> Result<Fields, Failed>
    requires slot { slot < 2 }
    requires long { IfSome (current (D.history disk.old) slot) (λ f. 40 ≤ length f.seen) }
    ensures fields { IfOk result (λ read. IfSome (current (D.history disk.old) slot) (λ f. read ≡ fields_of (take 40 f.seen))) }
    ensures still { Still (D.history disk.old) (D.history disk.new) }
    ensures cause { OnErr result (Rose (D.history disk.old).faults (D.history disk.new).faults) }
{
    let mut front = [0; FRONT];
    disk.read_at(slot, 0, &mut front)?;
    Ok(Fields::of(&front))
}
