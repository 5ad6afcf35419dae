// Writing a slot: its gate, and what stands behind it.
ghost use Rattle.std.specs.Prelude.{◌≡◌, ◌<◌, ◌≤◌, length, IfErr, OnOk, option_map};
ghost use Rattle.aria_base.specs.declared.limits.TheConstants.{MOST_PERCENT};
ghost use Rattle.disk_model.specs.Files.{untouched, loosened};
ghost use Rattle.disk_model.specs.Histories.{current, EachImage, HasImage, IsStable, Leaves};
ghost use Rattle.disk_model.specs.Causes.{FaultOnly};
ghost use Rattle.checkpoint.specs.Slots.{laid, opened, closed};
ghost use Rattle.checkpoint.specs.Gates.{IsShut, IsShutOrSame, IsShutOrOpened, shut_file};

use crate::heads::{FRONT, Head};
use disk_model::{Disk, LogRefused, OPEN, SHUT, write_synced};

/// Closes a slot's gate, whatever the file holds. Slots are 0 and 1. The one refusal is `DiskFault`, where a
/// call on the disk failed.
pub fn blank<D: Disk>(disk: &mut D, slot: u8) -> Result<(), LogRefused>
    requires { slot < 2 }
    ensures bytes { OnOk result (current (D.history disk.new) slot ≡ option_map (λ f. untouched (closed f.seen)) (current (D.history disk.old) slot)) }
    ensures shut { OnOk result (EachImage (current (D.history disk.new) slot) IsShut) }
    ensures stable { OnOk result (IsStable (current (D.history disk.new) slot)) }

    // A stop meanwhile leaves an image from before with any gate.
    ensures images { Leaves (D.history disk.old) (D.history disk.new) slot (HasImage (option_map (loosened 0 1) (current (D.history disk.old) slot))) }
    ensures refused { IfErr result (FaultOnly (D.history disk.old) (D.history disk.new)) }
{
    write_synced(disk, slot, 0, &[SHUT])?;
    Ok(())
}

/// Closes a slot's gate where it is open. A closed one is not written again: a stop could then show it open,
/// over what an interrupted call left behind it. The file has to have a byte, and nothing that is not
/// synced. The one refusal is `DiskFault`, where a call on the disk failed.
pub fn shut<D: Disk>(disk: &mut D, slot: u8) -> Result<(), LogRefused>
    requires slot { slot < 2 }
    requires some { EachImage (current (D.history disk.old) slot) (λ image. 0 < length image) }
    requires stable { IsStable (current (D.history disk.old) slot) }
    ensures bytes { OnOk result (current (D.history disk.new) slot ≡ option_map shut_file (current (D.history disk.old) slot)) }
    ensures shut { OnOk result (EachImage (current (D.history disk.new) slot) IsShut) }
    ensures still_stable { OnOk result (IsStable (current (D.history disk.new) slot)) }
    ensures images { Leaves (D.history disk.old) (D.history disk.new) slot (IsShutOrSame (current (D.history disk.old) slot)) }
    ensures refused { IfErr result (FaultOnly (D.history disk.old) (D.history disk.new)) }
{
    let mut gate = [SHUT];
    disk.read_at(slot, 0, &mut gate)?;
    if gate[0] != OPEN {
        return Ok(());
    }
    write_synced(disk, slot, 0, &[SHUT])?;
    Ok(())
}

/// Writes a head and a body behind a closed gate, which every image meanwhile has. The gate has to be closed
/// in every image before, so that the file has a byte; the head's fallback is at most 101. The one refusal
/// is `DiskFault`, where a call on the disk failed.
pub fn lay<D: Disk>(disk: &mut D, slot: u8, head: &Head, body: &[u8]) -> Result<(), LogRefused>
    requires slot { slot < 2 }
    requires shut { EachImage (current (D.history disk.old) slot) IsShut }
    requires fallback { head.now.fallback ≤ MOST_PERCENT }
    ensures bytes { OnOk result (current (D.history disk.new) slot ≡ option_map (λ f. untouched (laid head.now body.now f.seen)) (current (D.history disk.old) slot)) }
    ensures still_shut { OnOk result (EachImage (current (D.history disk.new) slot) IsShut) }
    ensures stable { OnOk result (IsStable (current (D.history disk.new) slot)) }
    ensures images { Leaves (D.history disk.old) (D.history disk.new) slot IsShut }
    ensures refused { IfErr result (FaultOnly (D.history disk.old) (D.history disk.new)) }
{
    let front = head.bytes(body.len() as u64);
    disk.write_at(slot, 1, &front)?;
    write_synced(disk, slot, FRONT as u64, body)?;
    Ok(())
}

/// Opens a slot's gate. Every image meanwhile has it closed, or shows what stands behind it. What stands
/// there has to be synced, behind a closed gate. The one refusal is `DiskFault`, where a call on the disk
/// failed.
pub fn show<D: Disk>(disk: &mut D, slot: u8) -> Result<(), LogRefused>
    requires slot { slot < 2 }
    requires shut { EachImage (current (D.history disk.old) slot) IsShut }
    requires stable { IsStable (current (D.history disk.old) slot) }
    ensures bytes { OnOk result (current (D.history disk.new) slot ≡ option_map (λ f. untouched (opened f.seen)) (current (D.history disk.old) slot)) }
    ensures still_stable { OnOk result (IsStable (current (D.history disk.new) slot)) }
    ensures images { Leaves (D.history disk.old) (D.history disk.new) slot (IsShutOrOpened (current (D.history disk.old) slot)) }
    ensures refused { IfErr result (FaultOnly (D.history disk.old) (D.history disk.new)) }
{
    write_synced(disk, slot, 0, &[OPEN])?;
    Ok(())
}
