// Loading the image of a slot.
ghost use Rattle.std.specs.Prelude.{◌≡◌, ◌<◌, ◌≤◌, IfOk, IfErr, IfSome, option_map};
ghost use Rattle.disk_model.specs.Histories.{current, Still};
ghost use Rattle.slot_images.specs.Images.{FileReads, reading_of};
ghost use Rattle.slot_images.specs.Said.{checkpoint_in, IsInOrder};
ghost use Rattle.slot_images.specs.Causes.{LoadCause};

use crate::images::{Image, image_of};
use aria_base::Memory;
use checkpoint::{FRONT, read_slot};
use disk_model::{Disk, LogRefused};
use std::alloc::Global;

/// The image of a slot's file; None exactly where the gate is closed or the file has no bytes.
/// `Damaged` names the first offset at which an open slot cannot be what it should be; `DiskFault`
/// comes only where the disk's count of faults rose. No image of any file changes.
pub fn load<D: Disk>(alloc: Global, disk: &mut D, slot: u8) -> Result<Option<Image>, LogRefused>
    requires { slot < 2 }
    ensures image { IfOk result (λ found. IfSome (current (D.history disk.old) slot) (λ f. FileReads slot f.seen (reading_of (option_map checkpoint_in found)))) }
    ensures in_order { IfOk result (λ found. IfSome found (λ image. IsInOrder slot (checkpoint_in image))) }
    ensures still { Still (D.history disk.old) (D.history disk.new) }
    ensures refused { IfErr result (LoadCause (D.history disk.old) (D.history disk.new) slot) }
{
    let Some((head, body)) = read_slot(alloc, disk, slot)? else {
        return Ok(None);
    };
    match image_of(alloc, &head, body.as_slice()) {
        Ok(Some(image)) => Ok(Some(image)),
        Ok(None) => Err(LogRefused::Damaged {
            file: slot,
            at: FRONT as u64,
        }),
        Err(Memory) => Err(LogRefused::Memory),
    }
}
