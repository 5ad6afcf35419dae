// The next checkpoint, in the slot that is not taken.
ghost use Rattle.std.specs.Prelude.{◌≡◌, ℕ, ◌⊎◌, ◌+◌, ◌-◌, ◌<◌, ◌^◌, [], List, length, IfOk, IfErr, OnOk};
ghost use Rattle.disk_model.specs.Causes.{FaultOnly};
ghost use Rattle.disk_model.specs.Histories.{LeavesAll};
ghost use Rattle.input_log.specs.Layout.{Log, Ends};
ghost use Rattle.checkpoint.specs.Damage.{IsSound};
ghost use Rattle.checkpoint.specs.declared.heads.Head.{Head as Front};
ghost use Rattle.store_files.specs.Openings.{Taken, opened_of};
ghost use Rattle.store_files.specs.Holdings.{Holds, HoldsLower, IsSettled};

use checkpoint::{Head, lay, show, shut};
use disk_model::{Disk, LogRefused};
use input_log::{LogEnd, fresh};

/// Puts a checkpoint into the slot that is not taken, with an empty log. The one refusal is `DiskFault`,
/// where a call on the disk failed: then what was held or the new checkpoint stands there.
pub fn replace<D: Disk>(
    disk: &mut D,
    slot: u8,
    head: &Head,
    body: &[u8],
) -> Result<LogEnd, LogRefused>
    requires slot { slot < 2 }
    requires settled { IsSettled (D.history disk.old) }
    requires holds { HoldsLower (D.history disk.old) slot head.now.generation }
    requires sound { IsSound (1 - slot) head.now }
    requires body { length body.now < 256 ^ 8 }

    // A stop at any moment leaves what was held, or the new checkpoint with an empty log.
    ensures images { (h : Front) (b : List ℕ) (log : Log) → Holds (D.history disk.old) slot h b log → h.generation < head.now.generation → LeavesAll (D.history disk.old) (D.history disk.new) (λ images. (opened_of images ≡ Taken slot h b log) ⊎ (opened_of images ≡ Taken (1 - slot) head.now body.now (Ends [] 0))) }

    // After Ok the disk holds the new one.
    ensures holds { OnOk result (Holds (D.history disk.new) (1 - slot) head.now body.now (Ends [] 0)) }
    ensures settled { OnOk result (IsSettled (D.history disk.new)) }
    ensures sound { OnOk result (IsSound (1 - slot) head.now) }
    ensures end { IfOk result (λ end. end ≡ record { file = 2 + (1 - slot); at = 0; batches = 0 }) }
    ensures refused { IfErr result (FaultOnly (D.history disk.old) (D.history disk.new)) }
{
    let next = 1 - slot;
    shut(disk, next)?;
    lay(disk, next, head, body)?;
    let end = fresh(disk, 2 + next)?;
    show(disk, next)?;
    Ok(end)
}
