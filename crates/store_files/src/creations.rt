// Syncs, and the first checkpoint.
ghost use Rattle.std.specs.Prelude.{◌≡◌, ◌+◌, ◌<◌, ◌≤◌, ◌^◌, [], length, IfOk, IfErr, OnOk, OnErr};
ghost use Rattle.aria_base.specs.Faults.{Rose};
ghost use Rattle.disk_model.specs.Causes.{FaultOnly};
ghost use Rattle.disk_model.specs.Histories.{current, EachImage, HasImage, IsStable, MayLeave, Leaves, LeavesAll};
ghost use Rattle.input_log.specs.Layout.{Ends};
ghost use Rattle.checkpoint.specs.Damage.{IsSound};
ghost use Rattle.checkpoint.specs.Gates.{IsShut};
ghost use Rattle.store_files.specs.Attachments.{ReadsAlike};
ghost use Rattle.store_files.specs.Holdings.{Holds, IsSettled};

use aria_base::Failed;
use checkpoint::{Head, blank, lay, show};
use disk_model::{Disk, LogRefused};
use input_log::{LogEnd, fresh};

// Syncs a file: every image meanwhile is one from before, and what a read of each file gives stays.
fn sync_one<D: Disk>(disk: &mut D, file: u8) -> Result<(), Failed>
    requires { file < 4 }
    ensures images { Leaves (D.history disk.old) (D.history disk.new) file (HasImage (current (D.history disk.old) file)) }
    ensures stable { OnOk result (IsStable (current (D.history disk.new) file)) }
    ensures reads { ReadsAlike (D.history disk.old) (D.history disk.new) }
    ensures cause { OnErr result (Rose (D.history disk.old).faults (D.history disk.new).faults) }
{
    disk.sync(file)
}

/// Syncs the four files: every image meanwhile is one from before, and afterwards the only image of each
/// file is what a read gives, which is what it gave before. `Failed` comes only where a call on the disk
/// failed.
pub fn sync_all<D: Disk>(disk: &mut D) -> Result<(), Failed>
    ensures images { LeavesAll (D.history disk.old) (D.history disk.new) (MayLeave (D.history disk.old) (D.history disk.old).now) }
    ensures reads { ReadsAlike (D.history disk.old) (D.history disk.new) }
    ensures settled { OnOk result (IsSettled (D.history disk.new)) }
    ensures cause { OnErr result (Rose (D.history disk.old).faults (D.history disk.new).faults) }
{
    sync_one(disk, 0)?;
    sync_one(disk, 1)?;
    sync_one(disk, 2)?;
    sync_one(disk, 3)?;
    Ok(())
}

/// Shuts both gates, whatever the files hold. The one refusal is `DiskFault`, where a call on the disk
/// failed.
pub fn shut_both<D: Disk>(disk: &mut D) -> Result<(), LogRefused>
    requires { IsSettled (D.history disk.old) }
    ensures settled { OnOk result (IsSettled (D.history disk.new)) }
    ensures first { OnOk result (EachImage (current (D.history disk.new) 0) IsShut) }
    ensures second { OnOk result (EachImage (current (D.history disk.new) 1) IsShut) }
    ensures faults { (D.history disk.old).faults ≤ (D.history disk.new).faults }
    ensures refused { IfErr result (FaultOnly (D.history disk.old) (D.history disk.new)) }
{
    blank(disk, 0)?;
    blank(disk, 1)
}

/// Puts the first checkpoint into slot 1, where both gates are shut. The one refusal is `DiskFault`, where a
/// call on the disk failed.
pub fn put_first<D: Disk>(disk: &mut D, head: &Head, body: &[u8]) -> Result<LogEnd, LogRefused>
    requires settled { IsSettled (D.history disk.old) }
    requires first { EachImage (current (D.history disk.old) 0) IsShut }
    requires second { EachImage (current (D.history disk.old) 1) IsShut }
    requires sound { IsSound 1 head.now }
    requires body { length body.now < 256 ^ 8 }
    ensures holds { OnOk result (Holds (D.history disk.new) 1 head.now body.now (Ends [] 0)) }
    ensures settled { OnOk result (IsSettled (D.history disk.new)) }
    ensures end { IfOk result (λ end. end ≡ record { file = 3; at = 0; batches = 0 }) }
    ensures refused { IfErr result (FaultOnly (D.history disk.old) (D.history disk.new)) }
{
    lay(disk, 1, head, body)?;
    let end = fresh(disk, 3)?;
    show(disk, 1)?;
    Ok(end)
}
