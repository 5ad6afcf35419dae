// Whether the first checkpoint may be written.
ghost use Rattle.std.specs.Prelude.{◌≡◌, false, IfErr, OnOk};
ghost use Rattle.disk_model.specs.Histories.{Still};
ghost use Rattle.store_files.specs.Attachments.{IsTaken};
ghost use Rattle.aria_store.specs.Causes.{CreateCause};

use disk_model::Disk;
use store_files::{StoreRefused, is_taken};

/// Refuses to write over a store, unless that was asked for. It writes nothing. No memory.
pub fn may_write<D: Disk>(disk: &mut D, over: bool) -> Result<(), StoreRefused>
    ensures still { Still (D.history disk.old) (D.history disk.new) }
    ensures free { OnOk result (over ≡ false → IsTaken (D.history disk.old) false) }
    ensures refused { IfErr result (CreateCause (D.history disk.old) (D.history disk.new) over) }
{
    if over {
        return Ok(());
    }
    if is_taken(disk)? {
        return Err(StoreRefused::Exists);
    }
    Ok(())
}
