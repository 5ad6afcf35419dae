// Where a record of a log is damaged that cannot be run.
ghost use Rattle.std.specs.Prelude.{◌≡◌, ◌<◌};
ghost use Rattle.disk_model.specs.Histories.{Still};
ghost use Rattle.store_openings.specs.Openings.{offset_at};
ghost use Rattle.store_openings.specs.Runs.{IsLook};

use crate::refusals::NotOpened;
use disk_model::{Disk, LogRefused};
use input_log::{Payload, scan};
use std::alloc::Global;

/// The damage of the record at this place of a log, by a second look at the log for its offset. It writes
/// nothing.
pub fn damage_at<D: Disk>(alloc: Global, disk: &mut D, log: u8, place: usize) -> NotOpened
    requires { log < 4 }
    ensures still { Still (D.history disk.old) (D.history disk.new) }
    ensures look { IsLook (D.history disk.old) (D.history disk.new) log place result }
{
    match scan(alloc, disk, log) {
        Ok((payloads, _)) => NotOpened::Damaged {
            file: log,
            at: offset_at(payloads.as_slice(), place),
        },
        Err(LogRefused::Memory) => NotOpened::NoMemory,
        Err(LogRefused::DiskFault) => NotOpened::NoDisk,
        Err(LogRefused::Damaged { file, at }) => NotOpened::Damaged { file, at },
    }
}

/// The offset of the record at this place, 0 where there is none. No memory.
fn offset_at(payloads: &[Payload], place: usize) -> u64
    ensures { result ≡ offset_at payloads.now place }
{
    match payloads.get(place) {
        Some(payload) => payload.at,
        None => 0,
    }
}
