// A disk over a folder.
ghost use Rattle.std.specs.Prelude.{◌≡◌, ◌≤◌, None, IfOk, OnErr};
ghost use Rattle.aria_base.specs.Faults.{Rose};

use crate::folders::{Fault, Folder};
use aria_base::{Failed, Memory};
use disk_model::Disk;
use std::alloc::Global;
use std::fs::Files;
use std::io;

/// A disk whose files are `ckpt0`, `ckpt1`, `log0` and `log1` of a folder. The folder and the files are
/// opened at the first call, and made where they are not there; until then nothing is touched. Each error of
/// the system is counted as a fault. It tells no content.
#[derive(Drop)]
pub struct DirDisk<R: Files> {
    folder: Folder<R>,
    faults: u64,
    last: Option<Fault>,
}

impl<R: Files + Drop> DirDisk<R> {
    /// The disk in the folder of this name, which is looked for from the folder that the program runs in.
    /// Nothing is touched yet, and no fault is counted. It answers `Memory` where there is no memory for the
    /// names of the files.
    pub fn new(alloc: Global, system: R, folder: &str) -> Result<Self, Memory>
        ensures { IfOk result (λ disk. (⟦<DirDisk<R> as Disk>⟧.history disk).faults ≡ 0) }
    {
        Ok(DirDisk {
            folder: Folder::new(alloc, system, folder)?,
            faults: 0,
            last: None,
        })
    }

    /// The path that the system's last error was at, and that error; none where no call had a fault. The path
    /// is that of a file, of the folder, or of the one that the folder lies in. The first call opens all files,
    /// and its error may be at another file than the one that the call was on.
    pub fn last_fault(&self) -> Option<(&str, io::Error)> {
        let fault = self.last?;
        Some((self.folder.path(fault.place), fault.error))
    }
}

/// The answer of a call on a file, whose fault is counted and kept.
fn counted<T>(
    answer: Result<T, Fault>,
    faults: &mut u64,
    last: &mut Option<Fault>,
) -> Result<T, Failed>
    ensures kept { IfOk result (λ _. faults.new ≡ faults.old) }
    ensures rose { OnErr result (Rose faults.old faults.new) }
    ensures more { faults.old ≤ faults.new }
{
    match answer {
        Ok(value) => Ok(value),
        Err(fault) => {
            *faults = faults.saturating_add(1);
            *last = Some(fault);
            Err(Failed)
        }
    }
}

impl<R: Files + Drop> Disk for DirDisk<R> {
    ghost history = { λ disk. record { now = 0; file_at = λ _ _. None; faults = disk.faults } };

    ghost reads = { λ disk moment file. tt };

    fn len(&mut self, file: u8) -> Result<u64, Failed> {
        counted(self.folder.len(file), &mut self.faults, &mut self.last)
    }

    fn read_at(&mut self, file: u8, at: u64, buf: &mut [u8]) -> Result<(), Failed> {
        counted(
            self.folder.read_at(file, at, buf),
            &mut self.faults,
            &mut self.last,
        )
    }

    fn write_at(&mut self, file: u8, at: u64, bytes: &[u8]) -> Result<(), Failed> {
        counted(
            self.folder.write_at(file, at, bytes),
            &mut self.faults,
            &mut self.last,
        )
    }

    fn sync(&mut self, file: u8) -> Result<(), Failed> {
        counted(self.folder.sync(file), &mut self.faults, &mut self.last)
    }

    fn faults(&self) -> u64 {
        self.faults
    }
}
