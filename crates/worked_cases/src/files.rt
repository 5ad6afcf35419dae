// The four files of a store between two steps.
use crate::cases::{Change, File};
use aria_base::Memory;
use disk_model::MemDisk;
use std::alloc::Global;

/// How many calls a step makes on the disk at most, and how many bytes it writes: more than any case.
const MOST_CALLS: u32 = 10_000;

const MOST_WRITTEN: usize = 2_000_000;

/// The bytes of the four files.
#[derive(Drop)]
pub struct Files {
    ckpt0: Vec<u8>,
    ckpt1: Vec<u8>,
    log0: Vec<u8>,
    log1: Vec<u8>,
}

impl Files {
    /// Four empty files.
    pub fn new(alloc: Global) -> Files {
        Files {
            ckpt0: Vec::new(alloc),
            ckpt1: Vec::new(alloc),
            log0: Vec::new(alloc),
            log1: Vec::new(alloc),
        }
    }

    /// A copy of the four.
    pub fn copied(&self, alloc: Global) -> Result<Files, Memory> {
        Ok(Files {
            ckpt0: Vec::from_slice(alloc, &self.ckpt0)?,
            ckpt1: Vec::from_slice(alloc, &self.ckpt1)?,
            log0: Vec::from_slice(alloc, &self.log0)?,
            log1: Vec::from_slice(alloc, &self.log1)?,
        })
    }

    /// A disk with these files.
    pub fn disk(&self, alloc: Global) -> Result<MemDisk, Memory> {
        MemDisk::of(
            alloc,
            Vec::from_slice(alloc, &self.ckpt0)?,
            Vec::from_slice(alloc, &self.ckpt1)?,
            Vec::from_slice(alloc, &self.log0)?,
            Vec::from_slice(alloc, &self.log1)?,
            MOST_CALLS,
            MOST_WRITTEN,
            Vec::new(alloc),
        )
    }

    /// The files of a disk.
    pub fn of_disk(alloc: Global, disk: &MemDisk) -> Result<Files, Memory> {
        Ok(Files {
            ckpt0: Vec::from_slice(alloc, disk.bytes(0))?,
            ckpt1: Vec::from_slice(alloc, disk.bytes(1))?,
            log0: Vec::from_slice(alloc, disk.bytes(2))?,
            log1: Vec::from_slice(alloc, disk.bytes(3))?,
        })
    }

    /// The bytes of one of them.
    pub fn file(&self, file: File) -> &[u8] {
        match file {
            File::Ckpt0 => self.ckpt0.as_slice(),
            File::Ckpt1 => self.ckpt1.as_slice(),
            File::Log0 => self.log0.as_slice(),
            File::Log1 => self.log1.as_slice(),
        }
    }

    /// One of them, to be changed.
    fn file_mut(&mut self, file: File) -> &mut Vec<u8> {
        match file {
            File::Ckpt0 => &mut self.ckpt0,
            File::Ckpt1 => &mut self.ckpt1,
            File::Log0 => &mut self.log0,
            File::Log1 => &mut self.log1,
        }
    }

    /// Whether both have the same bytes.
    pub fn is_same(&self, other: &Files) -> bool {
        self.ckpt0.as_slice() == other.ckpt0.as_slice()
            && self.ckpt1.as_slice() == other.ckpt1.as_slice()
            && self.log0.as_slice() == other.log0.as_slice()
            && self.log1.as_slice() == other.log1.as_slice()
    }
}

/// The files of a case while it runs, and those that were remembered.
#[derive(Drop)]
pub struct Shelf {
    pub now: Files,
    kept: Files,
}

impl Shelf {
    /// Empty files, and empty ones that were remembered.
    pub fn new(alloc: Global) -> Shelf {
        Shelf {
            now: Files::new(alloc),
            kept: Files::new(alloc),
        }
    }

    /// Makes the changes, and tells whether each of them lies within its file.
    pub fn change(&mut self, alloc: Global, changes: &[Change]) -> Result<bool, Memory> {
        let mut fits = true;
        for change in changes {
            if !self.change_one(alloc, change)? {
                fits = false;
            }
        }
        Ok(fits)
    }

    /// Makes one change, and tells whether it lies within its file.
    fn change_one(&mut self, alloc: Global, change: &Change) -> Result<bool, Memory> {
        match change {
            Change::Write { file, bytes } => {
                *self.now.file_mut(*file) = Vec::from_slice(alloc, bytes)?;
                Ok(true)
            }
            Change::Patch { file, at, bytes } => Ok(patch(self.now.file_mut(*file), *at, bytes)),
            Change::Cut { file, len } => Ok(cut(self.now.file_mut(*file), *len)),
            Change::Keep => {
                self.kept = self.now.copied(alloc)?;
                Ok(true)
            }
            Change::Back => {
                self.now = self.kept.copied(alloc)?;
                Ok(true)
            }
        }
    }
}

/// Puts other bytes from an offset on, and tells whether they lie within the file.
fn patch(file: &mut Vec<u8>, at: usize, bytes: &[u8]) -> bool {
    let mut place = at;
    for byte in bytes {
        match file.get_mut(place) {
            Some(old) => *old = *byte,
            None => return false,
        }
        place = place.wrapping_add(1);
    }
    true
}

/// Cuts a file, and tells whether it was longer.
fn cut(file: &mut Vec<u8>, len: usize) -> bool {
    let fits = len < file.len();
    file.truncate(len);
    fits
}
