// What the tests share.
use aria_store::{Store, StoreRefused};
use disk_model::MemDisk;
use std::alloc::Global;
use std::fmt::Debug;
use std::process::Abort;
use std::test::Fail;

/// A slot 1 with format 2, the rule reorder, fallback 101, generation 1, no batches and no requests. Its
/// body of 88 bytes is a catalogue with one procedure of a number.
pub const SLOT: [u8; 128] =
    *b"\x01ARIA\x02\x01\x65\x01\0\0\0\0\0\0\0\0\0\0\0\0\0\0\0\0\0\0\0\0\0\0\0\x58\0\0\0\0\0\0\0catalog text\n:{\"procs\":[{\"args\":[\"int\"],\"body\":[],\"name\":\"add\",\"regs\":[]}],\"tables\":[]}\n";

/// What attaching finds.
#[derive(Clone, Copy, Debug, PartialEq, Eq)]
pub enum Seen {
    /// A store: the checkpoint's generation, how many batches stand in the log, where it ends, and how
    /// many calls they have in all.
    Stands(u64, u64, u64, u64),
    NoStore,
    Damaged(u8, u64),
}

/// Asserts that what was found in this case is what was worked out for it. An assertion in place costs
/// its function several seconds of proof, and a call of this one next to none.
pub fn same<T: PartialEq + Debug>(rt: &impl Abort, case: &impl Debug, found: &T, wanted: &T) {
    assert_eq!(rt; found, wanted, "at {case:?}");
}

/// A disk with these files.
pub fn disk_of(alloc: Global, files: [&[u8]; 4]) -> Result<MemDisk, Fail> {
    Ok(MemDisk::of(
        alloc,
        files[0].to_vec(alloc)?,
        files[1].to_vec(alloc)?,
        files[2].to_vec(alloc)?,
        files[3].to_vec(alloc)?,
        1000,
        1_000_000,
        Vec::new(alloc),
    )?)
}

/// What attaching to a disk finds.
pub fn found_on(alloc: Global, disk: &mut MemDisk) -> Result<Seen, Fail> {
    match Store::attach(alloc, disk) {
        Ok((store, found)) => {
            let mut calls: u64 = 0;
            for batch in &found.later {
                calls = calls.saturating_add(batch.calls.len() as u64);
            }
            Ok(Seen::Stands(
                found.image.generation,
                store.log_batches(),
                store.log_len(),
                calls,
            ))
        }
        Err(StoreRefused::NoStore) => Ok(Seen::NoStore),
        Err(StoreRefused::Damaged { file, at }) => Ok(Seen::Damaged(file, at)),
        Err(StoreRefused::Memory) => Err(Fail::new("there is memory")),
        Err(_) => Err(Fail::new("no call of the disk fails")),
    }
}
