// A log in one file of a disk: records are added at its end, and read from its beginning.
ghost use Rattle.std.specs.Prelude.{◌≡◌, ◌⊎◌, ◌*◌, ◌+◌, ◌<◌, ◌≤◌, ◌++◌, [], ◌∷◌, List, length, take, drop, IfOk, IfErr, OnOk, OnErr, IfSome, option_map};
ghost use Rattle.aria_base.specs.Faults.{one_more};
ghost use Rattle.disk_model.specs.Files.{untouched, put, loosened};
ghost use Rattle.disk_model.specs.Histories.{current, EachImage, HasImage, IsStable, Leaves, Still};
ghost use Rattle.input_log.specs.Layout.{Ends, log_of, next_of, next_is, with_record, behind_gate, record_bytes, EndsAt, IsWithOrWithout};
ghost use Rattle.disk_model.specs.Causes.{WriteCause, FaultOnly, NoDamage};
ghost use Rattle.input_log.specs.Causes.{ReadCause, GateCause};
ghost use Rattle.input_log.specs.declared.limits.TheConstants.{MOST_BEFORE, MOST_PAYLOAD};

use aria_base::Bytes;
use byteorder::{ByteOrder, LittleEndian};
use disk_model::{Disk, LogRefused, OPEN, SHUT, write_synced};
use std::alloc::{AllocError, Global};

/// How many bytes the payload's length has.
const LENGTH_BYTES: usize = 4;

/// Where a log ends: the first closed gate of a file, and how many records stand before it.
#[derive(Clone, Copy, Debug, PartialEq, Eq)]
pub struct LogEnd {
    /// The file of the disk, from 0 to 3.
    pub file: u8,
    /// The offset of the closed gate.
    pub at: u64,
    /// How many records stand before it, one for each batch.
    pub batches: u64,
}

/// A record of a log.
#[derive(Debug, Drop)]
pub struct Payload {
    /// The offset of the record's gate.
    pub at: u64,
    /// What the record holds.
    pub bytes: Bytes,
}

/// Makes a log without batches, synced, in a file from 0 to 3. The one refusal is `DiskFault`, where a call
/// on the disk failed.
pub fn fresh<D: Disk>(disk: &mut D, file: u8) -> Result<LogEnd, LogRefused>
    requires { file < 4 }
    ensures end { IfOk result (λ end. end ≡ record { file = file; at = 0; batches = 0 }) }
    ensures bytes { OnOk result (current (D.history disk.new) file ≡ option_map (λ f. untouched (put f.seen 0 (0 ∷ []))) (current (D.history disk.old) file)) }
    ensures ends { OnOk result (EachImage (current (D.history disk.new) file) (λ image. EndsAt image 0 0)) }
    ensures stable { OnOk result (IsStable (current (D.history disk.new) file)) }
    ensures images { Leaves (D.history disk.old) (D.history disk.new) file (HasImage (option_map (loosened 0 1) (current (D.history disk.old) file))) }
    ensures calls { (D.history disk.new).now ≤ (D.history disk.old).now + 2 }
    ensures refused { IfErr result (FaultOnly (D.history disk.old) (D.history disk.new)) }
{
    write_synced(disk, file, 0, &[SHUT])?;
    Ok(LogEnd {
        file,
        at: 0,
        batches: 0,
    })
}

/// Adds a record at the end of a log, by four device calls: the record behind the closed gate and a closed
/// gate behind it, and once they are synced the opened gate. The log has at most
/// [`MOST_BEFORE`](crate::MOST_BEFORE) bytes before, and the payload at most
/// [`MOST_PAYLOAD`](crate::MOST_PAYLOAD).
///
/// After a refusal the end is as before. `Memory` comes before the first device call. `DiskFault` comes
/// where a call on the disk failed, and the record may be there or not.
pub fn append<D: Disk>(
    alloc: Global,
    end: &mut LogEnd,
    disk: &mut D,
    payload: &[u8],
) -> Result<(), LogRefused>
    requires file { end.old.file < 4 }
    requires ends { EachImage (current (D.history disk.old) end.old.file) (λ image. EndsAt image end.old.at end.old.batches) }
    requires short { end.old.at ≤ MOST_BEFORE }
    requires payload { length payload.now ≤ MOST_PAYLOAD }

    // A stop at any moment leaves the payloads from before, with this one or without.
    ensures images { Leaves (D.history disk.old) (D.history disk.new) end.old.file (IsWithOrWithout (current (D.history disk.old) end.old.file) payload.now) }

    // After Ok the record and a closed gate stand where the log ended, each image has it, and the end stands at that gate.
    ensures bytes { OnOk result (current (D.history disk.new) end.old.file ≡ option_map (λ f. untouched (put f.seen end.old.at (record_bytes payload.now))) (current (D.history disk.old) end.old.file)) }
    ensures stored { OnOk result (IfSome (current (D.history disk.old) end.old.file) (λ f. EachImage (current (D.history disk.new) end.old.file) (λ image. log_of image ≡ with_record payload.now (log_of f.seen)))) }
    ensures stable { OnOk result (IsStable (current (D.history disk.new) end.old.file)) }
    ensures ends { OnOk result (EachImage (current (D.history disk.new) end.old.file) (λ image. EndsAt image end.new.at end.new.batches)) }
    ensures end { OnOk result (end.new ≡ record { file = end.old.file; at = end.old.at + 5 + length payload.now; batches = one_more end.old.batches }) }
    ensures counted { OnOk result (IfSome (current (D.history disk.old) end.old.file) (λ _. end.new.batches ≡ end.old.batches + 1)) }
    ensures end_stays { OnErr result (end.new ≡ end.old) }
    ensures calls { (D.history disk.new).now ≤ (D.history disk.old).now + 4 }
    ensures refused { IfErr result (WriteCause D.history disk.old disk.new) }
{
    let record = behind_gate(alloc, payload)?;
    write_synced(disk, end.file, end.at + 1, &record)?;
    write_synced(disk, end.file, end.at, &[OPEN])?;
    end.at += 1 + (LENGTH_BYTES + payload.len()) as u64;
    end.batches = end.batches.saturating_add(1);
    Ok(())
}

// The payload's length, the payload and a closed gate.
fn behind_gate(alloc: Global, payload: &[u8]) -> Result<Vec<u8>, AllocError>
    requires { length payload.now ≤ MOST_PAYLOAD }
    ensures { IfOk result (λ v. v.items ≡ behind_gate payload.now) }
{
    let mut len = [0; LENGTH_BYTES];
    LittleEndian::write_u32(&mut len, payload.len() as u32);
    let mut record = Vec::with_capacity(alloc, LENGTH_BYTES + payload.len() + 1)?;
    record.extend_from_slice(&len)?;
    record.extend_from_slice(payload)?;
    record.push(SHUT)?;
    Ok(record)
}

/// Reads all payloads up to the first closed gate, of a log in a file from 0 to 3. It repairs nothing.
///
/// `Damaged` has the offset of the first gate that is not there, or that is open while the file ends before
/// the next one. `DiskFault` comes only where a call on the disk failed, and `Memory` where there was none
/// for the payloads.
pub fn scan<D: Disk>(
    alloc: Global,
    disk: &mut D,
    file: u8,
) -> Result<(Vec<Payload>, LogEnd), LogRefused>
    requires { file < 4 }
    ensures log { IfOk result (λ found. IfSome (current (D.history disk.old) file) (λ f. log_of f.seen ≡ Ends found.0.items found.1.at)) }
    ensures end { IfOk result (λ found. (found.1.file ≡ file) × (found.1.batches ≡ length found.0.items)) }
    ensures empty { IfOk result (λ found. found.1.batches ≡ 0 → found.1.at ≡ 0) }
    ensures still { Still (D.history disk.old) (D.history disk.new) }

    // Where what a read gives is the only image, records can be added at the end.
    ensures ends { IfOk result (λ found. IsStable (current (D.history disk.old) file) → EachImage (current (D.history disk.new) file) (λ image. EndsAt image found.1.at found.1.batches)) }
    ensures refused { IfErr result (ReadCause (D.history disk.old) (D.history disk.new) file) }
{
    let len = disk.len(file)?;
    let mut payloads = Vec::new(alloc);
    let mut at = 0;
    while let Some(bytes) = read_record(alloc, disk, file, at, len)? {
        let next = at + 1 + (LENGTH_BYTES + bytes.as_slice().len()) as u64;
        payloads.push(Payload { at, bytes })?;
        at = next;
    }
    let batches = payloads.len() as u64;
    Ok((payloads, LogEnd { file, at, batches }))
}

// The payload of the record at an open gate, or None at a closed one.
fn read_record<D: Disk>(
    alloc: Global,
    disk: &mut D,
    file: u8,
    at: u64,
    len: u64,
) -> Result<Option<Bytes>, LogRefused>
    requires file { file < 4 }
    requires at { at ≤ len }
    requires len { IfSome (current (D.history disk.old) file) (λ f. len ≡ length f.seen) }
    ensures next { IfOk result (λ found. IfSome (current (D.history disk.old) file) (λ f. next_of (drop at f.seen) ≡ next_is found)) }
    ensures within { IfOk result (λ found. IfSome found (λ payload. at + 5 + length payload < len)) }
    ensures still { Still (D.history disk.old) (D.history disk.new) }
    ensures refused { IfErr result (GateCause (D.history disk.old) (D.history disk.new) file at) }
{
    let rest = len - at;
    if rest == 0 {
        return Err(LogRefused::Damaged { file, at });
    }
    let mut gate = [SHUT];
    disk.read_at(file, at, &mut gate)?;
    if gate[0] != OPEN {
        return Ok(None);
    }
    if rest <= 5 {
        return Err(LogRefused::Damaged { file, at });
    }
    let mut size = [0; LENGTH_BYTES];
    disk.read_at(file, at + 1, &mut size)?;
    let size = LittleEndian::read_u32(&size);
    if rest - 5 <= size as u64 {
        return Err(LogRefused::Damaged { file, at });
    }
    let payload = read_bytes(alloc, disk, file, at + 5, size as usize)?;
    Ok(Some(Bytes::from_vec(payload)))
}

// So many bytes of a file from an offset on.
fn read_bytes<D: Disk>(
    alloc: Global,
    disk: &mut D,
    file: u8,
    at: u64,
    len: usize,
) -> Result<Vec<u8>, LogRefused>
    requires file { file < 4 }
    requires within { IfSome (current (D.history disk.old) file) (λ f. at + len ≤ length f.seen) }
    ensures bytes { IfOk result (λ v. IfSome (current (D.history disk.old) file) (λ f. v.items ≡ take len (drop at f.seen))) }
    ensures len { IfOk result (λ v. length v.items ≡ len) }
    ensures still { Still (D.history disk.old) (D.history disk.new) }
    ensures refused { IfErr result (NoDamage (D.history disk.old) (D.history disk.new)) }
{
    let mut bytes = vec![in alloc; 0; len]?;
    disk.read_at(file, at, &mut bytes)?;
    Ok(bytes)
}
