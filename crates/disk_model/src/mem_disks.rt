// A disk in memory, for tests: it fails where it is told to, and can be stopped after any call.
ghost use Rattle.std.specs.Prelude.{◌≡◌, ℕ, ◌+◌, ◌<◌, ◌≤◌, [], ◌∷◌, List, length, take, drop, is_ok, IfOk, OnOk, OnErr, IsTrue, IfSome, option_map, slice_index_or};
ghost use Rattle.aria_base.specs.Faults.{Rose, one_more};
ghost use Rattle.disk_model.specs.Files.{IsImage, wrote, settled, untouched};
ghost use Rattle.disk_model.specs.Histories.{current, Acts, IsStable, MayLose};
ghost use Rattle.disk_model.specs.Steps.{Idle, Wrote, Missed, Synced, IsQuiet, left_of};
ghost use Rattle.disk_model.specs.Recorded.{Recorded, history_of, file_now, file_after, passes, counts, noted, refused, called, left_disk, AreCopies};
ghost use Rattle.disk_model.specs.Tapes.{entry_bytes, step_of};

use crate::contents::Roomy;
use crate::disks::Disk;
use crate::tapes::{Entry, Tape};
use aria_base::{Bytes, Failed, Memory};
use std::alloc::{AllocError, Global};
use std::marker::Model;

/// Four files in memory with a record of all calls. It takes all its memory when it is made.
#[derive(Drop)]
pub struct MemDisk {
    start: Vec<Bytes>,
    files: Vec<Roomy>,
    tape: Tape,
    fails: Vec<u64>,
    faults: u64,
}

impl Model for MemDisk {
    ghost use Rattle.disk_model.specs.Recorded.{Recorded};

    ghost Value = { Recorded };

    ghost use Rattle.disk_model.specs.Recorded.{IsDisk};

    ghost view = { λ a. record { start = a.start.items; steps = a.tape.steps; calls = a.tape.calls; room = a.tape.room; fails = a.fails.items; faults = a.faults } };

    ghost invariant = { λ a. IsDisk a.start.items a.files.items a.tape };
}

// Fills the buffer with the bytes from an offset on.
fn copy_part(bytes: &[u8], at: usize, buf: &mut [u8])
    requires { at + length buf.old ≤ length bytes.now }
    ensures { buf.new ≡ take (length buf.old) (drop at bytes.now) }
{
    buf.copy_from_slice(&bytes[at..at + buf.len()]);
}

// A copy of each, with room for so many bytes more.
fn roomy_copies(alloc: Global, files: &[Bytes], room: usize) -> Result<Vec<Roomy>, AllocError>
    ensures { IfOk result (λ copies. AreCopies files.now room copies.items (length files.now)) }
{
    let mut copies = Vec::with_capacity(alloc, files.len())?;
    for file in files {
        copies.push(Roomy::copied(alloc, file.as_slice(), room)?)?;
    }
    Ok(copies)
}

impl MemDisk {
    /// Four empty files, and room for a history of `calls` calls that write `room` bytes together. A
    /// call fails where `fails` names it by its number, counted from 1, or where there is no room for
    /// it; all others succeed.
    pub fn new(alloc: Global, calls: u32, room: usize, fails: Vec<u64>) -> Result<MemDisk, Memory>
        ensures disk { IfOk result (λ d. d ≡ record { start = [] ∷ [] ∷ [] ∷ [] ∷ []; steps = []; calls = calls; room = room; fails = fails.items; faults = 0 }) }
        ensures stable { IfOk result (λ d. (file : ℕ) → IsStable (current (history_of d) file)) }
    {
        MemDisk::of(
            alloc,
            Vec::new(alloc),
            Vec::new(alloc),
            Vec::new(alloc),
            Vec::new(alloc),
            calls,
            room,
            fails,
        )
    }

    /// Four files with these bytes, synced, and room as in `new`.
    #[tactic(auto, using(crate::proofs::Images::new_stable))]
    pub fn of(
        alloc: Global,
        a: Vec<u8>,
        b: Vec<u8>,
        c: Vec<u8>,
        d: Vec<u8>,
        calls: u32,
        room: usize,
        fails: Vec<u64>,
    ) -> Result<MemDisk, Memory>
        ensures disk { IfOk result (λ disk. disk ≡ record { start = a.items ∷ b.items ∷ c.items ∷ d.items ∷ []; steps = []; calls = calls; room = room; fails = fails.items; faults = 0 }) }
        ensures stable { IfOk result (λ disk. (file : ℕ) → IsStable (current (history_of disk) file)) }
    {
        let start = vec![in alloc;
            Bytes::from_vec(a),
            Bytes::from_vec(b),
            Bytes::from_vec(c),
            Bytes::from_vec(d),
        ]?;
        let files = roomy_copies(alloc, &start, room)?;
        Ok(MemDisk {
            start,
            files,
            tape: Tape::new(alloc, calls, room)?,
            fails,
            faults: 0,
        })
    }

    /// How many calls were counted, failed ones included. A call past the number that there is room
    /// for is not.
    pub fn calls(&self) -> u64
        ensures { result ≡ length self.now.steps }
    {
        self.tape.len()
    }

    /// A file as it reads.
    pub fn bytes(&self, file: u8) -> &[u8]
        requires { file < 4 }
        ensures { result.now ≡ (file_now self.now file).seen }
    {
        self.files[file as usize].as_slice()
    }

    /// A disk with one of the images that a stop after the first `calls` calls may leave. Of the bytes
    /// that those calls wrote and did not sync it has all, where `kept` is true, or `fill` in the place
    /// of each. Its files keep their lengths, and there is as much room as this disk
    /// was made with.
    pub fn stopped(
        &self,
        alloc: Global,
        calls: u64,
        kept: bool,
        fill: u8,
    ) -> Result<MemDisk, Memory>
        requires { calls ≤ length self.now.steps }
        ensures disk { IfOk result (λ d. d ≡ left_disk kept fill calls self.now) }
        ensures stable { IfOk result (λ d. (file : ℕ) → IsStable (current (history_of d) file)) }
        ensures image { (file : ℕ) → IsImage (file_after calls self.now file) (left_of kept fill (file_after calls self.now file)) }
    {
        MemDisk::of(
            alloc,
            self.left(alloc, 0, calls, kept, fill)?,
            self.left(alloc, 1, calls, kept, fill)?,
            self.left(alloc, 2, calls, kept, fill)?,
            self.left(alloc, 3, calls, kept, fill)?,
            self.tape.calls(),
            self.tape.room(),
            Vec::new(alloc),
        )
    }

    // What a stop after so many calls leaves of one file.
    fn left(
        &self,
        alloc: Global,
        file: u8,
        calls: u64,
        kept: bool,
        fill: u8,
    ) -> Result<Vec<u8>, AllocError>
        requires file { file < 4 }
        requires calls { calls ≤ length self.now.steps }
        ensures { IfOk result (λ bytes. bytes.items ≡ left_of kept fill (file_after calls self.now file)) }
    {
        let start = self.start[file as usize].as_slice();
        self.tape
            .left(alloc, start, file, calls as usize, kept, fill)
    }

    // Whether the next call succeeds, where it writes so many bytes.
    fn passes(&self, len: usize) -> bool
        ensures { result ≡ passes self.now len }
    {
        let made = self.tape.len();
        made < self.tape.calls() as u64
            && !self.fails.contains(&(made + 1))
            && len <= self.tape.spare()
    }

    // Writes to a file, and notes it.
    fn overwrite(&mut self, file: u8, at: usize, bytes: &[u8])
        requires file { file < 4 }
        requires passes { IsTrue (passes self.old (length bytes.now)) }
        ensures { self.new ≡ noted (Wrote file at bytes.now) self.old }
    {
        self.files[file as usize].overwrite(at, bytes);
        self.tape.note_write(file, at, bytes);
    }

    // Notes a call that changes no file's bytes.
    fn note(&mut self, entry: Entry)
        requires none { entry_bytes entry ≡ 0 }
        requires quiet { IsQuiet (step_of entry []) }
        requires call { IsTrue (counts self.old) }
        ensures { self.new ≡ noted (step_of entry []) self.old }
    {
        self.tape.note(entry);
    }

    // Counts a call that fails, and the fault.
    fn refuse(&mut self, missed: Entry) -> Failed
        requires none { entry_bytes missed ≡ 0 }
        requires quiet { IsQuiet (step_of missed []) }
        ensures refused { self.new ≡ refused (step_of missed []) self.old }
        ensures faults { self.old.faults ≤ self.new.faults }
    {
        self.faults = self.faults.saturating_add(1);
        if self.tape.len() >= self.tape.calls() as u64 {
            return Failed;
        }
        self.tape.note(missed);
        Failed
    }
}

impl Disk for MemDisk {
    ghost use Rattle.disk_model.specs.Readings.{reads_image};

    ghost history = { history_of };

    ghost reads = { reads_image };

    fn len(&mut self, file: u8) -> Result<u64, Failed>
        requires { file < 4 }
        ensures length { IfOk result (λ len. IfSome (current (history_of self.old) file) (λ f. len ≡ length f.seen)) }
        ensures same { current (history_of self.new) file ≡ current (history_of self.old) file }
        ensures acts { Acts (history_of self.old) (history_of self.new) file }
        ensures cause { OnErr result (Rose (history_of self.old).faults (history_of self.new).faults) }
        ensures passes { is_ok result ≡ passes self.old 0 }
        ensures called { self.new ≡ called 0 Idle Idle self.old }
    {
        if !self.passes(0) {
            return Err(self.refuse(Entry::Idle));
        }
        let len = self.bytes(file).len() as u64;
        self.note(Entry::Idle);
        Ok(len)
    }

    fn read_at(&mut self, file: u8, at: u64, buf: &mut [u8]) -> Result<(), Failed>
        requires file { file < 4 }
        requires within { IfSome (current (history_of self.old) file) (λ f. at + length buf.old ≤ length f.seen) }
        ensures bytes { OnOk result (IfSome (current (history_of self.old) file) (λ f. buf.new ≡ take (length buf.old) (drop at f.seen))) }
        ensures same { current (history_of self.new) file ≡ current (history_of self.old) file }
        ensures acts { Acts (history_of self.old) (history_of self.new) file }
        ensures cause { OnErr result (Rose (history_of self.old).faults (history_of self.new).faults) }
        ensures passes { is_ok result ≡ passes self.old 0 }
        ensures called { self.new ≡ called 0 Idle Idle self.old }
    {
        if !self.passes(0) {
            return Err(self.refuse(Entry::Idle));
        }
        copy_part(self.bytes(file), at as usize, buf);
        self.note(Entry::Idle);
        Ok(())
    }

    fn write_at(&mut self, file: u8, at: u64, bytes: &[u8]) -> Result<(), Failed>
        requires file { file < 4 }
        requires within { IfSome (current (history_of self.old) file) (λ f. at ≤ length f.seen) }
        ensures written { OnOk result (current (history_of self.new) file ≡ option_map (wrote at bytes.now) (current (history_of self.old) file)) }
        ensures lost { OnErr result (MayLose at (length bytes.now) (current (history_of self.old) file) (current (history_of self.new) file)) }
        ensures acts { Acts (history_of self.old) (history_of self.new) file }
        ensures cause { OnErr result (Rose (history_of self.old).faults (history_of self.new).faults) }
        ensures passes { is_ok result ≡ passes self.old (length bytes.now) }
        ensures called { self.new ≡ called (length bytes.now) (Wrote file at bytes.now) (Missed file at (length bytes.now)) self.old }
    {
        let at = at as usize;
        if !self.passes(bytes.len()) {
            let len = bytes.len();
            return Err(self.refuse(Entry::Missed { file, at, len }));
        }
        self.overwrite(file, at, bytes);
        Ok(())
    }

    fn sync(&mut self, file: u8) -> Result<(), Failed>
        requires { file < 4 }
        ensures settled { OnOk result (current (history_of self.new) file ≡ option_map settled (current (history_of self.old) file)) }
        ensures same { OnErr result (current (history_of self.new) file ≡ current (history_of self.old) file) }
        ensures acts { Acts (history_of self.old) (history_of self.new) file }
        ensures cause { OnErr result (Rose (history_of self.old).faults (history_of self.new).faults) }
        ensures passes { is_ok result ≡ passes self.old 0 }
        ensures called { self.new ≡ called 0 (Synced file) Idle self.old }
    {
        if self.passes(0) {
            self.note(Entry::Synced { file });
            return Ok(());
        }
        Err(self.refuse(Entry::Idle))
    }

    fn faults(&self) -> u64 {
        self.faults
    }
}
