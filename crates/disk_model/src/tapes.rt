// The record of the calls of a disk in memory.
ghost use Rattle.std.specs.Prelude.{◌≡◌, ℕ, ◌+◌, ◌<◌, ◌≤◌, [], ◌∷◌, ◌++◌, List, length, take, reverse, IfOk, OnOk};
ghost use Rattle.disk_model.specs.Files.{untouched};
ghost use Rattle.disk_model.specs.Steps.{Wrote, after, left_of, written, all_blotted};
ghost use Rattle.disk_model.specs.Tapes.{Calls, step_of, entry_bytes, all_bytes, steps_of, Shows, Makes};

use crate::contents::{blot, put_in};
use std::alloc::{AllocError, Global};
use std::marker::Model;

/// A call. The bytes of a write stand apart.
#[derive(Clone, Copy)]
pub enum Entry {
    Idle,
    Wrote { file: u8, at: usize, len: usize },
    Missed { file: u8, at: usize, len: usize },
    Synced { file: u8 },
}

/// All calls of a disk, with room for a number of them and of their bytes.
#[derive(Drop)]
pub struct Tape {
    entries: Vec<Entry>,
    bytes: Vec<u8>,
    calls: u32,
    room: usize,
}

impl Model for Tape {
    ghost use Rattle.disk_model.specs.Tapes.{Calls};

    ghost Value = { Calls };

    ghost use Rattle.std.specs.Prelude.{◌≡◌, ◌≤◌, length};
    ghost use Rattle.std.specs.Vec.{vec_capacity};
    ghost use Rattle.disk_model.specs.Tapes.{steps_of, IsTape};

    ghost view = { λ a. record { steps = steps_of a.entries.items a.bytes.items; calls = a.calls; room = a.room } };

    ghost invariant = { λ a. IsTape a.entries.items a.bytes.items (vec_capacity a.entries) (vec_capacity a.bytes) a.calls a.room };
}

impl Entry {
    // How many bytes it has in the list of them.
    fn bytes(&self) -> usize
        ensures { result ≡ entry_bytes self.now }
    {
        match self {
            Entry::Wrote { len, .. } => *len,
            _ => 0,
        }
    }
}

// One call more: a file's bytes, and the ranges that were written since its last sync.
fn replay(
    entry: &Entry,
    bytes: &[u8],
    file: u8,
    content: &mut Vec<u8>,
    loose: &mut Vec<(usize, usize)>,
) -> Result<(), AllocError>
    requires { entry_bytes entry.now ≡ length bytes.now }
    ensures { OnOk result (Makes (step_of entry.now bytes.now) file content.old.items loose.old.items content.new.items loose.new.items) }
{
    match *entry {
        Entry::Wrote { file: of, at, len } if of == file => {
            put_in(content, at, bytes)?;
            loose.push((at, len))?;
        }
        Entry::Missed { file: of, at, len } if of == file => loose.push((at, len))?,
        Entry::Synced { file: of } if of == file => loose.clear(),
        _ => {}
    }
    Ok(())
}

// A file's bytes after calls, and the ranges that were written since its last sync.
fn replayed(
    alloc: Global,
    entries: &[Entry],
    bytes: &[u8],
    file: u8,
    start: &[u8],
) -> Result<(Vec<u8>, Vec<(usize, usize)>), AllocError>
    requires { all_bytes entries.now ≤ length bytes.now }
    ensures { IfOk result (λ r. Shows (after (steps_of entries.now bytes.now) file (untouched start.now)) r.0.items r.1.items) }
{
    let mut content = start.to_vec(alloc)?;
    let mut loose = Vec::new(alloc);
    let mut rest = bytes;
    for entry in entries {
        let (own, later) = rest.split_at(entry.bytes());
        replay(entry, own, file, &mut content, &mut loose)?;
        rest = later;
    }
    Ok((content, loose))
}

// Writes one byte over those of all ranges.
fn blot_all(content: &mut [u8], loose: &[(usize, usize)], fill: u8)
    ensures { content.new ≡ all_blotted fill (reverse loose.now) content.old }
{
    for (at, len) in loose {
        blot(content, *at, *len, fill);
    }
}

// What a stop after these calls may leave of a file.
fn left_by(
    alloc: Global,
    entries: &[Entry],
    bytes: &[u8],
    file: u8,
    start: &[u8],
    kept: bool,
    fill: u8,
) -> Result<Vec<u8>, AllocError>
    requires { all_bytes entries.now ≤ length bytes.now }
    ensures { IfOk result (λ v. v.items ≡ left_of kept fill (after (steps_of entries.now bytes.now) file (untouched start.now))) }
{
    let (mut content, loose) = replayed(alloc, entries, bytes, file, start)?;
    if kept {
        return Ok(content);
    }
    blot_all(&mut content, &loose, fill);
    Ok(content)
}

impl Tape {
    /// No calls yet.
    pub fn new(alloc: Global, calls: u32, room: usize) -> Result<Tape, AllocError>
        ensures { IfOk result (λ t. t ≡ record { steps = []; calls = calls; room = room }) }
    {
        Ok(Tape {
            entries: Vec::with_capacity(alloc, calls as usize)?,
            bytes: Vec::with_capacity(alloc, room)?,
            calls,
            room,
        })
    }

    /// How many calls were noted.
    #[tactic(auto, using(crate::proofs::Noted::length_steps_of))]
    pub fn len(&self) -> u64
        ensures len { result ≡ length self.now.steps }
        ensures room { result ≤ self.now.calls }
    {
        self.entries.len() as u64
    }

    /// How many calls there is room for.
    pub fn calls(&self) -> u32
        ensures { result ≡ self.now.calls }
    {
        self.calls
    }

    /// How many bytes there is room for.
    pub fn room(&self) -> usize
        ensures { result ≡ self.now.room }
    {
        self.room
    }

    /// How many bytes are left of that room.
    #[tactic(auto, using(crate::proofs::Noted::written_steps_of))]
    pub fn spare(&self) -> usize
        ensures { written self.now.steps + result ≡ self.now.room }
    {
        self.room - self.bytes.len()
    }

    /// Notes a call without bytes.
    #[tactic(auto, using(crate::proofs::Noted::length_steps_of, crate::proofs::Noted::all_bytes_push, crate::proofs::Noted::steps_of_note))]
    pub fn note(&mut self, entry: Entry)
        requires none { entry_bytes entry ≡ 0 }
        requires call { length self.old.steps < self.old.calls }
        ensures { self.new ≡ record self.old { steps = self.old.steps ++ step_of entry [] ∷ [] } }
    {
        self.entries.push(entry).unwrap();
    }

    /// Notes a write with its bytes.
    #[tactic(auto, using(crate::proofs::Noted::length_steps_of, crate::proofs::Noted::written_steps_of, crate::proofs::Noted::all_bytes_push, crate::proofs::Noted::steps_of_write))]
    pub fn note_write(&mut self, file: u8, at: usize, bytes: &[u8])
        requires call { length self.old.steps < self.old.calls }
        requires room { written self.old.steps + length bytes.now ≤ self.old.room }
        ensures { self.new ≡ record self.old { steps = self.old.steps ++ Wrote file at bytes.now ∷ [] } }
    {
        self.bytes.extend_from_slice(bytes).unwrap();
        let entry = Entry::Wrote {
            file,
            at,
            len: bytes.len(),
        };
        self.entries.push(entry).unwrap();
    }

    /// The bytes of a file after so many calls. Those that were written and not synced in them are
    /// `fill`, where they are not kept.
    #[tactic(auto, using(crate::proofs::Noted::length_steps_of, crate::proofs::Replays::steps_of_take, crate::proofs::Replays::all_bytes_take))]
    pub fn left(
        &self,
        alloc: Global,
        start: &[u8],
        file: u8,
        calls: usize,
        kept: bool,
        fill: u8,
    ) -> Result<Vec<u8>, AllocError>
        requires { calls ≤ length self.now.steps }
        ensures { IfOk result (λ v. v.items ≡ left_of kept fill (after (take calls self.now.steps) file (untouched start.now))) }
    {
        left_by(
            alloc,
            &self.entries[..calls],
            &self.bytes,
            file,
            start,
            kept,
            fill,
        )
    }
}
