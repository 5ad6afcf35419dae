// A case in one way, and what differs.
use crate::cases::{Left, Output, Part, Step};
use crate::commands::{Outcome, Way, run};
use crate::differences::difference;
use crate::files::{Files, Shelf};
use aria_base::Memory;
use std::alloc::Global;
use std::thread::Threads;

/// What is not as the case says.
#[derive(Drop)]
pub struct Fault {
    /// The number of the step, from 1, and its line.
    pub step: u32,
    pub line: u32,
    /// What differs, in words.
    pub what: String,
}

/// Runs the steps one after the other on one disk, whose files are empty at first. It tells the first step
/// that differs, and where.
pub fn check_case<R: AllocGlobal + Threads + Sync>(
    rt: &R,
    steps: &[Step],
    way: &Way,
) -> Result<Option<Fault>, Memory> {
    let alloc = rt.alloc();
    let mut shelf = Shelf::new(alloc);
    let mut printed = Vec::new(alloc);
    let mut number = 0_u32;
    for step in steps {
        number = number.wrapping_add(1);
        if let Some(what) = check_step(rt, step, way, &mut shelf, &mut printed)? {
            return Ok(Some(Fault {
                step: number,
                line: step.line,
                what,
            }));
        }
    }
    Ok(None)
}

/// Runs a step, adds what it printed to what the steps before printed, and tells what differs.
fn check_step<R: AllocGlobal + Threads + Sync>(
    rt: &R,
    step: &Step,
    way: &Way,
    shelf: &mut Shelf,
    printed: &mut Vec<Vec<u8>>,
) -> Result<Option<String>, Memory> {
    let alloc = rt.alloc();
    if !shelf.change(alloc, &step.changes)? {
        return said(alloc, "a change that does not lie within its file");
    }
    let input = joined(alloc, &step.input, printed)?;
    let outcome = run(rt, &step.words, way, input, &shelf.now)?;
    let found = check_outcome(alloc, step, printed, &shelf.now, &outcome)?;
    let Outcome {
        printed: text,
        files,
        ..
    } = outcome;
    printed.push(text)?;
    shelf.now = files;
    Ok(found)
}

/// Something to tell.
fn said(alloc: Global, what: &str) -> Result<Option<String>, Memory> {
    Ok(Some(String::from_str(alloc, what)?))
}

/// The parts one behind the other, where the steps printed these texts.
fn joined(alloc: Global, parts: &[Part], printed: &[Vec<u8>]) -> Result<Vec<u8>, Memory> {
    let mut text = Vec::new(alloc);
    for part in parts {
        match part {
            Part::Bytes(bytes) => text.extend_from_slice(bytes)?,
            Part::OutputOf(step) => {
                if let Some(bytes) = printed.get(step.wrapping_sub(1)) {
                    text.extend_from_slice(bytes)?;
                }
            }
        }
    }
    Ok(text)
}

/// What differs of a step: its output first, then its status, then what it left.
fn check_outcome(
    alloc: Global,
    step: &Step,
    printed: &[Vec<u8>],
    before: &Files,
    outcome: &Outcome,
) -> Result<Option<String>, Memory> {
    if let Some(what) = check_output(alloc, &step.output, printed, &outcome.printed)? {
        return Ok(Some(what));
    }
    let found = outcome.status;
    let wanted = step.status;
    if found != wanted {
        return Ok(Some(format!(in alloc; "the status: wanted {wanted}, found {found}")?));
    }
    for left in step.left.iter() {
        if let Some(what) = check_left(alloc, left, before, &outcome.files)? {
            return Ok(Some(what));
        }
    }
    Ok(None)
}

/// What differs of an output.
fn check_output(
    alloc: Global,
    wanted: &Output,
    printed: &[Vec<u8>],
    found: &[u8],
) -> Result<Option<String>, Memory> {
    match wanted {
        Output::Taken => Ok(None),
        Output::Parts(parts) => {
            let wanted = joined(alloc, parts, printed)?;
            difference(alloc, "the output", &wanted, found)
        }
        Output::Marked { lines, bytes, hash } => {
            let (found_lines, found_bytes, found_hash) = mark(found);
            if (found_lines, found_bytes, found_hash) == (*lines, *bytes, *hash) {
                return Ok(None);
            }
            Ok(Some(format!(in alloc;
                "the output: wanted {lines} {bytes} {hash}, found {found_lines} {found_bytes} {found_hash}"
            )?))
        }
    }
}

/// What texts are told apart by: how many lines and bytes they have, and their hash FNV-1a of 64 bits.
fn mark(text: &[u8]) -> (u64, u64, u64) {
    let mut lines = 0_u64;
    let mut hash = 0xcbf2_9ce4_8422_2325_u64;
    for byte in text {
        if *byte == b'\n' {
            lines = lines.wrapping_add(1);
        }
        hash = (hash ^ u64::from(*byte)).wrapping_mul(0x100_0000_01b3);
    }
    (lines, text.len() as u64, hash)
}

/// What differs of the files.
fn check_left(
    alloc: Global,
    left: &Left,
    before: &Files,
    after: &Files,
) -> Result<Option<String>, Memory> {
    match left {
        Left::Same => {
            if after.is_same(before) {
                return Ok(None);
            }
            said(alloc, "the files: they are not what they were")
        }
        Left::Whole { file, bytes } => { difference(alloc, file.name(), bytes, after.file(*file)) }
        Left::Piece { file, at, bytes } => {
            let end = at.saturating_add(bytes.len());
            if after.file(*file).get(*at..end) == Some(bytes.as_slice()) {
                return Ok(None);
            }
            let name = file.name();
            Ok(Some(format!(in alloc; "{name}: it has other bytes at {at}")?))
        }
    }
}
