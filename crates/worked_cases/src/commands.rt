// A run of the top call over a source, a sink and a disk in memory.
use crate::files::Files;
use aria_base::{Free, MemSink, MemSource, Memory};
use aria_top::aria;
use disk_model::MemDisk;
use std::alloc::Global;
use std::thread::Threads;

/// How many bytes a sink takes, more than any case prints.
const ROOM: usize = 4_000_000;

/// The commands that have workers, replicas and batons.
const CREWED: [&str; 4] = ["once", "run", "replay", "bench"];

const BATONS: &str = "--batons";

/// How a case is run: how many bytes a source gives at a time, how many workers and replicas there are, and
/// whether what waits is run again by rows that are handed on.
#[derive(Clone, Copy)]
pub struct Way {
    pub piece: usize,
    pub workers: &'static str,
    pub replicas: &'static str,
    pub batons: bool,
}

/// Whether the command of these words has workers, replicas and batons.
pub fn is_crewed(words: &[String]) -> bool {
    match words.first() {
        Some(command) => CREWED.contains(&command.as_str()),
        None => false,
    }
}

/// Whether an option stands among the words.
fn has(words: &[String], option: &str) -> bool {
    words.iter().any(|word| word.as_str().starts_with(option))
}

/// Adds the flag where it is wanted and the words do not have it.
fn add_batons(
    alloc: Global,
    words: &[String],
    way: &Way,
    all: &mut Vec<String>,
) -> Result<(), Memory> {
    if way.batons && is_crewed(words) && !has(words, BATONS) {
        all.push(String::from_str(alloc, BATONS)?)?;
    }
    Ok(())
}

/// Adds an option with its value where the words do not have it.
fn add_option(
    alloc: Global,
    words: &[String],
    option: &str,
    value: &str,
    all: &mut Vec<String>,
) -> Result<(), Memory> {
    if is_crewed(words) && !has(words, option) {
        all.push(String::from_str(alloc, option)?)?;
        all.push(String::from_str(alloc, value)?)?;
    }
    Ok(())
}

/// The words, with the workers, the replicas and the flag behind the command that has them.
fn words_in(alloc: Global, words: &[String], way: &Way) -> Result<Vec<String>, Memory> {
    let mut all = Vec::new(alloc);
    let mut is_command = true;
    for word in words {
        all.push(String::from_str(alloc, word.as_str())?)?;
        if is_command {
            add_option(alloc, words, "--workers", way.workers, &mut all)?;
            add_option(alloc, words, "--replicas", way.replicas, &mut all)?;
            add_batons(alloc, words, way, &mut all)?;
        }
        is_command = false;
    }
    Ok(all)
}

/// The status of the top call, without its promises: nothing here rests on them, and each would be read at
/// every proof.
fn status_of<R: AllocGlobal + Threads + Sync>(
    rt: &R,
    words: &[String],
    input: &mut MemSource,
    out: &mut MemSink,
    disk: &mut MemDisk,
) -> u8 {
    aria(rt, rt.alloc(), words, input, out, disk, &Free)
}

/// What a run came to.
#[derive(Drop)]
pub struct Outcome {
    pub status: u8,
    pub printed: Vec<u8>,
    pub files: Files,
}

/// Runs the words on this input and on these files.
pub fn run<R: AllocGlobal + Threads + Sync>(
    rt: &R,
    words: &[String],
    way: &Way,
    input: Vec<u8>,
    files: &Files,
) -> Result<Outcome, Memory> {
    let alloc = rt.alloc();
    let words = words_in(alloc, words, way)?;
    let mut input = MemSource::new(input, way.piece.max(1), Vec::new(alloc));
    let mut out = MemSink::new(alloc, ROOM, Vec::new(alloc))?;
    let mut disk = files.disk(alloc)?;
    let status = status_of(rt, &words, &mut input, &mut out, &mut disk);
    Ok(Outcome {
        status,
        printed: Vec::from_slice(alloc, out.bytes())?,
        files: Files::of_disk(alloc, &disk)?,
    })
}
