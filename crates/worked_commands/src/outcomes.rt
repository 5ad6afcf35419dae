// A run of the top call over a source, a sink and a disk in memory.
use aria_base::{Free, MemSink, MemSource, Pace};
use aria_top::aria;
use disk_model::MemDisk;
use std::alloc::Global;
use std::process::Abort;
use std::thread::Threads;

/// What a test says that finds no memory.
pub const MEMORY: &str = "memory";

/// How many bytes a sink or a disk takes, more than any of these runs writes, and how many calls a disk remembers.
pub const ROOM: usize = 1_000_000;

pub const CALLS: u32 = 1_000;

/// Three accounts.
pub const HEAD: &str = "catalog bank\nrow acct 1 = 10\nrow acct 2 = 20\nrow acct 3 = 30\n";

/// Arguments, an input, and the status and the output that they have.
pub type Row = (&'static str, &'static str, u8, &'static str);

/// The accounts become a store.
pub const MADE: Row = ("init", HEAD, 0, "ready\n");

/// A run: its arguments, its input and how many bytes of it come at a time, and which call of the source and of
/// the sink fails, 0 for none.
#[derive(Clone, Copy, Debug)]
pub struct Case<'a> {
    pub words: &'a str,
    pub input: &'a [u8],
    pub piece: usize,
    pub failing_take: u64,
    pub failing_give: u64,
}

/// A run in which neither fails, and whose input comes by seven bytes.
pub fn smooth<'a>(words: &'a str, input: &'a str) -> Case<'a> {
    Case {
        words,
        input: input.as_bytes(),
        piece: 7,
        failing_take: 0,
        failing_give: 0,
    }
}

/// The status of the top call, without its promises: no assertion rests on them, and each would be read at
/// every proof.
fn status_of<P: Pace + Sync, R: AllocGlobal + Threads + Sync>(
    rt: &R,
    words: &[String],
    input: &mut MemSource,
    out: &mut MemSink,
    disk: &mut MemDisk,
    pace: &P,
) -> u8 {
    aria(rt, rt.alloc(), words, input, out, disk, pace)
}

/// The arguments of a command line.
fn words_of(rt: &impl Abort, alloc: Global, line: &str) -> Vec<String> {
    let mut words = Vec::new(alloc);
    for word in line.split(' ') {
        let word = String::from_str(alloc, word).expect(rt, MEMORY);
        words.push(word).expect(rt, MEMORY);
    }
    words
}

fn source_of(rt: &impl Abort, alloc: Global, case: &Case<'_>) -> MemSource {
    let bytes = copy(rt, alloc, case.input);
    MemSource::new(
        bytes,
        case.piece.max(1),
        failing(rt, alloc, case.failing_take),
    )
}

fn sink_of(rt: &impl Abort, alloc: Global, failing_give: u64) -> MemSink {
    MemSink::new(alloc, ROOM, failing(rt, alloc, failing_give)).expect(rt, MEMORY)
}

/// The calls that fail: the one of this number.
fn failing(rt: &impl Abort, alloc: Global, call: u64) -> Vec<u64> {
    Vec::from_array(alloc, [call]).expect(rt, MEMORY)
}

/// The status of a run, and what it wrote.
pub fn outcome<P: Pace + Sync, R: AllocGlobal + Threads + Abort + Sync>(
    rt: &R,
    case: &Case<'_>,
    disk: &mut MemDisk,
    pace: &P,
) -> (u8, Vec<u8>) {
    let alloc = rt.alloc();
    let words = words_of(rt, alloc, case.words);
    let mut input = source_of(rt, alloc, case);
    let mut out = sink_of(rt, alloc, case.failing_give);
    let status = status_of(rt, &words, &mut input, &mut out, disk, pace);
    (status, copy(rt, alloc, out.bytes()))
}

/// Asserts that the case ends in this status and prints this output on this disk.
pub fn case_ends<R: AllocGlobal + Threads + Abort + Sync>(
    rt: &R,
    case: &Case<'_>,
    disk: &mut MemDisk,
    status: u8,
    output: &str,
) {
    let found = outcome(rt, case, disk, &Free);
    is_outcome(rt, case, &found, status, output.as_bytes());
}

/// Asserts that this is what the case ends in and prints.
pub fn is_outcome(
    rt: &impl Abort,
    case: &Case<'_>,
    found: &(u8, Vec<u8>),
    status: u8,
    output: &[u8],
) {
    let right = found.0 == status && found.1.as_slice() == output;
    assert!(rt; right, "at {case:?}: {found:?}");
}

/// Asserts that the arguments end in this status and print this output on this disk.
pub fn ends<R: AllocGlobal + Threads + Abort + Sync>(rt: &R, row: &Row, disk: &mut MemDisk) {
    let (words, input, status, output) = row;
    case_ends(rt, &smooth(words, input), disk, *status, output);
}

/// Asserts that so many were wanted of what this names.
pub fn is_count(rt: &impl Abort, what: &str, found: u64, wanted: u64) {
    assert_eq!(rt; found, wanted, "{what}");
}

/// Asserts that what this says holds after so many calls.
pub fn holds(rt: &impl Abort, what: &str, calls: u64, found: bool) {
    assert!(rt; found, "{what} after {calls} calls");
}

/// A disk of four empty files, whose call of this number fails; with 0 none does.
pub fn empty_disk(rt: &impl Abort, alloc: Global, call: u64) -> MemDisk {
    MemDisk::new(alloc, CALLS, ROOM, failing(rt, alloc, call)).expect(rt, MEMORY)
}

/// A disk with the store of the three accounts, whose call of this number fails; with 0 none does.
pub fn new_store<R: AllocGlobal + Threads + Abort + Sync>(rt: &R, call: u64) -> MemDisk {
    let mut disk = empty_disk(rt, rt.alloc(), call);
    ends(rt, &MADE, &mut disk);
    disk
}

/// A copy of these bytes.
pub fn copy(rt: &impl Abort, alloc: Global, bytes: &[u8]) -> Vec<u8> {
    Vec::from_slice(alloc, bytes).expect(rt, MEMORY)
}

/// A disk with the files of this one, of which no call was made, and whose call of this number fails.
pub fn reopened(rt: &impl Abort, alloc: Global, disk: &MemDisk, call: u64) -> MemDisk {
    MemDisk::of(
        alloc,
        copy(rt, alloc, disk.bytes(0)),
        copy(rt, alloc, disk.bytes(1)),
        copy(rt, alloc, disk.bytes(2)),
        copy(rt, alloc, disk.bytes(3)),
        CALLS,
        ROOM,
        failing(rt, alloc, call),
    )
    .expect(rt, MEMORY)
}
