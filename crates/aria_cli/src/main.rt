//! The program `aria`: the standard streams, the folder of its store, and the top call.
//!
//! Where the standard error is a terminal a person is told more there than a script is: which words cannot
//! stand, which line was refused, and what the system said of the disk.
#![tactic(auto)]

mod hints;
mod watched;

use crate::hints::{refusal, shown, shown_words, wrong_words};
use crate::watched::{WatchedSink, WatchedSource, WatchedWriter};
use aria_base::{FileSink, FileSource, Free, Sink, Source};
use aria_top::{DISK_FAULT, NO_MEMORY, READ_FAULT, REFUSED, USAGE, WRITE_FAULT, aria};
use dir_disk::DirDisk;
use std::alloc::Global;
use std::cell::Cell;
use std::env::Env;
use std::fs::Files;
use std::io::{Eprint, ErrorKind, Input, IsTerminal, Print};
use std::process::ExitCode;
use std::thread::Threads;
use std::{env, io};

fn main(rt: HostRuntime) -> ExitCode {
    let is_watched = rt.stderr().is_terminal();
    let status = match words(&rt) {
        Ok(words) => run(&rt, &words, is_watched),
        Err(error) if error.kind() == ErrorKind::OutOfMemory => end_without_memory(&rt),
        // No command has an argument that is no text.
        Err(_) => run(&rt, &[], is_watched),
    };
    ExitCode::from(status)
}

/// The folder that a store lies in, in the folder that the program runs in. It is made at the first call on
/// the disk.
const STORE: &str = "aria-store";

/// Runs the command that the arguments are, says on the standard error what went wrong, and answers its
/// status. What it says is one line, and more where a person is watching.
fn run<R: AllocGlobal + Eprint + Files + Input + Print + Threads + Sync>(
    rt: &R,
    words: &[String],
    is_watched: bool,
) -> u8 {
    let alloc = rt.alloc();
    let is_closed = Cell::new(false);
    let writer = WatchedWriter::new(io::writer(rt), &is_closed);
    let mut input = WatchedSource::new(alloc, FileSource::new(rt.reader()), is_watched);
    let mut output = WatchedSink::new(alloc, FileSink::new(writer), is_watched);
    let Ok(mut disk) = DirDisk::new(alloc, rt, STORE) else {
        return end_without_memory(rt);
    };
    let status = aria(rt, alloc, words, &mut input, &mut output, &mut disk, &Free);
    match status {
        USAGE if is_watched => say_words(rt, alloc, words),
        REFUSED if is_watched => say_line(rt, alloc, &input, &output),
        DISK_FAULT if is_watched => say_disk(rt, &disk),
        // Who reads the output has seen enough, as behind `head`.
        WRITE_FAULT if is_watched && is_closed.get() => {}
        _ => say(rt, status),
    }
    status
}

/// The program's arguments, without its name.
fn words<R: Env + AllocGlobal>(rt: &R) -> io::Result<Vec<String>> {
    let mut words = Vec::new(rt.alloc());
    for word in env::args(rt)?.skip(1) {
        words.push(word)?;
    }
    Ok(words)
}

/// Says that there was no memory, and answers that status.
fn end_without_memory<R: Eprint>(rt: &R) -> u8 {
    say(rt, NO_MEMORY);
    NO_MEMORY
}

/// Says what is wrong by a status, if anything is. Where that fails nobody is left to tell, here and below.
fn say<R: Eprint>(rt: &R, status: u8) {
    let fault = match status {
        READ_FAULT => "read fault",
        WRITE_FAULT => "write fault",
        DISK_FAULT => "disk fault",
        NO_MEMORY => "no memory",
        _ => return,
    };
    let _ = eprintln!(rt; "aria: {fault}");
}

/// Says which words cannot stand, and where the commands are listed.
fn say_words<R: Eprint>(rt: &R, alloc: Global, words: &[String]) {
    let Ok(wrong) = wrong_words(alloc, words) else {
        return;
    };
    if wrong.is_empty() {
        let _ = eprintln!(rt; "aria: docs/commands.md lists the commands");
    } else if let Ok(wrong) = shown_words(alloc, wrong) {
        let _ = eprintln!(rt;
            "aria: `{wrong}` cannot stand there; docs/commands.md lists the commands"
        );
    }
}

/// Says what the refused line is, where it is in hand, or that it is the end of the input.
fn say_line<S: Source, K: Sink, R: Eprint>(
    rt: &R,
    alloc: Global,
    input: &WatchedSource<S>,
    output: &WatchedSink<K>,
) {
    let Some((number, cause)) = output.last_line().and_then(refusal) else {
        return;
    };
    if input.is_end(number) {
        let _ = eprintln!(rt; "aria: line {number}, the end of the input, is refused by `{cause}`");
        return;
    }
    let Some(line) = input.line(number) else {
        return;
    };
    if let Ok(line) = shown(alloc, line) {
        let _ = eprintln!(rt; "aria: line {number} is refused by `{cause}`: {line}");
    }
}

/// Says which file or folder of the store the system refused, and why.
fn say_disk<D: Files + Drop, R: Eprint>(rt: &R, disk: &DirDisk<D>) {
    match disk.last_fault() {
        Some((path, error)) => {
            let _ = eprintln!(rt; "aria: disk fault: {path}: {error}");
        }
        None => say(rt, DISK_FAULT),
    }
}
