//! The worked cases: files of `data/` that say what a command line reads, prints and leaves.
//!
//! Each folder of `data/` is a topic, and each file in it a case: one step or several over one disk in
//! memory. Each case is run through the top call of the database, with its input in pieces of 1, of 7 and of
//! 4,096 bytes, on 1 and on 3 workers, on 1 and on 2 replicas and with `--batons` where a command has these.
//! Every byte that is printed is compared, the status, and what the case says of the files. CONTRIBUTING
//! says how a case is written; `tools/run_cases.py` runs the same files against the built program.
//!
//! ```text
//! cases (Case, Step ..) <- contents (lines) <- readings (a file)     files (four of them), commands (a run)
//!           \                                      |                             /
//!            +------------------------- checks (a case in one way) -------------+
//!                                           |
//!                             folders (names)  ->  main
//! ```
//!
//! For each folder a line is printed with its numbers of cases and steps. What is wrong is told on the
//! standard error, and the status is 1 then.
#![tactic(auto)]

mod cases;
mod checks;
mod commands;
mod contents;
mod differences;
mod files;
mod folders;
mod readings;

use crate::folders::run_all;
use std::env::{Env, args};
use std::io;
use std::process::ExitCode;

fn main(rt: HostRuntime) -> ExitCode {
    let well = match folder(&rt) {
        Ok(folder) => run_all(&rt, folder.as_str()),
        Err(error) => Err(error),
    };
    match well {
        Ok(true) => ExitCode::SUCCESS,
        Ok(false) => ExitCode::FAILURE,
        Err(error) => {
            // Where this fails too, nobody is left to tell.
            let _ = eprintln!(&rt; "worked_cases: {error}");
            ExitCode::FAILURE
        }
    }
}

/// The folder that has the folders of cases: the first argument, or else that in which the program runs.
fn folder<R: Env + AllocGlobal>(rt: &R) -> io::Result<String> {
    match args(rt)?.nth(1) {
        Some(folder) => Ok(folder),
        None => Ok(String::from_str(rt.alloc(), ".")?),
    }
}
