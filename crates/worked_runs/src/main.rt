//! Worked runs: files of `data/` that say what procedures come to.
//!
//! A file has a catalogue's text, and then procedures as a user writes them. Each is read, called on a few
//! rows, and what the call comes to is compared with what was worked out by hand, in words:
//!
//! ```text
//! reads acct 1, acct 9 / writes acct 2 = (10), acct 3 gone / done 20, 'text'
//! ```
//!
//! A part with nothing in it is left out. A run within declared keys may come to `moved` with the key at which
//! it stopped, and a text that is no catalogue to its refusal. Each line of a file begins with a mark:
//!
//! | line | says |
//! |---|---|
//! | `# text` | a remark |
//! | `{ text`, `} text` | what stands before and behind a procedure's statements in the text of the catalogue |
//! | `* statements` | what this procedure writes is added to the rows. It takes the same call as the others |
//! | `@ 1` | the number of the procedure that is called |
//! | `< 5 -1 a*3 [10..12] [1,2;3,4]` | what it is called with: numbers, texts of so many equal letters, lists of tuples of one number or of several. Before the first procedure it holds for each |
//! | `$ statements` | the statements of the procedure. The call is the usual one again, and nothing is declared |
//! | `+ 1 3 / 2` | the keys of table 0 that are declared for reading, and for writing |
//! | `> words` | what the run comes to |
//! | `? words` | the same of a run through a window, which has no rows and keeps what it is asked for: this, in order, and the end |
//! | `~ acct table 0` | what a name is the name of |
//!
//! Each run is made on the catalogue and on a copy of it, all runs of a procedure by several workers at once, and
//! what they come to is copied; any difference is told. For each file a line is printed with its number of
//! runs. What is wrong is told on the standard error, and the status is 1 then.
//!
//! ```text
//! words   arguments   windows
//!     \       |       /
//!      runs (one call)
//!           |
//!      desks (a line of a file) -> files -> main        handmade (catalogues that no text says)
//! ```
#![tactic(auto)]

mod arguments;
mod desks;
mod files;
mod handmade;
mod runs;
mod windows;
mod words;
mod wrongs;

use crate::files::run_all;
use std::env::{Env, args};
use std::io;
use std::process::ExitCode;

fn main(rt: HostRuntime) -> ExitCode {
    let well = match folder(&rt) {
        Ok(folder) => run_all(&rt, folder.as_str()),
        Err(error) => Err(error),
    };
    match well {
        Ok(true) => ExitCode::SUCCESS,
        Ok(false) => ExitCode::FAILURE,
        Err(error) => {
            // Where this fails too, nobody is left to tell.
            let _ = eprintln!(&rt; "worked_runs: {error}");
            ExitCode::FAILURE
        }
    }
}

/// The folder of the files: the first argument, or else that in which the program runs.
fn folder<R: Env + AllocGlobal>(rt: &R) -> io::Result<String> {
    match args(rt)?.nth(1) {
        Some(folder) => Ok(folder),
        None => Ok(String::from_str(rt.alloc(), ".")?),
    }
}
