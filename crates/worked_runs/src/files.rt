// The files of a folder, one after the other.
use crate::desks::Desk;
use crate::handmade::is_as_made;
use crate::wrongs::Wrong;
use std::alloc::Global;
use std::fs::{Files, read_dir, read_to_string};
use std::io;
use std::iter::once;
use std::thread::Threads;

/// Runs all files of this folder and prints a line for each. It tells whether all went as they say.
pub fn run_all<R: Files + AllocGlobal + Print + Eprint + Threads + Sync + Clone + Drop>(
    rt: &R,
    folder: &str,
) -> io::Result<bool> {
    let mut well = true;
    for name in names_in(rt, folder)?.iter() {
        let path = format!(in rt.alloc(); "{folder}/{name}")?;
        match run_file(rt, path.as_str())? {
            Some(count) => println!(rt; "{name}: {count} runs")?,
            None => well = false,
        }
    }
    if !is_as_made(rt.alloc())? {
        eprintln!(rt; "what is made by hand is not as it was made")?;
        return Ok(false);
    }
    Ok(well)
}

/// The names of what lies in a folder, in their order.
fn names_in<R: Files + AllocGlobal + Clone + Drop>(rt: &R, path: &str) -> io::Result<Vec<String>> {
    let mut names = Vec::new(rt.alloc());
    for entry in read_dir(rt, path)? {
        names.push(String::from_str(rt.alloc(), entry?.file_name())?)?;
    }
    names.sort()?;
    Ok(names)
}

/// What a line came to.
#[derive(Drop)]
enum Step {
    /// It set something, or is none.
    Set,
    /// A run came to what it says.
    Ran,
    /// It did not go as it says, for this reason.
    Told(String),
}

/// Follows a file, and tells how many runs it has, where all went as it says. The first line that did not is
/// told.
fn run_file<R: Files + AllocGlobal + Eprint + Threads + Sync>(
    rt: &R,
    path: &str,
) -> io::Result<Option<u32>> {
    let text = read_to_string(rt, path)?;
    let mut desk = new_desk(rt.alloc())?;
    let mut count = 0_u32;
    let mut runs = 0_u32;
    // The last line has several workers run what was run of the last statements.
    for line in text.lines().chain(once("$")) {
        count = count.wrapping_add(1);
        match follow(rt, &mut desk, line)? {
            Step::Set => {}
            Step::Ran => runs = runs.wrapping_add(1),
            Step::Told(what) => {
                eprintln!(rt; "{path}:{count}: {what}")?;
                return Ok(None);
            }
        }
    }
    Ok(Some(runs))
}

fn new_desk(alloc: Global) -> io::Result<Desk> {
    match Desk::new(alloc) {
        Ok(desk) => Ok(desk),
        Err(_) => Err(io::Error::from(io::ErrorKind::OutOfMemory)),
    }
}

/// Follows a line.
fn follow<R: AllocGlobal + Threads + Sync>(
    rt: &R,
    desk: &mut Desk,
    line: &str,
) -> io::Result<Step> {
    if line.is_empty() || line.starts_with('#') {
        return Ok(Step::Set);
    }
    let (mark, text) = line.split_once(' ').unwrap_or((line, ""));
    match desk.line(rt, mark, text) {
        Ok(None) => Ok(Step::Set),
        Ok(Some(found)) if found.as_str() == text => Ok(Step::Ran),
        Ok(Some(found)) => Ok(Step::Told(format!(in rt.alloc(); "found {found}")?)),
        Err(Wrong::Form(why)) => Ok(Step::Told(String::from_str(rt.alloc(), why)?)),
        Err(Wrong::Memory) => Err(io::Error::from(io::ErrorKind::OutOfMemory)),
    }
}
