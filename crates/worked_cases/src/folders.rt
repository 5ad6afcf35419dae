// The folders of cases, one after the other.
use crate::cases::{Step, Wrong};
use crate::checks::check_case;
use crate::commands::{Way, is_crewed};
use crate::readings::read_case;
use std::alloc::Global;
use std::fs::{Files, read_dir, read_to_string};
use std::io;
use std::thread::Threads;

/// How many bytes of an input come at a time.
const PIECES: [usize; 3] = [1, 7, 4096];

/// How many workers and replicas there are, and whether what waits is run again by rows that are handed on.
const CREWS: [(&str, &str, bool); 5] = [
    ("1", "1", false),
    ("1", "2", false),
    ("3", "1", false),
    ("3", "2", false),
    ("3", "1", true),
];

/// Runs all cases of the folders of this folder and prints a line for each folder. It tells whether all went
/// as they say.
pub fn run_all<R: Files + AllocGlobal + Print + Eprint + Threads + Sync + Clone + Drop>(
    rt: &R,
    top: &str,
) -> io::Result<bool> {
    let mut well = true;
    let names = names_in(rt, top)?;
    if names.is_empty() {
        eprintln!(rt; "{top}: there is no folder of cases")?;
        return Ok(false);
    }
    for name in names.iter() {
        let path = joined(rt.alloc(), top, name.as_str())?;
        if !run_folder(rt, name.as_str(), path.as_str())? {
            well = false;
        }
    }
    Ok(well)
}

/// The names of what lies in a folder, in their order.
fn names_in<R: Files + AllocGlobal + Clone + Drop>(rt: &R, path: &str) -> io::Result<Vec<String>> {
    let mut names = Vec::new(rt.alloc());
    for entry in read_dir(rt, path)? {
        names.push(String::from_str(rt.alloc(), entry?.file_name())?)?;
    }
    names.sort()?;
    Ok(names)
}

/// The path of a name in a folder.
fn joined(alloc: Global, folder: &str, name: &str) -> io::Result<String> {
    Ok(format!(in alloc; "{folder}/{name}")?)
}

/// Runs the cases of one folder, prints its line, and tells whether all went as they say.
fn run_folder<R: Files + AllocGlobal + Print + Eprint + Threads + Sync + Clone + Drop>(
    rt: &R,
    folder: &str,
    path: &str,
) -> io::Result<bool> {
    let Ok(names) = names_in(rt, path) else {
        eprintln!(rt; "{path}: this is no folder of cases")?;
        return Ok(false);
    };
    let mut well = true;
    let mut steps = 0_usize;
    for name in names.iter() {
        let file = joined(rt.alloc(), path, name.as_str())?;
        match run_file(rt, file.as_str())? {
            Some(count) => steps = steps.wrapping_add(count),
            None => well = false,
        }
    }
    let cases = names.len();
    if cases == 0 {
        eprintln!(rt; "{folder}: a folder has a case at least")?;
        return Ok(false);
    }
    println!(rt; "{folder}: {cases} cases, {steps} steps")?;
    Ok(well)
}

/// Runs the case of a file in each way, and tells how many steps it has, where all went as it says.
fn run_file<R: Files + AllocGlobal + Eprint + Threads + Sync>(
    rt: &R,
    path: &str,
) -> io::Result<Option<usize>> {
    if !path.ends_with(".case") {
        eprintln!(rt; "{path}: this is no case: its name does not end with .case")?;
        return Ok(None);
    }
    let text = read_to_string(rt, path)?;
    let steps = match read_case(rt.alloc(), text.as_str()) {
        Ok(steps) => steps,
        Err((line, Wrong::Form(why))) => {
            eprintln!(rt; "{path}:{line}: {why}")?;
            return Ok(None);
        }
        Err((_, Wrong::Memory)) => return Err(io::Error::from(io::ErrorKind::OutOfMemory)),
    };
    if !run_ways(rt, path, &steps)? {
        return Ok(None);
    }
    Ok(Some(steps.len()))
}

/// Runs a case in each way, and tells whether all went as it says. The first way that did not is told.
fn run_ways<R: AllocGlobal + Eprint + Threads + Sync>(
    rt: &R,
    path: &str,
    steps: &[Step],
) -> io::Result<bool> {
    let crewed = steps.iter().any(|step| is_crewed(&step.words));
    for piece in PIECES {
        for (workers, replicas, batons) in CREWS {
            let way = Way {
                piece,
                workers,
                replicas,
                batons,
            };
            let plain = workers == "1" && replicas == "1" && !batons;
            if (plain || crewed) && !run_way(rt, path, steps, &way)? {
                return Ok(false);
            }
        }
    }
    Ok(true)
}

/// Runs a case in one way, tells what differs, and whether nothing does.
fn run_way<R: AllocGlobal + Eprint + Threads + Sync>(
    rt: &R,
    path: &str,
    steps: &[Step],
    way: &Way,
) -> io::Result<bool> {
    let fault = match check_case(rt, steps, way) {
        Ok(fault) => fault,
        Err(_) => return Err(io::Error::from(io::ErrorKind::OutOfMemory)),
    };
    let Some(fault) = fault else {
        return Ok(true);
    };
    let Way {
        piece,
        workers,
        replicas,
        batons,
    } = *way;
    let flag = if batons { " and batons" } else { "" };
    let step = fault.step;
    let line = fault.line;
    let what = fault.what.as_str();
    eprintln!(rt;
        "{path}:{line}: step {step} with pieces of {piece}, {workers} workers, {replicas} replicas{flag}: {what}"
    )?;
    Ok(false)
}
