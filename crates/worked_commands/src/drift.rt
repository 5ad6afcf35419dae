// Drawn scripts through the top call.
use crate::courses::{Course, drawn_course, rule_word};
use crate::outcomes::{Case, MEMORY, case_ends, empty_disk, is_count, smooth};
use aria_base::Draws;
use aria_top::DONE;
use cat_builtin::builtin;
use disk_model::MemDisk;
use proc_lang::Catalog;
use std::alloc::Global;
use std::process::Abort;
use std::thread::Threads;
use test_banks::drawn;

/// How many scripts each test draws.
const SCRIPTS: u32 = 200;

/// What stands in the output of one script or another.
const KINDS: [&str; 7] = [
    " ok ",
    " back ",
    " trap overflow\n",
    " wait waw ",
    " wait raw ",
    " kept\n",
    "state ",
];

/// Behind how many batches a checkpoint is laid, 0 for none.
const CHECKPOINTS: [&str; 3] = ["0", "1", "2"];

/// How what waits is run again: wave after wave, or by handed rows.
const LATE_RUNS: [&str; 2] = ["", " --batons"];

/// How many bytes a source gives at a time.
const PIECES: [usize; 3] = [1, 7, 4096];

/// One text of these.
fn joined(rt: &impl Abort, alloc: Global, parts: &[&str]) -> String {
    let mut text = String::new(alloc);
    for part in parts {
        text.push_str(part).expect(rt, MEMORY);
    }
    text
}

/// Asserts that this line prints this on this input and disk, and ends as done.
fn prints<R: AllocGlobal + Threads + Abort + Sync>(
    rt: &R,
    draws: &mut Draws,
    disk: &mut MemDisk,
    line: &str,
    input: &str,
    output: &str,
) {
    let case = Case {
        piece: PIECES[(drawn(draws, 3) - 1) as usize],
        ..smooth(line, input)
    };
    case_ends(rt, &case, disk, DONE, output);
}

/// The options of a run of a script. How many workers and replicas there are is drawn, and how what waits is
/// run again; when rows are listed is not.
fn options(rt: &impl Abort, alloc: Global, draws: &mut Draws, each: bool, drain: bool) -> String {
    let workers = drawn(draws, 3);
    let replicas = drawn(draws, 2);
    let batons = LATE_RUNS[(drawn(draws, 2) - 1) as usize];
    let state = if each { "each" } else { "last" };
    let drain = if drain { " --drain" } else { "" };
    let options = format!(in alloc;
        " --workers {workers} --replicas {replicas}{batons} --state {state}{drain}"
    );
    options.expect(rt, MEMORY)
}

/// The options that say by which settings the first batch runs.
fn settings(rt: &impl Abort, alloc: Global, course: &Course) -> String {
    let rule = rule_word(course.style.config.rule);
    let percent = course.style.config.fallback;
    format!(in alloc; " --rule {rule} --fallback {percent}").expect(rt, MEMORY)
}

/// Asserts that `once` prints what the script has to print.
fn runs_in_memory<R: AllocGlobal + Threads + Abort + Sync>(
    rt: &R,
    draws: &mut Draws,
    course: &Course,
) {
    let alloc = rt.alloc();
    let settings = settings(rt, alloc, course);
    let options = options(rt, alloc, draws, course.style.each, course.drain);
    let line = joined(rt, alloc, &["once", &settings, &options]);
    let (front, back) = (&course.front, &course.back);
    let script = joined(rt, alloc, &[&course.head, &front.lines, &back.lines]);
    let output = joined(rt, alloc, &[&front.answers, &back.answers, &course.end]);
    let mut disk = empty_disk(rt, alloc, 0);
    prints(rt, draws, &mut disk, &line, &script, &output);
}

/// Asserts that `init` makes a store of the head, and answers its disk.
fn make_store<R: AllocGlobal + Threads + Abort + Sync>(
    rt: &R,
    draws: &mut Draws,
    course: &Course,
) -> MemDisk {
    let alloc = rt.alloc();
    let mut disk = empty_disk(rt, alloc, 0);
    let settings = settings(rt, alloc, course);
    let line = joined(rt, alloc, &["init", &settings]);
    prints(rt, draws, &mut disk, &line, &course.head, "ready\n");
    disk
}

/// Asserts that `run` of the first part prints what it has to print.
fn runs_front<R: AllocGlobal + Threads + Abort + Sync>(
    rt: &R,
    draws: &mut Draws,
    course: &Course,
    disk: &mut MemDisk,
) {
    let alloc = rt.alloc();
    let checkpoint = CHECKPOINTS[(drawn(draws, 3) - 1) as usize];
    let each = course.style.each;
    let options = options(rt, alloc, draws, each, false);
    let line = format!(in alloc; "run --checkpoint {checkpoint}{options}").expect(rt, MEMORY);
    let answers = &course.front.answers;
    let listed = if each { "" } else { course.cut.as_str() };
    let output = format!(in alloc; "at 0\n{answers}{listed}").expect(rt, MEMORY);
    prints(rt, draws, disk, &line, &course.front.lines, &output);
}

/// Asserts that `run` of the whole script behind that prints what is left to print.
fn runs_whole<R: AllocGlobal + Threads + Abort + Sync>(
    rt: &R,
    draws: &mut Draws,
    course: &Course,
    disk: &mut MemDisk,
) {
    let alloc = rt.alloc();
    let options = options(rt, alloc, draws, course.style.each, course.drain);
    let line = joined(rt, alloc, &["run", &options]);
    let (front, back) = (&course.front, &course.back);
    let script = joined(rt, alloc, &[&front.lines, &back.lines]);
    let batches = course.batches;
    let at = format!(in alloc; "at {batches}\n").expect(rt, MEMORY);
    let output = joined(rt, alloc, &[&at, &front.kept, &back.answers, &course.end]);
    prints(rt, draws, disk, &line, &script, &output);
}

/// The catalogue of all these scripts.
fn bank(rt: &impl Abort, alloc: Global) -> Catalog {
    let bank = builtin(alloc, b"bank").expect(rt, MEMORY);
    bank.expect(rt, "a bank")
}

/// Asserts that each kind of line stands somewhere.
fn has_kinds(rt: &impl Abort, text: &str) {
    for kind in KINDS {
        is_count(rt, kind, u64::from(text.contains(kind)), 1);
    }
}

#[test]
fn drawn_scripts_print_what_the_plainest_form_gives(rt: HostRuntime) {
    let alloc = rt.alloc();
    let catalog = bank(&rt, alloc);
    let mut draws = Draws::of(24, 1);
    let mut all = String::new(alloc);
    for _ in 0..SCRIPTS {
        let course = drawn_course(&rt, alloc, &catalog, &mut draws);
        runs_in_memory(&rt, &mut draws, &course);
        all.push_str(&course.front.answers).expect(&rt, MEMORY);
        all.push_str(&course.back.answers).expect(&rt, MEMORY);
    }
    has_kinds(&rt, &all);
}

#[test]
fn drawn_scripts_go_on_over_a_store(rt: HostRuntime) {
    let alloc = rt.alloc();
    let catalog = bank(&rt, alloc);
    let mut draws = Draws::of(24, 2);
    for _ in 0..SCRIPTS {
        let course = drawn_course(&rt, alloc, &catalog, &mut draws);
        let mut disk = make_store(&rt, &mut draws, &course);
        runs_front(&rt, &mut draws, &course, &mut disk);
        runs_whole(&rt, &mut draws, &course, &mut disk);
    }
}
