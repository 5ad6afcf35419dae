// Runs of `init` whose source, sink and disk fail, and heads that are refused before any call on the disk.
use crate::outcomes::{Case, HEAD, case_ends, empty_disk, ends, is_count, smooth};
use std::process::Abort;
use std::thread::Threads;

const READY: &str = "ready\n";

/// A line without options, and one that makes a store in the place of another.
const LINES: [&str; 2] = ["init", "init --over"];

/// The head has 61 bytes, so that the ninth piece of seven bytes ends it, and the tenth call finds the end. Any
/// call that fails leaves the disk, and the eleventh is never made.
#[test]
fn a_source_that_fails_leaves_the_disk(rt: HostRuntime) {
    for failing_take in 1..12 {
        let case = Case {
            failing_take,
            ..smooth("init", HEAD)
        };
        let fails = failing_take < 11;
        let (status, output) = if fails { (3, "") } else { (0, READY) };
        let mut disk = empty_disk(&rt, rt.alloc(), 0);
        case_ends(&rt, &case, &mut disk, status, output);
        if fails {
            is_count(&rt, "calls on the disk", disk.calls(), 0);
        }
    }
}

/// An `init` whose sink fails at its first call.
fn untold(input: &str) -> Case<'_> {
    Case {
        failing_give: 1,
        ..smooth("init", input)
    }
}

/// The store is made before the sink is told, and a refused head has touched nothing.
#[test]
fn a_sink_that_fails_is_named(rt: HostRuntime) {
    let mut disk = empty_disk(&rt, rt.alloc(), 0);
    case_ends(&rt, &untold(HEAD), &mut disk, 4, "");
    let there = ("init", HEAD, 6, "refused store exists\n");
    ends(&rt, &there, &mut disk);
    case_ends(&rt, &untold(HEAD), &mut disk, 4, "");
    let mut disk = empty_disk(&rt, rt.alloc(), 0);
    case_ends(&rt, &untold("end 1\n"), &mut disk, 4, "");
    is_count(&rt, "calls on the disk", disk.calls(), 0);
}

/// Asserts that each call on the disk ends the command where it fails, so that no later one is made, and that the
/// call behind the last one is never made.
fn each_call_fails<R: AllocGlobal + Threads + Abort + Sync>(rt: &R, line: &'static str) {
    let ready = (line, HEAD, 0, READY);
    let mut disk = empty_disk(rt, rt.alloc(), 0);
    ends(rt, &ready, &mut disk);
    let calls = disk.calls();
    for failing in 1..=calls {
        let mut disk = empty_disk(rt, rt.alloc(), failing);
        ends(rt, &(line, HEAD, 5, ""), &mut disk);
        is_count(rt, "calls on the disk", disk.calls(), failing);
    }
    let mut disk = empty_disk(rt, rt.alloc(), calls.saturating_add(1));
    ends(rt, &ready, &mut disk);
}

#[test]
fn a_disk_that_fails_is_named(rt: HostRuntime) {
    for line in LINES {
        each_call_fails(&rt, line);
    }
}

/// Heads that are refused, and the line that says so.
const REFUSED: [(&str, &str); 12] = [
    ("row acct 1 = 10\n", "refused 1 place\n"),
    ("catalog bank\ncatalog bank\n", "refused 2 place\n"),
    ("catalog bonk\n", "refused 1 name\n"),
    ("catalog bank\nrow acct 1\n", "refused 2 word\n"),
    ("catalog bank\nrow acct \"a\" = 1\n", "refused 2 argument\n"),
    ("catalog bank\nrow seat 1 = 1\n", "refused 2 name\n"),
    ("catalog bank\ntx add 1 5\n", "refused 2 place\n"),
    ("catalog bank\nend 1\n", "refused 2 place\n"),
    ("catalog bank\nsettings plain 1\n", "refused 2 place\n"),
    ("catalog bank\nreport\n", "refused 2 place\n"),
    ("catalog text\n:{", "refused 3 catalog json\n"),
    (
        "catalog bank\nrow acct 1 = 1\nrow acct 2 = \t",
        "refused 3 byte\n",
    ),
];

#[test]
fn a_refused_head_leaves_the_disk(rt: HostRuntime) {
    for (input, output) in REFUSED {
        for line in LINES {
            let mut disk = empty_disk(&rt, rt.alloc(), 0);
            ends(&rt, &(line, input, 1, output), &mut disk);
            is_count(&rt, "calls on the disk", disk.calls(), 0);
        }
    }
}
