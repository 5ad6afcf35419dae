// A head and a script that end at each of their bytes.
use crate::outcomes::{Case, HEAD, MADE, case_ends, empty_disk, ends, smooth};
use std::process::Abort;
use std::thread::Threads;

/// An offset, and the status and the output of an input that ends there, or behind it and before the next row.
type Cut = (usize, u8, &'static str);

/// The head begins its lines at 0, 13, 29 and 45. A line that ends behind `=` has no column, and one behind
/// `= 1` has one.
const HEADS: [Cut; 13] = [
    (0, 0, "ready\n"),
    (1, 1, "refused 1 word\n"),
    (9, 1, "refused 1 name\n"),
    (12, 0, "ready\n"),
    (14, 1, "refused 2 word\n"),
    (25, 1, "refused 2 argument\n"),
    (27, 0, "ready\n"),
    (30, 1, "refused 3 word\n"),
    (41, 1, "refused 3 argument\n"),
    (43, 0, "ready\n"),
    (46, 1, "refused 4 word\n"),
    (57, 1, "refused 4 argument\n"),
    (59, 0, "ready\n"),
];

/// A ring of three copies. Its lines begin at 0, 12, 24 and 36.
const RING: &str = "tx copy 1 2\ntx copy 2 3\ntx copy 3 1\nend 1\n";

/// Where a `tx` line is whole, its line feed has no say, and the end of the input is refused at the line behind.
const RINGS: [Cut; 15] = [
    (
        0,
        0,
        "at 0\nstate 0\nrow acct 1 = 10\nrow acct 2 = 20\nrow acct 3 = 30\nend state\n",
    ),
    (1, 1, "at 0\nrefused 1 word\n"),
    (4, 1, "at 0\nrefused 1 name\n"),
    (7, 1, "at 0\nrefused 1 argument\n"),
    (11, 1, "at 0\nrefused 2 unfinished\n"),
    (13, 1, "at 0\nrefused 2 word\n"),
    (16, 1, "at 0\nrefused 2 name\n"),
    (19, 1, "at 0\nrefused 2 argument\n"),
    (23, 1, "at 0\nrefused 3 unfinished\n"),
    (25, 1, "at 0\nrefused 3 word\n"),
    (28, 1, "at 0\nrefused 3 name\n"),
    (31, 1, "at 0\nrefused 3 argument\n"),
    (35, 1, "at 0\nrefused 4 unfinished\n"),
    (37, 1, "at 0\nrefused 4 word\n"),
    (
        41,
        0,
        "at 0\nbatch 1\n1 ok 10\n2 ok 20\n3 wait both 2 1\norder 2 1\nend 1\nstate 1\nrow acct 1 = 10\nrow acct 2 = 10\nrow acct 3 = 20\nend state\n",
    ),
];

/// The last row that begins at or before the cut.
fn at_cut(table: &[Cut], cut: usize) -> (u8, &'static str) {
    let mut last = (0, "");
    for (first, status, output) in table {
        if *first <= cut {
            last = (*status, *output);
        }
    }
    last
}

/// Asserts that the input, cut at each of its bytes, ends as its table says, on an empty disk or on one with a
/// store.
fn each_cut<R: AllocGlobal + Threads + Abort + Sync>(
    rt: &R,
    words: &str,
    input: &str,
    table: &[Cut],
) {
    for cut in 0..=input.len() {
        let mut disk = empty_disk(rt, rt.alloc(), 0);
        if words == "run" {
            ends(rt, &MADE, &mut disk);
        }
        let case = Case {
            input: input.as_bytes().get(..cut).unwrap_or_default(),
            ..smooth(words, "")
        };
        let (status, output) = at_cut(table, cut);
        case_ends(rt, &case, &mut disk, status, output);
    }
}

#[test]
fn a_head_that_is_cut_off(rt: HostRuntime) {
    each_cut(&rt, "init", HEAD, &HEADS);
}

#[test]
fn a_script_that_is_cut_off(rt: HostRuntime) {
    each_cut(&rt, "run", RING, &RINGS);
}
