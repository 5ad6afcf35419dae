// Commands without a store whose source and sink fail at each of their calls in turn.
use crate::outcomes::{Case, case_ends, empty_disk, smooth};
use aria_top::{DONE, FAILS, READ_FAULT, WRITE_FAULT};

/// The ring of three copies, and its answer.
pub const RING: &str =
    "catalog bank\nrow acct 1 = 10\nrow acct 2 = 20\nrow acct 3 = 30\ntx copy 1 2\ntx copy 2 3\ntx copy 3 1\nend 1\n";

const RING_ANSWER: &str =
    "batch 1\n1 ok 10\n2 ok 20\n3 wait both 2 1\norder 2 1\nend 1\nstate 1\nrow acct 1 = 10\nrow acct 2 = 10\nrow acct 3 = 20\nend state\n";

/// The ring, the line `report` and its answer, which is a report on it; and the same with another order.
const RING_REPORTED: &str =
    "catalog bank\nrow acct 1 = 10\nrow acct 2 = 20\nrow acct 3 = 30\ntx copy 1 2\ntx copy 2 3\ntx copy 3 1\nend 1\nreport\nbatch 1\n1 ok 10\n2 ok 20\n3 wait both 2 1\norder 2 1\nend 1\nstate 1\nrow acct 1 = 10\nrow acct 2 = 10\nrow acct 3 = 20\nend state\n";

const RING_TURNED: &str =
    "catalog bank\nrow acct 1 = 10\nrow acct 2 = 20\nrow acct 3 = 30\ntx copy 1 2\ntx copy 2 3\ntx copy 3 1\nend 1\nreport\nbatch 1\n1 ok 10\n2 ok 20\n3 wait both 2 1\norder 1 2\nend 1\nstate 1\nrow acct 1 = 10\nrow acct 2 = 10\nrow acct 3 = 20\nend state\n";

/// What `check` prints of that order: behind the first copy, the second one gives 10 as well.
const TURNED_FOUND: &str = "check fails 3\nwanted 2 ok 10\nfound 2 ok 20\n";

/// The answer of the ring's one batch.
const ANSWER: &str = "batch 1\n1 ok 10\n2 ok 20\n3 wait both 2 1\norder 2 1\nend 1\n";

/// Two requests on one row, of which the second waits, and a batch that answers it.
const ADDS: &str =
    "catalog bank\nrow acct 1 = 10\nrow acct 2 = 20\nrow acct 3 = 30\ntx add 1 5\ntx add 1 7\nend 1\nend 2\n";

/// The answer of the first batch, the answers of both, and these with the listing.
const ADDS_FIRST: &str = "batch 1\n1 ok 15\n2 wait waw 1\norder 1\nend 1\n";

const ADDS_BOTH: &str =
    "batch 1\n1 ok 15\n2 wait waw 1\norder 1\nend 1\nbatch 2\n2 ok 22\norder 2\nend 2\n";

const ADDS_WHOLE: &str =
    "batch 1\n1 ok 15\n2 wait waw 1\norder 1\nend 1\nbatch 2\n2 ok 22\norder 2\nend 2\nstate 2\nrow acct 1 = 22\nrow acct 2 = 20\nrow acct 3 = 30\nend state\n";

/// An audit that holds, of thirteen bytes: the second piece of seven ends them.
const EMPTY: &str = "catalog tpcc\n";

/// Arguments and a script, and how the run ends where the source fails at any one of its calls from the
/// first number to the second. It gives seven bytes a call.
///
/// The ring has 103 bytes, which the fifteenth piece ends. The two requests have 95 bytes: the thirteenth
/// piece ends their first batch, at 89, and the fourteenth the second one. A report with its script has 232
/// bytes, which the thirty-fourth piece ends, and nothing is printed before. The next call finds the end,
/// and the one behind it, which is the last here, is never made.
const TAKES: [(&str, &str, u64, u64, u8, &str); 13] = [
    ("once", RING, 1, 15, READ_FAULT, ""),
    ("once", RING, 16, 16, READ_FAULT, ANSWER),
    ("once", RING, 17, 17, DONE, RING_ANSWER),
    ("once", ADDS, 1, 13, READ_FAULT, ""),
    ("once", ADDS, 14, 14, READ_FAULT, ADDS_FIRST),
    ("once", ADDS, 15, 15, READ_FAULT, ADDS_BOTH),
    ("once", ADDS, 16, 16, DONE, ADDS_WHOLE),
    ("check", RING_REPORTED, 1, 35, READ_FAULT, ""),
    ("check", RING_REPORTED, 36, 36, DONE, "check holds\n"),
    ("check", RING_TURNED, 1, 35, READ_FAULT, ""),
    ("check", RING_TURNED, 36, 36, FAILS, TURNED_FOUND),
    ("audit", EMPTY, 1, 3, READ_FAULT, ""),
    ("audit", EMPTY, 4, 4, DONE, "audit holds\n"),
];

/// Arguments and a script, and how the run ends where the sink fails at the call of this number. An answer
/// is one call, and so are the listing, a finding, the line of a refusal and a summary. The last call of each run
/// is never made, but for the last two here.
const GIVES: [(&str, &str, u64, u8, &str); 15] = [
    ("once", RING, 1, WRITE_FAULT, ""),
    ("once", RING, 2, WRITE_FAULT, ANSWER),
    ("once", RING, 3, DONE, RING_ANSWER),
    ("once", ADDS, 1, WRITE_FAULT, ""),
    ("once", ADDS, 2, WRITE_FAULT, ADDS_FIRST),
    ("once", ADDS, 3, WRITE_FAULT, ADDS_BOTH),
    ("once", ADDS, 4, DONE, ADDS_WHOLE),
    ("check", RING_REPORTED, 1, WRITE_FAULT, ""),
    ("check", RING_REPORTED, 2, DONE, "check holds\n"),
    ("check", RING_TURNED, 1, WRITE_FAULT, ""),
    ("check", RING_TURNED, 2, FAILS, TURNED_FOUND),
    ("audit", EMPTY, 1, WRITE_FAULT, ""),
    ("audit", EMPTY, 2, DONE, "audit holds\n"),
    ("audit", "catalog bank\n", 1, WRITE_FAULT, ""),
    (
        "bench --keys 100 --batches 3 --size 5 --reads 100",
        "",
        1,
        WRITE_FAULT,
        "",
    ),
];

#[test]
fn each_call_of_the_source_fails(rt: HostRuntime) {
    for (words, script, first, last, status, output) in TAKES {
        for failing_take in first..=last {
            let case = Case {
                failing_take,
                ..smooth(words, script)
            };
            let mut disk = empty_disk(&rt, rt.alloc(), 0);
            case_ends(&rt, &case, &mut disk, status, output);
        }
    }
}

#[test]
fn each_call_of_the_sink_fails(rt: HostRuntime) {
    for (words, script, failing_give, status, output) in GIVES {
        let case = Case {
            failing_give,
            ..smooth(words, script)
        };
        let mut disk = empty_disk(&rt, rt.alloc(), 0);
        case_ends(&rt, &case, &mut disk, status, output);
    }
}
