// Sources and sinks that fail.
use crate::checks::same;
use crate::outcomes::{FIRST, outcome, start};
use script_places::Mode;
use std::process::Abort;
use std::test::Fail;

/// Its lines end behind 13, 28, 39 and 45 bytes.
const SCRIPT: &str = "catalog bank\nrow acct 1 = 2\ntx add 1 5\nend 1\n";

/// What the script comes to where the source gives 7 bytes a call and fails at the first call, the second
/// one and so on: the lines that were whole by then are answered. The ninth call is never made.
const BY_SOURCE: [(u64, &str); 9] = [
    (1, "no read"),
    (2, "no read"),
    (3, "nothing no read"),
    (4, "nothing no read"),
    (5, "nothing put no read"),
    (6, "nothing put no read"),
    (7, "nothing put call no read"),
    (8, "nothing put call run no read"),
    (9, "nothing put call run end"),
];

#[test]
fn sources_that_fail(rt: HostRuntime) -> Result<(), Fail> {
    let alloc = rt.alloc();
    for (call, wanted) in BY_SOURCE {
        let echo = start(alloc, Mode::Once, FIRST)?;
        let found = outcome(alloc, echo, SCRIPT.as_bytes(), 7, &[call], &[])?;
        same(&rt, "a call that fails", &found, wanted);
    }
    Ok(())
}

/// A script whose last line is refused, and what it comes to where the sink fails at the first call, the
/// second one and so on. The fourth call is never made.
const REFUSED: &str = "catalog bank\nrow acct 1 = 2\nreport\nend 1\n";

const BY_SINK: [(u64, &str); 4] = [
    (1, "no write"),
    (2, "nothing no write"),
    (3, "nothing put no write"),
    (4, "nothing put refused 3 place\n"),
];

#[test]
fn sinks_that_fail(rt: HostRuntime) -> Result<(), Fail> {
    let alloc = rt.alloc();
    for (call, wanted) in BY_SINK {
        let echo = start(alloc, Mode::Once, FIRST)?;
        let found = outcome(alloc, echo, REFUSED.as_bytes(), 7, &[], &[call])?;
        same(&rt, "a call that fails", &found, wanted);
    }
    Ok(())
}

/// What comes first decides: the source fails behind the refused line, and at the same call before it.
#[test]
fn the_first_event_decides(rt: HostRuntime) -> Result<(), Fail> {
    let alloc = rt.alloc();
    let text = "catalog bank\nreport\nend 1\n";
    for (call, wanted) in [
        (3, "nothing no read"),
        (4, "nothing refused 2 place\n"),
        (5, "nothing refused 2 place\n"),
    ] {
        let echo = start(alloc, Mode::Once, FIRST)?;
        let found = outcome(alloc, echo, text.as_bytes(), 7, &[call], &[])?;
        same(&rt, "a call that fails", &found, wanted);
    }
    Ok(())
}
