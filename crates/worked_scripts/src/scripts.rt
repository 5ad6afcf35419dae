// Scripts of `once` and `check` that begin behind batches, and what each comes to.
ghost use Rattle.std.specs.Prelude.{◌<◌};

use crate::checks::same;
use crate::echoes::Echo;
use crate::outcomes::{outcome, start};
use script_places::{Counts, Mode};
use std::alloc::Global;
use std::process::Abort;
use std::test::Fail;

fn read_both(
    rt: &impl Abort,
    alloc: Global,
    mode: Mode,
    counts: Counts,
    text: &str,
    wanted: &str,
) -> Result<(), Fail> {
    read_by(rt, alloc, start(alloc, mode, counts)?, text, 1, wanted)?;
    read_by(rt, alloc, start(alloc, mode, counts)?, text, 7, wanted)
}

fn read_by(
    rt: &impl Abort,
    alloc: Global,
    echo: Echo,
    text: &str,
    piece: usize,
    wanted: &str,
) -> Result<(), Fail>
    requires { 0 < piece }
{
    let found = outcome(alloc, echo, text.as_bytes(), piece, &[], &[])?;
    same(rt, text, &found, wanted);
    Ok(())
}

/// The command; how many batches were run, how many requests are numbered, and how many wait; a script;
/// and what it comes to.
const COUNTED: [(Mode, (u64, u64, usize), &str, &str); 7] = [
    (
        Mode::Once,
        (0, 0, 10_000),
        "catalog bank\nend 1\n",
        "nothing run end",
    ),
    (
        Mode::Once,
        (0, 0, 10_000),
        "catalog bank\ntx add 1 2\nend 1\n",
        "nothing call refused 3 batch\n",
    ),
    (
        Mode::Check,
        (0, 0, 10_000),
        "catalog bank\ntx add 1 2\nend 1\n",
        "nothing call run end",
    ),
    (
        Mode::Check,
        (0, 1 << 62, 0),
        "catalog bank\nend 1\n",
        "nothing run end",
    ),
    (
        Mode::Check,
        (0, 1 << 62, 0),
        "catalog bank\ntx add 1 2\nend 1\n",
        "nothing call refused 3 numbers\n",
    ),
    (
        Mode::Once,
        (0, 1 << 62, 0),
        "catalog bank\ntx add 1 2\nend 1\n",
        "nothing call refused 3 numbers\n",
    ),
    (
        Mode::Check,
        (1, 0, 0),
        "catalog bank\ntx add 1 2\nend 1\nend 3\n",
        "nothing call keep refused 4 gap 3 2\n",
    ),
];

#[test]
fn ends_of_batches(rt: HostRuntime) -> Result<(), Fail> {
    let alloc = rt.alloc();
    for (mode, (batches, requests, waiting), text, wanted) in COUNTED {
        let counts = Counts {
            batches,
            requests,
            waiting,
        };
        read_both(&rt, alloc, mode, counts, text, wanted)?;
    }
    Ok(())
}
