// A script at its limit of bytes.
ghost use Rattle.std.specs.Prelude.{◌<◌};

use crate::checks::same;
use crate::outcomes::{FIRST, outcome_within, start};
use script_places::Mode;
use std::alloc::Global;
use std::process::Abort;
use std::test::Fail;

/// Lines that end behind 13, 19 and 25 bytes.
const THREE: &str = "catalog bank\nend 1\nend 2\n";

/// The most bytes of the script, and what it comes to.
const SIZES: [(u64, &str); 7] = [
    (0, "refused 1 size\n"),
    (12, "refused 1 size\n"),
    (13, "nothing refused 2 size\n"),
    (18, "nothing refused 2 size\n"),
    (19, "nothing run refused 3 size\n"),
    (24, "nothing run refused 3 size\n"),
    (25, "nothing run refused 3 gap 2 1\n"),
];

fn within(
    rt: &impl Abort,
    alloc: Global,
    limit: u64,
    piece: usize,
    wanted: &str,
) -> Result<(), Fail>
    requires { 0 < piece }
{
    let echo = start(alloc, Mode::Once, FIRST)?;
    let found = outcome_within(alloc, limit, echo, THREE.as_bytes(), piece)?;
    same(rt, "a bound of bytes", &found, wanted);
    Ok(())
}

#[test]
fn bytes_of_a_script(rt: HostRuntime) -> Result<(), Fail> {
    let alloc = rt.alloc();
    for (limit, wanted) in SIZES {
        within(&rt, alloc, limit, 1, wanted)?;
        within(&rt, alloc, limit, 7, wanted)?;
    }
    Ok(())
}
