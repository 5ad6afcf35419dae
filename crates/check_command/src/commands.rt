// The command `check`.
ghost use Rattle.std.specs.Prelude.{◌≡◌, ◌≤◌, ◌⊎◌, IfOk, IfErr};
ghost use Rattle.std.specs.Io.KnownBytes.{IsAtEnd};
ghost use Rattle.aria_base.specs.Faults.{Rose};
ghost use Rattle.script_course.specs.Causes.{IsReadCause};
ghost use Rattle.script_course.specs.Served.{Completes};
ghost use Rattle.check_command.specs.Outs.{out_of, told_of};
ghost use Rattle.script_course.specs.declared.statuses.TheConstants as status;

use crate::ends::end_of;
use crate::readings::Reading;
use aria_base::{Sink, Source};
use script_course::{MOST_BYTES, Stop, read_through};
use std::alloc::Global;

/// The most bytes of a line, of the script and of the report.
pub const LONGEST_CHECKED: u32 = 262_144;

/// Reads a script, the line `report` and a report behind it, and prints whether the report holds: status 0
/// where it does, 8 where a line cannot stand, 1 where a line of the input is refused. Nothing is printed
/// before the input has ended, but the refusal of a line.
pub fn check_report<S: Source, K: Sink>(
    alloc: Global,
    input: &mut S,
    out: &mut K,
) -> Result<u8, Stop>
    ensures completes { Completes told_of out_of (S.left input.old) (S.left input.new) (K.given out.old) (K.given out.new) result }

    // Where a finding was printed, the answer is its status, and the input was read to its end.
    ensures status { IfOk result (λ ending. (ending ≡ status.DONE) ⊎ (ending ≡ status.FAILS)) }
    ensures end { IfOk result (λ _. IsAtEnd (S.left input.new)) }

    // Each stop for a fault has its cause.
    ensures source { S.faults input.old ≤ S.faults input.new }
    ensures sink { K.faults out.old ≤ K.faults out.new }
    ensures cause { IfErr result (λ stop. IsReadCause stop (Rose (S.faults input.old) (S.faults input.new)) (Rose (K.faults out.old) (K.faults out.new)) ⊥) }
{
    let Ok(start) = Reading::start(alloc) else {
        return Err(Stop::NoMemory);
    };
    match read_through(alloc, MOST_BYTES, LONGEST_CHECKED, start, input, out) {
        Ok(last) => end_of(alloc, last, out),
        Err(stop) => Err(stop),
    }
}
