// The command `audit`.
ghost use Rattle.std.specs.Prelude.{◌≡◌, ◌≤◌, ◌⊎◌, IfOk, IfErr};
ghost use Rattle.std.specs.Io.KnownBytes.{IsAtEnd};
ghost use Rattle.aria_base.specs.Faults.{Rose};
ghost use Rattle.script_course.specs.Causes.{IsReadCause};
ghost use Rattle.script_course.specs.Served.{Completes};
ghost use Rattle.audit_command.specs.Audits.{out_of, told_of};
ghost use Rattle.script_course.specs.declared.statuses.TheConstants as status;

use crate::audits::end_of;
use aria_base::{Sink, Source};
use script_course::Stop;
use script_places::Mode;
use script_rows::read_rows;
use std::alloc::Global;

/// Reads the head that the source gives to its end, and then prints whether the audit of its rows holds, or
/// where it first does not. Where the source tells its bytes, what is printed is the output that they have,
/// and the status is its status; where it was cut off, a prefix of it was printed, and where the source
/// failed, nothing. An input without a catalogue has no rows, and holds.
pub fn audit<S: Source, K: Sink>(alloc: Global, input: &mut S, out: &mut K) -> Result<u8, Stop>
    ensures completes { Completes told_of out_of (S.left input.old) (S.left input.new) (K.given out.old) (K.given out.new) result }

    // Where nothing was in the way, the answer is that of a finding, and the input was read to its end.
    ensures status { IfOk result (λ ending. (ending ≡ status.DONE) ⊎ (ending ≡ status.FAILS)) }
    ensures end { IfOk result (λ _. IsAtEnd (S.left input.new)) }

    // Each stop for a fault has its cause.
    ensures source { S.faults input.old ≤ S.faults input.new }
    ensures sink { K.faults out.old ≤ K.faults out.new }
    ensures cause { IfErr result (λ stop. IsReadCause stop (Rose (S.faults input.old) (S.faults input.new)) (Rose (K.faults out.old) (K.faults out.new)) ⊥) }
{
    match read_rows(alloc, Mode::Audit, input, out) {
        Ok(last) => end_of(alloc, last, out),
        Err(stop) => Err(stop),
    }
}
