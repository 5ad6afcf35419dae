// A line that is refused, as a command that reads answers it.
ghost use Rattle.std.specs.Prelude.{◌≤◌, Err, IfErr, IsErr};
ghost use Rattle.aria_base.specs.Faults.{Rose};
ghost use Rattle.script_course.specs.Causes.{IsCause};
ghost use Rattle.script_course.specs.Courses.{Course};
ghost use Rattle.script_course.specs.Served.{Serves};
ghost use Rattle.script_rows.specs.Moves.{Moves};

use aria_base::Sink;
use script_course::{Stop, refuse};
use script_text::LinesRefused;
use std::alloc::Global;

/// Gives the line of a refusal, and stops as `Refused`. Where there was no memory, here or before, it stops as
/// `NoMemory` and gives nothing, and where the sink fails as `NoWrite`, behind a prefix of the line. `C` is the
/// state that does not go on.
pub fn refuse_line<K: Sink, C>(alloc: Global, refused: LinesRefused, out: &mut K) -> Result<C, Stop>
    ensures serves { (course : Course C) → Moves course (Err refused) → Serves course (K.given out.old) (K.given out.new) result }
    ensures stops { IsErr result }
    ensures sink { K.faults out.old ≤ K.faults out.new }
    ensures cause { IfErr result (λ stop. IsCause stop (Rose (K.faults out.old) (K.faults out.new)) ⊥) }
{
    match refused {
        LinesRefused::Memory => Err(Stop::NoMemory),
        LinesRefused::Line(refusal) => refuse(alloc, &refusal, out),
    }
}
