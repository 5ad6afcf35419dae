// A script of rows as a whole.
ghost use Rattle.std.specs.Prelude.{◌≤◌, IfOk, IfErr};
ghost use Rattle.std.specs.Io.KnownBytes.{IsAtEnd};
ghost use Rattle.aria_base.specs.Faults.{Rose};
ghost use Rattle.script_course.specs.Causes.{IsReadCause};
ghost use Rattle.script_course.specs.Served.{Comes};
ghost use Rattle.script_rows.specs.Drafts.{IsFitting, read_of, told_of};

use crate::drafts::Draft;
use aria_base::{LONGEST_LINE, Memory, Sink, Source};
use script_course::{MOST_BYTES, Stop, read_through};
use script_places::Mode;
use std::alloc::Global;

/// Reads the script of rows that the source gives to its end, at most [`MOST_BYTES`] in lines of at most
/// [`LONGEST_LINE`]. The mode is that of a command whose scripts have no batches, `Init` or `Audit`; in another
/// one batches are read as well, and passed over.
///
/// What is printed is what the text prints, and where it was cut off, a prefix of it: nothing but the line of a
/// refusal, at which it stops as `Refused`. It stops for a fault of the source or of the sink, and where there is
/// no memory.
pub fn read_rows<S: Source, K: Sink>(
    alloc: Global,
    mode: Mode,
    input: &mut S,
    out: &mut K,
) -> Result<Draft, Stop>
    ensures comes { Comes (told_of mode) (read_of mode) (S.left input.old) (S.left input.new) (K.given out.old) (K.given out.new) result }
    ensures fitting { IfOk result IsFitting }
    ensures end { IfOk result (λ _. IsAtEnd (S.left input.new)) }

    // Each stop for a fault has its cause.
    ensures source { S.faults input.old ≤ S.faults input.new }
    ensures sink { K.faults out.old ≤ K.faults out.new }
    ensures cause { IfErr result (λ stop. IsReadCause stop (Rose (S.faults input.old) (S.faults input.new)) (Rose (K.faults out.old) (K.faults out.new)) ⊥) }
{
    match Draft::start(alloc, mode) {
        Ok(start) => read_through(alloc, MOST_BYTES, LONGEST_LINE as u32, start, input, out),
        Err(Memory) => Err(Stop::NoMemory),
    }
}
