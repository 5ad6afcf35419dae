// The command `nodes`.
ghost use Rattle.std.specs.Prelude.{◌≡◌, ◌≤◌, IfOk, IfErr};
ghost use Rattle.std.specs.Io.KnownBytes.{IsAtEnd};
ghost use Rattle.aria_base.specs.Faults.{Rose};
ghost use Rattle.script_course.specs.Causes.{IsReadCause};
ghost use Rattle.script_course.specs.Served.{Completes};
ghost use Rattle.script_course.specs.declared.statuses.TheConstants.{DONE};
ghost use Rattle.nodes_command.specs.Outs.{IsInRange, out_of, told_of};

use crate::ends::end_of;
use crate::scripts::NodesScript;
use aria_base::{LONGEST_LINE, Sink, Source};
use command_words::Nodes;
use run_commands::is_each;
use script_course::{MOST_BYTES, Stop, read_through};
use std::alloc::Global;

/// Runs the script that the source gives on nodes that divide its database, and answers each batch as soon as its end is read.
/// Where the source tells its bytes, what is printed is the output that they have, and the status is its status; where it was
/// cut off, a prefix of it was printed, and where the source failed, all that the bytes so far tell. The number of nodes, from
/// 1 to 8, has no say in it.
pub fn nodes<S: Source, K: Sink>(
    alloc: Global,
    settings: &Nodes,
    input: &mut S,
    out: &mut K,
) -> Result<u8, Stop>
    requires { IsInRange settings.now }
    ensures completes { Completes (told_of settings.now) (out_of settings.now) (S.left input.old) (S.left input.new) (K.given out.old)
        (K.given out.new) result }

    // Where nothing was in the way, the answer is 0, and the input was read to its end.
    ensures zero { IfOk result (λ status. status ≡ DONE) }
    ensures end { IfOk result (λ _. IsAtEnd (S.left input.new)) }

    // Each stop for a fault has its cause.
    ensures source { S.faults input.old ≤ S.faults input.new }
    ensures sink { K.faults out.old ≤ K.faults out.new }
    ensures cause { IfErr result (λ stop. IsReadCause stop (Rose (S.faults input.old) (S.faults input.new)) (Rose (K.faults out.old) (K.faults out.new)) ⊥) }
{
    let each = is_each(settings.listing);
    let Ok(start) = NodesScript::start(alloc, settings.rule, settings.nodes, each) else {
        return Err(Stop::NoMemory);
    };
    match read_through(alloc, MOST_BYTES, LONGEST_LINE as u32, start, input, out) {
        Ok(last) => end_of(alloc, last, settings.drain, out),
        Err(stop) => Err(stop),
    }
}
