// The batches that run what waits, when no new calls come.
ghost use Rattle.std.specs.Prelude.{◌≡◌, ◌≢◌, ◌≤◌, ◌<◌, ◌+◌, ℕ, List, [], length, Err, IfOk, IfErr};
ghost use Rattle.aria_base.specs.Faults.{Rose};
ghost use Rattle.script_course.specs.Causes.{IsCause};
ghost use Rattle.script_course.specs.Served.{Serves};
ghost use Rattle.serving.specs.Drains.{drains, one_drained};
ghost use Rattle.nodes_command.specs.Bases.{AreDone, state_now, state_result};

use crate::batches::run_batch;
use aria_base::{GREATEST_NUMBER, Memory, Sink};
use part_nodes::Nodes;
use proc_lang::Catalog;
use script_course::{Stop, give, refuse};
use script_text::{Refusal, RefusalKind};
use std::alloc::Global;

/// Runs batches without new calls until nothing waits, and gives the text of each. One that would have a number past the
/// greatest is refused, with this number as its line.
pub(crate) fn drain<K: Sink>(
    alloc: Global,
    catalog: &Catalog,
    start: Nodes,
    each: bool,
    line: u64,
    out: &mut K,
) -> Result<Nodes, Stop>
    requires done { AreDone start }
    requires plan { start.world.catalog ≡ catalog.now }
    ensures serves { Serves (drains catalog.now each line (state_now start)) (K.given out.old) (K.given out.new) (state_result result) }
    ensures done { IfOk result AreDone }
    ensures plan { IfOk result (λ n. n.world.catalog ≡ catalog.now) }
    ensures sink { K.faults out.old ≤ K.faults out.new }
    ensures cause { IfErr result (λ stop. IsCause stop (Rose (K.faults out.old) (K.faults out.new)) ⊥) }
{
    let mut nodes = start;
    for _ in 0..nodes.waiting() {
        if nodes.waiting() == 0 {
            return Ok(nodes);
        }
        match drain_one(alloc, catalog, nodes, each, line, out) {
            Ok(next) => nodes = next,
            Err(stop) => return Err(stop),
        }
    }
    Ok(nodes)
}

/// One of these batches.
fn drain_one<K: Sink>(
    alloc: Global,
    catalog: &Catalog,
    nodes: Nodes,
    each: bool,
    line: u64,
    out: &mut K,
) -> Result<Nodes, Stop>
    requires done { AreDone nodes }
    requires plan { nodes.world.catalog ≡ catalog.now }
    ensures serves { Serves (one_drained catalog.now each line (state_now nodes)) (K.given out.old) (K.given out.new) (state_result result) }
    ensures done { IfOk result AreDone }
    ensures plan { IfOk result (λ n. n.world.catalog ≡ catalog.now) }
    ensures sink { K.faults out.old ≤ K.faults out.new }
    ensures cause { IfErr result (λ stop. IsCause stop (Rose (K.faults out.old) (K.faults out.new)) ⊥) }
{
    nodes.ready();
    if GREATEST_NUMBER <= nodes.batches() {
        let kind = RefusalKind::Numbers;
        return refuse(alloc, &Refusal { line, kind }, out);
    }
    match run_batch(alloc, catalog, nodes, Vec::new(alloc), each) {
        Ok((next, text)) => give(next, &text, out),
        Err(Memory) => Err(Stop::NoMemory),
    }
}
