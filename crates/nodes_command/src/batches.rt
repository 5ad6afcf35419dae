// A batch of the nodes, and what it prints.
ghost use Rattle.std.specs.Prelude.{◌≡◌, ◌≤◌, ◌<◌, ◌+◌, ◌-◌, ◌++◌, if◌then◌else◌, [], length, IfOk};
ghost use Rattle.answer_text.specs.Answers.{answer_text};
ghost use Rattle.aria_base.specs.declared.limits.TheConstants.{MOST_REQUESTS};
ghost use Rattle.batch_core.specs.Steps.{answer, step};
ghost use Rattle.node_world.specs.Steps.{IsFixed};
ghost use Rattle.part_nodes.specs.Asked.{handed_in, state_in};
ghost use Rattle.proc_lang.specs.Catalogs.{run_of};
ghost use Rattle.serving.specs.Lives.{batch_text, handed_at, listing};
ghost use Rattle.nodes_command.specs.Bases.{AreDone, state_now};
ghost use Rattle.nodes_command.specs.Batches.{IsNext, last_text};

use crate::bases::list_nodes;
use answer_text::print_answer;
use aria_base::{Call, Memory};
use part_nodes::{NetEvent, Nodes, NodesRefused};
use proc_lang::Catalog;
use std::alloc::Global;

/// Runs a batch of these calls, of this catalogue, until every node has completed it. The answer is the nodes behind it, and
/// what it prints.
pub(crate) fn run_batch(
    alloc: Global,
    catalog: &Catalog,
    nodes: Nodes,
    calls: Vec<Call>,
    each: bool,
) -> Result<(Nodes, Vec<u8>), Memory>
    requires done { AreDone nodes }
    requires plan { nodes.world.catalog ≡ catalog.now }
    requires room { nodes.world.requests + length calls.items ≤ MOST_REQUESTS }
    ensures next { IfOk result (λ ran. IsNext nodes calls.items ran.0) }
    ensures text { IfOk result (λ ran. ran.1.items
        ≡ batch_text catalog.now each (state_now nodes) (handed_at (state_now nodes) calls.items)) }
{
    let next = advanced(nodes, calls)?;
    let text = text_of(alloc, catalog, &next, each)?;
    Ok((next, text))
}

/// The nodes behind a batch of these calls, which every node has completed.
fn advanced(nodes: Nodes, calls: Vec<Call>) -> Result<Nodes, Memory>
    requires done { AreDone nodes }
    requires room { nodes.world.requests + length calls.items ≤ MOST_REQUESTS }
    ensures { IfOk result (IsNext nodes calls.items) }
{
    match nodes.step(NetEvent::Start(calls)) {
        Ok(started) => {
            let settled = started.settle()?;
            Ok(settled)
        }
        Err(NodesRefused::Memory) => Err(Memory),
        Err(NodesRefused::NotSent { .. }) => unreachable!(),
    }
}

/// What the last batch printed, of nodes that have completed it.
fn text_of(alloc: Global, catalog: &Catalog, nodes: &Nodes, each: bool) -> Result<Vec<u8>, Memory>
    requires done { AreDone nodes.now }
    requires some { 0 < length nodes.now.world.started.items }
    ensures { IfOk result (λ text. text.items ≡ last_text catalog.now each nodes.now) }
{
    let Some(answer) = nodes.answer(nodes.batches())? else {
        unreachable!()
    };
    let mut text = print_answer(alloc, catalog, &answer)?;
    if !each {
        return Ok(text);
    }
    let list = list_nodes(alloc, catalog, nodes)?;
    text.extend_from_slice(&list)?;
    Ok(text)
}
