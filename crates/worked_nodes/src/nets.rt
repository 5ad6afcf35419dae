// Nodes of accounts, and what happens to their messages.
ghost use Rattle.std.specs.Prelude.{◌≡◌, ◌≤◌};
ghost use Rattle.node_world.specs.Worlds.{AreLevel};
ghost use Rattle.part_nodes.specs.Ready.{AreReady};
ghost use Rattle.node_world.specs.declared.worlds.TheConstants.{MOST_NODES};

use aria_base::{Call, Draws, MOST_REQUESTS};
use batch_core::Answer;
use cat_builtin::builtin;
use dep_rules::Rule;
use part_nodes::{NetEvent, Nodes, NodesRefused};
use proc_lang::Catalog;
use std::alloc::Global;
use std::fmt::Debug;
use std::process::Abort;
use tbl_rows::Tables;
use test_banks::{Account, Ask, row_of};

pub const MEMORY: &str = "there is memory";

/// Asserts that what was found in this case is what is wanted.
pub fn same<T: PartialEq + Debug>(rt: &impl Abort, case: &impl Debug, found: &T, wanted: &T) {
    assert_eq!(rt; found, wanted, "at {case:?}");
}

/// The catalogue of accounts.
pub fn bank(rt: &impl Abort, alloc: Global) -> Catalog {
    let found = builtin(alloc, b"bank").expect(rt, MEMORY);
    found.expect(rt, "there is a catalogue `bank`")
}

/// The accounts as rows.
pub fn accounts(rt: &impl Abort, alloc: Global, accounts: &[Account]) -> Tables {
    let mut tables = Tables::new(alloc).expect(rt, MEMORY);
    for account in accounts {
        let (key, row) = row_of(alloc, *account).expect(rt, MEMORY);
        assert!(rt; tables.put(key, row).is_ok());
    }
    tables
}

/// These calls.
pub fn calls(rt: &impl Abort, alloc: Global, asks: &[Ask]) -> Vec<Call> {
    test_banks::calls(alloc, asks).expect(rt, MEMORY)
}

/// So many nodes, from 1 to 8, with these accounts.
pub fn nodes(rt: &impl Abort, alloc: Global, rows: &[Account], many: u32, rule: Rule) -> Nodes
    requires { (1 ≤ many) × (many ≤ MOST_NODES) }
    ensures many { result.world.nodes ≡ many }
    ensures ready { AreReady result }
{
    let tables = accounts(rt, alloc, rows);
    let begun = Nodes::begin(alloc, bank(rt, alloc), tables, many, rule);
    begun.expect(rt, MEMORY)
}

/// Starts a batch.
pub fn start(rt: &impl Abort, nodes: Nodes, calls: Vec<Call>) -> Nodes
    requires { AreReady nodes }
    ensures { AreReady result }
{
    let many = nodes.requests() as usize;
    assert!(rt; many <= MOST_REQUESTS && calls.len() <= MOST_REQUESTS - many);
    match nodes.step(NetEvent::Start(calls)) {
        Ok(nodes) => nodes,
        Err(refused) => panic!(rt; "{refused:?}"),
    }
}

/// Delivers a message that was sent.
pub fn deliver(rt: &impl Abort, nodes: Nodes, k: u64) -> Nodes
    requires { AreReady nodes }
    ensures { AreReady result }
{
    match nodes.step(NetEvent::Deliver(k)) {
        Ok(nodes) => nodes,
        Err(refused) => panic!(rt; "{refused:?}"),
    }
}

/// Delivers some of the messages that were sent, drawn one by one: some never, and some more than once.
pub fn shake(rt: &impl Abort, nodes: Nodes, draws: &mut Draws, times: u32) -> Nodes
    requires { AreReady nodes }
    ensures { AreReady result }
{
    let mut nodes = nodes;
    for _ in 0..times {
        let sent = nodes.sent();
        if 0 < sent {
            nodes = deliver(rt, nodes, u64::from(draws.word()) % sent);
        }
    }
    nodes
}

/// Delivers each message three times, the last one first.
pub fn thrice_turned(rt: &impl Abort, nodes: Nodes) -> Nodes
    requires { AreReady nodes }
    ensures { AreReady result }
{
    let mut nodes = nodes;
    let sent = nodes.sent();
    for _ in 0..3 {
        for back in 0..sent {
            nodes = deliver(rt, nodes, sent - 1 - back);
        }
    }
    nodes
}

/// Until every node has completed every batch.
pub fn settled(rt: &impl Abort, nodes: Nodes) -> Nodes
    requires { AreReady nodes }
    ensures level { AreLevel result.world }
    ensures ready { AreReady result }
{
    nodes.settle().expect(rt, MEMORY)
}

/// The answer of a batch that all nodes have completed.
pub fn answer(rt: &impl Abort, nodes: &Nodes, batch: u64) -> Answer
    requires { AreReady nodes.now }
{
    let found = nodes.answer(batch).expect(rt, MEMORY);
    found.expect(rt, "all nodes have completed the batch")
}

/// Why the delivery of this message is refused.
pub fn refused(rt: &impl Abort, nodes: Nodes, k: u64) -> NodesRefused
    requires { AreReady nodes }
{
    match nodes.step(NetEvent::Deliver(k)) {
        Ok(_nodes) => panic!(rt; "it is not refused"),
        Err(refused) => refused,
    }
}
